//! What the words of a command line say.
ghost use Rattle.std.specs.Prelude.{◌≡◌, ◌↔◌, ◌≤◌, ℕ, Option, codes, true, false, Some, None, Err, IfErr, IfOk, IfSome, IsOk, MatchResult, MatchOption, option_map};
ghost use Rattle.clap.specs.Matches.{found_of};
ghost use Rattle.clap.specs.Words.{first_value};
ghost use Rattle.mc_options.specs.Numbers.{GivesNumber, IsUnit};
ghost use Rattle.mc_flash.specs.Geometry.{Geometry, refusal_of};
ghost use Rattle.mc_options.specs.Refusals.{ConfirmsAlone, HasText, IsSyntax, LacksCreate, LacksExtent, LacksFlash, LacksLayout, LacksRange, LacksRequired, LacksRules, LacksSpan, LacksTimes, LacksUnit, LacksView};
ghost use Rattle.mc_options.specs.Arguments.{GivesCreate, GivesLayout, Judges, GivesSource, RefusesSource, is_source, kind_text, GivesRules, GivesFlash, GivesExtent, GivesRange, GivesSpan, GivesView, HasTexts, MayGiveTimes, gives_two};

use crate::numbers::NumberOption;
use crate::refusal::Refusal;
use clap::ArgMatches;
use mc_campaign::{Campaign, CampaignCursor};
use mc_explore::{Cursor, Kind, Schedule};
use mc_flash::{Grain, Layout};
use mc_image::Version;
use mc_imgtool::CreateOptions;
use mc_trace::{Moment, Span, Times, View, Words};
use mc_trailer::{Profile, Rules};

/// The text of an argument that a command cannot do without.
///
/// # Errors
///
/// `Argument` where it is missing.
pub fn required<'a>(arguments: &ArgMatches<'a>, name: &str) -> Result<&'a str, Refusal>
    ensures { MatchResult result
        (λ text. first_value (found_of arguments.now) name.now ≡ Some text.now)
        (λ e. (e ≡ Refusal.Argument) × (first_value (found_of arguments.now) name.now ≡ None)) }
{
    arguments.get_str(name).ok_or(Refusal::Argument)
}

/// The write unit of the flash.
///
/// # Errors
///
/// `Number` where it is given, but not as 1, 2, 4 or 8; `Argument` where it is missing.
fn align(arguments: &ArgMatches<'_>) -> Result<u8, Refusal>
    ensures given { IfOk result (λ n. GivesNumber (found_of arguments.now) NumberOption.Align n
        × IsUnit n) }
    ensures taken { (n : ℕ) → GivesNumber (found_of arguments.now) NumberOption.Align n → IsUnit n
        → IsOk result }
    ensures refused { IfErr result (LacksUnit (found_of arguments.now)) }
{
    match NumberOption::Align.read_required(arguments)? {
        unit @ (1 | 2 | 4 | 8) => Ok(unit as u8),
        _ => Err(Refusal::Number(NumberOption::Align)),
    }
}

/// What `create` is given. The version is checked first.
///
/// # Errors
///
/// `Version` where its text names none; `Number` where a text says no number that its option takes; `Argument` where a
/// required value, or one with a default, is missing.
pub fn create_options(arguments: &ArgMatches<'_>) -> Result<CreateOptions, Refusal>
    ensures given { IfOk result (GivesCreate (found_of arguments.now)) }
    ensures taken { (o : CreateOptions) → GivesCreate (found_of arguments.now) o → IsOk result }
    ensures refused { IfErr result (LacksCreate (found_of arguments.now)) }
{
    let version = Version::read(required(arguments, "version")?)?;
    Ok(CreateOptions {
        version,
        header_size: NumberOption::HeaderSize.read_required(arguments)? as u16,
        pad_header: arguments.get_flag("pad-header"),
        slot_size: NumberOption::SlotSize.read(arguments)?,
        align: align(arguments)?,
        max_sectors: NumberOption::SlotSectors.read_required(arguments)?,
        pad: arguments.get_flag("pad"),
        confirm: arguments.get_flag("confirm"),
        security_counter: NumberOption::SecurityCounter.read(arguments)?,
    })
}

/// The layout that six numbers give.
///
/// # Errors
///
/// `Layout` with the first check that the numbers fail; `Number` where a text says no number below 2^32; `Argument`
/// where one is missing.
pub fn layout_options(arguments: &ArgMatches<'_>) -> Result<Layout, Refusal>
    ensures given { IfOk result (λ l. GivesLayout (found_of arguments.now) l) }
    ensures judged { (g : Geometry) → GivesLayout (found_of arguments.now) g
        → Judges (refusal_of g) result }
    ensures refused { IfErr result (LacksLayout (found_of arguments.now)) }
{
    let sector = NumberOption::Sector.read_required(arguments)?;
    let unit = NumberOption::Unit.read_required(arguments)?;
    let max_sectors = NumberOption::MaxSectors.read_required(arguments)?;
    let chunk = NumberOption::Chunk.read_required(arguments)?;
    let primary = NumberOption::Primary.read_required(arguments)?;
    let secondary = NumberOption::Secondary.read_required(arguments)?;
    match Layout::new(sector, unit, max_sectors, chunk, primary, secondary) {
        Ok(layout) => Ok(layout),
        Err(error) => Err(Refusal::Layout(error)),
    }
}

/// How long the flash takes to erase a sector and to write a unit, if the options say it.
///
/// # Errors
///
/// `Number` where a text says no number below 2^32; `Argument` where one of the two is missing.
pub fn times_options(arguments: &ArgMatches<'_>) -> Result<Option<Times>, Refusal>
    ensures given { IfOk result (MayGiveTimes (found_of arguments.now)) }
    ensures taken { (times : Option Times) → MayGiveTimes (found_of arguments.now) times
        → IsOk result }
    ensures refused { IfErr result (LacksTimes (found_of arguments.now)) }
{
    let erase = NumberOption::EraseUs.read(arguments)?;
    let write = NumberOption::WriteUs.read(arguments)?;
    match (erase, write) {
        (Some(erase_us), Some(write_us)) => Ok(Some(Times { erase_us, write_us })),
        (None, None) => Ok(None),
        _ => Err(Refusal::Argument),
    }
}

/// Where a flash comes from.
#[derive(Debug, Drop)]
pub enum Source<'a> {
    /// A file of the bytes of both slots.
    Flash(&'a str),
    /// Two files of images, and what the flash asks a boot for.
    Images { kind: Kind, a: &'a str, b: &'a str },
}

/// The kind of a start that a text names.
fn kind_of(text: &str) -> Option<Kind>
    ensures { MatchOption result ((k : Kind) → text.now ≡ kind_text k → ⊥)
        (λ k. text.now ≡ kind_text k) }
{
    match text {
        "none" => Some(Kind::None),
        "test" => Some(Kind::Test),
        "perm" => Some(Kind::Perm),
        "revert" => Some(Kind::Revert),
        _ => None,
    }
}

/// The name of a kind of a start.
pub fn kind_name(kind: Kind) -> &'static str
    ensures { result.now ≡ kind_text kind }
{
    match kind {
        Kind::None => "none",
        Kind::Test => "test",
        Kind::Perm => "perm",
        Kind::Revert => "revert",
    }
}

/// The source that the options give: a flash alone, or a kind and both images.
///
/// # Errors
///
/// `Source` where they give anything else; `Argument` where the kind is none.
fn source_options<'a>(arguments: &ArgMatches<'a>) -> Result<Source<'a>, Refusal>
    ensures { MatchResult result (λ s. GivesSource (found_of arguments.now) s)
        (λ r. RefusesSource (found_of arguments.now) r) }
{
    let flash = arguments.get_str("flash");
    let kind_name = arguments.get_str("kind");
    let a = arguments.get_str("image-a");
    let b = arguments.get_str("image-b");
    match (flash, kind_name, a, b) {
        (Some(path), None, None, None) => Ok(Source::Flash(path)),
        (None, Some(name), Some(a), Some(b)) => match kind_of(name) {
            Some(kind) => Ok(Source::Images { kind, a, b }),
            None => Err(Refusal::Argument),
        },
        _ => Err(Refusal::Source),
    }
}

/// What the arguments give by `--grain` and `--profile`. Where one of them is left out, whole calls and the first profile.
///
/// # Errors
///
/// `Argument` where one of the texts names nothing.
pub fn rules_options(arguments: &ArgMatches<'_>) -> Result<Rules, Refusal>
    ensures given { IfOk result (GivesRules (found_of arguments.now)) }
    ensures taken { (rules : Rules) → GivesRules (found_of arguments.now) rules → IsOk result }
    ensures refused { IfErr result (LacksRules (found_of arguments.now)) }
{
    let mut rules = Rules::PLAIN;
    if let Some(text) = arguments.get_str("grain") {
        rules.grain = Grain::read(text).ok_or(Refusal::Argument)?;
    }
    if let Some(text) = arguments.get_str("profile") {
        rules.profile = Profile::read(text).ok_or(Refusal::Argument)?;
    }
    Ok(rules)
}

/// What each command on a flash is given: where the flash comes from, its layout, and the rules of its boots.
#[derive(Debug, Drop)]
pub struct FlashOptions<'a> {
    pub source: Source<'a>,
    pub layout: Layout,
    pub rules: Rules,
}

/// The source, the layout and the rules that the options give. They are checked in this order.
/// Promised, also of `layout_options`: 70, or the first check that a layout fails; `call` and 1 by default (`given`, `judged`,
/// `GivesRules`).
///
/// # Errors
///
/// What `source_options`, `layout_options` and `rules_options` refuse.
pub fn flash_options<'a>(arguments: &ArgMatches<'a>) -> Result<FlashOptions<'a>, Refusal>
    ensures given { IfOk result (GivesFlash (found_of arguments.now)) }
    ensures source { is_source (found_of arguments.now) ≡ false → result ≡ Err Refusal.Source }
    ensures judged { (s : Source) (g : Geometry) (rules : Rules)
        → GivesSource (found_of arguments.now) s → GivesLayout (found_of arguments.now) g
        → GivesRules (found_of arguments.now) rules → Judges (refusal_of g) result }
    ensures refused { IfErr result (LacksFlash (found_of arguments.now)) }
{
    let source = source_options(arguments)?;
    let layout = layout_options(arguments)?;
    let rules = rules_options(arguments)?;
    Ok(FlashOptions {
        source,
        layout,
        rules,
    })
}

/// Whether two rounds of boots are asked for.
///
/// # Errors
///
/// `Argument` where the image is to confirm itself after the only round.
pub fn has_two_rounds(arguments: &ArgMatches<'_>) -> Result<bool, Refusal>
    ensures { MatchResult result (λ two. (two ≡ true) ↔ (first_value (found_of arguments.now)
        (codes "rounds") ≡ Some (codes "2"))) (ConfirmsAlone (found_of arguments.now)) }
{
    let two = matches!(arguments.get_str("rounds"), Some("2"));
    if arguments.get_flag("confirm") && !two {
        return Err(Refusal::Argument);
    }
    Ok(two)
}

/// From which number of a boot's operations to which they are shown: all where nothing is given.
///
/// # Errors
///
/// `Number` where a text says no number that it takes.
pub fn span_options(arguments: &ArgMatches<'_>) -> Result<Span, Refusal>
    ensures given { IfOk result (GivesSpan (found_of arguments.now)) }
    ensures taken { (s : Span) → GivesSpan (found_of arguments.now) s → IsOk result }
    ensures refused { IfErr result (LacksSpan (found_of arguments.now)) }
{
    let from = NumberOption::From.read(arguments)?;
    let to = NumberOption::To.read(arguments)?;
    Ok(Span {
        from: from.unwrap_or(0),
        to: to.unwrap_or(u32::MAX),
    })
}

/// Of which flash a picture is, and which words it has.
///
/// # Errors
///
/// `Argument` where the text names no words.
pub fn view_options(arguments: &ArgMatches<'_>) -> Result<View, Refusal>
    ensures given { IfOk result (GivesView (found_of arguments.now)) }
    ensures taken { (v : View) → GivesView (found_of arguments.now) v → IsOk result }
    ensures refused { IfErr result (LacksView (found_of arguments.now)) }
{
    let words = match arguments.get_str("words") {
        None | Some("plain") => Words::Plain,
        Some("all") => Words::All,
        Some(_) => return Err(Refusal::Argument),
    };
    let moment = if arguments.get_flag("end") {
        Moment::AtEnd
    } else {
        Moment::AtCut
    };
    Ok(View { moment, words })
}

/// How far an exploration goes.
#[derive(Clone, Copy, Debug)]
pub struct ExploreOptions {
    /// The most cuts of a schedule, at most 16.
    pub cuts: u8,
    /// The most rows of a page, at least 1.
    pub limit: u32,
}

/// The most cuts of a schedule.
/// Promised, also of `explore_options`, `span_options` and `view_options`: numbers, extents and spans are taken wherever given (`given`,
/// `taken`).
///
/// # Errors
///
/// `Argument` where they are missing, or out of their range.
pub fn census_options(arguments: &ArgMatches<'_>) -> Result<u8, Refusal>
    ensures given { IfOk result (GivesNumber (found_of arguments.now) NumberOption.Cuts) }
    ensures taken { (n : ℕ) → GivesNumber (found_of arguments.now) NumberOption.Cuts n
        → IsOk result }
    ensures refused { IfErr result (LacksRequired (found_of arguments.now) NumberOption.Cuts) }
    ensures range { IfOk result (λ cuts. cuts ≤ 16) }
{
    Ok(NumberOption::Cuts.read_required(arguments)? as u8)
}

/// The most cuts and the most rows: with `--all` as many as a page can have.
///
/// # Errors
///
/// `Argument` where one is missing, or out of its range.
pub fn explore_options(arguments: &ArgMatches<'_>) -> Result<ExploreOptions, Refusal>
    ensures given { IfOk result (GivesExtent (found_of arguments.now)) }
    ensures taken { (o : ExploreOptions) → GivesExtent (found_of arguments.now) o → IsOk result }
    ensures refused { IfErr result (LacksExtent (found_of arguments.now)) }
    ensures range { IfOk result (λ o. (o.cuts ≤ 16) × (1 ≤ o.limit)) }
{
    let cuts = census_options(arguments)?;
    let limit = NumberOption::Limit.read_required(arguments)?;
    let all = arguments.get_flag("all");
    Ok(ExploreOptions {
        cuts,
        limit: if all { u32::MAX } else { limit },
    })
}

/// Which of the rows an exploration gives.
#[derive(Clone, Copy, Debug)]
pub struct RangeOptions<U, K> {
    /// The cursor of an earlier page, after which it goes on.
    pub cursor: Option<U>,
    /// Or the key after which it goes on.
    pub after: Option<K>,
    /// Or the key with which it begins.
    pub from: Option<K>,
    /// The key before which it stops.
    pub until: Option<K>,
}

/// What an option is given by its text.
pub trait Spelled: Copy {
    ghost use Rattle.std.specs.Prelude.{◌≡◌, ℕ, List, IfErr, IfOk, IsOk};
    ghost use Rattle.mc_options.specs.Refusals.{IsSyntax};

    ghost spelling: { Self → List ℕ };

    ghost IsSpelled: { Self → Type 0 };

    /// What has that text.
    ///
    /// # Errors
    ///
    /// Of a text that is none of it.
    fn of_text(text: &str) -> Result<Self, Refusal>
        ensures given { IfOk result (λ value. text.now ≡ spelling value) }
        ensures taken { (value : Self) → IsSpelled value → text.now ≡ spelling value → IsOk
            result }
        ensures refused { IfErr result IsSyntax };
}

impl Spelled for Schedule {
    ghost use Rattle.mc_start.specs.Start.{IsSchedule, schedule_text};

    ghost spelling = { schedule_text };

    ghost IsSpelled = { IsSchedule };

    fn of_text(text: &str) -> Result<Schedule, Refusal> {
        Ok(Schedule::read(text)?)
    }
}

impl Spelled for Cursor {
    ghost use Rattle.mc_start.specs.Cursor.{cursor_text, IsCursor};

    ghost spelling = { cursor_text };

    ghost IsSpelled = { IsCursor };

    fn of_text(text: &str) -> Result<Cursor, Refusal> {
        Ok(Cursor::read(text)?)
    }
}

impl Spelled for Campaign {
    ghost use Rattle.mc_campaign.specs.Texts.{campaign_text, IsCampaign};

    ghost spelling = { campaign_text };

    ghost IsSpelled = { IsCampaign };

    fn of_text(text: &str) -> Result<Campaign, Refusal> {
        Ok(Campaign::read(text)?)
    }
}

impl Spelled for CampaignCursor {
    ghost use Rattle.mc_campaign.specs.Texts.{cursor_text, IsCursor};

    ghost spelling = { cursor_text };

    ghost IsSpelled = { IsCursor };

    fn of_text(text: &str) -> Result<CampaignCursor, Refusal> {
        Ok(CampaignCursor::read(text)?)
    }
}

/// What an option is given, if anything.
///
/// # Errors
///
/// Where its text is none of it.
fn option_of<T: Spelled>(arguments: &ArgMatches<'_>, name: &str) -> Result<Option<T>, Refusal>
    ensures given { IfOk result (λ o. first_value (found_of arguments.now) name.now
        ≡ option_map T.spelling o) }
    ensures taken { (o : Option T) → IfSome o T.IsSpelled
        → first_value (found_of arguments.now) name.now ≡ option_map T.spelling o → IsOk result }
    ensures refused { IfErr result (λ e. IsSyntax e × HasText (found_of arguments.now) name.now
        (λ text. (value : T) → T.IsSpelled value → text ≡ T.spelling value → ⊥)) }
{
    match arguments.get_str(name) {
        Some(text) => Ok(Some(T::of_text(text)?)),
        None => Ok(None),
    }
}

/// Whether two options or more say where an exploration begins.
fn gives_two(arguments: &ArgMatches<'_>) -> bool
    ensures { result ≡ gives_two (found_of arguments.now) }
{
    let cursor = arguments.get_str("cursor").is_some();
    let after = arguments.get_str("after").is_some();
    let from = arguments.get_str("from").is_some();
    (cursor && after) || (from && (cursor || after))
}

/// Where an exploration begins, and where it stops. That only one option says where it begins is checked first.
/// Promised: ranges and cursors are taken wherever given (`given`, `taken`, `two`).
///
/// # Errors
///
/// `CursorOptions` where two of `--cursor`, `--after` and `--from` are given; `Cursor`, `Schedule` and `Campaign` where a text is none
/// of what it is read as.
pub fn range_options<U: Spelled, K: Spelled>(
    arguments: &ArgMatches<'_>,
) -> Result<RangeOptions<U, K>, Refusal>
    ensures given { IfOk result (GivesRange U.spelling K.spelling (found_of arguments.now)) }
    ensures taken { (o : RangeOptions U K) → HasTexts U.IsSpelled K.IsSpelled o
        → GivesRange U.spelling K.spelling (found_of arguments.now) o → IsOk result }
    ensures two { gives_two (found_of arguments.now) ≡ true → result
        ≡ Err Refusal.CursorOptions }
    ensures refused { IfErr result (LacksRange
        (λ text. (cursor : U) → U.IsSpelled cursor → text ≡ U.spelling cursor → ⊥)
        (λ text. (key : K) → K.IsSpelled key → text ≡ K.spelling key → ⊥)
        (found_of arguments.now)) }
{
    if gives_two(arguments) {
        return Err(Refusal::CursorOptions);
    }
    Ok(RangeOptions {
        cursor: option_of(arguments, "cursor")?,
        after: option_of(arguments, "after")?,
        from: option_of(arguments, "from")?,
        until: option_of(arguments, "until")?,
    })
}
