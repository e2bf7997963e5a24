//! `explore`, `campaign` and `survey`: every schedule of power cuts, or every campaign of two rounds, with what the boots after them
//! do, and how many do what.
ghost use Rattle.std.specs.Prelude.{◌≡◌, ◌≤◌, IfErr, IfOk, OnOk, option_map};
ghost use Rattle.std.specs.Io.KnownBytes.{Keeps};
ghost use Rattle.clap.specs.Matches.{found_of};
ghost use Rattle.mc_explore.specs.Pages.{Page};
ghost use Rattle.mc_explore.specs.Survey.{tally_by};
ghost use Rattle.mc_explore.specs.declared.expectation.Expectation.{Expectation as Expected};
ghost use Rattle.mc_verdict.specs.Sessions.{Explores, PrintsUntil, TalliesFor, TalliesUntil, GivesExploration, LacksExploration, images_return, ends_of};
ghost use Rattle.mc_verdict.specs.PagesAsked.{AnswersPage, AnswersSurvey, IsUncounted, PrintBreaks};
ghost use Rattle.mc_verdict.specs.Verdicts.{AreCounted, IsExpectation, IsVerdict, is_of_slots, is_whole};
ghost use Rattle.mc_boot.specs.Plan.{identity_of};

use crate::explorable::Explorable;
use crate::verdict::{Asked, right_if_asked, write_lines};
use clap::ArgMatches;
use mc_boot::ImageId;
use mc_cli::KnownFiles;
use mc_explore::{
    Expectation, ExploreError, RightsOf, Start, Subject, TallyOf, TreeExplorer, all_boot,
    survey_rows, write_rows, write_tally,
};
use mc_flash::JournalFlash;
use mc_options::{
    ExploreOptions, RangeOptions, Refusal, Source, explore_options, flash_options, flush,
    read_start,
};
use std::alloc::Global;
use std::io::Write;

/// An exploration that the options ask for: where it starts, and the rows that are wanted of it.
#[derive(Drop)]
pub struct Exploration<C: Copy, U: Copy, K: Copy> {
    start: Start,
    /// What is chosen besides the start.
    choice: C,
    /// Whether both images are to lie at the end where they would without the swap.
    images_return: bool,
    extent: ExploreOptions,
    range: RangeOptions<U, K>,
}

/// Whether both images of a source are to lie at the end where they would without the swap.
pub fn images_return<X: Explorable>(source: &Source<'_>, choice: X::Choice) -> bool
    ensures { result ≡ images_return X.images_return source.now choice }
{
    match source {
        Source::Flash(_) => false,
        Source::Images { kind, .. } => X::images_return(*kind, choice),
    }
}

/// The image that is to lie in the primary at the end, and the one in the secondary.
pub fn ends(images_return: bool, named: Option<(ImageId, ImageId)>) -> Option<(ImageId, ImageId)>
    ensures { option_map (λ p. (identity_of p.0, identity_of p.1)) result ≡ ends_of images_return
        (option_map (λ p. (identity_of p.0, identity_of p.1)) named) }
{
    match named {
        Some((one, other)) if images_return => Some((other, one)),
        named => named,
    }
}

impl<C: Copy, U: Copy, K: Copy> Exploration<C, U, K> {
    /// What the slots are to hold at the end, where that is asked.
    ///
    /// # Errors
    ///
    /// `Expectation` where each row is to be right, from a flash, and a slot's expectation is not given.
    fn expectation(&self, asked: &Asked) -> Result<Option<Expectation>, Refusal>
        ensures { IsExpectation asked.now
            (ends_of self.now.images_return self.now.start.named) result }
    {
        asked.expectation(ends(self.images_return, self.start.named()))
    }
}

/// Makes an explorer at the first row, or after the one that the options name, or with that one next.
///
/// # Errors
///
/// `Explore` where the cursor or the key does not serve here, or an allocation failed.
fn explorer<'a, X: Explorable>(
    exploration: &'a Exploration<X::Choice, X::Cursor, X::Key>,
    alloc: Global,
) -> Result<TreeExplorer<'a, JournalFlash, X>, Refusal>
    requires { exploration.now.extent.cuts ≤ 16 }
    ensures { Explores X.subject X.fields exploration.now result }
{
    let (start, cuts) = (&exploration.start, exploration.extent.cuts);
    let choice = exploration.choice;
    if let Some(after) = &exploration.range.after {
        return Ok(TreeExplorer::after(alloc, start, cuts, choice, after)?);
    }
    if let Some(from) = &exploration.range.from {
        return Ok(TreeExplorer::before(alloc, start, cuts, choice, from)?);
    }
    match &exploration.range.cursor {
        Some(cursor) => Ok(TreeExplorer::resume(alloc, start, cuts, choice, cursor)?),
        None => Ok(TreeExplorer::start(alloc, start, cuts, choice)?),
    }
}

/// Prints the page, or a beginning of it.
///
/// # Errors
///
/// Those of `explorer`, and `Explore` where memory failed, or the output cannot be written.
fn print<'a, X: Explorable, O: Write>(
    exploration: &'a Exploration<X::Choice, X::Cursor, X::Key>,
    alloc: Global,
    out: &mut O,
) -> Result<(), Refusal>
    requires cuts { exploration.now.extent.cuts ≤ 16 }
    requires limit { 1 ≤ exploration.now.extent.limit }
    ensures whole { OnOk result (PrintsUntil X.subject X.fields exploration.now
        (O.contents out.old) (O.contents out.new)) }
    ensures began { IfErr result (PrintBreaks X.subject X.fields exploration.now
        (O.contents out.old) (O.contents out.new)) }
{
    let mut explorer = explorer::<X>(exploration, alloc)?;
    let (until, limit) = (&exploration.range.until, exploration.extent.limit);
    write_rows(&mut explorer, until, limit, out)?;
    Ok(())
}

/// Hands on what a buffer still holds of a page.
///
/// # Errors
///
/// `Write`.
fn flush_page<O: Write>(out: &mut O) -> Result<(), ExploreError>
    ensures keeps { Keeps (O.contents out.old) (O.contents out.new) }
    ensures err { IfErr result (λ e. e ≡ ExploreError.Write) }
{
    flush(out).map_err(|_| ExploreError::Write)
}

/// Counts the rows of the page, and how many of them are right.
///
/// # Errors
///
/// Those of `explorer`, and `Explore` where memory failed.
fn tally<'a, X: Explorable>(
    exploration: &'a Exploration<X::Choice, X::Cursor, X::Key>,
    alloc: Global,
    expectation: &Expectation,
) -> Result<(TallyOf<X::Cursor>, RightsOf<X::Key>), Refusal>
    requires cuts { exploration.now.extent.cuts ≤ 16 }
    requires limit { 1 ≤ exploration.now.extent.limit }
    ensures counts { IfOk result (λ counted. TalliesUntil X.subject X.fields exploration.now
        expectation.now counted.0 counted.1) }
    ensures err { IfErr result (IsUncounted X.subject X.fields exploration.now) }
{
    let mut explorer = explorer::<X>(exploration, alloc)?;
    let (until, limit) = (&exploration.range.until, exploration.extent.limit);
    Ok(survey_rows(&mut explorer, until, limit, expectation)?)
}

/// Counts the rows of the page, and how many of them are right where something is expected of the slots.
///
/// # Errors
///
/// Those of `tally`.
fn counts<'a, X: Explorable>(
    exploration: &'a Exploration<X::Choice, X::Cursor, X::Key>,
    alloc: Global,
    wanted: &Option<Expectation>,
) -> Result<(TallyOf<X::Cursor>, Option<RightsOf<X::Key>>), Refusal>
    requires cuts { exploration.now.extent.cuts ≤ 16 }
    requires limit { 1 ≤ exploration.now.extent.limit }
    ensures counts { IfOk result (λ counted. TalliesFor X.subject X.fields exploration.now
        wanted.now counted.0 counted.1) }
    ensures err { IfErr result (IsUncounted X.subject X.fields exploration.now) }
{
    let expectation = wanted.unwrap_or(Expectation::any());
    let (tally, rights) = tally::<X>(exploration, alloc, &expectation)?;
    match wanted {
        Some(_) => Ok((tally, Some(rights))),
        None => Ok((tally, None)),
    }
}

/// What the words ask of the rows, and the exploration that they ask for. The words are checked before a file is touched.
///
/// # Errors
///
/// `Version`, `Source`, `Layout`, the numbers, `CursorOptions`, `Cursor`, `Schedule` and `Campaign` of the words; `NeverSwaps`; what
/// `read_start` refuses.
pub fn ask<X: Explorable, F: KnownFiles>(
    files: &F,
    alloc: Global,
    arguments: &ArgMatches<'_>,
) -> Result<(Asked, Exploration<X::Choice, X::Cursor, X::Key>), Refusal>
    ensures given { IfOk result (λ given. GivesExploration X.subject X.IsChoice X.images_return
        (F.holds files.now) (found_of arguments.now) given.0 given.1) }
    ensures range { IfOk result (λ given. (given.1.extent.cuts ≤ 16)
        × (1 ≤ given.1.extent.limit)) }
    ensures refused { IfErr result (LacksExploration X.subject X.IsNoCursor X.IsNoKey
        (F.holds files.now) (found_of arguments.now)) }
{
    let asked = Asked::read(arguments)?;
    let options = match flash_options(arguments) {
        Ok(options) => options,
        Err(refusal) => return Err(refusal),
    };
    let extent = explore_options(arguments)?;
    let range = X::range(arguments)?;
    asked.check(&options.layout)?;
    let choice = X::chosen(arguments);
    let exploration = Exploration {
        choice,
        images_return: images_return::<X>(&options.source, choice),
        extent,
        range,
        start: read_start(files, alloc, &options)?,
    };
    Ok((asked, exploration))
}

/// Prints a page of rows: one for each schedule, or campaign, of at most so many cuts that can occur, in their order, from the first,
/// or from or after the one that the options name, up to one that the options name. Where something is asked of the rows, they are counted once more,
/// and how many are right follows, and the first that is not.
/// Promised, also of `survey`: page, survey, census answered, or a stated refusal (`AnswersPage`, `AnswersSurvey`, `AnswersCensus`).
///
/// # Errors
///
/// `Expectation`; `Explore` where memory failed, or the page cannot be written; `Write` of the lines after it. What is asked of the rows is
/// refused as of a survey, once the page is out.
pub fn run<'a, X: Explorable, O: Write>(
    exploration: &'a Exploration<X::Choice, X::Cursor, X::Key>,
    asked: &Asked,
    alloc: Global,
    out: &mut O,
) -> Result<(), Refusal>
    requires cuts { exploration.now.extent.cuts ≤ 16 }
    requires limit { 1 ≤ exploration.now.extent.limit }
    ensures { AnswersPage X.subject X.fields exploration.now asked.now (O.contents out.old)
        (O.contents out.new) result }
{
    let wanted = exploration.expectation(asked)?;
    print::<X, O>(exploration, alloc, out)?;
    flush_page(out)?;
    if !asked.is_any() {
        return Ok(());
    }
    let (tally, rights) = counts::<X>(exploration, alloc, &wanted)?;
    write_lines::<X, O>(&rights, out)?;
    judge::<X>(&tally, &rights, asked)
}

/// Prints how many rows that page would have, how many of them with each result, the greatest number of operations, and where
/// the page would go on. Where something is expected of the slots, also how many rows are right, and the first that is not.
///
/// # Errors
///
/// `Expectation`; `Explore` where memory failed; `Write`.
/// With `--all-boot` also `NotAllBoot` where a row does not end in a boot, with `--all-right` `NotAllRight` where one is not right,
/// and with either `NotWhole` where the page would go on; the output is written then.
pub fn survey<'a, X: Explorable, O: Write>(
    exploration: &'a Exploration<X::Choice, X::Cursor, X::Key>,
    asked: &Asked,
    alloc: Global,
    out: &mut O,
) -> Result<(), Refusal>
    requires cuts { exploration.now.extent.cuts ≤ 16 }
    requires limit { 1 ≤ exploration.now.extent.limit }
    ensures { AnswersSurvey X.subject X.fields exploration.now asked.now (O.contents out.old)
        (O.contents out.new) result }
{
    let wanted = exploration.expectation(asked)?;
    let (tally, rights) = counts::<X>(exploration, alloc, &wanted)?;
    write_tally::<X, O>(&tally, out)?;
    write_lines::<X, O>(&rights, out)?;
    judge::<X>(&tally, &rights, asked)
}

/// Whether the rows that were counted are all that there are, and there are some.
fn is_whole<X: Subject>(tally: &TallyOf<X::Cursor>) -> bool
    ensures { (page : Page X.Shown X.Cursor) → tally.now ≡ tally_by X.subject.ends page
        → result ≡ is_whole page }
{
    tally.next.is_none() && tally.rows != 0
}

/// The verdict on the rows that were counted.
///
/// # Errors
///
/// The first of `NotAllBoot`, `NotAllRight` and `NotWhole` that was asked for and does not hold. No rows at all give no verdict.
fn judge<X: Explorable>(
    tally: &TallyOf<X::Cursor>,
    rights: &Option<RightsOf<X::Key>>,
    asked: &Asked,
) -> Result<(), Refusal>
    ensures { (e : Expected) (page : Page X.Shown X.Cursor) → tally.now
        ≡ tally_by X.subject.ends page → AreCounted X.subject e page.rows rights.now
        → IsVerdict X.subject.ends asked.now.all_boot (is_of_slots asked.now) e page.rows rights.now
        (is_whole page) result }
{
    let boots = all_boot::<X>(tally);
    let right = right_if_asked::<X>(rights);
    asked.verdict(boots, right, is_whole::<X>(tally))
}
