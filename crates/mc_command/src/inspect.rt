//! `inspect` and `locate`: what a dump of a device is, and where it occurs in a swap of two images.
ghost use Rattle.std.specs.Prelude.{◌≡◌, ◌<◌, ◌≤◌, ◌&&◌, ◌^◌, ◌⊎◌, Some, codes, length, IfErr, IfOk, IfSome, None, option_map};
ghost use Rattle.clap.specs.Matches.{found_of};
ghost use Rattle.clap.specs.Words.{first_value};
ghost use Rattle.mc_options.specs.Sources.{FailsFlash, IsFlashed};
ghost use Rattle.mc_options.specs.Arguments.{GivesLayout, GivesRules};
ghost use Rattle.mc_command.specs.Inspections.{AnswersInspect, AnswersLocate, AreNamed, FailsFind, GivesInspect, GivesKnown, GivesLocate, IsFound, IsNearestOf, IsSwapOf, LacksDump, LacksInspect, LacksKnown, LacksLocate, RefusesLocate, RefusesNamed, RefusesSwap, first_of, second_of};

use clap::ArgMatches;
use mc_actions::trailers::yes_or_no;
use mc_cli::KnownFiles;
use mc_explore::{Kind, Schedules, Start};
use mc_flash::{FlashError, JournalFlash, Layout};
use mc_options::{
    GREATEST_FLASH, GREATEST_IMAGE, Refusal, kind_name, layout_options, read_file, required,
    rules_options,
};
use mc_output::write_text;
use mc_trace::write_inspection;
use mc_trailer::Rules;
use mc_vectors::{Located, locate, write_located};
use mc_verdict::Asked;
use mc_verdict::census::{Wanted, conclude, count};
use std::alloc::Global;
use std::io::Write;

/// The most cuts that are looked through.
const MOST_CUTS: u8 = 16;

/// What lies in two files of images.
#[derive(Drop)]
pub struct Images {
    a: Vec<u8>,
    b: Vec<u8>,
}

/// The image in the primary at the start of a swap of that kind, and the one in the secondary.
fn in_order<'a>(kind: Kind, a: &'a [u8], b: &'a [u8]) -> (&'a [u8], &'a [u8])
    ensures first { result.0.now ≡ first_of kind a.entry.now b.entry.now }
    ensures second { result.1.now ≡ second_of kind a.entry.now b.entry.now }
{
    match kind {
        Kind::Revert => (b, a),
        Kind::None | Kind::Test | Kind::Perm => (a, b),
    }
}

impl Images {
    /// The images that the words name, if they name two.
    ///
    /// # Errors
    ///
    /// `Source` where they name one alone; what `read_file` refuses, of the first before the second.
    fn read<F: KnownFiles>(
        files: &F,
        alloc: Global,
        arguments: &ArgMatches<'_>,
    ) -> Result<Option<Images>, Refusal>
        ensures given { IfOk result (GivesKnown (F.holds files.now) (found_of arguments.now)) }
        ensures refused { IfErr result (LacksKnown (F.holds files.now) (found_of arguments.now)) }
    {
        match (arguments.get_str("known-a"), arguments.get_str("known-b")) {
            (Some(a), Some(b)) => Ok(Some(Images {
                a: read_file(files, alloc, a, GREATEST_IMAGE)?,
                b: read_file(files, alloc, b, GREATEST_IMAGE)?,
            })),
            (None, None) => Ok(None),
            _ => Err(Refusal::Source),
        }
    }

    /// The start of a swap of them. Of a revert it is the one that takes the test of the second back.
    ///
    /// # Errors
    ///
    /// `Start` with what is refused of the images.
    fn start_of(
        &self,
        alloc: Global,
        layout: &Layout,
        rules: Rules,
        kind: Kind,
    ) -> Result<Start, Refusal>
        ensures layout { IfOk result (λ start. start.geometry ≡ layout.now) }
        ensures swap { IfOk result (IsSwapOf self.now layout.now rules kind) }
        ensures refused { IfErr result (RefusesSwap self.now layout.now kind) }
    {
        let (first, second) = in_order(kind, self.a.as_slice(), self.b.as_slice());
        match Start::from_images(alloc, layout, kind, first, second) {
            Ok(start) => Ok(start.with_rules(rules)),
            Err(error) => Err(Refusal::Start(error)),
        }
    }
}

/// A dump: its file, its layout, and the rules of the boots from there.
#[derive(Debug, Drop)]
struct Dump<'a> {
    path: &'a str,
    layout: Layout,
    rules: Rules,
}

impl<'a> Dump<'a> {
    /// What the words say of it.
    ///
    /// # Errors
    ///
    /// `Layout` and `Argument` of the words.
    fn named(arguments: &ArgMatches<'a>) -> Result<Dump<'a>, Refusal>
        ensures layout { IfOk result (λ d. GivesLayout (found_of arguments.now) d.layout) }
        ensures rules { IfOk result (λ d. GivesRules (found_of arguments.now) d.rules) }
        ensures path { IfOk result (λ d. first_value (found_of arguments.now) (codes "flash")
            ≡ Some d.path.now) }
        ensures refused { IfErr result (LacksDump (found_of arguments.now)) }
    {
        let layout = layout_options(arguments)?;
        let rules = rules_options(arguments)?;
        Ok(Dump {
            path: required(arguments, "flash")?,
            layout,
            rules,
        })
    }

    /// The start from its bytes.
    ///
    /// # Errors
    ///
    /// What `read_file` refuses; `Start` where they are not as many as both slots have.
    fn read<F: KnownFiles>(&self, files: &F, alloc: Global) -> Result<Start, Refusal>
        ensures layout { IfOk result (λ start. start.geometry ≡ self.now.layout) }
        ensures rules { IfOk result (λ start. start.rules ≡ self.now.rules) }
        ensures bytes { IfOk result (λ start. IsFlashed (F.holds files.now) self.now.layout
            self.now.path.now start.content) }
        ensures refused { IfErr result (FailsFlash (F.holds files.now) self.now.layout
            self.now.path.now) }
    {
        let bytes = read_file(files, alloc, self.path, GREATEST_FLASH)?;
        let start = Start::from_flash(alloc, &self.layout, bytes.as_slice())?;
        Ok(start.with_rules(self.rules))
    }
}

/// What `inspect` is asked for: the census of a dump that is to be taken, and the images that are known.
#[derive(Drop)]
pub struct Inspected {
    wanted: Wanted<()>,
    images: Option<Images>,
}

/// What `inspect` is asked for. The words are checked before a file is touched.
///
/// # Errors
///
/// Those of `Dump::named` and `Asked::read`; `NeverSwaps`; those of `Images::read` and `Dump::read`.
pub fn read<F: KnownFiles>(
    files: &F,
    alloc: Global,
    arguments: &ArgMatches<'_>,
) -> Result<Inspected, Refusal>
    ensures given { IfOk result (GivesInspect (F.holds files.now) (found_of arguments.now)) }
    ensures refused { IfErr result (LacksInspect (F.holds files.now) (found_of arguments.now)) }
{
    let dump = match Dump::named(arguments) {
        Ok(dump) => dump,
        Err(refusal) => return Err(refusal),
    };
    let asked = Asked::read(arguments)?;
    asked.check(&dump.layout)?;
    let images = Images::read(files, alloc, arguments)?;
    let start = dump.read(files, alloc)?;
    Ok(Inspected {
        wanted: Wanted::of_dump(start, MOST_CUTS, asked),
        images,
    })
}

/// The start of the known images, if they are given.
///
/// # Errors
///
/// `Start` with what is refused of the images.
fn named_start(alloc: Global, asked: &Inspected) -> Result<Option<Start>, Refusal>
    ensures named { IfOk result (λ named. AreNamed asked.now
        (option_map (λ start. start.content) named)) }
    ensures layout { IfOk result (λ named. IfSome named
        (λ start. start.geometry ≡ asked.now.wanted.start.geometry)) }
    ensures refused { IfErr result (RefusesNamed asked.now) }
{
    let start = asked.wanted.start();
    match &asked.images {
        Some(images) => {
            let named = images.start_of(alloc, start.layout(), start.rules(), Kind::None)?;
            Ok(Some(named))
        }
        None => Ok(None),
    }
}

/// Explains a dump: a verdict on the next boot, its trailers, what its slots hold, its sectors by those of the known images if they are given,
/// the boot from there, and what all schedules of at most 16 cuts come to.
///
/// # Errors
///
/// `Start` of the images; `Expectation`; `Explore` and `Trace` for want of memory; `Trace` and `Write` where the output fails. Where a verdict on
/// the schedules is asked also `NotAllBoot` and `NotAllRight`; the output is written then.
pub fn answer<O: Write>(alloc: Global, asked: &Inspected, out: &mut O) -> Result<(), Refusal>
    requires { asked.now.wanted.cuts ≤ 16 }
    ensures { AnswersInspect asked.now (O.contents out.old) (O.contents out.new) result }
{
    // Before anything is written, so that want of memory leaves no beginning.
    let counts = count::<Schedules>(alloc, &asked.wanted)?;
    let named = named_start(alloc, asked)?;
    let start = asked.wanted.start();
    match write_inspection::<JournalFlash, O>(alloc, start, named.as_ref(), out) {
        Ok(()) => conclude::<Schedules, O>(&counts, &asked.wanted, out),
        Err(error) => Err(Refusal::Trace(error)),
    }
}

/// A swap, and where a flash occurs in it.
#[derive(Drop)]
pub struct Found {
    kind: Kind,
    located: Located,
}

/// Where a flash occurs in a swap of that kind.
///
/// # Errors
///
/// `Start` with what is refused of the images; `Flash` for want of memory.
fn find_in(alloc: Global, asked: &LocateAsked, kind: Kind) -> Result<Found, Refusal>
    ensures found { IfOk result (IsFound asked.now.images asked.now.flash) }
    ensures kind { IfOk result (λ found. found.kind ≡ kind) }
    ensures refused { IfErr result (FailsFind asked.now kind) }
{
    let flash = &asked.flash;
    let start = asked
        .images
        .start_of(alloc, flash.layout(), flash.rules(), kind)?;
    let (primary, secondary) = (flash.primary(), flash.secondary());
    match locate::<JournalFlash>(alloc, &start, primary, secondary, MOST_CUTS) {
        Ok(located) => Ok(Found { kind, located }),
        Err(_) => Err(Refusal::Flash(FlashError::Memory)),
    }
}

/// That of two where fewer sectors differ; the first where as many do.
fn nearer(first: Found, second: Found) -> Found
    ensures first { length first.located.differs.items ≤ length second.located.differs.items
        → result ≡ first }
    ensures second { length second.located.differs.items < length first.located.differs.items
        → result ≡ second }
{
    if second.located.differs.len() < first.located.differs.len() {
        second
    } else {
        first
    }
}

/// What `locate` is asked for: a dump, and the images of a swap.
#[derive(Drop)]
pub struct LocateAsked {
    flash: Start,
    images: Images,
}

/// What `locate` is asked for. The words are checked before a file is touched.
///
/// # Errors
///
/// Those of `Dump::named`, `Images::read` and `Dump::read`; `Source` where no images are given.
pub fn read_locate<F: KnownFiles>(
    files: &F,
    alloc: Global,
    arguments: &ArgMatches<'_>,
) -> Result<LocateAsked, Refusal>
    ensures given { IfOk result (GivesLocate (F.holds files.now) (found_of arguments.now)) }
    ensures refused { IfErr result (LacksLocate (F.holds files.now) (found_of arguments.now)) }
{
    let dump = match Dump::named(arguments) {
        Ok(dump) => dump,
        Err(refusal) => return Err(refusal),
    };
    let Some(images) = Images::read(files, alloc, arguments)? else {
        return Err(Refusal::Source);
    };
    let flash = dump.read(files, alloc)?;
    Ok(LocateAsked { flash, images })
}

/// Whether no number of cuts leaves a nearer flash in any of three swaps.
fn are_whole(test: &Found, perm: &Found, revert: &Found) -> bool
    ensures { result ≡ (test.now.located.whole && perm.now.located.whole
        && revert.now.located.whole) }
{
    test.located.whole && perm.located.whole && revert.located.whole
}

/// The nearest place of a dump in the three swaps of the images, and whether no number of cuts leaves a nearer flash in any of them.
///
/// # Errors
///
/// Those of `find_in`.
fn nearest(alloc: Global, asked: &LocateAsked) -> Result<(Found, bool), Refusal>
    ensures nearest { IfOk result (IsNearestOf asked.now) }
    ensures refused { IfErr result (RefusesLocate asked.now) }
{
    let test = find_in(alloc, asked, Kind::Test)?;
    let perm = find_in(alloc, asked, Kind::Perm)?;
    let revert = find_in(alloc, asked, Kind::Revert)?;
    let whole = are_whole(&test, &perm, &revert);
    Ok((nearer(nearer(test, perm), revert), whole))
}

/// Prints after which schedule of a swap of the known images a dump occurs, the first such, or which sectors differ from the nearest flash
/// of these; and whether no number of cuts leaves a nearer one in any of these swaps. A test is tried first, then a swap for good, then the
/// revert of the test.
///
/// # Errors
///
/// Those of `find_in`; `Memory`; `Write`.
pub fn locate_in<O: Write>(alloc: Global, asked: &LocateAsked, out: &mut O) -> Result<(), Refusal>
    ensures { AnswersLocate asked.now (O.contents out.old) (O.contents out.new) result }
{
    let (found, whole) = nearest(alloc, asked)?;
    let (kind, all) = (kind_name(found.kind), yes_or_no(whole));
    let Ok(head) = format!(in alloc; "swap {kind}\n") else {
        return Err(Refusal::Memory);
    };
    let Ok(last) = format!(in alloc; "all {all}\n") else {
        return Err(Refusal::Memory);
    };
    write_text(out, head.as_bytes())?;
    write_located(&found.located, out)?;
    write_text(out, last.as_bytes())?;
    Ok(())
}
