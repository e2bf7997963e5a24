//! `census`: what all schedules of power cuts, or all campaigns of two rounds, come to, without listing them.
ghost use Rattle.std.specs.Prelude.{◌≡◌, ◌≤◌, List, IfErr, IfOk, OnErr, OnOk, false, true};
ghost use Rattle.std.specs.Io.KnownBytes.{Appends};
ghost use Rattle.mc_output.specs.Text.{AppendsPrefix};
ghost use Rattle.mc_verdict.specs.Requests.{AnswersCensus, ConcludesCensus, RefusesCensus, counts_text};
ghost use Rattle.mc_explore.specs.Census.{census_by};
ghost use Rattle.mc_explore.specs.declared.expectation.Expectation.{Expectation as Expected};
ghost use Rattle.clap.specs.Matches.{found_of};
ghost use Rattle.mc_verdict.specs.Sessions.{AreCounts, AreRightsIf, GivesWanted, IsShortestIf, LacksCensus};
ghost use Rattle.mc_verdict.specs.Verdicts.{AreCounted, IsVerdict, is_of_slots};
ghost use Rattle.mc_start.specs.Start.{begun};

use crate::explorable::Explorable;
use crate::explore::{ends, images_return};
use crate::shortest::{Shortest, shortest_wrong, write_shortest};
use crate::verdict::{Asked, right_if_asked, write_lines};
use clap::ArgMatches;
use mc_cli::KnownFiles;
use mc_explore::{
    CensusOf, Expectation, ExploreError, RightsOf, Start, Subject, each_boots, take_census,
    take_rights, write_census,
};
use mc_flash::JournalFlash;
use mc_options::{Refusal, census_options, flash_options, read_start};
use mc_output::WriteFailed;
use std::alloc::Global;
use std::io::Write;

/// A census that the words ask for.
#[derive(Drop)]
pub struct Wanted<C: Copy> {
    start: Start,
    /// What is chosen besides the start.
    choice: C,
    /// Whether both images are to lie at the end where they would without the swap.
    images_return: bool,
    cuts: u8,
    asked: Asked,
}

/// What its rows come to.
#[derive(Clone, Copy)]
pub struct Counts<K> {
    census: CensusOf<K>,
    // What of it is right, where that was asked.
    rights: Option<RightsOf<K>>,
    shortest: Shortest<K>,
}

/// How many rows from a start are right, where that is asked.
///
/// # Errors
///
/// `Explore` where memory failed.
fn rights_if<X: Subject>(
    alloc: Global,
    start: &Start,
    cuts: u8,
    chosen: X::Choice,
    expectation: &Option<Expectation>,
) -> Result<Option<RightsOf<X::Key>>, Refusal>
    requires { cuts ≤ 16 }
    ensures rights { IfOk result (AreRightsIf X.subject expectation.now (begun start.now) chosen
        cuts) }
    ensures err { IfErr result (λ e. e ≡ Refusal.Explore ExploreError.Memory) }
{
    match expectation {
        Some(e) => Ok(Some(take_rights::<JournalFlash, X>(alloc, start, cuts, chosen, e)?)),
        None => Ok(None),
    }
}

/// The key of the shortest row that is not right, where that is asked.
///
/// # Errors
///
/// `Explore` where memory failed.
fn shortest_if<X: Subject>(
    alloc: Global,
    start: &Start,
    cuts: u8,
    chosen: X::Choice,
    expectation: &Option<Expectation>,
    rights: &Option<RightsOf<X::Key>>,
) -> Result<Option<X::Key>, Refusal>
    requires few { cuts ≤ 16 }
    requires rights { AreRightsIf X.subject expectation.now (begun start.now) chosen cuts
        rights.now }
    ensures shortest { IfOk result (IsShortestIf X.subject expectation.now (begun start.now) chosen
        cuts) }
    ensures err { IfErr result (λ e. e ≡ Refusal.Explore ExploreError.Memory) }
{
    match (expectation, rights) {
        (Some(e), Some(rights)) => {
            let first = &rights.first_not_right;
            shortest_wrong::<X>(alloc, start, cuts, chosen, e, first)
        }
        _ => Ok(None),
    }
}

/// The census that the words ask for. They are checked before a file is touched.
///
/// # Errors
///
/// `Source`, `Layout`, the numbers and `Version` of the words; `NeverSwaps`; what `read_start` refuses.
pub fn read<X: Explorable, F: KnownFiles>(
    files: &F,
    alloc: Global,
    arguments: &ArgMatches<'_>,
) -> Result<Wanted<X::Choice>, Refusal>
    ensures given { IfOk result (GivesWanted X.IsChoice X.images_return (F.holds files.now)
        (found_of arguments.now)) }
    ensures range { IfOk result (λ wanted. wanted.cuts ≤ 16) }
    ensures refused { IfErr result (LacksCensus (F.holds files.now) (found_of arguments.now)) }
{
    let options = match flash_options(arguments) {
        Ok(options) => options,
        Err(refusal) => return Err(refusal),
    };
    let cuts = census_options(arguments)?;
    let asked = Asked::read(arguments)?;
    asked.check(&options.layout)?;
    let choice = X::chosen(arguments);
    Ok(Wanted {
        choice,
        images_return: images_return::<X>(&options.source, choice),
        cuts,
        asked,
        start: read_start(files, alloc, &options)?,
    })
}

impl Wanted<()> {
    /// That of all schedules of at most so many cuts from a dump.
    pub fn of_dump(start: Start, cuts: u8, asked: Asked) -> Wanted<()>
        ensures { result ≡ record {
          start = start;
          choice = tt;
          images_return = false;
          cuts = cuts;
          asked = asked;
        } }
    {
        Wanted {
            start,
            choice: (),
            images_return: false,
            cuts,
            asked,
        }
    }

    /// The start.
    pub fn start(&self) -> &Start
        ensures { result.now ≡ self.now.start }
    {
        &self.start
    }
}

/// What its rows come to.
/// Promised: a census names the shortest row that does not boot, or is not right (`counts`, `IsShortest`).
///
/// # Errors
///
/// `Expectation`; `Explore` where memory failed.
pub fn count<X: Subject>(
    alloc: Global,
    wanted: &Wanted<X::Choice>,
) -> Result<Counts<X::Key>, Refusal>
    requires { wanted.now.cuts ≤ 16 }
    ensures counts { IfOk result (AreCounts X.subject wanted.now) }
    ensures refused { IfErr result (RefusesCensus wanted.now) }
{
    let (start, cuts, choice) = (&wanted.start, wanted.cuts, wanted.choice);
    let expectation = wanted
        .asked
        .expectation(ends(wanted.images_return, start.named()))?;
    let rights = rights_if::<X>(alloc, start, cuts, choice, &expectation)?;
    let census = take_census::<JournalFlash, X>(alloc, start, cuts, choice)?;
    let any = Expectation::any();
    let first = &census.first_not_boot;
    let not_boot = shortest_wrong::<X>(alloc, start, cuts, choice, &any, first)?;
    let not_right = shortest_if::<X>(alloc, start, cuts, choice, &expectation, &rights)?;
    let shortest = Shortest {
        not_boot,
        not_right,
    };
    Ok(Counts {
        census,
        rights,
        shortest,
    })
}

/// Prints how many schedules, or campaigns, of at most so many cuts can occur, how many of them with each result, the largest number
/// of operations of a last boot, and the first that does not end in a boot. Where something is expected of the slots, also how many
/// are right, and the first that is not. Last come the shortest that does not end in a boot, and that is not right.
///
/// # Errors
///
/// Those of `count`; `Write` where the output cannot be written. With `--all-boot` also `NotAllBoot` where one does not end
/// in a boot, and with `--all-right` `NotAllRight` where one is not right; the output is written then.
pub fn run<X: Explorable, O: Write>(
    wanted: &Wanted<X::Choice>,
    alloc: Global,
    out: &mut O,
) -> Result<(), Refusal>
    requires { wanted.now.cuts ≤ 16 }
    ensures { AnswersCensus X.subject wanted.now (O.contents out.old) (O.contents out.new) result }
{
    let counts = count::<X>(alloc, wanted)?;
    conclude::<X, O>(&counts, wanted, out)
}

/// Writes what rows come to, or a beginning of it.
///
/// # Errors
///
/// `WriteFailed`.
fn write_counts<X: Subject, O: Write>(
    counts: &Counts<X::Key>,
    out: &mut O,
) -> Result<(), WriteFailed>
    ensures whole { OnOk result (Appends (O.contents out.old) (O.contents out.new)
        (counts_text X.subject counts.now)) }
    ensures prefix { OnErr result (AppendsPrefix (O.contents out.old) (O.contents out.new)
        (counts_text X.subject counts.now)) }
{
    write_census::<X, O>(&counts.census, out)?;
    write_lines::<X, O>(&counts.rights, out)?;
    write_shortest::<X, O>(&counts.shortest, counts.rights.is_some(), out)
}

/// Prints what rows come to, and gives the verdict on them.
///
/// # Errors
///
/// `Write`; those of `judge`.
pub fn conclude<X: Explorable, O: Write>(
    counts: &Counts<X::Key>,
    wanted: &Wanted<X::Choice>,
    out: &mut O,
) -> Result<(), Refusal>
    ensures { (are : AreCounts X.subject wanted.now counts.now) → ConcludesCensus X.subject
        wanted.now counts.now are (O.contents out.old) (O.contents out.new) result }
{
    write_counts::<X, O>(counts, out)?;
    judge::<X>(counts, &wanted.asked)
}

/// The verdict on the rows that were counted.
///
/// # Errors
///
/// The first of `NotAllBoot` and `NotAllRight` that was asked for and does not hold.
fn judge<X: Explorable>(counts: &Counts<X::Key>, asked: &Asked) -> Result<(), Refusal>
    ensures { (e : Expected) (rows : List X.Shown) → counts.now.census
        ≡ census_by X.subject.ends X.subject.key rows
        → AreCounted X.subject e rows counts.now.rights
        → IsVerdict X.subject.ends asked.now.all_boot (is_of_slots asked.now) e rows
        counts.now.rights true result }
{
    let boots = each_boots::<X>(&counts.census);
    let right = right_if_asked::<X>(&counts.rights);
    asked.verdict(boots, right, true)
}
