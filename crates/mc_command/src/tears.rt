//! `tears`: what power that is lost within an operation of a boot leads to.
ghost use Rattle.std.specs.Prelude.{◌≡◌, IfErr, IfOk, OnOk};
ghost use Rattle.clap.specs.Matches.{found_of};
ghost use Rattle.mc_command.specs.Tears.{AnswersTears, GivesCase, GivesErasing, GivesTears, HasEachCase, LacksCase, LacksErasing, LacksStartAfter, LacksTears, RefusesCase, StartsAfter, refused_as};

use clap::ArgMatches;
use mc_actions::replay::write_file;
use mc_actions::schedule::read_schedule;
use mc_cli::{KnownFiles, WatchedFiles};
use mc_explore::{Expectation, ExploreError, Start, flash_at_cut};
use mc_flash::JournalFlash;
use mc_options::{NumberOption, Refusal, layout_options};
use mc_tears::{Asked as Torn, Erasing, Loss, Reading, TearError, flash_after, write_tears};
use mc_verdict::Asked;
use std::alloc::Global;
use std::io::Write;
use std::rt::Files;

/// The refusal where tears are not shown.
fn refused(error: TearError) -> Refusal
    ensures { result ≡ refused_as error }
{
    match error {
        TearError::Memory => Refusal::Explore(ExploreError::Memory),
        TearError::Write => Refusal::Write,
    }
}

/// How the words say that an erase fails.
///
/// # Errors
///
/// `Argument` where the text names no way.
fn erasing_option(arguments: &ArgMatches<'_>) -> Result<Erasing, Refusal>
    ensures given { IfOk result (GivesErasing (found_of arguments.now)) }
    ensures refused { IfErr result (LacksErasing (found_of arguments.now)) }
{
    match arguments.get_str("erase") {
        None | Some("gentle") => Ok(Erasing::Gentle),
        Some("rough") => Ok(Erasing::Rough),
        Some(_) => Err(Refusal::Argument),
    }
}

/// A case, and the file that its flash is written to.
#[derive(Clone, Copy, Debug)]
pub struct CaseFile<'p> {
    number: u32,
    reading: Reading,
    path: &'p str,
}

impl<'p> CaseFile<'p> {
    /// What the words name, if they name a case.
    ///
    /// # Errors
    ///
    /// `Number` and `NoReading` of the words; `Argument` where one of the three is missing.
    fn named(arguments: &ArgMatches<'p>) -> Result<Option<CaseFile<'p>>, Refusal>
        ensures given { IfOk result (GivesCase (found_of arguments.now)) }
        ensures refused { IfErr result (LacksCase (found_of arguments.now)) }
    {
        let number = NumberOption::At.read(arguments)?;
        let reading = match arguments.get_str("reading") {
            Some(text) => Some(Reading::read(text).ok_or(Refusal::NoReading)?),
            None => None,
        };
        match (number, reading, arguments.get_str("out")) {
            (Some(number), Some(reading), Some(path)) => Ok(Some(CaseFile {
                number,
                reading,
                path,
            })),
            (None, None, None) => Ok(None),
            _ => Err(Refusal::Argument),
        }
    }
}

/// What `tears` is asked for: of which boot, what of its torn operations, and the case whose flash goes to a file, if any.
#[derive(Drop)]
pub struct TearsAsked<'p> {
    start: Start,
    torn: Torn,
    asked: Asked,
    file: Option<CaseFile<'p>>,
}

/// The start of the boot after the schedule, and what is expected at the end.
///
/// # Errors
///
/// What `read_schedule` refuses; `Expectation`; `Replay` where a cut can't occur; `Memory`.
fn start_after<F: KnownFiles>(
    files: &F,
    alloc: Global,
    arguments: &ArgMatches<'_>,
    asked: &Asked,
) -> Result<(Start, Expectation), Refusal>
    ensures given { IfOk result (λ given. StartsAfter (F.holds files.now) (found_of arguments.now)
        asked.now given.0
        given.1) }
    ensures refused { IfErr result (LacksStartAfter (F.holds files.now) (found_of arguments.now)
        asked.now) }
{
    let given = read_schedule(files, alloc, arguments)?;
    let expectation = asked.expectation(given.start.named())?;
    let flash: JournalFlash = flash_at_cut(alloc, &given.start, &given.schedule)?;
    let Ok(start) = given.start.again(alloc, &flash) else {
        return Err(refused(TearError::Memory));
    };
    Ok((start, expectation.unwrap_or(Expectation::any())))
}

/// What `tears` is asked for. The words are checked before a file is touched.
///
/// # Errors
///
/// `Layout`, `Version`, `NeverSwaps`, `Number` and `NoReading` of the words; `Argument`; those of `start_after`.
pub fn read<'p, F: KnownFiles>(
    files: &F,
    alloc: Global,
    arguments: &ArgMatches<'p>,
) -> Result<TearsAsked<'p>, Refusal>
    ensures given { IfOk result (GivesTears (F.holds files.now) (found_of arguments.now)) }
    ensures refused { IfErr result (LacksTears (F.holds files.now) (found_of arguments.now)) }
{
    let layout = layout_options(arguments)?;
    let asked = Asked::read(arguments)?;
    asked.check(&layout)?;
    let erasing = erasing_option(arguments)?;
    let file = CaseFile::named(arguments)?;
    let (start, expectation) = start_after(files, alloc, arguments, &asked)?;
    let torn = Torn {
        erasing,
        all: arguments.get_flag("all"),
        expectation,
    };
    Ok(TearsAsked {
        start,
        torn,
        asked,
        file,
    })
}

impl TearsAsked<'_> {
    /// Writes the flash of the case that is named, if one is.
    ///
    /// # Errors
    ///
    /// `NoCase`; `Explore` for want of memory; those of `write_file`.
    fn write_case<F: Files>(
        &self,
        files: &WatchedFiles<'_, F>,
        alloc: Global,
    ) -> Result<(), Refusal>
        ensures there { OnOk result (HasEachCase self.now) }
        ensures refused { IfErr result (RefusesCase self.now) }
    {
        let Some(case) = &self.file else {
            return Ok(());
        };
        let loss = Loss {
            operation: case.number,
            within: Some(case.reading),
        };
        match flash_after::<JournalFlash>(alloc, &self.start, self.torn.erasing, &loss) {
            Ok(Some(flash)) => write_file(files, alloc, case.path, &flash),
            Ok(None) => Err(Refusal::NoCase),
            Err(_) => Err(refused(TearError::Memory)),
        }
    }
}

/// Prints how many operations a boot has, how many cases there are where power is lost within one, and those that end otherwise than a cut
/// before or after the operation. Where a file is named, the flash of the case that is named is written to it first.
///
/// # Errors
///
/// Those of `write_case`; `Explore` for want of memory; `Write` where the output fails. Where a verdict is asked also `NotAllRight`; the output
/// is written then.
pub fn answer<F: Files, O: Write>(
    files: &WatchedFiles<'_, F>,
    alloc: Global,
    asked: &TearsAsked<'_>,
    out: &mut O,
) -> Result<(), Refusal>
    ensures { AnswersTears asked.now (O.contents out.old) (O.contents out.new) result }
{
    asked.write_case(files, alloc)?;
    let right = write_tears::<JournalFlash, O>(alloc, &asked.start, &asked.torn, out).map_err(
        refused,
    )?;
    asked.asked.verdict(true, right, true)
}
