//! `boot` and `replay`: what the boot after a schedule of power cuts does.
ghost use Rattle.std.specs.Prelude.{IfErr, IfOk, codes};
ghost use Rattle.clap.specs.Matches.{found_of};
ghost use Rattle.mc_actions.specs.Schedules.{AnswersReplay, GivesBoot, GivesOutputs, GivesScheduled, HasOutput, IsFlashUnwritten, LacksFrom, LacksScheduled, RefusesReplayed};

use crate::schedule::{Outputs, Scheduled, read_schedule, schedule_from};
use clap::ArgMatches;
use mc_cli::{KnownFiles, WatchedFiles};
use mc_explore::{flash_at_cut, replay};
use mc_flash::{Flash, JournalFlash};
use mc_options::{Outfile, Refusal};
use mc_output::write_text;
use mc_trace::write_slots;
use std::alloc::Global;
use std::io::Write;
use std::rt::Files;

/// What `boot` is asked for: the boot of a source, and where the flash that it leaves goes. The words are checked before a file is
/// touched.
///
/// # Errors
///
/// `Source` and `Layout` of the words; `SameFile`; what `read_start` refuses.
pub fn read_boot<'p, F: KnownFiles>(
    files: &F,
    alloc: Global,
    arguments: &ArgMatches<'p>,
) -> Result<(Scheduled, Outputs<'p>), Refusal>
    ensures boot { IfOk result (λ asked. GivesBoot (F.holds files.now) (found_of arguments.now)
        asked.0) }
    ensures outputs { IfOk result (λ asked. GivesOutputs (found_of arguments.now) asked.1) }
    ensures refused { IfErr result (LacksFrom (codes "-") (F.holds files.now)
        (found_of arguments.now)) }
{
    let given = schedule_from(files, alloc, arguments, "-")?;
    Ok((given, Outputs::named(arguments)))
}

/// What `replay` is asked for: a schedule from a source, and where its flashes go. The words are checked before a file is touched.
///
/// # Errors
///
/// Those of `read_boot`, and `Schedule` of the words.
pub fn read<'p, F: KnownFiles>(
    files: &F,
    alloc: Global,
    arguments: &ArgMatches<'p>,
) -> Result<(Scheduled, Outputs<'p>), Refusal>
    ensures schedule { IfOk result (λ asked. GivesScheduled (F.holds files.now)
        (found_of arguments.now) asked.0) }
    ensures outputs { IfOk result (λ asked. GivesOutputs (found_of arguments.now) asked.1) }
    ensures refused { IfErr result (LacksScheduled (F.holds files.now) (found_of arguments.now)) }
{
    let given = read_schedule(files, alloc, arguments)?;
    Ok((given, Outputs::named(arguments)))
}

// Writes the flash as it was when the last cut of a schedule fell, where a file is named for it.
fn write_cut<F: Files>(
    files: &WatchedFiles<'_, F>,
    alloc: Global,
    given: &Scheduled,
    outputs: &Outputs<'_>,
) -> Result<(), Refusal>
    ensures { IfErr result (RefusesReplayed given.now outputs.now) }
{
    let Some(path) = outputs.at_cut else {
        return Ok(());
    };
    let flash: JournalFlash = flash_at_cut(alloc, &given.start, &given.schedule).map_err(
        Refusal::Replay,
    )?;
    write_file(files, alloc, path, &flash)
}

/// Writes the flash that the last boot leaves, where a file is named for it.
///
/// # Errors
///
/// Those of `write_file`.
pub fn write_left<F: Files>(
    files: &WatchedFiles<'_, F>,
    alloc: Global,
    flash: &JournalFlash,
    outputs: &Outputs<'_>,
) -> Result<(), Refusal>
    ensures { IfErr result (λ e. HasOutput outputs.now × IsFlashUnwritten e) }
{
    match outputs.out {
        Some(path) => write_file(files, alloc, path, flash),
        None => Ok(()),
    }
}

/// Replays a schedule, and prints the outcome of the boot after it. Where files are named, the flash as it was when the last cut fell is written
/// to the one first, and then the flash that is left to the other.
///
/// # Errors
///
/// `Replay` where a cut can't occur, or for want of memory; `Memory`; `Open` and `Write` of the files and the output.
pub fn answer<F: Files, O: Write>(
    files: &WatchedFiles<'_, F>,
    alloc: Global,
    given: &Scheduled,
    outputs: &Outputs<'_>,
    out: &mut O,
) -> Result<(), Refusal>
    ensures { AnswersReplay given.now outputs.now (O.contents out.old) (O.contents out.new)
        result }
{
    write_cut(files, alloc, given, outputs)?;
    let (outcome, flash) = match replay::<JournalFlash>(alloc, &given.start, &given.schedule) {
        Ok(done) => done,
        Err(error) => return Err(Refusal::Replay(error)),
    };
    let Ok(text) = format!(in alloc; "{outcome}") else {
        return Err(Refusal::Memory);
    };
    write_left(files, alloc, &flash, outputs)?;
    write_text(out, text.as_bytes())?;
    Ok(())
}

/// Writes the bytes of both slots, the primary's first, to a file, which is as it was until all are written.
///
/// # Errors
///
/// `Open` where it cannot be made; `Write`; `Memory`.
pub fn write_file<F: Files, S: Flash>(
    files: &WatchedFiles<'_, F>,
    alloc: Global,
    path: &str,
    flash: &S,
) -> Result<(), Refusal>
    ensures { IfErr result IsFlashUnwritten }
{
    let mut outfile = Outfile::beside(files, alloc, path)?;
    let written = write_slots(flash, &mut outfile.file);
    outfile.end(written.map_err(Refusal::Trace))
}
