//! `trace` and `sectors`: what happens of a schedule of power cuts, and what lies where at its last cut.
ghost use Rattle.std.specs.Prelude.{IfErr, IfOk};
ghost use Rattle.clap.specs.Matches.{found_of};
ghost use Rattle.mc_actions.specs.Schedules.{AnswersSectors, AnswersTrace, GivesScheduled, LacksTraced, LacksViewed};
ghost use Rattle.mc_options.specs.Arguments.{GivesSpan, GivesView};

use crate::schedule::{Scheduled, read_schedule};
use clap::ArgMatches;
use mc_cli::KnownFiles;
use mc_flash::JournalFlash;
use mc_options::{Refusal, span_options, view_options};
use mc_trace::{Span, View, write_sectors, write_trace};
use std::alloc::Global;
use std::io::Write;

/// What `trace` is asked for: a schedule, and from which of each boot's operations to which.
///
/// # Errors
///
/// What `span_options` and `read_schedule` refuse.
pub fn read<F: KnownFiles>(
    files: &F,
    alloc: Global,
    arguments: &ArgMatches<'_>,
) -> Result<(Scheduled, Span), Refusal>
    ensures schedule { IfOk result (λ asked. GivesScheduled (F.holds files.now)
        (found_of arguments.now) asked.0) }
    ensures span { IfOk result (λ asked. GivesSpan (found_of arguments.now) asked.1) }
    ensures refused { IfErr result (LacksTraced (F.holds files.now) (found_of arguments.now)) }
{
    let span = span_options(arguments)?;
    let given = read_schedule(files, alloc, arguments)?;
    Ok((given, span))
}

/// Prints the operations of the boots that a schedule cuts, those of the last boot, and its outcome; of each boot's operations those
/// in a span.
///
/// # Errors
///
/// `Trace` where a cut can't occur, for want of memory, or where the output fails.
pub fn answer<O: Write>(
    alloc: Global,
    given: &Scheduled,
    span: Span,
    out: &mut O,
) -> Result<(), Refusal>
    ensures { AnswersTrace given.now span (O.contents out.old) (O.contents out.new) result }
{
    write_trace::<JournalFlash, O>(alloc, &given.start, &given.schedule, span, out).map_err(
        Refusal::Trace,
    )?;
    Ok(())
}

/// What `sectors` is asked for: a schedule, and the view of a flash of it.
///
/// # Errors
///
/// What `view_options` and `read_schedule` refuse.
pub fn read_sectors<F: KnownFiles>(
    files: &F,
    alloc: Global,
    arguments: &ArgMatches<'_>,
) -> Result<(Scheduled, View), Refusal>
    ensures schedule { IfOk result (λ asked. GivesScheduled (F.holds files.now)
        (found_of arguments.now) asked.0) }
    ensures view { IfOk result (λ asked. GivesView (found_of arguments.now) asked.1) }
    ensures refused { IfErr result (LacksViewed (F.holds files.now) (found_of arguments.now)) }
{
    let view = view_options(arguments)?;
    let given = read_schedule(files, alloc, arguments)?;
    Ok((given, view))
}

/// Prints what lies in each sector when the last cut of a schedule falls, or what the boot after it leaves there.
///
/// # Errors
///
/// `Trace` where a cut can't occur, for want of memory, or where the output fails.
pub fn answer_sectors<O: Write>(
    alloc: Global,
    given: &Scheduled,
    view: View,
    out: &mut O,
) -> Result<(), Refusal>
    ensures { AnswersSectors given.now view (O.contents out.old) (O.contents out.new) result }
{
    write_sectors::<JournalFlash, O>(alloc, &given.start, &given.schedule, view, out).map_err(
        Refusal::Trace,
    )
}
