//! `frames` and `picture`: the boots of a schedule, operation by operation, as text and as a page.
ghost use Rattle.std.specs.Prelude.{◌≡◌, ◌<◌, ◌≤◌, ◌+◌, ◌*◌, ◌^◌, IfErr, IfOk, MatchResult, length};
ghost use Rattle.clap.specs.Matches.{found_of};
ghost use Rattle.mc_actions.specs.Schedules.{GivesScheduled};
ghost use Rattle.mc_command.specs.Pictures.{AnswersFrames, AnswersPicture, GivesPicture, LacksFrames, LacksPicture, rows_in, within};
ghost use Rattle.mc_options.specs.Arguments.{GivesSpan};
ghost use Rattle.mc_verdict.specs.Verdicts.{GivesEnds};

use clap::ArgMatches;
use mc_actions::schedule::{Scheduled, read_schedule};
use mc_actions::vectors::torn_option;
use mc_cli::{KnownFiles, VERSION};
use mc_explore::replay;
use mc_flash::JournalFlash;
use mc_options::{Refusal, span_options};
use mc_tears::Erasing;
use mc_trace::{Span, write_frames, write_picture};
use mc_verdict::Ends;
use std::alloc::Global;
use std::io::Write;

/// The most operations that a picture shows.
const MOST_ROWS: u64 = 20_000;

/// How many of the first so many numbers lie in a span.
fn within(span: Span, count: u64) -> u64
    ensures value { result ≡ within span count }
    ensures at_most { result ≤ count }
{
    let end = count.min(u64::from(span.to) + 1);
    end.saturating_sub(u64::from(span.from))
}

/// How many operations are seen of the boots that are cut, each up to its cut, and of the last one, which has so many.
fn rows_in(span: Span, cuts: &[u32], last: u32) -> u64
    requires { length cuts.now ≤ 16 }
    ensures value { result ≡ rows_in span cuts.now last }
    ensures at_most { result ≤ (length cuts.now + 1) * 2 ^ 32 }
{
    let Some((cut, rest)) = cuts.split_first() else {
        return within(span, u64::from(last));
    };
    within(span, u64::from(*cut) + 1) + rows_in(span, rest, last)
}

/// Looks whether a picture shows no more operations than a browser can.
///
/// # Errors
///
/// `LargePicture`.
fn check_rows(span: Span, cuts: &[u32], last: u32) -> Result<(), Refusal>
    requires { length cuts.now ≤ 16 }
    ensures { MatchResult result (λ _. rows_in span cuts.now last ≤ 20000)
        (λ e. (20000 < rows_in span cuts.now last) × (e ≡ Refusal.LargePicture)) }
{
    if rows_in(span, cuts, last) > MOST_ROWS {
        return Err(Refusal::LargePicture);
    }
    Ok(())
}

/// What `picture` is asked for.
#[derive(Drop)]
pub struct PictureAsked {
    given: Scheduled,
    ends: Ends,
    span: Span,
    /// How an erase fails, where torn operations are shown too.
    torn: Option<Erasing>,
}

/// What `frames` is asked for: a schedule, what the slots are to hold at the end, and from which of each boot's operations to which.
///
/// # Errors
///
/// What `Ends::read`, `span_options` and `read_schedule` refuse.
pub fn read<F: KnownFiles>(
    files: &F,
    alloc: Global,
    arguments: &ArgMatches<'_>,
) -> Result<(Scheduled, Ends, Span), Refusal>
    ensures schedule { IfOk result (λ asked. GivesScheduled (F.holds files.now)
        (found_of arguments.now) asked.0) }
    ensures ends { IfOk result (λ asked. GivesEnds (found_of arguments.now) asked.1) }
    ensures span { IfOk result (λ asked. GivesSpan (found_of arguments.now) asked.2) }
    ensures refused { IfErr result (LacksFrames (F.holds files.now) (found_of arguments.now)) }
{
    let ends = Ends::read(arguments)?;
    let span = span_options(arguments)?;
    let given = read_schedule(files, alloc, arguments)?;
    Ok((given, ends, span))
}

/// What `picture` is asked for: that, and whether torn operations are shown too.
///
/// # Errors
///
/// `Argument` where `--erase` is given without `--torn`; those of `read`.
pub fn read_picture<F: KnownFiles>(
    files: &F,
    alloc: Global,
    arguments: &ArgMatches<'_>,
) -> Result<PictureAsked, Refusal>
    ensures given { IfOk result (GivesPicture (F.holds files.now) (found_of arguments.now)) }
    ensures refused { IfErr result (LacksPicture (F.holds files.now) (found_of arguments.now)) }
{
    let torn = torn_option(arguments)?;
    let (given, ends, span) = read(files, alloc, arguments)?;
    Ok(PictureAsked {
        given,
        ends,
        span,
        torn,
    })
}

/// Prints the frames of the boots which a schedule cuts and of the last boot, those of each boot in a span.
///
/// # Errors
///
/// `Trace` where a cut can't occur, for want of memory, or where the output fails.
pub fn answer_frames<O: Write>(
    alloc: Global,
    given: &Scheduled,
    ends: &Ends,
    span: Span,
    out: &mut O,
) -> Result<(), Refusal>
    ensures { AnswersFrames given.now ends.now span (O.contents out.old) (O.contents out.new)
        result }
{
    let (start, schedule) = (&given.start, &given.schedule);
    let expectation = ends.expectation(start.named());
    write_frames::<JournalFlash, O>(
        alloc,
        VERSION,
        start,
        schedule,
        &expectation,
        span,
        out,
    ).map_err(Refusal::Trace)
}

/// Prints a page that shows the boots which a schedule cuts and the last boot, operation by operation, those in a span, and what all schedules
/// of at most 16 cuts come to; where that is asked, also the cases of torn operations that end otherwise than a cut.
///
/// # Errors
///
/// `Replay` where a cut can't occur, or for want of memory; `LargePicture` where it would show more than 20,000 operations; `Trace` for want of
/// memory, or where the output fails.
pub fn answer<O: Write>(alloc: Global, asked: &PictureAsked, out: &mut O) -> Result<(), Refusal>
    ensures { AnswersPicture asked.now (O.contents out.old) (O.contents out.new) result }
{
    let (start, schedule) = (&asked.given.start, &asked.given.schedule);
    let outcome = match replay::<JournalFlash>(alloc, start, schedule) {
        Ok((outcome, _)) => outcome,
        Err(error) => return Err(Refusal::Replay(error)),
    };
    check_rows(asked.span, schedule.cuts(), outcome.ops)?;
    let expectation = asked.ends.expectation(start.named());
    write_picture::<JournalFlash, O>(
        alloc,
        VERSION,
        start,
        schedule,
        &expectation,
        asked.span,
        asked.torn,
        out,
    )
    .map_err(Refusal::Trace)
}
