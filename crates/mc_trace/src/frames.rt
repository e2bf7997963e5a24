//! The frames of a schedule as text.
ghost use Rattle.std.specs.Prelude.{◌≡◌, ◌+◌, ◌⊎◌, ◌≤◌, [], IfErr, IfOk, IsErrOf, None, OnErr, OnOk, false, length, true};
ghost use Rattle.std.specs.Io.KnownBytes.{Appends};
ghost use Rattle.mc_explore.specs.Schedules.{CanOccur};
ghost use Rattle.mc_output.specs.Text.{AppendsPrefix};
ghost use Rattle.mc_start.specs.Start.{begun};
ghost use Rattle.mc_trace.specs.inner.Boots.{WritesText};
ghost use Rattle.mc_trace.specs.inner.Walking.{IsReady};
ghost use Rattle.mc_trace.specs.Frames.{frames_by, frames_text};
ghost use Rattle.mc_trace.specs.Sectors.{RefusesWalk};
ghost use Rattle.mc_trace.specs.Trace.{RefusesTrace};

use crate::error::TraceError;
use crate::frame::{Form, Look};
use crate::header::{NAMES, write_header};
use crate::sections::write_sections;
use crate::trace::Span;
use mc_explore::{Expectation, OneRound, Schedule, Start, load_walk, replay};
use mc_flash::Flash;
use mc_output::write_text;
use mc_walk::Walk;
use std::alloc::Global;
use std::io::Write;

/// A walk at the root of the boots from a start, with room for a schedule of cuts, which can occur.
///
/// # Errors
///
/// `CannotOccur`; `Memory`.
pub(crate) fn walk_along<'a, F: Flash + Drop>(
    alloc: Global,
    start: &'a Start,
    schedule: &Schedule,
) -> Result<Walk<F, OneRound<'a>>, TraceError>
    ensures ready { IfOk result (λ walk. IsReady (begun start.now) (length schedule.now + 1)
        walk) }
    ensures root { IfOk result (λ walk. walk.path ≡ []) }
    ensures counted { IfOk result (λ walk. F.counted ≡ true
        → walk.seen.usage.limits.counted ≡ true) }
    ensures occurs { OnOk result (CanOccur (begun start.now) schedule.now) }
    ensures refused { IfErr result (RefusesWalk (begun start.now) schedule.now) }
{
    let _ = replay::<F>(alloc, start, schedule)?;
    let boots = schedule.cuts().len() as u8 + 1;
    let mut walk: Walk<F, OneRound<'a>> = load_walk(alloc, start, boots)?;
    walk.begin()?;
    Ok(walk)
}

// Writes the frames by a walk that is at its root.
fn write_all<F: Flash, W: Write>(
    walk: &mut Walk<F, OneRound<'_>>,
    version: &str,
    start: &Start,
    schedule: &Schedule,
    look: &Look,
    writer: &mut W,
) -> Result<(), TraceError>
    requires ready { IsReady (begun start.now) (length schedule.now + 1) walk.old }
    requires root { walk.old.path ≡ [] }
    requires occurs { CanOccur (begun start.now) schedule.now }
    requires version { length version.now ≤ 40 }
    requires whole { look.now.torn ≡ None }
    ensures written { WritesText result (W.contents writer.old) (W.contents writer.new)
        (frames_by look.now version.now start.now schedule.now) }
    ensures cause { IsErrOf result TraceError.Memory → walk.old.seen.usage.limits.counted ≡ false }
    ensures err { IfErr result (λ e. (e ≡ TraceError.Memory) ⊎ (e ≡ TraceError.Write)) }
{
    write_header(version, start, &look.expectation, schedule, writer)?;
    write_text(writer, NAMES.as_bytes())?;
    write_sections(walk, 0, schedule.cuts(), &[], start, look, writer)
}

/// Writes the frames of a schedule: what they are of; then for each boot its number, its type and how many operations it makes uncut, and a
/// line for each of its operations up to the cut that lies in a span, with the words of both slots before it, what a cut there comes to, and
/// whether that is right; and the outcome of the last boot. It loads a flash as an explorer does, and takes no memory for the text. The version has at most 40 bytes.
/// Promised: the frames of a schedule (`written`, `prefix`, `refused`, `occurs`, `cause`).
///
/// # Errors
///
/// `CannotOccur` with the number of the first cut that can't occur: nothing is written then. `Memory`, `Write`: a prefix of the text is
/// out, or nothing.
pub fn write_frames<F: Flash + Drop, W: Write>(
    alloc: Global,
    version: &str,
    start: &Start,
    schedule: &Schedule,
    expectation: &Expectation,
    span: Span,
    writer: &mut W,
) -> Result<(), TraceError>
    requires { length version.now ≤ 40 }
    ensures written { OnOk result (Appends (W.contents writer.old) (W.contents writer.new)
        (frames_text version.now expectation.now span start.now schedule.now)) }
    ensures prefix { OnErr result (AppendsPrefix (W.contents writer.old) (W.contents writer.new)
        (frames_text version.now expectation.now span start.now schedule.now)) }
    ensures refused { IfErr result (RefusesTrace (begun start.now) schedule.now writer.old
        writer.new) }
    ensures occurs { OnOk result (CanOccur (begun start.now) schedule.now) }
    // A flash that counts is loaded with enough room before anything is written.
    ensures cause { F.counted ≡ true → IsErrOf result TraceError.Memory → writer.new ≡ writer.old }
{
    let mut walk = walk_along::<F>(alloc, start, schedule)?;
    let look = Look {
        form: Form::Text,
        merges: true,
        expectation: *expectation,
        span,
        torn: None,
    };
    write_all(&mut walk, version, start, schedule, &look, writer)
}
