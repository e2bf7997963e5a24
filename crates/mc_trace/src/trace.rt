//! A schedule of power cuts, traced boot by boot.
ghost use Rattle.std.specs.Prelude.{◌≡◌, true, IfErr, IsErrOf, OnOk, OnErr};
ghost use Rattle.std.specs.Io.KnownBytes.{Appends};
ghost use Rattle.mc_output.specs.Text.{AppendsPrefix};
ghost use Rattle.mc_explore.specs.Schedules.{CanOccur};
ghost use Rattle.mc_start.specs.Start.{begun};
ghost use Rattle.mc_trace.specs.Trace.{trace_text, RefusesTrace, is_in};

use crate::boots::{write_cut_boot, write_last_boot};
use crate::error::TraceError;
use mc_explore::{Schedule, Start, replay};
use mc_flash::Flash;
use mc_output::{Line, write_line};
use std::alloc::Global;
use std::io::Write;

/// From which number of a boot's operations to which they are shown.
#[derive(Clone, Copy, Debug, PartialEq, Eq)]
pub struct Span {
    pub from: u32,
    pub to: u32,
}

impl Span {
    /// All operations.
    pub const ALL: Span = Span {
        from: 0,
        to: u32::MAX,
    };

    /// Whether a number lies in it.
    pub fn has(self, number: u32) -> bool
        ensures { result ≡ is_in self number }
    {
        self.from <= number && number <= self.to
    }
}

/// Writes what happens of a schedule: a line for each boot with its number, counted from 0, and its type; those of its operations that
/// lie in a span, a line each, with the number that a cut counts; at a cut the operation that did not happen; and at the end the
/// outcome of the last boot.
/// Promised: a schedule, operation by operation (`written`, `prefix`, `refused`, `occurs`, `cause`).
///
/// # Errors
///
/// `CannotOccur` with the number of the first cut that can't occur: nothing is written then. `Memory`, `Write`: a beginning of
/// the text is out.
pub fn write_trace<F: Flash + Drop, W: Write>(
    alloc: Global,
    start: &Start,
    schedule: &Schedule,
    span: Span,
    writer: &mut W,
) -> Result<(), TraceError>
    ensures written { OnOk result (Appends (W.contents writer.old) (W.contents writer.new)
        (trace_text span (begun start.now) schedule.now)) }
    ensures prefix { OnErr result (AppendsPrefix (W.contents writer.old) (W.contents writer.new)
        (trace_text span (begun start.now) schedule.now)) }
    ensures refused { IfErr result (RefusesTrace (begun start.now) schedule.now writer.old
        writer.new) }
    ensures occurs { OnOk result (CanOccur (begun start.now) schedule.now) }
    // A flash that counts is loaded with enough room before anything is written.
    ensures cause { F.counted ≡ true → IsErrOf result TraceError.Memory → writer.new ≡ writer.old }
{
    // Nothing is written of a schedule that can't occur.
    let (outcome, _) = replay::<F>(alloc, start, schedule)?;
    let cuts = schedule.cuts();
    let rules = start.rules();
    let mut flash = F::load(
        alloc,
        start.layout(),
        rules.grain,
        start.primary(),
        start.secondary(),
        cuts.len() as u32 + 1,
    )?;
    let mut boot = 0;
    'boots: for cut in cuts {
        write_cut_boot(&mut flash, rules, boot, *cut, span, writer)?;
        boot += 1;
    }
    write_last_boot(&mut flash, rules, boot, span, writer)?;
    let mut line = Line::new();
    outcome.put_into(&mut line);
    write_line(writer, &line)?;
    Ok(())
}
