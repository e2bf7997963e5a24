//! The frames of a schedule as one page that a browser shows, with what all schedules come to.
ghost use Rattle.std.specs.Prelude.{◌≡◌, ◌+◌, ◌⊎◌, ◌≤◌, [], IfErr, IfOk, IsErrOf, OnErr, OnOk, false, length, map, true};
ghost use Rattle.mc_explore.specs.Schedules.{CanOccur};
ghost use Rattle.mc_start.specs.Start.{begun};
ghost use Rattle.mc_trace.specs.inner.Boots.{WritesText};
ghost use Rattle.mc_trace.specs.inner.Torn.{AreTornAlong};
ghost use Rattle.mc_trace.specs.inner.Walking.{IsReady};
ghost use Rattle.mc_trace.specs.Trace.{RefusesTrace};
ghost use Rattle.mc_trace.specs.Picture.{BeginsPicture, Draws, IsVerdict, opening_text, page_by, page_look, right_begin, rights_begin, verdict_text};

use crate::error::TraceError;
use crate::frame::{Form, Look};
use crate::frames::walk_along;
use crate::header::write_header;
use crate::page::{HEAD, LEGEND, NOTE};
use crate::sections::write_sections;
use crate::torn::torn_along;
use crate::trace::Span;
use mc_explore::{
    Census, Expectation, OneRound, Rights, Schedule, Schedules, Start, census_line, rights_line,
    take_census, take_rights,
};
use mc_flash::{Flash, Layout, Slot};
use mc_output::{Line, WriteFailed, write_line, write_text};
use mc_tears::Erasing;
use mc_walk::Walk;
use std::alloc::Global;
use std::io::Write;

// What all schedules of at most 16 cuts come to.
#[derive(Clone, Copy)]
struct Verdict {
    census: Census,
    rights: Rights,
}

// The verdict on a start.
fn verdict_of<F: Flash>(
    alloc: Global,
    start: &Start,
    expectation: &Expectation,
) -> Result<Verdict, TraceError>
    ensures verdict { IfOk result (IsVerdict expectation.now (begun start.now)) }
    ensures err { IfErr result (λ e. e ≡ TraceError.Memory) }
{
    let rights = match take_rights::<F, Schedules>(alloc, start, 16, (), expectation) {
        Ok(rights) => rights,
        Err(_) => return Err(TraceError::Memory),
    };
    match take_census::<F, Schedules>(alloc, start, 16, ()) {
        Ok(census) => Ok(Verdict { census, rights }),
        Err(_) => Err(TraceError::Memory),
    }
}

// How the page of a layout looks.
fn page_look(layout: &Layout, expectation: &Expectation, span: Span, torn: Option<Erasing>) -> Look
    ensures { result ≡ page_look layout.now expectation.now span torn }
{
    let (primary, secondary) = (
        layout.sectors(Slot::Primary),
        layout.sectors(Slot::Secondary),
    );
    Look {
        form: Form::Page,
        merges: u64::from(primary) + u64::from(secondary) > 24,
        expectation: *expectation,
        span,
        torn,
    }
}

// How a text begins that says that all is right, or not.
fn right_begin(right: bool) -> &'static str
    ensures value { result.now ≡ right_begin right }
    ensures length { length result.now ≤ 20 }
{
    if right {
        "<pre class=\"y\">"
    } else {
        "<pre class=\"u\">"
    }
}

// How many are right.
fn rights_text(rights: &Rights) -> Line
    ensures { result ≡ rights_begin rights.now }
{
    let mut line = Line::new();
    line.put(right_begin(rights.first_not_right.is_none()));
    line.put(rights_line::<Schedules>(rights).as_str());
    line
}

impl Verdict {
    // Writes how many are right, and the census.
    fn write<W: Write>(&self, writer: &mut W) -> Result<(), WriteFailed>
        ensures { WritesText result (W.contents writer.old) (W.contents writer.new)
            (verdict_text self.now) }
    {
        write_line(writer, &rights_text(&self.rights))?;
        write_line(writer, &census_line::<Schedules>(&self.census))
    }
}

// Writes how a page begins, and the verdict.
fn write_opening<W: Write>(verdict: &Verdict, writer: &mut W) -> Result<(), WriteFailed>
    ensures { WritesText result (W.contents writer.old) (W.contents writer.new)
        (opening_text verdict.now) }
{
    write_text(writer, HEAD.as_bytes())?;
    verdict.write(writer)?;
    write_text(writer, NOTE.as_bytes())
}

// Writes the page by a walk that is at its root.
fn write_page<F: Flash, W: Write>(
    walk: &mut Walk<F, OneRound<'_>>,
    verdict: &Verdict,
    torn: &[Vec<Vec<u8>>],
    version: &str,
    start: &Start,
    schedule: &Schedule,
    look: &Look,
    writer: &mut W,
) -> Result<(), TraceError>
    requires ready { IsReady (begun start.now) (length schedule.now + 1) walk.old }
    requires root { walk.old.path ≡ [] }
    requires occurs { CanOccur (begun start.now) schedule.now }
    requires version { length version.now ≤ 40 }
    requires torn { AreTornAlong look.now.torn look.now.expectation (begun start.now) schedule.now
        (map (λ lines. map (λ text. text.items) lines.items) torn.now) }
    ensures written { WritesText result (W.contents writer.old) (W.contents writer.new)
        (page_by look.now version.now start.now schedule.now verdict.now) }
    ensures cause { IsErrOf result TraceError.Memory → walk.old.seen.usage.limits.counted ≡ false }
    ensures err { IfErr result (λ e. (e ≡ TraceError.Memory) ⊎ (e ≡ TraceError.Write)) }
{
    write_opening(verdict, writer)?;
    write_header(version, start, &look.expectation, schedule, writer)?;
    write_text(writer, LEGEND.as_bytes())?;
    write_sections(walk, 0, schedule.cuts(), torn, start, look, writer)
}

/// Writes a page that a browser shows: what all schedules of at most 16 cuts come to, and how many of them are right; what the page is of;
/// then for each boot of a schedule a row for each of its operations up to the cut that lies in a span, with the flash before it, sector by
/// sector, what a cut there comes to, and whether that is right; and the outcome of the last boot. Where it is given how an erase fails,
/// below an operation also the lines that `mc_tears::write_tears` writes of its torn cases, those that end otherwise than a cut. It loads a
/// flash as an explorer does, and takes memory for no other text. The version has at most 40 bytes.
/// Promised: a schedule's page (`drawn`, `begun`, `refused`, `occurs`, `cause`, `IsPicture`).
///
/// # Errors
///
/// `CannotOccur` with the number of the first cut that can't occur: nothing is written then. `Memory`, `Write`: a prefix of the page is
/// out, or nothing.
pub fn write_picture<F: Flash + Drop, W: Write>(
    alloc: Global,
    version: &str,
    start: &Start,
    schedule: &Schedule,
    expectation: &Expectation,
    span: Span,
    torn: Option<Erasing>,
    writer: &mut W,
) -> Result<(), TraceError>
    requires { length version.now ≤ 40 }
    ensures drawn { OnOk result (Draws version.now expectation.now span torn start.now schedule.now
        (W.contents writer.old) (W.contents writer.new)) }
    ensures begun { OnErr result ((W.contents writer.new ≡ W.contents writer.old)
        ⊎ BeginsPicture version.now expectation.now span torn start.now schedule.now
        (W.contents writer.old) (W.contents writer.new)) }
    ensures refused { IfErr result (RefusesTrace (begun start.now) schedule.now writer.old
        writer.new) }
    ensures occurs { OnOk result (CanOccur (begun start.now) schedule.now) }
    // A flash that counts is loaded with enough room before anything is written.
    ensures cause { F.counted ≡ true → IsErrOf result TraceError.Memory → writer.new ≡ writer.old }
{
    let mut walk = walk_along::<F>(alloc, start, schedule)?;
    let verdict = verdict_of::<F>(alloc, start, expectation)?;
    let lines = torn_along::<F>(alloc, start, schedule.cuts(), expectation, torn)?;
    let look = page_look(start.layout(), expectation, span, torn);
    write_page(
        &mut walk,
        &verdict,
        lines.as_slice(),
        version,
        start,
        schedule,
        &look,
        writer,
    )
}
