//! The boots of a schedule, a section for each.
ghost use Rattle.std.specs.Prelude.{◌≡◌, ◌+◌, ◌<◌, ◌≤◌, ◌++◌, ◌⊎◌, IfErr, IfSome, IsErrOf, OnOk, false, length, map};
ghost use Rattle.mc_boot.specs.Outcome.{ops_of, shown};
ghost use Rattle.mc_explore.specs.Schedules.{CanOccur};
ghost use Rattle.mc_explore.specs.facts.Children.{IsAtChild};
ghost use Rattle.mc_explore.specs.inner.LastCuts.{boot_at};
ghost use Rattle.mc_start.specs.Start.{begun};
ghost use Rattle.mc_trace.specs.inner.Boots.{WritesText};
ghost use Rattle.mc_trace.specs.inner.Torn.{AreTorn, AreTornAlong, first_boot, later_boots};
ghost use Rattle.mc_trace.specs.inner.Walking.{IsReady, model_of};
ghost use Rattle.mc_trace.specs.Frames.{boot_section, column_text, columns_text, end_text, heading, heading_text, sections_text};

use crate::boot_frames::write_boot_frames;
use crate::error::TraceError;
use crate::frame::{Form, Look, Sign};
use mc_boot::Outcome;
use mc_explore::{OneRound, Start};
use mc_flash::{Flash, Layout, Slot};
use mc_output::{Line, MOST_LINE, write_line};
use mc_walk::Walk;
use std::io::Write;

// Adds the number of a boot, its type, and how many operations it makes uncut to a line.
fn put_heading(line: &mut Line, boot: u32, outcome: &Outcome)
    requires { length line.old + 40 ≤ MOST_LINE }
    ensures text { line.new ≡ line.old ++ heading_text boot (shown outcome.now) }
    ensures length { length line.new ≤ length line.old + 40 }
{
    line.put("boot ");
    line.put_number(boot);
    line.put(" ");
    line.put(outcome.kind.name());
    line.put(" ");
    line.put_number(outcome.ops);
}

// Adds the name of a slot over its sectors to a line.
fn put_column(line: &mut Line, layout: &Layout, slot: Slot)
    requires { length line.old + 45 ≤ MOST_LINE }
    ensures text { line.new ≡ line.old ++ column_text layout.now slot }
    ensures length { length line.new ≤ length line.old + 45 }
{
    line.put("<i style=\"flex:");
    line.put_number(layout.sectors(slot));
    line.put("\">");
    line.put(slot.name());
    line.put("</i>");
}

// Adds the names of both slots over their sectors to a line.
fn put_columns(line: &mut Line, layout: &Layout)
    requires { length line.old + 140 ≤ MOST_LINE }
    ensures { line.new ≡ line.old ++ columns_text layout.now }
{
    line.put("<div class=\"r s\"><b></b>");
    put_column(line, layout, Slot::Primary);
    line.put("<u></u>");
    put_column(line, layout, Slot::Secondary);
    line.put("</div>\n");
}

// How a boot begins.
fn heading(form: Form, layout: &Layout, boot: u32, outcome: &Outcome) -> Line
    ensures { result ≡ heading form layout.now boot (shown outcome.now) }
{
    let mut line = Line::new();
    match form {
        Form::Text => {
            put_heading(&mut line, boot, outcome);
            line.put("\n");
        }
        Form::Page => {
            line.put("<h2>");
            put_heading(&mut line, boot, outcome);
            line.put("</h2>\n");
            put_columns(&mut line, layout);
        }
    }
    line
}

// The outcome of the last boot, and the end.
fn end_line(look: &Look, outcome: &Outcome) -> Line
    ensures { result ≡ end_text look.now.form look.now.expectation (shown outcome.now) }
{
    let sign = Sign::of(&look.expectation, outcome);
    let mut line = Line::new();
    match look.form {
        Form::Text => {
            outcome.put_into(&mut line);
            line.put("ends ");
            line.put(sign.name());
            line.put("\n");
        }
        Form::Page => {
            line.put("<h2>outcome</h2>\n<pre class=\"");
            line.put(sign.class());
            line.put("\">");
            outcome.put_into(&mut line);
            line.put("</pre>\n</html>\n");
        }
    }
    line
}

// Writes the section of the boot from the node at which a walk stands, up to a cut, and goes to the child at that cut.
fn write_section<F: Flash, W: Write>(
    walk: &mut Walk<F, OneRound<'_>>,
    boot: u32,
    cut: Option<u32>,
    lines: &[Vec<u8>],
    start: &Start,
    look: &Look,
    writer: &mut W,
) -> Result<(), TraceError>
    requires ready { IsReady (begun start.now) 1 walk.old }
    requires inside { IfSome cut (λ n. n < length (ops_of (boot_at (begun start.now)
        walk.old.path))) }
    requires torn { AreTorn look.now.torn look.now.expectation (boot_at (begun start.now)
        walk.old.path) (map (λ text. text.items) lines.now) }
    ensures written { WritesText result (W.contents writer.old) (W.contents writer.new)
        (boot_section look.now start.now.content boot (boot_at (begun start.now) walk.old.path) cut) }
    ensures goes { OnOk result (IfSome cut (λ n. IsAtChild model_of walk.old n
        walk.new)) }
    ensures cause { IsErrOf result TraceError.Memory → walk.old.seen.usage.limits.counted ≡ false }
    ensures err { IfErr result (λ e. (e ≡ TraceError.Memory) ⊎ (e ≡ TraceError.Write)) }
{
    let line = heading(look.form, start.layout(), boot, &walk.summary().outcome);
    write_line(writer, &line)?;
    write_boot_frames(walk, boot, cut, lines, start, look, writer)
}

// The lines of the first boot, and those of the others.
fn first_boot(torn: &[Vec<Vec<u8>>]) -> (&[Vec<u8>], &[Vec<Vec<u8>>])
    ensures first { map (λ text. text.items) result.0.now
        ≡ first_boot (map (λ lines. map (λ text. text.items) lines.items) torn.now) }
    ensures later { map (λ lines. map (λ text. text.items) lines.items) result.1.now
        ≡ later_boots (map (λ lines. map (λ text. text.items) lines.items) torn.now) }
{
    match torn.split_first() {
        Some((lines, later)) => (lines.as_slice(), later),
        None => (&[], &[]),
    }
}

/// Writes the sections of the boots from the node at which a walk stands, with the lines of their torn cases: those that the cuts cut, the
/// last one and its outcome, and the end.
///
/// # Errors
///
/// `Memory` where the flash was refused memory, which one that counts never is; `Write`. A prefix of them is out.
pub fn write_sections<F: Flash, W: Write>(
    walk: &mut Walk<F, OneRound<'_>>,
    boot: u32,
    cuts: &[u32],
    torn: &[Vec<Vec<u8>>],
    start: &Start,
    look: &Look,
    writer: &mut W,
) -> Result<(), TraceError>
    requires ready { IsReady (begun start.now) (length cuts.now + 1) walk.old }
    requires occurs { CanOccur (boot_at (begun start.now) walk.old.path) cuts.now }
    requires few { boot + length cuts.now ≤ 16 }
    requires torn { AreTornAlong look.now.torn look.now.expectation (boot_at (begun start.now)
        walk.old.path) cuts.now (map (λ lines. map (λ text. text.items) lines.items) torn.now) }
    ensures written { WritesText result (W.contents writer.old) (W.contents writer.new)
        (sections_text look.now start.now.content boot (boot_at (begun start.now) walk.old.path)
        cuts.now) }
    ensures cause { IsErrOf result TraceError.Memory → walk.old.seen.usage.limits.counted ≡ false }
    ensures err { IfErr result (λ e. (e ≡ TraceError.Memory) ⊎ (e ≡ TraceError.Write)) }
{
    let outcome = walk.summary().outcome;
    let (lines, later) = first_boot(torn);
    let Some((cut, rest)) = cuts.split_first() else {
        write_section(walk, boot, None, lines, start, look, writer)?;
        write_line(writer, &end_line(look, &outcome))?;
        return Ok(());
    };
    write_section(walk, boot, Some(*cut), lines, start, look, writer)?;
    write_sections(walk, boot + 1, rest, later, start, look, writer)
}
