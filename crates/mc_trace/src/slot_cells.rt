//! The sectors of a slot, as text or as cells of a page.
ghost use Rattle.std.specs.Prelude.{◌≡◌, ◌+◌, ◌<◌, ◌≤◌, ◌++◌, length, IfOk};
ghost use Rattle.mc_flash.specs.Flash.{sectors_of, size_of};
ghost use Rattle.mc_trace.specs.inner.Boots.{WritesText};
ghost use Rattle.mc_trace.specs.Frames.{cell_at, class_of, framed_text, inner_run, is_target, run_begin, run_text, slot_cells, space_of};
ghost use Rattle.mc_trace.specs.Runs.{before_by, next_run};

use crate::cells::{Cell, cell_of, sector_of};
use crate::frame::{Form, Look};
use crate::runs::Run;
use mc_explore::Start;
use mc_flash::Slot;
use mc_output::{Line, MOST_LINE, WriteFailed, write_line};
use std::io::Write;

// The class of a cell, by which it is coloured.
fn class_of(cell: Cell) -> &'static str
    ensures value { result.now ≡ class_of cell }
    ensures length { length result.now ≤ 3 }
{
    match cell {
        Cell::Blank => "n",
        Cell::Held(Slot::Primary, _) => "a",
        Cell::Held(Slot::Secondary, _) => "b",
        Cell::Trailer => "t",
        Cell::Half(Slot::Primary, _) => "a h",
        Cell::Half(Slot::Secondary, _) => "b h",
        Cell::Other => "o",
    }
}

// What says that a cell stands in a frame.
fn framed_text(framed: bool) -> &'static str
    ensures value { result.now ≡ framed_text framed }
    ensures length { length result.now ≤ 2 }
{
    if framed { " x" } else { "" }
}

// What stands between the words of a slot.
fn space_of(form: Form) -> &'static str
    ensures value { result.now ≡ space_of form }
    ensures length { length result.now ≤ 1 }
{
    match form {
        Form::Text => " ",
        Form::Page => "",
    }
}

// How the cell of a run begins.
fn run_begin(run: &Run) -> Line
    ensures text { result ≡ run_begin run.now }
    ensures length { length result ≤ 60 }
{
    let mut line = Line::new();
    line.put("<i class=\"");
    line.put(class_of(run.first));
    line.put(framed_text(run.framed));
    line.put("\" style=\"flex:");
    line.put_number(run.count);
    line.put("\">");
    line
}

// The text of a run.
fn run_line(form: Form, run: &Run) -> Line
    requires { 1 ≤ run.now.count }
    ensures text { result ≡ run_text form run.now }
    ensures length { length result ≤ 100 }
{
    match form {
        Form::Text => {
            let mut line = Line::new();
            run.put_word(&mut line);
            line
        }
        Form::Page => {
            let mut line = run_begin(run);
            run.put_word(&mut line);
            line.put("</i>");
            line
        }
    }
}

// The text of a run before another one.
fn inner_line(form: Form, run: &Run) -> Line
    requires { 1 ≤ run.now.count }
    ensures { result ≡ inner_run form run.now }
{
    let mut line = run_line(form, run);
    line.put(space_of(form));
    line
}

/// Whether a number is the one that is meant, where there is one.
pub(crate) fn is_target(target: Option<u32>, sector: u32) -> bool
    ensures { result ≡ is_target target sector }
{
    match target {
        Some(target) => target == sector,
        None => false,
    }
}

// The cell of a sector, and whether it stands in a frame.
fn cell_at(
    start: &Start,
    slot: Slot,
    bytes: &[u8],
    target: Option<u32>,
    sector: u32,
) -> (Cell, bool)
    requires len { length bytes.now ≡ size_of start.now.geometry slot }
    requires inside { sector < sectors_of start.now.geometry slot }
    ensures { result ≡ cell_at start.now.geometry start.now.content slot bytes.now target sector }
{
    let bytes = sector_of(start.layout(), slot, bytes, sector);
    (
        cell_of(start, (slot, sector), bytes),
        is_target(target, sector),
    )
}

// The run after one more cell. Where that begins a new one, this one is written.
fn next_run<W: Write>(
    run: &Run,
    look: &Look,
    cell: (Cell, bool),
    writer: &mut W,
) -> Result<Run, WriteFailed>
    requires { (1 ≤ run.now.count) × (run.now.count < 4294967295) }
    ensures run { IfOk result (λ next. next ≡ next_run look.now.merges run.now cell) }
    ensures written { WritesText result (W.contents writer.old) (W.contents writer.new)
        (before_by (inner_run look.now.form) look.now.merges run.now cell) }
{
    if run.joins(look.merges, cell) {
        return Ok(run.with(cell.0));
    }
    write_line(writer, &inner_line(look.form, run))?;
    Ok(Run::of(cell))
}

/// Writes the sectors of a slot that holds these bytes, one of them in a frame.
///
/// # Errors
///
/// `WriteFailed`: a prefix of them is out.
pub fn write_cells<W: Write>(
    start: &Start,
    slot: Slot,
    bytes: &[u8],
    target: Option<u32>,
    look: &Look,
    writer: &mut W,
) -> Result<(), WriteFailed>
    requires { length bytes.now ≡ size_of start.now.geometry slot }
    ensures { WritesText result (W.contents writer.old) (W.contents writer.new)
        (slot_cells look.now start.now.geometry start.now.content slot bytes.now target) }
{
    let sectors = start.layout().sectors(slot);
    let mut run = Run::of(cell_at(start, slot, bytes, target, 0));
    for sector in 1..sectors {
        run = next_run(
            &run,
            look,
            cell_at(start, slot, bytes, target, sector),
            writer,
        )?;
    }
    write_line(writer, &run_line(look.form, &run))
}
