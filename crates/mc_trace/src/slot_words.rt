//! The sectors of a slot in words, those that go on with one another as one.
ghost use Rattle.std.specs.Prelude.{◌≡◌, ◌<◌, ◌≤◌, ◌++◌, false, length, true, IfOk, IfSome, OnOk, option_map, string_bytes};
ghost use Rattle.mc_flash.specs.Flash.{sectors_of, size_of};
ghost use Rattle.mc_trace.specs.Runs.{before_by, next_run};
ghost use Rattle.mc_trace.specs.Sectors.{cell_by, sector_of};
ghost use Rattle.mc_trace.specs.SlotWords.{cells_by, run_words, sectors_text, spaced_word};

use crate::cells::{Cell, cell_of, plain_cell, sector_of};
use crate::runs::Run;
use mc_explore::Start;
use mc_flash::{Layout, Slot};
use mc_output::Line;
use std::alloc::AllocError;

// The word of a run, after a space.
fn word_of(run: &Run) -> Line
    requires { 1 ≤ run.now.count }
    ensures { result ≡ spaced_word run.now }
{
    let mut line = Line::new();
    line.put(" ");
    run.put_word(&mut line);
    line
}

// The run after one more cell. Where that begins a new one, the word of this one is appended.
fn next_run(text: &mut String, run: &Run, cell: Cell) -> Result<Run, AllocError>
    requires { (1 ≤ run.now.count) × (run.now.count < 4294967295) }
    ensures run { IfOk result (λ next. next ≡ next_run true run.now (cell, false)) }
    ensures text { OnOk result (string_bytes text.new ≡ string_bytes text.old
        ++ before_by spaced_word true run.now (cell, false)) }
{
    if run.joins(true, (cell, false)) {
        return Ok(run.with(cell));
    }
    text.push_str(word_of(run).as_str())?;
    Ok(Run::of((cell, false)))
}

// What lies in a sector of a slot that holds these bytes, by the sectors of a named flash, if there is one.
fn cell_in(layout: &Layout, named: Option<&Start>, slot: Slot, bytes: &[u8], sector: u32) -> Cell
    requires named { IfSome named (λ start. start.now.geometry ≡ layout.now) }
    requires len { length bytes.now ≡ size_of layout.now slot }
    requires inside { sector < sectors_of layout.now slot }
    ensures { result ≡ cell_by layout.now (option_map (λ start. start.now.content) named.entry) slot
        sector (sector_of layout.now bytes.now sector) }
{
    let bytes = sector_of(layout, slot, bytes, sector);
    match named {
        Some(start) => cell_of(start, (slot, sector), bytes),
        None => plain_cell(layout, (slot, sector), bytes),
    }
}

// Appends the words of the sectors of a slot.
fn push_words(
    text: &mut String,
    layout: &Layout,
    named: Option<&Start>,
    slot: Slot,
    bytes: &[u8],
) -> Result<(), AllocError>
    requires named { IfSome named (λ start. start.now.geometry ≡ layout.now) }
    requires len { length bytes.now ≡ size_of layout.now slot }
    ensures { OnOk result (string_bytes text.new ≡ string_bytes text.old
        ++ run_words (cells_by layout.now (option_map (λ start. start.now.content) named.entry) slot
        bytes.now 0 (sectors_of layout.now slot))) }
{
    let sectors = layout.sectors(slot);
    let mut run = Run::of((cell_in(layout, named, slot, bytes, 0), false));
    for sector in 1..sectors {
        run = next_run(text, &run, cell_in(layout, named, slot, bytes, sector))?;
    }
    text.push_str(word_of(&run).as_str())
}

/// Appends the line of what lies in the sectors of a slot with these bytes, by what lies in those of a named flash of the same layout, if
/// there is one.
#[tactic(auto, unfolding(crate::specs::SlotWords::sectors_text))]
pub fn push_sectors(
    text: &mut String,
    layout: &Layout,
    named: Option<&Start>,
    slot: Slot,
    bytes: &[u8],
) -> Result<(), AllocError>
    requires named { IfSome named (λ start. start.now.geometry ≡ layout.now) }
    requires len { length bytes.now ≡ size_of layout.now slot }
    ensures { OnOk result (string_bytes text.new ≡ string_bytes text.old
        ++ sectors_text layout.now (option_map (λ start. start.now.content) named.entry) slot
        bytes.now) }
{
    text.push_str("sectors ")?;
    text.push_str(slot.name())?;
    push_words(text, layout, named, slot, bytes)?;
    text.push_str("\n")?;
    Ok(())
}
