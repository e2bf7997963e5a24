//! A layout in numbers: what the trailers take, how large an image may be, where each field stands, how long a boot is, and what
//! swaps ask of the flash.
ghost use Rattle.std.specs.Prelude.{◌≡◌, ◌<◌, ◌≤◌, ◌+◌, ◌*◌, ◌++◌, length, IfErr, OnOk, OnErr};
ghost use Rattle.std.specs.Io.KnownBytes.{Appends};
ghost use Rattle.mc_output.specs.Text.{AppendsPrefix};
ghost use Rattle.mc_trace.specs.LayoutText.{sizes_text, line_of_field, line_of_entry, part_line, fields_text, parts_text, operations_text, boots_text, layout_text};
ghost use Rattle.mc_trace.specs.Wear.{LongestLaw};

use crate::error::TraceError;
use crate::operation::Part;
use crate::wear::{Times, put_wear};
use mc_boot::swap_operations;
use mc_flash::{Grain, Layout, Slot, most_operations};
use mc_output::{Line, MOST_LINE, write_line};
use mc_trailer::{Field, entry_place, place};
use std::io::Write;

// What a trailer takes of a slot, and the most that an image may have.
fn sizes_line(layout: &Layout) -> Line
    ensures { result ≡ sizes_text layout.now }
{
    let mut line = Line::new();
    line.put("trailer-bytes ");
    line.put_number(layout.trailer_bytes());
    line.put("\ntrailer-sectors ");
    line.put_number(layout.trailer_sectors());
    line.put("\nimage-sectors ");
    line.put_number(layout.greatest_sectors());
    line.put("\nimage-bytes ");
    line.put_number(layout.largest_image());
    line.put("\n");
    line
}

/// The first byte of a part of a slot.
#[derive(Clone, Copy)]
pub struct PartLine {
    pub slot: Slot,
    pub at: u32,
    pub part: Part,
}

// Where a field of a slot stands.
fn line_of_field(layout: &Layout, slot: Slot, field: Field) -> PartLine
    ensures { result ≡ line_of_field layout.now slot field }
{
    PartLine {
        slot,
        at: place(layout, slot, field),
        part: Part::Field(field),
    }
}

// Where a status entry stands.
fn line_of_entry(layout: &Layout, entry: u32) -> PartLine
    requires { entry < 3 * layout.now.max_sectors }
    ensures { result ≡ line_of_entry layout.now entry }
{
    PartLine {
        slot: Slot::Primary,
        at: entry_place(layout, entry),
        part: Part::Entry(entry),
    }
}

impl PartLine {
    // Adds its line, with the line feed: at most 38 bytes.
    fn put_into(self, line: &mut Line)
        requires { length line.old + 38 ≤ MOST_LINE }
        ensures text { line.new ≡ line.old ++ part_line self }
        ensures length { length line.new ≤ length line.old + 38 }
    {
        line.put(self.slot.name());
        line.put(" ");
        line.put_number(self.at);
        line.put(" ");
        self.part.put_into(line);
        line.put("\n");
    }
}

// Adds the lines of the fields of a slot: at most 190 bytes.
fn put_fields(line: &mut Line, layout: &Layout, slot: Slot)
    requires { length line.old + 190 ≤ MOST_LINE }
    ensures text { line.new ≡ line.old ++ fields_text layout.now slot }
    ensures length { length line.new ≤ length line.old + 190 }
{
    line_of_field(layout, slot, Field::SwapSize).put_into(line);
    line_of_field(layout, slot, Field::SwapInfo).put_into(line);
    line_of_field(layout, slot, Field::CopyDone).put_into(line);
    line_of_field(layout, slot, Field::ImageOk).put_into(line);
    line_of_field(layout, slot, Field::Magic).put_into(line);
}

// The status entries and the fields.
#[tactic(auto, unfolding(crate::specs::LayoutText::parts_text))]
fn parts_line(layout: &Layout) -> Line
    ensures { result ≡ parts_text layout.now }
{
    let last = 3 * layout.max_sectors() - 1;
    let mut line = Line::new();
    line_of_entry(layout, 0).put_into(&mut line);
    line_of_entry(layout, last).put_into(&mut line);
    put_fields(&mut line, layout, Slot::Primary);
    put_fields(&mut line, layout, Slot::Secondary);
    line
}

// Adds how many operations boots have by a grain: the whole swap of the largest images for a test, and the most of any boot.
// The lines have at most 60 bytes.
fn put_operations(line: &mut Line, layout: &Layout, grain: Grain)
    requires { length line.old + 60 ≤ MOST_LINE }
    ensures text { line.new ≡ line.old ++ operations_text grain layout.now }
    ensures length { length line.new ≤ length line.old + 60 }
{
    line.put(grain.name());
    line.put(" swap-ops ");
    line.put_number(swap_operations(layout, grain));
    line.put("\n");
    line.put(grain.name());
    line.put(" most-ops ");
    line.put_long_number(most_operations(layout, grain));
    line.put("\n");
}

// The operations by both grains, and what swaps ask of the flash.
fn boots_line(layout: &Layout, times: Option<Times>) -> Line
    ensures { result ≡ boots_text layout.now times }
{
    let mut line = Line::new();
    put_operations(&mut line, layout, Grain::Call);
    put_operations(&mut line, layout, Grain::Unit);
    put_wear(&mut line, layout, times);
    line
}

/// Writes what follows from the numbers of a layout, a line each: the bytes and sectors of a trailer; the most sectors and bytes
/// that an image may have, its header and areas included; the first byte of the first and the last status entry and of each
/// field, by the words of a trace; by each grain the operations of a whole swap for a test of the largest images, and the most
/// operations that a boot may have; and how often that swap erases one sector at most, of each slot, in its trailer and before it.
/// Where the times of the flash are given, it also writes how long that swap takes, and how long the revert of the same images, which
/// no boot takes longer than, in microseconds. It takes no memory.
/// Promised: a layout; no boot takes longer than its revert (`whole`, `prefix`, `longest`, `LongestLaw`, `err`).
///
/// # Errors
///
/// `Write`, where a write fails or takes no bytes: a beginning of the text is out.
pub fn write_layout<W: Write>(
    layout: &Layout,
    times: Option<Times>,
    writer: &mut W,
) -> Result<(), TraceError>
    ensures whole { OnOk result (Appends (W.contents writer.old) (W.contents writer.new)
        (layout_text layout.now times)) }
    ensures prefix { OnErr result (AppendsPrefix (W.contents writer.old) (W.contents writer.new)
        (layout_text layout.now times)) }
    ensures err { IfErr result (λ e. e ≡ TraceError.Write) }
    // So no boot takes longer than the revert whose time is written.
    ensures longest { LongestLaw }
{
    write_line(writer, &sizes_line(layout))?;
    write_line(writer, &parts_line(layout))?;
    write_line(writer, &boots_line(layout, times))?;
    Ok(())
}
