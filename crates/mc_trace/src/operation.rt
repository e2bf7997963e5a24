//! Operations as text.
ghost use Rattle.std.specs.Prelude.{◌≡◌, ◌+◌, ◌≤◌, ◌++◌, length};
ghost use Rattle.mc_trace.specs.Trace.{operation_text, part_at, part_text, erase_text, write_text, source_text, target_text, numbered_text};

use mc_flash::{Layout, Op, Slot};
use mc_output::{Line, MOST_LINE};
use mc_trailer::Field;

/// What stands at an offset of a slot.
#[derive(Clone, Copy)]
pub enum Part {
    Field(Field),
    /// A status entry, by its number.
    Entry(u32),
    /// Bytes before the trailer.
    Data,
}

/// What stands at an offset of a slot.
pub fn part_at(layout: &Layout, slot: Slot, start: u32) -> Part
    ensures { result ≡ part_at layout.now slot start }
{
    let left = layout.size(slot).saturating_sub(start);
    let trailer = layout.trailer_bytes();
    match left {
        0..=16 => Part::Field(Field::Magic),
        17..=24 => Part::Field(Field::ImageOk),
        25..=32 => Part::Field(Field::CopyDone),
        33..=40 => Part::Field(Field::SwapInfo),
        41..=48 => Part::Field(Field::SwapSize),
        _ if slot == Slot::Primary && left <= trailer => {
            Part::Entry((trailer - left) / layout.unit())
        }
        _ => Part::Data,
    }
}

impl Part {
    /// Adds its words to a line: at most 16 bytes.
    pub fn put_into(self, line: &mut Line)
        requires { length line.old + 16 ≤ MOST_LINE }
        ensures text { line.new ≡ line.old ++ part_text self }
        ensures length { length line.new ≤ length line.old + 16 }
    {
        match self {
            Part::Field(Field::Magic) => line.put("magic"),
            Part::Field(Field::ImageOk) => line.put("image-ok"),
            Part::Field(Field::CopyDone) => line.put("copy-done"),
            Part::Field(Field::SwapInfo) => line.put("swap-info"),
            Part::Field(Field::SwapSize) => line.put("swap-size"),
            Part::Entry(entry) => {
                line.put("entry ");
                line.put_number(entry);
            }
            Part::Data => line.put("data"),
        }
    }
}

// Adds an erase to a line: at most 26 bytes.
fn put_erase(line: &mut Line, slot: Slot, sector: u32)
    requires { length line.old + 26 ≤ MOST_LINE }
    ensures text { line.new ≡ line.old ++ erase_text slot sector }
    ensures length { length line.new ≤ length line.old + 26 }
{
    line.put("erase ");
    line.put(slot.name());
    line.put(" ");
    line.put_number(sector);
}

// Adds a write to a line: at most 76 bytes.
fn put_write(line: &mut Line, slot: Slot, start: u32, part: Part, bytes: &[u8])
    requires room { length line.old + 76 ≤ MOST_LINE }
    requires at_most { length bytes.now ≤ 16 }
    ensures text { line.new ≡ line.old ++ write_text slot start part bytes.now }
    ensures length { length line.new ≤ length line.old + 76 }
{
    line.put("write ");
    line.put(slot.name());
    line.put(" ");
    line.put_number(start);
    line.put(" ");
    part.put_into(line);
    line.put(" ");
    line.put_hex(bytes);
}

// Adds from where a copy goes to a line: at most 29 bytes.
fn put_source(line: &mut Line, from: Slot, start: u32)
    requires { length line.old + 29 ≤ MOST_LINE }
    ensures text { line.new ≡ line.old ++ source_text from start }
    ensures length { length line.new ≤ length line.old + 29 }
{
    line.put("copy ");
    line.put(from.name());
    line.put(" ");
    line.put_number(start);
    line.put(" to ");
}

// Adds where to a copy goes to a line, and how many bytes: at most 38 bytes.
fn put_target(line: &mut Line, to: Slot, offset: u32, len: u32)
    requires { length line.old + 38 ≤ MOST_LINE }
    ensures text { line.new ≡ line.old ++ target_text to offset len }
    ensures length { length line.new ≤ length line.old + 38 }
{
    line.put(to.name());
    line.put(" ");
    line.put_number(offset);
    line.put(" length ");
    line.put_number(len);
}

/// Adds an operation on a flash of that layout to a line: at most 76 bytes.
pub fn put_operation(line: &mut Line, layout: &Layout, op: Op)
    requires { length line.old + 76 ≤ MOST_LINE }
    ensures text { line.new ≡ line.old ++ operation_text layout.now op }
    ensures length { length line.new ≤ length line.old + 76 }
{
    match op {
        Op::Erase(slot, sector) => put_erase(line, slot, sector),
        Op::Program(slot, start, bytes) => {
            let part = part_at(layout, slot, start);
            put_write(line, slot, start, part, bytes.bytes());
        }
        Op::Copy(from, start, to, offset, len) => {
            put_source(line, from, start);
            put_target(line, to, offset, len);
        }
    }
}

/// An operation on a flash of a layout, with its number in its boot: the one that a cut counts.
#[derive(Clone, Copy)]
pub struct Numbered<'a> {
    pub layout: &'a Layout,
    pub number: u32,
    pub op: Op,
}

impl Numbered<'_> {
    /// Adds its text to a line: at most 87 bytes.
    pub fn put_into(&self, line: &mut Line)
        requires { length line.old + 87 ≤ MOST_LINE }
        ensures text { line.new ≡ line.old
            ++ numbered_text self.now.layout.now self.now.number self.now.op }
        ensures length { length line.new ≤ length line.old + 87 }
    {
        line.put_number(self.number);
        line.put(" ");
        put_operation(line, self.layout, self.op);
    }
}
