//! Hints that a layout does not fit a flash: trailers that would stand right under other numbers.
ghost use Rattle.std.specs.Prelude.{◌≡◌, ◌+◌, ◌-◌, ◌≤◌, ◌<◌, ◌^◌, ◌++◌, length, OnOk, string_bytes};
ghost use Rattle.mc_flash.specs.Flash.{sectors_of, size_of};
ghost use Rattle.mc_flash.specs.declared.op.Slot.TheVariants.{Primary, Secondary};
ghost use Rattle.mc_trace.specs.Hints.{entry_span, entries_text, hints_text, magic_text, magics_text, makes_layout, numbers_text, order_text, progress, shifted_text, written_span};

use crate::cells::sector_of;
use mc_boot::image_in;
use mc_flash::{Layout, Slot, blank};
use mc_output::{Line, MOST_LINE};
use mc_trailer::{Field, MAGIC, place};
use std::alloc::AllocError;

// The hint that a sector ends in a good magic, if it does.
fn magic_line(layout: &Layout, slot: Slot, bytes: &[u8], sector: u32) -> Line
    requires len { length bytes.now ≡ size_of layout.now slot }
    requires inside { sector < sectors_of layout.now slot }
    ensures { result ≡ magic_text layout.now slot bytes.now sector }
{
    let mut line = Line::new();
    if sector_of(layout, slot, bytes, sector).ends_with(&MAGIC) {
        line.put("hint magic ");
        line.put(slot.name());
        line.put(" ");
        line.put_number(sector);
        line.put("\n");
    }
    line
}

// Appends a hint for each sector of a slot, but the last, that ends in a good magic.
fn push_magics(
    text: &mut String,
    layout: &Layout,
    slot: Slot,
    bytes: &[u8],
) -> Result<(), AllocError>
    requires { length bytes.now ≡ size_of layout.now slot }
    ensures { OnOk result (string_bytes text.new ≡ string_bytes text.old
        ++ magics_text layout.now slot bytes.now 0 (sectors_of layout.now slot - 1)) }
{
    for sector in 0..layout.sectors(slot) - 1 {
        text.push_str(magic_line(layout, slot, bytes, sector).as_str())?;
    }
    Ok(())
}

// How many bytes at the end begin with the value of a status entry, and are each such a value or 0xff: a written entry and all that
// stands after it.
#[tactic(auto, using(crate::proofs::Hinted::last_other))]
fn entry_span(bytes: &[u8]) -> usize
    ensures value { result ≡ entry_span bytes.now }
    ensures at_most { result ≤ length bytes.now }
{
    let mut span = 0;
    for start in (0..bytes.len()).rev() {
        match bytes[start] {
            1 | 2 | 3 => span = bytes.len() - start,
            0xff => {}
            _ => return span,
        }
    }
    span
}

// Whether another unit and most of sectors make a layout with the other numbers of one.
fn makes_layout(layout: &Layout, unit: u32, most: u32) -> bool
    ensures { result ≡ makes_layout layout.now unit most }
{
    let (chunk, primary, secondary) = (layout.chunk(), layout.primary(), layout.secondary());
    Layout::new(layout.sector(), unit, most, chunk, primary, secondary).is_ok()
}

// Adds the hint that so many bytes are all status entries by another unit, if that is so and makes a layout: at most 48 bytes.
fn put_numbers(line: &mut Line, layout: &Layout, unit: u32, span: u32)
    requires unit { (0 < unit) × (unit ≤ 8) }
    requires room { length line.old + 48 ≤ MOST_LINE }
    ensures text { line.new ≡ line.old ++ numbers_text layout.now span unit }
    ensures length { length line.new ≤ length line.old + 48 }
{
    let most = span / (3 * unit);
    if span % (3 * unit) == 0 && makes_layout(layout, unit, most) {
        line.put("hint --unit ");
        line.put_number(unit);
        line.put(" --max-sectors ");
        line.put_number(most);
        line.put("\n");
    }
}

// The hints of status entries that take so many bytes, where these are not those of the layout.
#[tactic(auto, unfolding(crate::specs::Hints::entries_text))]
fn entries_line(layout: &Layout, span: u32) -> Line
    ensures { result ≡ entries_text layout.now span }
{
    let mut line = Line::new();
    if span != 3 * layout.max_sectors() * layout.unit() {
        put_numbers(&mut line, layout, 1, span);
        put_numbers(&mut line, layout, 2, span);
        put_numbers(&mut line, layout, 4, span);
        put_numbers(&mut line, layout, 8, span);
    }
    line
}

// How many bytes the status entries take from the first that is written to the fields of a primary with these bytes.
fn written_span(layout: &Layout, bytes: &[u8]) -> u32
    requires { length bytes.now ≡ size_of layout.now Primary }
    ensures { result ≡ written_span layout.now bytes.now }
{
    let fields = place(layout, Slot::Primary, Field::SwapSize) as usize;
    entry_span(&bytes[..fields]) as u32
}

// The status entries of a slot with these bytes, and swap-size after them.
fn progress<'a>(layout: &Layout, slot: Slot, bytes: &'a [u8]) -> &'a [u8]
    requires { length bytes.now ≡ size_of layout.now slot }
    ensures { result.now ≡ progress layout.now slot bytes.now }
{
    let end = place(layout, slot, Field::SwapInfo) as usize;
    let first = layout.size(slot).saturating_sub(layout.trailer_bytes()) as usize;
    &bytes[first..end]
}

// The hint that the secondary holds what a boot writes in the primary alone, and the primary does not.
fn order_hint(layout: &Layout, primary: &[u8], secondary: &[u8]) -> &'static str
    requires primary { length primary.now ≡ size_of layout.now Primary }
    requires secondary { length secondary.now ≡ size_of layout.now Secondary }
    ensures { result.now ≡ order_text layout.now primary.now secondary.now }
{
    let written = !blank(progress(layout, Slot::Secondary, secondary));
    if blank(progress(layout, Slot::Primary, primary)) && written {
        "hint slots in the wrong order\n"
    } else {
        ""
    }
}

// The hint that the image of the secondary begins in its second sector.
fn shifted_hint(layout: &Layout, secondary: &[u8]) -> &'static str
    requires { length secondary.now ≡ size_of layout.now Secondary }
    ensures { result.now ≡ shifted_text layout.now secondary.now }
{
    // It gives the prover how many bytes a slot has.
    let _size = layout.size(Slot::Secondary);
    let second = &secondary[layout.sector() as usize..];
    if image_in(secondary, &[]).is_none() && image_in(second, &[]).is_some() {
        "hint image secondary 1\n"
    } else {
        ""
    }
}

/// Appends what hints that a layout does not fit a flash, or that its slots are not in order, a line each: each good magic that is not
/// that of its slot; each unit and number of sectors that make a layout in which the first written status entry is the first of all, where in
/// this layout it is not; that the secondary holds what a boot writes in the primary alone; and that its image begins in its second sector.
pub fn push_hints(
    text: &mut String,
    layout: &Layout,
    primary: &[u8],
    secondary: &[u8],
) -> Result<(), AllocError>
    requires primary { length primary.now ≡ size_of layout.now Primary }
    requires secondary { length secondary.now ≡ size_of layout.now Secondary }
    ensures { OnOk result (string_bytes text.new ≡ string_bytes text.old
        ++ hints_text layout.now primary.now secondary.now) }
{
    push_magics(text, layout, Slot::Primary, primary)?;
    push_magics(text, layout, Slot::Secondary, secondary)?;
    let span = written_span(layout, primary);
    text.push_str(entries_line(layout, span).as_str())?;
    text.push_str(order_hint(layout, primary, secondary))?;
    text.push_str(shifted_hint(layout, secondary))?;
    Ok(())
}
