//! A flash as a patch of that of a start: which sectors differ, and what they hold.
ghost use Rattle.std.specs.Prelude.{◌≡◌, ◌∷◌, ◌++◌, ◌+◌, ◌<◌, ◌≤◌, [], codes, false, length, true, IfErr};
ghost use Rattle.hex.specs.Hex.{encode_lower};
ghost use Rattle.mc_flash.specs.Flash.{bytes_of, sectors_of, size_of};
ghost use Rattle.mc_trace.specs.Patch.{change_of, changes, lines_text, patch_text, patched, sector_text, slot_changes, source_of, source_text, Bytes};
ghost use Rattle.mc_trace.specs.Sectors.{sector_of};
ghost use Rattle.mc_trace.specs.inner.Boots.{WritesText};

use crate::cells::{origin_of, sector_of};
use crate::error::TraceError;
use mc_explore::Start;
use mc_flash::{Flash, Slot, blank};
use mc_output::{Line, MOST_LINE, write_line, write_text};
use std::io::Write;

// The most bytes whose hexadecimal digits are written at once.
const MOST_BYTES: usize = 128;

/// Adds a sector to a line: at most 20 bytes.
pub(crate) fn put_sector(line: &mut Line, slot: Slot, sector: u32)
    requires { length line.old + 20 ≤ MOST_LINE }
    ensures text { line.new ≡ line.old ++ sector_text slot sector }
    ensures length { length line.new ≤ length line.old + 20 }
{
    line.put(slot.name());
    line.put(" ");
    line.put_number(sector);
}

// Adds what a sector with these bytes holds to a line, where that needs no digits: at most 20 bytes. Says whether it did.
#[tactic(auto, unfolding(crate::specs::Patch::source_of))]
fn put_source(line: &mut Line, start: &Start, bytes: &[u8]) -> bool
    requires sector { length bytes.now ≡ start.now.geometry.sector }
    requires room { length line.old + 20 ≤ MOST_LINE }
    ensures said { result ≡ true → line.new
        ≡ line.old ++ source_text (source_of start.now.geometry start.now.content bytes.now) }
    ensures length { result ≡ true → length line.new ≤ length line.old + 20 }
    ensures left { result ≡ false
        → source_of start.now.geometry start.now.content bytes.now ≡ Bytes bytes.now }
    ensures same { result ≡ false → line.new ≡ line.old }
{
    if blank(bytes) {
        line.put("blank");
        return true;
    }
    match origin_of(start, bytes) {
        Some((slot, sector)) => {
            put_sector(line, slot, sector);
            true
        }
        None => false,
    }
}

// Writes bytes in hexadecimal digits, in pieces.
fn write_hex<W: Write>(bytes: &[u8], writer: &mut W) -> Result<(), TraceError>
    ensures written { WritesText result (W.contents writer.old) (W.contents writer.new)
        (encode_lower bytes.now) }
    ensures err { IfErr result (λ e. e ≡ TraceError.Write) }
{
    let mut rest = bytes;
    'pieces: while !rest.is_empty() {
        let (piece, after) = rest.split_at(rest.len().min(MOST_BYTES));
        let mut digits = Line::new();
        digits.put_hex(piece);
        write_line(writer, &digits)?;
        rest = after;
    }
    Ok(())
}

// Writes a line that begins so, and ends with these bytes in hexadecimal digits.
fn write_bytes<W: Write>(line: &Line, bytes: &[u8], writer: &mut W) -> Result<(), TraceError>
    ensures written { WritesText result (W.contents writer.old) (W.contents writer.new)
        (line.now ++ (encode_lower bytes.now ++ 10 ∷ [])) }
    ensures err { IfErr result (λ e. e ≡ TraceError.Write) }
{
    write_line(writer, line)?;
    write_hex(bytes, writer)?;
    write_text(writer, b"\n")?;
    Ok(())
}

// Writes the line of a sector that holds these bytes, and did not at the start.
fn write_change<W: Write>(
    start: &Start,
    slot: Slot,
    sector: u32,
    bytes: &[u8],
    writer: &mut W,
) -> Result<(), TraceError>
    requires { length bytes.now ≡ start.now.geometry.sector }
    ensures written { WritesText result (W.contents writer.old) (W.contents writer.new)
        (sector_text slot sector ++ (codes " " ++ (source_text
        (source_of start.now.geometry start.now.content bytes.now) ++ 10 ∷ []))) }
    ensures err { IfErr result (λ e. e ≡ TraceError.Write) }
{
    let mut line = Line::new();
    put_sector(&mut line, slot, sector);
    line.put(" ");
    if !put_source(&mut line, start, bytes) {
        return write_bytes(&line, bytes, writer);
    }
    line.put("\n");
    write_line(writer, &line)?;
    Ok(())
}

// Writes the line of a sector, where it is not what it was: of a slot that held the first bytes at the start, and holds the second.
fn write_sector<W: Write>(
    start: &Start,
    slot: Slot,
    was: &[u8],
    bytes: &[u8],
    sector: u32,
    writer: &mut W,
) -> Result<(), TraceError>
    requires was { was.now ≡ bytes_of start.now.content slot }
    requires len_was { length was.now ≡ size_of start.now.geometry slot }
    requires len { length bytes.now ≡ size_of start.now.geometry slot }
    requires inside { sector < sectors_of start.now.geometry slot }
    ensures written { WritesText result (W.contents writer.old) (W.contents writer.new)
        (lines_text (change_of start.now.geometry start.now.content slot sector
        (sector_of start.now.geometry bytes.now sector))) }
    ensures err { IfErr result (λ e. e ≡ TraceError.Write) }
{
    let layout = start.layout();
    let held = sector_of(layout, slot, bytes, sector);
    if held == sector_of(layout, slot, was, sector) {
        return Ok(());
    }
    write_change(start, slot, sector, held, writer)
}

// Writes the lines of a slot that held the first bytes at the start, and holds the second.
fn write_slot<W: Write>(
    start: &Start,
    slot: Slot,
    was: &[u8],
    bytes: &[u8],
    writer: &mut W,
) -> Result<(), TraceError>
    requires was { was.now ≡ bytes_of start.now.content slot }
    requires len_was { length was.now ≡ size_of start.now.geometry slot }
    requires len { length bytes.now ≡ size_of start.now.geometry slot }
    ensures written { WritesText result (W.contents writer.old) (W.contents writer.new)
        (lines_text (slot_changes start.now.geometry start.now.content slot bytes.now)) }
    ensures err { IfErr result (λ e. e ≡ TraceError.Write) }
{
    let sectors = start.layout().sectors(slot);
    for sector in 0..sectors {
        write_sector(start, slot, was, bytes, sector, writer)?;
    }
    Ok(())
}

/// Writes how a flash differs from that of a start: a line for each sector that is not what it was, the primary's first. A line has
/// the slot and the sector's number, and then `blank`, or the slot and the number of the first sector of the start that held the same,
/// or the bytes in hexadecimal digits. It takes no memory.
/// Promised: a patch, which gives the flash back (`written`, `back`, `err`).
///
/// # Errors
///
/// `Write`, where a write fails or takes no bytes: a beginning of the lines is out.
pub fn write_patch<F: Flash, W: Write>(
    start: &Start,
    flash: &F,
    writer: &mut W,
) -> Result<(), TraceError>
    requires { (F.seen flash.now).geometry ≡ start.now.geometry }
    ensures written { WritesText result (W.contents writer.old) (W.contents writer.new)
        (patch_text start.now.geometry start.now.content (F.seen flash.now).content) }
    // The changes that the lines say make that flash of the start's.
    ensures back { patched start.now.geometry start.now.content
        (changes start.now.geometry start.now.content (F.seen flash.now).content)
        ≡ (F.seen flash.now).content }
    ensures err { IfErr result (λ e. e ≡ TraceError.Write) }
{
    let was = (start.primary(), start.secondary());
    let now = (flash.read(Slot::Primary), flash.read(Slot::Secondary));
    write_slot(start, Slot::Primary, was.0, now.0, writer)?;
    write_slot(start, Slot::Secondary, was.1, now.1, writer)
}
