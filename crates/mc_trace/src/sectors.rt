//! A picture of a flash: what lies in each sector.
ghost use Rattle.std.specs.Prelude.{◌≡◌, ◌<◌, ◌++◌, codes, length, IfErr, IfOk, OnOk, string_bytes};
ghost use Rattle.mc_flash.specs.Flash.{sectors_of, size_of};
ghost use Rattle.mc_start.specs.Start.{begun};
ghost use Rattle.mc_trace.specs.Sectors.{IsAt, Pictures, PicturesAs, RefusesWalk, line_of, sector_word};

use crate::cells::{Words, cell_of, sector_of};
use crate::error::TraceError;
use mc_explore::{Schedule, Start, flash_at_cut, replay};
use mc_flash::{Flash, Slot};
use mc_output::{Line, WriteFailed, write_text};
use std::alloc::{AllocError, Global};
use std::io::Write;

/// Of which flash a picture is.
#[derive(Clone, Copy, Debug, PartialEq, Eq)]
pub enum Moment {
    /// The one when the last cut of a schedule fell; of no cut that of the start.
    AtCut,
    /// The one that the last boot leaves.
    AtEnd,
}

/// What a picture shows, and how.
#[derive(Clone, Copy, Debug, PartialEq, Eq)]
pub struct View {
    /// Of which flash it is.
    pub moment: Moment,
    /// Which words it has.
    pub words: Words,
}

// The word of a sector that holds these bytes, after a space.
fn next_word(start: &Start, words: Words, at: (Slot, u32), bytes: &[u8]) -> Line
    requires len { length bytes.now ≡ start.now.geometry.sector }
    requires inside { at.1 < sectors_of start.now.geometry at.0 }
    ensures { result ≡ codes " " ++ sector_word words start.now.geometry start.now.content at.0 at.1
        bytes.now }
{
    let mut word = Line::new();
    word.put(" ");
    cell_of(start, at, bytes).put_into(words, &mut word);
    word
}

/// Appends the line of a slot that holds these bytes.
pub fn push_slot(
    alloc: Global,
    text: &mut String,
    start: &Start,
    words: Words,
    slot: Slot,
    bytes: &[u8],
) -> Result<(), AllocError>
    requires { length bytes.now ≡ size_of start.now.geometry slot }
    ensures { OnOk result (string_bytes text.new ≡ string_bytes text.old
        ++ line_of words start.now.geometry start.now.content bytes.now slot) }
{
    let name = format!(in alloc; "{slot}")?;
    text.push_str(name.as_str())?;
    let layout = start.layout();
    for sector in 0..layout.sectors(slot) {
        let bytes = sector_of(layout, slot, bytes, sector);
        let word = next_word(start, words, (slot, sector), bytes);
        text.push_str(word.as_str())?;
    }
    text.push_str("\n")?;
    Ok(())
}

// The flash that is shown, or why there is none.
fn flash_at<F: Flash>(
    alloc: Global,
    start: &Start,
    schedule: &Schedule,
    moment: Moment,
) -> Result<F, TraceError>
    ensures at { IfOk result (λ flash. IsAt moment (begun start.now) schedule.now
        (F.seen flash).content) }
    ensures layout { IfOk result (λ flash. (F.seen flash).geometry ≡ start.now.geometry) }
    ensures refused { IfErr result (RefusesWalk (begun start.now) schedule.now) }
{
    let flash = match moment {
        Moment::AtCut => flash_at_cut::<F>(alloc, start, schedule)?,
        Moment::AtEnd => replay::<F>(alloc, start, schedule)?.1,
    };
    Ok(flash)
}

// The picture of a flash, or why there is none.
fn picture_of<F: Flash>(
    alloc: Global,
    start: &Start,
    schedule: &Schedule,
    view: View,
) -> Result<String, TraceError>
    ensures { PicturesAs view (begun start.now) schedule.now string_bytes result }
{
    let flash = flash_at::<F>(alloc, start, schedule, view.moment)?;
    let mut text = String::new(alloc);
    let (primary, secondary) = (flash.read(Slot::Primary), flash.read(Slot::Secondary));
    push_slot(alloc, &mut text, start, view.words, Slot::Primary, primary)?;
    push_slot(
        alloc,
        &mut text,
        start,
        view.words,
        Slot::Secondary,
        secondary,
    )?;
    Ok(text)
}

/// Writes what lies in each sector of a flash: the one when the last cut of a schedule fell, or the one that the boot after it
/// leaves. It has a line for each slot, a word for each sector: `-` is blank; `aN` and `bN` are what sector N of the start's primary
/// or secondary held, the first such; what else there is says `Words`. The text is made in memory.
/// Promised: what each sector holds (`Pictures`).
///
/// # Errors
///
/// `CannotOccur` with the number of the first cut that can't occur; `Memory`. Nothing is written then. `Write`, where a
/// write fails or takes no bytes: a beginning of the picture is out.
pub fn write_sectors<F: Flash, W: Write>(
    alloc: Global,
    start: &Start,
    schedule: &Schedule,
    view: View,
    writer: &mut W,
) -> Result<(), TraceError>
    ensures { Pictures view (begun start.now) schedule.now (W.contents writer.old)
        (W.contents writer.new) result }
{
    let text = picture_of::<F>(alloc, start, schedule, view)?;
    match write_text(writer, text.as_bytes()) {
        Ok(()) => Ok(()),
        Err(WriteFailed) => Err(TraceError::Write),
    }
}
