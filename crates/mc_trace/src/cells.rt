//! What lies in a sector of a flash.
ghost use Rattle.std.specs.Prelude.{◌≡◌, ◌<◌, ◌≤◌, ◌+◌, ◌++◌, bytes_eq, decimal, length};
ghost use Rattle.mc_flash.specs.Flash.{bytes_of, sectors_of, size_of};
ghost use Rattle.mc_trace.specs.Sectors.{cell_of, cell_word, first_like, is_in_trailer, is_like, letter, origin_of, other_cell, plain_cell, second_of, sector_of, origin_in, used};

use mc_explore::Start;
use mc_flash::{Layout, Slot, blank};
use mc_output::{Line, MOST_LINE};

/// What lies in a sector, by the sectors of a start.
#[derive(Clone, Copy, Debug, PartialEq, Eq)]
pub enum Cell {
    /// Nothing.
    Blank,
    /// What that sector held at the start. Of several it is the same sector, else the same one of the other slot, the one before it, the
    /// first of the other slot, or the first of its own.
    Held(Slot, u32),
    /// A part of the trailer.
    Trailer,
    /// What that sector began with at the start, and nothing after it: a copy that is not done. Of several it is the same one of the other
    /// slot, the one before it, the first of the other slot, or the first of its own.
    Half(Slot, u32),
    /// Anything else.
    Other,
}

/// Which words a picture has for a sector that holds neither nothing nor what one of the start held.
#[derive(Clone, Copy, Debug, PartialEq, Eq)]
pub enum Words {
    /// `*` alone.
    Plain,
    /// `t` for a sector of the trailer; `aN~` and `bN~` for one that begins as that sector did and is blank then; else `*`.
    All,
}

/// The bytes of a sector.
pub fn sector_of<'a>(layout: &Layout, slot: Slot, bytes: &'a [u8], sector: u32) -> &'a [u8]
    requires len { length bytes.now ≡ size_of layout.now slot }
    requires inside { sector < sectors_of layout.now slot }
    ensures value { result.now ≡ sector_of layout.now bytes.now sector }
    ensures len { length result.now ≡ layout.now.sector }
{
    let size = layout.sector() as usize;
    let at = sector as usize * size;
    &bytes[at..at + size]
}

// The first sector of a slot that begins with these bytes.
fn first_like(layout: &Layout, slot: Slot, bytes: &[u8], wanted: &[u8]) -> Option<u32>
    requires len { length bytes.now ≡ size_of layout.now slot }
    requires wanted { length wanted.now ≤ layout.now.sector }
    ensures { result ≡ first_like layout.now bytes.now wanted.now 0 (sectors_of layout.now slot) }
{
    for sector in 0..layout.sectors(slot) {
        let found = &sector_of(layout, slot, bytes, sector)[..wanted.len()];
        if found == wanted {
            return Some(sector);
        }
    }
    None
}

/// The first sector of the start that begins with these bytes.
pub(crate) fn origin_of(start: &Start, wanted: &[u8]) -> Option<(Slot, u32)>
    requires { length wanted.now ≤ start.now.geometry.sector }
    ensures { result ≡ origin_of start.now.geometry start.now.content wanted.now }
{
    let layout = start.layout();
    if let Some(sector) = first_like(layout, Slot::Primary, start.primary(), wanted) {
        return Some((Slot::Primary, sector));
    }
    let sector = first_like(layout, Slot::Secondary, start.secondary(), wanted)?;
    Some((Slot::Secondary, sector))
}

// Whether a slot has a sector of that number, and it begins with these bytes.
fn is_like(layout: &Layout, slot: Slot, bytes: &[u8], sector: u32, wanted: &[u8]) -> bool
    requires len { length bytes.now ≡ size_of layout.now slot }
    requires wanted { length wanted.now ≤ layout.now.sector }
    ensures { result ≡ is_like layout.now bytes.now wanted.now sector (sectors_of layout.now slot) }
{
    if sector >= layout.sectors(slot) {
        return false;
    }
    &sector_of(layout, slot, bytes, sector)[..wanted.len()] == wanted
}

// The first sector of the start that begins with these bytes, the secondary's before the primary's.
fn second_origin_of(start: &Start, wanted: &[u8]) -> Option<(Slot, u32)>
    requires { length wanted.now ≤ start.now.geometry.sector }
    ensures { let s = start.now in result
        ≡ second_of (first_like s.geometry s.content.primary wanted.now 0 s.geometry.primary)
        (first_like s.geometry s.content.secondary wanted.now 0 s.geometry.secondary) }
{
    let layout = start.layout();
    if let Some(sector) = first_like(layout, Slot::Secondary, start.secondary(), wanted) {
        return Some((Slot::Secondary, sector));
    }
    let sector = first_like(layout, Slot::Primary, start.primary(), wanted)?;
    Some((Slot::Primary, sector))
}

// The sector of the start from which bytes in a sector of the primary come.
fn origin_in_primary(start: &Start, sector: u32, wanted: &[u8]) -> Option<(Slot, u32)>
    requires { length wanted.now ≤ start.now.geometry.sector }
    ensures { result
        ≡ origin_in start.now.geometry start.now.content Slot.Primary sector wanted.now }
{
    let (layout, before) = (start.layout(), sector.saturating_sub(1));
    if is_like(layout, Slot::Secondary, start.secondary(), sector, wanted) {
        return Some((Slot::Secondary, sector));
    }
    if is_like(layout, Slot::Primary, start.primary(), before, wanted) {
        return Some((Slot::Primary, before));
    }
    second_origin_of(start, wanted)
}

// The sector of the start from which bytes in a sector of the secondary come.
fn origin_in_secondary(start: &Start, sector: u32, wanted: &[u8]) -> Option<(Slot, u32)>
    requires { length wanted.now ≤ start.now.geometry.sector }
    ensures { result
        ≡ origin_in start.now.geometry start.now.content Slot.Secondary sector wanted.now }
{
    let (layout, before) = (start.layout(), sector.saturating_sub(1));
    if is_like(layout, Slot::Primary, start.primary(), sector, wanted) {
        return Some((Slot::Primary, sector));
    }
    if is_like(layout, Slot::Secondary, start.secondary(), before, wanted) {
        return Some((Slot::Secondary, before));
    }
    origin_of(start, wanted)
}

// The sector of the start from which bytes in a sector of a slot come.
fn origin_in(start: &Start, at: (Slot, u32), wanted: &[u8]) -> Option<(Slot, u32)>
    requires { length wanted.now ≤ start.now.geometry.sector }
    ensures { result ≡ origin_in start.now.geometry start.now.content at.0 at.1 wanted.now }
{
    match at.0 {
        Slot::Primary => origin_in_primary(start, at.1, wanted),
        Slot::Secondary => origin_in_secondary(start, at.1, wanted),
    }
}

// Whether a sector of a slot holds what it held at the start.
fn is_as_before(start: &Start, at: (Slot, u32), bytes: &[u8]) -> bool
    requires { at.1 < sectors_of start.now.geometry at.0 }
    ensures { let s = start.now in result
        ≡ bytes_eq (sector_of s.geometry (bytes_of s.content at.0) at.1) bytes.now }
{
    let (slot, sector) = at;
    let held = match slot {
        Slot::Primary => start.primary(),
        Slot::Secondary => start.secondary(),
    };
    sector_of(start.layout(), slot, held, sector) == bytes
}

// How many bytes come before the blank ones at the end.
fn used(bytes: &[u8]) -> usize
    ensures value { result ≡ used bytes.now }
    ensures at_most { result ≤ length bytes.now }
{
    let mut count = bytes.len();
    'blank: while count > 0 && bytes[count - 1] == 0xff {
        count -= 1;
    }
    count
}

// Whether a sector of a slot is one of its trailer.
fn is_in_trailer(layout: &Layout, slot: Slot, sector: u32) -> bool
    ensures { result ≡ is_in_trailer layout.now slot sector }
{
    sector
        >= layout
            .sectors(slot)
            .saturating_sub(layout.trailer_sectors())
}

// What lies in a sector that is neither blank nor as one of the start was.
fn other_cell(start: &Start, at: (Slot, u32), bytes: &[u8]) -> Cell
    requires { length bytes.now ≡ start.now.geometry.sector }
    ensures { result ≡ other_cell start.now.geometry start.now.content at.0 at.1 bytes.now }
{
    if is_in_trailer(start.layout(), at.0, at.1) {
        return Cell::Trailer;
    }
    match origin_in(start, at, &bytes[..used(bytes)]) {
        Some((slot, sector)) => Cell::Half(slot, sector),
        None => Cell::Other,
    }
}

/// What lies in a sector of a slot that holds these bytes. It takes no memory.
#[tactic(auto, unfolding(crate::specs::Sectors::cell_of))]
pub fn cell_of(start: &Start, at: (Slot, u32), bytes: &[u8]) -> Cell
    requires len { length bytes.now ≡ start.now.geometry.sector }
    requires inside { at.1 < sectors_of start.now.geometry at.0 }
    ensures { result ≡ cell_of start.now.geometry start.now.content at.0 at.1 bytes.now }
{
    if blank(bytes) {
        return Cell::Blank;
    }
    if is_as_before(start, at, bytes) {
        return Cell::Held(at.0, at.1);
    }
    match origin_in(start, at, bytes) {
        Some((slot, sector)) => Cell::Held(slot, sector),
        None => other_cell(start, at, bytes),
    }
}

/// What lies in a sector of a slot that holds these bytes, where no start is known. It takes no memory.
pub(crate) fn plain_cell(layout: &Layout, at: (Slot, u32), bytes: &[u8]) -> Cell
    ensures { result ≡ plain_cell layout.now at.0 at.1 bytes.now }
{
    let (slot, sector) = at;
    if blank(bytes) {
        Cell::Blank
    } else if is_in_trailer(layout, slot, sector) {
        Cell::Trailer
    } else {
        Cell::Other
    }
}

// Adds what stands for a sector of the start to a line: at most 11 bytes.
fn put_origin(line: &mut Line, slot: Slot, sector: u32)
    requires { length line.old + 11 ≤ MOST_LINE }
    ensures text { line.new ≡ line.old ++ (letter slot ++ decimal sector) }
    ensures length { length line.new ≤ length line.old + 11 }
{
    match slot {
        Slot::Primary => line.put("a"),
        Slot::Secondary => line.put("b"),
    }
    line.put_number(sector);
}

impl Cell {
    /// Adds the word for it to a line: at most 12 bytes.
    pub fn put_into(self, words: Words, line: &mut Line)
        requires { length line.old + 12 ≤ MOST_LINE }
        ensures text { line.new ≡ line.old ++ cell_word words self }
        ensures length { length line.new ≤ length line.old + 12 }
    {
        match (self, words) {
            (Cell::Blank, _) => line.put("-"),
            (Cell::Held(slot, sector), _) => put_origin(line, slot, sector),
            (Cell::Trailer, Words::All) => line.put("t"),
            (Cell::Half(slot, sector), Words::All) => {
                put_origin(line, slot, sector);
                line.put("~");
            }
            (Cell::Trailer | Cell::Half(_, _) | Cell::Other, _) => line.put("*"),
        }
    }
}
