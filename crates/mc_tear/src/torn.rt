//! What a torn operation leaves, byte by byte.
ghost use Rattle.std.specs.Prelude.{◌≡◌, ◌↔◌, ◌+◌, ◌<◌, ◌≤◌, ◌^◌, true, length, OnOk};
ghost use Rattle.std.specs.Vec.{vec_capacity};
ghost use Rattle.mc_flash.specs.Flash.{CanTry, byte, size_of};
ghost use Rattle.mc_flash.specs.Usage.{Allows, Keeps, LeaveRoom, Spends, no_counts, plus};
ghost use Rattle.mc_tear.specs.Cases.{entry_byte, flag_byte, is_entry, is_rough, is_unfinished, magic_byte, may_change, may_change_at, may_change_some, put_in, slot_of, torn_byte, torn_bytes, value_at, written_byte, written_from, written_len};
ghost use Rattle.mc_tear.specs.inner.Room.{Applies, IsReady, tear_counts};
ghost use Rattle.mc_trailer.specs.Trailer.{bytes_at};

use crate::reading::{Entry, Reading};
use mc_flash::{Flash, FlashError, Layout, Op, Slot};
use mc_trailer::{Field, Flag, MAGIC, Magic, entry_place, magic_of_a_trailer, place};
use std::alloc::AllocError;

/// How an erase fails within which power is lost.
#[derive(Clone, Copy, Debug, PartialEq, Eq)]
pub enum Erasing {
    /// It only sets bits: a byte 0xff stays.
    Gentle,
    /// Its sector may be left with any bytes.
    Rough,
}

/// The slot that an operation writes in.
pub fn slot_of(op: &Op) -> Slot
    ensures { result ≡ slot_of op.now }
{
    match *op {
        Op::Erase(slot, _) | Op::Program(slot, _, _) | Op::Copy(_, _, slot, _, _) => slot,
    }
}

/// The first byte that an operation writes.
#[tactic(auto, using(crate::proofs::Ranges::range_of, crate::proofs::Ranges::range_small))]
pub fn written_from(layout: &Layout, op: &Op) -> u32
    requires { CanTry layout.now op.now }
    ensures from { result ≡ written_from layout.now op.now }
    ensures inside { result + written_len layout.now op.now ≤ size_of layout.now (slot_of op.now) }
    ensures small { result + written_len layout.now op.now ≤ 2 ^ 24 }
{
    // Reading a field gives the prover that it is a layout.
    let _unit = layout.unit();
    match *op {
        Op::Erase(_, sector) => sector * layout.sector(),
        Op::Program(_, at, _) => at,
        Op::Copy(_, _, _, offset, _) => offset,
    }
}

/// How many bytes an operation writes.
pub fn written_len(layout: &Layout, op: &Op) -> u32
    ensures { result ≡ written_len layout.now op.now }
{
    match op {
        Op::Erase(_, _) => layout.sector(),
        Op::Program(_, _, bytes) => bytes.bytes().len() as u32,
        Op::Copy(_, _, _, _, len) => *len,
    }
}

// What the whole operation makes of a byte that it writes.
fn written_byte<F: Flash>(flash: &F, op: &Op, k: u32) -> u8
    requires can { CanTry (F.seen flash.now).geometry op.now }
    requires within { k < written_len (F.seen flash.now).geometry op.now }
    ensures { result ≡ written_byte op.now (F.seen flash.now).content k }
{
    match op {
        Op::Erase(_, _) => 0xff,
        Op::Program(_, _, bytes) => bytes.bytes()[k as usize],
        Op::Copy(from, at, _, _, _) => flash.read(*from)[*at as usize + k as usize],
    }
}

// Whether any bytes may be left where an operation is torn.
fn is_rough(erasing: Erasing, op: &Op) -> bool
    ensures { result ≡ is_rough erasing op.now }
{
    matches!((erasing, op), (Erasing::Rough, Op::Erase(_, _)))
}

// What stands before the operation where it writes a byte.
fn old_byte<F: Flash>(flash: &F, op: &Op, k: u32) -> u8
    requires can { CanTry (F.seen flash.now).geometry op.now }
    requires within { k < written_len (F.seen flash.now).geometry op.now }
    ensures { let f = F.seen flash.now in result
        ≡ byte f.content (slot_of op.now) (written_from f.geometry op.now + k) }
{
    let at = written_from(flash.layout(), op) as usize + k as usize;
    flash.read(slot_of(op))[at]
}

// Whether an operation may change a byte that it writes.
fn may_change<F: Flash>(flash: &F, op: &Op, erasing: Erasing, k: u32) -> bool
    requires can { CanTry (F.seen flash.now).geometry op.now }
    requires within { k < written_len (F.seen flash.now).geometry op.now }
    ensures { let f = F.seen flash.now in result
        ≡ may_change erasing f.geometry op.now f.content k }
{
    is_rough(erasing, op) || written_byte(flash, op, k) != old_byte(flash, op, k)
}

/// Whether an operation may change a byte of its slot.
pub fn may_change_at<F: Flash>(flash: &F, op: &Op, erasing: Erasing, i: u32) -> bool
    requires { CanTry (F.seen flash.now).geometry op.now }
    ensures { let f = F.seen flash.now in result
        ≡ may_change_at erasing f.geometry op.now f.content i }
{
    match i.checked_sub(written_from(flash.layout(), op)) {
        Some(k) if k < written_len(flash.layout(), op) => may_change(flash, op, erasing, k),
        _ => false,
    }
}

/// Whether it may change one of so many bytes.
pub fn may_change_some<F: Flash>(flash: &F, op: &Op, erasing: Erasing, at: u32, len: u32) -> bool
    requires can { CanTry (F.seen flash.now).geometry op.now }
    requires small { at + len < 2 ^ 32 }
    ensures { let f = F.seen flash.now in result
        ≡ may_change_some erasing f.geometry op.now f.content at len }
{
    for k in 0..len {
        if may_change_at(flash, op, erasing, at + k) {
            return true;
        }
    }
    false
}

/// Whether an operation writes a status entry.
pub fn is_entry(layout: &Layout, op: &Op) -> bool
    ensures { result ≡ is_entry layout.now op.now }
{
    let Op::Program(Slot::Primary, at, _) = *op else {
        return false;
    };
    let bytes = 3 * layout.max_sectors() * layout.unit();
    let first = entry_place(layout, 0);
    first <= at && at < first + bytes
}

// A byte of a magic that is read so.
fn magic_byte(k: u32, magic: Magic) -> u8
    requires { k < 16 }
    ensures { result ≡ magic_byte k magic }
{
    match magic {
        Magic::Good => MAGIC[k as usize],
        Magic::Unset => 0xff,
        Magic::Bad => 0x55,
    }
}

// The byte of a flag that is read so.
fn flag_byte(flag: Flag) -> u8
    ensures { result ≡ flag_byte flag }
{
    match flag {
        Flag::Set => 1,
        Flag::Unset => 0xff,
        Flag::Bad => 3,
    }
}

// The first byte of an entry that is read so.
fn entry_byte(entry: Entry) -> u8
    ensures { result ≡ entry_byte entry }
{
    match entry {
        Entry::Written => 0x7f,
        Entry::Unset => 0xff,
    }
}

// What a reading puts at a byte of the slot of an operation, if it names a field there.
fn value_at(layout: &Layout, op: &Op, reading: &Reading, i: u32) -> Option<u8>
    requires { CanTry layout.now op.now }
    ensures { result ≡ value_at layout.now op.now reading.now i }
{
    magic_of_a_trailer();
    let slot = slot_of(op);
    if let Some(k) = i.checked_sub(place(layout, slot, Field::Magic)) {
        if k < 16 {
            return reading.magic.map(|magic| magic_byte(k, magic));
        }
    }
    if i == place(layout, slot, Field::ImageOk) {
        reading.image_ok.map(flag_byte)
    } else if i == place(layout, slot, Field::CopyDone) {
        reading.copy_done.map(flag_byte)
    } else if is_entry(layout, op) && i == written_from(layout, op) {
        reading.entry.map(entry_byte)
    } else {
        None
    }
}

// What a reading makes of a byte that an operation writes.
fn torn_byte<F: Flash>(flash: &F, op: &Op, erasing: Erasing, reading: &Reading, k: u32) -> u8
    requires can { CanTry (F.seen flash.now).geometry op.now }
    requires within { k < written_len (F.seen flash.now).geometry op.now }
    ensures { let f = F.seen flash.now in result
        ≡ torn_byte erasing f.geometry op.now f.content reading.now k }
{
    let old = old_byte(flash, op, k);
    if !may_change(flash, op, erasing, k) {
        return old;
    }
    let at = written_from(flash.layout(), op) + k;
    value_at(flash.layout(), op, reading, at).unwrap_or(old)
}

/// What a reading makes of the bytes that an operation writes, in a buffer that has room for a sector.
pub fn fill<F: Flash>(buffer: &mut Vec<u8>, flash: &F, op: &Op, erasing: Erasing, reading: &Reading)
    requires can { CanTry (F.seen flash.now).geometry op.now }
    requires room { written_len (F.seen flash.now).geometry op.now ≤ vec_capacity buffer.old }
    ensures bytes { let f = F.seen flash.now in buffer.new.items
        ≡ torn_bytes erasing f.geometry op.now f.content reading.now }
    ensures capacity { vec_capacity buffer.new ≡ vec_capacity buffer.old }
{
    buffer.clear();
    for k in 0..written_len(flash.layout(), op) {
        buffer.push_reserved(torn_byte(flash, op, erasing, reading, k));
    }
}

/// Whether some of these bytes is not as the whole operation makes it.
pub fn is_unfinished<F: Flash>(flash: &F, op: &Op, bytes: &[u8]) -> bool
    requires can { CanTry (F.seen flash.now).geometry op.now }
    requires len { length bytes.now ≡ written_len (F.seen flash.now).geometry op.now }
    ensures { (erasing : Erasing) (reading : Reading) → let f = F.seen flash.now in bytes.now
        ≡ torn_bytes erasing f.geometry op.now f.content reading
        → result ≡ is_unfinished erasing f.geometry op.now f.content reading }
{
    for k in 0..written_len(flash.layout(), op) {
        if bytes[k as usize] != written_byte(flash, op, k) {
            return true;
        }
    }
    false
}

// Whether both are the same bytes.
fn are_same(bytes: &[u8], others: &[u8]) -> bool
    ensures { (result ≡ true) ↔ (bytes.now ≡ others.now) }
{
    bytes == others
}

/// Whether these bytes stand where an operation writes.
pub fn is_there<F: Flash>(flash: &F, op: &Op, bytes: &[u8]) -> bool
    requires can { CanTry (F.seen flash.now).geometry op.now }
    requires len { length bytes.now ≡ written_len (F.seen flash.now).geometry op.now }
    ensures is { let f = F.seen flash.now in (result ≡ true) ↔ (bytes.now ≡ bytes_at f.content
        (slot_of op.now) (written_from f.geometry op.now) (length bytes.now)) }
    // Then nothing changes where they are put there.
    ensures same { let f = F.seen flash.now in result ≡ true
        → put_in f.geometry op.now f.content bytes.now ≡ f.content }
{
    let from = written_from(flash.layout(), op) as usize;
    are_same(bytes, &flash.read(slot_of(op))[from..from + bytes.len()])
}

// Makes the bytes that an operation writes 0xff, where they are not.
fn clear<F: Flash>(flash: &mut F, op: &Op) -> Result<(), AllocError>
    requires applies { Applies op.now (F.seen flash.old) }
    requires room { Allows (tear_counts (F.seen flash.old).geometry) (F.seen flash.old) }
    ensures ready { OnOk result (IsReady op.now (F.seen flash.old) (F.seen flash.new)) }
    ensures spends { Spends 1 (F.seen flash.old) result (F.seen flash.new) }
{
    // Reading a field gives the prover that it is a layout.
    let _unit = flash.layout().unit();
    if let Op::Erase(slot, sector) = *op {
        flash.erase(slot, sector)?;
    }
    Ok(())
}

/// Puts bytes where an operation that can be done writes, in the place of what stands there.
///
/// # Errors
///
/// Where the flash was refused memory.
pub fn put_torn<F: Flash>(flash: &mut F, op: &Op, bytes: &[u8]) -> Result<(), AllocError>
    requires applies { Applies op.now (F.seen flash.old) }
    requires len { length bytes.now ≡ written_len (F.seen flash.old).geometry op.now }
    requires room { Allows (tear_counts (F.seen flash.old).geometry) (F.seen flash.old) }
    ensures put { let f = F.seen flash.old in OnOk result ((F.seen flash.new).content
        ≡ put_in f.geometry op.now f.content bytes.now) }
    ensures keeps { OnOk result (Keeps (F.seen flash.old) (F.seen flash.new)) }
    ensures counts { OnOk result (LeaveRoom (F.seen flash.new).usage.counts no_counts
        (plus (F.seen flash.old).usage.counts (tear_counts (F.seen flash.old).geometry))) }
    ensures spends { Spends 2 (F.seen flash.old) result (F.seen flash.new) }
{
    // Reading a field gives the prover that it is a layout.
    let _unit = flash.layout().unit();
    let from = written_from(flash.layout(), op);
    clear(flash, op)?;
    flash.program(slot_of(op), from, bytes)?;
    Ok(())
}
