//! Which fields a torn operation may change, and which readings are cases of it.
ghost use Rattle.std.specs.Prelude.{◌≡◌, ℕ, ◌<◌, ◌≤◌, false, length, IfOk, OnOk};
ghost use Rattle.std.specs.Vec.{vec_capacity};
ghost use Rattle.mc_flash.specs.Flash.{CanTry};
ghost use Rattle.mc_flash.specs.Usage.{HasRoom, Spends, Stays};
ghost use Rattle.mc_tear.specs.Cases.{fields_of, if_named, is_flag, is_magic, names, put_in, reads_as, slot_of, written_len};
ghost use Rattle.mc_tear.specs.Readings.{reading_of};
ghost use Rattle.mc_trailer.specs.Trailer.{trailer_of};
ghost use Rattle.mc_tear.specs.inner.Room.{Applies, Judges, tear_counts};

use crate::reading::Reading;
use crate::torn::{
    Erasing, fill, is_entry, is_unfinished, may_change_at, may_change_some, put_torn, slot_of,
    written_from,
};
use mc_flash::{Flash, Op, Slot};
use mc_trailer::{Field, Flag, Magic, Trailer, place};
use std::alloc::AllocError;

/// Which fields an operation may change: of its slot the magic, image-ok, and copy-done if it is the primary's, and the status entry
/// that it writes.
#[derive(Clone, Copy, Debug)]
pub struct Fields {
    pub magic: bool,
    pub image_ok: bool,
    pub copy_done: bool,
    pub entry: bool,
}

// Whether an operation may change the primary's copy-done.
fn changes_copy_done<F: Flash>(flash: &F, op: &Op, erasing: Erasing) -> bool
    requires { CanTry (F.seen flash.now).geometry op.now }
    ensures { let f = F.seen flash.now in result ≡ (fields_of erasing f.geometry op.now
        f.content).copy_done }
{
    match slot_of(op) {
        Slot::Primary => {
            let at = place(flash.layout(), Slot::Primary, Field::CopyDone);
            may_change_at(flash, op, erasing, at)
        }
        Slot::Secondary => false,
    }
}

// Whether it may change the status entry that it writes.
fn changes_entry<F: Flash>(flash: &F, op: &Op, erasing: Erasing) -> bool
    requires { CanTry (F.seen flash.now).geometry op.now }
    ensures { let f = F.seen flash.now in result ≡ (fields_of erasing f.geometry op.now
        f.content).entry }
{
    if !is_entry(flash.layout(), op) {
        return false;
    }
    may_change_at(flash, op, erasing, written_from(flash.layout(), op))
}

impl Fields {
    /// Those of an operation before which the flash stands.
    pub fn of<F: Flash>(flash: &F, op: &Op, erasing: Erasing) -> Fields
        requires { CanTry (F.seen flash.now).geometry op.now }
        ensures { let f = F.seen flash.now in result
            ≡ fields_of erasing f.geometry op.now f.content }
    {
        let layout = flash.layout();
        let slot = slot_of(op);
        let magic = place(layout, slot, Field::Magic);
        let image_ok = place(layout, slot, Field::ImageOk);
        Fields {
            magic: may_change_some(flash, op, erasing, magic, 16),
            image_ok: may_change_at(flash, op, erasing, image_ok),
            copy_done: changes_copy_done(flash, op, erasing),
            entry: changes_entry(flash, op, erasing),
        }
    }

    // Whether a reading names them, and no other.
    fn are_named_by(&self, reading: &Reading) -> bool
        ensures { result ≡ names self.now reading.now }
    {
        reading.magic.is_some() == self.magic
            && reading.image_ok.is_some() == self.image_ok
            && reading.copy_done.is_some() == self.copy_done
            && reading.entry.is_some() == self.entry
    }

    /// Of how many readings, in their order, some is named by none after them.
    pub fn most_readings(&self) -> u32
        ensures few { result ≤ 192 }
        ensures rest { (n : ℕ) → result ≤ n → n < 192 → names self.now (reading_of n) ≡ false }
    {
        if self.magic || self.image_ok || self.copy_done || self.entry {
            Reading::COUNT
        } else {
            1
        }
    }
}

// Whether a magic is read so, where it is named.
fn is_magic(named: Option<Magic>, magic: Magic) -> bool
    ensures { result ≡ if_named is_magic named magic }
{
    match named {
        None => true,
        Some(Magic::Good) => matches!(magic, Magic::Good),
        Some(Magic::Unset) => matches!(magic, Magic::Unset),
        Some(Magic::Bad) => matches!(magic, Magic::Bad),
    }
}

// Whether a flag is read so, where it is named.
fn is_flag(named: Option<Flag>, flag: Flag) -> bool
    ensures { result ≡ if_named is_flag named flag }
{
    match named {
        None => true,
        Some(Flag::Set) => matches!(flag, Flag::Set),
        Some(Flag::Unset) => matches!(flag, Flag::Unset),
        Some(Flag::Bad) => matches!(flag, Flag::Bad),
    }
}

// Whether a trailer is read so.
fn reads_as(reading: &Reading, trailer: &Trailer) -> bool
    ensures { result ≡ reads_as reading.now trailer.now }
{
    is_magic(reading.magic, trailer.magic)
        && is_flag(reading.image_ok, trailer.image_ok)
        && is_flag(reading.copy_done, trailer.copy_done)
}

// Whether the flash is read so where those bytes are put in it. The flash stays as it is.
fn is_read_so<F: Flash>(
    flash: &mut F,
    op: &Op,
    bytes: &[u8],
    reading: &Reading,
) -> Result<bool, AllocError>
    requires applies { Applies op.now (F.seen flash.old) }
    requires len { length bytes.now ≡ written_len (F.seen flash.old).geometry op.now }
    requires room { HasRoom (tear_counts (F.seen flash.old).geometry) (F.seen flash.old) }
    ensures is { let f = F.seen flash.old in IfOk result (λ is. is
        ≡ reads_as reading.now (trailer_of f.geometry
        (put_in f.geometry op.now f.content bytes.now) (slot_of op.now))) }
    ensures stays { OnOk result (Stays (F.seen flash.old) (F.seen flash.new)) }
    ensures spends { Spends 2 (F.seen flash.old) result (F.seen flash.new) }
{
    let here = flash.mark()?;
    put_torn(flash, op, bytes)?;
    let is = reads_as(reading, &Trailer::read(flash, slot_of(op)));
    flash.back_to(here);
    Ok(is)
}

/// Whether a reading is a case of an operation before which the flash stands; then the buffer holds what it makes of the bytes that
/// the operation writes. The flash stays as it is.
/// Promised, also of `put_torn`: which readings are cases, and their flash (`is`, `stays`, `put`).
///
/// # Errors
///
/// Where the flash was refused memory.
#[tactic(auto, using(crate::proofs::Ranges::torn_len))]
pub fn is_case<F: Flash>(
    flash: &mut F,
    op: &Op,
    erasing: Erasing,
    fields: &Fields,
    reading: &Reading,
    buffer: &mut Vec<u8>,
) -> Result<bool, AllocError>
    requires applies { Applies op.now (F.seen flash.old) }
    requires fields { let f = F.seen flash.old in fields.now
        ≡ fields_of erasing f.geometry op.now f.content }
    requires buffer { written_len (F.seen flash.old).geometry op.now ≤ vec_capacity buffer.old }
    requires room { HasRoom (tear_counts (F.seen flash.old).geometry) (F.seen flash.old) }
    ensures is { IfOk result (Judges erasing op.now (F.seen flash.old) reading.now
        buffer.new.items) }
    ensures stays { OnOk result (Stays (F.seen flash.old) (F.seen flash.new)) }
    ensures spends { Spends 2 (F.seen flash.old) result (F.seen flash.new) }
    ensures capacity { vec_capacity buffer.new ≡ vec_capacity buffer.old }
{
    if !fields.are_named_by(reading) {
        return Ok(false);
    }
    fill(buffer, flash, op, erasing, reading);
    if !is_unfinished(flash, op, buffer) {
        return Ok(false);
    }
    is_read_so(flash, op, buffer, reading)
}
