//! The fields of a trailer as they are read.
ghost use Rattle.std.specs.Prelude.{◌≡◌, ℕ, ◌+◌, ◌≤◌, ◌<◌, length};
ghost use Rattle.mc_flash.specs.Flash.{byte};
ghost use Rattle.mc_trailer.specs.Trailer.{before_end, place, magic_of, flag_of, bytes_at, trailer_of};

use crate::places::{Field, place};
use byteorder::{ByteOrder, LittleEndian};
use mc_flash::{Flash, Slot, blank};

/// The magic of a trailer that is meant: `magic_of_a_trailer` says that it is the definition's.
pub const MAGIC: [u8; 16] = [
    0x77, 0xc2, 0x95, 0xf3, 0x60, 0xd2, 0xef, 0x7f, 0x35, 0x52, 0x50, 0x0f, 0x2c, 0xb6, 0x79, 0x80,
];

/// A magic as it is read.
#[derive(Clone, Copy, Debug, PartialEq, Eq)]
pub enum Magic {
    /// The 16 bytes of `MAGIC`.
    Good,
    /// 16 bytes 0xff.
    Unset,
    /// Any other bytes.
    Bad,
}

/// A flag as it is read from its first byte.
#[derive(Clone, Copy, Debug, PartialEq, Eq)]
pub enum Flag {
    /// 1.
    Set,
    /// 0xff.
    Unset,
    /// Any other byte.
    Bad,
}

/// The fields of a slot's trailer.
#[derive(Clone, Copy, Debug, PartialEq, Eq)]
pub struct Trailer {
    /// Whether the trailer is meant.
    pub magic: Magic,
    /// Whether the image of the slot was confirmed.
    pub image_ok: Flag,
    /// Whether a swap was finished.
    pub copy_done: Flag,
    /// The whole byte: 2 for a test, 3 for a swap that stays, 4 for a revert.
    pub swap_info: u8,
    /// The bytes of the larger image of the swap that was begun.
    pub swap_size: u32,
}

// A magic of 16 bytes.
fn magic_of(bytes: &[u8]) -> Magic
    ensures { result ≡ magic_of bytes.now }
{
    if bytes == MAGIC.as_slice() {
        Magic::Good
    } else if blank(bytes) {
        Magic::Unset
    } else {
        Magic::Bad
    }
}

// A flag of its byte.
fn flag_of(byte: u8) -> Flag
    ensures { result ≡ flag_of byte }
{
    match byte {
        1 => Flag::Set,
        0xff => Flag::Unset,
        _ => Flag::Bad,
    }
}

// The first bytes of a field.
fn field_bytes<F: Flash>(flash: &F, slot: Slot, field: Field, len: usize) -> &[u8]
    requires { len ≤ before_end field }
    ensures value { result.now ≡ bytes_at (F.seen flash.now).content slot
        (place (F.seen flash.now).geometry slot field) len }
    ensures len { length result.now ≡ len }
{
    let at = place(flash.layout(), slot, field) as usize;
    &flash.read(slot)[at..at + len]
}

// The first byte of a field.
fn field_byte<F: Flash>(flash: &F, slot: Slot, field: Field) -> u8
    ensures { result ≡ byte (F.seen flash.now).content slot
        (place (F.seen flash.now).geometry slot field) }
{
    let at = place(flash.layout(), slot, field) as usize;
    flash.read(slot)[at]
}

impl Trailer {
    /// The trailer of a slot. It takes no memory.
    /// Promised, also of `magic_of_a_trailer`: a trailer's fields are those of the bytes (`trailer_of`, `magic_bytes`).
    #[tactic(auto, unfolding(crate::specs::Trailer::trailer_of))]
    pub fn read<F: Flash>(flash: &F, slot: Slot) -> Trailer
        ensures { result ≡ trailer_of (F.seen flash.now).geometry (F.seen flash.now).content slot }
    {
        Trailer {
            magic: magic_of(field_bytes(flash, slot, Field::Magic, 16)),
            image_ok: flag_of(field_byte(flash, slot, Field::ImageOk)),
            copy_done: flag_of(field_byte(flash, slot, Field::CopyDone)),
            swap_info: field_byte(flash, slot, Field::SwapInfo),
            swap_size: LittleEndian::read_u32(field_bytes(flash, slot, Field::SwapSize, 4)),
        }
    }
}
