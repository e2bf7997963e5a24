//! The operations on the trailers by their number: the erases, and the writes of the fields.
ghost use Rattle.std.specs.Prelude.{◌≡◌, ◌%◌, ◌<◌, ◌≤◌, length, slice_get, Some};
ghost use Rattle.mc_trailer.specs.Trailer.{size_bytes, before_end};
ghost use Rattle.mc_flash.specs.Geometry.{trailer_sectors};
ghost use Rattle.mc_flash.specs.Flash.{CanTry};
ghost use Rattle.mc_boot.specs.Plan.{trailer_erase, image_ok_write, write, write_count, number_of, is_test, is_revert};

use crate::transfer::one_unit;
use byteorder::{ByteOrder, LittleEndian};
use mc_flash::{Bytes16, Grain, Layout, Op, Slot};
use mc_trailer::{Field, SwapType, place};

/// One erase of a slot's trailer sectors, from the last downward.
pub fn trailer_erase(layout: &Layout, slot: Slot, index: u32) -> Op
    requires { index < trailer_sectors layout.now }
    ensures at { result ≡ trailer_erase layout.now slot index }
    ensures inside { CanTry layout.now result }
{
    Op::Erase(slot, layout.sectors(slot) - 1 - index)
}

/// The write that confirms a slot.
pub fn image_ok_write(layout: &Layout, slot: Slot) -> Op
    ensures at { result ≡ image_ok_write layout.now slot }
    ensures inside { CanTry layout.now result }
{
    Op::Program(
        slot,
        place(layout, slot, Field::ImageOk),
        one_unit(layout, 1),
    )
}

/// How many operations the write of so many bytes is.
pub fn write_len(layout: &Layout, grain: Grain, len: u32) -> u32
    requires { len ≤ 16 }
    ensures len { result ≡ write_count grain layout.now len }
    ensures at_most { result ≤ 16 }
{
    match grain {
        Grain::Call => 1,
        Grain::Unit => len / layout.unit(),
    }
}

/// One operation of the write of a field.
pub fn write_op(
    layout: &Layout,
    grain: Grain,
    slot: Slot,
    field: Field,
    bytes: &[u8],
    index: u32,
) -> Op
    requires short { (0 < length bytes.now) × (length bytes.now ≤ 16) }
    requires fits { length bytes.now ≤ before_end field }
    requires whole { length bytes.now % layout.now.unit ≡ 0 }
    requires below { index < write_count grain layout.now (length bytes.now) }
    ensures at { slice_get (write grain layout.now slot field bytes.now) index ≡ Some result }
    ensures inside { CanTry layout.now result }
{
    match grain {
        Grain::Call => Op::Program(slot, place(layout, slot, field), Bytes16::new(bytes)),
        Grain::Unit => {
            let unit = layout.unit();
            let at = index * unit;
            Op::Program(
                slot,
                place(layout, slot, field) + at,
                Bytes16::new(&bytes[at as usize..(at + unit) as usize]),
            )
        }
    }
}

/// A size, then 0xff up to whole units.
pub fn size_bytes(layout: &Layout, size: u32) -> Bytes16
    ensures { result ≡ size_bytes layout.now size }
{
    let mut room = [0xff; 16];
    LittleEndian::write_u32(&mut room, size);
    let len = layout.unit().max(4) as usize;
    Bytes16::new(&room[..len])
}

/// The number of a type in a trailer.
pub fn number_of(kind: SwapType) -> u8
    ensures { result ≡ number_of kind }
{
    match kind {
        SwapType::None => 1,
        SwapType::Test => 2,
        SwapType::Perm => 3,
        SwapType::Revert => 4,
        SwapType::Fail => 5,
        SwapType::Panic => 6,
    }
}

/// Whether a swap of this type is reverted unless it is confirmed.
pub fn is_test(kind: SwapType) -> bool
    ensures { result ≡ is_test kind }
{
    matches!(kind, SwapType::Test)
}

/// Whether a swap of this type takes one back.
pub fn is_revert(kind: SwapType) -> bool
    ensures { result ≡ is_revert kind }
{
    matches!(kind, SwapType::Revert)
}
