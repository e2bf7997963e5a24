//! The slots of a flash, and the operations that change them.
ghost use Rattle.std.specs.Prelude.{◌≡◌, ℕ, ◌≤◌, length};

use std::marker::Model;

/// A slot of the flash. The image that runs is in the primary; an upgrade waits in the secondary.
#[derive(Clone, Copy, Debug, PartialEq, Eq)]
pub enum Slot {
    Primary,
    Secondary,
}

/// At most 16 bytes, in fixed room: as many as the longest write of a trailer has.
#[derive(Clone, Copy, Debug)]
pub struct Bytes16 {
    room: [u8; 16],
    len: usize,
}

impl Model for Bytes16 {
    ghost use Rattle.std.specs.Prelude.{◌≡◌, ℕ, ◌-◌, ◌≤◌, List, ◌++◌, length, take, drop};
    ghost use Rattle.mc_flash.specs.inner.Room.{zeros_after, len_again, room_again};

    ghost Value = { List ℕ };

    ghost view = { λ b. take b.len b.room };

    ghost invariant = { λ b. (b.len ≤ 16) × (length b.room ≡ 16)
        × (drop b.len b.room ≡ zeros_after b.len) };

    ghost inverse = { λ bytes. record { room = bytes ++ zeros_after (length bytes); len = length bytes } };

    ghost inverse_ok = { λ b h i. record { room = room_again b.room b.len h.1 h.0 h.2 i; len = len_again b.room b.len h.1 h.0 i } };
}

impl Bytes16 {
    /// These bytes, at most 16; none at all is allowed.
    /// Promised, also of `bytes`: at most 16 bytes are kept (`value`, `at_most`).
    pub fn new(bytes: &[u8]) -> Bytes16
        requires { length bytes.now ≤ 16 }
        ensures { result ≡ bytes.now }
    {
        let mut room = [0; 16];
        room[..bytes.len()].copy_from_slice(bytes);
        Bytes16 {
            room,
            len: bytes.len(),
        }
    }

    /// The bytes.
    pub fn bytes(&self) -> &[u8]
        ensures value { result.now ≡ self.now }
        ensures at_most { length result.now ≤ 16 }
    {
        &self.room[..self.len]
    }
}

/// An operation on the flash. Sectors are counted from the slot's first, offsets are bytes from the slot's start.
#[derive(Clone, Copy, Debug)]
pub enum Op {
    /// Makes a sector of a slot 0xff.
    Erase(Slot, u32),
    /// Writes bytes at an offset of a slot.
    Program(Slot, u32, Bytes16),
    /// Writes what a slot holds at an offset: from, offset, to, offset, length.
    Copy(Slot, u32, Slot, u32, u32),
}
