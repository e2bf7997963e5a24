//! The flash: two slots of bytes, changed by operations that happen whole or not at all, and contents that were marked.
ghost use Rattle.std.specs.Prelude.{◌≡◌, Bool, ◌<◌, ◌≤◌, length, IfOk, IfErr};

use crate::layout::Layout;
use crate::op::Slot;
use std::alloc::{AllocError, AllocFailed, Global};
use thiserror::Error;

/// What happens whole or not at all: a write call, or the write of one unit.
#[derive(Clone, Copy, Debug, PartialEq, Eq)]
pub enum Grain {
    /// A write call.
    Call,
    /// The write of one unit.
    Unit,
}

/// Why a flash refuses an operation or a checkpoint, and stays as it was.
#[derive(Clone, Copy, Debug, PartialEq, Eq, Error)]
pub enum FlashError {
    /// A byte that is to be written is not 0xff.
    #[error("E40 NotErased")]
    NotErased,
    /// An allocation failed, or the room that was taken at the start is full.
    #[error("E41 Memory")]
    Memory,
}

impl From<AllocError> for FlashError {
    ghost use Rattle.mc_flash.specs.declared.flash.FlashError.TheVariants.{Memory};

    ghost from_gives = { λ _ e. e ≡ Memory };

    fn from(_: AllocError) -> Self {
        FlashError::Memory
    }
}

impl<T: Drop> From<AllocFailed<T>> for FlashError {
    ghost use Rattle.mc_flash.specs.declared.flash.FlashError.TheVariants.{Memory};

    ghost from_gives = { λ _ e. e ≡ Memory };

    fn from(_: AllocFailed<T>) -> Self {
        FlashError::Memory
    }
}

/// For calls that are refused nothing but memory.
impl From<FlashError> for AllocError {
    fn from(_: FlashError) -> Self {
        AllocError
    }
}

/// A flash, seen as one value: its layout, its content, the contents that were marked, and its usage: counts, and their limits.
pub trait Flash: Sized + Drop {
    ghost use Rattle.mc_flash.specs.Flash.{bytes_of, size_of, CanTry};
    ghost use Rattle.mc_flash.specs.Usage.{Seen, Does, Marks, Loads, went_back};
    ghost use Rattle.mc_flash.specs.declared.op.Op.TheVariants.{Erase, Program, Copy};
    ghost use Rattle.mc_flash.specs.declared.op.Slot.TheVariants.{Primary, Secondary};

    /// Whether it works in room that it took when it was loaded, and counts it. Another takes memory as it goes.
    ghost counted: { Bool };

    /// All that can be seen of it.
    ghost seen: { Self → Seen };

    /// A flash of these bytes, without checkpoints. One that counts has room for so many boots, of that grain.
    /// Promised: a loaded flash has the bytes, and no checkpoints (`loads`).
    /// Promised, also of `erase`, `program`, `copy`, `mark` and `back_to`: what the journal counts (`noted_by`, `went_back`).
    fn load(
        alloc: Global,
        layout: &Layout,
        grain: Grain,
        primary: &[u8],
        secondary: &[u8],
        boots: u32,
    ) -> Result<Self, FlashError>
        requires primary { length primary.now ≡ size_of layout.now Primary }
        requires secondary { length secondary.now ≡ size_of layout.now Secondary }
        requires boots { (1 ≤ boots) × (boots ≤ 32) }
        ensures loads { IfOk result (λ flash.
            Loads counted layout.now primary.now secondary.now grain boots (seen flash)) }
        ensures err { IfErr result (λ e. e ≡ FlashError.Memory) };

    /// The layout. It takes no memory.
    fn layout(&self) -> &Layout
        ensures { result.now ≡ (seen self.now).geometry };

    /// The bytes of a slot. It takes no memory.
    fn read(&self, slot: Slot) -> &[u8]
        ensures value { result.now ≡ bytes_of (seen self.now).content slot }
        ensures len { length result.now ≡ size_of (seen self.now).geometry slot };

    /// Makes a sector 0xff.
    /// Promised, also of `program` and `copy`: 40 exactly where undefined, 41 only where defined; both change nothing (`Does`).
    /// Promised, also of `program`, `copy` and `mark`: why 41: no room left, or a failed allocation (`GivesUp`).
    fn erase(&mut self, slot: Slot, sector: u32) -> Result<(), FlashError>
        requires { CanTry (seen self.old).geometry (Erase slot sector) }
        ensures { Does (Erase slot sector) (seen self.old) result (seen self.new) };

    /// Writes bytes at an offset where each byte is 0xff, and is refused elsewhere.
    fn program(&mut self, slot: Slot, offset: u32, bytes: &[u8]) -> Result<(), FlashError>
        requires { CanTry (seen self.old).geometry (Program slot offset bytes.now) }
        ensures { Does (Program slot offset bytes.now) (seen self.old) result (seen self.new) };

    /// Writes the bytes that stand elsewhere, in the same way.
    fn copy(
        &mut self,
        from: Slot,
        at: u32,
        to: Slot,
        offset: u32,
        len: u32,
    ) -> Result<(), FlashError>
        requires { CanTry (seen self.old).geometry (Copy from at to offset len) }
        ensures { Does (Copy from at to offset len) (seen self.old) result (seen self.new) };

    /// Marks the content, and returns the checkpoint's number.
    /// Promised, also of `back_to`: checkpoints; going back never fails (`Marks`, `went_back`).
    fn mark(&mut self) -> Result<usize, FlashError>
        ensures { Marks (seen self.old) result (seen self.new) };

    /// Gives back a marked content, and gives up that checkpoint and all later ones. It takes no memory.
    fn back_to(&mut self, number: usize)
        requires { number < length (seen self.old).checkpoints }
        ensures { seen self.new ≡ went_back number (seen self.old) };
}
