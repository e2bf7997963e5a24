//! A flash in memory that keeps a copy of its content for each checkpoint.
ghost use Rattle.std.specs.Prelude.{◌≡◌, ℕ, ◌+◌, ◌<◌, ◌≤◌, List, [], ◌∷◌, ◌++◌, length, true, false, All, IfOk, IfErr, map};
ghost use Rattle.mc_flash.specs.Flash.{bytes_of, size_of, IsSized};

use crate::content::Content;
use crate::flash::{Flash, FlashError, Grain};
use crate::layout::Layout;
use crate::op::Slot;
use crate::slots::Slots;
use std::alloc::Global;

/// A flash in memory that keeps a copy of its content for each checkpoint. It takes memory as it goes, and counts nothing.
#[derive(Drop)]
pub struct SnapFlash {
    alloc: Global,
    slots: Slots,
    checkpoints: Vec<Content>,
    // Whether an allocation failed at some time.
    failed: bool,
    ghost checkpoints_sized: { All (IsSized slots.layout) checkpoints.items },
}

impl Flash for SnapFlash {
    ghost use Rattle.mc_flash.specs.inner.Snap.{snap_seen};

    ghost counted = { false };

    ghost seen = { snap_seen };

    /// A flash with those bytes, without a checkpoint.
    /// Promised, also of `JournalFlash::load`: copies, or an undo journal, make a flash (`seen`).
    fn load(
        alloc: Global,
        layout: &Layout,
        _grain: Grain,
        primary: &[u8],
        secondary: &[u8],
        _boots: u32,
    ) -> Result<Self, FlashError> {
        Ok(SnapFlash {
            alloc,
            slots: Slots::new(alloc, *layout, primary, secondary)?,
            checkpoints: Vec::new(alloc),
            failed: false,
        })
    }

    fn layout(&self) -> &Layout {
        self.slots.layout()
    }

    fn read(&self, slot: Slot) -> &[u8] {
        self.slots.read(slot)
    }

    #[tactic(auto, unfolding(crate::specs::Flash::apply))]
    fn erase(&mut self, slot: Slot, sector: u32) -> Result<(), FlashError> {
        self.slots.erase(slot, sector);
        Ok(())
    }

    fn program(&mut self, slot: Slot, offset: u32, bytes: &[u8]) -> Result<(), FlashError> {
        self.slots.program(slot, offset, bytes)
    }

    fn copy(
        &mut self,
        from: Slot,
        at: u32,
        to: Slot,
        offset: u32,
        len: u32,
    ) -> Result<(), FlashError> {
        self.slots.copy(from, at, to, offset, len)
    }

    fn mark(&mut self) -> Result<usize, FlashError> {
        let number = self.checkpoints.len();
        let Ok(content) = self.slots.copied(self.alloc) else {
            self.failed = true;
            return Err(FlashError::Memory);
        };
        if self.checkpoints.push(content).is_err() {
            self.failed = true;
            return Err(FlashError::Memory);
        }
        Ok(number)
    }

    fn back_to(&mut self, number: usize) {
        self.checkpoints.truncate(number + 1);
        if let Some(content) = self.checkpoints.pop() {
            self.slots.replace(content);
        }
    }
}
