//! A flash in memory that keeps one content and a journal, which takes its operations back.
ghost use Rattle.std.specs.Prelude.{◌≡◌, ℕ, ◌≤◌, ◌+◌, [], length, true, take};
ghost use Rattle.std.specs.Vec.{vec_capacity};
ghost use Rattle.std.specs.List.{AllByRecursion};
ghost use Rattle.mc_flash.specs.inner.Journal.{journal_with, IsJournal, IsUndoneTo};

use crate::entry::Entry;
use crate::flash::{Flash, FlashError, Grain};
use crate::layout::Layout;
use crate::op::Slot;
use crate::reserve::Reserve;
use crate::slots::Slots;
use std::alloc::Global;
use std::marker::Model;

/// A flash in memory that keeps one content and a journal of what each operation changed. It takes all its memory when
/// it is loaded, and counts what it uses of that.
#[derive(Drop)]
pub struct JournalFlash {
    slots: Slots,
    reserve: Reserve,
    entries: Vec<Entry>,
    // The bytes that erased sectors held, the newest last.
    saved: Vec<u8>,
    // After how many entries a content was marked.
    checkpoints: Vec<usize>,
    applied: u64,
}

impl Model for JournalFlash {
    ghost use Rattle.std.specs.Vec.{vec_capacity};
    ghost use Rattle.mc_flash.specs.inner.Journal.{limits_of, journal_with, seen_of, IsSound};
    ghost use Rattle.mc_flash.specs.Usage.{room_for, Seen};

    ghost Value = { Seen };

    ghost view = { λ f. seen_of f.slots.layout f.slots.content (limits_of f.reserve)
        (journal_with f.entries.items f.saved.items) f.checkpoints.items f.applied };

    ghost invariant = { λ f. IsSound f.slots.layout (limits_of f.reserve)
        (room_for (vec_capacity f.entries) (vec_capacity f.saved) (vec_capacity f.checkpoints))
        (journal_with f.entries.items f.saved.items) f.checkpoints.items };
}

// Takes the newest entries back, until so many are left.
fn undo_to(slots: &mut Slots, entries: &mut Vec<Entry>, saved: &mut Vec<u8>, count: usize)
    requires above { count ≤ length entries.old.items }
    requires journal { IsJournal slots.old.layout (journal_with entries.old.items saved.old.items) }
    ensures undone { IsUndoneTo count (journal_with entries.old.items saved.old.items)
        slots.old.content (journal_with entries.new.items saved.new.items) slots.new.content }
    ensures layout { slots.new.layout ≡ slots.old.layout }
    ensures room_entries { vec_capacity entries.new ≡ vec_capacity entries.old }
    ensures room_saved { vec_capacity saved.new ≡ vec_capacity saved.old }
{
    'undo: while entries.len() > count {
        if let Some(entry) = entries.pop() {
            match entry {
                Entry::Written(slot, at, len) => slots.fill(slot, at as usize, len as usize),
                Entry::Erased(slot, at, len) => {
                    let from = saved.len() - len as usize;
                    slots.put(slot, at as usize, &saved[from..]);
                    saved.truncate(from);
                }
            }
        }
    }
}

impl JournalFlash {
    /// How many operations can be taken back.
    /// Promised, also of `saved_bytes`, `marks` and `applied`: the journal's counts can be read (`value`, `applied`).
    /// Promised, also of `saved_bytes` and `marks`: the journal keeps within its limits (`at_most`).
    pub fn entries(&self) -> u64
        ensures value { result ≡ self.now.usage.counts.entries }
        ensures at_most { result ≤ self.now.usage.limits.entries }
    {
        self.entries.len() as u64
    }

    /// How many bytes are saved for that.
    pub fn saved_bytes(&self) -> u64
        ensures value { result ≡ self.now.usage.counts.saved }
        ensures at_most { result ≤ self.now.usage.limits.saved }
    {
        self.saved.len() as u64
    }

    /// How many contents are marked.
    pub fn marks(&self) -> u64
        ensures value { result ≡ length self.now.checkpoints }
        ensures at_most { result ≤ self.now.usage.limits.checkpoints }
    {
        self.checkpoints.len() as u64
    }

    /// How many operations it has done since it was loaded.
    pub fn applied(&self) -> u64
        ensures { result ≡ self.now.usage.applied }
    {
        self.applied
    }
}

impl Flash for JournalFlash {
    ghost counted = { true };

    ghost seen = { λ f. f };

    fn load(
        alloc: Global,
        layout: &Layout,
        grain: Grain,
        primary: &[u8],
        secondary: &[u8],
        boots: u32,
    ) -> Result<Self, FlashError> {
        let reserve = Reserve::new(layout, grain, boots);
        Ok(JournalFlash {
            slots: Slots::new(alloc, *layout, primary, secondary)?,
            reserve,
            entries: Vec::with_capacity(alloc, reserve.entries)?,
            saved: Vec::with_capacity(alloc, reserve.saved)?,
            checkpoints: Vec::with_capacity(alloc, reserve.checkpoints)?,
            applied: 0,
        })
    }

    fn layout(&self) -> &Layout {
        self.slots.layout()
    }

    fn read(&self, slot: Slot) -> &[u8] {
        self.slots.read(slot)
    }

    fn erase(&mut self, slot: Slot, sector: u32) -> Result<(), FlashError> {
        let size = self.slots.layout().sector();
        if self.entries.len() >= self.reserve.entries {
            return Err(FlashError::Memory);
        }
        if self.reserve.saved - self.saved.len() < size as usize {
            return Err(FlashError::Memory);
        }
        self.saved
            .extend_from_slice(self.slots.sector(slot, sector))?;
        self.entries.push(Entry::Erased(slot, sector * size, size))?;
        self.slots.erase(slot, sector);
        self.applied = self.applied.saturating_add(1);
        Ok(())
    }

    fn program(&mut self, slot: Slot, offset: u32, bytes: &[u8]) -> Result<(), FlashError> {
        if !self.slots.is_blank(slot, offset as usize, bytes.len()) {
            return Err(FlashError::NotErased);
        }
        if self.entries.len() >= self.reserve.entries {
            return Err(FlashError::Memory);
        }
        self.entries
            .push(Entry::Written(slot, offset, bytes.len() as u32))?;
        self.slots.put(slot, offset as usize, bytes);
        self.applied = self.applied.saturating_add(1);
        Ok(())
    }

    fn copy(
        &mut self,
        from: Slot,
        at: u32,
        to: Slot,
        offset: u32,
        len: u32,
    ) -> Result<(), FlashError> {
        if !self.slots.is_blank(to, offset as usize, len as usize) {
            return Err(FlashError::NotErased);
        }
        if self.entries.len() >= self.reserve.entries {
            return Err(FlashError::Memory);
        }
        self.entries.push(Entry::Written(to, offset, len))?;
        self.slots
            .put_copy(from, at as usize, to, offset as usize, len as usize);
        self.applied = self.applied.saturating_add(1);
        Ok(())
    }

    fn mark(&mut self) -> Result<usize, FlashError> {
        let number = self.checkpoints.len();
        if number >= self.reserve.checkpoints {
            return Err(FlashError::Memory);
        }
        self.checkpoints.push(self.entries.len())?;
        Ok(number)
    }

    fn back_to(&mut self, number: usize) {
        let count = self.checkpoints[number];
        self.checkpoints.truncate(number);
        undo_to(&mut self.slots, &mut self.entries, &mut self.saved, count);
    }
}
