//! The bytes of both slots of a layout, and what the operations do to them.
ghost use Rattle.std.specs.Prelude.{◌≡◌, ℕ, ◌+◌, ◌*◌, ◌<◌, ◌≤◌, length, replicate, ◌⊎◌, IfOk, IfErr};
ghost use Rattle.std.specs.List.{between};
ghost use Rattle.mc_flash.specs.Flash.{IsSized, bytes_of, with_bytes, put, sectors_of, size_of, AreApart, CanTry, Becomes, apply, erased, is_blank};
ghost use Rattle.mc_flash.specs.declared.op.Op.TheVariants.{Program, Copy};
ghost use Rattle.mc_flash.specs.declared.op.Slot.TheVariants.{Primary, Secondary};

use crate::content::Content;
use crate::erased::blank;
use crate::flash::FlashError;
use crate::layout::Layout;
use crate::op::Slot;
use std::alloc::{AllocError, Global};

/// The bytes of both slots of a layout.
#[derive(Drop)]
pub struct Slots {
    layout: Layout,
    content: Content,
    ghost sized: { IsSized layout content },
}

// Makes a part 0xff.
fn erase_part(bytes: &mut [u8], at: usize, len: usize)
    requires { at + len ≤ length bytes.old }
    ensures { bytes.new ≡ put bytes.old at (replicate len 255) }
{
    bytes[at..at + len].fill(0xff);
}

// Puts bytes in place of others.
fn put_part(target: &mut [u8], at: usize, bytes: &[u8])
    requires { at + length bytes.now ≤ length target.old }
    ensures { target.new ≡ put target.old at bytes.now }
{
    target[at..at + bytes.len()].copy_from_slice(bytes);
}

// Puts a part of the bytes in place of another part of them.
fn copy_part(bytes: &mut [u8], at: usize, offset: usize, len: usize)
    requires source { at + len ≤ length bytes.old }
    requires target { offset + len ≤ length bytes.old }
    requires apart { (at + len ≤ offset) ⊎ (offset + len ≤ at) }
    ensures { bytes.new ≡ put bytes.old offset (between at (at + len) bytes.old) }
{
    if at < offset {
        let (low, high) = bytes.split_at_mut(offset);
        put_part(high, 0, &low[at..at + len]);
    } else {
        let (low, high) = bytes.split_at_mut(at);
        put_part(low, offset, &high[..len]);
    }
}

impl Slots {
    /// Copies of these bytes.
    pub fn new(
        alloc: Global,
        layout: Layout,
        primary: &[u8],
        secondary: &[u8],
    ) -> Result<Slots, FlashError>
        requires primary { length primary.now ≡ size_of layout Primary }
        requires secondary { length secondary.now ≡ size_of layout Secondary }
        ensures layout { IfOk result (λ slots. slots.layout ≡ layout) }
        ensures content { IfOk result (λ slots. slots.content
            ≡ record { primary = primary.now; secondary = secondary.now }) }
        ensures err { IfErr result (λ e. e ≡ FlashError.Memory) }
    {
        Ok(Slots {
            layout,
            content: Content::of(alloc, primary, secondary)?,
        })
    }

    /// The layout.
    pub fn layout(&self) -> &Layout
        ensures { result.now ≡ self.now.layout }
    {
        &self.layout
    }

    /// A copy of the bytes of both slots.
    pub fn copied(&self, alloc: Global) -> Result<Content, AllocError>
        ensures { IfOk result (λ content. content ≡ self.now.content) }
    {
        Content::of(alloc, &self.content.primary, &self.content.secondary)
    }

    /// The bytes of a slot.
    pub fn read(&self, slot: Slot) -> &[u8]
        ensures value { result.now ≡ bytes_of self.now.content slot }
        ensures len { length result.now ≡ size_of self.now.layout slot }
    {
        self.content.bytes(slot)
    }

    /// Takes other bytes in place of all that it holds.
    pub fn replace(&mut self, content: Content)
        requires { IsSized self.old.layout content }
        ensures content { self.new.content ≡ content }
        ensures layout { self.new.layout ≡ self.old.layout }
    {
        self.content = content;
    }

    /// The bytes of a sector.
    #[tactic(auto, using(crate::specs::facts::Layouts::sector_inside))]
    pub fn sector(&self, slot: Slot, sector: u32) -> &[u8]
        requires { sector < sectors_of self.now.layout slot }
        ensures value { let at = sector * self.now.layout.sector in result.now
            ≡ between at (at + self.now.layout.sector) (bytes_of self.now.content slot) }
        ensures len { length result.now ≡ self.now.layout.sector }
    {
        let size = self.layout.sector() as usize;
        let at = sector as usize * size;
        &self.read(slot)[at..at + size]
    }

    /// Whether each byte of a part is 0xff.
    pub fn is_blank(&self, slot: Slot, at: usize, len: usize) -> bool
        requires { at + len ≤ size_of self.now.layout slot }
        ensures { result ≡ is_blank (between at (at + len) (bytes_of self.now.content slot)) }
    {
        blank(&self.read(slot)[at..at + len])
    }

    /// Makes a part of a slot 0xff.
    pub fn fill(&mut self, slot: Slot, at: usize, len: usize)
        requires { at + len ≤ size_of self.old.layout slot }
        ensures content { self.new.content ≡ with_bytes self.old.content slot
            (put (bytes_of self.old.content slot) at (replicate len 255)) }
        ensures layout { self.new.layout ≡ self.old.layout }
    {
        match slot {
            Slot::Primary => erase_part(&mut self.content.primary, at, len),
            Slot::Secondary => erase_part(&mut self.content.secondary, at, len),
        }
    }

    /// Puts bytes into a slot, whatever was there.
    pub fn put(&mut self, slot: Slot, at: usize, bytes: &[u8])
        requires { at + length bytes.now ≤ size_of self.old.layout slot }
        ensures content { self.new.content ≡ with_bytes self.old.content slot
            (put (bytes_of self.old.content slot) at bytes.now) }
        ensures layout { self.new.layout ≡ self.old.layout }
    {
        match slot {
            Slot::Primary => put_part(&mut self.content.primary, at, bytes),
            Slot::Secondary => put_part(&mut self.content.secondary, at, bytes),
        }
    }

    /// Puts the bytes that stand elsewhere into a slot, whatever was there.
    pub fn put_copy(&mut self, from: Slot, at: usize, to: Slot, offset: usize, len: usize)
        requires source { at + len ≤ size_of self.old.layout from }
        requires target { offset + len ≤ size_of self.old.layout to }
        requires apart { AreApart from at to offset len }
        ensures content { self.new.content ≡ with_bytes self.old.content to
            (put (bytes_of self.old.content to) offset
            (between at (at + len) (bytes_of self.old.content from))) }
        ensures layout { self.new.layout ≡ self.old.layout }
    {
        let Content { primary, secondary } = &mut self.content;
        match (from, to) {
            (Slot::Primary, Slot::Primary) => copy_part(primary, at, offset, len),
            (Slot::Secondary, Slot::Secondary) => copy_part(secondary, at, offset, len),
            (Slot::Primary, Slot::Secondary) => put_part(secondary, offset, &primary[at..at + len]),
            (Slot::Secondary, Slot::Primary) => put_part(primary, offset, &secondary[at..at + len]),
        }
    }

    /// Makes a sector 0xff.
    pub fn erase(&mut self, slot: Slot, sector: u32)
        requires { sector < sectors_of self.old.layout slot }
        ensures content { self.new.content ≡ with_bytes self.old.content slot
            (erased self.old.layout.sector sector (bytes_of self.old.content slot)) }
        ensures layout { self.new.layout ≡ self.old.layout }
    {
        let size = self.layout.sector() as usize;
        self.fill(slot, sector as usize * size, size);
    }

    /// Writes bytes where each byte is 0xff.
    #[tactic(auto, unfolding(crate::specs::Flash::apply))]
    pub fn program(&mut self, slot: Slot, offset: u32, bytes: &[u8]) -> Result<(), FlashError>
        requires { CanTry self.old.layout (Program slot offset bytes.now) }
        ensures does { Becomes (apply self.old.layout (Program slot offset bytes.now)
            self.old.content) result self.old.content self.new.content }
        ensures err { IfErr result (λ e. e ≡ FlashError.NotErased) }
        ensures layout { self.new.layout ≡ self.old.layout }
    {
        if !self.is_blank(slot, offset as usize, bytes.len()) {
            return Err(FlashError::NotErased);
        }
        self.put(slot, offset as usize, bytes);
        Ok(())
    }

    /// Writes the bytes that stand elsewhere, in the same way.
    #[tactic(auto, unfolding(crate::specs::Flash::apply))]
    pub fn copy(
        &mut self,
        from: Slot,
        at: u32,
        to: Slot,
        offset: u32,
        len: u32,
    ) -> Result<(), FlashError>
        requires { CanTry self.old.layout (Copy from at to offset len) }
        ensures does { Becomes (apply self.old.layout (Copy from at to offset len) self.old.content)
            result self.old.content self.new.content }
        ensures err { IfErr result (λ e. e ≡ FlashError.NotErased) }
        ensures layout { self.new.layout ≡ self.old.layout }
    {
        if !self.is_blank(to, offset as usize, len as usize) {
            return Err(FlashError::NotErased);
        }
        self.put_copy(from, at as usize, to, offset as usize, len as usize);
        Ok(())
    }
}
