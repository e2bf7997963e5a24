//! The bytes of both slots.
ghost use Rattle.std.specs.Prelude.{◌≡◌, IfOk};
ghost use Rattle.mc_flash.specs.Flash.{bytes_of, IsSized};

use crate::flash::Flash;
use crate::op::Slot;
use std::alloc::{AllocError, Global};
use std::marker::Model;

/// What a flash holds: the bytes of its two slots.
#[derive(Drop)]
pub struct Content {
    pub primary: Vec<u8>,
    pub secondary: Vec<u8>,
}

impl Model for Content {
    ghost use Rattle.mc_flash.specs.Flash.{Content};

    ghost Value = { Content };

    ghost view = { λ s. record { primary = s.primary.items; secondary = s.secondary.items } };
}

impl Content {
    /// Copies of these bytes.
    pub fn of(alloc: Global, primary: &[u8], secondary: &[u8]) -> Result<Content, AllocError>
        ensures { IfOk result (λ content. content
            ≡ record { primary = primary.now; secondary = secondary.now }) }
    {
        Ok(Content {
            primary: primary.to_vec(alloc)?,
            secondary: secondary.to_vec(alloc)?,
        })
    }

    /// A copy of what a flash holds.
    pub fn read<F: Flash>(alloc: Global, flash: &F) -> Result<Content, AllocError>
        ensures content { IfOk result (λ content. content ≡ (F.seen flash.now).content) }
        ensures sized { IfOk result (λ content. IsSized (F.seen flash.now).geometry content) }
    {
        Content::of(
            alloc,
            flash.read(Slot::Primary),
            flash.read(Slot::Secondary),
        )
    }

    /// The bytes of a slot.
    pub fn bytes(&self, slot: Slot) -> &[u8]
        ensures { result.now ≡ bytes_of self.now slot }
    {
        match slot {
            Slot::Primary => &self.primary,
            Slot::Secondary => &self.secondary,
        }
    }
}
