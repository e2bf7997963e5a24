//! How often the sectors of a flash were erased.
ghost use Rattle.std.specs.Prelude.{◌≡◌, [], ◌∷◌, IfOk, replicate};
ghost use Rattle.mc_flash.specs.declared.op.Op.TheVariants.{Erase};
ghost use Rattle.mc_flash.specs.declared.op.Slot.{Slot as FlashSlot};
ghost use Rattle.mc_life.specs.Device.{AreCounts, counts_of, none_worn, worn, worn_from};

use mc_flash::{Layout, Op, Slot};
use std::alloc::{AllocError, Global};
use std::marker::Model;

/// How often each sector of a flash was erased. A count stays at the greatest 64-bit number.
#[derive(Drop)]
pub struct Wear {
    primary: Vec<u64>,
    secondary: Vec<u64>,
}

impl Model for Wear {
    ghost use Rattle.mc_life.specs.Device.{Counts};

    ghost Value = { Counts };

    ghost view = { λ w. record { primary = w.primary.items; secondary = w.secondary.items } };
}

// Each count is a 64-bit number.
fn counts_fit(counts: &[u64])
    ensures { AreCounts counts.now }
{}

// One more erase of a sector of any slot.
fn note_erase(counts: &mut Vec<u64>, sector: usize)
    ensures { (slot : FlashSlot) → counts.new.items
        ≡ worn_from slot 0 counts.old.items (Erase slot sector ∷ []) }
{
    if sector < counts.len() {
        counts[sector] = counts[sector].saturating_add(1);
    }
}

// So many sectors, none of which was erased.
fn none_erased(alloc: Global, sectors: u32) -> Result<Vec<u64>, AllocError>
    ensures { IfOk result (λ counts. counts.items ≡ replicate sectors 0) }
{
    let mut counts = Vec::new(alloc);
    counts.resize(sectors as usize, 0)?;
    Ok(counts)
}

impl Wear {
    /// No sector was erased.
    pub fn new(alloc: Global, layout: &Layout) -> Result<Wear, AllocError>
        ensures { IfOk result (λ wear. wear ≡ none_worn layout.now) }
    {
        Ok(Wear {
            primary: none_erased(alloc, layout.primary())?,
            secondary: none_erased(alloc, layout.secondary())?,
        })
    }

    /// No operation leaves it as it is.
    pub fn idles(&self)
        ensures { self.now ≡ worn self.now [] }
    {
        counts_fit(&self.primary);
        counts_fit(&self.secondary);
    }

    /// Counts an erase of a sector.
    pub fn erased(&mut self, slot: Slot, sector: u32)
        ensures { self.new ≡ worn self.old (Erase slot sector ∷ []) }
    {
        counts_fit(&self.primary);
        counts_fit(&self.secondary);
        match slot {
            Slot::Primary => note_erase(&mut self.primary, sector as usize),
            Slot::Secondary => note_erase(&mut self.secondary, sector as usize),
        }
    }

    /// Counts an operation that happened.
    pub fn note(&mut self, op: Op)
        ensures { self.new ≡ worn self.old (op ∷ []) }
    {
        counts_fit(&self.primary);
        counts_fit(&self.secondary);
        match op {
            Op::Erase(slot, sector) => self.erased(slot, sector),
            Op::Program(_, _, _) => {}
            Op::Copy(_, _, _, _, _) => {}
        }
    }

    /// How often the sectors of a slot were erased, in their order.
    pub fn counts(&self, slot: Slot) -> &[u64]
        ensures { result.now ≡ counts_of self.now slot }
    {
        match slot {
            Slot::Primary => &self.primary,
            Slot::Secondary => &self.secondary,
        }
    }
}
