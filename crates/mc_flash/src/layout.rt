//! The layout of two slots: six numbers that go together.
ghost use Rattle.std.specs.Prelude.{◌≡◌, ℕ, ◌≤◌, ◌<◌, ◌+◌, ◌*◌, ◌^◌, ◌-◌, ◌==◌, min, pos, int_lt, true, ◌↔◌, Some, None, MatchResult};
ghost use Rattle.mc_flash.specs.Geometry.{Geometry, IsLayout, trailer_bytes, trailer_sectors, count_beside, greatest_count, greatest_sectors, fits, refusal_of, of_numbers, is_unit, is_sector, is_chunk, are_counts, in_pieces};
ghost use Rattle.mc_flash.specs.Flash.{sectors_of, size_of};
ghost use Rattle.mc_flash.specs.Largest.{largest_image};

use crate::flash::Grain;
use crate::op::Slot;
use std::marker::Model;
use thiserror::Error;

/// Why six numbers do not form a layout. Of several reasons the first in this order is reported.
#[derive(Clone, Copy, Debug, PartialEq, Eq, Error)]
pub enum LayoutError {
    /// A write unit other than 1, 2, 4 or 8 bytes.
    #[error("E30 Unit")]
    Unit,
    /// A sector that is no power of two from 64 to 65,536 bytes.
    #[error("E31 Sector")]
    Sector,
    /// A chunk of no bytes, or of no whole units, or that does not divide the sector.
    #[error("E32 Chunk")]
    Chunk,
    /// No or more than 1,024 sectors of an image; no sector in the secondary; a primary that has neither as many sectors
    /// as the secondary nor one more; or a slot above 2^24 bytes.
    #[error("E33 Counts")]
    Counts,
    /// No room for an image of one sector beside the trailers.
    #[error("E34 NoRoom")]
    NoRoom,
}

/// A layout of two slots. Sizes are in bytes.
#[derive(Clone, Copy, Debug, PartialEq, Eq)]
pub struct Layout {
    sector: u32,
    unit: u32,
    max_sectors: u32,
    chunk: u32,
    primary: u32,
    secondary: u32,
}

impl Model for Layout {
    ghost use Rattle.mc_flash.specs.Geometry.{Geometry, IsLayout};

    ghost Value = { Geometry };

    ghost view = { λ l. record {
      sector = l.sector;
      unit = l.unit;
      max_sectors = l.max_sectors;
      chunk = l.chunk;
      primary = l.primary;
      secondary = l.secondary;
    } };

    ghost invariant = { λ l. IsLayout
        (record {
          sector = l.sector;
          unit = l.unit;
          max_sectors = l.max_sectors;
          chunk = l.chunk;
          primary = l.primary;
          secondary = l.secondary;
        }) };

    ghost inverse = { λ g. record { sector = g.sector; unit = g.unit; max_sectors = g.max_sectors; chunk = g.chunk; primary = g.primary; secondary = g.secondary } };
}

// The bytes of a trailer, of numbers that a layout may have.
fn trailer_len(unit: u32, max_sectors: u32) -> u32
    requires unit { unit ≤ 8 }
    requires max_sectors { max_sectors ≤ 1024 }
    ensures { result ≡ 3 * max_sectors * unit + 48 }
{
    3 * max_sectors * unit + 48
}

// The sectors that a trailer takes, of numbers that a layout may have.
fn trailer_count(sector: u32, unit: u32, max_sectors: u32) -> u32
    requires sector { (64 ≤ sector) × (sector ≤ 65536) }
    requires unit { unit ≤ 8 }
    requires max_sectors { max_sectors ≤ 1024 }
    ensures { result ≡ trailer_sectors (of_numbers sector unit max_sectors 0 0 0) }
{
    trailer_len(unit, max_sectors).div_ceil(sector)
}

// The most sectors of an image beside a trailer of so many sectors, or 0 where there is no room for one.
fn sectors_beside(trailer: u32, max_sectors: u32, primary: u32, secondary: u32) -> u32
    ensures value { result ≡ min (primary - 1 - trailer) (min (secondary - trailer) max_sectors) }
    ensures count { int_lt (count_beside trailer max_sectors primary secondary) (pos 1)
        ≡ (result == 0) }
{
    primary
        .saturating_sub(1)
        .saturating_sub(trailer)
        .min(secondary.saturating_sub(trailer).min(max_sectors))
}

// Whether a write unit is one of those that flashes have.
fn is_unit(unit: u32) -> bool
    ensures { result ≡ is_unit unit }
{
    matches!(unit, 1 | 2 | 4 | 8)
}

// Whether a sector is a power of two from 64 to 65,536 bytes.
fn is_sector(sector: u32) -> bool
    ensures { result ≡ is_sector sector }
{
    64 <= sector && sector <= 65536 && sector.is_power_of_two()
}

// Whether a chunk has whole units, and a sector whole chunks.
fn is_chunk(sector: u32, unit: u32, chunk: u32) -> bool
    requires { 0 < unit }
    ensures { result ≡ is_chunk (of_numbers sector unit 0 chunk 0 0) }
{
    chunk != 0 && chunk % unit == 0 && sector % chunk == 0
}

// Whether the counts of sectors go together, and slots have at most 2^24 bytes.
fn are_counts(sector: u32, max_sectors: u32, primary: u32, secondary: u32) -> bool
    ensures { result ≡ are_counts (of_numbers sector 0 max_sectors 0 primary secondary) }
{
    max_sectors != 0
        && max_sectors <= 1024
        && secondary != 0
        && (primary == secondary || primary as u64 == secondary as u64 + 1)
        && primary as u64 * sector as u64 <= 1 << 24
}

impl Layout {
    /// A layout of these numbers, or the first reason why they are none.
    /// Promised: a layout, or the first failed check (`of_numbers`, `refusal_of`).
    pub fn new(
        sector: u32,
        unit: u32,
        max_sectors: u32,
        chunk: u32,
        primary: u32,
        secondary: u32,
    ) -> Result<Layout, LayoutError>
        ensures { let g : Geometry = of_numbers sector unit max_sectors chunk primary secondary in
            MatchResult result (λ l. (l ≡ g) × (refusal_of g ≡ None)) (λ e. refusal_of g ≡ Some e) }
    {
        if !is_unit(unit) {
            return Err(LayoutError::Unit);
        }
        if !is_sector(sector) {
            return Err(LayoutError::Sector);
        }
        if !is_chunk(sector, unit, chunk) {
            return Err(LayoutError::Chunk);
        }
        if !are_counts(sector, max_sectors, primary, secondary) {
            return Err(LayoutError::Counts);
        }
        let trailer = trailer_count(sector, unit, max_sectors);
        if sectors_beside(trailer, max_sectors, primary, secondary) == 0 {
            return Err(LayoutError::NoRoom);
        }
        Ok(Layout {
            sector,
            unit,
            max_sectors,
            chunk,
            primary,
            secondary,
        })
    }

    /// The same layout by the pieces in which a sector is copied: where each unit happens by itself, a chunk is one unit.
    pub fn in_pieces(&self, grain: Grain) -> Layout
        ensures { result ≡ in_pieces grain self.now }
    {
        match grain {
            Grain::Call => *self,
            Grain::Unit => Layout {
                chunk: self.unit,
                ..*self
            },
        }
    }

    /// The bytes of a sector: what an erase makes 0xff.
    pub fn sector(&self) -> u32
        ensures value { result ≡ self.now.sector }
        ensures valid { IsLayout self.now }
    {
        self.sector
    }

    /// The bytes of a write unit.
    pub fn unit(&self) -> u32
        ensures value { result ≡ self.now.unit }
        ensures valid { IsLayout self.now }
    {
        self.unit
    }

    /// The most sectors of an image that the trailer has entries for.
    pub fn max_sectors(&self) -> u32
        ensures value { result ≡ self.now.max_sectors }
        ensures valid { IsLayout self.now }
    {
        self.max_sectors
    }

    /// The bytes that one write of a copied sector has.
    pub fn chunk(&self) -> u32
        ensures value { result ≡ self.now.chunk }
        ensures valid { IsLayout self.now }
    {
        self.chunk
    }

    /// The sectors of the primary slot.
    pub fn primary(&self) -> u32
        ensures value { result ≡ self.now.primary }
        ensures valid { IsLayout self.now }
    {
        self.primary
    }

    /// The sectors of the secondary slot.
    pub fn secondary(&self) -> u32
        ensures value { result ≡ self.now.secondary }
        ensures valid { IsLayout self.now }
    {
        self.secondary
    }

    /// The sectors of a slot.
    pub fn sectors(&self, slot: Slot) -> u32
        ensures value { result ≡ sectors_of self.now slot }
        ensures valid { IsLayout self.now }
    {
        match slot {
            Slot::Primary => self.primary,
            Slot::Secondary => self.secondary,
        }
    }

    /// The bytes of a slot.
    pub fn size(&self, slot: Slot) -> u32
        ensures value { result ≡ size_of self.now slot }
        ensures valid { IsLayout self.now }
    {
        match slot {
            Slot::Primary => self.primary * self.sector,
            Slot::Secondary => self.secondary * self.sector,
        }
    }

    /// The bytes of a slot's trailer, at the slot's end.
    /// Promised, also of `largest_image`: an image fits exactly up to the largest (`value`, `fits`).
    pub fn trailer_bytes(&self) -> u32
        ensures value { result ≡ trailer_bytes self.now }
        ensures valid { IsLayout self.now }
    {
        trailer_len(self.unit, self.max_sectors)
    }

    /// The sectors that a slot's trailer takes, at the slot's end.
    /// Promised, also of `greatest_sectors` and `fits`: trailer sectors, largest image, sizes that fit (`count`, `value`).
    pub fn trailer_sectors(&self) -> u32
        ensures value { result ≡ trailer_sectors self.now }
        ensures valid { IsLayout self.now }
    {
        trailer_count(self.sector, self.unit, self.max_sectors)
    }

    /// The most sectors that an image may have, at least 1.
    pub fn greatest_sectors(&self) -> u32
        ensures count { pos result ≡ greatest_count self.now }
        ensures value { result ≡ greatest_sectors self.now }
        ensures valid { IsLayout self.now }
    {
        sectors_beside(
            self.trailer_sectors(),
            self.max_sectors,
            self.primary,
            self.secondary,
        )
    }

    /// Whether an image of so many bytes fits both slots.
    pub fn fits(&self, size: u64) -> bool
        ensures value { result ≡ fits self.now size }
        ensures valid { IsLayout self.now }
    {
        size.div_ceil(self.sector as u64) <= self.greatest_sectors() as u64
    }

    /// The bytes of the largest image that fits both slots, its header and areas included.
    #[tactic(auto, using(crate::specs::Largest::largest_inside))]
    pub fn largest_image(&self) -> u32
        ensures value { result ≡ largest_image self.now }
        ensures fits { (size : ℕ) → (fits self.now size ≡ true) ↔ (size ≤ result) }
        ensures valid { IsLayout self.now }
    {
        self.greatest_sectors() * self.sector
    }
}
