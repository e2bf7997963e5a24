//! Laws of the definitions, each the contract of a function that does nothing.
ghost use Rattle.std.specs.Prelude.{◌≡◌, ℕ, Option};
ghost use Rattle.mc_flash.specs.Geometry.{Geometry};
ghost use Rattle.mc_flash.specs.Flash.{Content};
ghost use Rattle.mc_trailer.specs.Trailer.{magic_bytes, IsHighest, highest_entry};
ghost use Rattle.mc_trailer.specs.Laws.{ReadsBack, WritesKeep, WritesHighest, RowsApart, TypesAreRows};

use crate::trailer::MAGIC;

/// The magic is the definition's 16 bytes.
pub fn magic_of_a_trailer()
    ensures { MAGIC ≡ magic_bytes }
{}

/// No two rows of the swap tables hold together, and the tables give a type exactly where its row holds, in each
/// profile; and no swap exactly where no row does.
#[tactic(auto, using(crate::specs::facts::Tables::rows_apart, crate::specs::facts::Tables::types_are_rows))]
pub fn one_row()
    ensures apart { RowsApart }
    ensures types { TypesAreRows }
{}

/// What is written for a field is read back, and what is written elsewhere keeps it.
/// Promised, also of `highest_after_a_write`: fields read back; writes elsewhere keep them (`reads`, `keeps`, `after`, `one`).
pub fn fields_read_back()
    ensures reads { ReadsBack }
    ensures keeps { WritesKeep }
{}

/// An entry that is written above all written ones is the highest then, and at most one entry is the highest.
#[tactic(auto, using(crate::specs::facts::Entries::highest_after, crate::specs::facts::Entries::highest_one))]
pub fn highest_after_a_write()
    ensures after { WritesHighest }
    ensures one { (g : Geometry) (s : Content) (highest : Option ℕ) → IsHighest g s highest
        → highest_entry g s ≡ highest }
{}
