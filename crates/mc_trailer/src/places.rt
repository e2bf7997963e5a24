//! Where the fields and the status entries of a trailer stand.
ghost use Rattle.std.specs.Prelude.{◌≡◌, ℕ, ◌+◌, ◌≤◌, ◌<◌, ◌*◌, ◌%◌};
ghost use Rattle.mc_flash.specs.Flash.{size_of};
ghost use Rattle.mc_flash.specs.Geometry.{IsLayout};
ghost use Rattle.mc_flash.specs.declared.op.Slot.TheVariants.{Primary};
ghost use Rattle.mc_trailer.specs.Trailer.{place, entry_place, before_end};

use mc_flash::{Layout, Slot};

/// A field of a trailer.
#[derive(Clone, Copy, Debug, PartialEq, Eq)]
pub enum Field {
    /// 16 bytes that say that the trailer is meant.
    Magic,
    /// Whether the image of the slot was confirmed.
    ImageOk,
    /// Whether a swap was finished.
    CopyDone,
    /// The type of the swap that was begun.
    SwapInfo,
    /// The bytes of the larger image of the swap that was begun.
    SwapSize,
}

// How far before the slot's end a field begins.
fn before_end(field: Field) -> u32
    ensures { result ≡ before_end field }
{
    match field {
        Field::Magic => 16,
        Field::ImageOk => 24,
        Field::CopyDone => 32,
        Field::SwapInfo => 40,
        Field::SwapSize => 48,
    }
}

/// The first byte of a field, from the slot's start. It takes no memory.
/// Promised, also of `entry_place`: fields and entries, in the slot, at whole units (`place`, `inside`, `aligned`).
#[tactic(auto, using(crate::specs::facts::Places::place_inside, crate::specs::facts::Places::place_aligned))]
pub fn place(layout: &Layout, slot: Slot, field: Field) -> u32
    ensures place { result ≡ place layout.now slot field }
    ensures inside { result + before_end field ≡ size_of layout.now slot }
    ensures aligned { result % layout.now.unit ≡ 0 }
    ensures valid { IsLayout layout.now }
{
    layout.size(slot) - before_end(field)
}

/// The first byte of a status entry, from the start of the primary. It takes no memory.
pub fn entry_place(layout: &Layout, entry: u32) -> u32
    requires { entry < 3 * layout.now.max_sectors }
    ensures place { result ≡ entry_place layout.now entry }
    ensures inside { result + layout.now.unit + 48 ≤ size_of layout.now Primary }
    ensures aligned { result % layout.now.unit ≡ 0 }
    ensures valid { IsLayout layout.now }
{
    let unit = layout.unit();
    layout.size(Slot::Primary) - (48 + 3 * layout.max_sectors() * unit - entry * unit)
}
