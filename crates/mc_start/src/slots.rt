//! The bytes of the slots that a start has.
ghost use Rattle.std.specs.Prelude.{◌≡◌, ℕ, ◌≤◌, List, [], ◌∷◌, length, IfOk, IfErr, Some};
ghost use Rattle.mc_flash.specs.Flash.{size_of, put, IsSized};
ghost use Rattle.mc_flash.specs.declared.op.Slot.TheVariants.{Primary, Secondary};
ghost use Rattle.mc_trailer.specs.Trailer.{place, magic_bytes};
ghost use Rattle.mc_boot.specs.Plan.{plain, power_on};
ghost use Rattle.mc_boot.specs.Outcome.{left_by};
ghost use Rattle.mc_boot.specs.Restart.{image_bytes, filled, placed, test_flash, perm_flash, start_flash};

use mc_boot::{Boot, Kind, KnownImage};
use mc_flash::{Content, Flash, FlashError, Layout, Slot, SnapFlash};
use mc_trailer::{Field, MAGIC, Rules, place};
use std::alloc::{AllocError, Global};

// A slot that begins with these bytes, all else 0xff.
fn filled(alloc: Global, layout: &Layout, slot: Slot, image: &[u8]) -> Result<Vec<u8>, AllocError>
    requires { length image.now ≤ size_of layout.now slot }
    ensures value { IfOk result (λ bytes. bytes.items ≡ filled layout.now slot image.now) }
    ensures len { IfOk result (λ bytes. length bytes.items ≡ size_of layout.now slot) }
{
    let size = layout.size(slot) as usize;
    let mut bytes = Vec::with_capacity(alloc, size)?;
    bytes.extend_from_slice(image)?;
    bytes.resize(size, 0xff)?;
    Ok(bytes)
}

// The first image in the primary and the second in the secondary.
fn placed(
    alloc: Global,
    layout: &Layout,
    first: &[u8],
    second: &[u8],
) -> Result<Content, AllocError>
    requires first { length first.now ≤ size_of layout.now Primary }
    requires second { length second.now ≤ size_of layout.now Secondary }
    ensures content { IfOk result (λ s. s ≡ placed layout.now first.now second.now) }
    ensures sized { IfOk result (λ s. IsSized layout.now s) }
{
    Ok(Content {
        primary: filled(alloc, layout, Slot::Primary, first)?,
        secondary: filled(alloc, layout, Slot::Secondary, second)?,
    })
}

// Writes the magic into the secondary's trailer.
fn write_magic(layout: &Layout, secondary: &mut [u8])
    requires { length secondary.old ≡ size_of layout.now Secondary }
    ensures value { secondary.new ≡ put secondary.old (place layout.now Secondary Field.Magic)
        magic_bytes }
    ensures len { length secondary.new ≡ length secondary.old }
{
    let at = place(layout, Slot::Secondary, Field::Magic) as usize;
    secondary[at..at + 16].copy_from_slice(&MAGIC);
}

// Sets image-ok in the secondary's trailer, that byte alone.
fn write_image_ok(layout: &Layout, secondary: &mut [u8])
    requires { length secondary.old ≡ size_of layout.now Secondary }
    ensures value { secondary.new ≡ put secondary.old (place layout.now Secondary Field.ImageOk)
        (1 ∷ []) }
    ensures len { length secondary.new ≡ length secondary.old }
{
    let at = place(layout, Slot::Secondary, Field::ImageOk) as usize;
    secondary[at..at + 1].copy_from_slice(&[1]);
}

// The slots that ask for a test.
fn test_slots(
    alloc: Global,
    layout: &Layout,
    first: &[u8],
    second: &[u8],
) -> Result<Content, AllocError>
    requires first { length first.now ≤ size_of layout.now Primary }
    requires second { length second.now ≤ size_of layout.now Secondary }
    ensures content { IfOk result (λ s. s ≡ test_flash layout.now first.now second.now) }
    ensures sized { IfOk result (λ s. IsSized layout.now s) }
{
    let mut slots = placed(alloc, layout, first, second)?;
    write_magic(layout, &mut slots.secondary);
    Ok(slots)
}

// The slots that ask for a swap for good.
fn perm_slots(
    alloc: Global,
    layout: &Layout,
    first: &[u8],
    second: &[u8],
) -> Result<Content, AllocError>
    requires first { length first.now ≤ size_of layout.now Primary }
    requires second { length second.now ≤ size_of layout.now Secondary }
    ensures content { IfOk result (λ s. s ≡ perm_flash layout.now first.now second.now) }
    ensures sized { IfOk result (λ s. IsSized layout.now s) }
{
    let mut slots = test_slots(alloc, layout, first, second)?;
    write_image_ok(layout, &mut slots.secondary);
    Ok(slots)
}

// The slots that the uncut boot leaves.
fn booted<F: Flash>(
    alloc: Global,
    layout: &Layout,
    primary: &[u8],
    secondary: &[u8],
    known: &[Option<KnownImage<'_>>],
) -> Result<Content, FlashError>
    requires primary { length primary.now ≡ size_of layout.now Primary }
    requires secondary { length secondary.now ≡ size_of layout.now Secondary }
    ensures content { IfOk result (λ s. left_by (power_on plain layout.now
        (record { primary = primary.now; secondary = secondary.now })) ≡ Some s) }
    ensures sized { IfOk result (λ s. IsSized layout.now s) }
    ensures err { IfErr result (λ e. e ≡ FlashError.Memory) }
{
    let mut flash = F::load(alloc, layout, Rules::PLAIN.grain, primary, secondary, 1)?;
    let mut boot = Boot::cold_among(&flash, Rules::PLAIN, known);
    boot.finish(&mut flash)?;
    Ok(Content::read(alloc, &flash)?)
}

// The slots after the whole swap of the exchanged images for a test.
fn revert_slots(
    alloc: Global,
    layout: &Layout,
    first: &[u8],
    second: &[u8],
    known: &[Option<KnownImage<'_>>],
) -> Result<Content, FlashError>
    requires first { length first.now ≤ size_of layout.now Secondary }
    requires second { length second.now ≤ size_of layout.now Primary }
    ensures content { IfOk result (λ s. left_by (power_on plain layout.now
        (test_flash layout.now second.now first.now)) ≡ Some s) }
    ensures sized { IfOk result (λ s. IsSized layout.now s) }
    ensures err { IfErr result (λ e. e ≡ FlashError.Memory) }
{
    let asked = test_slots(alloc, layout, second, first)?;
    booted::<SnapFlash>(alloc, layout, &asked.primary, &asked.secondary, known)
}

/// The slots of a start, of two images that fit. The boot before a revert hashes no image that is known.
///
/// # Errors
///
/// `Memory` where an allocation failed.
#[tactic(auto, unfolding(mc_boot::specs::Restart::start_flash))]
pub(crate) fn start_slots(
    alloc: Global,
    layout: &Layout,
    kind: Kind,
    first: &[u8],
    second: &[u8],
    known: &[Option<KnownImage<'_>>],
) -> Result<Content, FlashError>
    requires first { (length first.now ≤ size_of layout.now Primary)
        × (length first.now ≤ size_of layout.now Secondary) }
    requires second { (length second.now ≤ size_of layout.now Primary)
        × (length second.now ≤ size_of layout.now Secondary) }
    ensures content { (a b : List ℕ) → first.now ≡ image_bytes a → second.now ≡ image_bytes b
        → IfOk result (λ s. start_flash layout.now kind a b ≡ Some s) }
    ensures sized { IfOk result (λ s. IsSized layout.now s) }
    ensures err { IfErr result (λ e. e ≡ FlashError.Memory) }
{
    match kind {
        Kind::None => Ok(placed(alloc, layout, first, second)?),
        Kind::Test => Ok(test_slots(alloc, layout, first, second)?),
        Kind::Perm => Ok(perm_slots(alloc, layout, first, second)?),
        Kind::Revert => revert_slots(alloc, layout, first, second, known),
    }
}
