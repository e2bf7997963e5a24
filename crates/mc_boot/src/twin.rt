//! Cuts one operation apart after which the same boot begins.
ghost use Rattle.std.specs.Prelude.{◌≡◌, ℕ, ◌+◌, ◌*◌, ◌<◌, ◌≤◌, length, true, IfErr, IfOk};
ghost use Rattle.mc_flash.specs.Flash.{IsSized};
ghost use Rattle.mc_flash.specs.facts.Layouts.{data_sectors};
ghost use Rattle.mc_flash.specs.Usage.{Allows, RanOut};
ghost use Rattle.mc_boot.specs.Boot.{CountsOn, GoesOn, HasCome, IsBootOf, begun, left_of, progress};
ghost use Rattle.mc_boot.specs.Outcome.{ops_of};
ghost use Rattle.mc_boot.specs.Plan.{PowerOn, again, plan};
ghost use Rattle.mc_boot.specs.Twins.{ErasesFirst, HasPassed, HasTwin};

use crate::boot::Boot;
use crate::shared_tail::is_erased;
use mc_flash::{Flash, FlashError, Layout, Op, Slot};

/// Whether so many bytes of a slot, from an offset on, lie in that sector, and it holds no trailer.
fn lie_in_data(layout: &Layout, slot: Slot, sector: u32, offset: u32, len: u32) -> bool
    ensures data { result ≡ true → sector < data_sectors layout.now slot }
    ensures from { result ≡ true → sector * layout.now.sector ≤ offset }
    ensures to { result ≡ true → offset + len ≤ sector * layout.now.sector + layout.now.sector }
{
    if sector >= layout.sectors(slot) - layout.trailer_sectors() {
        return false;
    }
    let size = layout.sector();
    let start = sector * size;
    start <= offset && len <= size && offset - start <= size - len
}

/// Whether a boot begins with erasing a sector that holds no trailer, and in which so many bytes of a slot lie, from an offset on.
fn erases_first(layout: &Layout, boot: &Boot, slot: Slot, offset: u32, len: u32) -> bool
    ensures { result ≡ true
        → ErasesFirst layout.now (progress boot.now).to_come slot offset len }
{
    let Some(Op::Erase(first, sector)) = boot.peek() else {
        return false;
    };
    if first != slot {
        return false;
    }
    lie_in_data(layout, slot, sector, offset, len)
}

/// Whether the same boot surely begins after a cut one operation later, by the boot that was cut and by the next one, at power-on: the
/// flash stands at the cut. It does where the operation erases a sector that is erased, or copies into one that the next boot erases
/// first.
/// Promised: the same boot begins one operation later (`HasTwin`).
pub fn has_twin<F: Flash>(flash: &F, cut: &Boot, next: &Boot) -> bool
    ensures { let f = F.seen flash.now in (x : PowerOn) → x.geometry ≡ f.geometry
        → IsSized x.geometry f.content → HasCome x (progress cut.now) f.content
        → cut.now.done < length (ops_of x)
        → progress next.now ≡ begun x.rules (plan (again x f.content)) → result ≡ true
        → HasTwin x f.content (cut.now.done + 1) }
{
    // Reading a field gives the prover that it is a layout.
    let layout = flash.layout();
    let _unit = layout.unit();
    match cut.peek() {
        Some(Op::Copy(_, _, to, offset, len)) => erases_first(layout, next, to, offset, len),
        Some(Op::Erase(slot, sector)) => {
            if sector < layout.sectors(slot) {
                is_erased(flash, slot, sector)
            } else {
                false
            }
        }
        _ => false,
    }
}

/// Makes the copies that are next, at most so many, where the next boot, at power-on, erases the sector first into which they go, and
/// returns how many these are: the same boot surely begins after a cut anywhere among them. Elsewhere it makes none.
/// Promised: the same boot begins after several copies (`twins`, `goes`, `passed`).
///
/// # Errors
///
/// `Memory` where the flash can't grow.
pub fn pass_twins<F: Flash>(
    flash: &mut F,
    cut: &mut Boot,
    next: &Boot,
    most: u32,
) -> Result<u32, FlashError>
    requires layout { IsBootOf (F.seen flash.old).geometry cut.old }
    requires room { Allows (left_of (F.seen flash.old).geometry (progress cut.old))
        (F.seen flash.old) }
    ensures goes { GoesOn cut.old (F.seen flash.old) cut.new (F.seen flash.new) }
    ensures counts { CountsOn (progress cut.old) (progress cut.new) (F.seen flash.old)
        (F.seen flash.new) }
    ensures passed { IfOk result (λ count. HasPassed most (progress cut.old) (F.seen flash.old)
        count (progress cut.new) (F.seen flash.new)) }
    ensures twins { IfOk result (λ count. let f = F.seen flash.old in (x : PowerOn) (j : ℕ)
        → x.geometry ≡ f.geometry → IsSized x.geometry f.content
        → HasCome x (progress cut.old) f.content
        → progress next.now ≡ begun x.rules (plan (again x f.content)) → 0 < j → j ≤ count
        → HasTwin x f.content (cut.old.done + j)) }
    ensures out { IfErr result (λ e. (e ≡ FlashError.Memory) × RanOut (F.seen flash.old)
        (F.seen flash.new)) }
{
    // Reading a field gives the prover that it is a layout.
    let layout = *flash.layout();
    let _unit = layout.unit();
    let Some(copies) = cut.copies(most) else {
        return Ok(0);
    };
    let len = copies.count * copies.len;
    if !erases_first(&layout, next, copies.to, copies.offset, len) {
        return Ok(0);
    }
    match cut.leap(flash, &copies) {
        Ok(true) => Ok(copies.count),
        Ok(false) => Ok(0),
        Err(error) => Err(error),
    }
}
