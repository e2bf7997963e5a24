//! Where the boot after a power cut goes on with the boot that was cut.
ghost use Rattle.std.specs.Prelude.{◌≡◌, Bool, ◌*◌, ◌≤◌, IfSome, true};
ghost use Rattle.mc_flash.specs.Geometry.{IsLayout};
ghost use Rattle.mc_boot.specs.Boot.{list_from};
ghost use Rattle.mc_boot.specs.Plan.{resumed_list};
ghost use Rattle.mc_boot.specs.inner.Meets.{GoesOnWith, IsHarmless, IsRestOf};
ghost use Rattle.mc_boot.specs.declared.course.Opening.TheVariants.{New, Resumed};

use crate::course::{Course, Opening};
use crate::section::len_of;
use crate::transfer::transfer_len;
use crate::writes::is_revert;
use mc_trailer::SwapType;

/// Whether two courses swap as many sectors, by one grain.
fn is_same_swap(a: &Course, b: &Course) -> bool
    ensures { result ≡ true → (a.now.grain ≡ b.now.grain) × (a.now.sectors ≡ b.now.sectors) }
{
    a.grain == b.grain && a.sectors == b.sectors
}

/// Whether a course begins as a swap of that type whose larger image has that size.
fn starts_as(opening: Opening, kind: SwapType, size: u32) -> bool
    ensures { result ≡ true → opening ≡ New kind size }
{
    match opening {
        Opening::New {
            kind: before,
            size: whole,
        } => before == kind && whole == size,
        Opening::Resumed { .. } => false,
    }
}

/// Whether a course that begins so comes to that transfer of the next course, or to the erases before it, with that finish.
fn comes_to(opening: Opening, next: &Course, first: u32, erases: bool, image_ok: bool) -> bool
    requires { first ≤ 3 * next.now.sectors }
    ensures { result ≡ true
        → IsRestOf (resumed_list next.now.layout next.now.sectors first erases image_ok)
        (list_from next.now.grain next.now.layout next.now.sectors opening) }
{
    // Reading a field gives the prover that it is a layout.
    let _sector = next.layout.sector();
    match opening {
        Opening::New { .. } => (!erases || first == 0) && !image_ok,
        Opening::Resumed {
            first: start,
            erases: erased,
            image_ok: confirms,
        } => {
            if erases {
                start == first && erased && confirms == image_ok
            } else {
                let last = first == 3 * next.sectors;
                start <= first && (confirms == image_ok || last && !image_ok)
            }
        }
    }
}

/// How many operations of a swap from its start write only in the trailer that it begins with erasing.
fn harmless_opening_len(course: &Course, kind: SwapType, size: u32) -> u32
    requires { course.now.opening ≡ New kind size }
    ensures { IsHarmless course.now result }
{
    // Reading a field gives the prover that it is a layout.
    let _unit = course.layout.unit();
    if is_revert(kind) {
        len_of(course, &course.preparation(size))
    } else {
        // Those up to the erases of the other trailer.
        len_of(course, &course.swap(kind, size)[..5])
    }
}

/// How many operations of a course from a transfer on write only in the sectors that it begins with erasing.
fn harmless_transfer_len(course: &Course, first: u32, erases: bool) -> u32
    requires { first ≤ 3 * course.now.sectors }
    ensures harmless { (image_ok : Bool) → course.now.opening ≡ Resumed first erases image_ok
        → IsHarmless course.now result }
    ensures at_most { result ≤ 400000 }
{
    // The last operation of a transfer is its entry.
    let copied = transfer_len(&course.layout) - 1;
    if first == 3 * course.sectors {
        0
    } else if erases {
        course.layout.trailer_sectors() + copied
    } else {
        copied
    }
}

/// `count_kept` where the next course is a swap from its start.
fn begins_anew(cut: &Course, done: u32, next: &Course, kind: SwapType, size: u32) -> Option<u32>
    requires { next.now.opening ≡ New kind size }
    ensures meets { IfSome result (GoesOnWith cut.now done next.now) }
    ensures at_most { IfSome result (λ kept. kept ≤ 204000000) }
{
    if !is_same_swap(cut, next) {
        return None;
    }
    if !starts_as(cut.opening, kind, size) {
        return None;
    }
    let harmless_len = harmless_opening_len(next, kind, size);
    if done <= harmless_len { Some(0) } else { None }
}

/// `count_kept` where the next course is a swap that was cut.
fn goes_on(
    cut: &Course,
    done: u32,
    next: &Course,
    first: u32,
    erases: bool,
    image_ok: bool,
) -> Option<u32>
    requires { next.now.opening ≡ Resumed first erases image_ok }
    ensures meets { IfSome result (GoesOnWith cut.now done next.now) }
    ensures at_most { IfSome result (λ kept. kept ≤ 204000000) }
{
    // Reading a field gives the prover that it is a layout.
    let _sector = next.layout.sector();
    if !is_same_swap(cut, next) {
        return None;
    }
    if 3 * next.sectors < first {
        return None;
    }
    if !comes_to(cut.opening, next, first, erases, image_ok) {
        return None;
    }
    let kept = cut.len().saturating_sub(next.len());
    if done < kept {
        return None;
    }
    let harmless_len = harmless_transfer_len(next, first, erases);
    if done <= kept + harmless_len {
        Some(kept)
    } else {
        None
    }
}

/// How many operations of a course that was cut after so many the next one does not make again, where it goes on with it.
/// None elsewhere.
pub fn count_kept(cut: &Course, done: u32, next: &Course) -> Option<u32>
    ensures meets { IfSome result (GoesOnWith cut.now done next.now) }
    ensures at_most { IfSome result (λ kept. kept ≤ 204000000) }
    ensures valid { IsLayout next.now.layout }
{
    // Reading a field gives the prover that it is a layout.
    let _sector = next.layout.sector();
    match next.opening {
        Opening::New { kind, size } => begins_anew(cut, done, next, kind, size),
        Opening::Resumed {
            first,
            erases,
            image_ok,
        } => goes_on(cut, done, next, first, erases, image_ok),
    }
}
