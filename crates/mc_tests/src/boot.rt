//! The worked boots: two images of 80 bytes on a layout of sectors of 256 bytes, and flashes that hold no images. What they print is
//! shown by the program's sessions.
ghost use Rattle.std.specs.Prelude.{◌≡◌};
ghost use Rattle.mc_boot.specs.Boot.{IsBootOf};

mod cuts;
mod joins;
mod lives;

use crate::common::{flash_of, same, same_at};
use mc_boot::{Boot, BootResult, Outcome, SharedTail, confirm, has_twin};
use mc_flash::{Flash, SnapFlash};
use mc_trailer::Rules;
use std::process::Abort;

/// Makes so many steps, or all that there are.
fn run<F: Flash>(flash: &mut F, boot: &mut Boot, steps: u32)
    requires { IsBootOf (F.seen flash.old).geometry boot.old }
    ensures boot { IsBootOf (F.seen flash.new).geometry boot.new }
    ensures geometry { (F.seen flash.new).geometry ≡ (F.seen flash.old).geometry }
    ensures checkpoints { (F.seen flash.new).checkpoints ≡ (F.seen flash.old).checkpoints }
{
    for _ in 0..steps {
        let _ = boot.step(flash);
    }
}

/// The outcome of a boot that is left alone.
fn ended<F: Flash>(flash: &mut F, mut boot: Boot) -> Outcome
    requires { IsBootOf (F.seen flash.old).geometry boot }
    ensures geometry { (F.seen flash.new).geometry ≡ (F.seen flash.old).geometry }
    ensures checkpoints { (F.seen flash.new).checkpoints ≡ (F.seen flash.old).checkpoints }
{
    run(flash, &mut boot, 200);
    boot.outcome(flash)
}

/// The outcome of a whole boot.
fn shown<F: Flash>(flash: &mut F, rules: Rules) -> Outcome
    ensures { (F.seen flash.new).checkpoints ≡ (F.seen flash.old).checkpoints }
{
    let boot = Boot::cold(flash, rules);
    ended(flash, boot)
}

/// The outcome of a whole boot, from which the flash is taken back.
fn whole_of<F: Flash>(rt: &impl Abort, flash: &mut F, rules: Rules) -> Outcome {
    let offset = flash.mark().expect(rt, "a checkpoint");
    let whole = shown(flash, rules);
    flash.back_to(offset);
    whole
}

/// What a boot reports, and what the same boot reports that was kept beside a checkpoint.
#[tactic(auto, unfolding(mc_flash::specs::Usage::went_back))]
fn shown_again(rt: &impl Abort, flash: &mut SnapFlash) -> [Outcome; 2] {
    let mut boot = Boot::cold(flash, Rules::PLAIN);
    run(flash, &mut boot, 7);
    let offset = flash.mark().expect(rt, "a checkpoint");
    let first = ended(flash, boot);
    flash.back_to(offset);
    [first, ended(flash, boot)]
}

#[test]
fn a_kept_boot_serves_again(rt: HostRuntime) {
    let [first, again] = shown_again(&rt, &mut flash_of(&rt, rt.alloc(), "IMAGES"));
    same(&rt, &first, &again);
    same(&rt, &(again.result, again.ops), &(BootResult::Boot, 18));
}

/// Whether the image of a flash confirms itself.
fn confirms(rt: &impl Abort, flash: &mut SnapFlash) -> bool {
    confirm(flash).expect(rt, "a confirmation")
}

/// Once after a test, and not where a swap is not finished.
#[test]
fn an_image_confirms_itself(rt: HostRuntime) {
    let mut flash = flash_of(&rt, rt.alloc(), "IMAGES");
    let _ = shown(&mut flash, Rules::PLAIN);
    let first = confirms(&rt, &mut flash);
    let second = confirms(&rt, &mut flash);
    let begun = confirms(&rt, &mut flash_of(&rt, rt.alloc(), "BEGUN,984=02"));
    same(&rt, &[first, second, begun], &[true, false, false]);
}

/// The places of the first four operations of the boot after a cut, among those of the boot that was cut.
fn places(flash: &mut SnapFlash, cut: u32) -> Option<[u32; 4]> {
    let mut boot = Boot::cold(flash, Rules::PLAIN);
    run(flash, &mut boot, cut);
    let next = Boot::cold(flash, Rules::PLAIN);
    let shared_tail = SharedTail::find(flash, &boot, &next)?;
    Some([
        shared_tail.index_in_parent(0),
        shared_tail.index_in_parent(1),
        shared_tail.index_in_parent(2),
        shared_tail.index_in_parent(3),
    ])
}

/// A row has a cut of a test, and the places then. The boot makes 18 operations: the erase of the primary's trailer and three
/// writes there, the erase of the secondary's trailer, three transfers of four operations, and the finish.
static PLACES: [(u32, [u32; 4]); 8] = [
    (1, [1, 1, 2, 3]),
    // The erase of the trailer takes away what was written there.
    (2, [2, 1, 2, 3]),
    (4, [4, 1, 2, 3]),
    (5, [5, 5, 6, 7]),
    // The secondary's trailer is erased already, and the sector that was copied to is not.
    (8, [8, 8, 6, 7]),
    (9, [9, 10, 11, 12]),
    (11, [11, 10, 11, 12]),
    (17, [17, 18, 19, 20]),
];

#[test]
fn places_after_cuts(rt: HostRuntime) {
    for (cut, wanted) in &PLACES {
        let found = places(&mut flash_of(&rt, rt.alloc(), "IMAGES"), *cut);
        same_at(&rt, cut, &found, &Some(*wanted));
    }
}

/// Whether the boot that begins after a cut surely begins after the cut one operation later too.
fn is_followed_alike(flash: &mut SnapFlash, cut: u32) -> bool {
    let mut boot = Boot::cold(flash, Rules::PLAIN);
    run(flash, &mut boot, cut);
    let next = Boot::cold(flash, Rules::PLAIN);
    has_twin(flash, &boot, &next)
}

/// The erase of a blank trailer and of a blank sector, and in the second transfer and the third both copies. The boot after a cut in the
/// first transfer erases the secondary's trailer first.
#[test]
fn cuts_with_a_twin(rt: HostRuntime) {
    for cut in 0..18 {
        let found = is_followed_alike(&mut flash_of(&rt, rt.alloc(), "IMAGES"), cut);
        same_at(&rt, &cut, &found, &matches!(cut, 0 | 5 | 10 | 11 | 14 | 15));
    }
}
