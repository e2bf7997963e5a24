//! The worked layout, the limits of a layout, and both flashes through the trait.
ghost use Rattle.std.specs.Prelude.{◌≡◌, []};
ghost use Rattle.mc_flash.specs.inner.Worked.{worked};

use crate::common::{loaded, same, with_an_erased_sector};
use mc_fixtures::worked;
use mc_flash::{
    Bytes16, Flash, FlashError, Grain, JournalFlash, Layout, Slot, SnapFlash, blank, blank_lanes,
};
use std::alloc::Global;
use std::process::Abort;
use std::simd::prelude::*;

/// The numbers of a layout: those that it is made of, and then those that come of them.
fn numbers_of(layout: &Layout) -> [u32; 13] {
    [
        layout.sector(),
        layout.unit(),
        layout.max_sectors(),
        layout.chunk(),
        layout.primary(),
        layout.secondary(),
        layout.sectors(Slot::Primary),
        layout.sectors(Slot::Secondary),
        layout.size(Slot::Primary),
        layout.size(Slot::Secondary),
        layout.trailer_sectors(),
        layout.greatest_sectors(),
        layout.in_pieces(Grain::Unit).chunk(),
    ]
}

#[test]
fn the_worked_layout_is_read(rt: HostRuntime) {
    let layout = worked().expect(&rt, "a layout");
    let wanted = [256, 8, 4, 128, 4, 3, 4, 3, 1024, 768, 1, 2, 8];
    same(&rt, &numbers_of(&layout), &wanted);
    same(&rt, &[layout.fits(512), layout.fits(513)], &[true, false]);
}

/// The first of these lengths at which bytes are not seen to be blank, or are where one of them is another.
fn first_unseen() -> Option<usize> {
    for len in 0..=65usize {
        let mut bytes = [0xff; 65];
        if !blank(&bytes[..len]) {
            return Some(len);
        }
        for offset in 0..len {
            bytes[offset] = 0xfe;
            if blank(&bytes[..len]) {
                return Some(len);
            }
            bytes[offset] = 0xff;
        }
    }
    None
}

/// Lengths on both sides of one and two whole groups of 32 bytes, a whole sector, and one group by itself.
#[test]
fn bytes_are_blank(rt: HostRuntime) {
    let sector = vec![in rt.alloc(); 0xff; 65_536].expect(&rt, "memory");
    let lanes = [
        blank_lanes(u8x32::splat(0xff)),
        blank_lanes(u8x32::splat(0xfe)),
    ];
    same(&rt, &(blank(&sector), lanes), &(true, [true, false]));
    same(&rt, &first_unseen(), &None);
}

#[test]
fn at_most_sixteen_bytes_are_kept(rt: HostRuntime) {
    same(&rt, &Bytes16::new(&[]).bytes(), &[].as_slice());
    same(&rt, &Bytes16::new(&[0, 7]).bytes(), &[0, 7].as_slice());
    same(&rt, &Bytes16::new(&[9; 16]).bytes(), &[9; 16].as_slice());
}

const UNIT: [u8; 8] = [1, 2, 3, 4, 5, 6, 7, 8];

/// Whether a unit is programmed, and refused where it stands.
#[tactic(auto, using(mc_flash::specs::facts::Done::does_keep))]
fn is_programmed<F: Flash>(rt: &impl Abort, flash: &mut F) -> [bool; 2]
    requires { (F.seen flash.old).geometry ≡ worked }
{
    flash
        .program(Slot::Primary, 16, &UNIT)
        .expect(rt, "a write");
    let again = flash.program(Slot::Primary, 16, &UNIT);
    let mut wanted = [0xff; 1024];
    wanted[16..24].copy_from_slice(&UNIT);
    let is_refused = again == Err(FlashError::NotErased);
    [is_refused, flash.read(Slot::Primary) == wanted.as_slice()]
}

/// The primary after it.
fn copied() -> [u8; 1024] {
    let mut bytes = [0xff; 1024];
    bytes[..8].fill(0xaa);
    bytes[256..384].fill(0xaa);
    bytes
}

/// Whether bytes are copied, and refused where others stand.
#[tactic(auto, using(mc_flash::specs::facts::Done::does_keep))]
fn is_copied<F: Flash>(rt: &impl Abort, flash: &mut F) -> [bool; 3]
    requires { (F.seen flash.old).geometry ≡ worked }
{
    flash
        .copy(Slot::Secondary, 8, Slot::Primary, 256, 128)
        .expect(rt, "a copy");
    let over = flash.copy(Slot::Primary, 0, Slot::Secondary, 0, 8);
    flash
        .copy(Slot::Primary, 256, Slot::Primary, 0, 8)
        .expect(rt, "a copy");
    [
        over == Err(FlashError::NotErased),
        flash.read(Slot::Primary) == copied().as_slice(),
        flash.read(Slot::Secondary) == [0xaa; 768].as_slice(),
    ]
}

/// Whether a sector is erased after a checkpoint, and given back. The places of the checkpoints before it, after it, and after
/// the way back.
#[tactic(auto, using(mc_flash::specs::facts::Done::does_keep), unfolding(mc_flash::specs::Usage::went_back))]
fn is_given_back<F: Flash>(rt: &impl Abort, flash: &mut F) -> ([bool; 2], [usize; 3])
    requires geometry { (F.seen flash.old).geometry ≡ worked }
    requires checkpoints { (F.seen flash.old).checkpoints ≡ [] }
{
    let before = flash.mark().expect(rt, "a checkpoint");
    flash.erase(Slot::Secondary, 1).expect(rt, "an erase");
    let is_erased = flash.read(Slot::Secondary) == with_an_erased_sector().as_slice();
    let beyond = flash.mark().expect(rt, "a checkpoint");
    flash.back_to(0);
    let is_back = flash.read(Slot::Secondary) == [0xaa; 768].as_slice();
    (
        [is_erased, is_back],
        [before, beyond, flash.mark().expect(rt, "a checkpoint")],
    )
}

type Played = (u32, [bool; 2], [bool; 3], ([bool; 2], [usize; 3]));

/// What is reported of a flash of one kind: whether it is programmed, whether it is copied, and how it is given back.
fn plays<F: Flash>(rt: &impl Abort, alloc: Global) -> Played {
    let mut flash = loaded::<F>(rt, alloc, 1);
    let sector = flash.layout().sector();
    let is_programmed = is_programmed(rt, &mut flash);
    let is_copied = is_copied(rt, &mut loaded::<F>(rt, alloc, 1));
    let given = is_given_back(rt, &mut loaded::<F>(rt, alloc, 1));
    (sector, is_programmed, is_copied, given)
}

#[test]
fn flashes_are_programmed_and_given_back(rt: HostRuntime) {
    let shown = [
        plays::<SnapFlash>(&rt, rt.alloc()),
        plays::<JournalFlash>(&rt, rt.alloc()),
    ];
    let wanted = (256, [true; 2], [true; 3], ([true; 2], [0, 1, 0]));
    same(&rt, &shown, &[wanted, wanted]);
}

/// Whether a checkpoint that is refused changes nothing.
fn is_kept(rt: &impl Abort, flash: &mut SnapFlash) -> bool {
    let Err(error) = flash.mark() else {
        return true;
    };
    let is_whole = flash.read(Slot::Secondary) == [0xaa; 768].as_slice();
    error == FlashError::Memory && is_whole && flash.mark().expect(rt, "a checkpoint") == 0
}

/// `scripts/test/refuse-allocations-of-tests` refuses each allocation of the tests in turn.
#[test]
fn a_refused_mark_changes_nothing(rt: HostRuntime) {
    let kept = is_kept(&rt, &mut loaded::<SnapFlash>(&rt, rt.alloc(), 1));
    same(&rt, &kept, &true);
}
