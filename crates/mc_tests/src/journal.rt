//! The flash with a journal: its limits, its counts, and what it takes back.
ghost use Rattle.std.specs.Prelude.{◌≡◌, [], length, ◌<◌, ◌≤◌};
ghost use Rattle.mc_flash.specs.inner.Worked.{worked};

use crate::common::{loaded, same, with_an_erased_sector};
use mc_flash::{Flash, FlashError, JournalFlash, Slot};
use std::process::Abort;

/// The entries, the saved bytes, the checkpoints, and the operations done.
fn counts(flash: &JournalFlash) -> [u64; 4] {
    [
        flash.entries(),
        flash.saved_bytes(),
        flash.marks(),
        flash.applied(),
    ]
}

type Operated = ([usize; 2], [[u64; 4]; 3], Result<(), FlashError>);

/// Marks and erases a sector; marks, writes a unit, copies it to that sector, and is refused to write it again. The places
/// of the checkpoints, the counts before and after each part, and the refusal.
#[tactic(auto, using(mc_flash::specs::facts::Done::does_keep))]
fn operated(rt: &impl Abort, flash: &mut JournalFlash) -> Operated
    requires geometry { flash.old.geometry ≡ worked }
    requires checkpoints { flash.old.checkpoints ≡ [] }
    ensures { length flash.new.checkpoints ≡ 2 }
{
    let before = counts(flash);
    let first = flash.mark().expect(rt, "a checkpoint");
    flash.erase(Slot::Secondary, 1).expect(rt, "an erase");
    let erased = counts(flash);
    let second = flash.mark().expect(rt, "a checkpoint");
    flash
        .program(Slot::Primary, 16, &[1, 2, 3, 4, 5, 6, 7, 8])
        .expect(rt, "a write");
    flash
        .copy(Slot::Primary, 16, Slot::Secondary, 256, 8)
        .expect(rt, "a copy");
    let again = flash.program(Slot::Primary, 16, &[0; 8]);
    ([first, second], [before, erased, counts(flash)], again)
}

/// Goes back to a checkpoint, and returns the counts then.
#[tactic(auto, unfolding(mc_flash::specs::Usage::went_back))]
fn counts_back(flash: &mut JournalFlash, offset: usize) -> [u64; 4]
    requires { offset < length flash.old.checkpoints }
    ensures { length flash.new.checkpoints ≡ offset }
{
    flash.back_to(offset);
    counts(flash)
}

type GoneBack = ([[u64; 4]; 2], [bool; 3], usize);

/// Goes back to the second checkpoint, and then to the first. The counts after each, whether the slots are as they were, and the
/// place of the next checkpoint.
fn gone_back(rt: &impl Abort, flash: &mut JournalFlash) -> GoneBack
    requires { length flash.old.checkpoints ≡ 2 }
{
    let second = counts_back(flash, 1);
    let primary = flash.read(Slot::Primary) == [0xff; 1024].as_slice();
    let erased = flash.read(Slot::Secondary) == with_an_erased_sector().as_slice();
    let first = counts_back(flash, 0);
    let whole = flash.read(Slot::Secondary) == [0xaa; 768].as_slice();
    (
        [second, first],
        [primary, erased, whole],
        flash.mark().expect(rt, "a checkpoint"),
    )
}

#[test]
fn operations_are_counted_and_taken_back(rt: HostRuntime) {
    let mut flash = loaded::<JournalFlash>(&rt, rt.alloc(), 3);
    let there = operated(&rt, &mut flash);
    let wanted = [[0, 0, 0, 0], [1, 256, 1, 1], [3, 256, 2, 3]];
    same(&rt, &there, &([0, 1], wanted, Err(FlashError::NotErased)));
    let back = gone_back(&rt, &mut flash);
    same(&rt, &back, &([[1, 256, 1, 3], [0, 0, 0, 3]], [true; 3], 0));
}

/// Takes the erases that there is room for, and returns what is refused then.
#[tactic(auto, using(mc_flash::specs::facts::Done::does_keep))]
fn erased(rt: &impl Abort, flash: &mut JournalFlash) -> Option<FlashError>
    requires { flash.old.geometry ≡ worked }
    ensures { flash.new.geometry ≡ worked }
{
    for _ in 0..9u32 {
        flash.erase(Slot::Secondary, 1).expect(rt, "an erase");
    }
    flash.erase(Slot::Secondary, 1).err()
}

/// Takes the entries that there is room for, and returns what is refused then, at a place of its own and at one of them.
#[tactic(auto, using(mc_flash::specs::facts::Done::does_keep))]
fn programmed(rt: &impl Abort, flash: &mut JournalFlash) -> [Option<FlashError>; 2]
    requires { flash.old.geometry ≡ worked }
{
    for unit in 0..27u32 {
        flash
            .program(Slot::Primary, 8 * unit, &[0; 8])
            .expect(rt, "a write");
    }
    let room = flash.program(Slot::Primary, 512, &[0; 8]).err();
    let over = flash.program(Slot::Primary, 0, &[0; 8]).err();
    [room, over]
}

/// Takes the checkpoints that there is room for, and returns their places, and what is refused then.
fn marked(rt: &impl Abort, flash: &mut JournalFlash) -> ([usize; 2], Option<FlashError>)
    ensures { flash.new.geometry ≡ flash.old.geometry }
{
    let first = flash.mark().expect(rt, "a checkpoint");
    let second = flash.mark().expect(rt, "a checkpoint");
    ([first, second], flash.mark().err())
}

/// The most erases of a boot, and the place for one checkpoint more.
#[test]
fn a_full_journal_refuses(rt: HostRuntime) {
    let memory = Some(FlashError::Memory);
    let mut flash = loaded::<JournalFlash>(&rt, rt.alloc(), 1);
    same(&rt, &marked(&rt, &mut flash), &([0, 1], memory));
    same(&rt, &erased(&rt, &mut flash), &memory);
    same(&rt, &counts(&flash), &[9, 2304, 2, 9]);
    let refused = programmed(&rt, &mut flash);
    same(&rt, &refused, &[memory, Some(FlashError::NotErased)]);
    same(&rt, &counts(&flash), &[36, 2304, 2, 36]);
}
