//! What explorations take of a flash with a journal.
use super::common::swap;
use crate::common::same_at;
use mc_campaign::CampaignExplorer;
use mc_explore::{Cursor, Explorer, Schedule, Start};
use mc_flash::{Grain, JournalFlash, Layout, most_operations};
use std::alloc::Global;
use std::process::Abort;

/// Looks whether a journal has at most so many operations, saved bytes and checkpoints, and so many operations were applied.
fn assert_bounds(rt: &impl Abort, flash: &JournalFlash, most: [u64; 4]) {
    let [entries, saved_bytes, checkpoints, applied] = most;
    let is_short = flash.entries() <= entries && flash.saved_bytes() <= saved_bytes;
    assert!(rt; is_short && flash.marks() <= checkpoints && flash.applied() <= applied);
}

/// How many rows a start has, with at most two cuts, which keep their bounds from before the first to after the last.
fn rows_of(rt: &impl Abort, alloc: Global, start: &Start) -> u32 {
    let mut explorer = Explorer::<JournalFlash>::start(alloc, start, 2).expect(rt, "an explorer");
    assert_bounds(rt, explorer.flash(), [108, 6912, 4, 0]);
    for offset in 0u32..1000 {
        let is_last = explorer.next_row().expect(rt, "a row").is_none();
        assert_bounds(rt, explorer.flash(), [108, 6912, 4, 8436]);
        if is_last {
            return offset;
        }
    }
    1000
}

/// Whether no row comes after the last schedule of two cuts. The bounds are kept on either side of it.
fn is_the_end(rt: &impl Abort, alloc: Global, start: &Start) -> bool {
    let cursor = Cursor::of(start, 2, &Schedule::read("17.0").expect(rt, "a text"));
    let mut explorer = Explorer::<JournalFlash>::resume(alloc, start, 2, &cursor).expect(
        rt,
        "an explorer",
    );
    assert_bounds(rt, explorer.flash(), [108, 6912, 4, 216]);
    let is_the_end = explorer.next_row().expect(rt, "a row").is_none();
    assert_bounds(rt, explorer.flash(), [108, 6912, 4, 216]);
    is_the_end
}

/// Three boots of 36 operations and 2304 saved bytes leave no more in a journal; and four checkpoints, and 38 operations a row.
/// The way to the last schedule takes two boots a cut, and two.
#[test]
fn an_exploration_keeps_its_bounds(rt: HostRuntime) {
    let start = swap(&rt, rt.alloc());
    assert_eq!(rt; rows_of(&rt, rt.alloc(), &start), 222);
    assert!(rt; is_the_end(&rt, rt.alloc(), &start));
}

/// How many campaigns a start has, with at most one cut, which keep their bounds from before the first to after the last.
fn campaigns_of(rt: &impl Abort, alloc: Global, start: &Start) -> u32 {
    let mut explorer = CampaignExplorer::<JournalFlash>::start(alloc, start, 1, false).expect(
        rt,
        "an explorer",
    );
    for offset in 0u32..1000 {
        let applied = 112 * u64::from(offset);
        assert_bounds(rt, explorer.flash(), [144, 9216, 5, applied]);
        if explorer.next_row().expect(rt, "a row").is_none() {
            assert_bounds(rt, explorer.flash(), [144, 9216, 5, 4704]);
            return offset;
        }
    }
    1000
}

/// Four boots leave no more in a journal, and five checkpoints. A row takes 112 operations.
#[test]
fn an_exploration_of_campaigns_keeps_its_bounds(rt: HostRuntime) {
    let start = swap(&rt, rt.alloc());
    assert_eq!(rt; campaigns_of(&rt, rt.alloc(), &start), 42);
}

/// The most operations of a boot, in the worked layout by calls, and in one of units of one byte by units.
static MOST: [([u32; 6], Grain, u64); 2] = [
    ([256, 8, 4, 128, 4, 3], Grain::Call, 36),
    ([64, 1, 4, 32, 4, 3], Grain::Unit, 444),
];

#[test]
fn a_boot_has_no_more_operations(rt: HostRuntime) {
    for (numbers, grain, wanted) in &MOST {
        let [sector, unit, most, chunk, primary, secondary] = *numbers;
        let layout = Layout::new(sector, unit, most, chunk, primary, secondary).expect(
            &rt, "a layout",
        );
        same_at(&rt, numbers, &most_operations(&layout, *grain), wanted);
    }
}
