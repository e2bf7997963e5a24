//! The rows of an explorer, and a census, against the boots of a tree that knows no derived outcome.
ghost use Rattle.std.specs.Prelude.{◌≡◌, ◌≤◌, IfOk, true};
ghost use Rattle.mc_explore.specs.inner.OneRound.{begins, one_round};
ghost use Rattle.mc_walk.specs.Walks.{IsFresh};

use super::common::swap;
use super::plain::Plain;
use mc_explore::{Explorer, Kind, OneRound, Schedules, Start, survey, take_census};
use mc_fixtures::{FIRST_IMAGE, SECOND_IMAGE, worked};
use mc_flash::{Flash, Grain, JournalFlash};
use mc_trailer::{Profile, Rules};
use mc_walk::Walk;
use std::alloc::{AllocError, Global};
use std::process::Abort;

/// A walk from a start through the plain tree, along paths of at most two cuts.
fn plain_walk<'a>(
    alloc: Global,
    start: &'a Start,
) -> Result<Walk<JournalFlash, Plain<'a>>, AllocError>
    ensures fresh { IfOk result (λ walk. IsFresh (one_round (begins walk.flash_tree.boots))
        walk) }
    ensures bound { IfOk result (λ walk. walk.bound ≡ 2) }
{
    let layout = *start.layout();
    // Reading a field gives the prover that it is a layout.
    let _sector = layout.sector();
    let grain = start.rules().grain;
    let (primary, secondary) = (start.primary(), start.secondary());
    let flash = JournalFlash::load(alloc, &layout, grain, primary, secondary, 3)?;
    let boots = OneRound { start };
    let walk = Walk::start(alloc, Plain { boots }, 2, flash)?;
    Ok(walk)
}

/// Whether the rows to come are those of the paths from where a walk stands on, one by one, each with the outcome of its boot.
fn go_along(
    rt: &impl Abort,
    rows: &mut Explorer<'_, JournalFlash>,
    walk: &mut Walk<JournalFlash, Plain<'_>>,
) -> bool
    requires stands { walk.old.stands ≡ true }
    requires small { walk.old.bound ≤ 16 }
{
    for _row in 0..1_000_000_u32 {
        let Some(row) = rows.next_row().expect(rt, "memory") else {
            return false;
        };
        let path = walk.path();
        if row.schedule.cuts() != path.as_slice() {
            return false;
        }
        if row.outcome != walk.summary().outcome {
            return false;
        }
        if !walk.advance().expect(rt, "memory") {
            return rows.next_row().expect(rt, "memory").is_none();
        }
    }
    false
}

/// Whether the rows of at most two cuts of a start are those of the plain tree.
fn has_plain_rows(rt: &impl Abort, alloc: Global, start: &Start) -> bool {
    let mut walk = plain_walk(alloc, start).expect(rt, "memory");
    let _root = walk.begin().expect(rt, "memory");
    let mut rows = Explorer::<JournalFlash>::start(alloc, start, 2).expect(rt, "memory");
    go_along(rt, &mut rows, &mut walk)
}

#[test]
fn rows_are_those_of_the_plain_tree(rt: HostRuntime) {
    for grain in [Grain::Call, Grain::Unit] {
        let rules = Rules {
            grain,
            profile: Profile::One,
        };
        let start = swap(&rt, rt.alloc()).with_rules(rules);
        assert!(rt; has_plain_rows(&rt, rt.alloc(), &start));
    }
}

/// How many schedules of at most two cuts of a start there are, how many of them end with each result, and the greatest number of
/// operations: as an explorer finds them, one by one, and as a census counts them.
fn counts_of(rt: &impl Abort, alloc: Global, start: &Start) -> [[u128; 6]; 2] {
    let mut rows = Explorer::<JournalFlash>::start(alloc, start, 2).expect(rt, "memory");
    let tally = survey(&mut rows, 1_000_000).expect(rt, "a tally");
    let census = take_census::<JournalFlash, Schedules>(alloc, start, 2, ()).expect(rt, "memory");
    [
        [
            u128::from(tally.rows),
            u128::from(tally.boot),
            u128::from(tally.none),
            u128::from(tally.panic),
            u128::from(tally.fault),
            u128::from(tally.most_ops),
        ],
        [
            census.schedules,
            census.boot,
            census.none,
            census.panic,
            census.fault,
            u128::from(census.most_operations),
        ],
    ]
}

#[test]
fn a_census_counts_the_boots_of_the_plain_tree(rt: HostRuntime) {
    let layout = worked().expect(&rt, "a layout");
    for profile in [Profile::One, Profile::Two, Profile::Three] {
        let rules = Rules {
            grain: Grain::Unit,
            profile,
        };
        let (a, b) = (&FIRST_IMAGE, &SECOND_IMAGE);
        let start = Start::from_images(rt.alloc(), &layout, Kind::Revert, a, b).expect(
            &rt, "a start",
        );
        let start = start.with_rules(rules);
        assert!(rt; has_plain_rows(&rt, rt.alloc(), &start));
        let [one_by_one, counted] = counts_of(&rt, rt.alloc(), &start);
        assert_eq!(rt; counted, one_by_one);
    }
}
