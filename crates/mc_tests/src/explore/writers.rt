//! Pages over writers that take one byte a call, and fail at each call in turn.
ghost use Rattle.std.specs.Prelude.{◌≤◌};

use super::common::swap;
use mc_campaign::CampaignExplorer;
use mc_explore::{ExploreError, Schedules, Start, Subject, TreeExplorer, write_rows};
use mc_fixtures::{FAULTS, FailingWriter, Failure, Fault};
use mc_flash::SnapFlash;
use std::alloc::Global;
use std::process::Abort;

/// What was reported of a page, of another page after it, and then of the next row: their errors.
type Errors = [Option<ExploreError>; 3];

/// What is reported where a write of a page fails.
static STOPPED: Errors = [
    Some(ExploreError::Write),
    Some(ExploreError::Failed),
    Some(ExploreError::Failed),
];

/// What is reported of the pages of an exploration. The test ends where an allocation failed (`scripts/test/refuse-allocations-of-tests`).
fn errors_of<X: Subject>(
    rt: &impl Abort,
    explorer: &mut TreeExplorer<'_, SnapFlash, X>,
    limit: u32,
    writer: &mut FailingWriter,
) -> Errors
    requires { 1 ≤ limit }
{
    let first = write_rows(explorer, &None, limit, writer).err();
    assert!(rt; first != Some(ExploreError::Memory), "error: Memory");
    let second = write_rows(explorer, &None, limit, writer).err();
    [first, second, explorer.next_before(&None).err()]
}

/// What is explored: whether it is campaigns, the most cuts, and the most rows of a page; and the first two pages of it.
type Explored = (bool, u8, u32, [&'static str; 2]);

/// What is reported of the pages of an exploration of schedules, or of campaigns without a confirmation.
fn errors(
    rt: &impl Abort,
    alloc: Global,
    start: &Start,
    explored: &Explored,
    writer: &mut FailingWriter,
) -> Errors {
    let (of_campaigns, bound, limit, _) = *explored;
    let (bound, limit) = (bound.min(16), limit.max(1));
    if of_campaigns {
        let mut explorer = CampaignExplorer::<SnapFlash>::start(alloc, start, bound, false).expect(
            rt,
            "an explorer",
        );
        errors_of(rt, &mut explorer, limit, writer)
    } else {
        let mut explorer = TreeExplorer::<SnapFlash, Schedules>::start(
            alloc,
            start,
            bound,
            (),
        ).expect(rt, "an explorer");
        errors_of(rt, &mut explorer, limit, writer)
    }
}

/// Looks what is reported of the pages of an exploration over a writer that fails so, and which bytes it took.
fn assert_shown(
    rt: &impl Abort,
    alloc: Global,
    start: &Start,
    explored: &Explored,
    failure: Failure,
    shown: (Errors, &[u8]),
) {
    let mut writer = FailingWriter {
        taken: Vec::with_capacity(alloc, 1024).expect(rt, "memory"),
        failure,
    };
    let errors = errors(rt, alloc, start, explored, &mut writer);
    assert_eq!(rt; (errors, writer.taken.as_slice()), shown, "{failure:?}");
}

/// A writer that never fails.
static NEVER: Failure = Failure {
    calls: usize::MAX,
    fault: Fault::Error,
    lasts: true,
};

/// Writes pages over a writer that fails at each call of the first one in turn, and over one that never does: where it fails a
/// prefix of the page is out, and nothing comes after it.
fn meets_failing_writes(rt: &impl Abort, alloc: Global, start: &Start, explored: &Explored) {
    let [page, next] = explored.3;
    for calls in 0..page.len() {
        let shown = (STOPPED, &page.as_bytes()[..calls]);
        for (fault, lasts) in FAULTS {
            let failure = Failure {
                calls,
                fault,
                lasts,
            };
            assert_shown(rt, alloc, start, explored, failure, shown);
        }
    }
    let pages = format!(in alloc; "{page}{next}").expect(rt, "memory");
    let shown = ([None; 3], pages.as_str().as_bytes());
    assert_shown(rt, alloc, start, explored, NEVER, shown)
}

/// Pages of three rows, of all rows, and of the only row without a cut; pages of two campaigns, and of all that there are without a
/// cut.
static PAGES: [Explored; 5] = [
    (
        false,
        1,
        3,
        [
            "\
- boot test 18 2.0.0+0/80 1.0.0+0/80 revert
0 boot test 18 2.0.0+0/80 1.0.0+0/80 revert
1 boot test 18 2.0.0+0/80 1.0.0+0/80 revert
next mc1:9b07a99687c30f1c748c995c0d4df48a8af881b571e209fd613b03ba09e2b5b7:1:1
",
            "\
2 boot test 18 2.0.0+0/80 1.0.0+0/80 revert
3 boot test 18 2.0.0+0/80 1.0.0+0/80 revert
4 boot test 18 2.0.0+0/80 1.0.0+0/80 revert
next mc1:9b07a99687c30f1c748c995c0d4df48a8af881b571e209fd613b03ba09e2b5b7:1:4
",
        ],
    ),
    (
        false,
        1,
        19,
        [
            "\
- boot test 18 2.0.0+0/80 1.0.0+0/80 revert
0 boot test 18 2.0.0+0/80 1.0.0+0/80 revert
1 boot test 18 2.0.0+0/80 1.0.0+0/80 revert
2 boot test 18 2.0.0+0/80 1.0.0+0/80 revert
3 boot test 18 2.0.0+0/80 1.0.0+0/80 revert
4 boot test 18 2.0.0+0/80 1.0.0+0/80 revert
5 boot test 14 2.0.0+0/80 1.0.0+0/80 revert
6 boot test 14 2.0.0+0/80 1.0.0+0/80 revert
7 boot test 14 2.0.0+0/80 1.0.0+0/80 revert
8 boot test 14 2.0.0+0/80 1.0.0+0/80 revert
9 boot test 9 2.0.0+0/80 1.0.0+0/80 revert
10 boot test 9 2.0.0+0/80 1.0.0+0/80 revert
11 boot test 9 2.0.0+0/80 1.0.0+0/80 revert
12 boot test 9 2.0.0+0/80 1.0.0+0/80 revert
13 boot test 5 2.0.0+0/80 1.0.0+0/80 revert
14 boot test 5 2.0.0+0/80 1.0.0+0/80 revert
15 boot test 5 2.0.0+0/80 1.0.0+0/80 revert
16 boot test 5 2.0.0+0/80 1.0.0+0/80 revert
17 boot test 1 2.0.0+0/80 1.0.0+0/80 revert
next mc1:9b07a99687c30f1c748c995c0d4df48a8af881b571e209fd613b03ba09e2b5b7:1:17
",
            "end\n",
        ],
    ),
    (
        false,
        0,
        2,
        [
            "- boot test 18 2.0.0+0/80 1.0.0+0/80 revert\nend\n",
            "end\n",
        ],
    ),
    (
        true,
        1,
        2,
        [
            "\
- boot test 18 boot revert 23 1.0.0+0/80 2.0.0+0/80 none
1.0 boot test 18 boot revert 23 1.0.0+0/80 2.0.0+0/80 none
next mc3:call:1:leave:9b07a99687c30f1c748c995c0d4df48a8af881b571e209fd613b03ba09e2b5b7:1:1.0
",
            "\
1.1 boot test 18 boot revert 23 1.0.0+0/80 2.0.0+0/80 none
1.2 boot test 18 boot revert 23 1.0.0+0/80 2.0.0+0/80 none
next mc3:call:1:leave:9b07a99687c30f1c748c995c0d4df48a8af881b571e209fd613b03ba09e2b5b7:1:1.2
",
        ],
    ),
    (
        true,
        0,
        2,
        [
            "- boot test 18 boot revert 23 1.0.0+0/80 2.0.0+0/80 none\nend\n",
            "end\n",
        ],
    ),
];

#[test]
fn a_failed_write_ends_an_exploration(rt: HostRuntime) {
    let start = swap(&rt, rt.alloc());
    for explored in &PAGES {
        meets_failing_writes(&rt, rt.alloc(), &start, explored);
    }
}
