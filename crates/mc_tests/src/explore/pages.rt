//! Pages and surveys of one exploration, one after the other; pages that are cut off; and a census.
ghost use Rattle.std.specs.Prelude.{◌≤◌};

use super::common::swap;
use mc_explore::{
    Census, Explorer, Schedule, Schedules, Start, last_row, survey, write_census, write_page,
};
use mc_flash::{JournalFlash, SnapFlash};
use std::alloc::Global;
use std::process::Abort;

/// Two pages of at most so many rows of a start, with at most so many cuts.
pub fn pages_of(rt: &impl Abort, alloc: Global, start: &Start, bound: u8, limit: u32) -> Vec<u8>
    requires bound { bound ≤ 16 }
    requires limit { 1 ≤ limit }
{
    let mut pages = Vec::with_capacity(alloc, 1 << 16).expect(rt, "memory");
    let mut explorer = Explorer::<SnapFlash>::start(alloc, start, bound).expect(rt, "an explorer");
    write_page(&mut explorer, limit, &mut pages).expect(rt, "a page");
    write_page(&mut explorer, limit, &mut pages).expect(rt, "a page");
    pages
}

/// The only row, and what comes after it: the page that it fills, and one with room for more.
static PAGES: [(u32, &str); 2] = [
    (
        1,
        "\
- boot test 18 2.0.0+0/80 1.0.0+0/80 revert
next mc1:9b07a99687c30f1c748c995c0d4df48a8af881b571e209fd613b03ba09e2b5b7:0:-
end
",
    ),
    (
        20,
        "- boot test 18 2.0.0+0/80 1.0.0+0/80 revert\nend\nend\n",
    ),
];

#[test]
fn a_page_goes_on_where_the_last_one_ends(rt: HostRuntime) {
    let start = swap(&rt, rt.alloc());
    for (limit, want) in &PAGES {
        let pages = pages_of(&rt, rt.alloc(), &start, 0, (*limit).max(1));
        assert_eq!(rt; pages.as_slice(), want.as_bytes());
    }
}

/// How many rows of two cuts of a start stand on a page of so many, and how many are counted then; and whether they are all.
fn rows_of(rt: &impl Abort, alloc: Global, start: &Start, limit: u32) -> [(u32, bool); 2]
    requires { 1 ≤ limit }
{
    let mut explorer = Explorer::<JournalFlash>::start(alloc, start, 2).expect(rt, "an explorer");
    let page = survey(&mut explorer, limit).expect(rt, "a tally");
    let left = survey(&mut explorer, 1000).expect(rt, "a tally");
    [
        (page.rows, page.next.is_none()),
        (left.rows, left.next.is_none()),
    ]
}

#[test]
fn a_survey_goes_on_where_its_page_would(rt: HostRuntime) {
    let start = swap(&rt, rt.alloc());
    assert_eq!(rt;
        rows_of(&rt, rt.alloc(), &start, 1000),
        [(222, true), (0, true)]
    );
    assert_eq!(rt;
        rows_of(&rt, rt.alloc(), &start, 200),
        [(200, false), (22, true)]
    );
}

/// Pages that are cut off, first beginnings of the page of a test swap of two small images; and the schedule of the last whole
/// row line, if there is one.
static TORN: [(&[u8], &str); 13] = [
    (b"- boot test 18 2.0.0+0/80 1.0.0+0/80 revert", ""),
    (b"- boot test 18 2.0.0+0/80 1.0.0+0/80 revert\n", "-"),
    (
        b"- boot test 18 2.0.0+0/80 1.0.0+0/80 revert\n0 boot test 18 2.0.0+0/80 1.0.0+0/80 revert\n1 boot test ",
        "0",
    ),
    (
        b"- boot test 18 2.0.0+0/80 1.0.0+0/80 revert\n0 boot test 18 2.0.0+0/80 1.0.0+0/80 revert\n1 boot test 18 2.0.0+0/80 1.0.0+0/80 revert",
        "0",
    ),
    (
        b"- boot test 18 2.0.0+0/80 1.0.0+0/80 revert\n0 boot test 18 2.0.0+0/80 1.0.0+0/80 revert\n1 boot test 18 2.0.0+0/80 1.0.0+0/80 revert\n",
        "1",
    ),
    (b"", ""),
    (b"0.17 boot\nend\n", "0.17"),
    (b"0 boot\nnext mc1:2:17\n", "0"),
    (b"0 \xff\xfe\n\n", "0"),
    (b"0 boot\n17\n 1\n01 boot\n1.\n", "0"),
    (b"0\xff boot\n", ""),
    (b"\n \n", ""),
    (b"0 boot", ""),
];

#[test]
fn a_torn_page_ends_with_its_last_whole_row(rt: HostRuntime) {
    for (torn, want) in TORN {
        let last = match last_row(torn) {
            Some(schedule) => format!(in rt.alloc(); "{schedule}").expect(&rt, "memory"),
            None => String::new(rt.alloc()),
        };
        assert_eq!(rt; last.as_str(), want, "{torn:?}");
    }
}

/// A census with numbers that were cut off.
static CUT_OFF: &str = "\
schedules >=340282366920938463463374607431768211455
boot 340282366920938463463374607431768211454
none 0
panic 1
fault 0
most-ops 7
first-not-boot 0.17
";

#[test]
fn a_number_that_was_cut_off_is_shown_so(rt: HostRuntime) {
    let census = Census {
        schedules: u128::MAX,
        boot: u128::MAX - 1,
        none: 0,
        panic: 1,
        fault: 0,
        most_operations: 7,
        first_not_boot: Some(Schedule::read("0.17").expect(&rt, "a text")),
    };
    let mut shown = Vec::new(rt.alloc());
    write_census::<Schedules, Vec<u8>>(&census, &mut shown).expect(&rt, "a writer");
    assert_eq!(rt; shown.as_slice(), CUT_OFF.as_bytes());
}
