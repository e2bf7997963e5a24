//! Whether an outcome is predicted for a boot, as though it came after a cut of another one.
use super::*;
use crate::common::{number_of, parts_of, rules_named, same_at};
use mc_boot::outcome_after;
use std::alloc::Global;

/// Whether an outcome is predicted for the second flash's boot, as though it came after a cut of the first one's.
fn goes_on<F: Flash>(rt: &impl Abort, first: &mut F, cut: u32, second: &F, rules: Rules) -> bool {
    let whole = whole_of(rt, first, Rules::PLAIN);
    let mut boot = Boot::cold(first, Rules::PLAIN);
    run(first, &mut boot, cut);
    let next = Boot::cold(second, rules);
    outcome_after(&boot, &whole, &next).is_some()
}

/// A line has a cut of a boot, and the flash that it is of; the rules of another boot, and the flash that that one finds; and
/// whether it goes on.
///
/// The first of them: the second cut is past the opening; a swap for good; nothing was done before the first cut, and there are no
/// operations for the second; more sectors; another grain, and a boot that was begun. Then trailers that say otherwise: before, at
/// and after the erases and the first transfer; before, at and after the second transfer; image-ok would be written; after the
/// last transfer. Then boots that went on: the erases of the secondary's trailer, which were not made; an earlier transfer.
const BOOTS: &str = "\
3 IMAGES call-1 IMAGES true
5 IMAGES call-1 IMAGES false
3 IMAGES call-1 IMAGES,1768=01 false
0 IMAGES call-1 0=ff true
3 IMAGES call-1 0=ff false
5 IMAGES call-1 BEGUN,976=0101,984=02 false
3 IMAGES unit-1 IMAGES false
1 BEGUN,984=02 call-1 IMAGES false
3 IMAGES call-1 BEGUN,984=02,0=01 false
4 IMAGES call-1 BEGUN,984=02,0=01 true
8 IMAGES call-1 BEGUN,984=02,0=01 true
9 IMAGES call-1 BEGUN,984=02,0=01 false
8 IMAGES call-1 BEGUN,984=02,880=01 false
9 IMAGES call-1 BEGUN,984=02,880=01 true
12 IMAGES call-1 BEGUN,984=02,880=01 true
13 IMAGES call-1 BEGUN,984=02,880=01 false
4 IMAGES call-1 BEGUN,984=03,0=01 false
9 IMAGES call-1 BEGUN,984=03,880=01 false
16 IMAGES call-1 BEGUN,984=02,920=01 false
17 IMAGES call-1 BEGUN,984=02,920=01 true
1 BEGUN,984=02,880=01 call-1 BEGUN,984=02,0=01 false
3 BEGUN,984=02,880=01 call-1 BEGUN,984=02,880=01 true
4 BEGUN,984=02,880=01 call-1 BEGUN,984=02,880=01 false
3 BEGUN,984=02,880=01 call-1 BEGUN,984=02,912=01 false
4 BEGUN,984=02,880=01 call-1 BEGUN,984=02,912=01 true
8 BEGUN,984=02,880=01 call-1 BEGUN,984=02,920=01 true
1 BEGUN,984=02,912=01 call-1 BEGUN,984=02,880=01 false
";

/// Whether the boot of some rules from a flash goes on with a boot that was cut, as in `3 IMAGES`.
fn joins(rt: &impl Abort, alloc: Global, cut: &str, rules: &str, found: &str) -> bool {
    let (cut, start) = parts_of(rt, cut, " ");
    let mut first = flash_of(rt, alloc, start);
    let second = flash_of(rt, alloc, found);
    goes_on(
        rt,
        &mut first,
        number_of(rt, cut),
        &second,
        rules_named(rules),
    )
}

#[test]
fn boots_that_go_on_where_another_was_cut(rt: HostRuntime) {
    for line in BOOTS.lines() {
        let (rest, wanted) = line.rsplit_once(' ').expect(&rt, "a row");
        let (rest, second) = rest.rsplit_once(' ').expect(&rt, "a row");
        let (first, rules) = rest.rsplit_once(' ').expect(&rt, "a row");
        let found = joins(&rt, rt.alloc(), first, rules, second);
        same_at(&rt, &line, &found, &(wanted == "true"));
    }
}
