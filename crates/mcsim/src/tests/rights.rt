//! What is to be right at the end: `survey` and `census` with expectations, and the whole list in place of a part. The counts are those of
//! the rows of a model that shares no code with this repository.
use super::support::{Table, all_play};

/// Two images, for which the named one is to lie in the primary at the end, and the other in the secondary; a revert under cuts
/// between units, which the first profile can forget; a part of the rows, and none, which are no verdict; a layout that never swaps.
const IMAGES: &str = "\
$ census WORKED --kind test IMAGES --cuts 2 --all-right
schedules 222; boot 222; none 0; panic 0; fault 0; most-ops 18; first-not-boot none; right 222; first-not-right none; shortest-not-boot none; shortest-not-right none
$ census WORKED --kind test IMAGES --cuts 2 --expect-primary 2.0
schedules 222; boot 222; none 0; panic 0; fault 0; most-ops 18; first-not-boot none; right 222; first-not-right none; shortest-not-boot none; shortest-not-right none
$ census WORKED --kind test IMAGES --cuts 2 --expect-primary 1 --all-right --all-boot
schedules 222; boot 222; none 0; panic 0; fault 0; most-ops 18; first-not-boot none; right 0; first-not-right -; shortest-not-boot none; shortest-not-right -; ! mcsim: E76 NotAllRight; exit 1
$ census WORKED --kind revert IMAGES --grain unit --cuts 1 --all-boot --all-right
schedules 116; boot 116; none 0; panic 0; fault 0; most-ops 115; first-not-boot none; right 115; first-not-right 4; shortest-not-boot none; shortest-not-right 4; ! mcsim: E76 NotAllRight; exit 1
$ census WORKED --kind revert IMAGES --grain unit --cuts 2 --all-right
schedules ...first-not-right 0.4; shortest-not-boot none; shortest-not-right 4; ! mcsim: E76 NotAllRight; exit 1
$ census WORKED --kind revert IMAGES --grain unit --profile 2 --cuts 1 --all-right
schedules 116; boot 116; none 0; panic 0; fault 0; most-ops 115; first-not-boot none; right 116; first-not-right none; shortest-not-boot none; shortest-not-right none
$ survey WORKED --kind revert IMAGES --grain unit --cuts 1 --all-right
rows 116; boot 116; none 0; panic 0; fault 0; most-ops 115; end; right 115; first-not-right 4; ! mcsim: E76 NotAllRight; exit 1
$ survey WORKED --kind test IMAGES --cuts 2 --limit 100 --all-right
rows 100; boot 100; none 0; panic 0; fault 0; most-ops 18; next mc1:START:2:5.2; right 100; first-not-right none; ! mcsim: E77 NotWhole; exit 1
$ survey WORKED --kind test IMAGES --cuts 2 --limit 100 --all-boot
rows 100; boot 100; none 0; panic 0; fault 0; most-ops 18; next mc1:START:2:5.2; ! mcsim: E77 NotWhole; exit 1
$ survey WORKED --kind test IMAGES --cuts 1 --after 3 --until 3 --all-boot
rows 0; boot 0; none 0; panic 0; fault 0; most-ops 0; end; ! mcsim: E77 NotWhole; exit 1
$ census TWO --kind test IMAGES --cuts 1 --all-boot
! mcsim: E89 NeverSwaps; exit 2
$ explore TWO --kind test IMAGES --cuts 0 --expect-primary 2
! mcsim: E89 NeverSwaps; exit 2
$ survey TWO --kind test --image-a nofile --image-b nofile --cuts 0 --all-right --verbose
! mcsim: E89 NeverSwaps; mcsim: --max-sectors is 4, --primary 5: the trailer has no room for that many; exit 2
$ census TWO --kind test IMAGES --cuts 0
schedules 1; boot 1...! mcsim: note: --max-sectors 4 is less than --primary 5, so that MCUboot refuses to swap; exit 0
$ survey WORKED --kind test IMAGES --cuts 2 --limit 100 --all --all-boot
rows 222; boot 222; none 0; panic 0; fault 0; most-ops 18; end
$ explore WORKED --kind test IMAGES --cuts 1 --limit 2 --expect-primary 2
- boot test 18 2.0.0+0/80 1.0.0+0/80 revert; 0 boot test 18 2.0.0+0/80 1.0.0+0/80 revert; next mc1:START:1:0; right 2; first-not-right none; ! mcsim: E77 NotWhole; exit 1
$ explore WORKED --kind test IMAGES --cuts 1 --limit 2 --all-boot
- boot test 18 2.0.0+0/80 1.0.0+0/80 revert; 0 boot test 18 2.0.0+0/80 1.0.0+0/80 revert; next mc1:START:1:0; ! mcsim: E77 NotWhole; exit 1
$ explore WORKED --kind none IMAGES --cuts 1 --all --all-right --expect-secondary none
- boot none 0 1.0.0+0/80 2.0.0+0/80 none; end; right 0; first-not-right -; ! mcsim: E76 NotAllRight; exit 1
$ campaign WORKED --kind test IMAGES --cuts 0 --limit 1 --all
- boot test 18 boot revert 23 1.0.0+0/80 2.0.0+0/80 none; end
$ census WORKED --kind test IMAGES --cuts 2 --expect-primary x
! mcsim: E15 Syntax; exit 2
";

/// Flashes: an image alone, which is what is expected, and by its digest; one whose way back is gone; an update that is never
/// installed; rows that do not boot; and what is to be right of a flash is not known.
const FLASHES: &str = "\
$ census WORKED --flash in --cuts 2 --expect-primary e3103e985884e987aaeb3091f107d4ad2ae5ff4720f4c43459c3d0ff3a12650d --expect-secondary none --all-right < 1792:0=first
schedules 1; boot 1; none 0; panic 0; fault 0; most-ops 0; first-not-boot none; right 1; first-not-right none; shortest-not-boot none; shortest-not-right none
$ census WORKED --flash in --cuts 2 --all-boot --expect-primary 2.0.0 --expect-secondary 1.0.0 --all-right < 1792:0=second
schedules 1; boot 1; none 0; panic 0; fault 0; most-ops 0; first-not-boot none; right 0; first-not-right -; shortest-not-boot none; shortest-not-right -; ! mcsim: E76 NotAllRight; exit 1
$ census WORKED --flash in --cuts 2 --all-boot --expect-primary 2.0.0 --expect-secondary 1.0.0 --all-right < 1792:0=first,1776=MAGIC
schedules 1; boot 1; none 0; panic 0; fault 0; most-ops 0; first-not-boot none; right 0; first-not-right -; shortest-not-boot none; shortest-not-right -; ! mcsim: E76 NotAllRight; exit 1
$ survey WORKED --flash in --grain unit --cuts 1 --expect-secondary 2.0.0 --all-boot --all-right < MIXED
! mcsim: E85 NoExpectation; exit 2
$ census WORKED --flash in --cuts 2 --all-right < BEGUN
! mcsim: E85 NoExpectation; exit 2
";

static TABLES: [Table; 2] = [(IMAGES, &[], "-"), (FLASHES, &[], "-")];

#[test]
fn asks_which_images_boot(rt: HostRuntime) {
    all_play(&rt, rt.alloc(), &TABLES)
}
