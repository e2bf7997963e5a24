//! `survey` and `census`, of images and of a flash whose copy-done cannot be written. The numbers are those of a model that shares no
//! code with this repository.
use super::support::{Table, all_play};

/// Tallies.
const SURVEYS: &str = "\
$ survey WORKED --kind test IMAGES --cuts 2
rows 222; boot 222; none 0; panic 0; fault 0; most-ops 18; end
$ survey WORKED --kind test IMAGES --cuts 1 --limit 19
rows 19; boot 19; none 0; panic 0; fault 0; most-ops 18; next mc1:START:1:17
$ survey WORKED --kind test IMAGES --cuts 1 --limit 20 --all-boot
rows 19; boot 19; none 0; panic 0; fault 0; most-ops 18; end
$ survey WORKED --kind test IMAGES --cuts 1 --after 16 --until 18
rows 1; boot 1; none 0; panic 0; fault 0; most-ops 1; end
$ survey WORKED --kind test IMAGES --cuts 1 --from 17
rows 1; boot 1; none 0; panic 0; fault 0; most-ops 1; end
$ survey WORKED --flash in --cuts 2 < BEGUN,976=50000000,984=02,993=00
rows 127; boot 0; none 0; panic 0; fault 127; most-ops 13; end
$ survey WORKED --flash in --cuts 2 --all-boot < BEGUN,976=50000000,984=02,993=00
rows 127; boot 0; none 0; panic 0; fault 127; most-ops 13; end; ! mcsim: E74 NotAllBoot; exit 1
$ survey WORKED --kind none IMAGES --cuts 2 --limit 1000
rows 1; boot 1; none 0; panic 0; fault 0; most-ops 0; end
$ survey WORKED --kind test IMAGES --cuts 2 --limit 100
rows 100; boot 100; none 0; panic 0; fault 0; most-ops 18; next mc1:START:2:5.2
$ survey WORKED --kind test IMAGES --grain unit --cuts 1 --limit 1000
rows 110; boot 110; none 0; panic 0; fault 0; most-ops 109; end
$ survey WORKED --kind test IMAGES --grain unit --profile 2 --cuts 1 --limit 19
rows 19; boot 19; none 0; panic 0; fault 0; most-ops 109; next mc2:unit:2:START:1:17
$ survey WORKED --kind perm IMAGES --cuts 1 --limit 1
rows 1; boot 1; none 0; panic 0; fault 0; most-ops 19; next mc1:c1acc523518e005291cca9b26b70342829592a50f06a98e839aafbfe601fe472:1:-
$ survey WORKED --kind perm IMAGES --cuts 2 --limit 1000
rows 247; boot 247; none 0; panic 0; fault 0; most-ops 19; end
$ survey WORKED --kind perm IMAGES --grain unit --cuts 1 --limit 1000
rows 111; boot 111; none 0; panic 0; fault 0; most-ops 110; end
$ survey WORKED --kind perm IMAGES --grain unit --profile 2 --cuts 1 --limit 1000
rows 111; boot 111; none 0; panic 0; fault 0; most-ops 110; end
$ survey WORKED --kind revert IMAGES --cuts 1 --limit 19
rows 19; boot 19; none 0; panic 0; fault 0; most-ops 23; next mc1:5edff685018cbbd815451fafd7b656a67325e6d209b625e9ef416bcfb3c46295:1:17
$ survey WORKED --kind revert IMAGES --cuts 2 --limit 1000
rows 343; boot 343; none 0; panic 0; fault 0; most-ops 23; end
$ survey WORKED --kind revert IMAGES --grain unit --cuts 1 --limit 1000
rows 116; boot 116; none 0; panic 0; fault 0; most-ops 115; end
$ survey WORKED --kind revert IMAGES --grain unit --profile 2 --cuts 1 --limit 1000
rows 116; boot 116; none 0; panic 0; fault 0; most-ops 115; end
$ survey WORKED --flash in --cuts 0 --limit 1000 < BEGUN,976=50000000,984=02,993=00
rows 1; boot 0; none 0; panic 0; fault 1; most-ops 13; end
$ survey WORKED --flash in --cuts 1 --limit 1000 < BEGUN,976=50000000,984=02,993=00
rows 14; boot 0; none 0; panic 0; fault 14; most-ops 13; end
$ survey WORKED --flash in --grain unit --cuts 1 < MIXED
rows 116; boot 115; none 1; panic 0; fault 0; most-ops 115; end
$ survey WORKED --flash in --grain unit --cuts 1 --all-boot < MIXED
rows 116; boot 115; none 1; panic 0; fault 0; most-ops 115; end; ! mcsim: E74 NotAllBoot; exit 1
";

/// Censuses. The last one is of all schedules of a revert.
const CENSUSES: &str = "\
$ census WORKED --kind test IMAGES --cuts 2 --all-boot
schedules 222; boot 222; none 0; panic 0; fault 0; most-ops 18; first-not-boot none; shortest-not-boot none
$ census WORKED --kind revert IMAGES --cuts 2
schedules 343; boot 343; none 0; panic 0; fault 0; most-ops 23; first-not-boot none; shortest-not-boot none
$ census WORKED --kind none IMAGES --cuts 16
schedules 1; boot 1; none 0; panic 0; fault 0; most-ops 0; first-not-boot none; shortest-not-boot none
$ census WORKED --kind test IMAGES --cuts 17
! mcsim: --cuts takes a number from 0 to 16; exit 2
$ census WORKED --flash in --cuts 2 < BEGUN,976=50000000,984=02,993=00
schedules 127; boot 0; none 0; panic 0; fault 127; most-ops 13; first-not-boot -; shortest-not-boot -
$ census WORKED --flash in --cuts 2 --all-boot < BEGUN,976=50000000,984=02,993=00
schedules 127; boot 0; none 0; panic 0; fault 127; most-ops 13; first-not-boot -; shortest-not-boot -; ! mcsim: E74 NotAllBoot; exit 1
$ census WORKED --kind test IMAGES --cuts 0
schedules 1; boot 1; none 0; panic 0; fault 0; most-ops 18; first-not-boot none; shortest-not-boot none
$ census WORKED --kind test IMAGES --cuts 1
schedules 19; boot 19; none 0; panic 0; fault 0; most-ops 18; first-not-boot none; shortest-not-boot none
$ census WORKED --kind test IMAGES --cuts 3
schedules 2058; boot 2058; none 0; panic 0; fault 0; most-ops 18; first-not-boot none; shortest-not-boot none
$ census WORKED --kind perm IMAGES --cuts 2
schedules 247; boot 247; none 0; panic 0; fault 0; most-ops 19; first-not-boot none; shortest-not-boot none
$ census WORKED --kind test IMAGES --grain unit --cuts 1
schedules 110; boot 110; none 0; panic 0; fault 0; most-ops 109; first-not-boot none; shortest-not-boot none
$ census WORKED --flash in --grain unit --cuts 1 < MIXED
schedules 116; boot 115; none 1; panic 0; fault 0; most-ops 115; first-not-boot 4; shortest-not-boot 4
$ census WORKED --flash in --grain unit --cuts 1 --all-boot < MIXED
schedules 116; boot 115; none 1; panic 0; fault 0; most-ops 115; first-not-boot 4; shortest-not-boot 4; ! mcsim: E74 NotAllBoot; exit 1
$ census WORKED --kind revert IMAGES --cuts 16 --all-boot
schedules ...; first-not-boot none; shortest-not-boot none
";

/// A census.
const STEP: &str = "\
$ census WORKED --kind KIND IMAGES
schedules COUNT
...
";

/// A line has how many schedules there are, and the kind of a start and the options.
const SCHEDULES: &str = "\
7837 test --cuts 2 --grain unit --profile 2
7954 perm --cuts 2 --grain unit --profile 1
8419 revert --cuts 2 --grain unit --profile 1
8534 revert --cuts 2 --grain unit --profile 2
8534 revert --cuts 2 --grain unit --profile 3
";

static TABLES: [Table; 3] = [
    (SURVEYS, &[], "-"),
    (CENSUSES, &[], "-"),
    (STEP, &["COUNT", "KIND"], SCHEDULES),
];

#[test]
fn counts(rt: HostRuntime) {
    all_play(&rt, rt.alloc(), &TABLES)
}
