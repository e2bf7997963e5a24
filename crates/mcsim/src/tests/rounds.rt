//! Two rounds of boots: campaigns counted, judged, replayed and traced. The counts are those of the rows of a model that shares no code
//! with this repository.
use super::support::{Table, all_play};

/// A test that is left alone is taken back, and one that confirms itself stays; under cuts between units the first profile can forget to
/// take it back. A campaign that ends where it is not to; parts of the rows; ranges of them; and what is refused of the words.
const COUNTS: &str = "\
$ survey WORKED --kind test IMAGES --rounds 2 --cuts 2 --all-boot --all-right
rows 978; boot 978; none 0; panic 0; fault 0; most-ops 23; end; right 978; first-not-right none
$ survey WORKED --kind test IMAGES --rounds 2 --cuts 1 --confirm --all-right
rows 19; boot 19; none 0; panic 0; fault 0; most-ops 0; end; right 19; first-not-right none
$ survey WORKED --kind test IMAGES --rounds 2 --cuts 1 --grain unit --all-boot --all-right
rows 225; boot 225; none 0; panic 0; fault 0; most-ops 115; end; right 224; first-not-right 2.4; ! mcsim: E76 NotAllRight; exit 1
$ survey WORKED --kind test IMAGES --rounds 2 --cuts 1 --expect-primary 2.0.0
rows 42; boot 42; none 0; panic 0; fault 0; most-ops 23; end; right 0; first-not-right -; ! mcsim: E76 NotAllRight; exit 1
$ survey WORKED --kind test IMAGES --rounds 2 --cuts 1 --limit 19 --all-boot
rows 19; boot 19; none 0; panic 0; fault 0; most-ops 23; next mc3:call:1:leave:START:1:1.17; ! mcsim: E77 NotWhole; exit 1
$ survey WORKED --kind test IMAGES --rounds 2 --cuts 1 --cursor mc3:call:1:leave:START:1:1.17
rows 23; boot 23; none 0; panic 0; fault 0; most-ops 23; end
$ survey WORKED --kind test IMAGES --rounds 2 --cuts 1 --after 1.16 --until 2.1
rows 2; boot 2; none 0; panic 0; fault 0; most-ops 23; end
$ survey WORKED --kind none IMAGES --rounds 2 --cuts 2 --all-right
rows 1; boot 1; none 0; panic 0; fault 0; most-ops 0; end; right 1; first-not-right none
$ census WORKED --kind test IMAGES --rounds 2 --cuts 2 --all-boot --all-right
schedules 978; boot 978; none 0; panic 0; fault 0; most-ops 23; first-not-boot none; right 978; first-not-right none; shortest-not-boot none; shortest-not-right none
$ census WORKED --kind test IMAGES --rounds 2 --cuts 1 --confirm --all-right
schedules 19; boot 19; none 0; panic 0; fault 0; most-ops 0; first-not-boot none; right 19; first-not-right none; shortest-not-boot none; shortest-not-right none
$ census WORKED --kind test IMAGES --rounds 2 --cuts 1 --grain unit --all-boot --all-right
schedules 225; boot 225; none 0; panic 0; fault 0; most-ops 115; first-not-boot none; right 224; first-not-right 2.4; shortest-not-boot none; shortest-not-right 2.4; ! mcsim: E76 NotAllRight; exit 1
$ census WORKED --kind test IMAGES --rounds 2 --cuts 1 --expect-primary 2.0.0
schedules 42; boot 42; none 0; panic 0; fault 0; most-ops 23; first-not-boot none; right 0; first-not-right -; shortest-not-boot none; shortest-not-right -; ! mcsim: E76 NotAllRight; exit 1
$ census WORKED --kind none IMAGES --rounds 2 --cuts 16 --all-right
schedules 1; boot 1; none 0; panic 0; fault 0; most-ops 0; first-not-boot none; right 1; first-not-right none; shortest-not-boot none; shortest-not-right none
$ census WORKED --kind test IMAGES --cuts 1 --confirm
! mcsim: an argument is missing or out of its range; exit 2
$ campaign WORKED --kind test IMAGES --cuts 1 --after 1.17 --until 2.1 --all-boot
2.0 boot test 18 boot revert 23 1.0.0+0/80 2.0.0+0/80 none; end
$ campaign WORKED --kind test IMAGES --cuts 1 --from 2.0 --until 2.1
2.0 boot test 18 boot revert 23 1.0.0+0/80 2.0.0+0/80 none; end
$ campaign WORKED --kind test IMAGES --cuts 1 --limit 1 --expect-secondary none --all-right
- boot test 18 boot revert 23 1.0.0+0/80 2.0.0+0/80 none; next mc3:call:1:leave:START:1:-; right 0; first-not-right -; ! mcsim: E76 NotAllRight; exit 1
$ campaign WORKED --kind test IMAGES --cuts 0 --expect-primary 2 --expect-secondary 2
- boot test 18 boot revert 23 1.0.0+0/80 2.0.0+0/80 none; end; right 0; first-not-right -; ! mcsim: E76 NotAllRight; exit 1
$ campaign WORKED --flash in --cuts 1 --until 1.1 < MOVED
- boot test 9 boot revert 23 1.0.0+0/80 2.0.0+0/80 none; 1.0 boot test 9 boot revert 23 1.0.0+0/80 2.0.0+0/80 none; end
$ campaign WORKED --kind test IMAGES --cuts 1 --after 2.23
! mcsim: E58 CannotOccur; exit 1
$ campaign WORKED --kind test IMAGES --cuts 1 --from 2.23
! mcsim: E58 CannotOccur; exit 1
$ campaign WORKED --kind test IMAGES --cuts 1 --until 9.4
! mcsim: E62 CampaignSyntax; exit 2
$ campaign WORKED --kind test IMAGES --cuts 1 --after 1.0 --cursor mc3:call:1:leave:START:1:-
! mcsim: E73 CursorOptions; exit 2
$ survey WORKED --kind test IMAGES --cuts 1 --confirm
! mcsim: an argument is missing or out of its range; exit 2
$ survey WORKED --flash in --rounds 2 --cuts 1 --all-right < BEGUN
! mcsim: E85 NoExpectation; exit 2
";

/// What both rounds of a campaign come to, and cuts that can't occur, counted over both.
const REPLAYS: &str = "\
$ replay WORKED --kind test IMAGES --rounds 2 --schedule 2.4
round 1; result boot; type test; ops 18; primary SECOND; secondary FIRST; next revert; round 2; result boot; type perm; ops 19; primary FIRST; secondary SECOND; next none
$ replay WORKED --kind test IMAGES --rounds 2 --confirm --schedule 1.9,1.4
round 1; result boot; type test; ops 5; primary SECOND; secondary FIRST; next revert; round 2; result boot; type none; ops 0; primary SECOND; secondary FIRST; next none
$ replay WORKED --kind test IMAGES --rounds 2 --schedule 1.0,1.0,1.0,1.0,1.0,1.0,1.0,1.9,2.0,2.0,2.0,2.0,2.0,2.0,2.0,2.4
round 1; result boot; type test; ops 9; primary SECOND; secondary FIRST; next revert; round 2; result boot; type perm; ops 19; primary FIRST; secondary SECOND; next none
$ replay WORKED --kind test IMAGES --rounds 2 --schedule 1.9,2.12 --at-cut out
round 1; result boot; type test; ops 9; primary SECOND; secondary FIRST; next revert; round 2; result boot; type revert; ops 14; primary FIRST; secondary SECOND; next none
=> 1792:0=second,256=second,976=50000000,984=04,1000=01,1008=MAGIC,1024=first
$ replay WORKED --kind test IMAGES --rounds 2 --schedule 1.9 --out out
round 1; result boot; type test; ops 9; primary SECOND; secondary FIRST; next revert; round 2; result boot; type revert; ops 23; primary FIRST; secondary SECOND; next none
=> 1792:0=first,256=second,880=01,912=01,920=01,976=50000000,984=04,992=01,1000=01,1008=MAGIC,1024=second
$ replay WORKED --kind test IMAGES --rounds 2 --schedule 1.18
! mcsim: E53 CannotOccur at 0; exit 1
$ trace WORKED --kind test IMAGES --rounds 2 --schedule 1.17,2.23
! mcsim: E53 CannotOccur at 1; exit 1
$ sectors WORKED --kind test IMAGES --rounds 2 --end
round 1; primary b0 a0 - *; secondary a0 - -; round 2; primary b0 a0 - *; secondary a0 - -
$ sectors WORKED --kind test IMAGES --rounds 2 --confirm --schedule 1.9 --end
round 1; primary b0 a0 - *; secondary a0 - -; round 2; primary a0 a1 - a3; secondary b0 - -
$ sectors WORKED --kind test IMAGES --rounds 2 --schedule 1.9,2.12
round 1; primary a0 a0 - *; secondary b0 - -; round 2; primary a0 a0 - *; secondary b0 - -
$ trace WORKED --kind test IMAGES --rounds 2 --schedule 1.9,2.4 --from 3 --to 4
round 1
boot 0 test
3 write primary 1008 magic MAGIC
4 erase secondary 2
cut before 9 erase primary 0
boot 1 test
3 write primary 912 entry 4 01ffffffffffffff
4 erase secondary 0
result boot; type test; ops 9; SWAPPED; next revert
round 2
boot 0 revert
3 write secondary 752 magic MAGIC
cut before 4 erase primary 3
boot 1 perm
3 write primary 976 swap-size 50000000ffffffff
4 write primary 1008 magic MAGIC
result boot; type perm; ops 19; KEPT; next none
$ trace WORKED --kind test IMAGES --rounds 2 --confirm --from 17
round 1
boot 0 test
17 write primary 992 copy-done 01ffffffffffffff
result boot; type test; ops 18; SWAPPED; next revert
round 2
boot 0 none
result boot; type none; ops 0; SWAPPED; next none
$ sectors WORKED --kind test IMAGES --rounds 2 --schedule 9.4
! mcsim: E62 CampaignSyntax; exit 2
$ sectors WORKED --kind test IMAGES --confirm
! mcsim: an argument is missing or out of its range; exit 2
";

static TABLES: [Table; 2] = [(COUNTS, &[], "-"), (REPLAYS, &[], "-")];

#[test]
fn counts_and_replays_two_rounds(rt: HostRuntime) {
    all_play(&rt, rt.alloc(), &TABLES)
}
