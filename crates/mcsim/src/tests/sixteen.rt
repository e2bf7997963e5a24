//! Sixteen cuts, at the worked layout and at one of the largest sectors with the longest status area. How many schedules there are
//! is summed up by hand from how many operations the boot after a cut makes; the digest is of the bytes that define the start.
use super::support::{Table, all_play};

/// Boots after sixteen cuts, the flash and its sectors at the last of them, and all schedules. The boot of a swap for a test makes
/// 15 operations where a sector is one chunk. After the first 8 of them 7 are left, and after 3 of these 4.
const SCHEDULES: &str = "\
$ replay WORKED --kind test IMAGES --schedule ZEROS --at-cut out
result boot; type test; ops 18; SWAPPED; next revert
=> 1792:0=first,1024=second,1776=MAGIC
$ replay WIDE --kind test IMAGES --schedule ZEROS --at-cut out
result boot; type test; ops 15; SWAPPED; next revert
=> 458752:0=first,262144=second,458736=MAGIC
$ replay WIDE --kind test IMAGES --schedule 8.3.0.0.0.0.0.0.0.0.0.0.0.0.0.0
result boot; type test; ops 4; SWAPPED; next revert
$ sectors WORKED --kind test IMAGES --schedule ZEROS
primary a0 - - -; secondary b0 - b2
$ sectors WIDE --kind test IMAGES --schedule ZEROS
primary a0 - - -; secondary b0 - b2
$ census WORKED --kind test IMAGES --cuts 16
schedules 44166610515609; boot 44166610515609; none 0; panic 0; fault 0; most-ops 18; first-not-boot none; shortest-not-boot none
$ census WIDE --kind test IMAGES --cuts 16
schedules 5600643605049; boot 5600643605049; none 0; panic 0; fault 0; most-ops 15; first-not-boot none; shortest-not-boot none
$ explore WIDE --kind test IMAGES --cuts 16 --limit 1 --cursor mc1:WIDE-START:16:ZEROS
FIFTEEN.1 boot test 15 2.0.0+0/80 1.0.0+0/80 revert; next mc1:WIDE-START:16:FIFTEEN.1
$ explore WORKED --kind test IMAGES --grain unit --profile 2 --cuts 16 --limit 1 --cursor mc2:unit:2:START:16:ZEROS
FIFTEEN.1 boot test 109 2.0.0+0/80 1.0.0+0/80 revert; next mc2:unit:2:START:16:FIFTEEN.1
";

/// Campaigns of sixteen cuts. A test that was left alone is taken back by 20 operations where a sector is one chunk.
const CAMPAIGNS: &str = "\
$ campaign WORKED --kind test IMAGES --cuts 16 --limit 2
- boot test 18 boot revert 23 1.0.0+0/80 2.0.0+0/80 none; 1.0 boot test 18 boot revert 23 1.0.0+0/80 2.0.0+0/80 none; next mc3:call:1:leave:START:16:1.0
$ campaign WORKED --kind test IMAGES --cuts 16 --limit 1 --cursor mc3:call:1:leave:START:16:ROUNDS,2.0
ROUNDS,2.1 boot test 18 boot revert 23 1.0.0+0/80 2.0.0+0/80 none; next mc3:call:1:leave:START:16:ROUNDS,2.1
$ campaign WIDE --kind test IMAGES --cuts 16 --limit 1 --cursor mc3:call:1:leave:WIDE-START:16:ROUNDS,2.0
ROUNDS,2.1 boot test 15 boot revert 20 1.0.0+0/80 2.0.0+0/80 none; next mc3:call:1:leave:WIDE-START:16:ROUNDS,2.1
$ campaign WIDE --kind test IMAGES --confirm --cuts 16 --limit 1 --cursor mc3:call:1:confirm:WIDE-START:16:ROUND-ONE,1.0
ROUND-ONE,1.1 boot test 15 boot none 0 2.0.0+0/80 1.0.0+0/80 none; next mc3:call:1:confirm:WIDE-START:16:ROUND-ONE,1.1
$ campaign WORKED --kind test IMAGES --cuts 16 --limit 1 --cursor mc3:call:1:leave:START:16:ROUND-ONE,1.17
ROUND-ONE,2.0 boot test 18 boot revert 23 1.0.0+0/80 2.0.0+0/80 none; next mc3:call:1:leave:START:16:ROUND-ONE,2.0
";

/// The longest texts of schedules and cursors are read, and then do not serve.
const LONGEST: &str = "\
$ replay WORKED --kind test IMAGES --schedule GREATEST
! mcsim: E53 CannotOccur at 0; exit 1
$ explore WORKED --kind test IMAGES --cuts 16 --after GREATEST
! mcsim: E58 CannotOccur; exit 1
$ explore WORKED --kind test IMAGES --cuts 16 --cursor mc1:START:16:GREATEST
! mcsim: E58 CannotOccur; exit 1
$ explore WORKED --kind test IMAGES --grain unit --profile 2 --cuts 16 --cursor mc2:unit:2:START:16:GREATEST
! mcsim: E58 CannotOccur; exit 1
$ campaign WORKED --kind test IMAGES --grain unit --profile 2 --confirm --cuts 16 --cursor mc3:unit:2:confirm:START:16:GREATEST-ROUND
! mcsim: E58 CannotOccur; exit 1
";

/// Sixteen cuts, each but the first of a boot that has only the last operation left; and sixteen before the first operation.
const TRACES: &str = "\
$ trace WORKED --kind test IMAGES --schedule 17.FIFTEEN
boot 0 test
0 erase primary 3
1 write primary 984 swap-info 02ffffffffffffff
2 write primary 976 swap-size 50000000ffffffff
3 write primary 1008 magic 77c295f360d2ef7f3552500f2cb67980
4 erase secondary 2
5 erase primary 1
6 copy primary 0 to primary 256 length 128
7 copy primary 128 to primary 384 length 128
8 write primary 880 entry 0 01ffffffffffffff
9 erase primary 0
10 copy secondary 0 to primary 0 length 128
11 copy secondary 128 to primary 128 length 128
12 write primary 912 entry 4 01ffffffffffffff
13 erase secondary 0
14 copy primary 256 to secondary 0 length 128
15 copy primary 384 to secondary 128 length 128
16 write primary 920 entry 5 01ffffffffffffff
cut before 17 FINISH
boot 1 test; cut before 0 FINISH
boot 2 test; cut before 0 FINISH
boot 3 test; cut before 0 FINISH
boot 4 test; cut before 0 FINISH
boot 5 test; cut before 0 FINISH
boot 6 test; cut before 0 FINISH
boot 7 test; cut before 0 FINISH
boot 8 test; cut before 0 FINISH
boot 9 test; cut before 0 FINISH
boot 10 test; cut before 0 FINISH
boot 11 test; cut before 0 FINISH
boot 12 test; cut before 0 FINISH
boot 13 test; cut before 0 FINISH
boot 14 test; cut before 0 FINISH
boot 15 test; cut before 0 FINISH
boot 16 test; 0 FINISH
result boot; type test; ops 1; SWAPPED; next revert
$ trace WIDE --kind test IMAGES --schedule ZEROS
boot 0 test; cut before 0 erase primary 3
boot 1 test; cut before 0 erase primary 3
boot 2 test; cut before 0 erase primary 3
boot 3 test; cut before 0 erase primary 3
boot 4 test; cut before 0 erase primary 3
boot 5 test; cut before 0 erase primary 3
boot 6 test; cut before 0 erase primary 3
boot 7 test; cut before 0 erase primary 3
boot 8 test; cut before 0 erase primary 3
boot 9 test; cut before 0 erase primary 3
boot 10 test; cut before 0 erase primary 3
boot 11 test; cut before 0 erase primary 3
boot 12 test; cut before 0 erase primary 3
boot 13 test; cut before 0 erase primary 3
boot 14 test; cut before 0 erase primary 3
boot 15 test; cut before 0 erase primary 3
boot 16 test
0 erase primary 3
1 write primary 262104 swap-info 02ffffffffffffff
2 write primary 262096 swap-size 50000000ffffffff
3 write primary 262128 magic 77c295f360d2ef7f3552500f2cb67980
4 erase secondary 2
5 erase primary 1
6 copy primary 0 to primary 65536 length 65536
7 write primary 237520 entry 0 01ffffffffffffff
8 erase primary 0
9 copy secondary 0 to primary 0 length 65536
10 write primary 245712 entry 1024 01ffffffffffffff
11 erase secondary 0
12 copy primary 65536 to secondary 0 length 65536
13 write primary 245720 entry 1025 01ffffffffffffff
14 write primary 262112 copy-done 01ffffffffffffff
result boot; type test; ops 15; SWAPPED; next revert
";

static TABLES: [Table; 4] = [
    (SCHEDULES, &[], "-"),
    (CAMPAIGNS, &[], "-"),
    (LONGEST, &[], "-"),
    (TRACES, &[], "-"),
];

#[test]
fn sixteen_cuts_are_gone_through(rt: HostRuntime) {
    all_play(&rt, rt.alloc(), &TABLES)
}
