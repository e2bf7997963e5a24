//! `trace`, `sectors`, `frames` and `picture` at the worked layout, and the flashes of starts. The operations are those that a model which shares no
//! code with this repository prints.
use super::support::{Table, all_play};

/// A whole test swap, one that is cut twice, an operation that is refused, and the flash at a cut.
const TRACES: &str = "\
$ trace WORKED --kind test IMAGES
boot 0 test
0 erase primary 3
1 write primary 984 swap-info 02ffffffffffffff
2 write primary 976 swap-size 50000000ffffffff
3 write primary 1008 magic 77c295f360d2ef7f3552500f2cb67980
4 erase secondary 2
5 erase primary 1
6 copy primary 0 to primary 256 length 128
7 copy primary 128 to primary 384 length 128
8 write primary 880 entry 0 01ffffffffffffff
9 erase primary 0
10 copy secondary 0 to primary 0 length 128
11 copy secondary 128 to primary 128 length 128
12 write primary 912 entry 4 01ffffffffffffff
13 erase secondary 0
14 copy primary 256 to secondary 0 length 128
15 copy primary 384 to secondary 128 length 128
16 write primary 920 entry 5 01ffffffffffffff
17 write primary 992 copy-done 01ffffffffffffff
result boot; type test; ops 18; SWAPPED; next revert
$ trace WORKED --kind test IMAGES --schedule 9.4
boot 0 test
0 erase primary 3
1 write primary 984 swap-info 02ffffffffffffff
2 write primary 976 swap-size 50000000ffffffff
3 write primary 1008 magic 77c295f360d2ef7f3552500f2cb67980
4 erase secondary 2
5 erase primary 1
6 copy primary 0 to primary 256 length 128
7 copy primary 128 to primary 384 length 128
8 write primary 880 entry 0 01ffffffffffffff
cut before 9 erase primary 0
boot 1 test
0 erase primary 0
1 copy secondary 0 to primary 0 length 128
2 copy secondary 128 to primary 128 length 128
3 write primary 912 entry 4 01ffffffffffffff
cut before 4 erase secondary 0
boot 2 test
0 erase secondary 0
1 copy primary 256 to secondary 0 length 128
2 copy primary 384 to secondary 128 length 128
3 write primary 920 entry 5 01ffffffffffffff
4 write primary 992 copy-done 01ffffffffffffff
result boot; type test; ops 5; SWAPPED; next revert
$ trace WORKED --kind test IMAGES --schedule 9 --from 8 --to 8
boot 0 test
8 write primary 880 entry 0 01ffffffffffffff
cut before 9 erase primary 0
boot 1 test
8 write primary 992 copy-done 01ffffffffffffff
result boot; type test; ops 9; SWAPPED; next revert
$ trace WORKED --kind test IMAGES --from 17
boot 0 test
17 write primary 992 copy-done 01ffffffffffffff
result boot; type test; ops 18; SWAPPED; next revert
$ trace WORKED --kind test IMAGES --from 9 --to 8
boot 0 test
result boot; type test; ops 18; SWAPPED; next revert
$ trace WORKED --kind test IMAGES --to 0x100000000
! mcsim: --to takes a number from 0 to 4294967295; exit 2
$ trace WORKED --flash in < BEGUN,976=50000000,984=02,920=01,993=00
boot 0 test
0 write primary 992 copy-done 01ffffffffffffff refused
result fault; type test; ops 0; primary none; secondary none; next test
$ trace WORKED --flash in --schedule 0 < BEGUN,976=50000000,984=02,920=01,993=00
! mcsim: E53 CannotOccur at 0; exit 1
$ sectors WORKED --kind test IMAGES --schedule 9.4
primary b0 a0 - *; secondary b0 - -
$ replay WORKED --kind test IMAGES --schedule 0 --at-cut out
result boot; type test; ops 18; SWAPPED; next revert
=> 1792 bytes
$ verify in < out
good FIRST
$ sectors WORKED --kind test IMAGES --schedule 9.4 --words all
primary b0 a0 - t; secondary b0 - -
$ sectors WORKED --kind test IMAGES --schedule 9.4 --end
primary b0 a0 - *; secondary a0 - -
$ sectors WORKED --kind test IMAGES --end --words plain
primary b0 a0 - *; secondary a0 - -
$ sectors WORKED --kind test IMAGES --end --schedule 9.9
! mcsim: E53 CannotOccur at 1; exit 1
$ sectors WORKED --kind test IMAGES
primary a0 - - -; secondary b0 - b2
$ sectors WORKED --kind test IMAGES --schedule 9
primary a0 a0 - *; secondary b0 - -
$ sectors WORKED --kind test IMAGES --schedule 10
primary - a0 - *; secondary b0 - -
$ sectors WORKED --flash in --schedule 1 < MOVED
primary - a1 - a3; secondary b0 - -
$ sectors WORKED --kind test IMAGES --schedule 18
! mcsim: E53 CannotOccur at 0; exit 1
$ replay WORKED --kind test IMAGES --schedule - --at-cut out
result boot; type test; ops 18; SWAPPED; next revert
=> 1792:0=first,1024=second,1776=MAGIC
$ replay WORKED --kind test IMAGES --schedule 0.9 --at-cut out
result boot; type test; ops 9; SWAPPED; next revert
=> MOVED
$ replay WORKED --kind test IMAGES --schedule 0.18 --at-cut out
! mcsim: E53 CannotOccur at 1; exit 1
";

/// How the boot of a test swap begins where each unit is written by itself, worked out by hand; and a revert whose magic is torn, which
/// the second profile takes back.
const UNITS: &str = "\
$ trace WORKED --kind test IMAGES --grain unit
boot 0 test
0 erase primary 3
1 write primary 984 swap-info 02ffffffffffffff
2 write primary 976 swap-size 50000000ffffffff
3 write primary 1008 magic 77c295f360d2ef7f
4 write primary 1016 magic 3552500f2cb67980
5 erase secondary 2
...
$ sectors WORKED --kind test IMAGES --grain unit --schedule 9 --words all
primary a0 a0~ - t; secondary b0 - -
$ sectors WORKED --kind test IMAGES --grain unit --schedule 9
primary a0 * - *; secondary b0 - -
$ trace WORKED --kind revert IMAGES --grain unit --profile 2 --schedule 4 --from 114
boot 0 revert
cut before 4 write secondary 760 magic 3552500f2cb67980
boot 1 revert
114 write primary 992 copy-done 01ffffffffffffff
result boot; type revert; ops 115; SWAPPED; next none
$ sectors WORKED --kind revert IMAGES --grain unit --profile 2 --schedule 4 --end
primary b0 a0 - *; secondary a0 - -
";

/// The flash of each kind of start. Images are placed without the bytes after them, and a flash as it is.
const STARTS: &str = "\
$ replay WORKED --kind none IMAGES --schedule - --at-cut out
result boot; type none; ops 0; KEPT; next none
=> 1792:0=first,1024=second
$ replay WORKED --kind perm IMAGES --schedule - --at-cut out
result boot; type perm; ops 19; SWAPPED; next none
=> 1792:0=first,1024=second,1768=01,1776=MAGIC
$ replay WORKED --kind test --image-a in --image-b second --schedule - --at-cut out < 1024:0=first
result boot; type test; ops 18; SWAPPED; next revert
=> 1792:0=first,1024=second,1776=MAGIC
$ replay WORKED --kind test --image-a first --image-b in --schedule - --at-cut out < 768:0=second
result boot; type test; ops 18; SWAPPED; next revert
=> 1792:0=first,1024=second,1776=MAGIC
$ replay WORKED --flash in --schedule - --at-cut out < 1792:0=zeros,441=first,521=zeros,962=second,1042=counted,1134=zeros,1575=plain
result none; type none; ops 0; primary none; secondary none; next none
=> 1792:0=zeros,441=first,521=zeros,962=second,1042=counted,1134=zeros,1575=plain
";

/// Frames of the same boots: all of a swap that is cut twice, with what a cut at each operation comes to; those of some numbers; of units; of
/// a board, whose sectors go on with one another; of a revert that is forgotten; and of flashes of which nothing, or something else, is
/// expected. Sectors are worked out by hand.
const FRAMES: &str = "\
$ frames WORKED --kind test IMAGES --schedule 9.4
mcsim 0.1.0
layout WORKED
rules --grain call --profile 1
named SECOND
other FIRST
expect-primary a4f848b4db0bbed96a7c7fd25b79a0484fc03fbfc5a5efb662f200b2693923ee
expect-secondary e3103e985884e987aaeb3091f107d4ad2ae5ff4720f4c43459c3d0ff3a12650d
schedule 9.4
boot\tnumber\tcut\toperation\tsector\tprimary\tsecondary\toutcome\tends
boot 0 test 18
0\t0\t-\terase primary 3\tprimary 3\ta0 -x3\tb0 - b2\tboot test 18 2.0.0+0/80 1.0.0+0/80 revert\tright
0\t1\t-\twrite primary 984 swap-info 02ffffffffffffff\tprimary 3\ta0 -x3\tb0 - b2\tboot test 18 2.0.0+0/80 1.0.0+0/80 revert\tright
0\t2\t-\twrite primary 976 swap-size 50000000ffffffff\tprimary 3\ta0 -x2 t\tb0 - b2\tboot test 18 2.0.0+0/80 1.0.0+0/80 revert\tright
0\t3\t-\twrite primary 1008 magic MAGIC\tprimary 3\ta0 -x2 t\tb0 - b2\tboot test 18 2.0.0+0/80 1.0.0+0/80 revert\tright
0\t4\t-\terase secondary 2\tsecondary 2\ta0 -x2 t\tb0 - b2\tboot test 18 2.0.0+0/80 1.0.0+0/80 revert\tright
0\t5\t-\terase primary 1\tprimary 1\ta0 -x2 t\tb0 -x2\tboot test 14 2.0.0+0/80 1.0.0+0/80 revert\tright
0\t6\t-\tcopy primary 0 to primary 256 length 128\tprimary 1\ta0 -x2 t\tb0 -x2\tboot test 14 2.0.0+0/80 1.0.0+0/80 revert\tright
0\t7\t-\tcopy primary 128 to primary 384 length 128\tprimary 1\ta0x2 - t\tb0 -x2\tboot test 14 2.0.0+0/80 1.0.0+0/80 revert\tright
0\t8\t-\twrite primary 880 entry 0 01ffffffffffffff\tprimary 3\ta0x2 - t\tb0 -x2\tboot test 14 2.0.0+0/80 1.0.0+0/80 revert\tright
0\t9\tcut\terase primary 0\tprimary 0\ta0x2 - t\tb0 -x2\tboot test 9 2.0.0+0/80 1.0.0+0/80 revert\tright
boot 1 test 9
1\t0\t-\terase primary 0\tprimary 0\ta0x2 - t\tb0 -x2\tboot test 9 2.0.0+0/80 1.0.0+0/80 revert\tright
1\t1\t-\tcopy secondary 0 to primary 0 length 128\tprimary 0\t- a0 - t\tb0 -x2\tboot test 9 2.0.0+0/80 1.0.0+0/80 revert\tright
1\t2\t-\tcopy secondary 128 to primary 128 length 128\tprimary 0\tb0 a0 - t\tb0 -x2\tboot test 9 2.0.0+0/80 1.0.0+0/80 revert\tright
1\t3\t-\twrite primary 912 entry 4 01ffffffffffffff\tprimary 3\tb0 a0 - t\tb0 -x2\tboot test 9 2.0.0+0/80 1.0.0+0/80 revert\tright
1\t4\tcut\terase secondary 0\tsecondary 0\tb0 a0 - t\tb0 -x2\tboot test 5 2.0.0+0/80 1.0.0+0/80 revert\tright
boot 2 test 5
2\t0\t-\terase secondary 0\tsecondary 0\tb0 a0 - t\tb0 -x2\tboot test 5 2.0.0+0/80 1.0.0+0/80 revert\tright
2\t1\t-\tcopy primary 256 to secondary 0 length 128\tsecondary 0\tb0 a0 - t\t-x3\tboot test 5 2.0.0+0/80 1.0.0+0/80 revert\tright
2\t2\t-\tcopy primary 384 to secondary 128 length 128\tsecondary 0\tb0 a0 - t\ta0 -x2\tboot test 5 2.0.0+0/80 1.0.0+0/80 revert\tright
2\t3\t-\twrite primary 920 entry 5 01ffffffffffffff\tprimary 3\tb0 a0 - t\ta0 -x2\tboot test 5 2.0.0+0/80 1.0.0+0/80 revert\tright
2\t4\t-\twrite primary 992 copy-done 01ffffffffffffff\tprimary 3\tb0 a0 - t\ta0 -x2\tboot test 1 2.0.0+0/80 1.0.0+0/80 revert\tright
result boot; type test; ops 5; SWAPPED; next revert
ends right
$ frames WORKED --kind test IMAGES --schedule 9.4 --from 9 --to 9
...
boot 0 test 18
0\t9\tcut\terase primary 0\tprimary 0\ta0x2 - t\tb0 -x2\tboot test 9 2.0.0+0/80 1.0.0+0/80 revert\tright
boot 1 test 9
boot 2 test 5
result boot; type test; ops 5; SWAPPED; next revert
ends right
$ frames WORKED --kind test IMAGES --grain unit --schedule 9 --to 9
...
0\t9\tcut\tcopy primary 16 to primary 272 length 8\tprimary 1\ta0 a0~ - t\tb0 -x2\t...
ends right
$ frames BOARD --kind test IMAGES --to 0
...
0\t0\t-\terase primary 117\tprimary 117\ta0 -x117\tb0 -x115 b116\t...
ends right
$ frames WORKED --kind revert IMAGES --grain unit --schedule 4 --to 0
...
result boot; type none; ops 0; KEPT; next none
ends wrong
$ frames WORKED --flash in < BEGUN,976=50000000,984=02,920=01,993=00
...
start ...
result fault; type test; ops 0; primary none; secondary none; next test
ends no-boot
$ frames WORKED --kind test IMAGES --expect-secondary none --to 0
...
expect-secondary none
schedule -...
ends wrong
$ frames WORKED --kind test IMAGES --schedule 9.9
! mcsim: E53 CannotOccur at 1; exit 1
$ frames WORKED --kind test IMAGES --expect-primary x
! mcsim: E15 Syntax; exit 2
";

/// Pages of the same: what all schedules come to, a row at a cut, the numbers and the outcome; half a copy; a board; and what is refused.
const PAGES: &str = "\
$ picture WORKED --kind test IMAGES --schedule 9.4
...<div class=\"r e c\"><b>9</b><i class=\"a x\" style=\"flex:1\">a0</i><i class=\"a\" style=\"flex:1\">a0</i><i class=\"n\" style=\"flex:1\">-</i>\
<i class=\"t\" style=\"flex:1\">t</i><u></u><i class=\"b\" style=\"flex:1\">b0</i><i class=\"n\" style=\"flex:1\">-</i><i class=\"n\" style=\"flex:1\">-</i>\
<span>erase primary 0</span><em class=\"y\">boot test 9 2.0.0+0/80 1.0.0+0/80 revert</em></div>
<h2>boot 1 test 9</h2>
<div class=\"r s\"><b></b><i style=\"flex:4\">primary</i><u></u><i style=\"flex:3\">secondary</i></div>
<div class=\"r e\"><b>0</b>...<pre class=\"y\">result boot; type test; ops 5; SWAPPED; next revert
</pre>
</html>
$ picture WORKED --kind test IMAGES
...<pre class=\"y\">right 44166610515609
first-not-right none
schedules 44166610515609
boot 44166610515609
none 0...<pre class=\"y\">result boot; type test; ops 18; SWAPPED; next revert
</pre>
</html>
$ picture WORKED --kind test IMAGES --schedule 9.4 --from 9 --to 9
...expect-secondary e3103e985884e987aaeb3091f107d4ad2ae5ff4720f4c43459c3d0ff3a12650d
schedule 9.4
</pre>...
</html>
$ picture WIDE --kind test IMAGES --grain unit --verbose
! mcsim: E91 LargePicture; mcsim: give --from and --to, with at most 20000 operations between them; exit 2
$ picture WORKED --kind test IMAGES --schedule 9.9
! mcsim: E53 CannotOccur at 1; exit 1
$ picture WORKED --kind test IMAGES --expect-primary x
! mcsim: E15 Syntax; exit 2
$ picture WORKED --kind test IMAGES --grain unit --schedule 9
...<div class=\"r c\"><b>9</b><i class=\"a\" style=\"flex:1\">a0</i><i class=\"a h x\" style=\"flex:1\">a0~</i><i class=\"n\" style=\"flex:1\">-</i>...
</html>
$ picture BOARD --kind test IMAGES
...<div class=\"r e\"><b>0</b><i class=\"a\" style=\"flex:1\">a0</i><i class=\"n\" style=\"flex:116\">-x116</i>\
<i class=\"n x\" style=\"flex:1\">-</i><u></u><i class=\"b\" style=\"flex:1\">b0</i><i class=\"n\" style=\"flex:115\">-x115</i>\
<i class=\"b\" style=\"flex:1\">b116</i><span>erase primary 117</span>...
</html>
$ picture WORKED --flash in < BEGUN,976=50000000,984=02,920=01,993=00
...<pre class=\"u\">right 0
first-not-right -
schedules 1
boot 0
none 0
panic 0
fault 1...<h2>boot 0 test 0</h2>
<div class=\"r s\"><b></b><i style=\"flex:4\">primary</i><u></u><i style=\"flex:3\">secondary</i></div>
<h2>outcome</h2>
<pre class=\"z\">result fault; type test; ops 0; primary none; secondary none; next test
</pre>
</html>
$ picture WORKED --kind revert IMAGES --grain unit --schedule 4
...<pre class=\"u\">right 801533844734458121087621385
first-not-right 0.0.0.0.0.0.0.0.0.0.0.0.0.0.0.4
schedules 801533844734458122519277150
boot 801533844734458122519277150
none 0...<pre class=\"w\">result boot; type none; ops 0; KEPT; next none
</pre>
</html>
$ picture WORKED --kind revert IMAGES --grain unit --profile 2 --schedule 4
...<pre class=\"y\">right 825245368244644748302168377
first-not-right none...<pre class=\"y\">result boot; type revert; ops 115; SWAPPED; next none
</pre>
</html>
$ picture WORKED --kind perm IMAGES --torn
...</em></div>
<pre class=\"t\">5 magic=good,image-ok=unset boot test 18 2.0.0+0/80 1.0.0+0/80 revert rest
5 magic=good,image-ok=bad boot none 0 1.0.0+0/80 2.0.0+0/80 none busy
</pre>
<div class=\"r e\"><b>6</b>...
</html>
$ picture WORKED --kind perm IMAGES --torn --erase gentle --profile 3 --from 5 --to 5
...</em></div>
<pre class=\"t\">5 magic=good,image-ok=unset boot test 18 2.0.0+0/80 1.0.0+0/80 revert rest
</pre>
<h2>outcome</h2>...
</html>
$ picture WORKED --kind test IMAGES --torn --schedule 9 --from 8
...</em></div>
<pre class=\"t\">8 copy-done=bad boot none 0 2.0.0+0/80 1.0.0+0/80 none rest
</pre>
<h2>outcome</h2>...
</html>
$ picture WORKED --kind perm IMAGES --erase rough
! mcsim: an argument is missing or out of its range; exit 2
$ picture WORKED --kind test IMAGES --expect-secondary none
...<pre class=\"u\">right 0
first-not-right -...<pre class=\"w\">result boot; type test; ops 18; SWAPPED; next revert
</pre>
</html>
$ picture WORKED --kind test IMAGES --expect-primary 1.0.0+0
...<pre class=\"u\">right 0
first-not-right -...<pre class=\"w\">result boot; type test; ops 18; SWAPPED; next revert
</pre>
</html>
";

static TABLES: [Table; 5] = [
    (TRACES, &[], "-"),
    (UNITS, &[], "-"),
    (FRAMES, &[], "-"),
    (PAGES, &[], "-"),
    (STARTS, &[], "-"),
];

#[test]
fn shows_operations_and_flashes(rt: HostRuntime) {
    all_play(&rt, rt.alloc(), &TABLES)
}
