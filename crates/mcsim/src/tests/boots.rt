//! `boot` and `replay` at the worked layout.
use super::support::{Table, all_play};

/// Swaps that are cut, whole swaps between which each unit is written by itself, and a revert whose magic in the secondary is
/// cut in half: in the first profile no row of the tables holds, and it is lost.
const SWAPS: &str = "\
$ boot WORKED --kind test IMAGES --out out
result boot; type test; ops 18; SWAPPED; next revert
=> 1792 bytes
$ type WORKED --flash in < out
primary magic=good image-ok=unset copy-done=set swap-info=0x02 swap-size=80
secondary UNSET
resume no
table revert
$ boot WORKED --kind test IMAGES --out out
result boot; type test; ops 18; SWAPPED; next revert
=> 1792 bytes
$ boot WORKED --flash in < out
result boot; type revert; ops 23; KEPT; next none
$ replay WORKED --kind test IMAGES --schedule -
result boot; type test; ops 18; SWAPPED; next revert
$ replay WORKED --kind test IMAGES --schedule 9.4
result boot; type test; ops 5; SWAPPED; next revert
$ replay WORKED --kind test IMAGES --schedule 9.8
result boot; type test; ops 1; SWAPPED; next revert
$ replay WORKED --kind test IMAGES --schedule 0.0.0.0.0.0.0.0.0.0.0.0.0.0.0.0
result boot; type test; ops 18; SWAPPED; next revert
$ boot WORKED --kind none IMAGES
result boot; type none; ops 0; KEPT; next none
$ boot WORKED --kind test IMAGES --grain unit --profile 1
result boot; type test; ops 109; SWAPPED; next revert
$ boot WORKED --kind test IMAGES --grain unit --profile 2
result boot; type test; ops 109; SWAPPED; next revert
$ boot WORKED --kind test IMAGES --grain unit --profile 3
result boot; type test; ops 109; SWAPPED; next revert
$ boot WORKED --kind perm IMAGES --grain unit --profile 1
result boot; type perm; ops 110; SWAPPED; next none
$ boot WORKED --kind perm IMAGES --grain unit --profile 2
result boot; type perm; ops 110; SWAPPED; next none
$ boot WORKED --kind revert IMAGES --grain unit --profile 1
result boot; type revert; ops 115; SWAPPED; next none
$ boot WORKED --kind revert IMAGES --grain unit --profile 2
result boot; type revert; ops 115; SWAPPED; next none
$ replay WORKED --kind perm IMAGES --grain unit --profile 1 --schedule 5
result boot; type perm; ops 110; SWAPPED; next none
$ replay WORKED --kind perm IMAGES --grain unit --profile 2 --schedule 5
result boot; type perm; ops 110; SWAPPED; next none
$ boot SMALL --kind test IMAGES --grain unit
result boot; type test; ops 420; SWAPPED; next revert
$ replay WORKED --kind revert IMAGES --grain unit --schedule 4
result boot; type none; ops 0; KEPT; next none
$ replay WORKED --kind revert IMAGES --grain unit --schedule 4 --profile 1
result boot; type none; ops 0; KEPT; next none
$ replay WORKED --kind revert IMAGES --grain unit --schedule 4 --profile 2
result boot; type revert; ops 115; SWAPPED; next none
$ replay WORKED --kind revert IMAGES --grain unit --schedule 4 --profile 3
result boot; type revert; ops 115; SWAPPED; next none
$ replay WORKED --kind test IMAGES --schedule 4.4.4.4.4
result boot; type test; ops 18; SWAPPED; next revert
$ replay WORKED --kind test IMAGES --schedule 3.3.3.3.3.3.3.3.3.3.3.3.3.3.3.3
result boot; type test; ops 18; SWAPPED; next revert
";

/// Schedules that are refused. Each is checked before a file is opened, and after the source.
const REFUSED: &str = "\
$ replay WORKED --kind test IMAGES --schedule 18
! mcsim: E53 CannotOccur at 0; exit 1
$ replay WORKED --kind test IMAGES --schedule 0.18
! mcsim: E53 CannotOccur at 1; exit 1
$ replay WORKED --kind test IMAGES --schedule 9.9
! mcsim: E53 CannotOccur at 1; exit 1
$ replay WORKED --kind test IMAGES --schedule 0.0.0.0.0.0.0.0.0.0.0.0.0.0.0.0.0
! mcsim: E60 ScheduleSyntax; exit 2
$ replay WORKED --flash missing --schedule 01
! mcsim: E60 ScheduleSyntax; exit 2
$ replay WORKED --kind test --schedule 01
! mcsim: E70 SourceOptions; exit 2
$ replay WORKED --kind test IMAGES --schedule - --out missing
! mcsim: E71 Open; exit 3
$ replay WORKED --kind test IMAGES --schedule 5.9.9.1
! mcsim: E53 CannotOccur at 2; exit 1
";

/// Flashes that no swap left: erased, only asked for a swap, begun with no size, with no type, with an entry of the last
/// transfer and of none; the first image is lost, and the second does not fit, with its 513 bytes: its header, 441 zeros and
/// the entry of its digest. Then an upgrade that is under way, whose secondary has a good magic and a bad image-ok, as the first erase of
/// its trailer can leave it where power fails within it: the third profile alone goes on with it.
const FLASHES: &str = "\
$ boot WORKED --flash in < 1792:0=ff
result none; type none; ops 0; primary none; secondary none; next none
$ boot WORKED --flash in < 1792:1776=MAGIC
result none; type fail; ops 0; primary none; secondary none; next fail
$ boot WORKED --flash in < BEGUN,984=02
result panic; type panic; ops 0; primary none; secondary none; next panic
$ boot WORKED --flash in < BEGUN
result none; type none; ops 0; primary none; secondary none; next none
$ boot WORKED --flash in < BEGUN,984=02,993=00,976=50000000,920=01
result fault; type test; ops 0; primary none; secondary none; next test
$ boot WORKED --flash in < BEGUN,984=02,993=00,976=50000000,888=01
result panic; type panic; ops 0; primary none; secondary none; next panic
$ replay WORKED --flash in --schedule 0 < BEGUN,984=02,993=00,976=50000000,920=01
! mcsim: E53 CannotOccur at 0; exit 1
$ boot WORKED --flash in < 1792:1024=second,1776=MAGIC
result boot; type test; ops 18; primary SECOND; secondary none; next fail
$ boot WORKED --flash in < 1792:0=first,1024=second,1036=b901,1056=zeros,1497=0769280010002000,1505=LARGER,1776=MAGIC
result boot; type fail; ops 0; primary FIRST; secondary 2.0.0+0 513 LARGER; next fail
$ boot WORKED --flash in --profile 1 < 1792:0=first,1024=second,976=50000000,984=03,1000=01,1008=MAGIC,1768=03,1776=MAGIC
result boot; type none; ops 0; KEPT; next none
$ boot WORKED --flash in --profile 2 < 1792:0=first,1024=second,976=50000000,984=03,1000=01,1008=MAGIC,1768=03,1776=MAGIC
result boot; type none; ops 0; KEPT; next none
$ boot WORKED --flash in --profile 3 < 1792:0=first,1024=second,976=50000000,984=03,1000=01,1008=MAGIC,1768=03,1776=MAGIC
result boot; type perm; ops 14; SWAPPED; next none
$ type WORKED --flash in --profile 3 < 1792:976=50000000,984=03,1000=01,1008=MAGIC,1768=03,1776=MAGIC
primary magic=good image-ok=set copy-done=unset swap-info=0x03 swap-size=80
secondary magic=good image-ok=bad copy-done=unset swap-info=0xff swap-size=4294967295
resume yes; table none
$ type WORKED --flash in --profile 2 < 1792:976=50000000,984=03,1000=01,1008=MAGIC,1768=03,1776=MAGIC
primary magic=good image-ok=set copy-done=unset swap-info=0x03 swap-size=80
secondary magic=good image-ok=bad copy-done=unset swap-info=0xff swap-size=4294967295
resume no; table none
";

/// A line has the kind of a start and the type of the last boot that is printed; the type of the boot after a cut of the
/// first boot, how many operations it makes, and that cut.
const CUTS: &str = "\
test revert test 18 0
test revert test 18 1
test revert test 18 2
test revert test 18 3
test revert test 18 4
test revert test 14 5
test revert test 14 6
test revert test 14 7
test revert test 14 8
test revert test 9 9
test revert test 9 10
test revert test 9 11
test revert test 9 12
test revert test 5 13
test revert test 5 14
test revert test 5 15
test revert test 5 16
test revert test 1 17
perm none perm 19 0
perm none perm 19 1
perm none perm 19 2
perm none perm 19 3
perm none perm 19 4
perm none perm 19 5
perm none perm 14 6
perm none perm 14 7
perm none perm 14 8
perm none perm 14 9
perm none perm 9 10
perm none perm 9 11
perm none perm 9 12
perm none perm 9 13
perm none perm 5 14
perm none perm 5 15
perm none perm 5 16
perm none perm 5 17
perm none perm 1 18
revert none revert 23 0
revert none revert 23 1
revert none revert 23 2
revert none revert 23 3
revert none perm 19 4
revert none perm 19 5
revert none perm 19 6
revert none perm 19 7
revert none perm 19 8
revert none perm 19 9
revert none revert 14 10
revert none revert 14 11
revert none revert 14 12
revert none revert 14 13
revert none revert 9 14
revert none revert 9 15
revert none revert 9 16
revert none revert 9 17
revert none revert 5 18
revert none revert 5 19
revert none revert 5 20
revert none revert 5 21
revert none revert 1 22
";

/// Each cut of the first boot ends in the same flash.
const CUT: &str = "\
$ replay WORKED --kind KIND IMAGES --schedule CUT
result boot; type TYPE; ops OPS; SWAPPED; next NEXT
";

static TABLES: [Table; 4] = [
    (SWAPS, &[], "-"),
    (REFUSED, &[], "-"),
    (FLASHES, &[], "-"),
    (CUT, &["KIND", "NEXT", "TYPE", "OPS", "CUT"], CUTS),
];

#[test]
fn boots_and_replays(rt: HostRuntime) {
    all_play(&rt, rt.alloc(), &TABLES)
}
