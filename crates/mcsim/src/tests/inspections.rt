//! `inspect` and `locate`, of dumps that are worked out by hand, or with a model that shares no code with this repository.
use super::support::{Table, all_play};

/// The dump of a test that is asked for; one of a test to be taken back whose magic is torn, by rules that take it back; one whose image is
/// torn; one whose first status entry is that of a trailer with fewer sectors, with a magic at the end of another sector.
const INSPECTED: &str = "\
$ inspect WORKED --flash in --known-a first --known-b second < 1792:0=first,1024=second,1776=MAGIC
verdict boots
trailer primary UNSET
trailer secondary magic=good image-ok=unset copy-done=unset swap-info=0xff swap-size=4294967295
resume no
table test
state rest
image primary FIRST
image secondary SECOND
sectors primary a0 -x3
sectors secondary b0 - t
first erase primary 3
result boot
type test
ops 18
SWAPPED
next revert
schedules 44166610515609
boot 44166610515609
none 0
panic 0
fault 0
most-ops 18
first-not-boot none
shortest-not-boot none
$ inspect WORKED --grain unit --profile 2 --flash in --known-a first --known-b second < TORN
verdict boots
trailer primary magic=good image-ok=unset copy-done=set swap-info=0xff swap-size=4294967295
trailer secondary magic=bad image-ok=unset copy-done=unset swap-info=0xff swap-size=4294967295
resume no
table revert
state rest
image primary SECOND
image secondary FIRST
sectors primary b0 -x2 t
sectors secondary a0 - t
first erase secondary 2
result boot
type revert
ops 115
KEPT
next none
schedules 825245368244644748302168377
boot 825245368244644748302168377
none 0
panic 0
fault 0
most-ops 115
first-not-boot none
shortest-not-boot none
$ inspect WORKED --flash in < 1792:0=first,79=00
verdict no image
trailer primary UNSET
trailer secondary UNSET
resume no
table none
state rest
image primary none E12 WrongDigest
image secondary blank
sectors primary * -x3
sectors secondary -x3
first none
result none
type none
ops 0
primary none
secondary none
next none
schedules 1
boot 0
none 1
panic 0
fault 0
most-ops 0
first-not-boot -
shortest-not-boot -
$ inspect --sector 256 --unit 8 --max-sectors 5 --chunk 128 --primary 4 --secondary 3 --flash in < 1792:752=MAGIC,880=03
verdict needs another layout or another dump
trailer primary UNSET
trailer secondary UNSET
resume no
table none
state rest
hint magic primary 2
hint --unit 1 --max-sectors 32
hint --unit 2 --max-sectors 16
hint --unit 4 --max-sectors 8
hint --unit 8 --max-sectors 4
image primary none E2 BadMagic
image secondary blank
sectors primary -x2 * t
sectors secondary -x3
first none
result none
type none
ops 0
primary none
secondary none
next none
schedules 1
boot 0
none 1
panic 0
fault 0
most-ops 0
first-not-boot -
shortest-not-boot -
$ inspect WORKED --flash in --known-a first < 1792:0=first
! mcsim: E70 SourceOptions; exit 2
";

/// A boot that goes on with a swap while the secondary holds no image, so that the one in the primary runs no more; slots in the wrong order; a second
/// image one sector up; a layout that never swaps. What is asked of all schedules.
const VERDICTS: &str = "\
$ inspect WORKED --flash in --all-boot < 1792:0=first,976=50000000,984=02,1008=MAGIC
verdict the next boot loses the image that the primary holds
trailer primary magic=good image-ok=unset copy-done=unset swap-info=0x02 swap-size=80
trailer secondary UNSET
resume yes
table none
state resumes
image primary FIRST
image secondary blank
sectors primary * -x2 t
sectors secondary -x3
first ...
boot 0
...! mcsim: E74 NotAllBoot; exit 1
$ inspect THREE --flash in < 1536:0=second,752=MAGIC,768=first,1392=01,1488=50000000,1520=MAGIC
verdict needs another layout or another dump
trailer primary magic=good image-ok=unset copy-done=unset swap-info=0xff swap-size=4294967295
trailer secondary magic=good image-ok=unset copy-done=unset swap-info=0xff swap-size=80
resume no
table test
state rest
hint slots in the wrong order
...
$ inspect WORKED --flash in < 1792:0=first,1280=second
verdict needs another layout or another dump
trailer primary UNSET
trailer secondary UNSET
resume no
table none
state rest
hint image secondary 1
...
$ inspect TWO --flash in < 1152:0=first
verdict needs --max-sectors 5
trailer primary UNSET
...
! mcsim: note: --max-sectors 4 is less than --primary 5, so that MCUboot refuses to swap; exit 0
$ inspect TWO --flash in --all-boot < 1152:0=first
! mcsim: E89 NeverSwaps; exit 2
$ inspect WORKED --flash in --expect-primary 2.0.0 --expect-secondary 1.0.0 < 1792:0=first,1024=second,1776=MAGIC
verdict boots
...
first-not-boot none
right 44166610515609
first-not-right none
shortest-not-boot none
shortest-not-right none
$ inspect WORKED --flash in --all-right < 1792:0=first
! mcsim: E85 NoExpectation; exit 2
";

/// A dump and where it occurs: before operation 9 of the test, and with a byte that no cut leaves; before one of a swap for good and of a
/// revert; images alone, which are as near to a swap for good as to a test; and a sector that is copied by half, in units and in whole calls.
const LOCATED: &str = "\
$ locate WORKED --grain GRAIN --flash in --known-a first --known-b second < DUMP
swap SWAP; schedule SCHEDULE; differs FOUND
";

const FIELDS: &[&str] = &["GRAIN", "DUMP", "SWAP", "SCHEDULE", "FOUND"];

const DUMPS: &str = "\
call MOVED test 9 0; all yes
call MOVED,1280=00 test 9 1; secondary 1; all yes
call 1792:0=first,256=first,880=01,976=50000000,984=03,1000=01,1008=MAGIC,1024=second perm 10 0; all yes
call 1792:0=first,256=second,880=01,976=50000000,984=04,1000=01,1008=MAGIC,1024=first revert 16 0; all yes
call 1792:0=first,1024=second test - 1; secondary 2; all yes
unit 1792:0=first,256=3db8f396000000002000000008000000,976=50000000,984=02,1008=MAGIC,1024=second test 9 0; all yes
call 1792:0=first,256=3db8f396000000002000000008000000,976=50000000,984=02,1008=MAGIC,1024=second test 5 1; primary 1; all yes
";

const UNKNOWN: &str = "\
$ locate WORKED --flash in < 1792:0=first
! mcsim: E70 SourceOptions; exit 2
";

static TABLES: [Table; 4] = [
    (INSPECTED, &[], "-"),
    (VERDICTS, &[], "-"),
    (LOCATED, FIELDS, DUMPS),
    (UNKNOWN, &[], "-"),
];

#[test]
fn explains_and_locates_dumps(rt: HostRuntime) {
    all_play(&rt, rt.alloc(), &TABLES)
}
