//! `layout`, of the worked layout, of a board's and of refused ones; `type`, of flashes and of two images.
use super::support::{Table, all_play};

/// The worked layout, and slots of 118 sectors of 4096 bytes, worked out by hand; then slots of 2^24 bytes, a secondary that is too
/// small, and a word that is no number.
const LAYOUTS: &str = "\
$ layout WORKED
trailer-bytes 144
trailer-sectors 1
image-sectors 2
image-bytes 512
primary 880 entry 0
primary 968 entry 11
primary 976 swap-size
primary 984 swap-info
primary 992 copy-done
primary 1000 image-ok
primary 1008 magic
secondary 720 swap-size
secondary 728 swap-info
secondary 736 copy-done
secondary 744 image-ok
secondary 752 magic
call swap-ops 30
call most-ops 36
unit swap-ops 211
unit most-ops 218
primary erases 2
secondary erases 1
primary trailer-erases 1
secondary trailer-erases 1
$ layout WORKED --erase-us 1000 --write-us 10
trailer-bytes 144...trailer-erases 1
swap-us 10030
revert-us 11080
$ layout WORKED --erase-us 1000
! mcsim: an argument is missing or out of its range; exit 2
$ layout --sector 4096 --unit 4 --max-sectors 128 --chunk 1024 --primary 118 --secondary 118
trailer-bytes 1584
trailer-sectors 1
image-sectors 116
image-bytes 475136
primary 481744 entry 0
primary 483276 entry 383
primary 483280 swap-size
primary 483288 swap-info
primary 483296 copy-done
primary 483304 image-ok
primary 483312 magic
secondary 483280 swap-size
secondary 483288 swap-info
secondary 483296 copy-done
secondary 483304 image-ok
secondary 483312 magic
call swap-ops 2094
call most-ops 2100
unit swap-ops 357057
unit most-ops 357066
primary erases 2
secondary erases 1
primary trailer-erases 1
secondary trailer-erases 1
$ layout --sector 4096 --unit 4 --max-sectors 128 --chunk 1024 --primary 118 --secondary 118 --erase-us 85000 --write-us 41
trailer-bytes 1584...secondary trailer-erases 1
swap-us 44374987
revert-us 44460274
$ layout --sector 65536 --unit 8 --max-sectors 4 --chunk 128 --primary 256 --secondary 255
trailer-bytes 144...! mcsim: note: --max-sectors 4 is less than --primary 256, so that MCUboot refuses to swap; exit 0
$ layout --sector 4096 --unit 4 --max-sectors 128 --chunk 1024 --primary 118 --secondary 116
! mcsim: E33 Counts; exit 2
$ layout --sector 4096 --unit 4 --max-sectors 128 --chunk 1024 --primary 118 --secondary x
! mcsim: --secondary takes a number from 0 to 4294967295; exit 2
";

/// The trailers of images, and of flashes that are begun. The last ones have a test that was finished, and a byte of the
/// secondary's magic.
const TRAILERS: &str = "\
$ type WORKED --kind none --image-a first --image-b first
primary UNSET
secondary UNSET
resume no; table none
$ type WORKED --kind test --image-a first --image-b first
primary UNSET
secondary magic=good image-ok=unset copy-done=unset swap-info=0xff swap-size=4294967295
resume no; table test
$ type WORKED --kind perm --image-a first --image-b first
primary UNSET
secondary magic=good image-ok=set copy-done=unset swap-info=0xff swap-size=4294967295
resume no; table perm
$ type WORKED --flash in < BEGUN,984=02
primary magic=good image-ok=unset copy-done=unset swap-info=0x02 swap-size=4294967295
secondary UNSET
resume yes; table none
$ type WORKED --flash in < BEGUN,992=01
primary magic=good image-ok=unset copy-done=set swap-info=0xff swap-size=4294967295
secondary UNSET
resume no; table revert
$ type WORKED --flash in < BEGUN,992=00
primary magic=good image-ok=unset copy-done=bad swap-info=0xff swap-size=4294967295
secondary UNSET
resume no; table none
$ type WORKED --flash in < BEGUN,992=01,1776=00
primary magic=good image-ok=unset copy-done=set swap-info=0xff swap-size=4294967295
secondary magic=bad image-ok=unset copy-done=unset swap-info=0xff swap-size=4294967295
resume no; table none
$ type WORKED --flash in --profile 1 < BEGUN,992=01,1776=00
primary magic=good image-ok=unset copy-done=set swap-info=0xff swap-size=4294967295
secondary magic=bad image-ok=unset copy-done=unset swap-info=0xff swap-size=4294967295
resume no; table none
$ type WORKED --flash in --profile 2 < BEGUN,992=01,1776=00
primary magic=good image-ok=unset copy-done=set swap-info=0xff swap-size=4294967295
secondary magic=bad image-ok=unset copy-done=unset swap-info=0xff swap-size=4294967295
resume no; table revert
$ create PADDING in out < 440:0=ff
=> 512 bytes
$ type WORKED --kind test --image-a in --image-b in < out
primary UNSET
secondary magic=good image-ok=unset copy-done=unset swap-info=0xff swap-size=4294967295
resume no; table test
$ type WORKED --flash in < BEGUN,984=02,976=50000000
primary magic=good image-ok=unset copy-done=unset swap-info=0x02 swap-size=80
secondary UNSET
resume yes; table none
$ type WORKED --flash in < BEGUN,992=01,1776=77c295f360d2ef7f
primary magic=good image-ok=unset copy-done=set swap-info=0xff swap-size=4294967295
secondary magic=bad image-ok=unset copy-done=unset swap-info=0xff swap-size=4294967295
resume no; table none
$ type WORKED --flash in --profile 2 < BEGUN,992=01,1776=77c295f360d2ef7f
primary magic=good image-ok=unset copy-done=set swap-info=0xff swap-size=4294967295
secondary magic=bad image-ok=unset copy-done=unset swap-info=0xff swap-size=4294967295
resume no; table revert
$ type WORKED --flash in --profile 2 < BEGUN,992=00,1776=77c295f360d2ef7f
primary magic=good image-ok=unset copy-done=bad swap-info=0xff swap-size=4294967295
secondary magic=bad image-ok=unset copy-done=unset swap-info=0xff swap-size=4294967295
resume no; table none
$ type WORKED --flash in < 1792:0=ff
primary UNSET; secondary UNSET; resume no; table none
$ type WORKED --kind none --image-a in --image-b first < 1048577:0=first
primary UNSET; secondary UNSET; resume no; table none
$ type --sector 65536 --unit 8 --max-sectors 9 --chunk 128 --primary 9 --secondary 8 --flash in < 1114112:0=first
primary UNSET; secondary UNSET; resume no; table none
";

/// The source is checked before the layout, and both before a file is opened. In the last layout each slot has room for one
/// sector of an image, of 64 bytes.
const REFUSED: &str = "\
$ type --sector 256 --unit 3 --max-sectors 4 --chunk 128 --primary 4 --secondary 3
! mcsim: E70 SourceOptions; exit 2
$ type --sector 256 --unit 3 --max-sectors 4 --chunk 128 --primary 4 --secondary 3 --flash missing
! mcsim: E30 Unit; exit 2
$ type --sector 100 --unit 8 --max-sectors 4 --chunk 128 --primary 4 --secondary 3 --kind test IMAGES
! mcsim: E31 Sector; exit 2
$ type --sector 256 --unit 8 --max-sectors 4 --chunk 96 --primary 4 --secondary 3 --kind test IMAGES
! mcsim: E32 Chunk; exit 2
$ type --sector 256 --unit 8 --max-sectors 4 --chunk 128 --primary 5 --secondary 3 --kind test IMAGES
! mcsim: E33 Counts; exit 2
$ type --sector 256 --unit 8 --max-sectors 4 --chunk 128 --primary 2 --secondary 2 --kind test IMAGES
! mcsim: E34 NoRoom; exit 2
$ type WORKED --flash in --kind test
! mcsim: E70 SourceOptions; exit 2
$ type WORKED --kind test --image-a first
! mcsim: E70 SourceOptions; exit 2
$ type WORKED IMAGES
! mcsim: E70 SourceOptions; exit 2
$ type WORKED --flash missing
! mcsim: E71 Open; exit 3
$ type WORKED --kind test --image-a first --image-b missing
! mcsim: E71 Open; exit 3
$ type WORKED --kind test --image-a out --image-b out
! mcsim: E1 Truncated in image A; exit 1
$ type WORKED --kind test --image-a first --image-b out
! mcsim: E1 Truncated in image B; exit 1
$ type --sector 64 --unit 1 --max-sectors 1 --chunk 64 --primary 3 --secondary 2 --kind test IMAGES
! mcsim: E50 DoesNotFit; exit 1
$ type WORKED --flash in < 1791:0=ff
! mcsim: E51 FlashSize; exit 1
$ type WORKED --flash in < 1793:0=ff
! mcsim: E51 FlashSize; exit 1
$ type WORKED --kind test --image-a first --image-b in < 80:0=second,32=09
! mcsim: E12 WrongDigest in image B; exit 1
$ type WORKED --flash in
! mcsim: E51 FlashSize; exit 1
$ create PADDING in out < 441:0=ff
=> 513 bytes
$ type WORKED --kind test --image-a first --image-b in < out
! mcsim: E50 DoesNotFit; exit 1
$ create PADDING in out < 441:0=ff
=> 513 bytes
$ type WORKED --kind test --image-a in --image-b first < out
! mcsim: E50 DoesNotFit; exit 1
";

/// The step of six numbers that are a layout, and that of such that are none; and their names there.
const GOOD: &str = "\
$ layout --sector SECTOR --unit UNIT --max-sectors MOST --chunk CHUNK --primary PRIMARY --secondary SECONDARY
trailer-bytes ...
";

const BAD: &str = "\
$ layout --sector SECTOR --unit UNIT --max-sectors MOST --chunk CHUNK --primary PRIMARY --secondary SECONDARY
! mcsim: WHY; exit 2
";

const NUMBERS: &[&str] = &[
    "SECTOR",
    "UNIT",
    "MOST",
    "CHUNK",
    "PRIMARY",
    "SECONDARY",
    "WHY",
];

/// The least and the largest sector; the most sectors of an image; room for one sector.
const LIMITS: &str = "\
64 1 4 32 4 3
65536 8 1024 65536 3 3
4096 8 1024 128 9 8
256 8 4 128 3 2
";

/// One reason each; the first of several, which is reported. A sector that is less than the least, and more than the most; a slot of
/// a sector too many; the sectors of an image, and one too many; room for no sector, and less than none; a primary of fewer sectors
/// than the secondary; no sectors at all.
const NO_LAYOUTS: &str = "\
256 3 4 128 4 3 E30 Unit
100 8 4 128 4 3 E31 Sector
256 8 4 96 4 3 E32 Chunk
256 8 4 128 5 3 E33 Counts
256 8 4 128 2 2 E34 NoRoom
100 3 0 0 9 0 E30 Unit
100 8 0 0 9 0 E31 Sector
256 8 0 0 9 0 E32 Chunk
256 8 0 128 9 0 E33 Counts
32 1 4 32 4 3 E31 Sector
131072 8 1024 65536 3 3 E31 Sector
65536 8 4 128 257 256 E33 Counts
65536 8 4 128 257 257 E33 Counts
256 8 0 128 4 3 E33 Counts
4096 8 1025 128 9 8 E33 Counts
256 8 4 128 2 1 E34 NoRoom
64 8 1024 64 4 3 E34 NoRoom
64 8 1024 64 1 1 E34 NoRoom
256 8 4 128 3 4 E33 Counts
256 8 4 128 0 0 E33 Counts
256 8 4 128 4294967295 4294967295 E33 Counts
";

static TABLES: [Table; 5] = [
    (GOOD, NUMBERS, LIMITS),
    (BAD, NUMBERS, NO_LAYOUTS),
    (LAYOUTS, &[], "-"),
    (TRAILERS, &[], "-"),
    (REFUSED, &[], "-"),
];

#[test]
fn prints_layouts_and_trailers(rt: HostRuntime) {
    all_play(&rt, rt.alloc(), &TABLES)
}
