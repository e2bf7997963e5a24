//! Refusals with their reasons, where `--verbose` asks for them, and what stands for options of imgtool.
use super::faults::ends_after;
use super::support::{Table, all_play, ran_over, same_at};
use mc_fixtures::{Fault, PAYLOAD};

/// Images that are none here: one in Intel's hexadecimal form, and one that is encrypted.
const IMAGES: &str = "\
$ verify --verbose in < 40:0=3a3031303230333034303530
! mcsim: E2 BadMagic; mcsim: in looks like Intel HEX (objcopy -I ihex -O binary); exit 1
$ boot WORKED --kind test --image-a first --image-b in --verbose < 40:0=3a3031303230333034303530
! mcsim: E2 BadMagic in image B; mcsim: image B is in; mcsim: in looks like Intel HEX (objcopy -I ihex -O binary); exit 1
$ verify --verbose in < FLAGGED
! mcsim: E4 UnsupportedFlags; mcsim: in has version 1.2.3+4, a header of 32 bytes, a payload of 8, flags 0x4 ENCRYPTED_AES128; exit 1
$ dumpinfo in < FLAGGED
! mcsim: E4 UnsupportedFlags; exit 1
$ dumpinfo counted
REPORT; rest 0; digest good
$ dumpinfo --verbose < counted
REPORT; rest 0; digest good
! mcsim: entry 0x0050 is SEC_CNT; mcsim: entry 0x0010 is SHA256; exit 0
$ create --verbose PADDING --slot-size 3199 payload out
! mcsim: E21 SlotTooSmall; mcsim: the image has 80 bytes, its trailer 3120, and --slot-size is 3199; exit 1
$ create --verbose PADDING --slot-size 3210 --security-counter 7 payload out
! mcsim: E21 SlotTooSmall; mcsim: the image has 92 bytes, its trailer 3120, and --slot-size is 3210; exit 1
$ create PADDING --slot-size 3200 payload out
=> plain
";

/// Options of imgtool that are left out, and those whose only value each image has.
const IMGTOOL: &str = "\
$ create PADDING --key key.pem payload out
! mcsim: create has no --key: signing: imgtool sign -k; exit 2
$ sign -kkey.pem PADDING payload out
! mcsim: create has no -k: signing: imgtool sign -k; exit 2
$ create PADDING --load-addr=0x0 payload out
! mcsim: create has no --load-addr: a load address or a flag: imgtool sign (no command here reads an image with flags); exit 2
$ create PADDING -E key.pem payload out
! mcsim: create has no -E: encryption: imgtool sign -E (no command here reads an encrypted image); exit 2
$ --verbose create PADDING -d 1.2.3 payload out
! mcsim: create has no -d: entries besides the digest and the security counter: imgtool sign; exit 2
$ create PADDING --hex-addr 0 payload out
! mcsim: create has no --hex-addr: Intel HEX: objcopy -O binary before, objcopy -I binary -O ihex after; exit 2
$ create PADDING --keys key.pem payload out
! error: unexpected argument '--keys' found...exit 2
$ verify --key key.pem first
! error: unexpected argument '--key' found...exit 2
$ create PADDING -e little -R 0xff --sha 256 payload out
=> plain
$ create PADDING --endian big payload out
! error: invalid value 'big' for '--endian <E>'...exit 2
";

/// Cuts that can't occur, of one round and of two; words that are missing; a line of a script that is no event's.
const WORDS: &str = "\
$ replay WORKED --kind test IMAGES --schedule 18 --verbose
! mcsim: E53 CannotOccur at 0; mcsim: cut 0 is 18, and its boot has 18 operations; exit 1
$ trace WORKED --kind test IMAGES --schedule 9.30.1 --verbose
! mcsim: E53 CannotOccur at 1; mcsim: cut 1 is 30, and its boot has 9 operations; exit 1
$ replay WORKED --kind test IMAGES --rounds 2 --schedule 1.9,1.10 --verbose
! mcsim: E53 CannotOccur at 1; mcsim: cut 1 is 10, and its boot has 9 operations; exit 1
$ sectors WORKED --kind test IMAGES --rounds 2 --schedule 1.17,2.23 --verbose
! mcsim: E53 CannotOccur at 1; mcsim: cut 1 is 23, and its boot has 23 operations; exit 1
$ boot WORKED --kind test --image-b first --verbose
! mcsim: E70 SourceOptions; mcsim: --image-a is missing: give --flash alone, or all of --kind, --image-a and --image-b; exit 2
$ life WORKED --verbose
! mcsim: E83 DeviceOptions; mcsim: give one of --flash and --image; exit 2
$ census WORKED --flash in --cuts 0 --all-right --expect-primary none --verbose < 1792:0=first
! mcsim: E85 NoExpectation; mcsim: --expect-secondary is missing: a dump does not say what is right; exit 2
$ life WORKED --image first --verbose < 10:0=626f6f740a626f6f640a
1 boot boot none 0 1.0.0+0/80 settled none none
! mcsim: E78 EventSyntax, event 2, line 2; mcsim: line 2 is: bood; exit 1
$ life WORKED --image first --verbose < 44:0=626f6f740a646f776e6c6f6164207365636f6e640a7265717565737420746573740a626f6f7420392e33300a
1 boot boot none 0 1.0.0+0/80 settled none none
2 download second 1.0.0+0/80 settled 2.0.0+0/80 none
3 request test 1.0.0+0/80 settled 2.0.0+0/80 test
! mcsim: E53 CannotOccur at 1, event 4, line 4; mcsim: line 4 is: boot 9.30; mcsim: cut 1 is 30, and its boot has 9 operations; exit 1
$ life WORKED --image first --verbose < 5:0=6375742035
! mcsim: E53 CannotOccur at 0, event 1, line 1; mcsim: line 1 is: cut 5; mcsim: cut 0 is 5, and its boot has 0 operations; exit 1
$ locate BOARD --grain unit --flash nofile --known-a first --known-b second
! mcsim: note: by --grain unit ...E71 Open; exit 3
$ census --sector 65536 --unit 1 --max-sectors 256 --chunk 1 --primary 256 --secondary 256 --flash nofile --rounds 2 --cuts 1
! mcsim: note: a swap has up to ...E71 Open; exit 3
$ census BOARD --flash nofile --rounds 2 --cuts 1
! mcsim: E71 Open; exit 3
$ locate BOARD --grain call --flash nofile --known-a first --known-b second
! mcsim: E71 Open; exit 3
";

static TABLES: [Table; 3] = [(IMAGES, &[], "-"), (IMGTOOL, &[], "-"), (WORDS, &[], "-")];

#[test]
fn refusals_say_why(rt: HostRuntime) {
    all_play(&rt, rt.alloc(), &TABLES);
    let line = "verify --verbose first";
    let (status, err, taken) = ends_after(&rt, rt.alloc(), line, &[], 5);
    let found = (status, err.as_str(), taken.as_slice());
    let reason = "mcsim: E25 Write\nmcsim: standard output: other error\n";
    let wanted = (3, reason, b"good ".as_slice());
    same_at(&rt, &line, &found, &wanted);
    let line = "create --verbose --version 1.2.3+4 --header-size 32 --pad-header in out";
    let reason = "! mcsim: E25 Write\nmcsim: out: other error\nexit 3\n";
    let ended = ran_over(&rt, rt.alloc(), line, &PAYLOAD, (1000, 5, Fault::Error));
    same_at(&rt, &line, &ended.text(&rt, rt.alloc()).as_str(), &reason)
}
