//! `verify` and `dumpinfo`, of standard input and of files.
use super::support::{Table, all_play};

/// Images alone, and with bytes after them: one, and those of a slot.
const IMAGES: &str = "\
$ verify < plain
GOOD
$ verify in < plain
GOOD
$ verify < 81:0=plain,80=69
GOOD
$ verify < 768:0=plain,752=MAGIC
GOOD
$ verify < 768:0=plain,744=01,752=MAGIC
GOOD
$ dumpinfo < counted
REPORT; rest 0; digest good
$ dumpinfo in < counted
REPORT; rest 0; digest good
$ dumpinfo < 768:0=counted,744=01,752=MAGIC
REPORT; rest 676; digest good
$ dumpinfo < 100:0=3db8f3960100001023000d000800000000000000ff00ffffffffffff98badcfe010203010203040506070808690d0010000100ab6000000007692c0010002000a1da8669befc8753404598eca05afd9e0a90002bc832e895740a98a7d13f0def99000000
magic 0x96f3b83d
load 0x10000001
header-size 35
protected-size 13
image-size 8
flags 0x00000000
version 255.0.65535+4294967295
padding 0xfedcba98
protected 0x0010 1 ab
protected 0x0060 0
plain 0x0010 32 a1da8669befc8753404598eca05afd9e0a90002bc832e895740a98a7d13f0def
plain 0x0099 0
total 100
rest 0
digest good
$ dumpinfo < 92:0=counted
REPORT; rest 0; digest good
$ create --version 255.255.65535+4294967295 --pad-header --header-size 32 in out < payload
=> 80 bytes
$ verify < out
good 255.255.65535+4294967295 80 0b1d620236aad84f5acae2b39ab52b3cfdea09c02f764f882a6a78eed18dd118
";

/// Each fault of an image, in both readers, only one of which wants the digest to be right; and images that are cut short.
const FAULTS: &str = "\
$ verify < 0:0=plain
! mcsim: E1 Truncated; exit 1
$ verify < 31:0=plain
! mcsim: E1 Truncated; exit 1
$ verify < 32:0=plain
! mcsim: E5 TruncatedBody; exit 1
$ verify < 39:0=plain
! mcsim: E5 TruncatedBody; exit 1
$ verify < 40:0=plain
! mcsim: E7 BadTlvMagic; exit 1
$ verify < 43:0=plain
! mcsim: E7 BadTlvMagic; exit 1
$ verify < 44:0=plain
! mcsim: E8 BadTlvLength; exit 1
$ verify < 79:0=plain
! mcsim: E8 BadTlvLength; exit 1
$ dumpinfo < 92:0=counted,33=00
REPORT; rest 0; digest wrong
$ verify < 80:0=plain,0=00
! mcsim: E2 BadMagic; exit 1
$ dumpinfo < 80:0=plain,0=00
! mcsim: E2 BadMagic; exit 1
$ verify < 80:0=plain,8=1f
! mcsim: E3 BadHeaderSize; exit 1
$ dumpinfo < 80:0=plain,8=1f
! mcsim: E3 BadHeaderSize; exit 1
$ verify < 80:0=plain,16=01
! mcsim: E4 UnsupportedFlags; exit 1
$ dumpinfo < 80:0=plain,16=01
! mcsim: E4 UnsupportedFlags; exit 1
$ verify < 80:0=plain,10=03
! mcsim: E6 BadProtected; exit 1
$ dumpinfo < 80:0=plain,10=03
! mcsim: E6 BadProtected; exit 1
$ verify < 80:0=plain,40=08
! mcsim: E7 BadTlvMagic; exit 1
$ dumpinfo < 80:0=plain,40=08
! mcsim: E7 BadTlvMagic; exit 1
$ verify < 80:0=plain,42=03
! mcsim: E8 BadTlvLength; exit 1
$ dumpinfo < 80:0=plain,42=03
! mcsim: E8 BadTlvLength; exit 1
$ verify < 80:0=plain,42=27
! mcsim: E8 BadTlvLength; exit 1
$ dumpinfo < 80:0=plain,42=27
! mcsim: E8 BadTlvLength; exit 1
$ verify < 80:0=plain,44=11
! mcsim: E9 NoDigest; exit 1
$ dumpinfo < 80:0=plain,44=11
! mcsim: E9 NoDigest; exit 1
$ verify < 116:0=plain,42=4c,80=10002000e075fa34895d34e01c03690deb09704ffa500ee946dcdb420ade67b58388aad4
! mcsim: E10 ManyDigests; exit 1
$ dumpinfo < 116:0=plain,42=4c,80=10002000e075fa34895d34e01c03690deb09704ffa500ee946dcdb420ade67b58388aad4
! mcsim: E10 ManyDigests; exit 1
$ verify < 80:0=plain,42=27,46=1f
! mcsim: E11 DigestLength; exit 1
$ dumpinfo < 80:0=plain,42=27,46=1f
! mcsim: E11 DigestLength; exit 1
$ verify < 80:0=plain,33=00
! mcsim: E12 WrongDigest; exit 1
$ verify < 92:0=counted,42=0d
! mcsim: E6 BadProtected; exit 1
$ dumpinfo < 92:0=counted,42=0d
! mcsim: E6 BadProtected; exit 1
$ verify < 51:0=counted,42=0d
! mcsim: E5 TruncatedBody; exit 1
$ dumpinfo < 51:0=counted,42=0d
! mcsim: E5 TruncatedBody; exit 1
$ verify < 768:0=counted,0=00
! mcsim: E2 BadMagic; exit 1
$ dumpinfo < 768:0=counted,0=00
! mcsim: E2 BadMagic; exit 1
";

static TABLES: [Table; 2] = [(IMAGES, &[], "-"), (FAULTS, &[], "-")];

#[test]
fn reads_or_refuses_images(rt: HostRuntime) {
    all_play(&rt, rt.alloc(), &TABLES)
}
