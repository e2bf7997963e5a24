//! `tears` at the worked layout. What it prints is what a model prints that shares no code with this repository; of the 48 starts and rules
//! how many lines these are and their digest.
use super::support::{Table, all_play};

/// The lines of an upgrade, its flash of a case and what goes on from there, verdicts, the boot after a cut, and refusals.
const CASES: &str = "\
$ tears WORKED --kind perm IMAGES
operations 19
cases 27
5 magic=good,image-ok=unset boot test 18 2.0.0+0/80 1.0.0+0/80 revert rest
5 magic=good,image-ok=bad boot none 0 1.0.0+0/80 2.0.0+0/80 none busy
$ tears WORKED --kind perm IMAGES --profile 3 --all-right
operations 19
cases 27
5 magic=good,image-ok=unset boot test 18 2.0.0+0/80 1.0.0+0/80 revert rest
$ tears WORKED --kind test IMAGES --schedule 9 --expect-primary 2.0.0
operations 9
cases 10
8 copy-done=bad boot none 0 2.0.0+0/80 1.0.0+0/80 none rest
$ tears WORKED --kind test IMAGES --expect-primary 1.0.0
operations 18
cases 19
17 copy-done=bad boot none 0 2.0.0+0/80 1.0.0+0/80 none rest
! mcsim: E76 NotAllRight; exit 1
$ tears WORKED --kind perm IMAGES --all-right --at 5 --reading magic=good,image-ok=bad --out out
operations 19
cases 27
5 magic=good,image-ok=unset boot test 18 2.0.0+0/80 1.0.0+0/80 revert rest
5 magic=good,image-ok=bad boot none 0 1.0.0+0/80 2.0.0+0/80 none busy
! mcsim: E76 NotAllRight; exit 1
=> 1792 bytes
$ boot WORKED --flash in < out
result boot; type none; ops 0; KEPT; next none
$ tears WORKED --kind perm IMAGES --profile 3 --at 5 --reading magic=good,image-ok=bad --out out
operations 19
cases 27
5 magic=good,image-ok=unset boot test 18 2.0.0+0/80 1.0.0+0/80 revert rest
=> 1792 bytes
$ inspect WORKED --flash in < out
verdict boots...state busy
...shortest-not-boot none
$ tears WORKED --kind perm IMAGES --at 5 --reading magic=good,image-ok=bad --out out
operations 19...busy
=> 1792 bytes
$ inspect WORKED --flash in --profile 3 < out
verdict boots...state resumes
...shortest-not-boot none
$ tears WORKED --kind none IMAGES --all
operations 0
cases 0
$ tears WORKED --kind perm IMAGES --at 0 --reading data --out out
! mcsim: E93 NoCase; exit 1
$ tears WORKED --kind perm IMAGES --at 19 --reading data --out out
! mcsim: E93 NoCase; exit 1
$ tears WORKED --kind perm IMAGES --at 5 --reading image-ok=bad,magic=good --out out
! mcsim: E92 NoReading; exit 2
$ tears WORKED --kind perm IMAGES --at 5 --reading magic=good
! mcsim: an argument is missing or out of its range; exit 2
$ tears WORKED --kind perm IMAGES --schedule 19
! mcsim: E53 CannotOccur at 0; exit 1
$ tears TWO --kind test --image-a nofile --image-b nofile --all-right
! mcsim: E89 NeverSwaps; exit 2
$ tears WORKED --flash in --all-right < 1792:0=first
! mcsim: E85 NoExpectation; exit 2
";

/// A start, the rules, and how an erase fails.
const STARTS: &str = "\
$ tears WORKED --kind KIND IMAGES --grain GRAIN --profile PROFILE --erase ERASE
lines COUNT SUM
";

/// The number of lines of each, and their digest.
const SUMS: &str = "\
call 1 none gentle 2 f9c5e55d29b2ee9e6fc5a329a10b28fd24e6c3d0d02fac7f8e813ee0e36bdf10
call 1 none rough 2 f9c5e55d29b2ee9e6fc5a329a10b28fd24e6c3d0d02fac7f8e813ee0e36bdf10
call 1 test gentle 3 d165392afb5046e2bbe7bf069e2c8120fd074bfa00c68ab2d972b0918c0dcfcc
call 1 test rough 5 54923bc0b1cee48db34fc1d294b8fff58b816282d6b3dd211ef48c7b63088986
call 1 perm gentle 4 852537f24d698531c4565be9dbef83c65a6907f69e423c98237f8e1c5b3a09c0
call 1 perm rough 4 61e4b4ab2f80898ca8e6039eb38e20b4a489312cc33c698ab50b6a7c8acd4b7f
call 1 revert gentle 5 3261c7cabae8d23a0a9f6fdb8416faa83a1211977783ca13ccd1bb7657f894b7
call 1 revert rough 10 9ccbb4916730ecefee4498363469656a65e0fde930fe9b0b62ce6065a8970ec0
call 2 none gentle 2 f9c5e55d29b2ee9e6fc5a329a10b28fd24e6c3d0d02fac7f8e813ee0e36bdf10
call 2 none rough 2 f9c5e55d29b2ee9e6fc5a329a10b28fd24e6c3d0d02fac7f8e813ee0e36bdf10
call 2 test gentle 3 d165392afb5046e2bbe7bf069e2c8120fd074bfa00c68ab2d972b0918c0dcfcc
call 2 test rough 5 54923bc0b1cee48db34fc1d294b8fff58b816282d6b3dd211ef48c7b63088986
call 2 perm gentle 4 852537f24d698531c4565be9dbef83c65a6907f69e423c98237f8e1c5b3a09c0
call 2 perm rough 4 61e4b4ab2f80898ca8e6039eb38e20b4a489312cc33c698ab50b6a7c8acd4b7f
call 2 revert gentle 4 9aa06b056355297ee5f3ef4379fb78fb765f5a62337f5e5cf11e39e52b7855c1
call 2 revert rough 6 992af79353b4263b9eb5e243d52d156d4728487eb310a861ba9325d125a7c59f
call 3 none gentle 2 f9c5e55d29b2ee9e6fc5a329a10b28fd24e6c3d0d02fac7f8e813ee0e36bdf10
call 3 none rough 2 f9c5e55d29b2ee9e6fc5a329a10b28fd24e6c3d0d02fac7f8e813ee0e36bdf10
call 3 test gentle 3 d165392afb5046e2bbe7bf069e2c8120fd074bfa00c68ab2d972b0918c0dcfcc
call 3 test rough 4 3621592b8761178b446f17bbb2c3eacfb5f52bab313605e9ae9a17aa825e4b36
call 3 perm gentle 3 ccc3db2fd5f838690dd2536ce1c7ab3a34fc870f21901cf30be5b7a2c6651488
call 3 perm rough 3 4c9a121e8c0d81a30df919b51f0024f4a2daa91b7df4e92718c61ca7b45e8c63
call 3 revert gentle 3 90ce4a7b98e61d20dcf86112b73c5c4edff025f62510d82407761af34bb96010
call 3 revert rough 5 f9c313494a0170ffc359f85501fd2eb30c397e90ee2acb3c7efb60769f1a474f
unit 1 none gentle 2 f9c5e55d29b2ee9e6fc5a329a10b28fd24e6c3d0d02fac7f8e813ee0e36bdf10
unit 1 none rough 2 f9c5e55d29b2ee9e6fc5a329a10b28fd24e6c3d0d02fac7f8e813ee0e36bdf10
unit 1 test gentle 3 d067f0f06e17956491bf0297894e5b5ff2f1a128eb35b53f333c65fe6472b32d
unit 1 test rough 5 9888a64ae957a56697a24ec90668a8877630220f9522f69932ca643746a5cda6
unit 1 perm gentle 4 d794ef1e1b1b1a18a6eb61bc44ca2ef97eef709224ddd7ba155b94a57d12c0ef
unit 1 perm rough 4 1857ec9551b1b33be93ccbda7e4e2de0f3f59ca275ea654e8ee87a76e4b320c8
unit 1 revert gentle 4 f6935950112f9a41d1881572621b0fd16b17f5835b478b72e842f991f694f4c6
unit 1 revert rough 9 2d442c341f8c02a175603ecb69a45d258307ed3eb918ff679298ee8860b7f7fa
unit 2 none gentle 2 f9c5e55d29b2ee9e6fc5a329a10b28fd24e6c3d0d02fac7f8e813ee0e36bdf10
unit 2 none rough 2 f9c5e55d29b2ee9e6fc5a329a10b28fd24e6c3d0d02fac7f8e813ee0e36bdf10
unit 2 test gentle 3 d067f0f06e17956491bf0297894e5b5ff2f1a128eb35b53f333c65fe6472b32d
unit 2 test rough 5 9888a64ae957a56697a24ec90668a8877630220f9522f69932ca643746a5cda6
unit 2 perm gentle 4 d794ef1e1b1b1a18a6eb61bc44ca2ef97eef709224ddd7ba155b94a57d12c0ef
unit 2 perm rough 4 1857ec9551b1b33be93ccbda7e4e2de0f3f59ca275ea654e8ee87a76e4b320c8
unit 2 revert gentle 4 f6935950112f9a41d1881572621b0fd16b17f5835b478b72e842f991f694f4c6
unit 2 revert rough 6 b883653cbf9bcf003cf1e5c20a702e842e07d883373a228161c3d446b1db0123
unit 3 none gentle 2 f9c5e55d29b2ee9e6fc5a329a10b28fd24e6c3d0d02fac7f8e813ee0e36bdf10
unit 3 none rough 2 f9c5e55d29b2ee9e6fc5a329a10b28fd24e6c3d0d02fac7f8e813ee0e36bdf10
unit 3 test gentle 3 d067f0f06e17956491bf0297894e5b5ff2f1a128eb35b53f333c65fe6472b32d
unit 3 test rough 4 362beba1d4a5eb2801f2bbba909b96db230b764fa2084ac5a3a9b5e3d261e719
unit 3 perm gentle 3 679cbf8dc7581028d2c06bb02dddb091e0b7ccc7fe188bff28c2e606c7e9eae9
unit 3 perm rough 3 741fe9152f8e5ca9fe5a9664cbce4717aef701a03395084b85bbd0a35fcc88c3
unit 3 revert gentle 3 67b28d2d9f114f52bf79ae5e40a802e2095a20915d5dc3bbe3e4ea784d87b184
unit 3 revert rough 5 78490254d14411db9c3f8f4f6e398250e207da6e83bf5621daf9ea4403df24f1
";

/// All cases of an upgrade.
const ALL: &str = "\
$ tears WORKED --kind perm IMAGES --all
lines 29 16113d0f26a0417e4b6e373e7b03a16f55328db84034bbeb3e7e06e665379ffd
";

static TABLES: [Table; 3] = [
    (CASES, &[], "-"),
    (
        STARTS,
        &["GRAIN", "PROFILE", "KIND", "ERASE", "COUNT", "SUM"],
        SUMS,
    ),
    (ALL, &[], "-"),
];

#[test]
fn shows_what_tears_lead_to(rt: HostRuntime) {
    all_play(&rt, rt.alloc(), &TABLES)
}
