//! `explore`: whole pages, by their digests as a model that shares no code with this repository computed them.
use super::support::{Table, all_play};

/// The step of a page, and the names of a line's fields there.
const STEP: &str = "\
$ explore LAYOUT --kind KIND IMAGES --cuts CUTS --limit LIMIT
lines LINES SHA
";

const FIELDS: &[&str] = &["LAYOUT", "CUTS", "LIMIT", "LINES", "SHA", "KIND"];

/// Pages of whole calls, in the first profile. A line has the layout (the worked one, one of slots that are equally long, one
/// of units of one byte, and one whose trailers have two sectors), the most cuts and the most rows; how many lines there are,
/// and the SHA-256 of the whole text; and the kind of the start and the rules.
const PAGES: &str = "\
WORKED 0 1000 2 eaf7f46f80686a31573b868b1ff258b3ecd9cd759dbe45c605cb87e15bf1dd76 none
WORKED 1 1000 2 eaf7f46f80686a31573b868b1ff258b3ecd9cd759dbe45c605cb87e15bf1dd76 none
WORKED 2 1000 2 eaf7f46f80686a31573b868b1ff258b3ecd9cd759dbe45c605cb87e15bf1dd76 none
WORKED 0 1000 2 5985f74d9148e8a889b656b1c6cc8a40cbb05e08f0f764f7bed382636480df5f test
WORKED 1 1000 20 5351f1776370a163f104fd101d91ff525f16dc6c73307f6efb6a96b56657a842 test
WORKED 2 1000 223 6da2093ccc59a6a6cffe7abb3f50387701995290a861e85dc53174e182632a8d test
WORKED 0 1000 2 df46cc25f931a2250a2a0df7761412a06b0488935e07c342d73116d9f7bd8170 perm
WORKED 1 1000 21 879f87e19c22a28e136af3f4f41181bd981285b8be8b56d8d44aba65f3eed9e6 perm
WORKED 2 1000 248 5a7ce0a348b168bbbc156bbf895fc3cfb0ced8c632684bf6631c10023cb33414 perm
WORKED 0 1000 2 427004488f5a3670994f49ec38178adaa05b009b0855632efa9f1c8023c5a952 revert
WORKED 1 1000 25 b3903f94b622f70b2c38d8100521ba312dbfcfae4483571da6db6fbd4846cf75 revert
WORKED 2 1000 344 38eb48c4fbcef3d3eaa2f9fd0ff406703c3ede671d330804618242d4a9e0b995 revert
WORKED 3 1000 1001 cbbc159fd1c120d4589e67526f09163220dcd3188b290b1be2b46e8a3e04cfeb test
WORKED 3 1029 1030 38bb39d6af1cc2f6b9e8b850b5bb1ec9898ed0f53ac01fe3682e7646d305cc10 test
WORKED 3 100000 2059 04273fb0967639449da89aeda4132aa01defa5bc44d96713b3fbacd293944327 test
THREE 2 1000 223 6da2093ccc59a6a6cffe7abb3f50387701995290a861e85dc53174e182632a8d test
SMALL 2 1000 547 b82383337f19d7cf22480a3c449c34cb669727b279e1d527a2fe7e428ea95a28 test
TWO 2 1000 203 721e5f4d55d96c91f80cb9f91f85c274c023cd6ce55e8f890cbc53ccd1909994 test
";

/// Pages of cuts between write units, in the same form. No cut of a start leaves a flash that the third profile boots otherwise than the
/// second.
const UNIT_PAGES: &str = "\
WORKED 1 1000 111 741fe452e0061a1afc9de69b49afe5b6b9a04fbba9b8a4ac97cde553a74c5b2e test --grain unit --profile 1
WORKED 2 100000 7838 a110c6b68c6d7a1a8febef3eaa3841d3a12c75163c870f95e8589bf040e1db84 test --grain unit --profile 1
WORKED 1 1000 111 741fe452e0061a1afc9de69b49afe5b6b9a04fbba9b8a4ac97cde553a74c5b2e test --grain unit --profile 2
WORKED 2 100000 7838 a110c6b68c6d7a1a8febef3eaa3841d3a12c75163c870f95e8589bf040e1db84 test --grain unit --profile 2
WORKED 1 1000 112 ff40396a4b43df9c42591ac68387797f46bc1a8dd119142a44697a0a2a59359a perm --grain unit --profile 1
WORKED 2 100000 7955 0f1b8b0488927c50a8fdcc62143b968539eab663d06aab5dc1ee6a8912128967 perm --grain unit --profile 1
WORKED 1 1000 112 ff40396a4b43df9c42591ac68387797f46bc1a8dd119142a44697a0a2a59359a perm --grain unit --profile 2
WORKED 2 100000 7955 0f1b8b0488927c50a8fdcc62143b968539eab663d06aab5dc1ee6a8912128967 perm --grain unit --profile 2
WORKED 1 1000 117 dd41bcc4988457c2a68dfb49cf4cb7dde40aeb0055aa1e9f2cc18e589fa066c5 revert --grain unit --profile 1
WORKED 2 100000 8420 95c4baa6b32f4a7c2d90a80d2b943a074fff8a421f7521c7d0d1c83a0da4a0ce revert --grain unit --profile 1
WORKED 1 1000 117 8d927f6b93714a3d2d24456dd20981c391e9d9ab53efbb6fa115741afde0d27e revert --grain unit --profile 2
WORKED 1 1000 117 8d927f6b93714a3d2d24456dd20981c391e9d9ab53efbb6fa115741afde0d27e revert --grain unit --profile 3
WORKED 2 100000 8535 45be426b5ff6d7ec8cc25b702934f4f548237d0dc55da7bd6ec560878bea233b revert --grain unit --profile 2
WORKED 2 100000 8535 45be426b5ff6d7ec8cc25b702934f4f548237d0dc55da7bd6ec560878bea233b revert --grain unit --profile 3
";

/// Flashes, and images that ask for nothing.
const ROWS: &str = "\
$ explore WORKED --flash in --cuts 2 < 1792:0=ff
- none none 0 none none none; end
$ explore WORKED --kind none IMAGES --cuts 16
- boot none 0 1.0.0+0/80 2.0.0+0/80 none; end
$ explore WORKED --flash in --cuts 0 < BEGUN,976=50000000,984=02,993=00,920=01
- fault test 0 none none test; end
$ explore WORKED --flash in --cuts 2 < BEGUN,976=50000000,984=02,993=00,920=01
- fault test 0 none none test; end
$ explore WORKED --flash in --cuts 16 < BEGUN,976=50000000,984=02,993=00,920=01
- fault test 0 none none test; end
$ explore WORKED --flash in --cuts 16 < BEGUN,976=50000000,984=02,993=00,888=01
- panic panic 0 none none panic; end
";

/// Pages after cursors and schedules.
const CURSORS: &str = "\
$ explore WORKED --kind test IMAGES --cuts 2 --limit 1 --cursor mc1:START:2:0.17
1 boot test 18 2.0.0+0/80 1.0.0+0/80 revert; next mc1:START:2:1
$ explore WORKED --kind test IMAGES --cuts 2 --limit 1000 --cursor mc1:START:2:17.0
end
$ explore WORKED --kind test IMAGES --cuts 1 --limit 1 --cursor mc1:START:1:16
17 boot test 1 2.0.0+0/80 1.0.0+0/80 revert; next mc1:START:1:17
$ explore WORKED --kind test IMAGES --cuts 1 --limit 2 --cursor mc1:START:1:16
17 boot test 1 2.0.0+0/80 1.0.0+0/80 revert; end
$ explore WORKED --kind test IMAGES --cuts 0 --limit 1 --cursor mc1:START:0:-
end
$ explore WORKED --kind test IMAGES --grain unit --profile 1 --cuts 1 --limit 1 --cursor mc2:unit:1:START:1:-
0 boot test 109 2.0.0+0/80 1.0.0+0/80 revert; next mc2:unit:1:START:1:0
$ explore WORKED --kind test IMAGES --grain unit --profile 1 --cuts 1 --limit 1 --cursor mc2:unit:1:START:1:107
108 boot test 1 2.0.0+0/80 1.0.0+0/80 revert; next mc2:unit:1:START:1:108
$ explore WORKED --kind test IMAGES --grain unit --profile 2 --cuts 1 --limit 1 --cursor mc2:unit:2:START:1:-
0 boot test 109 2.0.0+0/80 1.0.0+0/80 revert; next mc2:unit:2:START:1:0
$ explore WORKED --kind test IMAGES --grain unit --profile 2 --cuts 1 --limit 1 --cursor mc2:unit:2:START:1:107
108 boot test 1 2.0.0+0/80 1.0.0+0/80 revert; next mc2:unit:2:START:1:108
$ explore WORKED --kind test IMAGES --grain unit --profile 3 --cuts 1 --limit 1 --cursor mc2:unit:3:START:1:-
0 boot test 109 2.0.0+0/80 1.0.0+0/80 revert; next mc2:unit:3:START:1:0
$ explore WORKED --kind test IMAGES --grain unit --profile 2 --cuts 1 --limit 1 --cursor mc2:unit:3:START:1:-
! mcsim: E61 OtherRules; exit 1
$ explore WORKED --kind test IMAGES --profile 3 --cuts 1 --limit 1 --cursor mc2:call:3:START:1:16
17 boot test 1 2.0.0+0/80 1.0.0+0/80 revert; next mc2:call:3:START:1:17
$ explore WORKED --kind test IMAGES --profile 2 --cuts 1 --limit 1 --cursor mc2:call:2:START:1:16
17 boot test 1 2.0.0+0/80 1.0.0+0/80 revert; next mc2:call:2:START:1:17
$ explore WORKED --kind test IMAGES --cuts 1 --after 17
end
$ explore WORKED --kind test IMAGES --cuts 1 --after 16
17 boot test 1 2.0.0+0/80 1.0.0+0/80 revert; end
$ explore WORKED --kind test IMAGES --cuts 1 --after 1 --until 3
2 boot test 18 2.0.0+0/80 1.0.0+0/80 revert; end
$ explore WORKED --kind test IMAGES --cuts 1 --after 1 --until 3 --limit 1
2 boot test 18 2.0.0+0/80 1.0.0+0/80 revert; next mc1:START:1:2
$ explore WORKED --kind test IMAGES --cuts 1 --after 1 --until 2
end
$ explore WORKED --kind test IMAGES --cuts 1 --until -
end
$ explore WORKED --kind test IMAGES --cuts 1 --from=- --until 1
- boot test 18 2.0.0+0/80 1.0.0+0/80 revert; 0 boot test 18 2.0.0+0/80 1.0.0+0/80 revert; end
$ explore WORKED --kind test IMAGES --cuts 1 --from 1 --until 3
1 boot test 18 2.0.0+0/80 1.0.0+0/80 revert; 2 boot test 18 2.0.0+0/80 1.0.0+0/80 revert; end
$ explore WORKED --kind test IMAGES --cuts 1 --from 17
17 boot test 1 2.0.0+0/80 1.0.0+0/80 revert; end
$ explore WORKED --kind test IMAGES --cuts 2 --limit 1 --from 1
1 boot test 18 2.0.0+0/80 1.0.0+0/80 revert; next mc1:START:2:1
$ explore WORKED --kind test IMAGES --cuts 16 --limit 1 --from 0.0.0.0.0.0.0.0.0.0.0.0.0.0.0.1
0.0.0.0.0.0.0.0.0.0.0.0.0.0.0.1 boot test 18 2.0.0+0/80 1.0.0+0/80 revert; next mc1:START:16:0.0.0.0.0.0.0.0.0.0.0.0.0.0.0.1
$ explore WORKED --kind test IMAGES --cuts 1 --cursor mc1:START:1:17
end
$ explore WORKED --kind test IMAGES --cuts 1 --limit 1 --cursor mc1:START:1:-
0 boot test 18 2.0.0+0/80 1.0.0+0/80 revert; next mc1:START:1:0
$ explore WORKED --kind test IMAGES --cuts 2 --cursor mc1:START:2:17.0
end
$ explore WORKED --kind test IMAGES --cuts 16 --limit 1 --cursor mc1:START:16:0.0.0.0.0.0.0.0.0.0.0.0.0.0.0.0
0.0.0.0.0.0.0.0.0.0.0.0.0.0.0.1 boot test 18 2.0.0+0/80 1.0.0+0/80 revert; next mc1:START:16:0.0.0.0.0.0.0.0.0.0.0.0.0.0.0.1
$ explore WORKED --kind test IMAGES --cuts 1 --until 0
- boot test 18 2.0.0+0/80 1.0.0+0/80 revert; end
$ explore WORKED --kind test IMAGES --cuts 1 --until 0.5
- boot test 18 2.0.0+0/80 1.0.0+0/80 revert; 0 boot test 18 2.0.0+0/80 1.0.0+0/80 revert; end
$ explore WORKED --kind test IMAGES --cuts 1 --until 3
- boot test 18 2.0.0+0/80 1.0.0+0/80 revert; 0 boot test 18 2.0.0+0/80 1.0.0+0/80 revert; 1 boot test 18 2.0.0+0/80 1.0.0+0/80 revert; 2 boot test 18 2.0.0+0/80 1.0.0+0/80 revert; end
$ explore WORKED --kind test IMAGES --cuts 1 --until 3 --limit 5
- boot test 18 2.0.0+0/80 1.0.0+0/80 revert; 0 boot test 18 2.0.0+0/80 1.0.0+0/80 revert; 1 boot test 18 2.0.0+0/80 1.0.0+0/80 revert; 2 boot test 18 2.0.0+0/80 1.0.0+0/80 revert; end
$ explore WORKED --kind test IMAGES --cuts 1 --until 3 --limit 4
- boot test 18 2.0.0+0/80 1.0.0+0/80 revert; 0 boot test 18 2.0.0+0/80 1.0.0+0/80 revert; 1 boot test 18 2.0.0+0/80 1.0.0+0/80 revert; 2 boot test 18 2.0.0+0/80 1.0.0+0/80 revert; next mc1:START:1:2
$ explore WORKED --kind test IMAGES --cuts 1 --until 3 --limit 2
- boot test 18 2.0.0+0/80 1.0.0+0/80 revert; 0 boot test 18 2.0.0+0/80 1.0.0+0/80 revert; next mc1:START:1:0
$ explore WORKED --flash in --cuts 2 --all-right < BEGUN
! mcsim: E85 NoExpectation; exit 2
$ explore WORKED --flash in --cuts 2 < 1792:1776=MAGIC
- none fail 0 none none fail; end
$ explore WORKED --flash in --cuts 2 < BEGUN,984=02
- panic panic 0 none none panic; end
$ explore WORKED --flash in --cuts 2 < BEGUN
- none none 0 none none none; end
$ survey WORKED --kind test IMAGES --cuts 3
rows 1000; boot 1000; none 0; panic 0; fault 0; most-ops 18; next mc1:START:3:4.5.13
$ explore WORKED --kind none IMAGES --cuts 0 --limit 1
- boot none 0 1.0.0+0/80 2.0.0+0/80 none; next mc1:0cf2f5a1b9a451dc9bb060b1858a94da9927942d58635a051bee1bff2fd4356b:0:-
";

/// Cursors and schedules that are refused. A cursor of whole calls does not serve where the power is cut between units. Texts
/// are checked before a file is opened, and before them that only one of the three is given.
const REFUSED: &str = "\
$ explore WORKED --kind test IMAGES --cuts 2 --cursor mc1:START:2:18
! mcsim: E58 CannotOccur; exit 1
$ explore WORKED --kind test IMAGES --cuts 2 --cursor mc1:START:1:0
! mcsim: E57 OtherBound; exit 1
$ explore WORKED --kind perm IMAGES --cuts 2 --cursor mc1:START:1:18
! mcsim: E56 OtherStart; exit 1
$ explore WORKED --kind test IMAGES --grain unit --cuts 2 --cursor mc1:START:2:-
! mcsim: E61 OtherRules; exit 1
$ explore WORKED --kind test --image-a first --image-b missing --cuts 2 --cursor mc1:START:02:-
! mcsim: E55 Syntax; exit 2
$ explore WORKED --kind test IMAGES --cuts 1 --after 18
! mcsim: E58 CannotOccur; exit 1
$ explore WORKED --kind test IMAGES --cuts 1 --after 0.0
! mcsim: E58 CannotOccur; exit 1
$ explore WORKED --flash missing --cuts 1 --after 01
! mcsim: E60 ScheduleSyntax; exit 2
$ explore WORKED --flash missing --cuts 1 --until 1.
! mcsim: E60 ScheduleSyntax; exit 2
$ explore WORKED --flash missing --cuts 1 --cursor - --until 1.
! mcsim: E55 Syntax; exit 2
$ explore WORKED --flash missing --cuts 1 --after 01 --cursor -
! mcsim: E73 CursorOptions; exit 2
$ explore WORKED --flash missing --cuts 1 --from 01 --cursor -
! mcsim: E73 CursorOptions; exit 2
$ explore WORKED --flash missing --cuts 1 --from 01 --after 01
! mcsim: E73 CursorOptions; exit 2
$ explore WORKED --flash missing --cuts 1 --from 01 --until 1.
! mcsim: E60 ScheduleSyntax; exit 2
$ explore WORKED --kind test IMAGES --cuts 1 --from 18
! mcsim: E58 CannotOccur; exit 1
$ explore WORKED --kind test IMAGES --cuts 1 --from 0.0
! mcsim: E58 CannotOccur; exit 1
$ explore WORKED --kind test IMAGES --cuts 1 --cursor mc1:START:1:18
! mcsim: E58 CannotOccur; exit 1
$ explore WORKED --kind test IMAGES --cuts 1 --cursor mc1:START:1:0.0
! mcsim: E58 CannotOccur; exit 1
$ explore WORKED --kind test IMAGES --cuts 2 --cursor mc1:START:2:17.1
! mcsim: E58 CannotOccur; exit 1
$ explore WORKED --kind test IMAGES --cuts 2 --cursor mc1:START:2:9.9
! mcsim: E58 CannotOccur; exit 1
$ explore WORKED --kind test IMAGES --cuts 16 --cursor mc1:START:16:4294967295
! mcsim: E58 CannotOccur; exit 1
$ explore WORKED --kind test IMAGES --cuts 2 --cursor mc1:START:1:18
! mcsim: E57 OtherBound; exit 1
$ explore WORKED --kind test IMAGES --cuts 2 --cursor mc1:0cf2f5a1b9a451dc9bb060b1858a94da9927942d58635a051bee1bff2fd4356b:1:18
! mcsim: E56 OtherStart; exit 1
$ explore WORKED --kind test IMAGES --cuts 2 --cursor mc2:unit:1:0cf2f5a1b9a451dc9bb060b1858a94da9927942d58635a051bee1bff2fd4356b:1:18
! mcsim: E56 OtherStart; exit 1
$ explore WORKED --kind test IMAGES --cuts 2 --cursor mc2:unit:1:START:1:18
! mcsim: E61 OtherRules; exit 1
$ explore WORKED --kind test IMAGES --cuts 2 --cursor mc2:call:2:START:2:-
! mcsim: E61 OtherRules; exit 1
";

/// Pages that go on where those of three cuts above end, up to the end; what comes after the first row, and before a later one; and
/// an image of two sectors.
const JOINED: &str = "\
$ explore WORKED --kind test IMAGES --cuts 3 --limit 1000 --cursor mc1:START:3:4.5.13
lines 1001 082c04ed7fde998256624af0c174017ee9b812fdfe81b2d2dc49fa0f5f741308
$ explore WORKED --kind test IMAGES --cuts 3 --limit 1000 --cursor mc1:START:3:14.4
lines 59 3e5dbde3d9eafdafccda341b3c4e98ccdff04e08f0659eb8125c0cb9d178aadc
$ explore WORKED --kind test IMAGES --cuts 3 --limit 1029 --cursor mc1:START:3:4.7.12
lines 1030 f1a9f241350a7943480b6b6686d9eb3dcc83c2aaad2bbe02cd04cbc46c68d293
$ explore WORKED --kind test IMAGES --cuts 3 --limit 1029 --cursor mc1:START:3:17.0.0
end
$ explore WORKED --kind test IMAGES --cuts 1 --after=-
lines 19 2de75d2f3fabb7c04ce28ec7c52414ad1cce0197fd8b32e66215f910ca108616
$ explore WORKED --kind test IMAGES --cuts 1 --until 5
lines 7 63bed82178f4688166ce60725efa46f00d4fa5e53c432ac44dbb2d3f3c81a6b7
$ create --version 2 --pad-header --header-size 32 in out < 228:0=zeros
=> 300 bytes
$ explore WORKED --kind test --image-a first --image-b in --cuts 2 --limit 1000 < out
lines 547 ebe6527a1a7ebba32511e755d5ed61e6d13afed11fcbb92eb457c56553b1b0ee
";

static TABLES: [Table; 6] = [
    (STEP, FIELDS, PAGES),
    (STEP, FIELDS, UNIT_PAGES),
    (ROWS, &[], "-"),
    (CURSORS, &[], "-"),
    (REFUSED, &[], "-"),
    (JOINED, &[], "-"),
];

#[test]
fn explores(rt: HostRuntime) {
    all_play(&rt, rt.alloc(), &TABLES)
}
