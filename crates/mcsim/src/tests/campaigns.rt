//! `campaign` at the worked layout, by rows of a model that shares no code with this repository.
use super::support::{Table, all_play};

/// The step of a page, and the names of a line's fields there.
const STEP: &str = "\
$ campaign LAYOUT --kind KIND IMAGES --cuts CUTS --limit LIMIT
lines LINES SHA
";

const FIELDS: &[&str] = &["LAYOUT", "CUTS", "LIMIT", "LINES", "SHA", "KIND"];

/// Pages of campaigns, in the form of those of schedules: first the images that ask for nothing, then a test, an upgrade that
/// stays, and a finished test; then pages of fewer rows.
const PAGES: &str = "\
WORKED 0 100000 2 e3356c0e3a45041d5062b97f7d99d7d8c353ab7715c17cb2842675cd6a88f33b none
WORKED 1 100000 2 e3356c0e3a45041d5062b97f7d99d7d8c353ab7715c17cb2842675cd6a88f33b none
WORKED 2 100000 2 e3356c0e3a45041d5062b97f7d99d7d8c353ab7715c17cb2842675cd6a88f33b none
WORKED 0 100000 2 e3356c0e3a45041d5062b97f7d99d7d8c353ab7715c17cb2842675cd6a88f33b none --grain call --profile 2
WORKED 1 100000 2 e3356c0e3a45041d5062b97f7d99d7d8c353ab7715c17cb2842675cd6a88f33b none --grain call --profile 2
WORKED 2 100000 2 e3356c0e3a45041d5062b97f7d99d7d8c353ab7715c17cb2842675cd6a88f33b none --grain call --profile 2
WORKED 0 100000 2 e3356c0e3a45041d5062b97f7d99d7d8c353ab7715c17cb2842675cd6a88f33b none --grain unit --profile 1
WORKED 1 100000 2 e3356c0e3a45041d5062b97f7d99d7d8c353ab7715c17cb2842675cd6a88f33b none --grain unit --profile 1
WORKED 0 100000 2 e3356c0e3a45041d5062b97f7d99d7d8c353ab7715c17cb2842675cd6a88f33b none --grain unit --profile 2
WORKED 1 100000 2 e3356c0e3a45041d5062b97f7d99d7d8c353ab7715c17cb2842675cd6a88f33b none --grain unit --profile 2
WORKED 0 100000 2 e3356c0e3a45041d5062b97f7d99d7d8c353ab7715c17cb2842675cd6a88f33b none --confirm
WORKED 1 100000 2 e3356c0e3a45041d5062b97f7d99d7d8c353ab7715c17cb2842675cd6a88f33b none --confirm
WORKED 2 100000 2 e3356c0e3a45041d5062b97f7d99d7d8c353ab7715c17cb2842675cd6a88f33b none --confirm
WORKED 0 100000 2 e3356c0e3a45041d5062b97f7d99d7d8c353ab7715c17cb2842675cd6a88f33b none --grain call --profile 2 --confirm
WORKED 1 100000 2 e3356c0e3a45041d5062b97f7d99d7d8c353ab7715c17cb2842675cd6a88f33b none --grain call --profile 2 --confirm
WORKED 2 100000 2 e3356c0e3a45041d5062b97f7d99d7d8c353ab7715c17cb2842675cd6a88f33b none --grain call --profile 2 --confirm
WORKED 0 100000 2 e3356c0e3a45041d5062b97f7d99d7d8c353ab7715c17cb2842675cd6a88f33b none --grain unit --profile 1 --confirm
WORKED 1 100000 2 e3356c0e3a45041d5062b97f7d99d7d8c353ab7715c17cb2842675cd6a88f33b none --grain unit --profile 1 --confirm
WORKED 0 100000 2 e3356c0e3a45041d5062b97f7d99d7d8c353ab7715c17cb2842675cd6a88f33b none --grain unit --profile 2 --confirm
WORKED 1 100000 2 e3356c0e3a45041d5062b97f7d99d7d8c353ab7715c17cb2842675cd6a88f33b none --grain unit --profile 2 --confirm
WORKED 0 100000 2 51e031598bd6b5086aa17d82d2c3d8fee0f44d294935b5f0ee887820430cdd21 test
WORKED 1 100000 43 d1fd508d892262e5f0cc5328f002479c97402be9bfd6b63a990693079f893022 test
WORKED 2 100000 979 43b6340b839eddc45cace8307b9a6f5b788ef3eda0bbccb1f6ebd80e03124fcc test
WORKED 0 100000 2 51e031598bd6b5086aa17d82d2c3d8fee0f44d294935b5f0ee887820430cdd21 test --grain call --profile 2
WORKED 1 100000 43 d1fd508d892262e5f0cc5328f002479c97402be9bfd6b63a990693079f893022 test --grain call --profile 2
WORKED 2 100000 979 43b6340b839eddc45cace8307b9a6f5b788ef3eda0bbccb1f6ebd80e03124fcc test --grain call --profile 2
WORKED 0 100000 2 9441745905097c9d91b167d5b1cf1c11459b7802b15367b6d271a5fc36f92edd test --grain unit --profile 1
WORKED 1 100000 226 0d7c6e460857f24218bd6303c7e93fbe656e9ba8766ec9239ed72ad56de6ff63 test --grain unit --profile 1
WORKED 0 100000 2 9441745905097c9d91b167d5b1cf1c11459b7802b15367b6d271a5fc36f92edd test --grain unit --profile 2
WORKED 1 100000 226 46b1b6893f04cee328c8eab2562ed7972c7be67e50ece7a0cde54feeb6c87d10 test --grain unit --profile 2
WORKED 0 100000 2 f01a7b1ced93bb5a72c28e5677445d85552f1fad275267a9fc4bc8c2e89b458c test --confirm
WORKED 1 100000 20 3862f56bb18bfd3fc4e3203e233a45e280eb3f37c2be5c4a1b20dd92b2d834a0 test --confirm
WORKED 2 100000 223 7e1fa1c11f75462eac54ffff3c951bc94a27bcc07248bf15ad57fc0e55e1f2e5 test --confirm
WORKED 0 100000 2 f01a7b1ced93bb5a72c28e5677445d85552f1fad275267a9fc4bc8c2e89b458c test --grain call --profile 2 --confirm
WORKED 1 100000 20 3862f56bb18bfd3fc4e3203e233a45e280eb3f37c2be5c4a1b20dd92b2d834a0 test --grain call --profile 2 --confirm
WORKED 2 100000 223 7e1fa1c11f75462eac54ffff3c951bc94a27bcc07248bf15ad57fc0e55e1f2e5 test --grain call --profile 2 --confirm
WORKED 0 100000 2 33fee5f902b76be3f925108c7823426f22099e2ad77323a86308bcd155e43a1f test --grain unit --profile 1 --confirm
WORKED 1 100000 111 ab8c8b40ba485d6b0148afbce2c7109fc2bdcd5ea3fbdb355b90255393390481 test --grain unit --profile 1 --confirm
WORKED 0 100000 2 33fee5f902b76be3f925108c7823426f22099e2ad77323a86308bcd155e43a1f test --grain unit --profile 2 --confirm
WORKED 1 100000 111 ab8c8b40ba485d6b0148afbce2c7109fc2bdcd5ea3fbdb355b90255393390481 test --grain unit --profile 2 --confirm
WORKED 0 100000 2 9b1ecbd7b1a9ba967641c420bdd0051e4463264f2bc741217b9440f5ba8fa6ef perm
WORKED 1 100000 21 6a9f4641b581585235a8ac897dcbdf4e9f655e6976b165b34e4c6b0b5531ee08 perm
WORKED 2 100000 248 1776c08bd74c80deecf8ae8ade7329b12def073ade06fca25db9901e54262fa3 perm
WORKED 0 100000 2 9b1ecbd7b1a9ba967641c420bdd0051e4463264f2bc741217b9440f5ba8fa6ef perm --grain call --profile 2
WORKED 1 100000 21 6a9f4641b581585235a8ac897dcbdf4e9f655e6976b165b34e4c6b0b5531ee08 perm --grain call --profile 2
WORKED 2 100000 248 1776c08bd74c80deecf8ae8ade7329b12def073ade06fca25db9901e54262fa3 perm --grain call --profile 2
WORKED 0 100000 2 17b7c09bc82b2271507d6c6a620f65d35ff35ba675baf4c704ca40ac35c5679c perm --grain unit --profile 1
WORKED 1 100000 112 a4fd76f769583b4e696ed28d6c67f63884acdc001c8cea6a9b6a7dca397df5dd perm --grain unit --profile 1
WORKED 0 100000 2 17b7c09bc82b2271507d6c6a620f65d35ff35ba675baf4c704ca40ac35c5679c perm --grain unit --profile 2
WORKED 1 100000 112 a4fd76f769583b4e696ed28d6c67f63884acdc001c8cea6a9b6a7dca397df5dd perm --grain unit --profile 2
WORKED 0 100000 2 9b1ecbd7b1a9ba967641c420bdd0051e4463264f2bc741217b9440f5ba8fa6ef perm --confirm
WORKED 1 100000 21 6a9f4641b581585235a8ac897dcbdf4e9f655e6976b165b34e4c6b0b5531ee08 perm --confirm
WORKED 2 100000 248 1776c08bd74c80deecf8ae8ade7329b12def073ade06fca25db9901e54262fa3 perm --confirm
WORKED 0 100000 2 9b1ecbd7b1a9ba967641c420bdd0051e4463264f2bc741217b9440f5ba8fa6ef perm --grain call --profile 2 --confirm
WORKED 1 100000 21 6a9f4641b581585235a8ac897dcbdf4e9f655e6976b165b34e4c6b0b5531ee08 perm --grain call --profile 2 --confirm
WORKED 2 100000 248 1776c08bd74c80deecf8ae8ade7329b12def073ade06fca25db9901e54262fa3 perm --grain call --profile 2 --confirm
WORKED 0 100000 2 17b7c09bc82b2271507d6c6a620f65d35ff35ba675baf4c704ca40ac35c5679c perm --grain unit --profile 1 --confirm
WORKED 1 100000 112 a4fd76f769583b4e696ed28d6c67f63884acdc001c8cea6a9b6a7dca397df5dd perm --grain unit --profile 1 --confirm
WORKED 0 100000 2 17b7c09bc82b2271507d6c6a620f65d35ff35ba675baf4c704ca40ac35c5679c perm --grain unit --profile 2 --confirm
WORKED 1 100000 112 a4fd76f769583b4e696ed28d6c67f63884acdc001c8cea6a9b6a7dca397df5dd perm --grain unit --profile 2 --confirm
WORKED 0 100000 2 6a4323cfc12ced6f5c42063c8187016f696196f89c0a72aaa4690cb8d1a5103a revert
WORKED 1 100000 25 ee12a66fc693ed4fdb34575200e981f8dc6f2dae8210db45a0e24160a12bf85c revert
WORKED 2 100000 344 b68bd49cd2f3ade2d4ab3beaaeab3b2413d5052fc2388cc977183bc56cdc4dc9 revert
WORKED 0 100000 2 6a4323cfc12ced6f5c42063c8187016f696196f89c0a72aaa4690cb8d1a5103a revert --grain call --profile 2
WORKED 1 100000 25 ee12a66fc693ed4fdb34575200e981f8dc6f2dae8210db45a0e24160a12bf85c revert --grain call --profile 2
WORKED 2 100000 344 b68bd49cd2f3ade2d4ab3beaaeab3b2413d5052fc2388cc977183bc56cdc4dc9 revert --grain call --profile 2
WORKED 0 100000 2 9df1d1540c1026c2cf84b13c4294537f3105e8c10a7c719638693ca42735ad20 revert --grain unit --profile 1
WORKED 1 100000 117 dd7e3a3d596ce7e07cf80d41cd9b96fc727b00219ad7497908bc2c4183b534b6 revert --grain unit --profile 1
WORKED 0 100000 2 9df1d1540c1026c2cf84b13c4294537f3105e8c10a7c719638693ca42735ad20 revert --grain unit --profile 2
WORKED 1 100000 117 9d572b4db0500605082024edb2d5492a06179f6cc2f5d3459c5decdafb055193 revert --grain unit --profile 2
WORKED 1 100000 117 9d572b4db0500605082024edb2d5492a06179f6cc2f5d3459c5decdafb055193 revert --grain unit --profile 3
WORKED 0 100000 2 6a4323cfc12ced6f5c42063c8187016f696196f89c0a72aaa4690cb8d1a5103a revert --confirm
WORKED 1 100000 25 ee12a66fc693ed4fdb34575200e981f8dc6f2dae8210db45a0e24160a12bf85c revert --confirm
WORKED 2 100000 344 b68bd49cd2f3ade2d4ab3beaaeab3b2413d5052fc2388cc977183bc56cdc4dc9 revert --confirm
WORKED 0 100000 2 6a4323cfc12ced6f5c42063c8187016f696196f89c0a72aaa4690cb8d1a5103a revert --grain call --profile 2 --confirm
WORKED 1 100000 25 ee12a66fc693ed4fdb34575200e981f8dc6f2dae8210db45a0e24160a12bf85c revert --grain call --profile 2 --confirm
WORKED 2 100000 344 b68bd49cd2f3ade2d4ab3beaaeab3b2413d5052fc2388cc977183bc56cdc4dc9 revert --grain call --profile 2 --confirm
WORKED 0 100000 2 9df1d1540c1026c2cf84b13c4294537f3105e8c10a7c719638693ca42735ad20 revert --grain unit --profile 1 --confirm
WORKED 1 100000 117 dd7e3a3d596ce7e07cf80d41cd9b96fc727b00219ad7497908bc2c4183b534b6 revert --grain unit --profile 1 --confirm
WORKED 0 100000 2 9df1d1540c1026c2cf84b13c4294537f3105e8c10a7c719638693ca42735ad20 revert --grain unit --profile 2 --confirm
WORKED 1 100000 117 9d572b4db0500605082024edb2d5492a06179f6cc2f5d3459c5decdafb055193 revert --grain unit --profile 2 --confirm
WORKED 1 1 2 d7b142da08d394d488a9fc921fda2da3c74d905e71519317e1888f8da1293757 test
WORKED 1 20 21 08d19b6ff7c74523131826c7716c99d6d617d971371632b0b05769aeeb875f2c test
WORKED 1 41 42 d32912a2995dc540637cb394f97653e90bbe7d2478373cf747c9345132137f9e test
WORKED 1 42 43 5343c6ed65eb22492dce418d3ac0c11bbe89ee2b7d8859f87faaeef8fb459187 test
WORKED 1 43 43 d1fd508d892262e5f0cc5328f002479c97402be9bfd6b63a990693079f893022 test
";

/// No cut, with either choice; what comes after some campaigns, across the seam between the rounds too; the last row; and the
/// cursors that do not serve.
const CAMPAIGNS: &str = "\
$ campaign WORKED --kind test IMAGES --cuts 0
- boot test 18 boot revert 23 1.0.0+0/80 2.0.0+0/80 none; end
$ campaign WORKED --kind test IMAGES --cuts 0 --confirm
- boot test 18 boot none 0 2.0.0+0/80 1.0.0+0/80 none; end
$ campaign WORKED --kind test IMAGES --cuts 1 --limit 1 --cursor mc3:call:1:leave:START:1:1.17
2.0 boot test 18 boot revert 23 1.0.0+0/80 2.0.0+0/80 none; next mc3:call:1:leave:START:1:2.0
$ campaign WORKED --kind test IMAGES --cuts 1 --limit 1 --cursor mc3:call:1:leave:START:1:2.3
2.4 boot test 18 boot perm 19 1.0.0+0/80 2.0.0+0/80 none; next mc3:call:1:leave:START:1:2.4
$ campaign WORKED --kind test IMAGES --cuts 1 --cursor mc3:call:1:leave:START:1:2.22
end
$ campaign WORKED --kind test IMAGES --cuts 2 --limit 1 --cursor mc3:call:1:leave:START:2:1.0,1.17
1.0,2.0 boot test 18 boot revert 23 1.0.0+0/80 2.0.0+0/80 none; next mc3:call:1:leave:START:2:1.0,2.0
$ campaign WORKED --kind test IMAGES --cuts 2 --limit 1 --cursor mc3:call:1:leave:START:2:1.0,2.22
1.1 boot test 18 boot revert 23 1.0.0+0/80 2.0.0+0/80 none; next mc3:call:1:leave:START:2:1.1
$ campaign WORKED --kind test IMAGES --cuts 2 --cursor mc3:call:1:leave:START:2:2.22,2.0
end
$ campaign WORKED --kind test IMAGES --cuts 1 --limit 1 --grain unit --cursor mc3:unit:1:leave:START:1:2.3
2.4 boot test 109 boot none 0 2.0.0+0/80 1.0.0+0/80 none; next mc3:unit:1:leave:START:1:2.4
$ campaign WORKED --kind test IMAGES --cuts 1 --confirm --cursor mc3:call:1:leave:START:1:1.17
! mcsim: E61 OtherRules; exit 1
$ campaign WORKED --kind test IMAGES --cuts 2 --cursor mc3:call:1:leave:START:1:1.17
! mcsim: E57 OtherBound; exit 1
$ campaign WORKED --kind test IMAGES --cuts 1 --cursor mc3:call:1:leave:START:1:1.18
! mcsim: E58 CannotOccur; exit 1
$ campaign WORKED --kind perm IMAGES --cuts 1 --cursor mc3:call:1:leave:START:1:1.17
! mcsim: E56 OtherStart; exit 1
$ campaign WORKED --kind test IMAGES --cuts 1 --cursor mc1:START:1:17
! mcsim: E55 Syntax; exit 2
$ campaign WORKED --kind test IMAGES --cuts 1 --limit 1 --cursor mc3:call:1:leave:START:1:-
1.0 boot test 18 boot revert 23 1.0.0+0/80 2.0.0+0/80 none; next mc3:call:1:leave:START:1:1.0
$ campaign WORKED --kind test IMAGES --cuts 1 --limit 1 --cursor mc3:call:1:leave:START:1:1.16
1.17 boot test 1 boot revert 23 1.0.0+0/80 2.0.0+0/80 none; next mc3:call:1:leave:START:1:1.17
$ campaign WORKED --kind test IMAGES --cuts 1 --limit 1 --cursor mc3:call:1:leave:START:1:2.21
2.22 boot test 18 boot revert 1 1.0.0+0/80 2.0.0+0/80 none; next mc3:call:1:leave:START:1:2.22
$ campaign WORKED --kind test IMAGES --cuts 1 --confirm --cursor mc3:call:1:leave:START:1:-
! mcsim: E61 OtherRules; exit 1
$ campaign WORKED --kind test IMAGES --cuts 2 --cursor mc3:call:1:leave:START:1:-
! mcsim: E57 OtherBound; exit 1
$ campaign WORKED --kind test IMAGES --cuts 1 --cursor mc3:call:1:leave:START:1:2.23
! mcsim: E58 CannotOccur; exit 1
$ campaign WORKED --kind test IMAGES --cuts 1 --cursor mc3:call:1:leave:START:1:1.0,2.0
! mcsim: E58 CannotOccur; exit 1
";

static TABLES: [Table; 2] = [(STEP, FIELDS, PAGES), (CAMPAIGNS, &[], "-")];

#[test]
fn lists_campaigns(rt: HostRuntime) {
    all_play(&rt, rt.alloc(), &TABLES)
}
