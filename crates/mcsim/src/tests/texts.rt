//! Texts of versions, schedules and cursors: those that are read, and those that are refused before a file is opened.
use super::support::{Table, all_play};

/// Schedules; the file of the flash is asked for then.
const SCHEDULES: &str = "\
-
0
17
0.17
4294967295.0
1.2.3.4.5.6.7.8.9.10.11.12.13.14.15.16
";

/// Texts that are no schedules.
const NO_SCHEDULES: &str = "\
.
01
1.
.1
1..2
+1
-1
--
1.-
1,2
4294967296
0.0.0.0.0.0.0.0.0.0.0.0.0.0.0.0.0
";

/// Texts of versions outside the form.
const NO_VERSIONS: &str = "\
01
1.2+4
1.
1.2.3+4+5
1.2.3.4
a
1a
1.2.3+
256.x
";

/// Texts of versions with a number that is too great.
const GREAT_VERSIONS: &str = "\
256
1.256
1.2.65536
1.2.3+4294967296
99999999999999999999999
";

/// Cursors.
const CURSORS: &str = "\
mc1:START:0:-
mc1:START:2:0.17
mc1:START:16:4294967295
mc2:call:2:START:0:-
mc2:call:2:START:2:0.17
mc2:call:2:START:16:4294967295
mc2:unit:1:START:0:-
mc2:unit:1:START:2:0.17
mc2:unit:1:START:16:4294967295
mc2:unit:2:START:0:-
mc2:unit:2:START:2:0.17
mc2:unit:2:START:16:4294967295
";

/// Texts that are no cursors, the last of them with digits of upper case.
const NO_CURSORS: &str = "\
-
mc1
mc1:
mc1:START
mc1:START:
mc1:START:1
mc1:START:1:
mc1:START:02:-
mc1:START:17:-
mc1:START:+1:-
mc1:START:-1:-
mc1:START:1:01
mc1:START:1:1.
mc1:START:1:.1
mc1:START:1:0..1
mc1:START:1:4294967296
mc1:START:1:0.0.0.0.0.0.0.0.0.0.0.0.0.0.0.0.0
mc1:START:1:-:
MC1:START:1:-
mc0:START:1:-
mc1:START0:1:-
mc1::START:1:-
mc2:START:1:-
mc2:call:1:START:1:-
mc2:unit:4:START:1:-
mc2:unit:01:START:1:-
mc2:word:1:START:1:-
mc2:Unit:2:START:1:-
mc2:unit:2:START:1
mc3:unit:2:leave:START:1:-
mc3:unit:2:START:1:-
mc1:00112233445566778899AABBCCDDEEFF00112233445566778899aabbccddeeff:0:-
";

/// Cursors of campaigns.
const CAMPAIGN_CURSORS: &str = "\
mc3:call:1:leave:START:0:-
mc3:call:1:confirm:START:1:1.17
mc3:call:2:leave:START:2:1.17,2.0
mc3:unit:1:confirm:START:16:2.4294967295
mc3:unit:2:leave:START:10:1.0,1.0,2.22
";

/// Texts that are no cursors of campaigns, the last of them with digits of upper case.
const NO_CAMPAIGN_CURSORS: &str = "\
mc3
mc3:
mc3:call:1:leave:START:02:-
mc3:call:1:leave:START:00:-
mc3:call:1:leave:START:17:-
mc3:call:1:leave:START:+1:-
mc3:call:1:leave:START:1:1.01
mc3:call:1:leave:START:1:17
mc3:call:1:leave:START:1:2.0,1.0
mc3:call:1:leave:START:1:
mc3:call:1:leave:START:1
mc3:call:1:leave:START:-
mc3:call:1:leave:1:-
mc3:call:1:START:1:-
mc3:call:leave:START:1:-
mc3:1:leave:START:1:-
mc3:call:1:stay:START:1:-
mc3:call:1:Leave:START:1:-
mc3:call:1::START:1:-
mc3:call:4:leave:START:1:-
mc3:call:01:leave:START:1:-
mc3:word:1:leave:START:1:-
mc3:call:1:leave:START0:1:-
MC3:call:1:leave:START:1:-
mc2:call:1:leave:START:1:-
mc1:START:1:-
mc3:START:1:-
mc3:call:1:leave:00112233445566778899AABBCC00EEFF00112233445566778899aabbccddeeff:1:-
";

/// The name of a line's text in its step.
const TEXT: &[&str] = &["TEXT"];

/// The file of a flash is asked for where its schedule or its cursor is read.
static TABLES: [Table; 8] = [
    (
        "$ create --version TEXT --header-size 32 missing out\n! mcsim: E15 Syntax; exit 2\n",
        TEXT,
        NO_VERSIONS,
    ),
    (
        "$ create --version TEXT --header-size 32 missing out\n! mcsim: E16 Range; exit 2\n",
        TEXT,
        GREAT_VERSIONS,
    ),
    (
        "$ replay WORKED --flash missing --schedule=TEXT\n! mcsim: E71 Open; exit 3\n",
        TEXT,
        SCHEDULES,
    ),
    (
        "$ replay WORKED --flash missing --schedule=TEXT\n! mcsim: E60 ScheduleSyntax; exit 2\n",
        TEXT,
        NO_SCHEDULES,
    ),
    (
        "$ explore WORKED --flash missing --cuts 2 --cursor TEXT\n! mcsim: E71 Open; exit 3\n",
        TEXT,
        CURSORS,
    ),
    (
        "$ explore WORKED --flash missing --cuts 2 --cursor TEXT\n! mcsim: E55 Syntax; exit 2\n",
        TEXT,
        NO_CURSORS,
    ),
    (
        "$ campaign WORKED --flash missing --cuts 2 --cursor TEXT\n! mcsim: E71 Open; exit 3\n",
        TEXT,
        CAMPAIGN_CURSORS,
    ),
    (
        "$ campaign WORKED --flash missing --cuts 2 --cursor TEXT\n! mcsim: E55 Syntax; exit 2\n",
        TEXT,
        NO_CAMPAIGN_CURSORS,
    ),
];

#[test]
fn texts_are_read_or_refused(rt: HostRuntime) {
    all_play(&rt, rt.alloc(), &TABLES)
}
