//! `life`: scripts at the worked layout, with what they print.
use super::support::{
    Table, all_play, contents, in_full, ran_over, same_at, shows, text_of, words_of,
};
use mc_command::{WatchedWriter, run};
use mc_fixtures::{FAULTS, FailingReader, FailingWriter, Failure, Fault, FaultyFiles};
use std::alloc::Global;
use std::cell::RefCell;
use std::io::{Read, Write};
use std::process::Abort;

/// A script, what is printed of it, and what is refused.
struct LifeSession {
    line: &'static str,
    script: &'static str,
    want: &'static str,
}

/// An upgrade that is cut on its way and then stopped by half a download; the trial ends with a torn confirmation. A revert that
/// is forgotten and comes back. An upgrade within an erase of which power is lost, and a download that begins then, by the first profile and the third; a test of which a torn erase makes an upgrade
/// for good. How often sectors are erased by a download and a swap: those of the table in docs/FORMAT.md.
static LIVES: [LifeSession; 7] = [
    LifeSession {
        line: "life WORKED --image first",
        script: "\
# on trial, the way back is lost
boot

download second
request test
boot 9.4
download second 50
boot
mark 00
confirm
",
        want: "\
1 boot boot none 0 1.0.0+0/80 settled none none
2 download second 1.0.0+0/80 settled 2.0.0+0/80 none
3 request test 1.0.0+0/80 settled 2.0.0+0/80 test
4 boot 9.4 boot test 5 2.0.0+0/80 trial 1.0.0+0/80 revert
5 download second 50 2.0.0+0/80 trial none fail
6 boot boot fail 0 2.0.0+0/80 trial none fail
7 mark 00 2.0.0+0/80 settled none none
8 confirm 2.0.0+0/80 settled none none
",
    },
    LifeSession {
        line: "life WORKED --image first",
        script: "\
boot
download second
request perm
tear 5 magic=good,image-ok=bad
boot
erase 0
erase 2
boot",
        want: "\
1 boot boot none 0 1.0.0+0/80 settled none none
2 download second 1.0.0+0/80 settled 2.0.0+0/80 none
3 request perm 1.0.0+0/80 settled 2.0.0+0/80 perm
4 tear 5 magic=good,image-ok=bad 1.0.0+0/80 settled 2.0.0+0/80 none
5 boot boot none 0 1.0.0+0/80 settled 2.0.0+0/80 none
6 erase 0 1.0.0+0/80 settled none none
7 erase 2 1.0.0+0/80 settled none perm
8 boot none perm 14 none settled 1.0.0+0/80 none
",
    },
    LifeSession {
        line: "life WORKED --image first --profile 3",
        script: "boot\ndownload second\nrequest perm\ntear 0x5 magic=good,image-ok=bad\nboot",
        want: "\
1 boot boot none 0 1.0.0+0/80 settled none none
2 download second 1.0.0+0/80 settled 2.0.0+0/80 none
3 request perm 1.0.0+0/80 settled 2.0.0+0/80 perm
4 tear 0x5 magic=good,image-ok=bad 1.0.0+0/80 settled 2.0.0+0/80 perm
5 boot boot perm 14 2.0.0+0/80 settled 1.0.0+0/80 none
",
    },
    LifeSession {
        line: "life WORKED --image first",
        script: "boot\ndownload second\nrequest test\ntear 4 magic=good,image-ok=set\nboot",
        want: "\
1 boot boot none 0 1.0.0+0/80 settled none none
2 download second 1.0.0+0/80 settled 2.0.0+0/80 none
3 request test 1.0.0+0/80 settled 2.0.0+0/80 test
4 tear 4 magic=good,image-ok=set 1.0.0+0/80 settled 2.0.0+0/80 perm
5 boot boot perm 19 2.0.0+0/80 settled 1.0.0+0/80 none
",
    },
    LifeSession {
        line: "life WORKED --image first --grain unit",
        script: "boot\ndownload second\nrequest test\nboot\nboot 4\nerase 2\nboot",
        want: "\
1 boot boot none 0 1.0.0+0/80 settled none none
2 download second 1.0.0+0/80 settled 2.0.0+0/80 none
3 request test 1.0.0+0/80 settled 2.0.0+0/80 test
4 boot boot test 109 2.0.0+0/80 trial 1.0.0+0/80 revert
5 boot 4 boot none 0 2.0.0+0/80 trial 1.0.0+0/80 none
6 erase 2 2.0.0+0/80 trial 1.0.0+0/80 revert
7 boot boot revert 115 1.0.0+0/80 settled 2.0.0+0/80 none
",
    },
    LifeSession {
        line: "life WORKED --image first --wear",
        script: "boot\ndownload second\nrequest test\nboot\nconfirm\n",
        want: "\
1 boot boot none 0 1.0.0+0/80 settled none none
2 download second 1.0.0+0/80 settled 2.0.0+0/80 none
3 request test 1.0.0+0/80 settled 2.0.0+0/80 test
4 boot boot test 18 2.0.0+0/80 trial 1.0.0+0/80 revert
5 confirm 2.0.0+0/80 settled 1.0.0+0/80 none
wear primary 1 0 3
wear secondary 2 0 5
",
    },
    LifeSession {
        line: "life WORKED --image first",
        script: "boot # it runs\r\n#\r\nerase 0x2\r\nwrite \"a second\" 0 0x20\r\nwrite second 32 48 # the rest\nrequest test\nboot 9.4\r\n",
        want: "\
1 boot boot none 0 1.0.0+0/80 settled none none
2 erase 0x2 1.0.0+0/80 settled none none
3 write \"a second\" 0 0x20 1.0.0+0/80 settled none none
4 write second 32 48 1.0.0+0/80 settled 2.0.0+0/80 none
5 request test 1.0.0+0/80 settled 2.0.0+0/80 test
6 boot 9.4 boot test 5 2.0.0+0/80 trial 1.0.0+0/80 revert
",
    },
];

/// Events that can't happen. What comes before them is printed.
static REFUSED: [LifeSession; 24] = [
    LifeSession {
        line: "life WORKED --image first",
        script: "boot\ntear 0 data",
        want: "1 boot boot none 0 1.0.0+0/80 settled none none\n! mcsim: E53 CannotOccur at 0, event 2, line 2\nexit 1\n",
    },
    LifeSession {
        line: "life WORKED --image first",
        script: "boot\ndownload second\nrequest perm\ntear 5 data",
        want: "1 boot boot none 0 1.0.0+0/80 settled none none\n2 download second 1.0.0+0/80 settled 2.0.0+0/80 none\n3 request perm 1.0.0+0/80 settled 2.0.0+0/80 perm\n! mcsim: E93 NoCase, event 4, line 4\nexit 1\n",
    },
    LifeSession {
        line: "life WORKED --image first",
        script: "tear 5",
        want: "! mcsim: E78 EventSyntax, event 1, line 1\nexit 1\n",
    },
    LifeSession {
        line: "life WORKED --image first",
        script: "tear 5 image-ok=bad,magic=good",
        want: "! mcsim: E78 EventSyntax, event 1, line 1\nexit 1\n",
    },
    LifeSession {
        line: "life WORKED --image first",
        script: "\n# off\nerase 0\n",
        want: "! mcsim: E79 NotRunning, event 1, line 3\nexit 1\n",
    },
    LifeSession {
        line: "life WORKED --image first",
        script: "boot\nerase 3",
        want: "1 boot boot none 0 1.0.0+0/80 settled none none\n! mcsim: E81 NoSector, event 2, line 2\nexit 1\n",
    },
    LifeSession {
        line: "life WORKED --image first",
        script: "boot  9\n",
        want: "! mcsim: E78 EventSyntax, event 1, line 1\nexit 1\n",
    },
    LifeSession {
        line: "life WORKED --image first",
        script: "boot\r\n  # nothing\r\ndownload \"a second\" # whole\r\nrequest test#2\r\n",
        want: "1 boot boot none 0 1.0.0+0/80 settled none none\n2 download \"a second\" 1.0.0+0/80 settled 2.0.0+0/80 none\n! mcsim: E78 EventSyntax, event 3, line 4\nexit 1\n",
    },
    LifeSession {
        line: "life WORKED --image first",
        script: "download \"second\n",
        want: "! mcsim: E78 EventSyntax, event 1, line 1\nexit 1\n",
    },
    LifeSession {
        line: "life WORKED --image first",
        script: "cut 0x\n",
        want: "! mcsim: E78 EventSyntax, event 1, line 1\nexit 1\n",
    },
    LifeSession {
        line: "life WORKED --image first",
        script: "write second 0 8\n",
        want: "! mcsim: E79 NotRunning, event 1, line 1\nexit 1\n",
    },
    LifeSession {
        line: "life WORKED --image first",
        script: "boot\nwrite second 4 8\n",
        want: "1 boot boot none 0 1.0.0+0/80 settled none none\n! mcsim: E90 NotAligned, event 2, line 2\nexit 1\n",
    },
    LifeSession {
        line: "life WORKED --image first",
        script: "boot\nwrite second 8 73\n",
        want: "1 boot boot none 0 1.0.0+0/80 settled none none\n! mcsim: E80 NotThatLong, event 2, line 2\nexit 1\n",
    },
    LifeSession {
        line: "life WORKED --image first",
        script: "boot\nwrite second 0 9\nwrite second 8 8\n",
        want: "1 boot boot none 0 1.0.0+0/80 settled none none\n2 write second 0 9 1.0.0+0/80 settled none none\n! mcsim: E40 NotErased, event 3, line 3\nexit 1\n",
    },
    LifeSession {
        line: "life WORKED --image first",
        script: "boot\nwrite missing 0 8\n",
        want: "1 boot boot none 0 1.0.0+0/80 settled none none\n! mcsim: E71 Open, event 2, line 2\nexit 3\n",
    },
    LifeSession {
        line: "life WORKED --image first",
        script: "boot\ndownload second 81\n",
        want: "1 boot boot none 0 1.0.0+0/80 settled none none\n! mcsim: E80 NotThatLong, event 2, line 2\nexit 1\n",
    },
    LifeSession {
        line: "life WORKED --image first",
        script: "mark FF\n",
        want: "! mcsim: E78 EventSyntax, event 1, line 1\nexit 1\n",
    },
    LifeSession {
        line: "life WORKED --image first",
        script: "boot 0\n",
        want: "! mcsim: E53 CannotOccur at 0, event 1, line 1\nexit 1\n",
    },
    LifeSession {
        line: "life WORKED --image first",
        script: "boot\nmark 01\n",
        want: "1 boot boot none 0 1.0.0+0/80 settled none none\n! mcsim: E82 CannotMark, event 2, line 2\nexit 1\n",
    },
    LifeSession {
        line: "life WORKED --image first",
        script: "boot\nstore second\n",
        want: "1 boot boot none 0 1.0.0+0/80 settled none none\n! mcsim: E80 NotThatLong, event 2, line 2\nexit 1\n",
    },
    LifeSession {
        line: "life WORKED --image first",
        script: "boot\nrequest test\nrequest perm\n",
        want: "1 boot boot none 0 1.0.0+0/80 settled none none\n2 request test 1.0.0+0/80 settled none fail\n! mcsim: E40 NotErased, event 3, line 3\nexit 1\n",
    },
    LifeSession {
        line: "life WORKED --image first",
        script: "boot\ndownload missing\n",
        want: "1 boot boot none 0 1.0.0+0/80 settled none none\n! mcsim: E71 Open, event 2, line 2\nexit 3\n",
    },
    LifeSession {
        line: "life WORKED",
        script: "boot\n",
        want: "! mcsim: E83 DeviceOptions\nexit 2\n",
    },
    LifeSession {
        line: "life WORKED --image first",
        script: "boot\ndownload second\nrequest perm\ncut 10\nerase 0\n",
        want: "1 boot boot none 0 1.0.0+0/80 settled none none\n2 download second 1.0.0+0/80 settled 2.0.0+0/80 none\n3 request perm 1.0.0+0/80 settled 2.0.0+0/80 perm\n4 cut 10 1.0.0+0/80 settled 2.0.0+0/80 perm\n! mcsim: E79 NotRunning, event 5, line 5\nexit 1\n",
    },
];

/// Lives whose script is a file: of a flash, by other rules; and files that would be lost.
const FILES: &str = "\
$ life WORKED --flash in --grain unit --profile 2 script < TORN
1 boot boot revert 115 1.0.0+0/80 settled 2.0.0+0/80 none
2 download second 1.0.0+0/80 settled 2.0.0+0/80 none
$ life WORKED --image first --out second script
! mcsim: E75 SameFile; exit 2
$ life WORKED --image first --out script script
! mcsim: E75 SameFile; exit 2
";

static TABLES: [Table; 1] = [(FILES, &[], "-")];

/// Looks what each of some scripts prints.
fn show_all(rt: &impl Abort, alloc: Global, shown: &[LifeSession]) {
    for one in shown {
        let line = in_full(rt, alloc, one.line);
        shows(rt, alloc, line.as_str(), one.script.as_bytes(), one.want);
    }
}

#[test]
fn shows_lives_or_refuses_them(rt: HostRuntime) {
    show_all(&rt, rt.alloc(), &LIVES);
    show_all(&rt, rt.alloc(), &REFUSED);
    all_play(&rt, rt.alloc(), &TABLES)
}

/// How a life ends that reads its script here and is printed there: its status, and the line of a refusal.
fn ends<R: Read, W: Write + Drop>(
    rt: &impl Abort,
    alloc: Global,
    line: &str,
    input: &mut R,
    out: &mut WatchedWriter<W>,
) -> (u8, String) {
    let written = RefCell::new(Vec::new(alloc));
    let files = FaultyFiles {
        input: &[],
        written: &written,
        reads: 0,
        writes: 0,
        fault: Fault::Error,
    };
    let line = in_full(rt, alloc, line);
    let words = words_of(rt, alloc, line.as_str());
    let mut err = Vec::new(alloc);
    let status = run(&files, alloc, words.as_slice(), input, out, &mut err);
    (status, text_of(rt, err))
}

/// A script, and how many bytes it has.
static SCRIPT: (&str, usize) = ("boot\nerase 0\n", 13);

/// Looks how a life ends where a read of its script fails so, from a file.
fn file_breaks_off(rt: &impl Abort, alloc: Global, failure: Failure) {
    let line = in_full(rt, alloc, "life WORKED --image first in");
    let calls = (failure.calls, usize::MAX, failure.fault);
    let ended = ran_over(rt, alloc, line.as_str(), SCRIPT.0.as_bytes(), calls);
    let shown = ended.text(rt, alloc);
    same_at(
        rt,
        &failure,
        &shown.as_str(),
        &"! mcsim: E24 Read\nexit 3\n",
    )
}

/// The same from standard input.
fn input_breaks_off(rt: &impl Abort, alloc: Global, failure: Failure) {
    let mut input = FailingReader {
        left: SCRIPT.0.as_bytes(),
        failure,
    };
    let mut out = WatchedWriter::new(Vec::new(alloc));
    let (status, err) = ends(rt, alloc, "life WORKED --image first", &mut input, &mut out);
    let shown = (status, err.as_str(), out.writer.is_empty());
    same_at(rt, &failure, &shown, &(3, "mcsim: E24 Read\n", true))
}

#[test]
fn a_read_that_fails_ends_it(rt: HostRuntime) {
    // Each byte has a read, and the end has one.
    for calls in 0..=SCRIPT.1 {
        for (fault, lasts) in FAULTS.into_iter().take(4) {
            let failure = Failure {
                calls,
                fault,
                lasts,
            };
            file_breaks_off(&rt, rt.alloc(), failure);
            input_breaks_off(&rt, rt.alloc(), failure);
        }
    }
}

/// How a life of this text ends where the write after so many fails.
fn end_of(want: &str, calls: usize) -> (u8, &str, Option<&[u8]>) {
    let taken = want.as_bytes().get(..calls);
    if calls < want.len() {
        (3, "mcsim: E25 Write\n", taken)
    } else {
        (0, "", taken)
    }
}

/// Looks whether what is out before a write fails is the beginning of the text.
fn breaks_off(rt: &impl Abort, alloc: Global, shown: &LifeSession, failure: Failure) {
    let mut out = WatchedWriter::new(FailingWriter {
        taken: Vec::new(alloc),
        failure,
    });
    let mut script = shown.script.as_bytes();
    let (status, err) = ends(rt, alloc, shown.line, &mut script, &mut out);
    let found = (status, err.as_str(), Some(out.writer.taken.as_slice()));
    same_at(rt, &failure, &found, &end_of(shown.want, failure.calls))
}

#[test]
fn a_write_that_fails_ends_it(rt: HostRuntime) {
    let shown = &LIVES[2];
    // Each byte has a write, which fails in one way or another, and after the last there is none.
    let failures = FAULTS.into_iter().cycle();
    for (calls, (fault, lasts)) in (0..=shown.want.len()).zip(failures) {
        let failure = Failure {
            calls,
            fault,
            lasts,
        };
        breaks_off(&rt, rt.alloc(), shown, failure);
    }
}

/// What is reported of a life whose flash cannot be written from some byte on.
static NOT_WRITTEN: &str =
    "1 boot boot none 0 1.0.0+0/80 settled none none\n! mcsim: E25 Write\nexit 3\n";

/// Looks how a life ends whose flash cannot be written from some byte on.
fn flash_breaks_off(rt: &impl Abort, alloc: Global, writes: usize, fault: Fault) {
    let line = in_full(rt, alloc, "life WORKED --image first --out out in");
    let calls = (usize::MAX, writes, fault);
    let ended = ran_over(rt, alloc, line.as_str(), b"boot\n", calls);
    let shown = ended.text(rt, alloc);
    let flash = contents(rt, alloc, "1792:0=first");
    let found = (shown.as_str(), Some(ended.written.as_slice()));
    let wanted = (NOT_WRITTEN, flash.as_slice().get(..writes));
    same_at(rt, &calls, &found, &wanted)
}

#[test]
fn a_write_of_the_flash_that_fails_ends_it(rt: HostRuntime) {
    for writes in [0, 1, 80, 1023, 1024, 1791] {
        for fault in [Fault::Error, Fault::Interruption, Fault::NoBytes] {
            flash_breaks_off(&rt, rt.alloc(), writes, fault);
        }
    }
}

/// Looks what is reported of a life with this script.
fn is_shown(rt: &impl Abort, alloc: Global, script: &[u8], want: &str) {
    let line = in_full(rt, alloc, "life WORKED --image first");
    shows(rt, alloc, line.as_str(), script, want);
}

/// What is no text, and what is too long.
#[test]
fn refuses_what_is_no_script(rt: HostRuntime) {
    let alloc = rt.alloc();
    for script in [b"boot\n\xff".as_slice(), b"#\xc3\nboot\n".as_slice()] {
        is_shown(&rt, alloc, script, "! mcsim: E84 ScriptText\nexit 1\n");
    }
    let mut script = b"boot\n".to_vec(alloc).expect(&rt, "memory");
    for (length, want) in [
        (1 << 24, "1 boot boot none 0 1.0.0+0/80 settled none none\n"),
        ((1 << 24) + 1, "! mcsim: E23 InputTooLong\nexit 1\n"),
    ] {
        script.resize(length, b'#').expect(&rt, "memory");
        is_shown(&rt, alloc, script.as_slice(), want);
    }
}
