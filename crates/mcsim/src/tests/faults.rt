//! Command lines whose reads and writes fail, each at each call.
use super::support::{broken_over, contents, in_full, ran_over, same_at, words_of};
use mc_command::{KnownFiles, WatchedWriter, run};
use mc_fixtures::{Failure, Fault, FaultyFile, FaultyFiles, PAYLOAD, PLAIN_IMAGE};
use std::alloc::Global;
use std::cell::RefCell;
use std::process::Abort;

static FAULTS: [Fault; 3] = [Fault::Error, Fault::Interruption, Fault::NoBytes];

/// A command line that makes an image of the payload.
static CREATE: &str = "create --version 1.2.3+4 --header-size 32 --pad-header in out";

/// Runs `create` over two files that fail so, and looks at what it prints and writes.
fn ends(rt: &impl Abort, alloc: Global, calls: (usize, usize, Fault), text: &str, written: &[u8]) {
    let ended = ran_over(rt, alloc, CREATE, &PAYLOAD, calls);
    let shown = ended.text(rt, alloc);
    let found = (shown.as_str(), ended.written.as_slice());
    same_at(rt, &calls, &found, &(text, written))
}

#[test]
fn create_meets_failing_reads(rt: HostRuntime) {
    // 8 reads of one byte, and one that finds the end.
    let text = "! mcsim: E24 Read\nexit 3\n";
    for reads in 0..9 {
        for fault in [Fault::Error, Fault::Interruption] {
            ends(&rt, rt.alloc(), (reads, 1000, fault), text, &[]);
        }
    }
}

#[test]
fn create_meets_failing_writes(rt: HostRuntime) {
    let text = "! mcsim: E25 Write\nexit 3\n";
    for offset in 0..80 {
        for fault in FAULTS {
            let prefix = &PLAIN_IMAGE[..offset];
            ends(&rt, rt.alloc(), (1000, offset, fault), text, prefix);
        }
    }
    ends(
        &rt,
        rt.alloc(),
        (1000, 1000, Fault::Error),
        "",
        &PLAIN_IMAGE,
    )
}

/// A stream that fails at each call.
fn failing(unused: &RefCell<Vec<u8>>) -> FaultyFile<'_> {
    FaultyFile {
        rest: &[],
        written: unused,
        failure: Failure {
            calls: 0,
            fault: Fault::Error,
            lasts: true,
        },
    }
}

/// The status of a command line with such streams.
fn status_of<H: Abort + KnownFiles>(rt: &H, alloc: Global, line: &str) -> u8 {
    let words = words_of(rt, alloc, line);
    let unused = RefCell::new(Vec::new(alloc));
    let mut out = WatchedWriter::new(failing(&unused));
    let mut err = failing(&unused);
    run(
        rt,
        alloc,
        words.as_slice(),
        &mut [].as_slice(),
        &mut out,
        &mut err,
    )
}

/// Command lines, the last of which asks for help that cannot be written; and their statuses.
static STATUSES: [(&str, u8); 5] = [
    ("verify", 1),
    ("dumpinfo", 1),
    ("nonsense", 2),
    ("", 2),
    ("--help", 3),
];

#[test]
fn statuses_stand_where_no_text_can_be_written(rt: HostRuntime) {
    for (line, want) in &STATUSES {
        same_at(&rt, line, &status_of(&rt, rt.alloc(), *line), want);
    }
}

/// Each command that writes to standard output, with the file `in`.
const TEXTS: &str = "\
verify in < counted
dumpinfo in < counted
create --version 2 --pad-header --header-size 32 in - < payload
explain E33
help verify
layout WORKED --erase-us 1000 --write-us 10
type WORKED --kind test IMAGES
boot WORKED --kind test IMAGES
replay WORKED --kind test IMAGES --schedule 9.4
replay WORKED --kind test IMAGES --rounds 2 --schedule 2.4
trace WORKED --kind test IMAGES
trace WORKED --kind test IMAGES --rounds 2
sectors WORKED --kind test IMAGES
sectors WORKED --kind test IMAGES --rounds 2
frames WORKED --kind test IMAGES
picture WORKED --kind test IMAGES
vectors WORKED --kind test IMAGES --cuts 1
explore WORKED --kind test IMAGES --cuts 1 --expect-primary 2
campaign WORKED --kind test IMAGES --cuts 1 --expect-primary 1
survey WORKED --kind test IMAGES --cuts 1 --expect-primary 2
survey WORKED --kind test IMAGES --rounds 2 --cuts 1 --expect-primary 1
census WORKED --kind test IMAGES --cuts 1 --expect-primary 2
census WORKED --kind test IMAGES --rounds 2 --cuts 1 --expect-primary 1
life WORKED --image first --wear script
inspect WORKED --flash in --known-a first --known-b second < MOVED
locate WORKED --flash in --known-a first --known-b second < MOVED,1280=00
";

/// How many bytes of what is written are a page of rows: a write of these is refused by another number.
fn rows_of(line: &str, whole: &[u8]) -> usize {
    if !line.starts_with("explore") && !line.starts_with("campaign") {
        return 0;
    }
    let text = str::from_utf8(whole).unwrap_or("");
    let (rows, _) = text.split_once("right ").unwrap_or((text, ""));
    rows.len()
}

/// How a command line ends with that file `in` and a standard output that fails after so many bytes: its status, what it says of it,
/// and what is out.
pub fn ends_after(
    rt: &impl Abort,
    alloc: Global,
    line: &str,
    input: &[u8],
    calls: usize,
) -> (u8, String, Vec<u8>) {
    let written = RefCell::new(Vec::new(alloc));
    let files = FaultyFiles {
        input,
        written: &written,
        reads: usize::MAX,
        writes: usize::MAX,
        fault: Fault::Error,
    };
    broken_over(rt, alloc, &files, line, calls)
}

/// Looks how a command line ends that cannot write these bytes from some byte on: with the first of them out.
fn breaks_off(
    rt: &impl Abort,
    alloc: Global,
    line: &str,
    input: &[u8],
    calls: usize,
    whole: &[u8],
) {
    let (status, err, taken) = ends_after(rt, alloc, line, input, calls);
    let refusal = if calls < rows_of(line, whole) {
        "mcsim: E59 Write\n"
    } else {
        "mcsim: E25 Write\n"
    };
    let found = (status, err.as_str(), Some(taken.as_slice()));
    let wanted = (3, refusal, whole.get(..calls));
    same_at(rt, &(line, calls), &found, &wanted)
}

/// The first byte, a later one, the first after the rows, the one in the middle, and the last.
fn breaks_off_anywhere(rt: &impl Abort, alloc: Global, shown: &str) {
    let shown = in_full(rt, alloc, shown);
    let (line, file) = shown
        .as_str()
        .split_once(" < ")
        .unwrap_or((shown.as_str(), ""));
    let file = contents(rt, alloc, file);
    let input = file.as_slice();
    let (status, _, written) = ends_after(rt, alloc, line, input, usize::MAX);
    let whole = written.as_slice();
    same_at(rt, &line, &status, &0);
    let last = whole.len().saturating_sub(1);
    for calls in [0, 10, rows_of(line, whole), whole.len() / 2, last] {
        breaks_off(rt, alloc, line, input, calls, whole);
    }
}

#[test]
fn what_cannot_be_written_is_refused(rt: HostRuntime) {
    for line in TEXTS.lines() {
        breaks_off_anywhere(&rt, rt.alloc(), line);
    }
}
