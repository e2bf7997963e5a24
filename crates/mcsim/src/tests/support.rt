//! What the tests of command lines share: files in memory, and sessions over them.
use mc_command::{KnownFiles, WatchedWriter, run};
use mc_fixtures::{
    FIRST_TOLD, FailingWriter, Failure, Fault, FaultyFiles, GOOD_LINE, SECOND_TOLD, change_at,
    named,
};
use sha2::{Digest, Sha256};
use std::alloc::Global;
use std::cell::RefCell;
use std::fmt::Debug;
use std::io::Read;
use std::process::Abort;

/// What was found is what is wanted. Where it is not so, this is told.
pub fn same_at<T: PartialEq + Debug, A: Debug>(rt: &impl Abort, at: &A, found: &T, wanted: &T) {
    assert_eq!(rt; *found, *wanted, "at {at:?}");
}

/// How a command line ended.
#[derive(Drop)]
pub struct Outcome {
    pub status: u8,
    pub out: String,
    pub err: String,
    /// What it wrote to the file `out`.
    pub written: Vec<u8>,
}

impl Outcome {
    /// The text on standard output; where all is not well, also `! `, the text on standard error, and the status.
    pub fn text(&self, rt: &impl Abort, alloc: Global) -> String {
        let (out, err, status) = (self.out.as_str(), self.err.as_str(), self.status);
        if status == 0 && err.is_empty() {
            owned(rt, alloc, out)
        } else {
            format!(in alloc; "{out}! {err}exit {status}\n").expect(rt, "memory")
        }
    }
}

/// The same text, by itself.
fn owned(rt: &impl Abort, alloc: Global, text: &str) -> String {
    String::from_str(alloc, text).expect(rt, "memory")
}

/// The same bytes, by themselves.
fn owned_bytes(rt: &impl Abort, alloc: Global, bytes: &[u8]) -> Vec<u8> {
    bytes.to_vec(alloc).expect(rt, "memory")
}

/// The words of a command line, with the program's name before them.
pub fn words_of(rt: &impl Abort, alloc: Global, line: &str) -> Vec<String> {
    let mut words = Vec::new(alloc);
    words.push(owned(rt, alloc, "mcsim")).expect(rt, "memory");
    if !line.is_empty() {
        for word in line.split(' ') {
            words.push(owned(rt, alloc, word)).expect(rt, "memory");
        }
    }
    words
}

/// What was written, which is text.
pub fn text_of(rt: &impl Abort, bytes: Vec<u8>) -> String {
    String::from_utf8(bytes).expect(rt, "a text")
}

/// Runs a command line.
pub fn outcome_over<F: KnownFiles, R: Read>(
    rt: &impl Abort,
    alloc: Global,
    files: &F,
    words: &[String],
    input: &mut R,
) -> Outcome {
    let mut out = WatchedWriter::new(Vec::new(alloc));
    let mut err = Vec::new(alloc);
    let status = run(files, alloc, words, input, &mut out, &mut err);
    Outcome {
        status,
        out: text_of(rt, out.writer),
        err: text_of(rt, err),
        written: Vec::new(alloc),
    }
}

/// How a command line ends whose standard output fails after so many bytes: its status, what it says of it, and what is out.
pub fn broken_over<F: KnownFiles>(
    rt: &impl Abort,
    alloc: Global,
    files: &F,
    line: &str,
    calls: usize,
) -> (u8, String, Vec<u8>) {
    let mut out = WatchedWriter::new(FailingWriter {
        taken: Vec::new(alloc),
        failure: Failure {
            calls,
            fault: Fault::Error,
            lasts: true,
        },
    });
    let words = words_of(rt, alloc, line);
    let (mut input, mut err) = ([].as_slice(), Vec::new(alloc));
    let status = run(
        files,
        alloc,
        words.as_slice(),
        &mut input,
        &mut out,
        &mut err,
    );
    (status, text_of(rt, err), out.writer.taken)
}

/// What a command line prints over the real files, with these bytes as standard input.
pub fn shown_of<H: Abort + KnownFiles>(
    rt: &H,
    alloc: Global,
    line: &str,
    mut input: &[u8],
) -> String {
    let words = words_of(rt, alloc, line);
    let ended = outcome_over(rt, alloc, rt, words.as_slice(), &mut input);
    ended.text(rt, alloc)
}

/// Runs a command line over files in memory, with these bytes in the file `in` and on standard input. So many reads of `in`
/// and writes of `out` come before the one that fails.
pub fn ran_over(
    rt: &impl Abort,
    alloc: Global,
    line: &str,
    mut input: &[u8],
    calls: (usize, usize, Fault),
) -> Outcome {
    let written = RefCell::new(Vec::new(alloc));
    let (reads, writes, fault) = calls;
    let files = FaultyFiles {
        input,
        written: &written,
        reads,
        writes,
        fault,
    };
    let words = words_of(rt, alloc, line);
    let mut ended = outcome_over(rt, alloc, &files, words.as_slice(), &mut input);
    ended.written = written.into_inner();
    ended
}

/// The same where no call fails.
pub fn ran(rt: &impl Abort, alloc: Global, line: &str, input: &[u8]) -> Outcome {
    let calls = (usize::MAX, usize::MAX, Fault::Error);
    ran_over(rt, alloc, line, input, calls)
}

/// How many lines a text has, and its SHA-256.
pub fn sum_of(rt: &impl Abort, alloc: Global, text: &str) -> String {
    let count = text.lines().count();
    let sum = hex::encode(alloc, Sha256::digest(text.as_bytes())).expect(rt, "memory");
    format!(in alloc; "lines {count} {sum}\n").expect(rt, "memory")
}

/// Whether a text is what is wanted, where a `...` stands for anything, and a second one too. No refusal stands for anything.
pub fn fits(text: &str, want: &str) -> bool {
    let Some((first, rest)) = want.split_once("...") else {
        return text == want;
    };
    let (middle, last) = rest.split_once("...").unwrap_or(("", rest));
    let is_refused = text.contains("! ") == want.contains("! ");
    is_refused && text.starts_with(first) && text.contains(middle) && text.ends_with(last)
}

/// Runs a command line over files in memory, and looks at what it prints, or at how many lines that has and their digest.
pub fn shows(rt: &impl Abort, alloc: Global, line: &str, input: &[u8], want: &str) -> Outcome {
    let ended = ran(rt, alloc, line, input);
    let mut text = ended.text(rt, alloc);
    if want.starts_with("lines ") && ended.status == 0 {
        text = sum_of(rt, alloc, ended.out.as_str());
    }
    assert!(rt; fits(text.as_str(), want), "{line}: {text}");
    ended
}

/// What stands for what in a session, in the order in which it is put in, with `; ` for the end of a line. The first words are of
/// sixteen cuts: a layout of the largest sectors and its start; cuts before the first operation, as a schedule and in the first
/// round, and eight in the first and seven in the second; the greatest cuts. `REPORT` is what is reported of the image `counted`,
/// but for what comes after it and how its digest is.
const WORDS: &str = "\
WIDE-START 26ad908ef00f25725e859e007381c2c9a3d4aa6b2c818a12debd12dc18c01c36
WIDE --sector 65536 --unit 8 --max-sectors 1024 --chunk 65536 --primary 4 --secondary 3
ZEROS FIFTEEN.0
FIFTEEN 0.0.0.0.0.0.0.0.0.0.0.0.0.0.0
ROUND-ONE 1.0,1.0,1.0,1.0,1.0,1.0,1.0,1.0,1.0,1.0,1.0,1.0,1.0,1.0,1.0
ROUNDS 1.0,1.0,1.0,1.0,1.0,1.0,1.0,1.0,2.0,2.0,2.0,2.0,2.0,2.0,2.0
GREATEST-ROUND 1.4294967295,1.4294967295,1.4294967295,1.4294967295,1.4294967295,1.4294967295,1.4294967295,1.4294967295,1.4294967295,1.4294967295,1.4294967295,1.4294967295,1.4294967295,1.4294967295,1.4294967295,1.4294967295
GREATEST 4294967295.4294967295.4294967295.4294967295.4294967295.4294967295.4294967295.4294967295.4294967295.4294967295.4294967295.4294967295.4294967295.4294967295.4294967295.4294967295
BOARD --sector 4096 --unit 4 --max-sectors 128 --chunk 1024 --primary 118 --secondary 117
FLAGGED 40:0=3db8f396000000002000000008000000040000000102030004000000
FINISH write primary 992 copy-done 01ffffffffffffff
WORKED --sector 256 --unit 8 --max-sectors 4 --chunk 128 --primary 4 --secondary 3
THREE --sector 256 --unit 8 --max-sectors 4 --chunk 128 --primary 3 --secondary 3
SMALL --sector 64 --unit 1 --max-sectors 4 --chunk 32 --primary 4 --secondary 3
TWO --sector 128 --unit 8 --max-sectors 4 --chunk 128 --primary 5 --secondary 4
IMAGES --image-a first --image-b second
SWAPPED primary SECOND; secondary FIRST
PADDING --version 1.2.3+4 --pad-header --header-size 32
REPORT magic 0x96f3b83d; load 0x00000000; header-size 32; protected-size 12; image-size 8; flags 0x00000000; version 1.2.3+4; padding 0x00000000; protected 0x0050 4 07000000; plain 0x0010 32 4dcc5778bca9c831b86de779361dfbc68a9740b5fcc3297188767c3aa8cba2e4; total 92
KEPT primary FIRST; secondary SECOND
START 9b07a99687c30f1c748c995c0d4df48a8af881b571e209fd613b03ba09e2b5b7
BEGUN 1792:1008=MAGIC
MIXED 1792:992=01,1008=MAGIC,1024=second
MOVED 1792:0=first,256=first,880=01,976=50000000,984=02,1008=MAGIC,1024=second
TORN 1792:0=second,992=01,1008=MAGIC,1024=first,1776=77c295f360d2ef7f
UNSET magic=unset image-ok=unset copy-done=unset swap-info=0xff swap-size=4294967295
LARGER 31e51cada910d18be541c1fed45924a8449c611617190bed4e31ca876b3385ce
MAGIC 77c295f360d2ef7f3552500f2cb67980
";

/// A text with a word in full.
fn with_word(rt: &impl Abort, alloc: Global, text: &str, word: &str, full: &str) -> String {
    text.replace(alloc, word, full).expect(rt, "memory")
}

/// A text with the words of all lines in full.
fn with_words(rt: &impl Abort, alloc: Global, text: &str) -> String {
    let mut whole = owned(rt, alloc, text);
    for line in WORDS.lines() {
        let (word, full) = line.split_once(' ').unwrap_or((line, ""));
        whole = with_word(rt, alloc, whole.as_str(), word, full);
    }
    whole
}

/// A text with its words in full.
pub fn in_full(rt: &impl Abort, alloc: Global, text: &str) -> String {
    let good = with_word(rt, alloc, text, "GOOD\n", GOOD_LINE);
    let words = with_words(rt, alloc, good.as_str());
    let first = with_word(rt, alloc, words.as_str(), "FIRST", FIRST_TOLD);
    let second = with_word(rt, alloc, first.as_str(), "SECOND", SECOND_TOLD);
    with_word(rt, alloc, second.as_str(), "; ", "\n")
}

/// A text with the fields of a line in the place of their names. The last field is the rest of the line.
fn filled(rt: &impl Abort, alloc: Global, text: &str, names: &[&str], line: &str) -> String {
    let mut whole = owned(rt, alloc, text);
    for (name, field) in names.iter().zip(line.splitn(names.len(), ' ')) {
        whole = with_word(rt, alloc, whole.as_str(), *name, field);
    }
    whole
}

/// The bytes of a file: a named one, or one of so many bytes `0xff` but for those at some offsets, as in `1792:0=first,984=02`.
pub fn contents(rt: &impl Abort, alloc: Global, shown: &str) -> Vec<u8> {
    let Some((length, changes)) = shown.split_once(':') else {
        return owned_bytes(rt, alloc, named(shown).unwrap_or_default());
    };
    let length = number_of(rt, length);
    let mut bytes = vec![in alloc; 0xffu8; length].expect(rt, "memory");
    for shown in changes.split(',') {
        change_at(alloc, bytes.as_mut_slice(), shown).expect(rt, "a change");
    }
    bytes
}

/// The number that a text says.
fn number_of(rt: &impl Abort, text: &str) -> usize {
    text.parse::<usize>().expect(rt, "a number")
}

/// A session, names in it, and lines: it is played for each of them, with the line's fields in the place of the names.
pub type Table = (&'static str, &'static [&'static str], &'static str);

/// Plays the sessions of some tables.
pub fn all_play(rt: &impl Abort, alloc: Global, tables: &[Table]) {
    for (session, names, lines) in tables {
        for line in lines.lines() {
            let session = filled(rt, alloc, *session, *names, line);
            plays(rt, alloc, session.as_str());
        }
    }
}

/// Plays a session. A step is `$ `, a command line, perhaps ` < ` and what the file `in` and standard input hold, `out` for
/// what the last step wrote; then what it prints, and perhaps `=> ` and what it writes to the file `out`, or how many bytes.
fn plays(rt: &impl Abort, alloc: Global, session: &str) {
    let session = in_full(rt, alloc, session);
    let mut written = Vec::new(alloc);
    for step in session.as_str().split("$ ").skip(1) {
        written = ends(rt, alloc, step, written.as_slice());
    }
}

/// A step of a session: a command line, its input, what it prints and what it writes.
#[derive(Clone, Copy)]
struct Step<'a> {
    line: &'a str,
    input: &'a str,
    want: &'a str,
    file: &'a str,
}

/// The parts of a step.
fn step_of(text: &str) -> Option<Step<'_>> {
    let (line, want) = text.split_once('\n')?;
    let (line, input) = line.split_once(" < ").unwrap_or((line, ""));
    let (want, file) = want.split_once("=> ").unwrap_or((want, ""));
    let file = file.trim_end();
    Some(Step {
        line,
        input,
        want,
        file,
    })
}

/// The input that is given, after a step that wrote these bytes.
fn input_of(rt: &impl Abort, alloc: Global, shown: &str, last: &[u8]) -> Vec<u8> {
    match shown {
        "out" => owned_bytes(rt, alloc, last),
        _ => contents(rt, alloc, shown),
    }
}

/// Looks whether these bytes are those that are given, or so many.
fn assert_written(rt: &impl Abort, alloc: Global, written: &[u8], shown: &str) {
    match shown.strip_suffix(" bytes") {
        Some(length) => same_at(rt, &shown, &written.len(), &number_of(rt, length)),
        None => same_at(rt, &shown, &written, &contents(rt, alloc, shown).as_slice()),
    }
}

/// Plays a step of a session after one that wrote these bytes, and returns those that it wrote.
fn ends(rt: &impl Abort, alloc: Global, step: &str, last: &[u8]) -> Vec<u8> {
    let step = step_of(step).expect(rt, "a command line");
    let input = input_of(rt, alloc, step.input, last);
    let ended = shows(rt, alloc, step.line, input.as_slice(), step.want);
    assert_written(rt, alloc, ended.written.as_slice(), step.file);
    ended.written
}
