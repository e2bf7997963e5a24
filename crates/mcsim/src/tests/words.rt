//! Command lines that are refused, and those that ask for help.
use super::support::{Table, all_play, fits, outcome_over, ran, same_at};
use mc_options::Refusal;
use std::alloc::Global;
use std::process::Abort;

/// Command lines that clap refuses, in its words.
const REFUSED: &str = "\
nonsense
--nonsense
verify a b
verify --nonsense
dumpinfo a b
dumpinfo --nonsense
create
create --header-size 32 a b
create --version 1 a b
create --version 1 --header-size 32 a
create --version 1 --header-size 32 a b c
create --version 1 --header-size 32 --header-size 32 a b
create --version 1 --header-size 32 --align 8 --align 8 a b
create --version 1 --header-size 32 --pad --pad a b
create --version 1 --header-size 32 --nonsense a b
create --version 1 --header-size -1 a b
create --version 1 --header-size 32 --security-counter -1 a b
type --flash a
type --sector 256 --unit 8 --max-sectors 4 --chunk 128 --primary 4 --flash a
type WORKED --kind swap --image-a a --image-b b
type WORKED --flash a --flash b
type WORKED --flash a --grain call
type WORKED --flash a --profile 4
boot WORKED --flash a --grain word
boot WORKED --flash a --profile 0
";

/// Command lines with a number that its option does not take, and what is said of it.
const NUMBERS: &str = "\
$ create --version 1 --header-size 31 a b
! mcsim: --header-size takes a number from 32 to 65535; exit 2
$ create --version 1 --header-size 65536 a b
! mcsim: --header-size takes a number from 32 to 65535; exit 2
$ create --version 1 --header-size x a b
! mcsim: --header-size takes a number from 32 to 65535; exit 2
$ create --version 1 --header-size 32 --slot-size 0 a b
! mcsim: --slot-size takes a number from 1 to 16777216; exit 2
$ create --version 1 --header-size 32 --slot-size 16777217 a b
! mcsim: --slot-size takes a number from 1 to 16777216; exit 2
$ create --version 1 --header-size 32 --align 0 a b
! mcsim: --align takes 1, 2, 4 or 8; exit 2
$ create --version 1 --header-size 32 --align 3 a b
! mcsim: --align takes 1, 2, 4 or 8; exit 2
$ create --version 1 --header-size 32 --align 16 a b
! mcsim: --align takes 1, 2, 4 or 8; exit 2
$ create --version 1 --header-size 32 --max-sectors 0 a b
! mcsim: --max-sectors takes a number from 1 to 1024; exit 2
$ create --version 1 --header-size 32 --max-sectors 1025 a b
! mcsim: --max-sectors takes a number from 1 to 1024; exit 2
$ create --version 1 --header-size 32 --security-counter 4294967296 a b
! mcsim: --security-counter takes a number from 0 to 4294967295; exit 2
$ create --version 1 --header-size 0x1f a b
! mcsim: --header-size takes a number from 32 to 65535; exit 2
$ create --version 1 --header-size 0x a b
! mcsim: --header-size takes a number from 32 to 65535; exit 2
$ create --version 1 --header-size 0x+20 a b
! mcsim: --header-size takes a number from 32 to 65535; exit 2
$ create --version 1 --header-size 200h a b
! mcsim: --header-size takes a number from 32 to 65535; exit 2
$ create --version 1 --header-size 0x100000200 a b
! mcsim: --header-size takes a number from 32 to 65535; exit 2
$ type --sector 4294967296 --unit 8 --max-sectors 4 --chunk 128 --primary 4 --secondary 3 --flash a
! mcsim: --sector takes a number from 0 to 4294967295; exit 2
$ explore WORKED --flash a --cuts 17
! mcsim: --cuts takes a number from 0 to 16; exit 2
$ explore WORKED --flash a --cuts 0 --limit 0
! mcsim: --limit takes a number from 1 to 4294967295; exit 2
$ explain 17
! mcsim: no refusal has this number or name; exit 2
$ explain 300
! mcsim: no refusal has this number or name; exit 2
$ explain Count
! mcsim: no refusal has this number or name; exit 2
";

/// What is reported where no command is.
const NO_WORDS: &str = "! ...Usage: mcsim [OPTIONS] <COMMAND>...exit 2\n";

/// What a number or a name of a refusal means, and all of them; and a line without a command.
const EXPLANATIONS: &str = "\
$ explain 22
E22 NeedsSlotSize, exit status 2
--pad and --confirm need the length of the slot.
Give --slot-size.
$ explain E22
E22 NeedsSlotSize, exit status 2
--pad and --confirm need the length of the slot.
Give --slot-size.
$ explain 40
E40 NotErased, exit status 1
A write met bytes that are not 0xff.
In a life: request once after a download. In a boot the result is fault.
$ explain syntax
E15 Syntax, exit status 2
The version is not major[.minor[.revision[+build]]] in decimal without leading zeros.
Write it as 1.2.3+4.
E55 Syntax, exit status 2
The text is not a cursor.
Copy the whole word after next, in lower case.
$ explain
E1 Truncated, exit status 1
E2 BadMagic, exit status 1...
E90 NotAligned, exit status 1
E91 LargePicture, exit status 2
E92 NoReading, exit status 2
E93 NoCase, exit status 1
$ 
! ...Usage: mcsim [OPTIONS] <COMMAND>...exit 2
";

static TABLES: [Table; 3] = [
    ("$ LINE\n! error: ...\nexit 2\n", &["LINE"], REFUSED),
    (NUMBERS, &[], "-"),
    (EXPLANATIONS, &[], "-"),
];

#[test]
fn refuses_or_explains(rt: HostRuntime) {
    all_play(&rt, rt.alloc(), &TABLES)
}

/// Whether a text has lines of at most 100 bytes.
fn is_narrow(text: &str) -> bool {
    text.lines().all(|row| row.len() <= 100)
}

/// Whether a command line prints these words alone on standard output, in such lines.
fn helps(rt: &impl Abort, alloc: Global, line: &str, want: &str) -> bool {
    let ended = ran(rt, alloc, line, &[]);
    let text = ended.out.as_str();
    is_narrow(text) && text.contains(want) && ended.err.is_empty() && ended.status == 0
}

/// Command lines that ask for help, and some words of it.
static HELP: [(&str, &str); 8] = [
    ("--help", "Usage: mcsim [OPTIONS] <COMMAND>"),
    ("create --help", "Usage: mcsim create "),
    ("verify -h", "Usage: mcsim verify "),
    ("dumpinfo -h", "Usage: mcsim dumpinfo "),
    ("type --help", "Usage: mcsim type "),
    ("explore --help", "Usage: mcsim explore "),
    ("sign --help", "Usage: mcsim "),
    ("--version", "mcsim 0.1.0\n"),
];

#[test]
fn prints_help(rt: HostRuntime) {
    for (line, want) in &HELP {
        same_at(&rt, line, &helps(&rt, rt.alloc(), *line, *want), &true);
    }
}

/// Refusals of words that are no text, and of more than there is room for: one line with the program's name.
static REFUSALS: [(Refusal, &str); 2] = [
    (Refusal::NotText, "mcsim: an argument is not UTF-8 text\n"),
    (
        Refusal::Argument,
        "mcsim: an argument is missing or out of its range\n",
    ),
];

/// Looks whether a refusal has this text, and the status 2.
fn is_reported(rt: &impl Abort, alloc: Global, refusal: Refusal, want: &str) {
    let mut err = Vec::new(alloc);
    let status = refusal.report(&mut err);
    same_at(rt, &want, &(status, err.as_slice()), &(2, want.as_bytes()))
}

/// These words, and none.
#[test]
fn refuses_words(rt: HostRuntime) {
    for (refusal, want) in &REFUSALS {
        is_reported(&rt, rt.alloc(), *refusal, *want);
    }
    let ended = outcome_over(&rt, rt.alloc(), &rt, &[], &mut [].as_slice());
    let text = ended.text(&rt, rt.alloc());
    assert!(rt; fits(text.as_str(), NO_WORDS));
}
