//! A whole command line.
ghost use Rattle.std.specs.Prelude.{◌≡◌, ◌≤◌, [], IfErr, IfOk, map, string_bytes};
ghost use Rattle.mc_c.specs.Lines.{IsNoLine, RunsCall, RunsOver, words_in};

use crate::disk::Disk;
use crate::put;
use mc_command::{WatchedWriter, run};
use mc_options::Refusal;
use std::alloc::{AllocError, Global};
use std::cell::RefCell;

/// How many bytes each output of a call has, also where its buffer is smaller.
#[repr(C)]
pub struct Lengths {
    pub out: u64,
    pub err: u64,
    pub file: u64,
}

// The texts between the zero bytes of a text.
fn split_text(alloc: Global, text: &str) -> Result<Vec<&str>, AllocError>
    ensures { IfOk result (λ words. map (λ word. word.now) words.items ≡ words_in text.now) }
{
    text.split('\0').collect(alloc)
}

// The words of a text, which a zero byte parts.
fn split_words(alloc: Global, text: &str) -> Result<Vec<String>, AllocError>
    ensures { IfOk result (λ words. map string_bytes words.items ≡ words_in text.now) }
{
    let texts = split_text(alloc, text)?;
    let mut words = Vec::new(alloc);
    for word in texts.as_slice() {
        words.push(word.to_string(alloc)?)?;
    }
    Ok(words)
}

// The words of a command line.
fn words_of(alloc: Global, bytes: &[u8]) -> Result<Vec<String>, Refusal>
    ensures words { IfOk result (λ words. map string_bytes words.items ≡ words_in bytes.now) }
    ensures refused { IfErr result (IsNoLine bytes.now) }
{
    let Ok(text) = std::str::from_utf8(bytes) else {
        return Err(Refusal::NotText);
    };
    match split_words(alloc, text) {
        Ok(words) => Ok(words),
        Err(_) => Err(Refusal::Memory),
    }
}

// Runs the words of a command line over files in memory, where they are text.
fn run_over(
    disk: &Disk<'_>,
    alloc: Global,
    words: &[u8],
    input: &[u8],
    printed: &mut WatchedWriter<Vec<u8>>,
    refused: &mut Vec<u8>,
) -> u8
    requires { printed.old.writer.items ≡ [] }
    ensures runs { RunsOver disk.now words.now input.now printed.new.writer.items result }
    ensures range { result ≤ 3 }
{
    let mut input = input;
    match words_of(alloc, words) {
        Ok(words) => run(disk, alloc, words.as_slice(), &mut input, printed, refused),
        Err(refusal) => refusal.report(refused),
    }
}

/// Runs a command line, whose first word is the program's name, and returns the status of the program: 0 where it is done, 1 where a
/// content is refused, 2 where the command line is, 3 where a file, a write or memory fails.
/// Promised: text and status over files in memory, into a caller's buffer (`runs`, `RunsCall`).
///
/// A zero byte parts the words. Its files are `a`, `b` and `c`, which are read, and `out`, which is written; `input` is standard
/// input. Each buffer gets as much of its output as fits.
#[unsafe(no_mangle)]
pub extern "C" fn mcsim_run(
    alloc: Global,
    words: &[u8],
    a: &[u8],
    b: &[u8],
    c: &[u8],
    input: &[u8],
    out: &mut [u8],
    err: &mut [u8],
    file: &mut [u8],
    lengths: &mut Lengths,
) -> u32
    // What is printed, and the status, are those of the command line over these files.
    ensures runs { RunsCall (a.now, b.now, c.now) words.now input.now out.new lengths.new.out
        result }
    ensures range { result ≤ 3 }
{
    let mut printed = WatchedWriter::new(Vec::new(alloc));
    let mut refused = Vec::new(alloc);
    let written = RefCell::new(Vec::new(alloc));
    let disk = Disk {
        a,
        b,
        c,
        out: &written,
    };
    let status = run_over(&disk, alloc, words, input, &mut printed, &mut refused);
    lengths.out = put(out, printed.writer.as_slice());
    lengths.err = put(err, refused.as_slice());
    lengths.file = match written.try_borrow() {
        Ok(bytes) => put(file, bytes.as_slice()),
        Err(_) => 0,
    };
    u32::from(status)
}
