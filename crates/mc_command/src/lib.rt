//! The commands of `mcsim`, over the image tool, the flashes and the boots, and the exit status of a command line.
#![tactic(auto)]

ghost use Rattle.std.specs.Prelude.{◌≡◌, ◌≤◌, is_some, map, string_bytes};
ghost use Rattle.clap.specs.Matches.{found_of};
ghost use Rattle.clap.specs.Values.{kind_of};
ghost use Rattle.mc_actions.specs.Lives.{AnswersLife, GivesLife, LacksLife};
ghost use Rattle.clap.specs.Words.{subcommand_rows_of};
ghost use Rattle.mc_command.specs.Commands.{Answers, AnswersClap, AnswersFound, Asks, LacksNamed, Runs, RunsLine, RunsWhole, RunsWords, follows_text};
ghost use Rattle.mc_options.specs.Requests.{IsRun};
ghost use Rattle.mc_options.specs.Statuses.{status_of};

mod inspect;
mod picture;
mod request;
mod tears;

use clap::error::ErrorKind;
use clap::{ArgMatches, Error};
pub use inspect::{Inspected, LocateAsked};
use mc_actions::life;
pub use mc_cli::{KnownFiles, WatchedWriter};
use mc_cli::{WatchedFiles, left_out, parse};
use mc_options::{Refusal, flush, print_cost, print_note, report_file, report_reason, with_files};
pub use request::{Command, Request};
use std::alloc::Global;
use std::io;
use std::io::{Read, Write};
pub use tears::TearsAsked;

/// Runs one command line, whose first word is the program's name, and returns the exit status: 0 where it is done, 1
/// where a content is refused, 2 where the command line is refused, 3 where a file, a write or memory fails.
/// Promised: text and status are those of the command that the words of a line name, with what they give it (`runs`, `RunsLine`,
/// `status_at`).
///
/// What a buffer holds of `out` is handed on before it returns, and before the line of a refusal. A refusal is one line on `err`, or clap's own
/// text; with `--verbose` a second line has its reason, where that is known. A failed write to `err` changes no status.
pub fn run<F: KnownFiles, R: Read, O: Write + Drop, E: Write>(
    files: &F,
    alloc: Global,
    words: &[String],
    input: &mut R,
    out: &mut WatchedWriter<O>,
    err: &mut E,
) -> u8
    ensures runs { RunsLine (map string_bytes words.now) (F.holds files.now)
        (R.remaining input.old) (O.contents out.old.writer) (O.contents out.new.writer)
        (is_some out.new.failure) result }
    ensures range { result ≤ 3 }
{
    let watched = WatchedFiles::new(files, alloc);
    match with_files(&watched, alloc, words) {
        Ok(words) => run_words(watched, alloc, words.as_slice(), input, out, err),
        Err(refusal) => {
            let status = refusal.report(err);
            if words.iter().any(|word| word.as_str() == "--verbose") {
                let _ = report_file(watched, alloc, &refusal, err);
            }
            status
        }
    }
}

/// Runs one command line, in which the options of the files of layouts stand.
fn run_words<F: KnownFiles, R: Read, O: Write + Drop, E: Write>(
    files: WatchedFiles<'_, F>,
    alloc: Global,
    words: &[String],
    input: &mut R,
    out: &mut WatchedWriter<O>,
    err: &mut E,
) -> u8
    ensures runs { RunsWords (map string_bytes words.now) (F.holds files.entry.files.now)
        (R.remaining input.old) (O.contents out.old.writer) (O.contents out.new.writer)
        (is_some out.new.failure) result }
    ensures range { result ≤ 3 }
{
    match parse(alloc, words) {
        Ok(matches) => run_matches(files, alloc, &matches, input, out, err),
        Err(error) => answer_of_clap(words, &error, out, err),
    }
}

/// Runs the command that clap found in a line.
fn run_matches<F: KnownFiles, R: Read, O: Write + Drop, E: Write>(
    files: WatchedFiles<'_, F>,
    alloc: Global,
    matches: &ArgMatches<'_>,
    input: &mut R,
    out: &mut WatchedWriter<O>,
    err: &mut E,
) -> u8
    ensures runs { AnswersFound (subcommand_rows_of matches.now) (F.holds files.entry.files.now)
        (R.remaining input.old) (O.contents out.old.writer) (O.contents out.new.writer)
        (is_some out.new.failure) result }
    ensures range { result ≤ 3 }
{
    let Some((name, arguments)) = matches.subcommand() else {
        return Refusal::Argument.report(err);
    };
    let verbose = matches.get_flag("verbose") || arguments.get_flag("verbose");
    // What is said beside the output, and cannot be written, changes nothing.
    let _ = print_cost(name, arguments, err);
    match run_whole(&files, alloc, name, arguments, input, out, err, verbose) {
        Ok(()) => {
            let _ = print_note(&files, name, arguments, err);
            0
        }
        Err(refusal) if verbose => {
            report_whole(files, alloc, arguments, &refusal, out.failure, err)
        }
        Err(refusal) => refusal.report(err),
    }
}

/// Prints the line of a refusal, and its reason, or why the last write failed; and returns its status.
fn report_whole<F: KnownFiles, E: Write>(
    files: WatchedFiles<'_, F>,
    alloc: Global,
    arguments: &ArgMatches<'_>,
    refusal: &Refusal,
    failure: Option<io::Error>,
    err: &mut E,
) -> u8
    ensures exact { result ≡ status_of refusal.now }
    ensures range { result ≤ 3 }
{
    let status = refusal.report(err);
    let _ = match failure {
        Some(error) => writeln!(err, "mcsim: standard output: {error}"),
        None => report_reason(files, alloc, arguments, refusal, err),
    };
    status
}

/// Prints clap's help, or its refusal of a command line, and returns the status. Where `create` is given an option of imgtool that is left
/// out, what does that is printed instead.
fn answer_of_clap<O: Write + Drop, E: Write>(
    words: &[String],
    error: &Error,
    out: &mut WatchedWriter<O>,
    err: &mut E,
) -> u8
    ensures answers { AnswersClap (kind_of error.now) (O.contents out.old.writer)
        (O.contents out.new.writer) result }
    ensures range { result ≤ 3 }
{
    if error.kind() == ErrorKind::OutOfMemory {
        return Refusal::Memory.report(err);
    }
    if error.use_stderr() {
        let _ = match left_out_of(words) {
            Some((name, instead)) => writeln!(err, "mcsim: create has no {name}: {instead}"),
            None => write!(err, "{error}"),
        };
        return 2;
    }
    match (write!(out, "{error}"), flush(out)) {
        (Ok(()), Ok(())) => 0,
        _ => Refusal::Write.report(err),
    }
}

/// The first option of imgtool that is left out and the words of a `create` give, and what does what that does.
fn left_out_of(words: &[String]) -> Option<(&'static str, &'static str)> {
    let mut given = words
        .iter()
        .skip(1)
        .skip_while(|word| word.starts_with('-'));
    match given.next()?.as_str() {
        "create" | "sign" => given.find_map(|word| left_out(word)),
        _ => None,
    }
}

/// Whether all of a command's text was out before it ended so: it was done, or a verdict on the text is refused, or an event of a life.
fn follows_text(done: &Result<(), Refusal>) -> bool
    ensures { result ≡ follows_text done.now }
{
    matches!(
        done,
        Ok(())
            | Err(Refusal::NotAllBoot | Refusal::NotAllRight | Refusal::NotWhole | Refusal::Life(_))
    )
}

/// Runs the command of that name, and hands on what a buffer holds of its text, also before a refusal. With `named` a report of an image adds
/// the usual names of its entries on `err`.
/// Promised: what clap found for a command is answered or refused, and the text handed on (`RunsWhole`, `end_after`).
///
/// # Errors
///
/// Those of the command; `Write` in place of what follows its text, where the rest of that cannot be handed on.
pub fn run_whole<F: KnownFiles, R: Read, O: Write + Drop, E: Write>(
    files: &WatchedFiles<'_, F>,
    alloc: Global,
    name: &str,
    arguments: &ArgMatches<'_>,
    input: &mut R,
    out: &mut WatchedWriter<O>,
    err: &mut E,
    named: bool,
) -> Result<(), Refusal>
    ensures { RunsWhole name.now (F.holds files.now.files.now) (found_of arguments.now)
        (R.remaining input.old) (O.contents out.old.writer) (O.contents out.new.writer)
        (is_some out.new.failure) result }
{
    let done = run_command(files, alloc, name, arguments, input, out, err, named);
    if !follows_text(&done) {
        // Why a write failed is remembered, and what was out before may still be held.
        let _ = flush(out);
        return done;
    }
    if out.hand_on() {
        return Err(Refusal::Write);
    }
    done
}

/// Runs the command of that name.
///
/// # Errors
///
/// Those of the command.
fn run_command<F: KnownFiles, R: Read, O: Write, E: Write>(
    files: &WatchedFiles<'_, F>,
    alloc: Global,
    name: &str,
    arguments: &ArgMatches<'_>,
    input: &mut R,
    out: &mut O,
    err: &mut E,
    named: bool,
) -> Result<(), Refusal>
    ensures { Runs name.now (F.holds files.now.files.now) (found_of arguments.now)
        (R.remaining input.old)
        (O.contents out.old) (O.contents out.new) result }
{
    match name {
        "life" => run_life(files, alloc, arguments, input, out),
        _ => run_request(files, alloc, name, arguments, input, out, err, named),
    }
}

/// Runs a command: what its words ask for is read, and answered.
///
/// # Errors
///
/// `Argument` where no such command has that name; those of `Request::read` and `Request::answer`.
pub fn run_request<F: KnownFiles, R: Read, O: Write, E: Write>(
    files: &WatchedFiles<'_, F>,
    alloc: Global,
    name: &str,
    arguments: &ArgMatches<'_>,
    input: &mut R,
    out: &mut O,
    err: &mut E,
    named: bool,
) -> Result<(), Refusal>
    ensures { IsRun (Asks name.now (F.holds files.now.files.now) (found_of arguments.now))
        (LacksNamed name.now (F.holds files.now.files.now) (found_of arguments.now))
        (λ request. Answers request (F.holds files.now.files.now) (R.remaining input.old))
        (O.contents out.old)
        (O.contents out.new) result }
{
    let Some(command) = Command::named(name) else {
        return Err(Refusal::Argument);
    };
    let request = Request::read(files, alloc, command, arguments)?;
    request.answer(files, alloc, input, out, err, named)
}

/// Runs `life`, whose script may be standard input.
///
/// # Errors
///
/// Those of `life::read` and `life::answer`.
fn run_life<F: KnownFiles, R: Read, O: Write>(
    files: &WatchedFiles<'_, F>,
    alloc: Global,
    arguments: &ArgMatches<'_>,
    input: &mut R,
    out: &mut O,
) -> Result<(), Refusal>
    ensures { IsRun (GivesLife (F.holds files.now.files.now) (R.remaining input.old)
        (found_of arguments.now))
        (LacksLife (F.holds files.now.files.now) (R.remaining input.old) (found_of arguments.now))
        AnswersLife (O.contents out.old) (O.contents out.new) result }
{
    let life = life::read(files, alloc, arguments, input)?;
    life::answer(files, alloc, &life, out)
}
