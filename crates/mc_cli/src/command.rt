//! The command line, as clap reads it, and its help. Numbers are texts here: `numbers` reads them.
ghost use Rattle.std.specs.Prelude.{◌≡◌, ◌++◌, List, [], IfOk, codes, map, string_bytes, true};
ghost use Rattle.clap.specs.declared.builder.texts.Texts.TheVariants.{One};
ghost use Rattle.clap.specs.declared.builder.value_parser.ValueParser.TheVariants as parsers;
ghost use Rattle.mc_cli.specs.Program.{Parses, Words, command_words, flag, lines, place, words_of};
ghost use Rattle.mc_cli.specs.inner.Tables.{IsArg, IsCommand, IsProgram, bare_line, entry_of_word, line_of, with_entries, with_rest};

mod table;

use clap::{Arg, ArgAction, ArgMatches, Command, Error};
use std::alloc::{AllocError, Global};
use table::{Group, Subcommand, Takes, Word};

/// The program's version. Of proofs it says nothing: a build without them has it too.
pub const VERSION: &str = "0.1.0";

static ABOUT: &str =
    "Checks MCUboot upgrades against power loss, and makes and inspects hash-only MCUboot images";

static AFTER_HELP: &str = "\
Which question is answered by which command:
  is every sequence of power cuts safe?     census --cuts 16 --all-right
  which sequences are there, ending how?    explore; survey counts a part of them
  what happens in one of them?              trace, sectors, frames, picture, replay
  what is this dump of a device?            inspect; locate finds it in a swap
  what becomes of a device, step by step?   life
  does my own boot loader do the same?      vectors (and scripts/conform)
Exit status: 0 done (whatever the outcome is), 1 content refused, 2 command line refused,
3 file, write or memory error. A refusal is one line, as `mcsim: E33 Counts`;
`mcsim explain 33` says what it means.
Numbers are decimal, or hexadecimal as 0x200.
Signatures, encryption and hashes other than SHA-256 are out of scope.";

/// Reads the words of a command line, the program's name first.
/// Promised: clap reads of any words what its definitions say of this program (`Parses`, `IsMcsim`).
///
/// # Errors
///
/// clap's refusal of the words, the help or the version that they ask for, or that an allocation failed.
pub fn parse<'a>(alloc: Global, words: &'a [String]) -> Result<ArgMatches<'a>, Error>
    ensures { Parses (map string_bytes words.now) result }
{
    let program = whole_program(alloc)?;
    program.try_get_matches_from(words)
}

/// The program with the commands of the table.
fn whole_program<'a>(alloc: Global) -> Result<Command<'a>, AllocError>
    ensures { IfOk result (IsProgram (map command_words lines)) }
{
    let program = with_commands(alloc, bare_program(alloc)?, table::of_images())?;
    let program = with_commands(alloc, program, table::of_boots())?;
    let program = with_commands(alloc, program, table::of_flashes())?;
    let program = with_commands(alloc, program, table::of_explorations())?;
    let program = with_commands(alloc, program, table::of_others())?;
    Ok(program)
}

/// A program with some more commands of the table.
fn with_commands<'a>(
    alloc: Global,
    program: Command<'a>,
    commands: &'static [Subcommand],
) -> Result<Command<'a>, AllocError>
    ensures { IfOk result (λ r. (subs : List Words) → IsProgram subs program.entry
        → IsProgram (subs ++ map command_words (map line_of commands.now)) r) }
{
    let mut program = program;
    for subcommand in commands {
        program = program.subcommand(command(alloc, subcommand)?)?;
    }
    Ok(program)
}

/// The program without its commands.
fn bare_program<'a>(alloc: Global) -> Result<Command<'a>, AllocError>
    ensures { IfOk result (IsProgram []) }
{
    Command::new(alloc, "mcsim")
        .about(ABOUT)
        .version(VERSION)
        .after_help(AFTER_HELP)
        .subcommand_required(true)
        .arg_required_else_help(true)
        .arg(verbose(alloc))
}

/// The option that asks for the reason of a refusal: help shows it among the first of those that have no heading.
fn verbose<'a>(alloc: Global) -> Arg<'a>
    ensures { IsArg (flag (codes "verbose")) result }
{
    Arg::new(alloc, "verbose")
        .long("verbose")
        .action(ArgAction::SetTrue)
        .help("Add a line with the reason to a refusal")
        .display_order(1)
}

/// A command of the table.
fn command<'a>(alloc: Global, subcommand: &'static Subcommand) -> Result<Command<'a>, AllocError>
    ensures { IfOk result (IsCommand (command_words (line_of subcommand.now))) }
{
    let mut command = with_texts(bare_command(alloc, subcommand)?, subcommand);
    for group in subcommand.groups {
        command = with_group(alloc, command, *group)?;
    }
    Ok(command)
}

/// A command of the table without the words of its groups.
fn bare_command<'a>(
    alloc: Global,
    subcommand: &'static Subcommand,
) -> Result<Command<'a>, AllocError>
    ensures { IfOk result (IsCommand (command_words (bare_line (line_of subcommand.now)))) }
{
    let command = Command::new(alloc, subcommand.name)
        .visible_aliases(subcommand.aliases)?
        .about(subcommand.about)
        .arg(verbose(alloc))?;
    Ok(command)
}

/// A command with the texts of its help.
fn with_texts<'a>(command: Command<'a>, subcommand: &'static Subcommand) -> Command<'a>
    ensures { (w : Words) → IsCommand w command.entry → IsCommand w result }
{
    let mut command = command;
    if let Some(usage) = subcommand.usage {
        command = command.override_usage(usage);
    }
    if let Some(text) = subcommand.after_help {
        command = command.after_help(text);
    }
    command
}

/// A command with the words of a group.
fn with_group<'a>(
    alloc: Global,
    command: Command<'a>,
    group: Group,
) -> Result<Command<'a>, AllocError>
    ensures { IfOk result (λ r. (w : Words) → IsCommand w command.entry
        → IsCommand (with_entries w (words_of group)) r) }
{
    let mut command = command;
    if let Some(heading) = group.heading() {
        command = command.next_help_heading(heading);
    }
    for word in group.words() {
        command = command.arg(argument(alloc, word))?;
    }
    Ok(command)
}

/// A word as clap's argument.
fn argument<'a>(alloc: Global, word: &'static Word) -> Arg<'a>
    ensures { IsArg (entry_of_word word.now) result }
{
    let mut argument = Arg::new(alloc, word.name)
        .required(word.required)
        .help(word.help);
    if let Some(short) = word.short {
        argument = argument.short(short);
    }
    if let Some(value) = word.default {
        argument = argument.default_value(value);
    }
    with_value(argument, word)
}

/// An argument with what its word takes.
fn with_value<'a>(argument: Arg<'a>, word: &'static Word) -> Arg<'a>
    requires { IsArg (with_rest word.now (place word.now.name.now)) argument }
    ensures { IsArg (entry_of_word word.now) result }
{
    match word.takes {
        Takes::Nothing => argument.long(word.name).action(ArgAction::SetTrue),
        Takes::Itself => argument,
        Takes::Value(shown) => with_name(argument, word.name, shown),
        Takes::Values(shown) => { with_name(argument, word.name, shown).action(ArgAction::Append) }
        Takes::OneOf(shown, values) => with_values(with_name(argument, word.name, shown), values),
    }
}

/// An option that takes one of these values, which its help does not list.
fn with_values<'a>(argument: Arg<'a>, values: &'a [&'a str]) -> Arg<'a>
    ensures { result ≡ record argument.entry {
      value_parser = Some (parsers.Names values.entry);
      hide_possible_values = true;
    } }
{
    argument.value_parser(values).hide_possible_values(true)
}

/// An option, with the name that its value is shown by.
fn with_name<'a>(argument: Arg<'a>, name: &'static str, shown: &'static str) -> Arg<'a>
    ensures { result ≡ record argument.entry {
      long = Some name.entry;
      val_names = One shown.entry;
    } }
{
    argument.long(name).value_name(shown)
}
