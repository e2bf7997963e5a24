//! The numbers of a layout from a file: the same options, one a line.
ghost use Rattle.std.specs.{List.{Contains}, Str.Lines.{lines}};
ghost use Rattle.std.specs.Prelude.{◌≡◌, ◌⊎◌, ◌++◌, ◌∷◌, [], ℕ, List, MatchOption, IfErr, IfOk, OnOk, codes, map, string_bytes};
ghost use Rattle.mc_options.specs.declared.layout_file.TheConstants.{OPTIONS};
ghost use Rattle.mc_options.specs.LayoutFiles.{AddsWord, AddsWords, AreWords, FileGives, GivesOption, HasValue, LacksOption, NamesFile, RefusesFiles, RefusesSettings, SaysOption, StandsFor, said_in};
ghost use Rattle.mc_options.specs.Sources.{Reads};

use crate::numbers::NumberOption;
use crate::refusal::Refusal;
use crate::source::read_file;
use mc_cli::KnownFiles;
use std::alloc::Global;
use std::io;
use std::io::Write;

/// The most bytes of a file of a layout.
const GREATEST_FILE: u32 = 65_536;

/// The options that such a file may give.
static OPTIONS: [NumberOption; 6] = [
    NumberOption::Sector,
    NumberOption::Unit,
    NumberOption::MaxSectors,
    NumberOption::Chunk,
    NumberOption::Primary,
    NumberOption::Secondary,
];

/// What a line says before a comment.
fn said_in(line: &str) -> &str
    ensures { result.now ≡ said_in line.now }
{
    let (said, _comment) = line.split_once('#').unwrap_or((line, ""));
    said.trim()
}

/// The value that follows the name of an option.
fn value_in(rest: &str) -> Option<&str>
    ensures { MatchOption result ((value : List ℕ) → HasValue rest.now value → ⊥)
        (λ value. HasValue rest.now value.now) }
{
    if let Some(after) = rest.strip_prefix('=') {
        return Some(after.trim());
    }
    if rest.contains("=") || rest.trim_start() == rest {
        return None;
    }
    Some(rest.trim())
}

/// The value that a text gives to an option.
fn value_of(option: NumberOption, said: &str) -> Option<&str>
    ensures { MatchOption result ((value : List ℕ) → SaysOption said.now option value → ⊥)
        (λ value. SaysOption said.now option value.now) }
{
    value_in(said.strip_prefix("--")?.strip_prefix(option.name())?)
}

/// The option of a layout that a text gives, and its value.
fn option_in(said: &str) -> Option<(NumberOption, &str)>
    ensures { MatchOption result ((option : NumberOption) (value : List ℕ)
        → Contains OPTIONS option → SaysOption said.now option value → ⊥)
        (λ x. Contains OPTIONS x.0 × SaysOption said.now x.0 x.1.now) }
{
    for option in &OPTIONS {
        if let Some(value) = value_of(*option, said) {
            return Some((*option, value));
        }
    }
    None
}

/// The option of a layout and its value that a line gives, as `--sector 4096` or `--sector=4096`, with blanks around it and `#` before
/// a comment; nothing where it is blank.
///
/// # Errors
///
/// `LayoutFile` where it says anything else.
fn setting_of(line: &str) -> Result<Option<(NumberOption, &str)>, Refusal>
    ensures given { IfOk result (λ given. MatchOption given (said_in line.now ≡ [])
        (λ x. GivesOption line.now x.0 x.1.now)) }
    ensures refused { IfErr result (λ e. (e ≡ Refusal.LayoutFile) × LacksOption line.now) }
{
    let said = said_in(line);
    if said.is_empty() {
        return Ok(None);
    }
    match option_in(said) {
        Some(given) => Ok(Some(given)),
        None => Err(Refusal::LayoutFile),
    }
}

/// Adds a word.
///
/// # Errors
///
/// `Memory`.
fn push(words: &mut Vec<String>, word: String) -> Result<(), Refusal>
    ensures added { OnOk result (map string_bytes words.new.items ≡ map string_bytes words.old.items
        ++ string_bytes word ∷ []) }
    ensures refused { IfErr result (λ e. e ≡ Refusal.Memory) }
{
    words.push(word).map_err(|_| Refusal::Memory)
}

/// Adds the word for what a line gives, if it gives anything.
fn add_setting(alloc: Global, line: &str, words: &mut Vec<String>) -> Result<(), Refusal>
    ensures added { OnOk result (AddsWord line.now (map string_bytes words.old.items)
        (map string_bytes words.new.items)) }
    ensures refused { IfErr result (λ e. ((e ≡ Refusal.LayoutFile) × LacksOption line.now)
        ⊎ (e ≡ Refusal.Memory)) }
{
    let Some((option, value)) = setting_of(line)? else {
        return Ok(());
    };
    let name = option.name();
    let word = format!(in alloc; "--{name}={value}").map_err(|_| Refusal::Memory)?;
    push(words, word)
}

/// Adds the options that a text gives, each as one word.
///
/// # Errors
///
/// `LayoutFile` where a line says anything else; `Memory`.
fn add_settings(alloc: Global, text: &str, words: &mut Vec<String>) -> Result<(), Refusal>
    ensures added { OnOk result (AddsWords (lines text.now) (map string_bytes words.old.items)
        (map string_bytes words.new.items)) }
    ensures refused { IfErr result (λ e. ((e ≡ Refusal.LayoutFile)
        × ((words : List (List ℕ)) → AreWords (lines text.now) words → ⊥)) ⊎ (e ≡ Refusal.Memory)) }
{
    for line in text.lines() {
        add_setting(alloc, line, words)?;
    }
    Ok(())
}

/// The text of a file.
///
/// # Errors
///
/// What `read_file` refuses; `LayoutFile` where it is no text.
fn read_text<F: KnownFiles>(files: &F, alloc: Global, path: &str) -> Result<String, Refusal>
    ensures read { IfOk result (λ text. Reads (F.holds files.now path.now) 65536
        (string_bytes text)) }
    ensures refused { IfErr result (RefusesSettings (F.holds files.now) path.now) }
{
    let bytes = read_file(files, alloc, path, GREATEST_FILE)?;
    let Ok(text) = String::from_utf8(bytes) else {
        return Err(Refusal::LayoutFile);
    };
    Ok(text)
}

/// The word that names a file.
///
/// # Errors
///
/// `Memory`.
fn file_word(alloc: Global, path: &str) -> Result<String, Refusal>
    ensures word { IfOk result (λ word. string_bytes word ≡ codes "--layout=" ++ path.now) }
    ensures refused { IfErr result (λ e. e ≡ Refusal.Memory) }
{
    format!(in alloc; "--layout={path}").map_err(|_| Refusal::Memory)
}

/// Adds the options that a file gives, and the one that names it.
///
/// # Errors
///
/// What `read_text` refuses; `LayoutFile` where a line says anything else; `Memory`.
fn add_file<F: KnownFiles>(
    files: &F,
    alloc: Global,
    path: &str,
    words: &mut Vec<String>,
) -> Result<(), Refusal>
    ensures added { OnOk result ((given : List (List ℕ)) × FileGives (F.holds files.now) path.now
        given × (map string_bytes words.new.items ≡ map string_bytes words.old.items ++ given)) }
    ensures refused { IfErr result (RefusesSettings (F.holds files.now) path.now) }
{
    let text = read_text(files, alloc, path)?;
    add_settings(alloc, text.as_str(), words)?;
    push(words, file_word(alloc, path)?)?;
    Ok(())
}

/// Prints what of such a file is refused: that it is no text, or the first line that says anything else.
///
/// # Errors
///
/// Where the output fails.
pub(crate) fn report_lines<F: KnownFiles, E: Write>(
    files: &F,
    alloc: Global,
    path: &str,
    err: &mut E,
) -> io::Result<()> {
    let Ok(bytes) = read_file(files, alloc, path, GREATEST_FILE) else {
        return Ok(());
    };
    let Ok(text) = str::from_utf8(&bytes) else {
        return writeln!(err, "mcsim: {path}: it is no text");
    };
    for (index, line) in text.lines().enumerate() {
        if setting_of(line).is_err() {
            let number = index + 1;
            return writeln!(
                err,
                "mcsim: {path}, line {number} gives no number of a layout: {line}"
            );
        }
    }
    Ok(())
}

/// The path of a file of a layout that the first words name, and the words that follow.
fn file_in(words: &[String]) -> Option<(&str, &[String])>
    ensures { MatchOption result
        ((path : List ℕ) (after : List (List ℕ)) → NamesFile (map string_bytes words.now) path after → ⊥)
        (λ x. NamesFile (map string_bytes words.now) x.0.now (map string_bytes x.1.now)) }
{
    let (word, after) = words.split_first()?;
    if let Some(path) = word.strip_prefix("--layout=") {
        return Some((path, after));
    }
    if word.as_str() != "--layout" {
        return None;
    }
    let (path, after) = after.split_first()?;
    Some((path.as_str(), after))
}

/// Adds a copy of a word.
///
/// # Errors
///
/// `Memory`.
fn push_copy(words: &mut Vec<String>, word: &String) -> Result<(), Refusal>
    ensures added { OnOk result (map string_bytes words.new.items ≡ map string_bytes words.old.items
        ++ string_bytes word.now ∷ []) }
    ensures refused { IfErr result (λ e. e ≡ Refusal.Memory) }
{
    let word = word.clone().map_err(|_| Refusal::Memory)?;
    push(words, word)
}

/// Adds copies of words.
///
/// # Errors
///
/// `Memory`.
fn push_copies(words: &mut Vec<String>, more: &[String]) -> Result<(), Refusal>
    ensures added { OnOk result (map string_bytes words.new.items ≡ map string_bytes words.old.items
        ++ map string_bytes more.now) }
    ensures refused { IfErr result (λ e. e ≡ Refusal.Memory) }
{
    for word in more {
        push_copy(words, word)?;
    }
    Ok(())
}

/// The words of a command line with what the file gives before each `--layout FILE`. What stands after `--` stays.
/// Promised: the options of files of layouts stand in the words of a line, or why not (`stands`, `refused`, `StandsFor`).
///
/// # Errors
///
/// Those of `add_file`.
pub fn with_files<F: KnownFiles>(
    files: &F,
    alloc: Global,
    words: &[String],
) -> Result<Vec<String>, Refusal>
    ensures stands { IfOk result (λ whole. StandsFor (F.holds files.now)
        (map string_bytes words.now) (map string_bytes whole.items)) }
    ensures refused { IfErr result (RefusesFiles (F.holds files.now)
        (map string_bytes words.now)) }
{
    let mut whole = Vec::new(alloc);
    let mut rest = words;
    'words: while let Some((word, after)) = rest.split_first() {
        if word.as_str() == "--" {
            break;
        }
        if let Some((path, after)) = file_in(rest) {
            add_file(files, alloc, path, &mut whole)?;
            rest = after;
        } else {
            push_copy(&mut whole, word)?;
            rest = after;
        }
    }
    push_copies(&mut whole, rest)?;
    Ok(whole)
}
