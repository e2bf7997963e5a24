//! A script, read whole, and the files that it names.
ghost use Rattle.std.specs.Prelude.{◌≡◌, ℕ, ◌+◌, ◌≤◌, ◌^◌, List, ◌∷◌, Option, length, map, option_and_then, option_map, IfOk, OnOk};
ghost use Rattle.std.specs.Io.KnownBytes.{Consumes, IsAtEnd};
ghost use Rattle.mc_life.specs.Script.{Names, Reads, ReadsEvent, file_named, sayings, sayings_left, size_left};
ghost use Rattle.mc_life.specs.declared.event.Event.{Event};

use crate::error::ScriptError;
use crate::event::Event;
use crate::line::said;
use mc_imgtool::read_bounded;
use std::alloc::{AllocError, Global};
use std::io::Read;
use std::marker::Model;

/// The most bytes of a script.
const GREATEST_SCRIPT: u32 = 1 << 24;

/// The text of a script, of at most 2^24 bytes.
#[derive(Drop)]
pub struct Script {
    text: String,
}

impl Model for Script {
    ghost use Rattle.std.specs.Prelude.{string_bytes, List, ℕ, length, ◌≤◌, ◌^◌};

    ghost Value = { List ℕ };

    ghost view = { λ s. string_bytes s.text };

    ghost invariant = { λ s. length (string_bytes s.text) ≤ 2 ^ 24 };
}

/// What the first line of a text says, and what is left after the line, if something is.
pub(crate) fn next_line(text: &str) -> (&str, Option<&str>)
    ensures lines { sayings text.now ≡ result.0.now
        ∷ sayings_left (option_map (λ t. t.now) result.1) }
    ensures less { size_left (option_map (λ t. t.now) result.1) ≤ length text.now }
{
    match text.split_once('\n') {
        Some((line, after)) => (said(line), Some(after)),
        None => (said(text), None),
    }
}

// The file that a line names, if what it says states an event that names one.
fn file_in(line: &str) -> Option<&str>
    ensures { (e : Option Event) × ReadsEvent line.now e
        × (option_map (λ t. t.now) result ≡ option_and_then file_named e) }
{
    match Event::read(line) {
        Some(event) => event.file(),
        None => None,
    }
}

impl Script {
    /// Reads a script to the reader's end.
    /// Promised: a script is read whole; 23 above 2^24 bytes, 84 for no text (`reads`, `end`, `taken`).
    ///
    /// # Errors
    ///
    /// `Input` with `InputTooLong` for more than 2^24 bytes, `Read` where a read fails, or `Memory`; `NotText` where it is not UTF-8.
    pub fn read<R: Read>(alloc: Global, reader: &mut R) -> Result<Script, ScriptError>
        ensures reads { Reads (R.remaining reader.old) result }
        ensures end { OnOk result (IsAtEnd (R.remaining reader.new)) }
        ensures taken { (bs : List ℕ) × Consumes (R.remaining reader.old)
            (R.remaining reader.new) bs × (length bs ≤ 2 ^ 24 + 1) }
    {
        let bytes = read_bounded(alloc, reader, GREATEST_SCRIPT)?;
        match String::from_utf8(bytes) {
            Ok(text) => Ok(Script { text }),
            Err(_) => Err(ScriptError::NotText),
        }
    }

    /// Its text.
    pub fn text(&self) -> &str
        ensures text { result.now ≡ self.now }
        ensures at_most { length self.now ≤ 2 ^ 24 }
    {
        &self.text
    }

    /// The names of the files that its events name, in their order and as often as they do.
    /// Promised: the files that a script names (`Names`).
    ///
    /// # Errors
    ///
    /// Where an allocation failed.
    pub fn names(&self, alloc: Global) -> Result<Vec<&str>, AllocError>
        ensures { IfOk result (λ names. Names (sayings self.now) (map (λ t. t.now) names.items)) }
    {
        let mut names = Vec::new(alloc);
        let mut rest = Some(self.text());
        'lines: while let Some(text) = rest {
            let (line, after) = next_line(text);
            if let Some(name) = file_in(line) {
                names.push(name)?;
            }
            rest = after;
        }
        Ok(names)
    }
}
