//! What the next boot reads of the flash that a torn operation leaves.
ghost use Rattle.std.specs.Prelude.{◌≡◌, ◌↔◌, ℕ, ◌+◌, ◌<◌, ◌≤◌, ◌++◌, [], codes, length, option_map, true, MatchOption};
ghost use Rattle.mc_trailer.specs.Tables.{magic_text, flag_text};
ghost use Rattle.mc_tear.specs.Readings.{entry_of, entry_text, fields_text, flag_of, is_named, magic_of, part, reading_of, reading_text, then_comma};

use mc_output::{Line, MOST_LINE};
use mc_trailer::{Flag, Magic};

/// Whether a status entry is read as written.
#[derive(Clone, Copy, Debug, PartialEq, Eq)]
pub enum Entry {
    Unset,
    Written,
}

impl Entry {
    /// Its name in one word.
    pub fn name(self) -> &'static str
        ensures text { result.now ≡ entry_text self }
        ensures at_most { length result.now ≤ 7 }
    {
        match self {
            Entry::Written => "written",
            Entry::Unset => "unset",
        }
    }
}

/// What the next boot reads of the fields that a torn operation may change, each of which is named. Where it may change none, none is.
#[derive(Clone, Copy, Debug)]
pub struct Reading {
    /// Of the slot's magic.
    pub magic: Option<Magic>,
    /// Of its image-ok.
    pub image_ok: Option<Flag>,
    /// Of the primary's copy-done.
    pub copy_done: Option<Flag>,
    /// Of the status entry that the operation writes.
    pub entry: Option<Entry>,
}

// What a digit says of a magic.
fn magic_of(digit: u32) -> Option<Magic>
    ensures { result ≡ magic_of digit }
{
    match digit {
        0 => None,
        1 => Some(Magic::Good),
        2 => Some(Magic::Unset),
        _ => Some(Magic::Bad),
    }
}

// What a digit says of a flag.
fn flag_of(digit: u32) -> Option<Flag>
    ensures { result ≡ flag_of digit }
{
    match digit {
        0 => None,
        1 => Some(Flag::Set),
        2 => Some(Flag::Unset),
        _ => Some(Flag::Bad),
    }
}

// What a digit says of an entry.
fn entry_of(digit: u32) -> Option<Entry>
    ensures { result ≡ entry_of digit }
{
    match digit {
        0 => None,
        1 => Some(Entry::Unset),
        _ => Some(Entry::Written),
    }
}

// Adds a magic that is named, after what separates it from the fields before it; gives what separates the next one.
fn put_magic(line: &mut Line, magic: Option<Magic>) -> &'static str
    requires { length line.old + 11 ≤ MOST_LINE }
    ensures text { line.new ≡ line.old ++ part [] (codes "magic=") (option_map magic_text magic) }
    ensures length { length line.new ≤ length line.old + 11 }
    ensures next { result.now ≡ then_comma [] (option_map magic_text magic) }
{
    match magic {
        None => "",
        Some(magic) => {
            line.put("magic=");
            line.put(magic.name());
            ","
        }
    }
}

// The same of a flag.
fn put_flag(
    line: &mut Line,
    separator: &'static str,
    name: &str,
    flag: Option<Flag>,
) -> &'static str
    requires { length line.old + length separator.now + length name.now + 5 ≤ MOST_LINE }
    ensures text { line.new ≡ line.old ++ part separator.now name.now (option_map flag_text flag) }
    ensures length { length line.new ≤ length line.old + length separator.now + length name.now
        + 5 }
    ensures next { result.now ≡ then_comma separator.now (option_map flag_text flag) }
{
    match flag {
        None => separator,
        Some(flag) => {
            line.put(separator);
            line.put(name);
            line.put(flag.name());
            ","
        }
    }
}

// The same of an entry, which is the last.
fn put_entry(line: &mut Line, separator: &str, entry: Option<Entry>)
    requires { length line.old + length separator.now + 13 ≤ MOST_LINE }
    ensures text { line.new ≡ line.old
        ++ part separator.now (codes "entry=") (option_map entry_text entry) }
    ensures length { length line.new ≤ length line.old + length separator.now + 13 }
{
    if let Some(entry) = entry {
        line.put(separator);
        line.put("entry=");
        line.put(entry.name());
    }
}

impl Reading {
    /// How many there are, possible or not.
    pub const COUNT: u32 = 192;

    /// The reading of a number, in their order: by the magic, image-ok, copy-done and the entry.
    pub fn of(number: u32) -> Reading
        requires { number < 192 }
        ensures { result ≡ reading_of number }
    {
        Reading {
            magic: magic_of(number / 48),
            image_ok: flag_of(number / 12 % 4),
            copy_done: flag_of(number / 3 % 4),
            entry: entry_of(number % 3),
        }
    }

    // Whether a field is named.
    fn is_named(&self) -> bool
        ensures { result ≡ is_named self.now }
    {
        self.magic.is_some()
            || self.image_ok.is_some()
            || self.copy_done.is_some()
            || self.entry.is_some()
    }

    // Adds the fields that are named, with commas between them: at most 58 bytes.
    fn put_fields(&self, line: &mut Line)
        requires { length line.old + 58 ≤ MOST_LINE }
        ensures text { line.new ≡ line.old ++ fields_text self.now }
        ensures length { length line.new ≤ length line.old + 58 }
    {
        let separator = put_magic(line, self.magic);
        let separator = put_flag(line, separator, "image-ok=", self.image_ok);
        let separator = put_flag(line, separator, "copy-done=", self.copy_done);
        put_entry(line, separator, self.entry);
    }

    /// Adds its text to a line: at most 58 bytes.
    pub fn put_into(&self, line: &mut Line)
        requires { length line.old + 58 ≤ MOST_LINE }
        ensures text { line.new ≡ line.old ++ reading_text self.now }
        ensures length { length line.new ≤ length line.old + 58 }
    {
        if self.is_named() {
            self.put_fields(line);
        } else {
            line.put("data");
        }
    }

    // Whether a text is its.
    fn is_text(&self, text: &str) -> bool
        ensures { (result ≡ true) ↔ (text.now ≡ reading_text self.now) }
    {
        let mut line = Line::new();
        self.put_into(&mut line);
        line.as_str() == text
    }

    /// The reading of a text. It takes no memory.
    /// Promised: readings are read exactly (`reading_text`).
    pub fn read(text: &str) -> Option<Reading>
        ensures { MatchOption result
            ((n : ℕ) → n < 192 → text.now ≡ reading_text (reading_of n) → ⊥)
            (λ r. (n : ℕ) × (n < 192) × (r ≡ reading_of n) × (text.now ≡ reading_text r)) }
    {
        for number in 0..Reading::COUNT {
            let reading = Reading::of(number);
            if reading.is_text(text) {
                return Some(reading);
            }
        }
        None
    }
}
