//! What can happen to a device, as a line of a script states it.
ghost use Rattle.std.specs.Prelude.{◌≡◌, ℕ, ◌≤◌, List, length, codes, MatchOption, Some, None, option_map, true, false};
ghost use Rattle.hex.specs.Hex.{IsBytes, encode_lower};
ghost use Rattle.mc_life.specs.Script.{ReadsEvent, Says, SaysNone, file_named};

use crate::request::Request;
use crate::words::{both_numbers, name_in, number_and_reading, number_of};
use mc_flash::Bytes16;
use mc_output::Line;
use mc_start::Schedule;
use mc_tear::Reading;

/// What can happen to a device.
#[derive(Clone, Copy, Debug)]
pub enum Event<'a> {
    /// The running image erases the secondary and writes a file from its start, all of it, or until it is stopped after so many
    /// bytes.
    Download(&'a str, Option<u32>),
    /// It requests the secondary's image.
    Request(Request),
    /// The bytes of the secondary are those of a file.
    Store(&'a str),
    /// It writes bytes of a file from an offset on, so many, at the same offset of the secondary, and erases nothing.
    Write(&'a str, u32, u32),
    /// It erases a sector of the secondary.
    Erase(u32),
    /// It confirms itself.
    Confirm,
    /// A confirmation is torn: these bytes stand at the primary's image-ok.
    Mark(Bytes16),
    /// The power comes on, is lost as often as there are cuts, and then the boot is left alone.
    Boot(Schedule),
    /// The power comes on, and is lost after so many operations.
    Cut(u32),
    /// The power comes on, and is lost within the operation of that number, of which the next boot reads this.
    Tear(u32, Reading),
}

// Reads as many bytes as there is room for from lower-case hexadecimal digits. False for every other text.
fn decode(text: &str, room: &mut [u8]) -> bool
    requires { length room.old ≤ 8 }
    ensures read { result ≡ true → text.now ≡ encode_lower room.new }
    ensures none { result ≡ false → (b : List ℕ) → length b ≡ length room.old → IsBytes b
        → text.now ≡ encode_lower b → ⊥ }
    ensures len { length room.new ≡ length room.old }
{
    if hex::decode_to_slice(text, room).is_err() {
        return false;
    }
    // Upper case digits are read too.
    let mut digits = Line::new();
    digits.put_hex(room);
    digits.as_str() == text
}

// What a slice holds are bytes.
fn bytes_stand(bytes: &[u8])
    ensures { IsBytes bytes.now }
{}

// The bytes that lower-case hexadecimal digits write, at most eight.
fn bytes_of(text: &str) -> Option<Bytes16>
    ensures { MatchOption result
        ((b : List ℕ) → length b ≤ 8 → IsBytes b → text.now ≡ encode_lower b → ⊥)
        (λ b. (length b ≤ 8) × IsBytes b × (text.now ≡ encode_lower b)) }
{
    let mut room = [0; 8];
    let len = text.len() / 2;
    if 8 < len {
        return None;
    }
    if !decode(text, &mut room[..len]) {
        return None;
    }
    let bytes = &room[..len];
    bytes_stand(bytes);
    Some(Bytes16::new(bytes))
}

// A download of a file, and until when.
fn download(rest: &str) -> Option<Event<'_>>
    ensures { MatchOption result (SaysNone (codes "download") (Some rest.now))
        (Says (codes "download") (Some rest.now)) }
{
    let Some((file, more)) = name_in(rest) else {
        return None;
    };
    let Some(count) = more else {
        return Some(Event::Download(file, None));
    };
    match number_of(count) {
        Some(count) => Some(Event::Download(file, Some(count))),
        None => None,
    }
}

// A request.
fn request(rest: &str) -> Option<Event<'_>>
    ensures { MatchOption result (SaysNone (codes "request") (Some rest.now))
        (Says (codes "request") (Some rest.now)) }
{
    match rest {
        "test" => Some(Event::Request(Request::Test)),
        "perm" => Some(Event::Request(Request::Perm)),
        _ => None,
    }
}

// The bytes of a file.
fn store(rest: &str) -> Option<Event<'_>>
    ensures { MatchOption result (SaysNone (codes "store") (Some rest.now))
        (Says (codes "store") (Some rest.now)) }
{
    let Some((file, more)) = name_in(rest) else {
        return None;
    };
    match more {
        None => Some(Event::Store(file)),
        Some(_) => None,
    }
}

// A part of a file.
fn write(rest: &str) -> Option<Event<'_>>
    ensures { MatchOption result (SaysNone (codes "write") (Some rest.now))
        (Says (codes "write") (Some rest.now)) }
{
    let Some((file, more)) = name_in(rest) else {
        return None;
    };
    let Some(numbers) = more else {
        return None;
    };
    match both_numbers(numbers) {
        Some((from, count)) => Some(Event::Write(file, from, count)),
        None => None,
    }
}

// An erase of a sector.
fn erase(rest: &str) -> Option<Event<'_>>
    ensures { MatchOption result (SaysNone (codes "erase") (Some rest.now))
        (Says (codes "erase") (Some rest.now)) }
{
    match number_of(rest) {
        Some(sector) => Some(Event::Erase(sector)),
        None => None,
    }
}

// A confirmation that is torn.
fn mark(rest: &str) -> Option<Event<'_>>
    ensures { MatchOption result (SaysNone (codes "mark") (Some rest.now))
        (Says (codes "mark") (Some rest.now)) }
{
    match bytes_of(rest) {
        Some(bytes) => Some(Event::Mark(bytes)),
        None => None,
    }
}

// A boot with cuts.
fn boot(rest: &str) -> Option<Event<'_>>
    ensures { MatchOption result (SaysNone (codes "boot") (Some rest.now))
        (Says (codes "boot") (Some rest.now)) }
{
    match Schedule::read(rest) {
        Ok(cuts) if !cuts.cuts().is_empty() => Some(Event::Boot(cuts)),
        _ => None,
    }
}

// A power cut.
fn cut(rest: &str) -> Option<Event<'_>>
    ensures { MatchOption result (SaysNone (codes "cut") (Some rest.now))
        (Says (codes "cut") (Some rest.now)) }
{
    match number_of(rest) {
        Some(count) => Some(Event::Cut(count)),
        None => None,
    }
}

// Power that is lost within an operation.
fn tear(rest: &str) -> Option<Event<'_>>
    ensures { MatchOption result (SaysNone (codes "tear") (Some rest.now))
        (Says (codes "tear") (Some rest.now)) }
{
    match number_and_reading(rest) {
        Some((count, reading)) => Some(Event::Tear(count, reading)),
        None => None,
    }
}

// What one word states.
fn of_word<'a>(name: &'a str) -> Option<Event<'a>>
    ensures { MatchOption result (SaysNone name.now None) (Says name.now None) }
{
    match name {
        "confirm" => Some(Event::Confirm),
        "boot" => Some(Event::Boot(Schedule::new())),
        _ => None,
    }
}

// What a first word and what comes after it state.
fn of_words<'a>(name: &'a str, rest: &'a str) -> Option<Event<'a>>
    ensures { MatchOption result (SaysNone name.now (Some rest.now))
        (Says name.now (Some rest.now)) }
{
    match name {
        "download" => download(rest),
        "request" => request(rest),
        "store" => store(rest),
        "write" => write(rest),
        "erase" => erase(rest),
        "mark" => mark(rest),
        "boot" => boot(rest),
        "cut" => cut(rest),
        "tear" => tear(rest),
        _ => None,
    }
}

impl<'a> Event<'a> {
    /// The event that a text states, if it states one. The text is what a line of a script says.
    /// Promised: a line is an event that it states, or none (`ReadsEvent`, `States`, `sayings`).
    pub fn read(line: &'a str) -> Option<Event<'a>>
        ensures { ReadsEvent line.now result }
    {
        match line.split_once(' ') {
            Some((name, rest)) => of_words(name, rest),
            None => of_word(line),
        }
    }

    /// The file that it names, if it names one.
    pub fn file(&self) -> Option<&'a str>
        ensures { option_map (λ t. t.now) result ≡ file_named self.now }
    {
        match self {
            Event::Download(file, _) | Event::Store(file) | Event::Write(file, _, _) => Some(file),
            _ => None,
        }
    }
}
