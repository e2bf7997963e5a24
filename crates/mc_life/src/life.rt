//! A life, replayed event by event.
ghost use Rattle.std.specs.Prelude.{◌≡◌, ◌<◌, Option, option_map, IfErr, IfOk, MatchResult, None, Some, OnOk};
ghost use Rattle.mc_boot.specs.Life.{IsDelivered, LivesOn};
ghost use Rattle.mc_boot.specs.Outcome.{shown, Report};
ghost use Rattle.mc_flash.specs.Flash.{Content};
ghost use Rattle.mc_life.specs.Replay.{AllowsEvent, Ends, HasNoTear, LeadsTo, RefusesEvent, FailsLife, FailsLine, Happens, IsReplayed, RefusesLine, life_error, line_text};
ghost use Rattle.mc_life.specs.Script.{file_of, is_skipped, sayings};
ghost use Rattle.std.specs.Io.KnownBytes.{Appends};
ghost use Rattle.mc_life.specs.Device.{moment};
ghost use Rattle.mc_boot.specs.Torn.{EndsTorn, roughly};
ghost use Rattle.mc_trailer.specs.declared.tables.Profile.TheVariants as profiles;

use crate::device::Device;
use crate::error::EventError;
use crate::event::Event;
use crate::files::{File, find, known_at};
use crate::script::{Script, next_line};
use crate::state::{state_of, write_event};
use mc_boot::{KnownImage, Outcome, image_in, life_law, torn_law};
use mc_flash::Flash;
use mc_output::WriteFailed;
use mc_start::Start;
use std::alloc::Global;
use std::io::Write;
use thiserror::Error;

/// Why a life is not replayed to its end.
#[derive(Clone, Copy, Debug, PartialEq, Eq, Error)]
pub enum LifeError {
    /// The event of that number, in the line of that number, can't happen, or its line states none; both are counted from 1.
    /// All before it is out.
    #[error("{0}, event {1}, line {2}")]
    Refused(EventError, u32, u32),
    /// An allocation failed, or the room of a flash that counts is full.
    #[error("E52 Memory")]
    Memory,
    /// A write failed, or took no bytes.
    #[error("E25 Write")]
    Write,
}

/// The most bytes of an image.
const MOST_IMAGE: usize = 1 << 24;

// Whether a line states nothing, by what it says.
fn is_skipped(line: &str) -> bool
    ensures { result ≡ is_skipped line.now }
{
    line.is_empty()
}

// What a file holds.
fn held<'a>(files: &'a [File], name: &str) -> Result<&'a [u8], EventError>
    ensures { MatchResult result (λ bytes. file_of files.now name.now ≡ Some bytes.now)
        (λ e. (file_of files.now name.now ≡ None) × (e ≡ EventError.NoFile)) }
{
    match find(files, name) {
        Some(bytes) => Ok(bytes),
        None => Err(EventError::NoFile),
    }
}

// An event happens to a device. A boot ends with an outcome.
fn happen<F: Flash>(
    device: &mut Device<F>,
    alloc: Global,
    event: &Event<'_>,
    files: &[File],
    known: &[Option<KnownImage<'_>>],
) -> Result<Option<Outcome>, EventError>
    ensures leads { OnOk result (LeadsTo files.now event.now device.old device.new) }
    ensures allowed { OnOk result (AllowsEvent files.now device.old event.now) }
    ensures ends { IfOk result (λ o. Ends device.old event.now (option_map shown o)) }
    ensures refused { IfErr result (RefusesEvent files.now device.old event.now) }
{
    match event {
        Event::Download(file, bytes) => device.download(alloc, held(files, file)?, *bytes)?,
        Event::Request(request) => device.request(*request)?,
        Event::Store(file) => device.store(held(files, file)?)?,
        Event::Write(file, from, count) => {
            device.write(alloc, held(files, file)?, *from, *count)?;
        }
        Event::Erase(sector) => device.erase(*sector)?,
        Event::Confirm => device.confirm()?,
        Event::Mark(bytes) => device.mark(alloc, bytes.bytes())?,
        Event::Boot(cuts) => return Ok(Some(device.boot(cuts.cuts(), known)?)),
        Event::Cut(count) => device.cut(*count, known)?,
        Event::Tear(count, reading) => device.tear(alloc, *count, reading, known)?,
    }
    Ok(None)
}

// Why a line is not replayed.
#[derive(Clone, Copy, Debug, PartialEq, Eq)]
enum LineError {
    Event(EventError),
    Write,
}

impl From<EventError> for LineError {
    ghost use Rattle.mc_life.specs.declared.life.LineError.TheVariants.{Event};

    ghost from_gives = { λ why e. e ≡ Event why };

    fn from(why: EventError) -> Self {
        LineError::Event(why)
    }
}

impl From<WriteFailed> for LineError {
    ghost use Rattle.mc_life.specs.declared.life.LineError.TheVariants.{Write};

    ghost from_gives = { λ _ e. e ≡ Write };

    fn from(_: WriteFailed) -> Self {
        LineError::Write
    }
}

// What a line states, by what it says, happens to a device.
fn happen_line<F: Flash>(
    device: &mut Device<F>,
    alloc: Global,
    line: &str,
    files: &[File],
    known: &[Option<KnownImage<'_>>],
) -> Result<Option<Outcome>, EventError>
    ensures happens { IfOk result (λ o. Happens files.now line.now device.old device.new
        (option_map shown o)) }
    ensures refused { IfErr result (RefusesLine files.now line.now device.old) }
{
    match Event::read(line) {
        Some(event) => happen(device, alloc, &event, files, known),
        None => Err(EventError::Syntax),
    }
}

// Replays a line that is not skipped.
fn replay_line<F: Flash, W: Write>(
    device: &mut Device<F>,
    alloc: Global,
    number: u32,
    line: &str,
    files: &[File],
    known: &[Option<KnownImage<'_>>],
    writer: &mut W,
) -> Result<(), LineError>
    ensures replayed { OnOk result ((o : Option Report) × Happens files.now line.now device.old
        device.new o × Appends (W.contents writer.old) (W.contents writer.new)
        (line_text number line.now o device.new)) }
    ensures failed { IfErr result (FailsLine files.now number line.now device.old
        (W.contents writer.old) (W.contents writer.new)) }
{
    let outcome = happen_line(device, alloc, line, files, known)?;
    let state = state_of(device.flash(), device.rules(), known);
    write_event(number, line, &outcome, &state, writer)?;
    Ok(())
}

// The valid image that some bytes begin with, as one that is known.
fn known_bytes(bytes: &[u8]) -> Option<KnownImage<'_>> {
    if bytes.len() > MOST_IMAGE {
        return None;
    }
    let id = image_in(bytes, &[])?;
    Some(KnownImage::new(bytes, id))
}

// The images that a start and the first files begin with.
fn known_images<'a>(start: &'a Start, files: &'a [File]) -> [Option<KnownImage<'a>>; 8] {
    [
        known_bytes(start.primary()),
        known_bytes(start.secondary()),
        known_at(files, 0),
        known_at(files, 1),
        known_at(files, 2),
        known_at(files, 3),
        known_at(files, 4),
        known_at(files, 5),
    ]
}

// Why a life is not replayed to its end, where that line is not replayed.
fn failure(error: LineError, number: u32, line: u32) -> LifeError
    ensures { result ≡ life_error error number line }
{
    match error {
        LineError::Event(EventError::Memory) => LifeError::Memory,
        LineError::Event(why) => LifeError::Refused(why, number, line),
        LineError::Write => LifeError::Write,
    }
}

/// Replays what happens to a device from a start on, by a script: a line for each event, with its number, its words as the script
/// has them, for a boot its result, its type and how many operations happened, then the primary's image, whether that is on trial,
/// the secondary's image, and the type of the next boot. The device at the end. At the start the power is off.
/// Promised: a life's lines, or those before a failure and a prefix (`replayed`, `failed`).
/// Promised: whatever the script: the device lives on, by profile 3 with tears too (`lives`, `torn`).
///
/// The images that the start and the first six files begin with are hashed once.
///
/// # Errors
///
/// `Refused` with the first event that can't happen, or the first line that states none: all before it is out. `Memory`. `Write`.
pub fn replay_life<F: Flash, W: Write>(
    alloc: Global,
    start: &Start,
    script: &Script,
    files: &[File],
    writer: &mut W,
) -> Result<Device<F>, LifeError>
    ensures replayed { IfOk result (IsReplayed files.now start.now script.now (W.contents
        writer.old)
        (W.contents writer.new)) }
    ensures failed { IfErr result (FailsLife files.now start.now script.now
        (W.contents writer.old) (W.contents writer.new)) }
    // Whatever the script: a device that can be delivered lives on, and its next boot ends well, where no operation is torn,
    ensures lives { let s = start.now in IfOk result (λ d. IsDelivered s.geometry s.content
        → HasNoTear (sayings script.now)
        → (rested z : Content) × LivesOn s.rules s.geometry (moment d rested) z) }
    // and by the third profile where some are, too.
    ensures torn { let s = start.now in IfOk result (λ d. IsDelivered s.geometry s.content
        → s.rules.profile ≡ profiles.Three
        → (rested z : Content) × EndsTorn roughly s.rules s.geometry rested d.seen.content z) }
{
    life_law();
    torn_law();
    // Reading a field gives the prover that it is a layout.
    let _layout = start.layout();
    let known = known_images(start, files);
    let Ok(mut device) = Device::new(alloc, start) else {
        return Err(LifeError::Memory);
    };
    let mut number = 1;
    let mut line_number = 1;
    let mut rest = Some(script.text());
    'lines: while let Some(text) = rest {
        let (line, after) = next_line(text);
        if !is_skipped(line) {
            match replay_line(&mut device, alloc, number, line, files, &known, writer) {
                Ok(()) => {}
                Err(error) => return Err(failure(error, number, line_number)),
            }
            number += 1;
        }
        line_number += 1;
        rest = after;
    }
    Ok(device)
}
