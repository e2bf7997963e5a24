//! `life`: what happens to a device, replayed event by event.
ghost use Rattle.std.specs.Prelude.{◌≡◌, ◌≢◌, ◌≤◌, ◌⊎◌, ℕ, List, Option, IfErr, IfOk, MatchResult, OnErr, OnOk, length, option_map};
ghost use Rattle.clap.specs.Matches.{found_of};
ghost use Rattle.mc_actions.specs.Lives.{AddsFile, AnswersLife, FailsAlone, FailsDevice, FailsFile, FailsScript, FailsShelf, GivesDelivery, GivesDevice, GivesLife, GivesScript, HoldsAlone, IsShelfOf, IsWearOut, LacksDelivery, LacksDevice, LacksLife, StopsLife};
ghost use Rattle.mc_life.specs.Device.{OfWear};
ghost use Rattle.mc_life.specs.Replay.{IsReplayed};
ghost use Rattle.mc_output.specs.Text.{AppendsPrefix};

use crate::infile::open_infile;
use crate::replay::write_file;
use clap::ArgMatches;
use mc_cli::{KnownFiles, WatchedFiles};
use mc_explore::{Kind, Start};
use mc_flash::{Layout, Slot, SnapFlash};
use mc_life::{
    Device, Event, EventError, File, LifeError, Script, find, replay_life, said, write_wear,
};
use mc_options::{
    GREATEST_FLASH, GREATEST_IMAGE, Refusal, check_outputs, layout_options, read_file,
    rules_options,
};
use mc_output::WriteFailed;
use std::alloc::Global;
use std::io;
use std::io::{Read, Write};
use std::rt::Files;

/// The start of a device that is delivered with an image in the primary, all else blank.
///
/// # Errors
///
/// `Start` where the image is refused, or does not fit, or an allocation failed.
fn delivered(alloc: Global, layout: &Layout, image: &[u8]) -> Result<Start, Refusal>
    ensures layout { IfOk result (λ start. start.geometry ≡ layout.now) }
    ensures content { IfOk result (λ start. HoldsAlone layout.now image.now start.content) }
    ensures refused { IfErr result (FailsAlone layout.now image.now) }
{
    let images = Start::from_images(alloc, layout, Kind::None, image, image)?;
    let primary = images.primary();
    let size = primary.len() + layout.size(Slot::Secondary) as usize;
    let mut bytes = Vec::with_capacity(alloc, size)?;
    bytes.extend_from_slice(primary)?;
    bytes.resize(size, 0xff)?;
    Ok(Start::from_flash(alloc, layout, &bytes)?)
}

/// The start of a device, by its file.
///
/// # Errors
///
/// `Device` where not one of `--flash` and `--image` is given; what is refused of the file.
fn start_of<F: KnownFiles>(
    files: &F,
    alloc: Global,
    arguments: &ArgMatches<'_>,
    layout: &Layout,
) -> Result<Start, Refusal>
    ensures layout { IfOk result (λ start. start.geometry ≡ layout.now) }
    ensures device { IfOk result (λ start. GivesDevice (F.holds files.now)
        (found_of arguments.now) layout.now start.content) }
    ensures refused { IfErr result (λ e. LacksDevice (found_of arguments.now) e
        ⊎ FailsDevice (F.holds files.now) (found_of arguments.now) layout.now e) }
{
    match (arguments.get_str("flash"), arguments.get_str("image")) {
        (Some(path), None) => {
            let bytes = read_file(files, alloc, path, GREATEST_FLASH)?;
            Ok(Start::from_flash(alloc, layout, &bytes)?)
        }
        (None, Some(path)) => {
            let bytes = read_file(files, alloc, path, GREATEST_IMAGE)?;
            delivered(alloc, layout, &bytes)
        }
        _ => Err(Refusal::Device),
    }
}

/// The start that the options give. They are checked before a file is touched.
///
/// # Errors
///
/// `Layout` and `Argument` of the words; `SameFile`; those of `start_of`.
fn read_device<F: KnownFiles>(
    files: &F,
    alloc: Global,
    arguments: &ArgMatches<'_>,
) -> Result<Start, Refusal>
    ensures given { IfOk result (GivesDelivery (F.holds files.now) (found_of arguments.now)) }
    ensures refused { IfErr result (LacksDelivery (F.holds files.now) (found_of arguments.now)) }
{
    let layout = layout_options(arguments)?;
    let rules = rules_options(arguments)?;
    check_outputs(files, arguments)?;
    let start = start_of(files, alloc, arguments, &layout)?;
    Ok(start.with_rules(rules))
}

/// What is refused of a file, unless it cannot be opened: then the event that names it is refused.
///
/// # Errors
///
/// What is refused.
fn unless_unopened(refusal: Refusal) -> Result<(), Refusal>
    ensures unopened { OnOk result (refusal ≡ Refusal.Open) }
    ensures refused { IfErr result (λ e. (e ≡ refusal) × (e ≢ Refusal.Open)) }
{
    match refusal {
        Refusal::Open => Ok(()),
        _ => Err(refusal),
    }
}

/// Adds a file by its name, if it is not there yet and can be opened.
///
/// # Errors
///
/// `Tool` where a read failed, or the file is too long; `Memory`.
fn add_file<F: KnownFiles>(
    files: &F,
    alloc: Global,
    name: &str,
    shelf: &mut Vec<File>,
) -> Result<(), Refusal>
    ensures added { OnOk result (AddsFile (F.holds files.now) name.now shelf.old.items
        shelf.new.items) }
    ensures refused { IfErr result (FailsFile (F.holds files.now) name.now) }
{
    if find(shelf, name).is_some() {
        return Ok(());
    }
    let bytes = match read_file(files, alloc, name, GREATEST_IMAGE) {
        Ok(bytes) => bytes,
        Err(refusal) => return unless_unopened(refusal),
    };
    let file = File::new(alloc, name, bytes)?;
    let Ok(()) = shelf.push(file) else {
        return Err(Refusal::Memory);
    };
    Ok(())
}

/// The files that a script names, each once. None of them is the file that is to be written.
///
/// # Errors
///
/// `SameFile`; those of `add_file`.
fn read_shelf<F: KnownFiles>(
    files: &F,
    alloc: Global,
    script: &Script,
    outfile: Option<&str>,
) -> Result<Vec<File>, Refusal>
    ensures shelf { IfOk result (λ shelf. IsShelfOf (F.holds files.now) script.now shelf.items) }
    ensures refused { IfErr result (FailsShelf (F.holds files.now) script.now
        (option_map (λ path. path.now) outfile.entry)) }
{
    let names = script.names(alloc)?;
    let mut shelf = Vec::new(alloc);
    'names: for name in &names {
        if let Some(outfile) = outfile
            && files.is_same_file(name, outfile)
        {
            return Err(Refusal::SameFile);
        }
        add_file(files, alloc, name, &mut shelf)?;
    }
    Ok(shelf)
}

/// The script, from its file or from standard input.
///
/// # Errors
///
/// `Open` where the file cannot be opened; `Script` with what is refused of what is read.
fn read_script<F: KnownFiles, R: Read>(
    files: &F,
    alloc: Global,
    arguments: &ArgMatches<'_>,
    input: &mut R,
) -> Result<Script, Refusal>
    ensures given { IfOk result (λ script. GivesScript (F.holds files.now) (R.remaining input.old)
        (found_of arguments.now) (Ok script)) }
    ensures refused { IfErr result (FailsScript (F.holds files.now) (R.remaining input.old)
        (found_of arguments.now)) }
{
    let path = arguments.get_str("SCRIPT").unwrap_or("-");
    if path == "-" {
        return Ok(Script::read(alloc, input)?);
    }
    let mut file = open_infile(files, path)?;
    Ok(Script::read(alloc, &mut file)?)
}

/// What `life` is asked for: a device, what happens to it, the files that the script names, and what follows.
#[derive(Drop)]
pub struct Life<'p> {
    start: Start,
    script: Script,
    shelf: Vec<File>,
    /// Whether what was erased is printed at the end.
    wear: bool,
    /// The file that the flash at the end goes to, if one is named.
    out: Option<&'p str>,
}

/// What `life` is asked for. The words are checked before a file is touched.
///
/// # Errors
///
/// Those of `read_device`, `read_script` and `read_shelf`, in this order.
pub fn read<'p, F: KnownFiles, R: Read>(
    files: &F,
    alloc: Global,
    arguments: &ArgMatches<'p>,
    input: &mut R,
) -> Result<Life<'p>, Refusal>
    ensures given { IfOk result (GivesLife (F.holds files.now) (R.remaining input.old)
        (found_of arguments.now)) }
    ensures refused { IfErr result (LacksLife (F.holds files.now) (R.remaining input.old)
        (found_of arguments.now)) }
{
    let start = read_device(files, alloc, arguments)?;
    let script = read_script(files, alloc, arguments, input)?;
    let out = arguments.get_str("out");
    let shelf = read_shelf(files, alloc, &script, out)?;
    Ok(Life {
        start,
        script,
        shelf,
        wear: arguments.get_flag("wear"),
        out,
    })
}

/// The line of a script of that number, counted from 1.
fn line_at(script: &Script, number: u32) -> Option<&str> {
    script.text().lines().nth(number.checked_sub(1)? as usize)
}

/// The lines of a text before the one of that number, counted from 1.
fn lines_before(text: &str, number: u32) -> Option<&str> {
    match number.checked_sub(2) {
        None => Some(""),
        Some(earlier) => {
            let (end, _) = text.match_indices('\n').nth(earlier as usize)?;
            text.get(..end)
        }
    }
}

/// A cut, and how many operations the boot has in which it is to fall, after the cuts before it.
fn cut_at(device: &mut Device<SnapFlash>, cuts: &[u32], index: usize) -> Option<(u32, u32)>
    requires { length cuts.now ≤ 16 }
{
    let cut = *cuts.get(index)?;
    let outcome = device.boot(&cuts[..index], &[]).ok()?;
    Some((cut, outcome.ops))
}

/// The same of an event, if it has that cut.
fn cut_of(device: &mut Device<SnapFlash>, event: &Event<'_>, index: usize) -> Option<(u32, u32)> {
    match event {
        Event::Boot(schedule) => cut_at(device, schedule.cuts(), index),
        Event::Cut(count) | Event::Tear(count, _) => cut_at(device, &[*count], index),
        _ => None,
    }
}

/// A cut of the event in a line that can't occur, and how many operations its boot has: what comes before is replayed once more.
fn operations_at(life: &Life<'_>, alloc: Global, number: u32, index: usize) -> Option<(u32, u32)> {
    let text = lines_before(life.script.text(), number)?;
    let before = Script::read(alloc, &mut text.as_bytes()).ok()?;
    let mut device: Device<SnapFlash> = replay_life(
        alloc,
        &life.start,
        &before,
        &life.shelf,
        &mut io::sink(),
    ).ok()?;
    match Event::read(said(line_at(&life.script, number)?)) {
        Some(event) => cut_of(&mut device, &event, index),
        None => None,
    }
}

/// Why an event can't happen: its line, and of a cut how many operations its boot has.
fn reason_of(life: &Life<'_>, alloc: Global, error: EventError, number: u32) -> Option<String> {
    let line = line_at(&life.script, number)?;
    if let EventError::CannotOccur(index) = error
        && let Some((cut, operations)) = operations_at(life, alloc, number, index)
    {
        return format!(in alloc;
            "line {number} is: {line}\nmcsim: cut {index} is {cut}, and its boot has {operations} operations"
        ).ok();
    }
    format!(in alloc; "line {number} is: {line}").ok()
}

/// Replays a life, a line for each event, and gives the device as it is at the end.
///
/// # Errors
///
/// `Life` with the first event that can't happen: all before it is printed.
fn replay<F: Files, O: Write>(
    files: &WatchedFiles<'_, F>,
    alloc: Global,
    life: &Life<'_>,
    out: &mut O,
) -> Result<Device<SnapFlash>, Refusal>
    ensures { MatchResult result
        (IsReplayed life.now.shelf.items life.now.start life.now.script (O.contents out.old)
        (O.contents out.new))
        (StopsLife life.now (O.contents out.old) (O.contents out.new)) }
{
    let replayed = replay_life(alloc, &life.start, &life.script, &life.shelf, out);
    if let Err(LifeError::Refused(error, _, number)) = &replayed
        && let Some(reason) = reason_of(life, alloc, *error, *number)
    {
        files.keep_reason(reason);
    }
    replayed.map_err(Refusal::Life)
}

/// Prints what was erased, where that is asked for.
///
/// # Errors
///
/// `WriteFailed`.
fn write_erased<O: Write>(
    life: &Life<'_>,
    device: &Device<SnapFlash>,
    out: &mut O,
) -> Result<(), WriteFailed>
    ensures whole { OnOk result (IsWearOut life.now.wear device.now.wear (O.contents out.old)
        (O.contents out.new)) }
    ensures prefix { OnErr result (OfWear device.now.wear (AppendsPrefix (O.contents out.old)
        (O.contents out.new))) }
{
    if !life.wear {
        return Ok(());
    }
    write_wear(device.wear(), out)
}

/// Replays what happens to a device by a script, a line for each event. Where it is asked for, two lines of what was erased follow, and
/// where a file is named, the flash at the end is written to it.
///
/// # Errors
///
/// `Life` with the first event that can't happen; `Write`; `Open`, `Memory` and `Write` of the file.
pub fn answer<F: Files, O: Write>(
    files: &WatchedFiles<'_, F>,
    alloc: Global,
    life: &Life<'_>,
    out: &mut O,
) -> Result<(), Refusal>
    ensures { AnswersLife life.now (O.contents out.old) (O.contents out.new) result }
{
    let device = replay(files, alloc, life, out)?;
    write_erased(life, &device, out)?;
    match life.out {
        Some(path) => write_file(files, alloc, path, device.flash()),
        None => Ok(()),
    }
}
