//! What a refusal is about: a line more than its number and name.
ghost use Rattle.std.specs.Prelude.{◌≤◌};

use crate::cuts::report_cut;
use crate::heads::report_head;
use crate::layout_file::report_lines;
use crate::numbers::NumberOption;
use crate::options::{create_options, layout_options};
use crate::refusal::Refusal;
use crate::source::{GREATEST_FLASH, GREATEST_IMAGE, read_file};
use clap::ArgMatches;
use mc_cli::{KnownFiles, WatchedFiles};
use mc_explore::{ReplayError, StartError};
use mc_flash::{LayoutError, Slot};
use mc_image::{ImageError, ImageView};
use mc_imgtool::{CreateOptions, ToolError, create};
use mc_life::{EventError, LifeError};
use mc_trace::TraceError;
use std::alloc::Global;
use std::io::{Read, Write};
use std::{fs, io};

/// Prints the reason of a refusal, if it is known: the file and what the system says of it, how much of it is read, what it begins with, or the
/// line of it that is refused; the sizes of an image and of what fits; the rule that a layout breaks, with its numbers; the boot that a cut
/// can't fall into; or the words that are missing.
///
/// # Errors
///
/// Where the output fails.
pub fn report_reason<F: KnownFiles, E: Write>(
    files: WatchedFiles<'_, F>,
    alloc: Global,
    arguments: &ArgMatches<'_>,
    refusal: &Refusal,
    err: &mut E,
) -> io::Result<()> {
    match refusal {
        Refusal::Layout(error) => report_layout(arguments, *error, err),
        Refusal::NeverSwaps => report_never(arguments, err),
        Refusal::LargePicture => writeln!(
            err,
            "mcsim: give --from and --to, with at most 20000 operations between them"
        ),
        Refusal::Start(error) => report_start(&files, alloc, arguments, *error, err),
        Refusal::Replay(ReplayError::CannotOccur(index))
        | Refusal::Trace(TraceError::CannotOccur(index)) => report_cut(
            &files, alloc, arguments, *index, err,
        ),
        Refusal::Source => report_source(arguments, err),
        Refusal::Device => writeln!(err, "mcsim: give one of --flash and --image"),
        Refusal::Expectation => report_expectation(arguments, err),
        Refusal::Tool(error) => report_tool(files, alloc, arguments, *error, err),
        _ => report_file(files, alloc, refusal, err),
    }
}

/// Prints the reason of a refusal of the image tool, if it is known.
///
/// # Errors
///
/// Where the output fails.
fn report_tool<F: KnownFiles, E: Write>(
    files: WatchedFiles<'_, F>,
    alloc: Global,
    arguments: &ArgMatches<'_>,
    error: ToolError,
    err: &mut E,
) -> io::Result<()> {
    match (error, arguments.get_str("INFILE")) {
        (ToolError::InputTooLong, _) => report_long(files, arguments, err),
        (ToolError::Read, Some(path)) => report_unread(&files, path, err),
        (ToolError::Image(error), Some(path)) => report_head(&files, path, error, err),
        (ToolError::SlotTooSmall, Some(path)) => report_slot(&files, alloc, arguments, path, err),
        _ => report_file(files, alloc, &Refusal::Tool(error), err),
    }
}

/// How many bytes the image of a payload has, if that can be read and made.
fn image_size<F: KnownFiles>(
    files: &F,
    alloc: Global,
    options: &CreateOptions,
    path: &str,
) -> Option<usize>
    requires { 32 ≤ options.now.header_size }
{
    let options = CreateOptions {
        slot_size: None,
        pad: false,
        confirm: false,
        ..*options
    };
    let mut payload = fs::open(files, path).ok()?;
    let mut image = Vec::new(alloc);
    create(alloc, &options, &mut payload, &mut image).ok()?;
    Some(image.len())
}

/// Prints the sizes of an image, of its trailer and of the slot that has no room for both.
///
/// # Errors
///
/// Where the output fails.
fn report_slot<F: KnownFiles, E: Write>(
    files: &F,
    alloc: Global,
    arguments: &ArgMatches<'_>,
    path: &str,
    err: &mut E,
) -> io::Result<()> {
    if let Ok(options) = create_options(arguments)
        && let Some(slot) = options.slot_size
        && let Some(size) = image_size(files, alloc, &options, path)
    {
        let trailer = 3 * u64::from(options.max_sectors) * u64::from(options.align) + 48;
        return writeln!(
            err,
            "mcsim: the image has {size} bytes, its trailer {trailer}, and --slot-size is {slot}"
        );
    }
    Ok(())
}

/// Prints the options that say what the slots are to hold at the end, where one is missing.
///
/// # Errors
///
/// Where the output fails.
fn report_expectation<E: Write>(arguments: &ArgMatches<'_>, err: &mut E) -> io::Result<()> {
    let missing = first_missing(arguments, &["expect-primary", "expect-secondary"]);
    match missing {
        Some(name) => writeln!(
            err,
            "mcsim: --{name} is missing: a dump does not say what is right"
        ),
        None => Ok(()),
    }
}

/// The first of some options that is not given, if there is one.
fn first_missing<'n>(arguments: &ArgMatches<'_>, names: &[&'n str]) -> Option<&'n str> {
    names
        .iter()
        .copied()
        .find(|name| arguments.get_str(name).is_none())
}

/// Prints the file that a refusal is about, if it is known, and what the system says of it, or the line that is refused.
///
/// # Errors
///
/// Where the output fails.
pub fn report_file<F: KnownFiles, E: Write>(
    files: WatchedFiles<'_, F>,
    alloc: Global,
    refusal: &Refusal,
    err: &mut E,
) -> io::Result<()> {
    match refusal {
        Refusal::Open
        | Refusal::Write
        | Refusal::Tool(ToolError::Write)
        | Refusal::Trace(TraceError::Write)
        | Refusal::Life(LifeError::Refused(EventError::NoFile, _, _)) => report_failed(files, err),
        Refusal::Life(LifeError::Refused(..)) => match files.take_reason() {
            Some(reason) => writeln!(err, "mcsim: {reason}"),
            None => Ok(()),
        },
        Refusal::Tool(ToolError::Read) => match files.take_opened() {
            Some(path) => report_unread(&files, &path, err),
            None => Ok(()),
        },
        Refusal::LayoutFile => match files.take_opened() {
            Some(path) => report_lines(&files, alloc, &path, err),
            None => Ok(()),
        },
        _ => Ok(()),
    }
}

/// Prints what a source is given by, and the option that is missing.
///
/// # Errors
///
/// Where the output fails.
fn report_source<E: Write>(arguments: &ArgMatches<'_>, err: &mut E) -> io::Result<()> {
    let images = ["kind", "image-a", "image-b"];
    let (flash, missing) = (
        arguments.get_str("flash"),
        first_missing(arguments, &images),
    );
    let is_bare = images.iter().all(|name| arguments.get_str(name).is_none());
    match (flash, missing) {
        (Some(_), _) if is_bare => writeln!(err, "mcsim: --known-a and --known-b go together"),
        (None, Some(missing)) if !is_bare => writeln!(
            err,
            "mcsim: --{missing} is missing: give --flash alone, or all of --kind, --image-a and --image-b"
        ),
        _ => writeln!(
            err,
            "mcsim: give --flash alone, or all of --kind, --image-a and --image-b"
        ),
    }
}

/// Prints the file that is too long, and how many bytes of it are read at most.
///
/// # Errors
///
/// Where the output fails.
fn report_long<F: KnownFiles, E: Write>(
    files: WatchedFiles<'_, F>,
    arguments: &ArgMatches<'_>,
    err: &mut E,
) -> io::Result<()> {
    let Some(path) = files.take_opened() else {
        return writeln!(err, "mcsim: the input has more than {GREATEST_IMAGE} bytes");
    };
    let limit = if arguments.get_str("flash") == Some(path.as_str()) {
        GREATEST_FLASH
    } else {
        GREATEST_IMAGE
    };
    writeln!(err, "mcsim: {path} has more than {limit} bytes")
}

/// Prints the last file that could not be opened, made or written, if there is one, and what the system says of it.
///
/// # Errors
///
/// Where the output fails.
fn report_failed<F: KnownFiles, E: Write>(
    files: WatchedFiles<'_, F>,
    err: &mut E,
) -> io::Result<()> {
    match files.failed() {
        Some(failed) => writeln!(err, "mcsim: {}: {}", failed.path, failed.error),
        None => Ok(()),
    }
}

/// Prints what the system says of a file that it cannot read.
///
/// # Errors
///
/// Where the output fails.
fn report_unread<F: KnownFiles, E: Write>(files: &F, path: &str, err: &mut E) -> io::Result<()> {
    let mut byte = [0; 1];
    if let Ok(mut file) = fs::open(files, path)
        && let Err(error) = file.read(&mut byte)
    {
        return writeln!(err, "mcsim: {path}: {error}");
    }
    Ok(())
}

/// Prints the rule that the numbers of a layout break, with the numbers.
///
/// # Errors
///
/// Where the output fails.
fn report_layout<E: Write>(
    arguments: &ArgMatches<'_>,
    error: LayoutError,
    err: &mut E,
) -> io::Result<()> {
    let sector = number(arguments, NumberOption::Sector);
    let unit = number(arguments, NumberOption::Unit);
    match error {
        LayoutError::Unit => writeln!(err, "mcsim: --unit is {unit}: it must be 1, 2, 4 or 8"),
        LayoutError::Sector => writeln!(
            err,
            "mcsim: --sector is {sector}: it must be a power of two from 64 to 65536"
        ),
        LayoutError::Chunk => {
            let chunk = number(arguments, NumberOption::Chunk);
            writeln!(
                err,
                "mcsim: --chunk is {chunk}: it must be whole units of {unit}, and go into {sector} without a rest"
            )
        }
        LayoutError::Counts => report_counts(arguments, sector, err),
        LayoutError::NoRoom => writeln!(
            err,
            "mcsim: the trailers of --max-sectors {} leave no sector to an image",
            number(arguments, NumberOption::MaxSectors)
        ),
    }
}

/// Prints the numbers of a layout with which nothing is swapped.
///
/// # Errors
///
/// Where the output fails.
fn report_never<E: Write>(arguments: &ArgMatches<'_>, err: &mut E) -> io::Result<()> {
    let most = number(arguments, NumberOption::MaxSectors);
    let primary = number(arguments, NumberOption::Primary);
    writeln!(
        err,
        "mcsim: --max-sectors is {most}, --primary {primary}: the trailer has no room for that many"
    )
}

/// Prints the first rule that the counts of sectors break.
///
/// # Errors
///
/// Where the output fails.
fn report_counts<E: Write>(arguments: &ArgMatches<'_>, sector: u32, err: &mut E) -> io::Result<()> {
    let most = number(arguments, NumberOption::MaxSectors);
    let primary = number(arguments, NumberOption::Primary);
    let secondary = number(arguments, NumberOption::Secondary);
    if most == 0 || most > 1024 {
        return writeln!(
            err,
            "mcsim: --max-sectors is {most}: it must be from 1 to 1024"
        );
    }
    if secondary == 0 {
        return writeln!(err, "mcsim: --secondary is 0: it must be 1 or more");
    }
    if primary > GREATEST_IMAGE / 64 && primary.checked_rem(sector) == Some(0) {
        let count = primary.checked_div(sector).unwrap_or(0);
        return writeln!(
            err,
            "mcsim: --primary counts sectors: {primary} bytes are {count} of {sector}"
        );
    }
    let more = u64::from(secondary) + 1;
    if primary != secondary && u64::from(primary) != more {
        return writeln!(
            err,
            "mcsim: --primary is {primary}, --secondary {secondary}: it must be {secondary} or {more}"
        );
    }
    writeln!(
        err,
        "mcsim: --primary is {primary}, --sector {sector}: a slot has at most 16777216 bytes"
    )
}

/// The number that an option gives, or 0.
fn number(arguments: &ArgMatches<'_>, option: NumberOption) -> u32 {
    match option.read(arguments) {
        Ok(Some(number)) => number,
        _ => 0,
    }
}

/// Prints the file that a start is refused for, with its size where that is the fault.
///
/// # Errors
///
/// Where the output fails.
fn report_start<F: KnownFiles, E: Write>(
    files: &F,
    alloc: Global,
    arguments: &ArgMatches<'_>,
    error: StartError,
    err: &mut E,
) -> io::Result<()> {
    let first = arguments
        .get_str("image-a")
        .or(arguments.get_str("image"))
        .or(arguments.get_str("known-a"))
        .unwrap_or("");
    let second = arguments
        .get_str("image-b")
        .or(arguments.get_str("known-b"))
        .unwrap_or("");
    match error {
        StartError::ImageA(error) => report_image(files, ("A", first), error, err),
        StartError::ImageB(error) => report_image(files, ("B", second), error, err),
        StartError::DoesNotFit => {
            report_size(files, alloc, arguments, ("A", first), err)?;
            report_size(files, alloc, arguments, ("B", second), err)
        }
        StartError::FlashSize => report_flash(files, arguments, err),
        StartError::Memory => Ok(()),
    }
}

/// Prints the file of an image that is not valid, and what it begins with, if that is known.
///
/// # Errors
///
/// Where the output fails.
fn report_image<F: KnownFiles, E: Write>(
    files: &F,
    image: (&str, &str),
    error: ImageError,
    err: &mut E,
) -> io::Result<()> {
    let (letter, path) = image;
    writeln!(err, "mcsim: image {letter} is {path}")?;
    report_head(files, path, error, err)
}

/// Prints the size of an image that does not fit, and how much fits.
///
/// # Errors
///
/// Where the output fails.
fn report_size<F: KnownFiles, E: Write>(
    files: &F,
    alloc: Global,
    arguments: &ArgMatches<'_>,
    image: (&str, &str),
    err: &mut E,
) -> io::Result<()> {
    let (letter, path) = image;
    if let Ok(layout) = layout_options(arguments)
        && let Ok(bytes) = read_file(files, alloc, path, GREATEST_IMAGE)
        && let Ok(image) = ImageView::read(bytes.as_slice())
    {
        let (size, most) = (image.size(), u64::from(layout.largest_image()));
        if size > most {
            return writeln!(err, "mcsim: image {letter} has {size} bytes; {most} fit");
        }
    }
    Ok(())
}

/// Prints the size of a flash, and how many bytes both slots have.
///
/// # Errors
///
/// Where the output fails.
fn report_flash<F: KnownFiles, E: Write>(
    files: &F,
    arguments: &ArgMatches<'_>,
    err: &mut E,
) -> io::Result<()> {
    if let Ok(layout) = layout_options(arguments)
        && let Some(path) = arguments.get_str("flash")
        && let Ok(found) = fs::metadata(files, path)
    {
        let both = u64::from(layout.size(Slot::Primary)) + u64::from(layout.size(Slot::Secondary));
        let size = found.len();
        return writeln!(
            err,
            "mcsim: {path} has {size} bytes; both slots have {both}"
        );
    }
    Ok(())
}
