//! What is odd in a command line that is not refused.
use crate::heads::is_hex_file;
use crate::options::layout_options;
use clap::ArgMatches;
use mc_boot::swap_operations;
use mc_flash::Grain;
use std::io;
use std::io::Write;
use std::rt::Files;

/// Prints what is odd in what a command was given, if something is: a payload that looks like text in Intel's hexadecimal form, or a
/// trailer with room for fewer sectors than a slot has.
///
/// # Errors
///
/// Where the output fails.
pub fn print_note<F: Files, E: Write>(
    files: &F,
    name: &str,
    arguments: &ArgMatches<'_>,
    err: &mut E,
) -> io::Result<()> {
    match name {
        "create" if is_hex_file(files, arguments.get_str("INFILE").unwrap_or("-")) => writeln!(
            err,
            "mcsim: note: INFILE looks like Intel HEX, and create takes a binary (objcopy -O binary)"
        ),
        _ => note_sectors(arguments, err),
    }
}

/// The most operations of a swap with which `locate` by write units takes a moment.
const SOME_OPERATIONS: u32 = 20_000;

/// The most operations of a swap with which a census of two rounds takes a moment.
const MANY_OPERATIONS: u32 = 1_000_000;

/// How many operations a swap has at most, by the layout and the grain that the words give, if they give them.
fn operations_of(arguments: &ArgMatches<'_>) -> Option<u32> {
    let layout = layout_options(arguments).ok()?;
    let grain = Grain::read(arguments.get_str("grain")?)?;
    Some(swap_operations(&layout, grain))
}

/// Prints, before a command begins, that it takes long, if it does: to locate a dump between the write units of a large swap, or to count all
/// campaigns of two very large ones.
///
/// # Errors
///
/// Where the output fails.
pub fn print_cost<E: Write>(name: &str, arguments: &ArgMatches<'_>, err: &mut E) -> io::Result<()> {
    let (grain, rounds) = match name {
        "locate" => (arguments.get_str("grain"), None),
        "census" => (None, arguments.get_str("rounds")),
        _ => return Ok(()),
    };
    match (operations_of(arguments), grain, rounds) {
        (Some(count), Some("unit"), _) if count > SOME_OPERATIONS => writeln!(
            err,
            "mcsim: note: by --grain unit the flash before each of up to {count} operations of three swaps is looked at, which takes minutes; --grain call tells at once between which calls the dump lies"
        ),
        (Some(count), _, Some("2")) if count > MANY_OPERATIONS => writeln!(
            err,
            "mcsim: note: a swap has up to {count} operations, and two rounds take about a second for each million"
        ),
        _ => Ok(()),
    }
}

/// Prints that the trailer has room for fewer sectors than a slot has, if that is so.
///
/// # Errors
///
/// Where the output fails.
fn note_sectors<E: Write>(arguments: &ArgMatches<'_>, err: &mut E) -> io::Result<()> {
    if let Ok(layout) = layout_options(arguments) {
        let (most, primary) = (layout.max_sectors(), layout.primary());
        if most < primary {
            return writeln!(
                err,
                "mcsim: note: --max-sectors {most} is less than --primary {primary}, so that MCUboot refuses to swap"
            );
        }
    }
    Ok(())
}
