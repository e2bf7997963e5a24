//! `dumpinfo`: what is in an image?
ghost use Rattle.mc_actions.specs.Images.{AnswersInfile, AnswersInput};
ghost use Rattle.mc_imgtool.specs.Lines.{dumped};

use crate::infile::open_infile;
use mc_cli::KnownFiles;
use mc_image::{ImageView, Tlvs};
use mc_imgtool::{dumpinfo, read_bounded};
use mc_options::{GREATEST_IMAGE, Refusal, entry_name};
use std::alloc::Global;
use std::io;
use std::io::{Read, Write};

/// Prints the report of the image of INFILE, or of standard input where no file is named. With `named` the usual names of its entries
/// follow on `err`.
///
/// # Errors
///
/// `Open` where INFILE cannot be opened, and what the image tool refuses.
pub fn answer<F: KnownFiles, R: Read, O: Write, E: Write>(
    files: &F,
    alloc: Global,
    infile: Option<&str>,
    named: bool,
    input: &mut R,
    out: &mut O,
    err: &mut E,
) -> Result<(), Refusal>
    ensures { AnswersInfile dumped (F.holds files.now) infile.entry (R.remaining input.old)
        (O.contents out.old) (O.contents out.new) result }
{
    let Some(path) = infile else {
        return report(alloc, named, input, out, err);
    };
    let mut file = open_infile(files, path)?;
    report(alloc, named, &mut file, out, err)
}

/// Prints the report of an image, and with `named` the usual names of its entries.
///
/// # Errors
///
/// What the image tool refuses.
fn report<R: Read, O: Write, E: Write>(
    alloc: Global,
    named: bool,
    input: &mut R,
    out: &mut O,
    err: &mut E,
) -> Result<(), Refusal>
    ensures { AnswersInput dumped (R.remaining input.old) (O.contents out.old) (O.contents out.new)
        result }
{
    if named {
        return report_named(alloc, input, out, err);
    }
    dumpinfo(alloc, input, out).map_err(Refusal::Tool)
}

/// Prints the report of an image, and the usual names of its entries.
///
/// # Errors
///
/// What the image tool refuses.
fn report_named<R: Read, O: Write, E: Write>(
    alloc: Global,
    input: &mut R,
    out: &mut O,
    err: &mut E,
) -> Result<(), Refusal>
    ensures { AnswersInput dumped (R.remaining input.old) (O.contents out.old) (O.contents out.new)
        result }
{
    let bytes = read_bounded(alloc, input, GREATEST_IMAGE)?;
    let reported = dumpinfo(alloc, &mut bytes.as_slice(), out).map_err(Refusal::Tool);
    if reported.is_ok()
        && let Ok(image) = ImageView::read(bytes.as_slice())
    {
        // Names that cannot be written change nothing.
        let _ = print_names(image.tlvs(), err);
    }
    reported
}

/// Prints the usual name of each entry that has one.
///
/// # Errors
///
/// Where the output fails.
fn print_names<E: Write>(entries: Tlvs<'_>, err: &mut E) -> io::Result<()> {
    for entry in entries {
        if let Some(name) = entry_name(entry.kind) {
            writeln!(err, "mcsim: entry {:#06x} is {name}", entry.kind)?;
        }
    }
    Ok(())
}
