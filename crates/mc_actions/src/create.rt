//! `create`: an image from a payload.
ghost use Rattle.std.specs.Prelude.{List, Option, ℕ};
ghost use Rattle.mc_actions.specs.Images.{AnswersCreate, MakesImage, WritesInput};
ghost use Rattle.mc_imgtool.specs.Created.{created};
ghost use Rattle.mc_options.specs.Arguments.{IsReady};

use crate::creation::Creation;
use crate::infile::open_infile;
use mc_cli::{KnownFiles, WatchedFiles};
use mc_options::{Outfile, Refusal};
use std::alloc::Global;
use std::io::{Read, Write};
use std::rt::Files;

/// What stands for standard input and output.
const STANDARD: &str = "-";

/// Makes the image of INFILE's payload in OUTFILE, either of which may be `-`. INFILE is open before OUTFILE is made, or emptied. With `--keep`
/// OUTFILE is as it was until the image is whole.
///
/// # Errors
///
/// `SameFile` where OUTFILE is INFILE, by whatever path; `Open` where one of the files cannot be opened or made; what the image tool
/// refuses.
pub fn answer<F: KnownFiles, R: Read, O: Write>(
    files: &WatchedFiles<'_, F>,
    alloc: Global,
    creation: &Creation<'_>,
    input: &mut R,
    out: &mut O,
) -> Result<(), Refusal>
    requires { IsReady creation.now.options }
    ensures { AnswersCreate creation.now (F.holds files.now.files.now) (R.remaining input.old)
        (O.contents out.old)
        (O.contents out.new) result }
{
    let infile = creation.infile();
    if infile == STANDARD {
        return make_from(files, alloc, creation, input, out);
    }
    if files.is_same_file(infile, creation.outfile()) {
        return Err(Refusal::SameFile);
    }
    let mut file = open_infile(files, infile)?;
    make_from(files, alloc, creation, &mut file, out)
}

/// Makes the image of what is read.
///
/// # Errors
///
/// `Open` where OUTFILE cannot be made; what the image tool refuses.
fn make_from<F: Files, R: Read, O: Write>(
    files: &WatchedFiles<'_, F>,
    alloc: Global,
    creation: &Creation<'_>,
    input: &mut R,
    out: &mut O,
) -> Result<(), Refusal>
    requires { IsReady creation.now.options }
    ensures { MakesImage creation.now (R.remaining input.old) (O.contents out.old)
        (O.contents out.new) result }
{
    if creation.outfile() == STANDARD {
        return creation.make(alloc, input, out).map_err(Refusal::Tool);
    }
    make_file(files, alloc, creation, input)
}

/// Makes the image of what is read in its file.
///
/// # Errors
///
/// Those of `make_from`.
fn make_file<F: Files, R: Read>(
    files: &WatchedFiles<'_, F>,
    alloc: Global,
    creation: &Creation<'_>,
    input: &mut R,
) -> Result<(), Refusal>
    requires { IsReady creation.now.options }
    ensures { (printed : Option (List ℕ)) → WritesInput (created creation.now.options)
        (R.remaining input.old) printed printed result }
{
    let mut output = if creation.keeps() {
        Outfile::beside(files, alloc, creation.outfile())?
    } else {
        Outfile::in_place(files, creation.outfile())?
    };
    let made = creation.make(alloc, input, &mut output.file);
    output.end(made.map_err(Refusal::Tool))
}
