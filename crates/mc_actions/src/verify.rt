//! `verify`: is a file a valid image?
ghost use Rattle.mc_actions.specs.Images.{AnswersInfile};
ghost use Rattle.mc_imgtool.specs.Lines.{verified};

use crate::infile::open_infile;
use mc_cli::KnownFiles;
use mc_options::Refusal;
use std::io::{Read, Write};

/// Prints the line for the valid image of INFILE, or of standard input where no file is named.
///
/// # Errors
///
/// `Open` where INFILE cannot be opened, and what the image tool refuses.
pub fn answer<F: KnownFiles, R: Read, O: Write>(
    files: &F,
    infile: Option<&str>,
    input: &mut R,
    out: &mut O,
) -> Result<(), Refusal>
    ensures { AnswersInfile verified (F.holds files.now) infile.entry (R.remaining input.old)
        (O.contents out.old)
        (O.contents out.new) result }
{
    match infile {
        Some(path) => {
            let mut file = open_infile(files, path)?;
            mc_imgtool::verify(&mut file, out).map_err(Refusal::Tool)
        }
        None => mc_imgtool::verify(input, out).map_err(Refusal::Tool),
    }
}
