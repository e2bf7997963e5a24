//! INFILE, where it may be left out.
ghost use Rattle.std.specs.Io.KnownBytes.{Keeps};
ghost use Rattle.std.specs.Prelude.{◌≡◌, IfErr, IfOk, None};
ghost use Rattle.clap.specs.Matches.{found_of};
ghost use Rattle.mc_actions.specs.Images.{GivesInfile};

use clap::ArgMatches;
use mc_cli::KnownFiles;
use mc_options::Refusal;

/// The path of INFILE, or none where it is left out or `-`.
pub fn infile_named<'p>(arguments: &ArgMatches<'p>) -> Option<&'p str>
    ensures { GivesInfile (found_of arguments.now) result }
{
    match arguments.get_str("INFILE") {
        None | Some("-") => None,
        infile => infile,
    }
}

/// Opens INFILE.
///
/// # Errors
///
/// `Open` where it cannot be opened.
pub fn open_infile<F: KnownFiles>(files: &F, path: &str) -> Result<F::File, Refusal>
    ensures left { IfOk result (λ file. Keeps (F.holds files.now path.now)
        (F.File.remaining file)) }
    ensures refused { IfErr result (λ e. (e ≡ Refusal.Open)
        × (F.holds files.now path.now ≡ None)) }
{
    match files.open_to_read(path) {
        Ok(file) => Ok(file),
        Err(_) => Err(Refusal::Open),
    }
}
