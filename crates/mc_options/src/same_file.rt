//! Files that would be lost.
ghost use Rattle.std.specs.Prelude.{◌≡◌, false, is_some, true, IfErr, IfOk};
ghost use Rattle.clap.specs.Matches.{found_of};
ghost use Rattle.clap.specs.Words.{first_value};
ghost use Rattle.mc_options.specs.Arguments.{AreApart, IsKept, KeepsFiles};
ghost use Rattle.mc_options.specs.Refusals.{IsLost};

use crate::refusal::Refusal;
use clap::ArgMatches;
use mc_cli::KnownFiles;

/// Whether two options both name a file, and that is one file.
fn share_file<F: KnownFiles>(
    files: &F,
    arguments: &ArgMatches<'_>,
    first: &str,
    second: &str,
) -> bool
    ensures apart { result ≡ false → AreApart (found_of arguments.now) first.now second.now }
    ensures given { result ≡ true → is_some (first_value (found_of arguments.now) first.now)
        ≡ true }
{
    match (arguments.get_str(first), arguments.get_str(second)) {
        (Some(first), Some(second)) => files.is_same_file(first, second),
        _ => false,
    }
}

/// Whether the file that an option names is one of those that layouts are read from.
fn is_layout<F: KnownFiles>(files: &F, arguments: &ArgMatches<'_>, option: &str) -> bool
    ensures { result ≡ true → is_some (first_value (found_of arguments.now) option.now) ≡ true }
{
    match (arguments.get_str(option), arguments.get_strs("layout")) {
        (Some(path), Some(layouts)) => layouts.iter().any(|it| files.is_same_file(path, it)),
        _ => false,
    }
}

/// Whether the file that an option names to be written is an image, a script or a layout that is read.
fn is_lost<F: KnownFiles>(files: &F, arguments: &ArgMatches<'_>, option: &str) -> bool
    ensures kept { result ≡ false → IsKept (found_of arguments.now) option.now }
    ensures given { result ≡ true → is_some (first_value (found_of arguments.now) option.now)
        ≡ true }
{
    share_file(files, arguments, option, "image-a")
        || share_file(files, arguments, option, "image-b")
        || share_file(files, arguments, option, "image")
        || share_file(files, arguments, option, "SCRIPT")
        || is_layout(files, arguments, option)
}

/// Checks that no file which a command writes is another that it names: `--out` and `--at-cut` are two files, and neither is an image,
/// the script or the file of a layout; `--at-cut` is not the flash, but `--out` may be: then a boot happens in place.
///
/// # Errors
///
/// `SameFile`.
pub fn check_outputs<F: KnownFiles>(files: &F, arguments: &ArgMatches<'_>) -> Result<(), Refusal>
    // Of the paths by their texts. What they lead to is not known here.
    ensures kept { IfOk result (λ _. KeepsFiles (found_of arguments.now)) }
    ensures refused { IfErr result (IsLost (found_of arguments.now)) }
{
    if is_lost(files, arguments, "out")
        || is_lost(files, arguments, "at-cut")
        || share_file(files, arguments, "at-cut", "flash")
        || share_file(files, arguments, "at-cut", "out")
    {
        return Err(Refusal::SameFile);
    }
    Ok(())
}
