//! The flash that a command starts from, read from its files.
ghost use Rattle.std.specs.Prelude.{IfErr, IfOk};
ghost use Rattle.mc_options.specs.Sources.{FailsSource, IsStartOf, Reads, RefusesFile};

use crate::options::{FlashOptions, Source};
use crate::refusal::Refusal;
use mc_cli::KnownFiles;
use mc_explore::Start;
use mc_imgtool::read_bounded;
use std::alloc::Global;

/// The most bytes of a file of an image: as many as a slot may have.
pub const GREATEST_IMAGE: u32 = 1 << 24;

/// The most bytes of a file of a flash: as many as two slots may have.
pub const GREATEST_FLASH: u32 = 1 << 25;

/// All bytes of a file.
/// Promised: what a file holds, at most so many bytes (`bytes`, `refused`, `Reads`, `RefusesFile`).
///
/// # Errors
///
/// `Open` where it cannot be opened; `Tool` with `InputTooLong` where it is longer than the limit, `Read`, or `Memory`.
pub fn read_file<F: KnownFiles>(
    files: &F,
    alloc: Global,
    path: &str,
    limit: u32,
) -> Result<Vec<u8>, Refusal>
    ensures bytes { IfOk result (λ bytes. Reads (F.holds files.now path.now) limit bytes.items) }
    ensures refused { IfErr result (RefusesFile (F.holds files.now path.now) limit) }
{
    let Ok(mut file) = files.open_to_read(path) else {
        return Err(Refusal::Open);
    };
    match read_bounded(alloc, &mut file, limit) {
        Ok(bytes) => Ok(bytes),
        Err(error) => Err(Refusal::Tool(error)),
    }
}

/// The start of a source, under the rules that are given. The first image is read before the second is opened.
/// Promised: the start of what files hold, the first image's before the second's (`given`, `refused`, `OfSource`).
///
/// # Errors
///
/// What `read_file` refuses of a file, then `Start` with what is refused of the bytes.
pub fn read_start<F: KnownFiles>(
    files: &F,
    alloc: Global,
    options: &FlashOptions<'_>,
) -> Result<Start, Refusal>
    // It is of the layout, the kind, the rules and the paths that are given.
    ensures given { IfOk result (IsStartOf (F.holds files.now) options.now) }
    ensures refused { IfErr result (FailsSource (F.holds files.now) options.now.layout
        options.now.source) }
{
    let layout = &options.layout;
    match &options.source {
        Source::Flash(path) => {
            let bytes = read_file(files, alloc, path, GREATEST_FLASH)?;
            let start = Start::from_flash(alloc, layout, bytes.as_slice())?;
            Ok(start.with_rules(options.rules))
        }
        Source::Images { kind, a, b } => {
            let first = read_file(files, alloc, a, GREATEST_IMAGE)?;
            let second = read_file(files, alloc, b, GREATEST_IMAGE)?;
            let (a, b) = (first.as_slice(), second.as_slice());
            let start = Start::from_images(alloc, layout, *kind, a, b)?;
            Ok(start.with_rules(options.rules))
        }
    }
}
