//! A page that goes out in blocks.
ghost use Rattle.std.specs.Prelude.{IfOk};
ghost use Rattle.std.specs.Io.Buffered.{writer_contents};
ghost use Rattle.std.specs.Io.KnownBytes.{Keeps};

use mc_explore::ExploreError;
use mc_output::WriteFailed;
use std::alloc::Global;
use std::io::{BufWriter, Write};

/// Hands on what a buffer still holds.
///
/// # Errors
///
/// `WriteFailed`.
pub fn flush<O: Write>(out: &mut O) -> Result<(), WriteFailed>
    ensures { Keeps (O.contents out.old) (O.contents out.new) }
{
    out.flush().map_err(|_| WriteFailed)
}

/// How many bytes of a page go out at once.
const PAGE_BUFFER: usize = 65_536;

/// What is written to this goes out in blocks. What is left of them at the end goes out by `finish`.
///
/// # Errors
///
/// `Memory`.
pub fn in_blocks<O: Write + Drop>(alloc: Global, out: O) -> Result<BufWriter<O>, ExploreError>
    ensures { IfOk result (λ blocks. Keeps (O.contents out) (writer_contents O.contents blocks)) }
{
    BufWriter::with_capacity(alloc, PAGE_BUFFER, out).map_err(|_| ExploreError::Memory)
}

/// Writes the last block, and gives back the writer that has all blocks.
///
/// # Errors
///
/// `WriteFailed`.
pub fn finish<O: Write + Drop>(blocks: BufWriter<O>) -> Result<O, WriteFailed>
    ensures { IfOk result (λ out. Keeps (writer_contents O.contents blocks) (O.contents out)) }
{
    let mut out = blocks.into_inner().map_err(|_| WriteFailed)?;
    out.flush().map_err(|_| WriteFailed)?;
    Ok(out)
}
