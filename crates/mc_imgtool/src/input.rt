//! Input, read whole.
ghost use Rattle.std.specs.Prelude.{◌≡◌, ℕ, List, ◌+◌, ◌≤◌, length, IfOk, IfErr, IfSome, OnOk};
ghost use Rattle.std.specs.Io.KnownBytes.{Consumes, IsAtEnd};
ghost use Rattle.mc_imgtool.specs.Engines.{RefusesReading, RefusesLonger};

use crate::ToolError;
use std::alloc::Global;
use std::io::Read;

/// The largest input of an engine, in bytes.
pub(crate) const GREATEST_INPUT: u32 = 1 << 24;

/// The whole input, if it has at most `limit` bytes. It takes at most one byte more than the limit.
/// Promised: input whole, or refused exactly where too long (`whole`, `refused`, `longer`, `taken`).
///
/// # Errors
///
/// `InputTooLong` for a longer input, `Read` where a read fails, `Memory` where the bytes find no room.
pub fn read_bounded<R: Read>(alloc: Global, input: &mut R, limit: u32) -> Result<Vec<u8>, ToolError>
    ensures whole { IfOk result
        (λ v. (length v.items ≤ limit) × IfSome (R.remaining input.old) (λ xs. v.items ≡ xs)) }
    ensures end { OnOk result (IsAtEnd (R.remaining input.new)) }
    ensures refused { IfErr result (λ e. RefusesReading (R.remaining input.old) limit e) }
    ensures longer { RefusesLonger (R.remaining input.old) limit result }
    ensures taken { (bs : List ℕ) × Consumes (R.remaining input.old) (R.remaining input.new) bs
        × (length bs ≤ limit + 1) }
{
    let most = limit as usize + 1;
    let mut bytes = Vec::new(alloc);
    let mut buffer = [0u8; 4096];
    while bytes.len() < most {
        let room = (most - bytes.len()).min(buffer.len());
        let Ok(count) = input.read(&mut buffer[..room]) else {
            return Err(ToolError::Read);
        };
        if count == 0 {
            return Ok(bytes);
        }
        if bytes.extend_from_slice(&buffer[..count]).is_err() {
            return Err(ToolError::Memory);
        }
    }
    Err(ToolError::InputTooLong)
}
