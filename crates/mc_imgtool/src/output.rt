//! Output, written whole.
ghost use Rattle.std.specs.Prelude.{◌≡◌, IfErr, OnOk};
ghost use Rattle.std.specs.Io.KnownBytes.{Appends};
ghost use Rattle.mc_output.specs.Text.{AppendsPrefix};

use crate::ToolError;
use mc_output::WriteFailed;
use std::io::Write;

/// Writes the whole text, or a prefix of it.
///
/// # Errors
///
/// `Write` where a write fails or takes no bytes.
pub(crate) fn write_text<W: Write>(output: &mut W, text: &[u8]) -> Result<(), ToolError>
    ensures whole { OnOk result (Appends (W.contents output.old) (W.contents output.new) text.now) }
    ensures prefix { IfErr result
        (λ e. (e ≡ ToolError.Write)
        × AppendsPrefix (W.contents output.old) (W.contents output.new) text.now) }
{
    match mc_output::write_text(output, text) {
        Ok(()) => Ok(()),
        Err(WriteFailed) => Err(ToolError::Write),
    }
}
