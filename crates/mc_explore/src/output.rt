//! Text, written whole and without memory.
ghost use Rattle.std.specs.Prelude.{◌≡◌, IfErr, OnOk, OnErr};
ghost use Rattle.std.specs.Io.KnownBytes.{Appends};
ghost use Rattle.mc_output.specs.Text.{AppendsPrefix};

use crate::error::ExploreError;
use mc_output::WriteFailed;
use std::io::Write;

/// Writes the whole text, or a prefix of it.
///
/// # Errors
///
/// `Write` where a write fails or takes no bytes.
#[inline(always)]
pub(crate) fn write_text<W: Write>(writer: &mut W, text: &[u8]) -> Result<(), ExploreError>
    ensures whole { OnOk result (Appends (W.contents writer.old) (W.contents writer.new) text.now) }
    ensures prefix { OnErr result (AppendsPrefix (W.contents writer.old) (W.contents writer.new)
        text.now) }
    ensures err { IfErr result (λ e. e ≡ ExploreError.Write) }
{
    match mc_output::write_text(writer, text) {
        Ok(()) => Ok(()),
        Err(WriteFailed) => Err(ExploreError::Write),
    }
}
