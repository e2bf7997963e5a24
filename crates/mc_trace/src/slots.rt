//! A flash as bytes.
ghost use Rattle.std.specs.Prelude.{◌≡◌, IfErr, OnErr, OnOk};
ghost use Rattle.std.specs.Io.KnownBytes.{Appends};
ghost use Rattle.mc_output.specs.Text.{AppendsPrefix};
ghost use Rattle.mc_trace.specs.Sectors.{slots_bytes};

use crate::error::TraceError;
use mc_flash::{Flash, Slot};
use mc_output::write_text;
use std::io::Write;

/// Writes the bytes of both slots of a flash, the primary's first. It takes no memory.
/// Promised: a flash's bytes (`whole`, `prefix`, `err`).
///
/// # Errors
///
/// `Write`, where a write fails or takes no bytes: a beginning of the bytes is out.
pub fn write_slots<F: Flash, W: Write>(flash: &F, writer: &mut W) -> Result<(), TraceError>
    ensures whole { OnOk result (Appends (W.contents writer.old) (W.contents writer.new)
        (slots_bytes (F.seen flash.now).content)) }
    ensures prefix { OnErr result (AppendsPrefix (W.contents writer.old) (W.contents writer.new)
        (slots_bytes (F.seen flash.now).content)) }
    ensures err { IfErr result (λ e. e ≡ TraceError.Write) }
{
    write_text(writer, flash.read(Slot::Primary))?;
    write_text(writer, flash.read(Slot::Secondary))?;
    Ok(())
}
