//! The flashes that losses of power leave, as text.
ghost use Rattle.std.specs.Prelude.{◌≡◌, ◌≤◌, ◌++◌, length, OnErr, OnOk};
ghost use Rattle.std.specs.Io.KnownBytes.{Appends};
ghost use Rattle.mc_output.specs.Text.{AppendsPrefix};
ghost use Rattle.mc_tears.specs.Losses.{digest_text, loss_text, losses_text, lost_text, table_text};

use crate::loss::Loss;
use crate::losses::LostCase;
use mc_output::{Line, WriteFailed, write_line, write_text};
use mc_vectors::{NAMES, ended_line};
use std::io::Write;

// A loss, behind what separates it from the one before it.
fn loss_line(separator: &str, loss: &Loss) -> Line
    requires { length separator.now ≤ 1 }
    ensures { result ≡ separator.now ++ loss_text loss.now }
{
    let mut line = Line::new();
    line.put(separator);
    line.put_number(loss.operation);
    if let Some(reading) = &loss.within {
        line.put("~");
        reading.put_into(&mut line);
    }
    line
}

// Writes losses, or that there is none.
fn write_losses<W: Write>(losses: &[Loss], writer: &mut W) -> Result<(), WriteFailed>
    ensures whole { OnOk result (Appends (W.contents writer.old) (W.contents writer.new)
        (losses_text losses.now)) }
    ensures prefix { OnErr result (AppendsPrefix (W.contents writer.old) (W.contents writer.new)
        (losses_text losses.now)) }
{
    let Some((first, more)) = losses.split_first() else {
        return write_text(writer, b"-");
    };
    write_line(writer, &loss_line("", first))?;
    for loss in more {
        write_line(writer, &loss_line(".", loss))?;
    }
    Ok(())
}

impl LostCase {
    // The digest of its flash, with a tab before and after it.
    fn digest_line(&self) -> Line
        ensures { result ≡ digest_text self.now }
    {
        let mut line = Line::new();
        line.put("\t");
        line.put_hex(&self.digest);
        line.put("\t");
        line
    }

    // Writes its line.
    fn write<W: Write>(&self, writer: &mut W) -> Result<(), WriteFailed>
        ensures whole { OnOk result (Appends (W.contents writer.old) (W.contents writer.new)
            (lost_text self.now)) }
        ensures prefix { OnErr result (AppendsPrefix (W.contents writer.old) (W.contents writer.new)
            (lost_text self.now)) }
    {
        write_losses(&self.losses, writer)?;
        write_line(writer, &self.digest_line())?;
        write_line(writer, &ended_line(&self.outcome, &self.left))
    }
}

/// Writes the cases as a table, which is that of `mc_vectors` but for its first field: the losses, a point between them, and behind an operation
/// within which power is lost a `~` and what is read of it. It takes no memory.
///
/// # Errors
///
/// `WriteFailed` where a write fails or takes no bytes: a beginning of the table is out.
pub fn write_lost<W: Write>(cases: &[LostCase], writer: &mut W) -> Result<(), WriteFailed>
    ensures whole { OnOk result (Appends (W.contents writer.old) (W.contents writer.new)
        (table_text cases.now)) }
    ensures prefix { OnErr result (AppendsPrefix (W.contents writer.old) (W.contents writer.new)
        (table_text cases.now)) }
{
    write_text(writer, NAMES.as_bytes())?;
    for case in cases {
        case.write(writer)?;
    }
    Ok(())
}
