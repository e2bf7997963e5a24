//! A text written whole, or a beginning of it, without memory.
#![tactic(auto)]

ghost use Rattle.std.specs.Prelude.{OnErr, OnOk};
ghost use Rattle.std.specs.Io.KnownBytes.{Appends};
ghost use Rattle.mc_output.specs.Text.{AppendsPrefix};

mod line;

pub use line::{Line, MOST_LINE};
use std::io::Write;

/// A write failed or took no bytes.
#[derive(Clone, Copy, Debug, PartialEq, Eq)]
pub struct WriteFailed;

/// Writes the whole text, or a beginning of it.
///
/// # Errors
///
/// `WriteFailed` where a write fails or takes no bytes.
#[inline(always)]
pub fn write_text<W: Write>(writer: &mut W, text: &[u8]) -> Result<(), WriteFailed>
    ensures whole { OnOk result (Appends (W.contents writer.old) (W.contents writer.new) text.now) }
    ensures prefix { OnErr result
        (AppendsPrefix (W.contents writer.old) (W.contents writer.new) text.now) }
{
    let mut done = 0;
    while done < text.len() {
        match writer.write(&text[done..]) {
            Ok(0) | Err(_) => return Err(WriteFailed),
            Ok(count) => done += count,
        }
    }
    Ok(())
}

/// Writes the whole line, or a beginning of it.
///
/// # Errors
///
/// `WriteFailed` where a write fails or takes no bytes.
pub fn write_line<W: Write>(writer: &mut W, line: &Line) -> Result<(), WriteFailed>
    ensures whole { OnOk result (Appends (W.contents writer.old) (W.contents writer.new) line.now) }
    ensures prefix { OnErr result
        (AppendsPrefix (W.contents writer.old) (W.contents writer.new) line.now) }
{
    write_text(writer, line.as_str().as_bytes())
}
