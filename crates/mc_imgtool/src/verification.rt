//! `verify`: is an input a valid image?
ghost use Rattle.std.specs.Prelude.{◌≡◌, ℕ, List, ◌+◌, ◌≤◌, ◌^◌, length, IfErr, OnOk, ◌≢◌};
ghost use Rattle.std.specs.Io.KnownBytes.{Appends, Consumes, IsAtEnd};
ghost use Rattle.mc_imgtool.specs.Engines.{Answers, Judges, RefusesAnImage};
ghost use Rattle.mc_output.specs.Text.{AppendsPrefix};
ghost use Rattle.mc_imgtool.specs.Lines.{good_text, verified};

use crate::ToolError;
use crate::input::GREATEST_INPUT;
use crate::output::write_text;
use mc_image::{Judge, Judged};
use mc_output::Line;
use std::io::{Read, Write};

/// The line for a valid image.
#[tactic(auto, unfolding(crate::specs::Lines::good_text))]
fn good_line(judged: &Judged) -> Line
    ensures { result ≡ good_text judged.now }
{
    let mut line = Line::new();
    line.put("good ");
    judged.version.put_into(&mut line);
    line.put(" ");
    line.put_long_number(judged.size);
    line.put(" ");
    line.put_hex(&judged.digest);
    line.put("\n");
    line
}

/// Writes the line for a valid image.
///
/// # Errors
///
/// `Write` where a write fails or takes no bytes.
fn write_good<W: Write>(output: &mut W, judged: &Judged) -> Result<(), ToolError>
    ensures whole { OnOk result
        (Appends (W.contents output.old) (W.contents output.new) (good_text judged.now)) }
    ensures prefix { IfErr result (λ e. (e ≡ ToolError.Write)
        × AppendsPrefix (W.contents output.old) (W.contents output.new) (good_text judged.now)) }
{
    let line = good_line(judged);
    write_text(output, line.as_str().as_bytes())
}

/// Judges the whole input, if it is not too long. It takes at most one byte more than the longest.
///
/// # Errors
///
/// `InputTooLong` for a longer input, `Read` where a read fails, both before what is wrong with the image.
fn judge_input<R: Read>(input: &mut R) -> Result<Judged, ToolError>
    ensures judged { Judges (R.remaining input.old) (2 ^ 24) result }
    ensures end { OnOk result (IsAtEnd (R.remaining input.new)) }
    ensures taken { (bs : List ℕ) × Consumes (R.remaining input.old) (R.remaining input.new) bs
        × (length bs ≤ 2 ^ 24 + 1) }
{
    let most = GREATEST_INPUT as usize + 1;
    let mut judge = Judge::new();
    let mut taken = 0;
    let mut buffer = [0u8; 4096];
    while taken < most {
        let room = (most - taken).min(buffer.len());
        let Ok(count) = input.read(&mut buffer[..room]) else {
            return Err(ToolError::Read);
        };
        if count == 0 {
            return judge.finish().map_err(ToolError::Image);
        }
        judge.feed(&buffer[..count]);
        taken += count;
    }
    Err(ToolError::InputTooLong)
}

/// Reads an image, which other bytes may follow, and writes one line: `good`, its version, its size in bytes and its
/// digest (imgtool, `verify`). It takes no memory, and reads all of the input.
/// Promised: the good line; or 23, a fault, or 12, and nothing written; never 26 (`answer`, `memory`).
/// Promised, also of `dumpinfo`: never 20, 21 or 22, whatever the reader (`never`).
///
/// # Errors
///
/// `Read` where a read fails; `InputTooLong` above 2^24 bytes; `Image` with the first fault, a wrong digest last.
/// Nothing is written then. `Write` where a write fails or takes no bytes: a prefix of the line is out.
pub fn verify<R: Read, W: Write>(input: &mut R, output: &mut W) -> Result<(), ToolError>
    ensures answer { Answers verified (R.remaining input.old) (W.contents output.old)
        (W.contents output.new) result }
    // Whatever is known of the reader.
    ensures never { IfErr result RefusesAnImage }
    // No allocation can fail.
    ensures memory { IfErr result (λ e. e ≢ ToolError.Memory) }
    ensures end { OnOk result (IsAtEnd (R.remaining input.new)) }
    ensures taken { (bs : List ℕ) × Consumes (R.remaining input.old) (R.remaining input.new) bs
        × (length bs ≤ 2 ^ 24 + 1) }
{
    let judged = judge_input(input)?;
    write_good(output, &judged)
}
