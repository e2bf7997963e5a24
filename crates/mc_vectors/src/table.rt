//! Cases as text.
ghost use Rattle.std.specs.Prelude.{◌≡◌, ◌+◌, ◌≤◌, ◌++◌, length, OnErr, OnOk, option_map};
ghost use Rattle.std.specs.Io.KnownBytes.{Appends};
ghost use Rattle.mc_boot.specs.Plan.{identity_of};
ghost use Rattle.mc_boot.specs.Outcome.{shown, slot_text};
ghost use Rattle.mc_output.specs.Text.{AppendsPrefix};
ghost use Rattle.mc_vectors.specs.Table.{boot_text, case_text, cases_text, ended_text, field, named_text, slots_text};

use crate::case::Case;
use mc_boot::{ImageId, Outcome};
use mc_output::{Line, MOST_LINE, WriteFailed, write_line, write_text};
use std::io::Write;

/// The names of the fields of a table.
pub const NAMES: &str = "schedule\tflash\tresult\ttype\tops\tprimary\tsecondary\tnext\tleft\n";

// Adds a word and a tab.
fn put_word(line: &mut Line, word: &str)
    requires { length line.old + length word.now + 1 ≤ MOST_LINE }
    ensures text { line.new ≡ line.old ++ field word.now }
    ensures length { length line.new ≤ length line.old + length word.now + 1 }
{
    line.put(word);
    line.put("\t");
}

// Adds what a slot holds, or `none`, and a tab: at most 120 bytes.
fn put_slot(line: &mut Line, held: &Option<ImageId>)
    requires { length line.old + 120 ≤ MOST_LINE }
    ensures text { line.new ≡ line.old ++ field (slot_text (option_map identity_of held.now)) }
    ensures length { length line.new ≤ length line.old + 120 }
{
    match held {
        None => line.put("none"),
        Some(image) => image.put_into(line),
    }
    line.put("\t");
}

// Adds what a boot does: at most 24 bytes.
fn put_boot(line: &mut Line, outcome: &Outcome)
    requires { length line.old + 24 ≤ MOST_LINE }
    ensures text { line.new ≡ line.old ++ boot_text (shown outcome.now) }
    ensures length { length line.new ≤ length line.old + 24 }
{
    put_word(line, outcome.result.name());
    put_word(line, outcome.kind.name());
    line.put_number(outcome.ops);
    line.put("\t");
}

// Adds what the slots hold then, and the next type: at most 247 bytes.
fn put_slots(line: &mut Line, outcome: &Outcome)
    requires { length line.old + 247 ≤ MOST_LINE }
    ensures text { line.new ≡ line.old ++ slots_text (shown outcome.now) }
    ensures length { length line.new ≤ length line.old + 247 }
{
    put_slot(line, &outcome.primary);
    put_slot(line, &outcome.secondary);
    put_word(line, outcome.next.name());
}

// The beginning of a case's line: what names it.
fn named_line(case: &Case) -> Line
    ensures { result ≡ named_text case.now }
{
    let mut line = Line::new();
    case.schedule.put_into(&mut line);
    line.put("\t");
    line.put_hex(&case.digest);
    line.put("\t");
    line
}

/// The rest of a line, behind the digest of the flash: what the boot from there does and leaves.
pub fn ended_line(outcome: &Outcome, left: &[u8; 32]) -> Line
    ensures { result ≡ ended_text (shown outcome.now) left.now }
{
    let mut line = Line::new();
    put_boot(&mut line, outcome);
    put_slots(&mut line, outcome);
    line.put_hex(left);
    line.put("\n");
    line
}

impl Case {
    // Writes its line.
    fn write<W: Write>(&self, writer: &mut W) -> Result<(), WriteFailed>
        ensures whole { OnOk result (Appends (W.contents writer.old) (W.contents writer.new)
            (case_text self.now)) }
        ensures prefix { OnErr result (AppendsPrefix (W.contents writer.old) (W.contents writer.new)
            (case_text self.now)) }
    {
        write_line(writer, &named_line(self))?;
        write_line(writer, &ended_line(&self.outcome, &self.left))
    }
}

/// Writes the cases as a table: a line of names, and then one for each, with tabs between: the schedule, the digest of the flash, the
/// result and the type of the boot from there, how many operations it makes, the images that it leaves in the primary and in the
/// secondary, or `none`, the next type, and the digest of the flash that it leaves. It takes no memory.
/// Promised, also of `write_located`: the texts of cases, and of what is nearest (`whole`, `prefix`).
///
/// # Errors
///
/// `WriteFailed` where a write fails or takes no bytes: a beginning of the table is out.
pub fn write_cases<W: Write>(cases: &[Case], writer: &mut W) -> Result<(), WriteFailed>
    ensures whole { OnOk result (Appends (W.contents writer.old) (W.contents writer.new)
        (cases_text cases.now)) }
    ensures prefix { OnErr result (AppendsPrefix (W.contents writer.old) (W.contents writer.new)
        (cases_text cases.now)) }
{
    write_text(writer, NAMES.as_bytes())?;
    for case in cases {
        case.write(writer)?;
    }
    Ok(())
}
