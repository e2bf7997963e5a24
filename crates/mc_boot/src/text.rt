//! Outcomes as text.
ghost use Rattle.std.specs.Prelude.{◌≡◌, ◌+◌, ◌≤◌, ◌++◌, length, Some, option_map};
ghost use Rattle.mc_boot.specs.Plan.{identity_of};
ghost use Rattle.mc_boot.specs.Outcome.{shown, result_text, identity_text, slot_text, happened_text, left_text, outcome_text};

use crate::image::ImageId;
use crate::outcome::{BootResult, Outcome};
use mc_output::{Line, MOST_LINE};
use std::fmt;

impl BootResult {
    /// Its name in one word.
    pub fn name(self) -> &'static str
        ensures text { result.now ≡ result_text self }
        ensures at_most { length result.now ≤ 5 }
    {
        match self {
            BootResult::Boot => "boot",
            BootResult::None => "none",
            BootResult::Panic => "panic",
            BootResult::Fault => "fault",
        }
    }
}

impl fmt::Display for BootResult {
    ghost output = { λ result. Some (result_text result) };

    fn fmt<W: fmt::Write>(&self, f: &mut fmt::Formatter<W>) -> fmt::Result {
        f.write_str(self.name())
    }
}

impl ImageId {
    /// Adds the version, the size and the digest in hexadecimal digits to a line, with one space between: at most 119 bytes.
    pub fn put_into(&self, line: &mut Line)
        requires { length line.old + 119 ≤ MOST_LINE }
        ensures text { line.new ≡ line.old ++ identity_text (identity_of self.now) }
        ensures length { length line.new ≤ length line.old + 119 }
    {
        self.version.put_into(line);
        line.put(" ");
        line.put_number(self.size);
        line.put(" ");
        line.put_hex(&self.digest);
    }
}

/// The version, the size and the digest in hexadecimal digits, with one space between.
impl fmt::Display for ImageId {
    ghost output = { λ id. Some (identity_text (identity_of id)) };

    fn fmt<W: fmt::Write>(&self, f: &mut fmt::Formatter<W>) -> fmt::Result {
        let mut line = Line::new();
        self.put_into(&mut line);
        f.write_str(line.as_str())
    }
}

// Adds what a slot holds, or `none`: at most 119 bytes.
fn put_slot(line: &mut Line, held: &Option<ImageId>)
    requires { length line.old + 119 ≤ MOST_LINE }
    ensures text { line.new ≡ line.old ++ slot_text (option_map identity_of held.now) }
    ensures length { length line.new ≤ length line.old + 119 }
{
    match held {
        None => line.put("none"),
        Some(image) => image.put_into(line),
    }
}

impl Outcome {
    // Adds the lines of the result, the type and the operations: at most 40 bytes.
    fn put_happened(&self, line: &mut Line)
        requires { length line.old + 40 ≤ MOST_LINE }
        ensures text { line.new ≡ line.old ++ happened_text (shown self.now) }
        ensures length { length line.new ≤ length line.old + 40 }
    {
        line.put("result ");
        line.put(self.result.name());
        line.put("\ntype ");
        line.put(self.kind.name());
        line.put("\nops ");
        line.put_number(self.ops);
        line.put("\n");
    }

    // Adds the lines of what the slots hold and of the next type: at most 270 bytes.
    fn put_left(&self, line: &mut Line)
        requires { length line.old + 270 ≤ MOST_LINE }
        ensures text { line.new ≡ line.old ++ left_text (shown self.now) }
        ensures length { length line.new ≤ length line.old + 270 }
    {
        line.put("primary ");
        put_slot(line, &self.primary);
        line.put("\nsecondary ");
        put_slot(line, &self.secondary);
        line.put("\nnext ");
        line.put(self.next.name());
        line.put("\n");
    }

    /// Adds its six lines to a line: at most 310 bytes.
    pub fn put_into(&self, line: &mut Line)
        requires { length line.old + 310 ≤ MOST_LINE }
        ensures text { line.new ≡ line.old ++ outcome_text (shown self.now) }
        ensures length { length line.new ≤ length line.old + 310 }
    {
        self.put_happened(line);
        self.put_left(line);
    }
}

/// Six lines: the result, the type, how many operations happened, what the slots hold, and the next type.
/// Promised, also of `ImageId::fmt` and `BootResult::fmt`: an outcome prints as six lines (`output`).
impl fmt::Display for Outcome {
    ghost output = { λ outcome. Some (outcome_text (shown outcome)) };

    fn fmt<W: fmt::Write>(&self, f: &mut fmt::Formatter<W>) -> fmt::Result {
        let mut line = Line::new();
        self.put_into(&mut line);
        f.write_str(line.as_str())
    }
}
