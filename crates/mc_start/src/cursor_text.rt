//! Cursors as text.
ghost use Rattle.std.specs.Prelude.{◌≡◌, ◌+◌, ◌≤◌, ◌++◌, length, Some};
ghost use Rattle.mc_start.specs.Cursor.{head_text, cursor_text};

use crate::cursor::Cursor;
use crate::cursor_fields::{RulesField, StartField};
use mc_flash::Grain;
use mc_output::{Line, MOST_LINE};
use mc_trailer::{Profile, Rules};
use std::fmt;

// Adds what a cursor begins with under these rules: at most 11 bytes.
fn put_head(line: &mut Line, rules: Rules)
    requires { length line.old + 11 ≤ MOST_LINE }
    ensures text { line.new ≡ line.old ++ head_text rules.grain rules.profile }
    ensures length { length line.new ≤ length line.old + 11 }
{
    match (rules.grain, rules.profile) {
        (Grain::Call, Profile::One) => line.put("mc1:"),
        _ => {
            line.put("mc2:");
            RulesField(rules).put_into(line);
        }
    }
}

impl Cursor {
    /// Adds its text to a line: at most 263 bytes.
    pub fn put_into(&self, line: &mut Line)
        requires { length line.old + 263 ≤ MOST_LINE }
        ensures text { line.new ≡ line.old ++ cursor_text self.now }
        ensures length { length line.new ≤ length line.old + 263 }
    {
        put_head(line, self.rules);
        let start = StartField {
            digest: self.digest,
            bound: self.bound,
        };
        start.put_into(line);
        self.schedule.put_into(line);
    }
}

/// The rules, the start's digest, the most cuts and the schedule.
impl fmt::Display for Cursor {
    ghost output = { λ cursor. Some (cursor_text cursor) };

    fn fmt<W: fmt::Write>(&self, f: &mut fmt::Formatter<W>) -> fmt::Result {
        let mut line = Line::new();
        self.put_into(&mut line);
        f.write_str(line.as_str())
    }
}
