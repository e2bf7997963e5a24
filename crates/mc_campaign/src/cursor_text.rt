//! Cursors of campaigns as text.
ghost use Rattle.std.specs.Prelude.{◌≡◌, ◌+◌, ◌≤◌, ◌++◌, length, Some};
ghost use Rattle.mc_campaign.specs.Texts.{choice_text, cursor_text};

use crate::cursor::CampaignCursor;
use mc_explore::{Line, MOST_LINE, RulesField, StartField};
use std::fmt;

// The choice between the rounds, in a word.
fn choice_word(confirms: bool) -> &'static str
    ensures text { result.now ≡ choice_text confirms }
    ensures at_most { length result.now ≤ 7 }
{
    if confirms { "confirm" } else { "leave" }
}

impl CampaignCursor {
    /// Adds its text to a line: at most 303 bytes.
    pub fn put_into(&self, line: &mut Line)
        requires { length line.old + 303 ≤ MOST_LINE }
        ensures text { line.new ≡ line.old ++ cursor_text self.now }
        ensures length { length line.new ≤ length line.old + 303 }
    {
        line.put("mc3:");
        RulesField(self.rules).put_into(line);
        line.put(choice_word(self.confirms));
        line.put(":");
        let start = StartField {
            digest: self.digest,
            bound: self.bound,
        };
        start.put_into(line);
        self.campaign.put_into(line);
    }
}

/// The rules, the choice between the rounds, the start's digest, the most cuts and the campaign.
impl fmt::Display for CampaignCursor {
    ghost output = { λ cursor. Some (cursor_text cursor) };

    fn fmt<W: fmt::Write>(&self, f: &mut fmt::Formatter<W>) -> fmt::Result {
        let mut line = Line::new();
        self.put_into(&mut line);
        f.write_str(line.as_str())
    }
}
