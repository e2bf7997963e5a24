//! Rows as text.
ghost use Rattle.std.specs.Prelude.{◌≡◌, ◌+◌, ◌<◌, ◌≤◌, ◌++◌, [], length, Some, option_map};
ghost use Rattle.mc_boot.specs.Plan.{identity_of};
ghost use Rattle.mc_boot.specs.Outcome.{shown};
ghost use Rattle.mc_start.specs.Start.{schedule_text};
ghost use Rattle.mc_explore.specs.Rows.{slot_text, outcome_text, slots_text, row_text, shown_row};

use crate::labels::Labels;
use crate::row::Row;
use mc_boot::{ImageId, Outcome};
use mc_start::{Line, MOST_LINE};
use std::fmt;

/// Adds the version and the size of an image.
pub(crate) fn put_image(line: &mut Line, image: ImageId)
    requires { length line.old + 54 ≤ MOST_LINE }
    ensures text { line.new ≡ line.old ++ slot_text (Some (identity_of image)) }
    ensures length { length line.new ≤ length line.old + 54 }
{
    image.version.put_into(line);
    line.put("/");
    line.put_number(image.size);
}

// Adds what a slot holds, in a word: the version and the size of its valid image.
fn put_slot(line: &mut Line, held: &Option<ImageId>, labels: &Labels)
    requires { length line.old + 54 ≤ MOST_LINE }
    ensures text { line.new ≡ line.old ++ slot_text (option_map identity_of held.now) }
    ensures length { length line.new ≤ length line.old + 54 }
{
    match held {
        None => line.put("none"),
        Some(image) => match labels.find(image) {
            Some(label) => line.put(label),
            None => put_image(line, *image),
        },
    }
}

/// Adds how a boot ended, in words: the result, the type, and how many operations happened.
pub fn put_outcome(line: &mut Line, outcome: &Outcome)
    requires { length line.old + 23 ≤ MOST_LINE }
    ensures text { line.new ≡ line.old ++ outcome_text (shown outcome.now) }
    ensures length { length line.new ≤ length line.old + 23 }
{
    line.put(outcome.result.name());
    line.put(" ");
    line.put(outcome.kind.name());
    line.put(" ");
    line.put_number(outcome.ops);
}

/// Adds what a boot left, in words: what the slots hold (the version and the size of the valid image, or `none`), and
/// the next type. Images with a label are named by that.
pub fn put_slots(line: &mut Line, outcome: &Outcome, labels: &Labels)
    requires { length line.old + 116 ≤ MOST_LINE }
    ensures text { line.new ≡ line.old ++ slots_text (shown outcome.now) }
    ensures length { length line.new ≤ length line.old + 116 }
{
    put_slot(line, &outcome.primary, labels);
    line.put(" ");
    put_slot(line, &outcome.secondary, labels);
    line.put(" ");
    line.put(outcome.next.name());
}

/// The schedule, the result, the type, how many operations happened, what the slots hold (the version and the size of the
/// valid image, or `none`), and the next type: one space between, no line feed.
/// Promised, also of `mc_campaign::CampaignRow::fmt`: rows print as stated (`output`).
impl fmt::Display for Row {
    ghost output = { λ row. Some (row_text (shown_row row)) };

    fn fmt<W: fmt::Write>(&self, f: &mut fmt::Formatter<W>) -> fmt::Result {
        let mut line = Line::new();
        let _key = self.put_into(&mut line, &Labels::none());
        f.write_str(line.as_str())
    }
}

impl Row {
    // Puts its text into an empty line, where there is room for it and more. How many bytes of it are those of the schedule.
    pub(crate) fn put_into(&self, line: &mut Line, labels: &Labels) -> usize
        requires { line.old ≡ [] }
        ensures key { result ≡ length (schedule_text (shown_row self.now).schedule) }
        ensures text { line.new ≡ row_text (shown_row self.now) }
        ensures length { length line.new < MOST_LINE }
    {
        self.schedule.put_into(line);
        let key = line.as_str().len();
        line.put(" ");
        put_outcome(line, &self.outcome);
        line.put(" ");
        put_slots(line, &self.outcome, labels);
        key
    }
}
