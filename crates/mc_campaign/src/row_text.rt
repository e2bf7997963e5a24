//! Rows of campaigns as text.
ghost use Rattle.std.specs.Prelude.{◌≡◌, ◌<◌, [], length, Some};
ghost use Rattle.mc_campaign.specs.Rows.{row_text, shown_row};
ghost use Rattle.mc_campaign.specs.Texts.{campaign_text};

use crate::row::CampaignRow;
use mc_explore::{Labels, Line, MOST_LINE, put_outcome, put_slots};
use std::fmt;

/// The campaign; the result, the type and how many operations happened, of the boot that ends the first round and of the one that
/// ends the second; what that leaves in the slots (the version and the size of the valid image, or `none`), and the next type:
/// one space between, no line feed.
impl fmt::Display for CampaignRow {
    ghost output = { λ row. Some (row_text (shown_row row)) };

    fn fmt<W: fmt::Write>(&self, f: &mut fmt::Formatter<W>) -> fmt::Result {
        let mut line = Line::new();
        let _key = self.put_into(&mut line, &Labels::none());
        f.write_str(line.as_str())
    }
}

impl CampaignRow {
    // Puts its text into an empty line, where there is room for it and more. How many bytes of it are those of the campaign.
    pub(crate) fn put_into(&self, line: &mut Line, labels: &Labels) -> usize
        requires { line.old ≡ [] }
        ensures key { result ≡ length (campaign_text (shown_row self.now).campaign) }
        ensures text { line.new ≡ row_text (shown_row self.now) }
        ensures length { length line.new < MOST_LINE }
    {
        self.campaign.put_into(line);
        let key = line.as_str().len();
        line.put(" ");
        put_outcome(line, &self.first);
        line.put(" ");
        put_outcome(line, &self.second);
        line.put(" ");
        put_slots(line, &self.second, labels);
        key
    }
}
