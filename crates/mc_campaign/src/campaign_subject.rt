//! Campaigns, as what an explorer goes through.
use crate::campaign::Campaign;
use crate::campaign_path;
use crate::cursor::CampaignCursor;
use crate::row::CampaignRow;
use mc_boot::{Outcome, restart_law};
use mc_explore::{BootRow, BootTree, Cuts, Fields, Labels, Line, Rounds, Subject, TreeExplorer};
use mc_flash::Flash;
use mc_walk::Walk;
use std::alloc::AllocError;

/// Campaigns of power cuts: the paths of two rounds of boots. What is chosen is whether the image confirms itself between them.
pub struct Campaigns;

/// Goes through all campaigns of at most so many cuts that can occur, in their order, each with the outcomes of both rounds, over
/// one flash, which it loads for three boots more than there are cuts. Its choice is whether the image confirms itself between
/// the rounds.
pub type CampaignExplorer<'a, F> = TreeExplorer<'a, F, Campaigns>;

impl Subject for Campaigns {
    ghost use Rattle.std.specs.Prelude.{◌≡◌, ◌≢◌, ◌↔◌, ◌++◌, ◌+◌, ◌<◌, ◌≤◌, [], length, true, false};
    ghost use Rattle.mc_boot.specs.Outcome.{shown};
    ghost use Rattle.mc_campaign.specs.Campaigns.{Precedes};
    ghost use Rattle.mc_boot.specs.Plan.{PowerOn};
    ghost use Rattle.mc_start.specs.Start.{start_digest};
    ghost use Rattle.mc_campaign.specs.Texts.{campaign_text, cursor_of, fields_of};
    ghost use Rattle.mc_campaign.specs.Rows.{campaigns};
    ghost use Rattle.mc_campaign.specs.Rows as states;
    ghost use Rattle.mc_campaign.specs.facts.Keys.{campaigns_are_family};
    ghost use Rattle.mc_campaign.specs.inner.InRounds.{campaign_of, edge};

    ghost Shown = { states.ShownRow };

    type Choice = bool;

    type Key = Campaign;

    type Row = CampaignRow;

    type Cursor = CampaignCursor;

    ghost subject = { campaigns };

    ghost edge = { edge };

    ghost shown = { states.shown_row };

    ghost fields = { fields_of };

    fn rounds_of(confirms: bool) -> Rounds {
        Rounds::Two { confirms }
    }

    fn is_choice(one: &bool, other: &bool) -> bool
        ensures yes { result ≡ true → one.now ≡ other.now }
        ensures no { result ≡ false → one.now ≢ other.now }
    {
        *one == *other
    }

    fn key_of(cuts: &Cuts) -> Campaign
        ensures { result ≡ campaign_of cuts.now }
    {
        Campaign::of(cuts)
    }

    fn row(row: &BootRow) -> CampaignRow
        ensures { states.shown_row result ≡ edge.shown_of row.now }
    {
        let (campaign, second) = (Campaign::of(&row.cuts), row.ends.last);
        match row.ends.first {
            Some(first) => CampaignRow {
                campaign,
                first,
                second,
            },
            None => CampaignRow {
                campaign,
                first: second,
                second,
            },
        }
    }

    fn follow<F: Flash>(
        walk: &mut Walk<F, BootTree<'_>>,
        confirms: bool,
        key: &Campaign,
    ) -> Result<bool, AllocError> {
        let went = campaign_path::follow(walk, confirms, key)?;
        Ok(went)
    }

    #[inline]
    fn key(row: &CampaignRow) -> Campaign
        ensures { result ≡ (states.shown_row row.now).campaign }
    {
        row.campaign
    }

    #[inline(always)]
    fn end(row: &CampaignRow) -> Outcome
        ensures { shown result ≡ campaigns.ends (states.shown_row row.now) }
    {
        row.end()
    }

    #[inline]
    fn is_before(row: &CampaignRow, key: &Campaign) -> bool
        ensures { (result ≡ true) ↔ Precedes (states.shown_row row.now).campaign key.now }
    {
        row.campaign.is_before(key)
    }

    fn restarts() {
        restart_law();
    }

    fn fields(cursor: &CampaignCursor) -> Fields<bool, Campaign>
        ensures { result ≡ fields_of cursor.now }
    {
        let digest = cursor.digest;
        Fields {
            rules: cursor.rules,
            choice: cursor.confirms,
            digest,
            bound: cursor.bound,
            key: cursor.campaign,
        }
    }

    fn cursor(says: Fields<bool, Campaign>) -> CampaignCursor
        ensures { (start : PowerOn) → says.rules ≡ start.rules
            → says.digest ≡ start_digest start → result
            ≡ cursor_of start says.choice says.bound says.key }
    {
        let digest = says.digest;
        CampaignCursor {
            rules: says.rules,
            confirms: says.choice,
            digest,
            bound: says.bound,
            campaign: says.key,
        }
    }

    fn put_row(row: &CampaignRow, line: &mut Line, labels: &Labels) -> usize
        requires { line.old ≡ [] }
        ensures key { result ≡ length (campaign_text (states.shown_row row.now).campaign) }
        ensures text { line.new ≡ campaigns.row_text (states.shown_row row.now) }
        ensures length { length line.new < 512 }
    {
        row.put_into(line, labels)
    }

    fn put_key(key: &Campaign, line: &mut Line)
        requires { length line.old + 208 ≤ 512 }
        ensures text { line.new ≡ line.old ++ campaigns.key_text key.now }
        ensures length { length line.new ≤ length line.old + 208 }
    {
        key.put_into(line);
    }

    fn put_cursor(cursor: &CampaignCursor, line: &mut Line)
        requires { length line.old + 303 ≤ 512 }
        ensures text { line.new ≡ line.old ++ campaigns.cursor_text cursor.now }
        ensures length { length line.new ≤ length line.old + 303 }
    {
        cursor.put_into(line);
    }

    ghost laws = { campaigns_are_family };
}
