//! Texts of schedules, campaigns and cursors.
use super::common::swap;
use mc_campaign::{Campaign, CampaignCursor, Round};
use mc_explore::{Cursor, Schedule};
use std::alloc::{AllocError, Global};

/// Campaigns, with at most sixteen cuts, and texts that are none, the first of them empty.
static CAMPAIGNS: &str = "\
- => -
1.0 => 1.0
2.0 => 2.0
1.0,2.5 => 1.0,2.5
1.0,1.17,2.22,2.0 => 1.0,1.17,2.22,2.0
2.4294967295 => 2.4294967295
1.0,1.0,1.0,1.0,1.0,1.0,1.0,1.0,2.0,2.0,2.0,2.0,2.0,2.0,2.0,2.0 => 1.0,1.0,1.0,1.0,1.0,1.0,1.0,1.0,2.0,2.0,2.0,2.0,2.0,2.0,2.0,2.0
1.0,1.0,1.0,1.0,1.0,1.0,1.0,1.0,2.0,2.0,2.0,2.0,2.0,2.0,2.0,2.0,2.0 => E62 CampaignSyntax
 => E62 CampaignSyntax
2.0,1.0 => E62 CampaignSyntax
3.0 => E62 CampaignSyntax
0.0 => E62 CampaignSyntax
1 => E62 CampaignSyntax
1.0, => E62 CampaignSyntax
,1.0 => E62 CampaignSyntax
1.0.0 => E62 CampaignSyntax
01.0 => E62 CampaignSyntax
1.00 => E62 CampaignSyntax
1.+0 => E62 CampaignSyntax
1.4294967296 => E62 CampaignSyntax
1.0, 2.0 => E62 CampaignSyntax
-,1.0 => E62 CampaignSyntax
";

/// What is reported of a text: the campaign that it says, printed again, or why it says none.
fn shown_of(alloc: Global, text: &str) -> Result<String, AllocError> {
    match Campaign::read(text) {
        Ok(campaign) => format!(in alloc; "{campaign}"),
        Err(error) => format!(in alloc; "{error}"),
    }
}

#[test]
fn campaigns_are_read_back_or_refused(rt: HostRuntime) {
    for line in CAMPAIGNS.lines() {
        let (text, want) = line.split_once(" => ").expect(&rt, "a text and an end");
        let shown = shown_of(rt.alloc(), text).expect(&rt, "memory");
        assert_eq!(rt; shown.as_str(), want, "{line}");
    }
}

/// Whether a text is no schedule and no cursor.
fn is_refused(text: &str) -> bool {
    Schedule::read(text).is_err()
        && Cursor::read(text).is_err()
        && CampaignCursor::read(text).is_err()
}

#[test]
fn texts_with_nothing_or_a_space_are_refused(rt: HostRuntime) {
    for text in ["", " ", " 1"] {
        assert!(rt; is_refused(text), "{text}");
    }
}

#[test]
fn texts_name_their_cuts_in_order(rt: HostRuntime) {
    let schedule = Schedule::read("9.4").expect(&rt, "a text");
    assert_eq!(rt; schedule.cuts(), [9, 4].as_slice());
    let campaign = Campaign::read("1.3,2.0,2.17").expect(&rt, "a text");
    assert_eq!(rt; campaign.schedule(Round::First).cuts(), [3].as_slice());
    assert_eq!(rt; campaign.schedule(Round::Second).cuts(), [0, 17].as_slice());
}

#[test]
fn the_cursor_of_a_campaign_names_its_start(rt: HostRuntime) {
    let campaign = Campaign::read("1.0,2.5").expect(&rt, "a text");
    let cursor = CampaignCursor::of(&swap(&rt, rt.alloc()), 2, true, &campaign);
    let text = format!(in rt.alloc(); "{cursor}").expect(&rt, "memory");
    let want =
        "mc3:call:1:confirm:9b07a99687c30f1c748c995c0d4df48a8af881b571e209fd613b03ba09e2b5b7:2:1.0,2.5";
    assert_eq!(rt; text.as_str(), want);
}
