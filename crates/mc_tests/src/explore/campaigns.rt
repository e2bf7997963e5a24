//! Campaigns that are replayed, of a test swap and of one of large images.
use super::common::swap;
use super::large::large;
use mc_campaign::{Campaign, CampaignRow, replay_campaign};
use mc_explore::{Kind, ReplayError, Start};
use mc_flash::{Flash, JournalFlash, SnapFlash};
use std::alloc::Global;
use std::process::Abort;

/// The row of a campaign that is replayed from a start, or why it is not. The test ends where an allocation failed
/// (`scripts/test/refuse-allocations-of-tests`).
fn shown_of<F: Flash + Drop>(
    rt: &impl Abort,
    alloc: Global,
    start: &Start,
    text: &str,
    confirms: bool,
) -> String {
    let campaign = Campaign::read(text).expect(rt, "a campaign");
    match replay_campaign::<F>(alloc, start, &campaign, confirms) {
        Ok((first, second, _)) => {
            let row = CampaignRow {
                campaign,
                first,
                second,
            };
            format!(in alloc; "{row}").expect(rt, "memory")
        }
        Err(error) => {
            assert!(rt; error != ReplayError::Memory, "error: Memory");
            format!(in alloc; "{error}").expect(rt, "memory")
        }
    }
}

/// Whether the image confirms itself, a campaign, and what is reported of it.
static REPLAYS: [(bool, &str, &str); 5] = [
    (
        false,
        "-",
        "- boot test 18 boot revert 23 1.0.0+0/80 2.0.0+0/80 none",
    ),
    (
        true,
        "-",
        "- boot test 18 boot none 0 2.0.0+0/80 1.0.0+0/80 none",
    ),
    (
        false,
        "2.4",
        "2.4 boot test 18 boot perm 19 1.0.0+0/80 2.0.0+0/80 none",
    ),
    (false, "1.0,2.23", "E53 CannotOccur at 1"),
    (false, "1.18,2.0", "E53 CannotOccur at 0"),
];

#[test]
fn campaigns_are_replayed_or_cannot_occur(rt: HostRuntime) {
    let start = swap(&rt, rt.alloc());
    for (confirms, text, want) in REPLAYS {
        let shown = shown_of::<SnapFlash>(&rt, rt.alloc(), &start, text, confirms);
        assert_eq!(rt; shown.as_str(), want, "{text}");
    }
}

/// A campaign of sixteen cuts before the first operation of a round, and what is reported of it.
static ROUNDS: &str = "1.0,1.0,1.0,1.0,1.0,1.0,1.0,1.0,2.0,2.0,2.0,2.0,2.0,2.0,2.0,2.0";

static TOLD: &str =
    "1.0,1.0,1.0,1.0,1.0,1.0,1.0,1.0,2.0,2.0,2.0,2.0,2.0,2.0,2.0,2.0 boot test 7598 boot revert 7604 2.0.0+0/1036288 2.0.0+0/1036288 none";

#[test]
fn a_campaign_of_large_images_is_replayed(rt: HostRuntime) {
    let start = large(&rt, rt.alloc(), Kind::Test);
    let shown = shown_of::<SnapFlash>(&rt, rt.alloc(), &start, ROUNDS, false);
    assert_eq!(rt; shown.as_str(), TOLD);
    let shown = shown_of::<JournalFlash>(&rt, rt.alloc(), &start, ROUNDS, false);
    assert_eq!(rt; shown.as_str(), TOLD);
}
