//! Where to go on with an exploration of campaigns.
ghost use Rattle.std.specs.Prelude.{◌≡◌, ◌≤◌};
ghost use Rattle.mc_start.specs.Start.{begun};
ghost use Rattle.mc_campaign.specs.Texts.{cursor_of};

use crate::Campaign;
use mc_explore::Start;
use mc_trailer::Rules;

/// Where to go on with an exploration of campaigns: after a campaign, of a start (named by its digest) under some rules and
/// a choice between the rounds, with so many cuts at most. It takes no memory.
#[derive(Clone, Copy, Debug)]
pub struct CampaignCursor {
    pub(crate) rules: Rules,
    pub(crate) confirms: bool,
    pub(crate) digest: [u8; 32],
    pub(crate) bound: u8,
    pub(crate) campaign: Campaign,
}

impl CampaignCursor {
    /// The cursor that goes on after a campaign, of a start, a choice and at most so many cuts. It takes no memory.
    pub fn of(start: &Start, bound: u8, confirms: bool, campaign: &Campaign) -> CampaignCursor
        requires { bound ≤ 16 }
        ensures { result ≡ cursor_of (begun start.now) confirms bound campaign.now }
    {
        CampaignCursor {
            rules: start.rules(),
            confirms,
            digest: start.digest(),
            bound,
            campaign: *campaign,
        }
    }
}
