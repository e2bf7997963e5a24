//! A campaign with its outcomes.
ghost use Rattle.std.specs.Prelude.{◌≡◌};
ghost use Rattle.mc_boot.specs.Outcome.{shown};
ghost use Rattle.mc_campaign.specs.Rows.{end_of, shown_row};

use crate::Campaign;
use mc_boot::{BootResult, Outcome};

/// A campaign, and the outcomes of the boots that end its rounds.
#[derive(Clone, Copy, Debug)]
pub struct CampaignRow {
    pub campaign: Campaign,
    pub first: Outcome,
    pub second: Outcome,
}

impl CampaignRow {
    /// How the campaign ends: as its second round does; but where the first does not end in a boot, with the result of the first.
    #[inline(always)]
    pub fn end(&self) -> Outcome
        ensures { shown result ≡ end_of (shown_row self.now) }
    {
        let result = match self.first.result {
            BootResult::Boot => self.second.result,
            failed => failed,
        };
        Outcome {
            result,
            ..self.second
        }
    }
}
