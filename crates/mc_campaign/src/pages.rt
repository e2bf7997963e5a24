//! Pages: several rows at a time, as text.
ghost use Rattle.std.specs.Prelude.{◌≡◌, ◌+◌, ◌*◌, ◌≤◌, ◌⊎◌, IfErr, OnOk, OnErr, IsErrOf};
ghost use Rattle.mc_explore.specs.Subject.{Explores};
ghost use Rattle.mc_campaign.specs.Rows.{most_for_row};
ghost use Rattle.mc_campaign.specs.Page.{PageBegan, PageIsOut};

use crate::campaign_subject::CampaignExplorer;
use mc_explore::{ExploreError, write_rows};
use mc_flash::Flash;
use std::io::Write;

/// Writes the next rows, at most so many, a line each; then where to go on, or `end` where there were fewer. It takes no
/// memory but through the flash.
/// Promised: the restart theorem of each campaign printed (`page`, `began`).
/// Promised: a page of campaigns: rows, then a cursor or `end` (`page`, `began`, `explores`, `err`, `unwritten`).
///
/// # Errors
///
/// `Write`, `Memory`, `Failed`: a prefix of that page is out, and from then on the explorer returns `Failed`.
pub fn write_campaign_page<F: Flash + Drop, W: Write>(
    explorer: &mut CampaignExplorer<'_, F>,
    limit: u32,
    writer: &mut W,
) -> Result<(), ExploreError>
    requires { 1 ≤ limit }
    // The page of the rows to come is out, and what is to come afterwards is the rest of them.
    ensures page { OnOk result (PageIsOut explorer.old.state explorer.new.state limit
        (W.contents writer.old) (W.contents writer.new)) }
    ensures began { OnErr result (PageBegan explorer.old.state limit (W.contents writer.old)
        (W.contents writer.new)) }
    // Each row takes as much as one by itself.
    ensures applied { OnOk result (explorer.new.usage.applied ≤ explorer.old.usage.applied + limit
        * most_for_row explorer.old.state.start.rules explorer.old.state.start.geometry) }
    ensures explores { Explores F.counted explorer.old result explorer.new }
    ensures unwritten { IsErrOf result ExploreError.Failed → writer.new ≡ writer.old }
    ensures err { IfErr result (λ e. (e ≡ ExploreError.Memory) ⊎ (e ≡ ExploreError.Failed)
        ⊎ (e ≡ ExploreError.Write)) }
{
    write_rows(explorer, &None, limit, writer)
}
