//! A walk along the path of a campaign.
ghost use Rattle.std.specs.Prelude.{◌≡◌, Bool, [], true, IfOk, OnOk};
ghost use Rattle.mc_tree.specs.Tree.{RoundNode};
ghost use Rattle.mc_boot.specs.Plan.{PowerOn};
ghost use Rattle.mc_flash.specs.Geometry.{IsLayout};
ghost use Rattle.mc_campaign.specs.inner.View.{FollowsCampaign, HasChildOf, begun_of};
ghost use Rattle.mc_explore.specs.declared.rounds.Rounds.TheVariants.{Two};
ghost use Rattle.mc_explore.specs.inner.BootTree.{AreSummaries};
ghost use Rattle.mc_explore.specs.inner.Exploring.{NoAllocationFailed};

use crate::campaign::{Campaign, Cut};
use mc_explore::{BootTree, Both, Round};
use mc_flash::Flash;
use mc_walk::Walk;
use std::alloc::AllocError;

// The number of the child of a node at that cut, if it has one: the children in the second round stand after those in the first.
fn child_of(summary: &Both, cut: Cut) -> Option<u32>
    ensures { (start : PowerOn) (confirms : Bool) (p : RoundNode PowerOn) → IsLayout start.geometry
        → AreSummaries start (Two confirms) p summary.now → HasChildOf confirms p cut result }
{
    let ops = summary.first.outcome.ops;
    match (summary.round, cut.round) {
        (Round::First, Round::First) if cut.number < ops => Some(cut.number),
        (Round::First, Round::Second) => ops.checked_add(cut.number),
        (Round::Second, Round::Second) => Some(cut.number),
        _ => None,
    }
}

/// Goes from the root along the cuts of a campaign, if it is one of those to go through.
///
/// # Errors
///
/// Where the flash was refused memory.
pub(crate) fn follow<F: Flash>(
    walk: &mut Walk<F, BootTree<'_>>,
    confirms: bool,
    campaign: &Campaign,
) -> Result<bool, AllocError>
    requires stands { walk.old.stands ≡ true }
    requires root { walk.old.path ≡ [] }
    requires valid { IsLayout (begun_of walk.old).geometry }
    requires rounds { walk.old.flash_tree.rounds ≡ Two confirms }
    ensures follows { IfOk result (λ went. FollowsCampaign confirms walk.old campaign.now went
        walk.new) }
    ensures no_allocation_failed { OnOk result (NoAllocationFailed walk.old.seen walk.new.seen) }
{
    for cut in campaign.cuts() {
        let Some(number) = child_of(walk.summary(), *cut) else {
            return Ok(false);
        };
        if !walk.go_down(number)? {
            return Ok(false);
        }
    }
    Ok(true)
}
