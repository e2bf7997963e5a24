//! One campaign of power cuts, replayed.
ghost use Rattle.std.specs.Prelude.{◌≡◌, ◌+◌, ◌≤◌, true, false, length, IfOk, IfErr, IsErr, OnOk, MatchResult};
ghost use Rattle.mc_flash.specs.Usage.{Keeps, Allows, LeaveRoom, limits_for, no_counts};
ghost use Rattle.mc_boot.specs.Restart.{confirmed_if, one_write};
ghost use Rattle.mc_boot.specs.Outcome.{shown};
ghost use Rattle.mc_walk.specs.inner.Stack.{most_at};
ghost use Rattle.mc_explore.specs.inner.OneRound.{one_round};
ghost use Rattle.mc_explore.specs.Schedules as replays;
ghost use Rattle.mc_start.specs.Start.{begun};
ghost use Rattle.mc_campaign.specs.Campaigns.{AreReplayed, BeginsSecond, RefusesCampaign};
ghost use Rattle.mc_campaign.specs.Rows.{Restarts};

use crate::campaign::Campaign;
use mc_boot::{Outcome, confirm, restart_law};
use mc_explore::{ReplayError, Round, Schedule, Start, load_for, replay_on};
use mc_flash::Flash;
use std::alloc::Global;

// One round from a start, on a flash that is loaded for so many boots.
fn replay_round<F: Flash>(
    alloc: Global,
    start: &Start,
    cuts: &[u32],
    boots: u8,
) -> Result<(Outcome, F), ReplayError>
    requires { (length cuts.now ≤ 16) × (length cuts.now + 1 ≤ boots) × (boots ≤ 32) }
    ensures replayed { let s = begun start.now in MatchResult result
        (λ done. replays.IsReplayed s cuts.now (shown done.0) (F.seen done.1).content)
        (λ e. replays.RefusesReplay s cuts.now e) }
    ensures geometry { IfOk result (λ done. (F.seen done.1).geometry ≡ start.now.geometry) }
    ensures exact { IfOk result (λ done. F.counted ≡ true → (F.seen done.1).usage.limits
        ≡ limits_for start.now.rules.grain start.now.geometry boots) }
    // No more is counted than a boot for each cut and one more make.
    ensures counts { IfOk result (λ done. LeaveRoom (F.seen done.1).usage.counts no_counts
        (most_at (one_round (begun start.now)) (length cuts.now))) }
    ensures counted { IfOk result (λ done. (F.seen done.1).usage.limits.counted ≡ F.counted) }
{
    let walk = load_for(alloc, start, cuts.len() as u8, u32::from(boots))?;
    let done = replay_on(walk, cuts)?;
    Ok(done)
}

/// From one round to the next. A flash that counts has room for one write more, and so is not refused memory.
/// Promised, also of `mc_explore::visit_child`: a counting flash needs no memory for rounds, confirmations, tables (`cause`).
fn settle<F: Flash>(confirms: bool, flash: &mut F) -> Result<(), ReplayError>
    requires { let f = F.seen flash.old in f.usage.limits.counted ≡ true → Allows one_write f }
    ensures content { OnOk result ((F.seen flash.new).content ≡ confirmed_if confirms
        (F.seen flash.old).geometry (F.seen flash.old).content) }
    ensures keeps { Keeps (F.seen flash.old) (F.seen flash.new) }
    ensures refused { IfErr result (λ e. e ≡ ReplayError.Memory) }
    ensures cause { IsErr result → (F.seen flash.old).usage.limits.counted ≡ false }
{
    if confirms {
        confirm(flash)?;
    }
    Ok(())
}

/// The start of the second round: the flash that the first round leaves, whose cuts those are, once the image has confirmed itself,
/// where it does. The first round has a flash of its own, which is loaded for three boots more than it has cuts. What the slots then
/// hold is hashed.
/// Promised: where a campaign's second round begins (`BeginsSecond`).
///
/// # Errors
///
/// `CannotOccur` with the number of the first cut that is not less than the operations that its boot makes uncut; `Memory`.
pub fn start_of_second<F: Flash>(
    alloc: Global,
    start: &Start,
    cuts: &Schedule,
    confirms: bool,
) -> Result<Start, ReplayError>
    ensures { let s = begun start.now in MatchResult result
        (λ then. BeginsSecond s confirms cuts.now (begun then))
        (λ e. replays.RefusesReplay s cuts.now e) }
{
    let cuts = cuts.cuts();
    let boots = cuts.len() as u8 + 3;
    let (_one, mut middle) = replay_round::<F>(alloc, start, cuts, boots)?;
    settle(confirms, &mut middle)?;
    let then = start.again(alloc, &middle)?;
    Ok(then)
}

/// The outcomes of both rounds of a campaign from a start, between which the image confirms itself or not, and the flash that the
/// second leaves. Each round has a flash of its own, which is loaded for three boots more than the campaign has cuts.
/// Promised, also of `mc_explore::TreeExplorer::next_row`: the restart theorem of both rounds of each campaign (`restarts`).
/// Promised: a campaign's outcomes and flash, or 53 over both rounds (`replayed`, `geometry`, `exact`).
///
/// # Errors
///
/// `CannotOccur` with the number of the first cut that is not less than the operations that its boot makes uncut, counted from
/// 0 over both rounds; `Memory`.
pub fn replay_campaign<F: Flash>(
    alloc: Global,
    start: &Start,
    campaign: &Campaign,
    confirms: bool,
) -> Result<(Outcome, Outcome, F), ReplayError>
    ensures replayed { let s = begun start.now in MatchResult result
        (λ done. AreReplayed s confirms campaign.now (shown done.0) (shown done.1)
        (F.seen done.2).content)
        (λ e. RefusesCampaign s confirms campaign.now e) }
    ensures geometry { IfOk result (λ done. (F.seen done.2).geometry ≡ start.now.geometry) }
    // A flash that counts has room for exactly so many boots.
    ensures exact { IfOk result (λ done. F.counted ≡ true → (F.seen done.2).usage.limits
        ≡ limits_for start.now.rules.grain start.now.geometry
        (length campaign.now + 3)) }
    // The restart theorem, for both rounds of the campaign that was replayed.
    ensures restarts { IfOk result (λ done. Restarts (begun start.now) confirms campaign.now
        (shown done.0) (shown done.1) (F.seen done.2).content) }
{
    restart_law();
    // The layout of a start is one.
    let _layout = start.layout();
    let boots = campaign.len() as u8 + 3;
    let (firsts, seconds) = (
        campaign.schedule(Round::First),
        campaign.schedule(Round::Second),
    );
    let (first, second) = (firsts.cuts(), seconds.cuts());
    let (one, mut middle) = replay_round::<F>(alloc, start, first, boots)?;
    settle(confirms, &mut middle)?;
    let then = start.again(alloc, &middle)?;
    match replay_round(alloc, &then, second, boots) {
        Ok((two, flash)) => Ok((one, two, flash)),
        Err(ReplayError::CannotOccur(later)) => {
            Err(ReplayError::CannotOccur(first.len() + later))
        }
        Err(ReplayError::Memory) => Err(ReplayError::Memory),
    }
}
