//! One schedule of power cuts, replayed or followed to its last cut.
ghost use Rattle.std.specs.Prelude.{◌≡◌, ◌+◌, ◌≤◌, true, false, length, Some, IfOk, IfErr, IsErrOf, MatchResult};
ghost use Rattle.mc_flash.specs.Usage.{LeaveRoom, limits_for, no_counts};
ghost use Rattle.mc_boot.specs.Outcome.{shown, after};
ghost use Rattle.mc_walk.specs.inner.Stack.{most_at};
ghost use Rattle.mc_walk.specs.Walks.{IsThere};
ghost use Rattle.mc_explore.specs.inner.OneRound.{begun_of, one_round};
ghost use Rattle.mc_explore.specs.Schedules.{IsReplayed, RefusesReplay, Restarts};
ghost use Rattle.mc_start.specs.Start.{begun};
ghost use Rattle.mc_explore.specs.inner.View.{Followed, IsLoaded};

use crate::one_round::{OneRound, Summary};
use crate::tree_loading::load_walk;
use mc_boot::{Outcome, restart_law};
use mc_flash::{Flash, FlashError};
use mc_start::{Schedule, Start};
use mc_walk::Walk;
use std::alloc::{AllocError, Global};
use thiserror::Error;

/// Why a schedule is not replayed.
#[derive(Clone, Copy, Debug, PartialEq, Eq, Error)]
pub enum ReplayError {
    /// The cut of that number, counted from 0, is the first that can't occur.
    #[error("E53 CannotOccur at {0}")]
    CannotOccur(usize),
    /// An allocation failed.
    #[error("E52 Memory")]
    Memory,
}

impl From<FlashError> for ReplayError {
    ghost use Rattle.mc_explore.specs.declared.replays.ReplayError.TheVariants.{Memory};

    ghost from_gives = { λ _ e. e ≡ Memory };

    fn from(_: FlashError) -> Self {
        ReplayError::Memory
    }
}

impl From<AllocError> for ReplayError {
    ghost use Rattle.mc_explore.specs.declared.replays.ReplayError.TheVariants.{Memory};

    ghost from_gives = { λ _ e. e ≡ Memory };

    fn from(_: AllocError) -> Self {
        ReplayError::Memory
    }
}

// Goes along cuts on a walk from a start: the walk at their end, and the summary there.
fn follow<'a, F: Flash>(
    mut walk: Walk<F, OneRound<'a>>,
    cuts: &[u32],
) -> Result<(Walk<F, OneRound<'a>>, Summary), ReplayError>
    requires loaded { IsLoaded F.counted (begun_of walk) (length cuts.now) walk }
    requires at_most { length cuts.now ≤ 16 }
    ensures followed { IfOk result (λ at. Followed F.counted (begun_of walk.entry) (length cuts.now)
        cuts.now at.0) }
    ensures summary { IfOk result (λ at. IsThere (one_round (begun_of at.0)) at.0 at.1) }
    ensures limits { IfOk result
        (λ at. at.0.seen.usage.limits ≡ walk.entry.seen.usage.limits) }
    ensures refused { IfErr result (RefusesReplay (begun_of walk.entry) cuts.now) }
    ensures cause { IsErrOf result ReplayError.Memory → F.counted ≡ false }
{
    walk.begin()?;
    if !walk.follow(cuts)? {
        return Err(ReplayError::CannotOccur(walk.path().len()));
    }
    let summary = *walk.summary();
    Ok((walk, summary))
}

/// Goes along cuts on a walk from a start: the outcome of the uncut boot after them, and the flash that it leaves.
/// Promised: a counting flash needs no memory for a replay (`cause`, `counts`).
///
/// # Errors
///
/// `CannotOccur` with the number of the first cut that is not less than the operations that its boot makes uncut; `Memory` where
/// the flash was refused memory, which one that counts never is.
#[tactic(auto, unfolding(crate::specs::inner::OneRound::one_round))]
pub fn replay_on<F: Flash>(
    walk: Walk<F, OneRound<'_>>,
    cuts: &[u32],
) -> Result<(Outcome, F), ReplayError>
    requires loaded { IsLoaded F.counted (begun_of walk) (length cuts.now) walk }
    requires at_most { length cuts.now ≤ 16 }
    ensures replayed { let s = begun_of walk.entry in MatchResult result
        (λ done. IsReplayed s cuts.now (shown done.0) (F.seen done.1).content)
        (λ e. RefusesReplay s cuts.now e) }
    ensures geometry { IfOk result
        (λ done. (F.seen done.1).geometry ≡ (begun_of walk.entry).geometry) }
    ensures limits { IfOk result
        (λ done. (F.seen done.1).usage.limits ≡ walk.entry.seen.usage.limits) }
    // No more is counted than a boot for each cut and one more make.
    ensures counts { let s = begun_of walk.entry in IfOk result
        (λ done. LeaveRoom (F.seen done.1).usage.counts no_counts
        (most_at (one_round s) (length cuts.now))) }
    ensures cause { IsErrOf result ReplayError.Memory → F.counted ≡ false }
{
    let (there, summary) = follow(walk, cuts)?;
    let mut flash = there.into_flash();
    let mut boot = summary.boot;
    boot.finish(&mut flash)?;
    Ok((summary.outcome, flash))
}

/// The outcome of the uncut boot after a schedule of cuts, and the flash that it leaves, which is loaded for one boot more
/// than there are cuts.
/// Promised, also of `Explorer::next_row`: the restart theorem of each schedule replayed, and of each row (`restarts`).
/// Promised: a schedule's outcome and flash, or 53 and which cut (`replayed`, `geometry`, `exact`).
///
/// # Errors
///
/// `CannotOccur` with the number of the first cut that is not less than the operations that its boot makes uncut; `Memory`.
pub fn replay<F: Flash>(
    alloc: Global,
    start: &Start,
    schedule: &Schedule,
) -> Result<(Outcome, F), ReplayError>
    ensures replayed { MatchResult result
        (λ done. IsReplayed (begun start.now) schedule.now (shown done.0) (F.seen done.1).content)
        (λ e. RefusesReplay (begun start.now) schedule.now e) }
    ensures geometry { IfOk result (λ done. (F.seen done.1).geometry ≡ start.now.geometry) }
    // A flash that counts has room for exactly so many boots.
    ensures exact { IfOk result (λ done. F.counted ≡ true → (F.seen done.1).usage.limits
        ≡ limits_for start.now.rules.grain start.now.geometry (length schedule.now + 1)) }
    // The restart theorem, for the schedule that was replayed.
    ensures restarts { IfOk result (λ done. Restarts (begun start.now) schedule.now
        (shown done.0) (F.seen done.1).content) }
{
    restart_law();
    let cuts = schedule.cuts();
    let walk = load_walk(alloc, start, cuts.len() as u8)?;
    let done = replay_on(walk, cuts)?;
    Ok(done)
}

/// The flash as it was when the last cut of a schedule fell, or the start's where there is none. It is loaded for one boot more
/// than there are cuts.
/// Promised: the flash at its last cut (`cut`, `geometry`, `exact`).
///
/// # Errors
///
/// Those of `replay`.
pub fn flash_at_cut<F: Flash>(
    alloc: Global,
    start: &Start,
    schedule: &Schedule,
) -> Result<F, ReplayError>
    ensures cut { MatchResult result
        (λ flash. after (begun start.now) schedule.now ≡ Some (F.seen flash).content)
        (λ e. RefusesReplay (begun start.now) schedule.now e) }
    ensures geometry { IfOk result (λ flash. (F.seen flash).geometry ≡ start.now.geometry) }
    // A flash that counts has room for exactly so many boots.
    ensures exact { IfOk result (λ flash. F.counted ≡ true → (F.seen flash).usage.limits
        ≡ limits_for start.now.rules.grain start.now.geometry (length schedule.now + 1)) }
{
    let cuts = schedule.cuts();
    let walk = load_walk(alloc, start, cuts.len() as u8)?;
    let (there, _) = follow(walk, cuts)?;
    Ok(there.into_flash())
}
