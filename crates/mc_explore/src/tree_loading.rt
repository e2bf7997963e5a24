//! The walk from a start through its boots, and whether a cursor is one of that start.
ghost use Rattle.std.specs.Prelude.{◌≡◌, ◌+◌, ◌≤◌, true, IfOk, IfErr, OnOk};
ghost use Rattle.mc_flash.specs.Geometry.{IsLayout};
ghost use Rattle.mc_flash.specs.Usage.{limits_for};
ghost use Rattle.mc_start.specs.Start.{begun};
ghost use Rattle.mc_explore.specs.Rounds.{more_of};
ghost use Rattle.mc_explore.specs.inner.BootTree.{begins_of, model_of};
ghost use Rattle.mc_explore.specs.inner.Exploring.{IsLoaded, LoadsFor};
ghost use Rattle.mc_explore.specs.inner.View as view;
ghost use Rattle.mc_explore.specs.Subject.{Names, RefusesCursor};

use crate::error::ExploreError;
use crate::one_round::OneRound;
use crate::rounds::{BootTree, Rounds};
use crate::subject::{Fields, Subject};
use mc_flash::Flash;
use mc_start::Start;
use mc_walk::Walk;
use std::alloc::{AllocError, Global};

// Loads the flash of a start for so many boots.
fn load_flash<F: Flash>(alloc: Global, start: &Start, boots: u32) -> Result<F, AllocError>
    requires { (1 ≤ boots) × (boots ≤ 32) }
    ensures loads { IfOk result (λ flash. LoadsFor F.counted (begun start.now) boots
        (F.seen flash)) }
    ensures valid { IsLayout start.now.geometry }
{
    let layout = *start.layout();
    // Reading a field gives the prover that it is a layout.
    let _sector = layout.sector();
    let grain = start.rules().grain;
    let (primary, secondary) = (start.primary(), start.secondary());
    let flash = F::load(alloc, &layout, grain, primary, secondary, boots)?;
    Ok(flash)
}

/// Loads the flash of a start for so many boots, for a walk from there along schedules of at most so many cuts.
///
/// # Errors
///
/// Where an allocation failed.
pub fn load_for<F: Flash>(
    alloc: Global,
    start: &Start,
    bound: u8,
    boots: u32,
) -> Result<Walk<F, OneRound<'_>>, AllocError>
    requires { (bound + 1 ≤ boots) × (boots ≤ 32) }
    ensures loaded { IfOk result (view.IsLoaded F.counted (begun start.now) bound) }
    ensures exact { IfOk result (λ walk. F.counted ≡ true → walk.seen.usage.limits
        ≡ limits_for start.now.rules.grain start.now.geometry boots) }
{
    let flash = load_flash::<F>(alloc, start, boots)?;
    Walk::start(alloc, OneRound { start }, usize::from(bound), flash)
}

/// Loads the flash of a start for one boot more than there are cuts, for a walk from there along schedules.
///
/// # Errors
///
/// Where an allocation failed.
pub fn load_walk<F: Flash>(
    alloc: Global,
    start: &Start,
    bound: u8,
) -> Result<Walk<F, OneRound<'_>>, AllocError>
    requires { bound ≤ 17 }
    ensures loaded { IfOk result (view.IsLoaded F.counted (begun start.now) bound) }
    ensures exact { IfOk result (λ walk. F.counted ≡ true → walk.seen.usage.limits
        ≡ limits_for start.now.rules.grain start.now.geometry (bound + 1)) }
{
    load_for(alloc, start, bound, u32::from(bound) + 1)
}

/// Loads the flash of a start for a walk through its boots, along paths of at most so many cuts.
///
/// # Errors
///
/// Where an allocation failed.
pub(crate) fn load_boots<F: Flash>(
    alloc: Global,
    start: &Start,
    rounds: Rounds,
    bound: u8,
) -> Result<Walk<F, BootTree<'_>>, AllocError>
    requires { bound ≤ 16 }
    ensures rounds { IfOk result (λ walk. walk.flash_tree.rounds ≡ rounds) }
    ensures loaded { IfOk result (IsLoaded model_of begins_of F.counted (begun start.now) bound) }
    ensures exact { IfOk result (λ walk. F.counted ≡ true → walk.seen.usage.limits
        ≡ limits_for start.now.rules.grain start.now.geometry (bound + more_of rounds)) }
{
    let boots = u32::from(bound) + rounds.more();
    let flash = load_flash::<F>(alloc, start, boots)?;
    let one_round = OneRound { start };
    let flash_tree = BootTree { one_round, rounds };
    Walk::start(alloc, flash_tree, usize::from(bound), flash)
}

/// Whether a cursor is one of this start, this choice and this bound.
///
/// # Errors
///
/// `OtherStart`, `OtherRules` (also for another choice), `OtherBound`: the first that holds.
pub fn check_cursor<X: Subject>(
    start: &Start,
    bound: u8,
    choice: X::Choice,
    fields: &Fields<X::Choice, X::Key>,
) -> Result<(), ExploreError>
    ensures names { OnOk result (Names X.subject (begun start.now) choice bound fields.now) }
    ensures refused { IfErr result (λ e. RefusesCursor X.subject (begun start.now) choice bound
        fields.now e) }
{
    if fields.digest != start.digest() {
        return Err(ExploreError::OtherStart);
    }
    if fields.rules != start.rules() || !X::is_choice(&fields.choice, &choice) {
        return Err(ExploreError::OtherRules);
    }
    if fields.bound != bound {
        return Err(ExploreError::OtherBound);
    }
    Ok(())
}
