//! The census of a start: of the paths of a tree of boots, and of whatever has these for keys.
ghost use Rattle.std.specs.Prelude.{◌≡◌, ℕ, ◌≤◌, [], IfErr, IfOk};
ghost use Rattle.mc_start.specs.Start.{begun};
ghost use Rattle.mc_explore.specs.Census.{IsCensus, IsCensusOf};
ghost use Rattle.mc_explore.specs.Right.{AreRights, judged};
ghost use Rattle.mc_explore.specs.inner.BootEnds.{report_in};
ghost use Rattle.mc_explore.specs.Rounds.{tree_of};
ghost use Rattle.mc_explore.specs.inner.BootRows.{cuts_along, tree_in};
ghost use Rattle.mc_explore.specs.inner.BootTree.{confirms_of, root_of};
ghost use Rattle.mc_explore.specs.inner.Table.{weigh};
ghost use Rattle.mc_explore.specs.inner.Totals.{cut_off};
ghost use Rattle.mc_tree.specs.inner.Weights.{path_tree};
ghost use Rattle.mc_tree.specs.Tree.{IsMember};

use crate::boot_row::Cuts;
use crate::census::{Census, CensusOf};
use crate::column::column;
use crate::error::ExploreError;
use crate::expectation::Expectation;
use crate::rights::RightsOf;
use crate::rounds::{BootTree, Rounds};
use crate::subject::Subject;
use crate::table::census_at;
use crate::tree_loading::load_boots;
use mc_flash::Flash;
use mc_start::{Schedule, Start};
use mc_walk::Walk;
use std::alloc::{AllocError, Global};

/// What all paths of at most so many cuts come to, where only an outcome that meets the expectation counts as a boot.
///
/// # Errors
///
/// Where an allocation failed.
pub fn count_paths<F: Flash>(
    alloc: Global,
    start: &Start,
    rounds: Rounds,
    bound: u8,
    expectation: &Expectation,
) -> Result<Census, AllocError>
    requires { bound ≤ 16 }
    ensures { IfOk result (λ census. census ≡ cut_off (weigh
        (path_tree (tree_of (confirms_of rounds)) (root_of rounds (begun start.now)))
        (report_in (begun start.now) rounds) expectation.now bound [])) }
{
    let mut walk: Walk<F, BootTree<'_>> = load_boots(alloc, start, rounds, bound)?;
    walk.begin()?;
    let most = u32::from(bound);
    let column = column(alloc, &mut walk, most, expectation)?;
    Ok(census_at(&column, usize::from(bound)))
}

// The cuts along a path that can occur.
fn cuts_at<F: Flash>(
    alloc: Global,
    start: &Start,
    rounds: Rounds,
    path: &Schedule,
) -> Result<Cuts, AllocError>
    ensures { IfOk result (λ cuts. (bound : ℕ)
        → IsMember (tree_in rounds) (root_of rounds (begun start.now)) bound path.now
        → cuts ≡ cuts_along rounds (begun start.now) path.now) }
{
    let steps = path.cuts();
    let mut walk: Walk<F, BootTree<'_>> = load_boots(alloc, start, rounds, steps.len() as u8)?;
    walk.begin()?;
    walk.follow(steps)?;
    let path = Schedule::of(walk.path().as_slice());
    Ok(Cuts::along(&walk, &path))
}

// What all rows of at most so many cuts that can occur come to, where only an outcome that meets the expectation counts as a boot.
fn count<F: Flash, X: Subject>(
    alloc: Global,
    start: &Start,
    bound: u8,
    chosen: X::Choice,
    expectation: &Expectation,
) -> Result<CensusOf<X::Key>, AllocError>
    requires { bound ≤ 16 }
    ensures { IfOk result (IsCensusOf X.subject (λ row. judged expectation.now
        (X.subject.ends row)) (begun start.now) chosen bound) }
{
    let rounds = X::rounds_of(chosen);
    let census = count_paths::<F>(alloc, start, rounds, bound, expectation)?;
    let first_not_boot = match &census.first_not_boot {
        Some(path) => Some(X::key_of(&cuts_at::<F>(alloc, start, rounds, path)?)),
        None => None,
    };
    Ok(CensusOf {
        schedules: census.schedules,
        boot: census.boot,
        none: census.none,
        panic: census.panic,
        fault: census.fault,
        most_operations: census.most_operations,
        first_not_boot,
    })
}

/// What all rows of at most so many cuts that can occur come to, without going through them: its time grows with the operations of
/// a boot and with the bound, not with the rows. It loads a flash as an explorer does, and keeps a table of the flashes on the way
/// of each boot that does not go on with the one that was cut.
/// Promised, also of `count_paths`: a census counts the whole list (`census`, `err`, `cut_off`).
///
/// # Errors
///
/// `Memory` where an allocation failed.
pub fn take_census<F: Flash, X: Subject>(
    alloc: Global,
    start: &Start,
    bound: u8,
    chosen: X::Choice,
) -> Result<CensusOf<X::Key>, ExploreError>
    requires { bound ≤ 16 }
    ensures census { IfOk result (IsCensus X.subject (begun start.now) chosen bound) }
    ensures err { IfErr result (λ e. e ≡ ExploreError.Memory) }
{
    let any = Expectation::any();
    let census = count::<F, X>(alloc, start, bound, chosen, &any)?;
    Ok(census)
}

/// How many of all rows of at most so many cuts that can occur come to what is right, and the first that does not. It takes what a
/// census takes.
/// Promised, also of `Expectation::is_right`: how many are right, and the first that is not (`rights`, `err`, `is_right`).
///
/// # Errors
///
/// `Memory` where an allocation failed.
pub fn take_rights<F: Flash, X: Subject>(
    alloc: Global,
    start: &Start,
    bound: u8,
    chosen: X::Choice,
    expectation: &Expectation,
) -> Result<RightsOf<X::Key>, ExploreError>
    requires { bound ≤ 16 }
    ensures rights { IfOk result (AreRights X.subject expectation.now (begun start.now) chosen
        bound) }
    ensures err { IfErr result (λ e. e ≡ ExploreError.Memory) }
{
    let census = count::<F, X>(alloc, start, bound, chosen, expectation)?;
    Ok(RightsOf {
        right: census.boot,
        first_not_right: census.first_not_boot,
    })
}
