//! The key before another, for an explorer that begins with that one.
ghost use Rattle.std.specs.Prelude.{◌≡◌, ◌≤◌, ◌⊎◌, [], true, IfErr, IfOk, OnOk, option_map};
ghost use Rattle.mc_start.specs.Start.{begun};
ghost use Rattle.mc_explore.specs.inner.Before.{GoesBefore, GoesToLast, IsPathOfKey, place_of};
ghost use Rattle.mc_explore.specs.Subject.{IsPlaceBefore};
ghost use Rattle.mc_walk.specs.Walks.{IsPath};

use crate::boot_row::Cuts;
use crate::error::ExploreError;
use crate::rounds::BootTree;
use crate::subject::Subject;
use crate::tree_loading::load_boots;
use mc_flash::Flash;
use mc_start::{Schedule, Start};
use mc_walk::{FlashTree, Walk};
use std::alloc::{AllocError, Global};

// Goes on to the last of the paths that go on from where a walk stands.
fn go_to_last<F: Flash, B: FlashTree>(walk: &mut Walk<F, B>) -> Result<(), AllocError>
    requires stands { walk.old.stands ≡ true }
    requires listed { IsPath (B.model walk.old.flash_tree) walk.old walk.old.path }
    ensures { OnOk result (GoesToLast (B.model walk.old.flash_tree) walk.old walk.new) }
{
    for _step in 0..walk.bound() {
        let flash_tree = walk.flash_tree();
        let Some(last) = flash_tree.width(walk.summary()).checked_sub(1) else {
            return Ok(());
        };
        if !walk.go_down(last)? {
            return Ok(());
        }
    }
    Ok(())
}

// Goes from the root to the path before one, if that is not the first.
fn go_before<F: Flash, B: FlashTree>(
    walk: &mut Walk<F, B>,
    path: &[u32],
) -> Result<bool, AllocError>
    requires stands { walk.old.stands ≡ true }
    requires root { walk.old.path ≡ [] }
    requires listed { IsPath (B.model walk.old.flash_tree) walk.old path.now }
    ensures { IfOk result (λ went. GoesBefore (B.model walk.old.flash_tree) path.now walk.old went
        walk.new) }
{
    let Some((number, parent)) = path.split_last() else {
        return Ok(false);
    };
    let _there = walk.follow(parent)?;
    let Some(earlier) = number.checked_sub(1) else {
        return Ok(true);
    };
    let _there = walk.go_down(earlier)?;
    go_to_last(walk)?;
    Ok(true)
}

// The path of a key, if it is one of those to go through.
fn path_of<F: Flash, X: Subject>(
    alloc: Global,
    start: &Start,
    bound: u8,
    choice: X::Choice,
    key: &X::Key,
) -> Result<Option<Schedule>, AllocError>
    requires { bound ≤ 16 }
    ensures { IfOk result (IsPathOfKey X.subject X.edge (begun start.now) choice bound key.now) }
{
    let mut walk: Walk<F, BootTree<'_>> = load_boots(alloc, start, X::rounds_of(choice), bound)?;
    walk.begin()?;
    if !X::follow(&mut walk, choice, key)? {
        return Ok(None);
    }
    Ok(Some(Schedule::of(walk.path().as_slice())))
}

/// The key before another, if that is not the first.
///
/// # Errors
///
/// `CannotOccur` where it is none of the keys to go through; `Memory`.
pub(crate) fn key_before<F: Flash, X: Subject>(
    alloc: Global,
    start: &Start,
    bound: u8,
    choice: X::Choice,
    key: &X::Key,
) -> Result<Option<X::Key>, ExploreError>
    requires { bound ≤ 16 }
    ensures found { IfOk result (λ before. IsPlaceBefore X.subject (begun start.now) choice bound
        key.now (place_of before)) }
    ensures err { IfErr result (λ e. (e ≡ ExploreError.Memory) ⊎ ((e ≡ ExploreError.CannotOccur)
        × (X.subject.IsListed (begun start.now) choice bound key.now → ⊥))) }
{
    let Some(path) = path_of::<F, X>(alloc, start, bound, choice, key)? else {
        return Err(ExploreError::CannotOccur);
    };
    let mut walk: Walk<F, BootTree<'_>> = load_boots(alloc, start, X::rounds_of(choice), bound)?;
    walk.begin()?;
    if !go_before(&mut walk, path.cuts())? {
        return Ok(None);
    }
    let before = Schedule::of(walk.path().as_slice());
    let cuts = Cuts::along(&walk, &before);
    Ok(Some(X::key_of(&cuts)))
}
