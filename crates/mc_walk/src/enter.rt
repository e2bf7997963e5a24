//! To a child: one level down, and from one child to the next.
ghost use Rattle.std.specs.Prelude.{◌≡◌, ◌+◌, ◌≤◌, ◌++◌, [], ◌∷◌, true, IfOk, IsSomeAnd, OnErr, OnOk};
ghost use Rattle.std.specs.Vec.{vec_capacity};
ghost use Rattle.mc_flash.specs.Usage.{RanOut, Spends};
ghost use Rattle.mc_walk.specs.TreeModel.{summary_cost};
ghost use Rattle.mc_walk.specs.inner.Stack.{CanGoOn, CanPass, Enters, HasGoneOn, HasPassed, IsOneOn, IsTwinOn, Stands};

use crate::FlashTree;
use crate::frame::Frame;
use mc_flash::Flash;
use std::alloc::AllocError;

/// Marks the flash at a child and puts its frame on the others, and gives its summary.
#[inline]
pub(crate) fn enter<F: Flash, B: FlashTree>(
    flash_tree: B,
    flash: &mut F,
    frames: &mut Vec<Frame<B::Child, B::Summary>>,
    frame: Frame<B::Child, B::Summary>,
) -> Result<B::Summary, AllocError>
    requires { Enters (B.model flash_tree) (F.seen flash.old)
        frames.old.items (vec_capacity frames.old) frame }
    ensures stands { IfOk result (Stands (B.model flash_tree)
        (F.seen flash.new) frames.new.items) }
    ensures frames { OnOk result (frames.new.items ≡ frames.old.items ++ frame ∷ []) }
    ensures capacity { vec_capacity frames.old ≤ vec_capacity frames.new }
    ensures spends { Spends (summary_cost (B.model flash_tree)) (F.seen flash.old) result
        (F.seen flash.new) }
{
    flash.mark()?;
    frames.push(frame)?;
    flash_tree.child(flash, &frame.at, &frame.parent)
}

/// Whether the next child of the node before the last frame surely is a twin of the child where a walk stands, which has that
/// summary.
#[inline(always)]
pub(crate) fn twin_of<F: Flash, B: FlashTree>(
    flash_tree: B,
    flash: &F,
    frames: &[Frame<B::Child, B::Summary>],
    summary: &Option<B::Summary>,
) -> bool
    ensures { result ≡ true → IsSomeAnd summary.now (IsTwinOn (B.model flash_tree)
        (F.seen flash.now) frames.now summary.now) }
{
    let Some(frame) = frames.last() else {
        return false;
    };
    let Some(summary) = summary else {
        return false;
    };
    let last = flash_tree.width(&frame.parent).saturating_sub(1);
    if last <= frame.number {
        return false;
    }
    flash_tree.has_twin(flash, &frame.at, summary)
}

/// Goes from the child of the last frame on to the next one, and marks the flash there.
#[inline]
pub(crate) fn next_child<F: Flash, B: FlashTree>(
    flash_tree: B,
    flash: &mut F,
    frames: &mut Vec<Frame<B::Child, B::Summary>>,
) -> Result<(), AllocError>
    requires { CanGoOn (B.model flash_tree) (F.seen flash.old) frames.old.items }
    ensures goes { OnOk result (HasGoneOn (B.model flash_tree) frames.old.items
        (F.seen flash.new) frames.new.items) }
    ensures capacity { vec_capacity frames.new ≡ vec_capacity frames.old }
    ensures spends { Spends (B.model flash_tree).step (F.seen flash.old) result
        (F.seen flash.new) }
{
    let end = frames.len() - 1;
    let last = &mut frames[end];
    flash_tree.next(flash, &mut last.at)?;
    last.number += 1;
    flash.mark()?;
    Ok(())
}

/// Goes from the child of the last frame on to the next one, marks the flash there, and gives its summary.
#[inline]
pub(crate) fn next_sibling<F: Flash, B: FlashTree>(
    flash_tree: B,
    flash: &mut F,
    frames: &mut Vec<Frame<B::Child, B::Summary>>,
) -> Result<B::Summary, AllocError>
    requires { CanGoOn (B.model flash_tree) (F.seen flash.old) frames.old.items }
    ensures stands { IfOk result (Stands (B.model flash_tree)
        (F.seen flash.new) frames.new.items) }
    ensures frames { OnOk result (IsOneOn frames.old.items frames.new.items) }
    ensures capacity { vec_capacity frames.new ≡ vec_capacity frames.old }
    ensures spends { Spends ((B.model flash_tree).step + summary_cost (B.model flash_tree))
        (F.seen flash.old) result (F.seen flash.new) }
{
    next_child(flash_tree, flash, frames)?;
    let end = frames.len() - 1;
    let last = &frames[end];
    flash_tree.child(flash, &last.at, &last.parent)
}

/// Goes from the child of the last frame, which has that summary, on over next ones that surely are twins of it, marks the flash at the
/// last of them, and gives how many these are.
#[inline]
pub(crate) fn pass_siblings<F: Flash, B: FlashTree>(
    flash_tree: B,
    flash: &mut F,
    frames: &mut Vec<Frame<B::Child, B::Summary>>,
    summary: &B::Summary,
) -> Result<u32, AllocError>
    requires { CanPass (B.model flash_tree) (F.seen flash.old) frames.old.items summary.now }
    ensures passes { IfOk result (λ count. HasPassed (B.model flash_tree) (F.seen flash.old)
        frames.old.items summary.now count (F.seen flash.new) frames.new.items) }
    ensures capacity { vec_capacity frames.new ≡ vec_capacity frames.old }
    ensures out { OnErr result (RanOut (F.seen flash.old) (F.seen flash.new)) }
{
    let end = frames.len() - 1;
    let last = &mut frames[end];
    let most = flash_tree
        .width(&last.parent)
        .saturating_sub(1)
        .saturating_sub(last.number);
    let count = flash_tree.pass_twins(flash, &mut last.at, summary, most)?;
    last.number += count;
    flash.mark()?;
    Ok(count)
}
