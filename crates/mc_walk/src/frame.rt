//! The children on the way to the node at which a walk stands.
ghost use Rattle.std.specs.Prelude.{◌≡◌};
ghost use Rattle.std.specs.Vec.{vec_capacity};
ghost use Rattle.mc_walk.specs.inner.Stack.{LeavesOpen};

use crate::FlashTree;

/// A child on its way, as it was when the flash was marked there, with its number and with the summary of its parent. Its
/// checkpoint is the one after those of the frames below it and of the root.
#[derive(Clone, Copy)]
pub struct Frame<A, T> {
    pub at: A,
    pub number: u32,
    pub parent: T,
}

/// Takes frames off, up to the last whose parent has one child more, which stays. Returns whether there is one.
pub(crate) fn leave_spent<B: FlashTree>(
    flash_tree: B,
    frames: &mut Vec<Frame<B::Child, B::Summary>>,
) -> bool
    ensures capacity { vec_capacity frames.new ≡ vec_capacity frames.old }
    ensures left { LeavesOpen (B.model flash_tree) frames.old.items result frames.new.items }
{
    while let Some(frame) = frames.last() {
        let last = flash_tree.width(&frame.parent).saturating_sub(1);
        if frame.number < last {
            return true;
        }
        frames.pop();
    }
    false
}
