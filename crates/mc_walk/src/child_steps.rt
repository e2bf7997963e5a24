//! From a node to one of its children.
ghost use Rattle.std.specs.Prelude.{◌≡◌, ◌+◌, ◌*◌, length, OnOk};
ghost use Rattle.mc_flash.specs.Usage.{Keeps, Spends};
ghost use Rattle.mc_walk.specs.TreeModel.{CanReach, Reaches, IsParent};

use crate::FlashTree;
use crate::frame::Frame;
use mc_flash::Flash;
use std::alloc::AllocError;

/// The summary of the node at the end of a path, where the path may be longer and that node has a child of that number.
pub(crate) fn parent<B: FlashTree>(
    flash_tree: B,
    bound: usize,
    frames: &[Frame<B::Child, B::Summary>],
    summary: Option<B::Summary>,
    number: u32,
) -> Option<B::Summary>
    ensures { IsParent (B.model flash_tree) number bound (length frames.now) summary result }
{
    if frames.len() >= bound {
        return None;
    }
    let summary = summary?;
    if number >= flash_tree.width(&summary) {
        return None;
    }
    Some(summary)
}

/// Goes from a node, with that summary, to its child of that number.
pub(crate) fn go_to_child<F: Flash, B: FlashTree>(
    flash_tree: B,
    flash: &mut F,
    summary: &B::Summary,
    number: u32,
) -> Result<B::Child, AllocError>
    requires { CanReach (B.model flash_tree) number summary.now (F.seen flash.old) }
    ensures reaches { Reaches (B.model flash_tree) number summary.now (F.seen flash.old) result
        (F.seen flash.new) }
    ensures keeps { OnOk result (Keeps (F.seen flash.old) (F.seen flash.new)) }
    ensures spends { Spends ((number + 1) * (B.model flash_tree).step) (F.seen flash.old) result
        (F.seen flash.new) }
{
    let mut at = flash_tree.first_child(flash, summary)?;
    for _i in 0..number {
        flash_tree.next(flash, &mut at)?;
    }
    Ok(at)
}
