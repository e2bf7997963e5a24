//! The children of a node, one after another.
ghost use Rattle.std.specs.Prelude.{◌≡◌, false, true, IsErr, OnOk};
ghost use Rattle.mc_explore.specs.inner.Table.{CanPass, HasSameLimits, ReachesChild};

use mc_flash::Flash;
use mc_walk::{FlashTree, Walk};
use std::alloc::AllocError;

/// Goes to the child of that number of a node, where the walk has passed those before it.
///
/// # Errors
///
/// Where the flash was refused memory, which one that counts never is.
pub fn go_to_child<F: Flash, B: FlashTree>(
    walk: &mut Walk<F, B>,
    number: u32,
) -> Result<(), AllocError>
    requires stands { walk.old.stands ≡ true }
    requires passed { CanPass (B.model walk.old.flash_tree) number walk.old }
    ensures reaches { OnOk result (ReachesChild (B.model walk.old.flash_tree) number walk.old
        walk.new) }
    ensures limits { OnOk result (HasSameLimits walk.old walk.new) }
    ensures cause { IsErr result → walk.old.seen.usage.limits.counted ≡ false }
{
    if number == 0 {
        walk.go_down(0)?;
    } else {
        walk.climb()?;
    }
    Ok(())
}
