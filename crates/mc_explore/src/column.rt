//! The censuses of the nodes of a tree of boots: level by level, without going through the rows.
ghost use Rattle.std.specs.Prelude.{◌≡◌, ◌+◌, ◌<◌, length, false, true, IfOk, IfSome, IsErr, OnOk};
ghost use Rattle.mc_boot.specs.Outcome.{shown};
ghost use Rattle.mc_explore.specs.inner.BootEnds.{report_of};
ghost use Rattle.mc_explore.specs.inner.BootTree.{model_of};
ghost use Rattle.mc_explore.specs.inner.Table.{CanPass, HasSameLimits, HasWeights, IsAmong, IsTailHere, PassesAlike, PassesBelow, ReachesChild, paths_of};
ghost use Rattle.mc_walk.specs.Walks.{IsPath};

use crate::census::Census;
use crate::children::go_to_child;
use crate::expectation::Expectation;
use crate::rounds::BootTree;
use crate::table::{Below, Child, add_child, column_of};
use mc_boot::{Outcome, SharedTail};
use mc_flash::Flash;
use mc_walk::{FlashTree, Walk};
use std::alloc::{AllocError, Global};

// Where the nodes below that one lie among those below its parent, if that is known.
fn tail_here<F: Flash>(walk: &Walk<F, BootTree<'_>>) -> Option<SharedTail>
    requires { walk.now.stands ≡ true }
    ensures { IfSome result (IsTailHere model_of report_of walk.now) }
{
    let step = walk.last_step()?;
    let flash_tree = walk.flash_tree();
    flash_tree.shared_tail(walk.flash(), &step.at, &step.parent, walk.summary())
}

// How a path ends, and where the nodes below its end lie among those below the parent, if that is known.
#[derive(Clone, Copy)]
struct End {
    outcome: Outcome,
    tail: Option<SharedTail>,
}

// Goes to that child, and tells how the path ends there.
fn visit_child<F: Flash>(walk: &mut Walk<F, BootTree<'_>>, number: u32) -> Result<End, AllocError>
    requires stands { walk.old.stands ≡ true }
    requires passed { CanPass (model_of walk.old.flash_tree) number walk.old }
    ensures reaches { OnOk result (ReachesChild (model_of walk.old.flash_tree) number walk.old
        walk.new) }
    ensures ended { IfOk result (λ end. shown end.outcome ≡ report_of walk.new.flash_tree
        walk.new.path) }
    ensures tail { IfOk result (λ end. IfSome end.tail (IsTailHere model_of report_of walk.new)) }
    ensures limits { OnOk result (HasSameLimits walk.old walk.new) }
    ensures cause { IsErr result → walk.old.seen.usage.limits.counted ≡ false }
{
    go_to_child(walk, number)?;
    Ok(End {
        outcome: walk.flash_tree().ended(walk.summary()),
        tail: tail_here(walk),
    })
}

// Goes on from the child of that number, of so many in all, over the next ones that surely have its censuses; how many these are.
fn pass_alike<F: Flash>(
    walk: &mut Walk<F, BootTree<'_>>,
    number: u32,
    count: u32,
) -> Result<u32, AllocError>
    requires stands { walk.old.stands ≡ true }
    requires among { IsAmong (model_of walk.old.flash_tree) number count walk.old }
    ensures passes { IfOk result (λ passed. PassesAlike model_of report_of walk.old passed
        walk.new) }
    ensures within { IfOk result (λ passed. number + passed < count) }
    ensures cause { IsErr result → walk.old.seen.usage.limits.counted ≡ false }
{
    let (mut passed, _summary) = walk.pass_twins()?;
    'alike: while let Some(_summary) = walk.next_twin() {
        go_to_child(walk, number + passed + 1)?;
        let (more, _summary) = walk.pass_twins()?;
        passed += 1 + more;
    }
    Ok(passed)
}

// The censuses of the node where a walk stands, for each bound up to that one. The walk passes all that lies below the node. Of a
// child whose boot goes on with that of the node the node's other children are enough; it goes below another one alone.
pub(crate) fn column<F: Flash>(
    alloc: Global,
    walk: &mut Walk<F, BootTree<'_>>,
    bound: u32,
    expectation: &Expectation,
) -> Result<Vec<Census>, AllocError>
    requires stands { walk.old.stands ≡ true }
    requires listed { IsPath (model_of walk.old.flash_tree) walk.old walk.old.path }
    requires deep { length walk.old.path + bound ≡ walk.old.bound }
    ensures column { IfOk result (λ column. HasWeights
        (paths_of (model_of walk.old.flash_tree))
        (report_of walk.old.flash_tree) expectation.now walk.old.path
        (bound + 1) column.items) }
    ensures passes { OnOk result (PassesBelow (model_of walk.old.flash_tree) walk.old walk.new) }
{
    let flash_tree = walk.flash_tree();
    let summary = *walk.summary();
    let own = Census::of(&expectation.judge(&flash_tree.ended(&summary)));
    if bound == 0 {
        return Ok(vec![in alloc; own]?);
    }
    let count = flash_tree.width(&summary);
    let mut runs = Vec::new(alloc);
    let mut number = 0;
    'children: while number < count {
        let end = visit_child(walk, number)?;
        // What lies below the last of those that are alike counts as what lies below the first.
        let passed = pass_alike(walk, number, count)?;
        let below = match end.tail {
            Some(shared_tail) => Below::Joined(shared_tail),
            None => Below::Apart(column(alloc, walk, bound - 1, expectation)?),
        };
        let outcome = expectation.judge(&end.outcome);
        add_child(&mut runs, number, Child { outcome, below })?;
        number += passed + 1;
    }
    Ok(column_of(alloc, own, &runs, count, bound)?)
}
