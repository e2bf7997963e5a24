//! How the boots of a tree end, and where the nodes below a child lie among those below its parent.
#![tactic(auto, unfolding(crate::specs::inner::BootTree::model_of, crate::specs::inner::OneRound::one_round))]

ghost use Rattle.std.specs.Prelude.{◌≡◌};
ghost use Rattle.mc_boot.specs.Outcome.{shown};
ghost use Rattle.mc_explore.specs.inner.BootEnds.{ends_by};

use crate::boot_row::Ends;
use crate::rounds::{BootTree, Both, ChildBoot, Round, Rounds};
use mc_boot::{BootResult, Outcome, SharedTail};
use mc_flash::Flash;

// How the rounds end: as the last does; but where a first does not end in a boot, with its result.
fn end_by(rounds: Rounds, first: &Outcome, last: &Outcome) -> Outcome
    ensures { shown result ≡ ends_by rounds (shown first.now) (shown last.now) }
{
    let result = match rounds {
        Rounds::One => last.result,
        Rounds::Two { .. } => match first.result {
            BootResult::Boot => last.result,
            failed => failed,
        },
    };
    Outcome { result, ..*last }
}

impl BootTree<'_> {
    ghost use Rattle.std.specs.Prelude.{◌≡◌, ℕ, List, IfSome};
    ghost use Rattle.mc_boot.specs.Outcome.{shown};
    ghost use Rattle.mc_boot.specs.Plan.{PowerOn};
    ghost use Rattle.mc_explore.specs.declared.expectation.Expectation.{Expectation};
    ghost use Rattle.mc_explore.specs.inner.BootEnds.{LieIn, report_of};
    ghost use Rattle.mc_explore.specs.Rounds.{tree_of};
    ghost use Rattle.mc_explore.specs.inner.BootRows.{HoldsEnds};
    ghost use Rattle.mc_explore.specs.inner.BootTree.{confirms_of, model_of};
    ghost use Rattle.mc_explore.specs.inner.Table.{IsTailOf, paths_of};
    ghost use Rattle.mc_tree.specs.Tree.{RoundNode, landed};
    ghost use Rattle.mc_walk.specs.TreeModel.{HasChild, IsChildOf};

    /// Where the nodes below a child lie among those below its parent, but for how the first round ended: the flash stands at the child.
    // A child of the first round leaves the same flash as its parent, where its boot goes on with that of the parent.
    pub fn tail_of<F: Flash>(
        &self,
        flash: &F,
        at: &ChildBoot,
        parent: &Both,
        child: &Both,
    ) -> Option<SharedTail>
        requires { HasChild (model_of self.now) at.now parent.now child.now (F.seen flash.now) }
        ensures { IfSome result (λ tail. (p : RoundNode PowerOn) (i : ℕ)
            → IsChildOf (model_of self.now) p i at.now parent.now child.now (F.seen flash.now)
            → LieIn (confirms_of self.now.rounds) p ((tree_of (confirms_of self.now.rounds)).child
            p i) tail) }
    {
        match at {
            ChildBoot::First { boot, .. } => {
                self.one_round
                    .tail_of(flash, boot, &parent.first, &child.first)
            }
            ChildBoot::Second(boot) => {
                let tail = self
                    .one_round
                    .tail_of(flash, boot, &parent.second, &child.second)?;
                match parent.round {
                    Round::First => tail.moved_by(parent.first.outcome.ops),
                    Round::Second => Some(tail),
                }
            }
        }
    }

    /// How the rounds end at a node with that summary.
    pub(crate) fn ends(&self, summary: &Both) -> Ends
        ensures { (p : RoundNode PowerOn) → (model_of self.now).IsSummary p summary.now
            → HoldsEnds self.now.rounds p result }
    {
        let first = match self.rounds {
            Rounds::One => None,
            Rounds::Two { .. } => Some(summary.first.outcome),
        };
        Ends {
            first,
            last: summary.second.outcome,
        }
    }

    /// How a path ends that leads to a node with that summary.
    pub(crate) fn ended(&self, summary: &Both) -> Outcome
        ensures { (path : List ℕ) → (model_of self.now).IsSummary
            (landed (model_of self.now).tree (model_of self.now).root path) summary.now
            → shown result ≡ report_of self.now path }
    {
        end_by(self.rounds, &summary.first.outcome, &summary.second.outcome)
    }

    /// Where the nodes below a child lie among those below its parent, both with their summaries: the flash stands at the child.
    // The nodes of the second round count as those of the parent do where the first rounds have the same result.
    pub(crate) fn shared_tail<F: Flash>(
        &self,
        flash: &F,
        at: &ChildBoot,
        parent: &Both,
        child: &Both,
    ) -> Option<SharedTail>
        requires { HasChild (model_of self.now) at.now parent.now child.now (F.seen flash.now) }
        ensures { IfSome result (λ x. (e : Expectation) (path : List ℕ) (i : ℕ)
            → IsChildOf (model_of self.now) (landed (model_of self.now).tree
            (model_of self.now).root path) i at.now parent.now child.now (F.seen flash.now)
            → IsTailOf (paths_of (model_of self.now)) (report_of self.now) e path i x) }
    {
        if child.first.outcome.result != parent.first.outcome.result {
            return None;
        }
        self.tail_of(flash, at, parent, child)
    }
}
