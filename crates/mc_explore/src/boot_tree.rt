//! The tree of one round of boots or of two: a node lies in one of them, and its children are those of its round, and in the first round
//! then those of the second round that begins after it.
#![tactic(auto, unfolding(crate::specs::inner::BootTree::model_of, crate::specs::inner::OneRound::one_round))]

use crate::rounds::{BootTree, Both, ChildBoot, Round, Rounds, go_between};
use mc_flash::Flash;
use mc_walk::FlashTree;
use std::alloc::AllocError;

impl FlashTree for BootTree<'_> {
    ghost use Rattle.mc_tree.specs.Tree.{RoundNode};
    ghost use Rattle.mc_boot.specs.Plan.{PowerOn};
    ghost use Rattle.mc_explore.specs.inner.BootTree.{model_of};

    ghost Node = { RoundNode PowerOn };

    type Child = ChildBoot;

    type Summary = Both;

    /// The number of a round, and a cut there.
    type Label = (u8, u32);

    ghost use Rattle.mc_tree.specs.Tree as trees;
    ghost use Rattle.mc_explore.specs.Boots.{boots};
    ghost use Rattle.mc_explore.specs.Rounds.{second_start};
    ghost use Rattle.mc_explore.specs.inner.BootTree.{confirms_of};

    ghost model = { model_of };

    ghost label_of = { λ t node number. trees.label boots (second_start (confirms_of t.rounds))
        node number };

    fn label(self, at: &ChildBoot) -> (u8, u32) {
        match at {
            ChildBoot::First { boot, .. } => (Round::First.number(), boot.count()),
            ChildBoot::Second(boot) => (Round::Second.number(), boot.count()),
        }
    }

    /// How many children a node has.
    /// Promised, also of `first_child`, `next`, `root` and `child`: boots in one round or two are a tree (`model_of`, `tree_of`).
    fn width(self, summary: &Both) -> u32 {
        // Reading a field gives the prover that it is a layout, so that the sum is small.
        let _sector = self.one_round.start.layout().sector();
        match summary.round {
            Round::First => summary
                .first
                .outcome
                .ops
                .saturating_add(summary.second.outcome.ops),
            Round::Second => summary.second.outcome.ops,
        }
    }

    // Twins of the first round are not looked for.
    fn has_twin<F: Flash>(self, flash: &F, at: &ChildBoot, child: &Both) -> bool {
        match at {
            ChildBoot::First { .. } => false,
            ChildBoot::Second(boot) => self.one_round.has_twin(flash, boot, &child.second),
        }
    }

    fn pass_twins<F: Flash>(
        self,
        flash: &mut F,
        at: &mut ChildBoot,
        child: &Both,
        most: u32,
    ) -> Result<u32, AllocError> {
        match *at {
            ChildBoot::First { .. } => Ok(0),
            ChildBoot::Second(mut boot) => {
                let count = self
                    .one_round
                    .pass_twins(flash, &mut boot, &child.second, most)?;
                *at = ChildBoot::Second(boot);
                Ok(count)
            }
        }
    }

    fn first_child<F: Flash>(self, flash: &mut F, summary: &Both) -> Result<ChildBoot, AllocError> {
        let later = summary.second;
        match summary.round {
            Round::First => {
                let ops = summary.first.outcome.ops;
                if ops > 0 {
                    let boot = summary.first.boot;
                    return Ok(ChildBoot::First { boot, ops, later });
                }
                go_between(self.rounds, flash)?;
                Ok(ChildBoot::Second(later.boot))
            }
            Round::Second => Ok(ChildBoot::Second(later.boot)),
        }
    }

    fn next<F: Flash>(self, flash: &mut F, at: &mut ChildBoot) -> Result<(), AllocError> {
        match *at {
            ChildBoot::First {
                mut boot,
                ops,
                later,
            } => {
                self.one_round.pass(flash, &mut boot)?;
                if boot.count() < ops {
                    *at = ChildBoot::First { boot, ops, later };
                    return Ok(());
                }
                go_between(self.rounds, flash)?;
                *at = ChildBoot::Second(later.boot);
                Ok(())
            }
            ChildBoot::Second(mut boot) => {
                self.one_round.pass(flash, &mut boot)?;
                *at = ChildBoot::Second(boot);
                Ok(())
            }
        }
    }

    fn root<F: Flash>(self, flash: &mut F) -> Result<Both, AllocError> {
        match self.rounds {
            Rounds::One => {
                let second = self.one_round.root(flash)?;
                let first = second;
                Ok(Both {
                    round: Round::Second,
                    first,
                    second,
                })
            }
            Rounds::Two { .. } => {
                let boot = self.one_round.boot(flash);
                self.run_and_return(flash, boot)
            }
        }
    }

    fn child<F: Flash>(
        self,
        flash: &mut F,
        at: &ChildBoot,
        parent: &Both,
    ) -> Result<Both, AllocError> {
        match at {
            ChildBoot::First { boot, .. } => match self
                .one_round
                .derive(flash, boot, &parent.first)
            {
                Ok(first) => Ok(Both {
                    round: Round::First,
                    first,
                    second: parent.second,
                }),
                Err(boot) => self.run_and_return(flash, boot),
            },
            ChildBoot::Second(boot) => {
                let second = self.one_round.child(flash, boot, &parent.second)?;
                Ok(Both {
                    round: Round::Second,
                    first: parent.first,
                    second,
                })
            }
        }
    }
}
