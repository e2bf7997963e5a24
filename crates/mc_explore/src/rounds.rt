//! One round of boots, or two, one after the other: what a tree of boots is made of.
ghost use Rattle.std.specs.Prelude.{◌≡◌, IfOk, OnOk};
ghost use Rattle.mc_explore.specs.Rounds.{number_of};
ghost use Rattle.mc_explore.specs.inner.BootTree.{confirms_of};
ghost use Rattle.mc_tree.specs.Tree.{round_one};
ghost use Rattle.mc_flash.specs.Usage.{no_counts, Keeps, Allows, HasRoom, LeaveRoom, Spends, Stays, plus};
ghost use Rattle.mc_boot.specs.Restart.{confirmed_if, one_write};

use crate::one_round::{OneRound, Summary};
use mc_boot::{Boot, confirm};
use mc_flash::Flash;
use std::alloc::AllocError;

/// One of two rounds of boots.
#[derive(Clone, Copy, Debug, PartialEq, Eq)]
pub enum Round {
    First,
    Second,
}

impl Round {
    /// 1 or 2.
    pub fn number(self) -> u8
        ensures { result ≡ number_of self }
    {
        match self {
            Round::First => 1,
            Round::Second => 2,
        }
    }
}

/// How many rounds of boots there are. Between two the image may confirm itself.
#[derive(Clone, Copy, Debug, PartialEq, Eq)]
pub enum Rounds {
    One,
    Two { confirms: bool },
}

impl Rounds {
    ghost use Rattle.std.specs.Prelude.{◌≡◌};
    ghost use Rattle.mc_explore.specs.Rounds.{more_of};
    ghost use Rattle.mc_explore.specs.inner.BootTree.{confirms_of};

    /// How many rounds they are.
    pub fn count(self) -> u64 {
        match self {
            Rounds::One => 1,
            Rounds::Two { .. } => 2,
        }
    }

    /// For how many boots more than there are cuts a flash is loaded.
    pub fn more(self) -> u32
        ensures { result ≡ more_of self }
    {
        match self {
            Rounds::One => 1,
            Rounds::Two { .. } => 3,
        }
    }

    /// Whether the image confirms itself after the first round, if there is one.
    pub fn confirms(self) -> bool
        ensures { result ≡ confirms_of self }
    {
        match self {
            Rounds::One => false,
            Rounds::Two { confirms } => confirms,
        }
    }
}

/// The boots from a start, each of which can be cut, in one round or in two. One round goes as the second of two.
#[derive(Clone, Copy)]
pub struct BootTree<'a> {
    pub one_round: OneRound<'a>,
    pub rounds: Rounds,
}

/// The summary of a node of two rounds: of the last boot of the first round, and of the boot of the second. In the first
/// round that is the one with which the second begins.
#[derive(Clone, Copy)]
pub struct Both {
    pub round: Round,
    pub first: Summary,
    pub second: Summary,
}

impl Both {
    ghost use Rattle.std.specs.Prelude.{◌≡◌};
    ghost use Rattle.mc_boot.specs.Plan.{PowerOn};
    ghost use Rattle.mc_explore.specs.declared.rounds.Rounds.{Rounds as Kinds};
    ghost use Rattle.mc_explore.specs.inner.BootTree.{AreSummaries, first_width};
    ghost use Rattle.mc_tree.specs.Tree.{RoundNode};

    /// How many children of the node lie in the first round.
    pub fn first_width(&self) -> u32
        ensures { (start : PowerOn) (rounds : Kinds) (p : RoundNode PowerOn)
            → AreSummaries start rounds p self.now → result ≡ first_width p }
    {
        match self.round {
            Round::First => self.first.outcome.ops,
            Round::Second => 0,
        }
    }
}

/// A child on its way from a node.
#[derive(Clone, Copy)]
pub enum ChildBoot {
    /// In the first round: the boot at its cut, how many operations it makes uncut, and the summary of the second round
    /// after it.
    First {
        boot: Boot,
        ops: u32,
        later: Summary,
    },
    /// In the second round: the boot at its cut.
    Second(Boot),
}

/// From one round to the next: the image confirms itself, or the flash stays as it is.
///
/// # Errors
///
/// Where the flash was refused memory.
pub(crate) fn go_between<F: Flash>(rounds: Rounds, flash: &mut F) -> Result<(), AllocError>
    ensures content { OnOk result ((F.seen flash.new).content ≡ confirmed_if (confirms_of rounds)
        (F.seen flash.old).geometry (F.seen flash.old).content) }
    ensures keeps { Keeps (F.seen flash.old) (F.seen flash.new) }
    ensures counts { LeaveRoom (F.seen flash.new).usage.counts no_counts
        (plus (F.seen flash.old).usage.counts one_write) }
    ensures spends { Allows one_write (F.seen flash.old)
        → Spends 1 (F.seen flash.old) result (F.seen flash.new) }
{
    if rounds.confirms() {
        confirm(flash)?;
    }
    Ok(())
}

impl BootTree<'_> {
    ghost use Rattle.mc_boot.specs.Plan.{again};
    ghost use Rattle.mc_explore.specs.inner.OneRound.{BeginsOn, begins};
    ghost use Rattle.mc_explore.specs.inner.BootTree.{AreSummaries, HasFirst, most_of_both};

    // Runs the boot at power-on to its end, and then that of the second round.
    fn run<F: Flash>(&self, flash: &mut F, boot: Boot) -> Result<Both, AllocError>
        requires two { HasFirst self.now.rounds }
        requires begun { BeginsOn (begins self.now.one_round) (F.seen flash.old) boot }
        requires room { Allows (most_of_both (begins self.now.one_round)) (F.seen flash.old) }
        ensures summary { let start = begins self.now.one_round in IfOk result (AreSummaries start
            self.now.rounds (round_one (again start (F.seen flash.old).content))) }
        ensures keeps { Keeps (F.seen flash.old) (F.seen flash.new) }
        ensures spends { Spends (most_of_both (begins self.now.one_round)).entries
            (F.seen flash.old) result (F.seen flash.new) }
    {
        let first = self.one_round.run(flash, boot)?;
        go_between(self.rounds, flash)?;
        let then = self.one_round.boot(flash);
        let second = self.one_round.run(flash, then)?;
        Ok(Both {
            round: Round::First,
            first,
            second,
        })
    }

    /// The same, and goes back.
    pub(crate) fn run_and_return<F: Flash>(
        &self,
        flash: &mut F,
        boot: Boot,
    ) -> Result<Both, AllocError>
        requires two { HasFirst self.now.rounds }
        requires begun { BeginsOn (begins self.now.one_round) (F.seen flash.old) boot }
        requires room { HasRoom (most_of_both (begins self.now.one_round)) (F.seen flash.old) }
        ensures summary { let start = begins self.now.one_round in IfOk result (AreSummaries start
            self.now.rounds (round_one (again start (F.seen flash.old).content))) }
        ensures stays { OnOk result (Stays (F.seen flash.old) (F.seen flash.new)) }
        ensures spends { Spends (most_of_both (begins self.now.one_round)).entries
            (F.seen flash.old) result (F.seen flash.new) }
    {
        let here = flash.mark()?;
        let both = self.run(flash, boot)?;
        flash.back_to(here);
        Ok(both)
    }
}
