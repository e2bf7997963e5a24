//! The tree of boots that are cut: a node is what a boot begins with, and its child of a number is what the next one begins with
//! where that boot is cut before its operation of that number.
#![tactic(auto, unfolding(crate::specs::inner::OneRound::one_round))]

use mc_boot::{Boot, Outcome, SharedTail, has_twin, outcome_after, pass_twins};
use mc_flash::Flash;
use mc_start::Start;
use mc_walk::FlashTree;
use std::alloc::AllocError;

/// The summary of a flash: the boot from there, before its first operation, and its outcome where it is not cut.
#[derive(Clone, Copy)]
pub struct Summary {
    pub boot: Boot,
    pub outcome: Outcome,
}

/// The boots from a start, each of which can be cut. Its layout, rules and known images serve for each of them.
#[derive(Clone, Copy)]
pub struct OneRound<'a> {
    pub start: &'a Start,
}

impl<'a> OneRound<'a> {
    ghost use Rattle.std.specs.Prelude.{ℕ, Some, IfOk, IfErr, IfSome, OnOk};
    ghost use Rattle.mc_boot.specs.Boot.{IsCold};
    ghost use Rattle.mc_boot.specs.Plan.{PowerOn, again};
    ghost use Rattle.mc_flash.specs.Usage.{Keeps, Allows, HasRoom, Spends, Stays};
    ghost use Rattle.mc_walk.specs.TreeModel.{HasChild, IsChild, IsChildOf, IsChildSummary};
    ghost use Rattle.mc_explore.specs.inner.OneRound.{begins, one_round, round_model, most_of, BeginsOn, CanPass, CountsAtMost, GoesOnIn, HasRun, IsSummary, LeavesAlike, Passes};

    /// The boot at power-on from a flash. The secondary's image is hashed where it is none that the start is known to hold.
    pub fn boot<F: Flash>(&self, flash: &F) -> Boot
        ensures { IsCold (begins self.now).rules (F.seen flash.now) result }
    {
        Boot::cold_among(flash, self.start.rules(), &self.start.known())
    }

    /// Runs the boot at power-on to its end, and gives the summary of the flash where it began. An image that it leaves is hashed
    /// where it is none that the start is known to hold.
    /// Promised, also of `pass` and `derive`: one round goes from boot to boot (`ran`, `passes`, `summary`, `left`).
    ///
    /// # Errors
    ///
    /// Where the flash was refused memory.
    pub fn run<F: Flash>(&self, flash: &mut F, boot: Boot) -> Result<Summary, AllocError>
        requires begun { BeginsOn (begins self.now) (F.seen flash.old) boot }
        requires room { Allows (most_of (begins self.now)) (F.seen flash.old) }
        ensures ran { let x = again (begins self.now) (F.seen flash.old).content in IfOk result
            (λ summary. HasRun x summary (F.seen flash.new).content) }
        ensures counts { CountsAtMost (most_of (begins self.now)) (F.seen flash.old)
            (F.seen flash.new) }
        ensures spends { Spends (most_of (begins self.now)).entries (F.seen flash.old) result
            (F.seen flash.new) }
    {
        let mut whole = boot;
        whole.finish(flash)?;
        let outcome = whole.outcome_among(flash, &self.start.known());
        Ok(Summary { boot, outcome })
    }

    // The same, and goes back.
    fn run_and_return<F: Flash>(&self, flash: &mut F, boot: Boot) -> Result<Summary, AllocError>
        requires begun { BeginsOn (begins self.now) (F.seen flash.old) boot }
        requires room { HasRoom (most_of (begins self.now)) (F.seen flash.old) }
        ensures summary { IfOk result (IsSummary (again (begins self.now) (F.seen
            flash.old).content)) }
        ensures stays { OnOk result (Stays (F.seen flash.old) (F.seen flash.new)) }
        ensures spends { Spends (most_of (begins self.now)).entries (F.seen flash.old) result
            (F.seen flash.new) }
    {
        let here = flash.mark()?;
        let summary = self.run(flash, boot)?;
        flash.back_to(here);
        Ok(summary)
    }

    /// The summary of a child on its way, where it follows from that of its parent: then the uncut boots of both leave the
    /// same flash. Elsewhere the boot at power-on from the child.
    #[inline]
    pub fn derive<F: Flash>(&self, flash: &F, at: &Boot, parent: &Summary) -> Result<Summary, Boot>
        requires { IsChild (round_model (begins self.now)) at.now parent.now (F.seen flash.now) }
        ensures summary { IfOk result (IsChildSummary (round_model (begins self.now)) at.now
            parent.now (F.seen flash.now)) }
        ensures left { OnOk result (LeavesAlike (begins self.now) at.now parent.now
            (F.seen flash.now)) }
        ensures begun { IfErr result (IsCold (begins self.now).rules (F.seen flash.now)) }
    {
        // Before its first operation a boot has changed nothing.
        if at.count() == 0 {
            return Ok(*parent);
        }
        let boot = self.boot(flash);
        match outcome_after(at, &parent.outcome, &boot) {
            Some(outcome) => Ok(Summary { boot, outcome }),
            None => Err(boot),
        }
    }

    /// Where the flashes below a cut lie among those of the boot that was cut, both with their summaries: the flash stands where that
    /// one left it. Then the uncut boots of both leave the same flash. None where that is not known.
    pub fn tail_of<F: Flash>(
        &self,
        flash: &F,
        at: &Boot,
        _parent: &Summary,
        child: &Summary,
    ) -> Option<SharedTail>
        requires { HasChild (one_round (begins self.now)) at.now _parent.now child.now (F.seen
            flash.now) }
        ensures { IfSome result (λ tail. (x : PowerOn) (i : ℕ)
            → IsChildOf (one_round (begins self.now)) x i at.now _parent.now child.now
            (F.seen flash.now) → GoesOnIn x i tail) }
    {
        SharedTail::find(flash, at, &child.boot)
    }

    /// Makes the operation before which a boot was cut.
    ///
    /// # Errors
    ///
    /// Where the flash was refused memory.
    pub fn pass<F: Flash>(&self, flash: &mut F, at: &mut Boot) -> Result<(), AllocError>
        requires { CanPass (begins self.now) at.old (F.seen flash.old) }
        ensures passes { Passes (begins self.now) at.old (F.seen flash.old) result at.new
            (F.seen flash.new) }
        ensures keeps { OnOk result (Keeps (F.seen flash.old) (F.seen flash.new)) }
        ensures spends { Spends 1 (F.seen flash.old) result (F.seen flash.new) }
    {
        at.step(flash)?;
        Ok(())
    }
}

impl FlashTree for OneRound<'_> {
    ghost use Rattle.mc_boot.specs.Plan.{PowerOn};
    ghost use Rattle.mc_explore.specs.inner.OneRound.{begins, one_round};

    ghost Node = { PowerOn };

    type Child = Boot;

    type Summary = Summary;

    type Label = u32;

    ghost model = { λ o. one_round (begins o) };

    ghost label_of = { λ _ _ number. number };

    fn label(self, at: &Boot) -> u32 {
        at.count()
    }

    fn width(self, summary: &Summary) -> u32 {
        summary.outcome.ops
    }

    fn has_twin<F: Flash>(self, flash: &F, at: &Boot, child: &Summary) -> bool {
        has_twin(flash, at, &child.boot)
    }

    fn first_child<F: Flash>(self, _flash: &mut F, summary: &Summary) -> Result<Boot, AllocError> {
        Ok(summary.boot)
    }

    fn next<F: Flash>(self, flash: &mut F, at: &mut Boot) -> Result<(), AllocError> {
        self.pass(flash, at)
    }

    fn pass_twins<F: Flash>(
        self,
        flash: &mut F,
        at: &mut Boot,
        child: &Summary,
        most: u32,
    ) -> Result<u32, AllocError> {
        let count = pass_twins(flash, at, &child.boot, most)?;
        Ok(count)
    }

    fn root<F: Flash>(self, flash: &mut F) -> Result<Summary, AllocError> {
        let boot = self.boot(flash);
        self.run_and_return(flash, boot)
    }

    #[inline]
    fn child<F: Flash>(
        self,
        flash: &mut F,
        at: &Boot,
        parent: &Summary,
    ) -> Result<Summary, AllocError> {
        match self.derive(flash, at, parent) {
            Ok(summary) => Ok(summary),
            Err(boot) => self.run_and_return(flash, boot),
        }
    }
}
