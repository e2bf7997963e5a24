//! A tree for tests: the boots from a start, each of them run for its outcome, which no other's is derived from.
#![tactic(auto, unfolding(mc_explore::specs::inner::OneRound::one_round))]

use mc_boot::Boot;
use mc_explore::{OneRound, Summary};
use mc_flash::Flash;
use mc_walk::FlashTree;
use std::alloc::AllocError;

/// The boots from a start.
#[derive(Clone, Copy)]
pub struct Plain<'a> {
    pub boots: OneRound<'a>,
}

impl FlashTree for Plain<'_> {
    ghost use Rattle.mc_boot.specs.Plan.{PowerOn};
    ghost use Rattle.mc_explore.specs.inner.OneRound.{begins, one_round};

    ghost Node = { PowerOn };

    type Child = Boot;

    type Summary = Summary;

    type Label = u32;

    ghost model = { λ p. one_round (begins p.boots) };

    ghost label_of = { λ _ _ number. number };

    fn label(self, at: &Boot) -> u32 {
        self.boots.label(at)
    }

    fn width(self, summary: &Summary) -> u32 {
        self.boots.width(summary)
    }

    fn has_twin<F: Flash>(self, _flash: &F, _at: &Boot, _child: &Summary) -> bool {
        false
    }

    fn pass_twins<F: Flash>(
        self,
        _flash: &mut F,
        _at: &mut Boot,
        _child: &Summary,
        _most: u32,
    ) -> Result<u32, AllocError> {
        Ok(0)
    }

    fn first_child<F: Flash>(self, flash: &mut F, summary: &Summary) -> Result<Boot, AllocError> {
        self.boots.first_child(flash, summary)
    }

    fn next<F: Flash>(self, flash: &mut F, at: &mut Boot) -> Result<(), AllocError> {
        self.boots.next(flash, at)
    }

    fn root<F: Flash>(self, flash: &mut F) -> Result<Summary, AllocError> {
        self.boots.root(flash)
    }

    fn child<F: Flash>(
        self,
        flash: &mut F,
        _at: &Boot,
        _parent: &Summary,
    ) -> Result<Summary, AllocError> {
        let boot = self.boots.boot(flash);
        let here = flash.mark()?;
        let summary = self.boots.run(flash, boot)?;
        flash.back_to(here);
        Ok(summary)
    }
}
