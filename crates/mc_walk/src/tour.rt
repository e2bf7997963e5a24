//! The nodes of a tree, one after another.
ghost use Rattle.std.specs.Prelude.{◌≡◌, ℕ, List, true, IfOk};
ghost use Rattle.mc_tree.specs.Tree.{Position};
ghost use Rattle.mc_walk.specs.Walks.{Toured, StandsAt, StandsBeyond, Visits, Costs, IsFresh};

use crate::{FlashTree, Walk};
use mc_flash::Flash;
use std::alloc::AllocError;
use std::marker::Model;

/// How a tour stands with its walk.
#[derive(Clone, Copy, Debug, PartialEq, Eq)]
pub enum Phase {
    /// It visited no node yet.
    Fresh,
    /// The walk stands at the node that it visited last.
    Going,
    /// There is no further node.
    Done,
    /// It failed, and the walk is in disorder.
    Broken,
}

/// Why a tour gives up.
#[derive(Clone, Copy, Debug, PartialEq, Eq)]
pub enum TourError {
    /// The flash was refused memory. The tour has failed then.
    Memory,
    /// The tour failed before.
    Failed,
}

impl From<AllocError> for TourError {
    ghost use Rattle.mc_walk.specs.declared.tour.TourError.TheVariants.{Memory};

    ghost from_gives = { λ _ e. e ≡ Memory };

    fn from(_: AllocError) -> Self {
        TourError::Memory
    }
}

/// Visits the nodes of a tree in the order of their paths, over one flash.
#[derive(Drop)]
pub struct Tour<F: Flash, B: FlashTree> {
    walk: Walk<F, B>,
    phase: Phase,
}

impl<F: Flash, B: FlashTree> Model for Tour<F, B> {
    ghost use Rattle.mc_walk.specs.Walks.{Toured, IsInOrder};

    ghost Value = { Toured B };

    ghost view = { λ t. record { walk = t.walk; phase = t.phase } };

    ghost invariant = { λ t. IsInOrder (B.model t.walk.flash_tree) t.phase t.walk };
}

impl<F: Flash, B: FlashTree> Tour<F, B> {
    /// A tour that begins at the root.
    pub fn fresh(walk: Walk<F, B>) -> Tour<F, B>
        requires { IsFresh (B.model walk.flash_tree) walk }
        ensures { result ≡ record { walk = walk; phase = Phase.Fresh } }
    {
        Tour {
            walk,
            phase: Phase::Fresh,
        }
    }

    /// A tour that goes on after the node at which a walk stands.
    pub fn after(walk: Walk<F, B>) -> Tour<F, B>
        requires { walk.stands ≡ true }
        ensures { result ≡ record { walk = walk; phase = Phase.Going } }
    {
        Tour {
            walk,
            phase: Phase::Going,
        }
    }

    /// Goes on to the next node, if there is one, and returns whether there is.
    /// Promised, also of `leave`: a tour visits or skips; an error is final (`visits`, `costs`).
    ///
    /// # Errors
    ///
    /// `Memory` where the flash was refused memory; from then on always `Failed`.
    pub fn visit(&mut self) -> Result<bool, TourError>
        ensures visits { IfOk result (λ went. (position : Position (List ℕ))
            → StandsAt (B.model self.old.walk.flash_tree) self.old position
            → Visits (B.model self.old.walk.flash_tree) self.old position went self.new) }
        ensures costs { Costs (B.model self.old.walk.flash_tree) self.old result self.new }
    {
        match self.phase {
            Phase::Broken => Err(TourError::Failed),
            Phase::Done => Ok(false),
            Phase::Fresh => {
                self.phase = Phase::Broken;
                self.walk.begin()?;
                self.phase = Phase::Going;
                Ok(true)
            }
            Phase::Going => {
                self.phase = Phase::Broken;
                if !self.walk.advance()? {
                    self.phase = Phase::Done;
                    return Ok(false);
                }
                self.phase = Phase::Going;
                Ok(true)
            }
        }
    }

    /// Goes on to the next node after all children of the one at which it stands, where those have none, if there is one, and
    /// returns whether there is.
    ///
    /// # Errors
    ///
    /// `Memory` where the flash was refused memory; from then on always `Failed`.
    pub fn leave(&mut self) -> Result<bool, TourError>
        ensures visits { IfOk result (λ went. (position : Position (List ℕ))
            → StandsBeyond (B.model self.old.walk.flash_tree) self.old position
            → Visits (B.model self.old.walk.flash_tree) self.old position went self.new) }
        ensures costs { Costs (B.model self.old.walk.flash_tree) self.old result self.new }
    {
        match self.phase {
            Phase::Going => {},
            Phase::Fresh | Phase::Done => return Ok(false),
            Phase::Broken => return Err(TourError::Failed),
        }
        self.phase = Phase::Broken;
        if !self.walk.climb()? {
            self.phase = Phase::Done;
            return Ok(false);
        }
        self.phase = Phase::Going;
        Ok(true)
    }

    /// The walk as it is.
    pub fn walk(&self) -> &Walk<F, B>
        ensures { result.now ≡ self.now.walk }
    {
        &self.walk
    }

    /// Makes it one that failed.
    pub fn mark_failed(&mut self)
        ensures { self.new ≡ record { walk = self.old.walk; phase = Phase.Broken } }
    {
        self.phase = Phase::Broken;
    }
}
