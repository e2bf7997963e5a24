//! A walk through a tree.
ghost use Rattle.std.specs.Prelude.{◌≡◌, ◌≤◌, [], None, is_some, IfOk, IfSome, OnErr, true, false};
ghost use Rattle.std.specs.List.{slice_get};
ghost use Rattle.mc_tree.specs.Tree.{labelled};
ghost use Rattle.mc_flash.specs.Usage.{RanOut, Spends, Spent};
ghost use Rattle.mc_walk.specs.TreeModel.{summary_cost};
ghost use Rattle.mc_walk.specs.Walks.{IsClear, IsFresh, IsOf, Begins, GoesDown, Climbs, HasPassedTwins, Advances, Follows, IsThere, IsBeforeTwin, IsLastStep, child_cost, path_cost};

use crate::FlashTree;
use crate::child_steps::{go_to_child, parent};
use crate::enter::{enter, next_child, next_sibling, pass_siblings, twin_of};
use crate::frame::{Frame, leave_spent};
use arrayvec::ArrayVec;
use mc_flash::Flash;
use std::alloc::{AllocError, Global};
use std::marker::Model;

/// A walk depth first through a tree, over one flash. It takes its own memory at the start, and none later but through the
/// flash.
#[derive(Drop)]
pub struct Walk<F: Flash, B: FlashTree> {
    flash_tree: B,
    bound: usize,
    flash: F,
    frames: Vec<Frame<B::Child, B::Summary>>,
    // The summary of the node at the end of the path; none before the first, while it moves, and after an error.
    summary: Option<B::Summary>,
}

impl<F: Flash, B: FlashTree> Model for Walk<F, B> {
    ghost use Rattle.mc_walk.specs.Walks.{Walked};

    ghost Value = { Walked B };

    ghost use Rattle.std.specs.Vec.{vec_capacity};
    ghost use Rattle.mc_walk.specs.Walks.{walked, IsSound};

    ghost view = { λ w. walked w.flash_tree w.bound (F.seen w.flash) w.frames.items w.summary };

    ghost invariant = { λ w. IsSound (B.model w.flash_tree) w.bound (vec_capacity w.frames)
        (F.seen w.flash) w.frames.items w.summary };
}

impl<F: Flash, B: FlashTree> Walk<F, B> {
    /// Marks the root, which is what the flash contains.
    /// Promised, also of `begin`, `go_down`, `climb`, `advance` and `follow`: a walk goes depth first, within its bound (`step`, `begins`,
    /// `fresh`, `of`).
    /// Promised, also of `begin`, `go_down`, `climb`, `advance` and `follow`: a walk takes what is stated, and nothing without a path
    /// (`spends`, `spent`).
    ///
    /// # Errors
    ///
    /// Where an allocation failed.
    pub fn start(
        alloc: Global,
        flash_tree: B,
        bound: usize,
        mut flash: F,
    ) -> Result<Walk<F, B>, AllocError>
        requires { IsClear (B.model flash_tree) bound (F.seen flash) }
        ensures of { IfOk result (IsOf flash_tree bound) }
        ensures fresh { IfOk result (IsFresh (B.model flash_tree)) }
        ensures spent { IfOk result (λ walk. Spent 0 (F.seen flash) walk.seen) }
    {
        let frames = Vec::with_capacity(alloc, bound)?;
        flash.mark()?;
        Ok(Walk {
            flash_tree,
            bound,
            flash,
            frames,
            summary: None,
        })
    }

    /// Finds the summary of the root.
    ///
    /// # Errors
    ///
    /// Where the flash was refused memory.
    pub fn begin(&mut self) -> Result<B::Summary, AllocError>
        requires { IsFresh (B.model self.old.flash_tree) self.old }
        ensures begins { IfOk result (λ summary. Begins (B.model self.old.flash_tree) self.old
            summary
            self.new) }
        ensures spends { Spends (summary_cost (B.model self.old.flash_tree)) self.old.seen result
            self.new.seen }
    {
        self.summary = None;
        let summary = self.flash_tree.root(&mut self.flash)?;
        self.summary = Some(summary);
        Ok(summary)
    }

    /// The summary of the node at which it stands.
    /// Promised, also of `last_step` and `label`: where a walk is (`IsThere`, `step`, `none`, `labelled`).
    pub fn summary(&self) -> &B::Summary
        requires { self.now.stands ≡ true }
        ensures { IsThere (B.model self.now.flash_tree) self.now result.now }
    {
        match &self.summary {
            Some(summary) => summary,
            None => unreachable!(),
        }
    }

    /// The kind of tree.
    pub fn flash_tree(&self) -> B
        ensures { result ≡ self.now.flash_tree }
    {
        self.flash_tree
    }

    /// The most steps of a path.
    pub fn bound(&self) -> usize
        ensures { result ≡ self.now.bound }
    {
        self.bound
    }

    /// The last step of its path, if it has one: the child where the flash stands, and the summary of its parent.
    pub fn last_step(&self) -> Option<&Frame<B::Child, B::Summary>>
        requires { self.now.stands ≡ true }
        ensures step { IfSome result (λ frame. IsLastStep (B.model self.now.flash_tree) self.now
            frame.now) }
        ensures none { result ≡ None → self.now.path ≡ [] }
    {
        let last = self.frames.last()?;
        Some(last)
    }

    /// The path at whose end it stands.
    pub fn path(&self) -> ArrayVec<u32, 16>
        requires stands { self.now.stands ≡ true }
        requires room { self.now.bound ≤ 16 }
        ensures { result.items ≡ self.now.path }
    {
        let mut path = ArrayVec::new();
        for frame in &self.frames {
            path.push(frame.number);
        }
        path
    }

    /// The name of the child at that step of the path, counted from 0, if it has such a step.
    pub fn label(&self, step: usize) -> Option<B::Label>
        requires { self.now.stands ≡ true }
        ensures { result ≡ slice_get (labelled (B.model self.now.flash_tree).tree
            (B.label_of self.now.flash_tree) (B.model self.now.flash_tree).root
            self.now.path) step }
    {
        let frame = self.frames.get(step)?;
        Some(self.flash_tree.label(&frame.at))
    }

    /// The flash as it is.
    pub fn flash(&self) -> &F
        ensures { F.seen result.now ≡ self.now.seen }
    {
        &self.flash
    }

    /// The flash as it is, where the walk is over.
    pub fn into_flash(self) -> F
        ensures { F.seen result ≡ self.seen }
    {
        self.flash
    }

    /// Goes down to the child of that number, if there is one and the path may be longer.
    ///
    /// # Errors
    ///
    /// Where the flash was refused memory; then the walk stands nowhere.
    #[inline]
    pub fn go_down(&mut self, number: u32) -> Result<bool, AllocError>
        requires { self.old.stands ≡ true }
        ensures step { IfOk result (λ went. GoesDown (B.model self.old.flash_tree) number
            self.old went
            self.new) }
        ensures spends { Spends (child_cost (B.model self.old.flash_tree) number) self.old.seen
            result
            self.new.seen }
    {
        let Some(parent) = parent(
            self.flash_tree,
            self.bound,
            &self.frames,
            self.summary,
            number,
        ) else {
            return Ok(false);
        };
        self.summary = None;
        let at = go_to_child(self.flash_tree, &mut self.flash, &parent, number)?;
        let frame = Frame { at, number, parent };
        let summary = enter(self.flash_tree, &mut self.flash, &mut self.frames, frame)?;
        self.summary = Some(summary);
        Ok(true)
    }

    /// The summary of the next child of the last node before it, where that surely is a twin of the one where it stands.
    pub fn next_twin(&self) -> Option<B::Summary>
        requires { self.now.stands ≡ true }
        ensures { IfSome result (IsBeforeTwin (B.model self.now.flash_tree) self.now) }
    {
        if twin_of(self.flash_tree, &self.flash, &self.frames, &self.summary) {
            return self.summary;
        }
        None
    }

    /// Goes on among the children of the last node before it, over next ones that surely are twins of the one where it stands, and
    /// returns how many these are, and the summary that all of them have.
    ///
    /// # Errors
    ///
    /// Where the flash was refused memory; then the walk stands nowhere.
    #[tactic(auto, using(mc_flash::specs::facts::Spends::ran_out_later, mc_flash::specs::facts::Spends::spent_back))]
    pub fn pass_twins(&mut self) -> Result<(u32, B::Summary), AllocError>
        requires { self.old.stands ≡ true }
        ensures passes { IfOk result (λ passed. HasPassedTwins (B.model self.old.flash_tree)
            self.old passed.0 passed.1 self.new) }
        ensures out { OnErr result (RanOut self.old.seen self.new.seen) }
    {
        let Some(summary) = self.summary else {
            unreachable!()
        };
        let steps = self.frames.len();
        if steps == 0 {
            return Ok((0, summary));
        }
        self.summary = None;
        // The checkpoint of the last frame stands after that of the root and those of the frames below it.
        self.flash.back_to(steps);
        let count = pass_siblings(self.flash_tree, &mut self.flash, &mut self.frames, &summary)?;
        self.summary = Some(summary);
        Ok((count, summary))
    }

    /// Goes up to the last node that has a further child, and on to that child.
    ///
    /// # Errors
    ///
    /// Where the flash was refused memory; then the walk stands nowhere.
    #[tactic(auto, using(mc_flash::specs::facts::Spends::ran_out_later, mc_flash::specs::facts::Spends::spent_back))]
    #[inline]
    pub fn climb(&mut self) -> Result<bool, AllocError>
        requires { self.old.stands ≡ true }
        ensures step { IfOk result (λ went. Climbs (B.model self.old.flash_tree) self.old went
            self.new) }
        ensures spends { Spends (child_cost (B.model self.old.flash_tree) 0) self.old.seen result
            self.new.seen }
    {
        if twin_of(self.flash_tree, &self.flash, &self.frames, &self.summary) {
            // The twin has the summary of the node where it stands, and its frame is the last.
            let steps = self.frames.len();
            self.flash.back_to(steps);
            if let Err(error) = next_child(self.flash_tree, &mut self.flash, &mut self.frames) {
                self.summary = None;
                return Err(error);
            }
            return Ok(true);
        }
        self.summary = None;
        if !leave_spent(self.flash_tree, &mut self.frames) {
            return Ok(false);
        }
        // The checkpoint of the last frame stands after that of the root and those of the frames below it.
        self.flash.back_to(self.frames.len());
        let summary = next_sibling(self.flash_tree, &mut self.flash, &mut self.frames)?;
        self.summary = Some(summary);
        Ok(true)
    }

    /// Goes on to the next path.
    ///
    /// # Errors
    ///
    /// Where the flash was refused memory; then the walk stands nowhere.
    pub fn advance(&mut self) -> Result<bool, AllocError>
        requires { self.old.stands ≡ true }
        ensures step { IfOk result (λ went. Advances (B.model self.old.flash_tree) self.old went
            self.new) }
        ensures spends { Spends (child_cost (B.model self.old.flash_tree) 0) self.old.seen result
            self.new.seen }
    {
        // Reading a field gives the prover what holds of all of them.
        let _bound = self.bound;
        if self.go_down(0)? {
            return Ok(true);
        }
        let went = self.climb()?;
        Ok(went)
    }

    /// Goes on along a path, as far as there are such children and the bound allows.
    ///
    /// # Errors
    ///
    /// Where the flash was refused memory; then the walk stands nowhere.
    pub fn follow(&mut self, path: &[u32]) -> Result<bool, AllocError>
        requires { self.old.stands ≡ true }
        ensures step { IfOk result (λ went. Follows (B.model self.old.flash_tree) path.now self.old
            went self.new) }
        ensures spends { Spends (path_cost (B.model self.old.flash_tree) path.now) self.old.seen
            result
            self.new.seen }
    {
        // Reading a field gives the prover what holds of all of them.
        let _bound = self.bound;
        for number in path {
            if !self.go_down(*number)? {
                return Ok(false);
            }
        }
        Ok(true)
    }
}
