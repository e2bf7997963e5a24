//! The search for the flashes that power cuts leave: by the shortest schedules first, and not beyond a flash that was met before.
ghost use Rattle.std.specs.Prelude.{◌≡◌, ◌+◌, ◌++◌, ◌∷◌, ◌<◌, ◌≤◌, ℕ, [], Contains, false, true, length, IfOk, OnOk};
ghost use Rattle.mc_explore.specs.Schedules.{CanOccur};
ghost use Rattle.mc_explore.specs.inner.OneRound.{begun_of};
ghost use Rattle.mc_start.specs.Start.{begun};
ghost use Rattle.mc_vectors.specs.Cases.{AnyCuts, AreCases, AtMost};
ghost use Rattle.mc_vectors.specs.inner.Digests.{AreOfFlash};
ghost use Rattle.mc_vectors.specs.inner.Searching.{GoesOnAt, IsAt, IsBelow, IsCaseHere, IsDoneNext, IsExpanding, IsOwnCase, IsReady, IsSearch};

use crate::case::{Case, Found};
use crate::digests::Digests;
use mc_explore::{OneRound, Schedule, Start, go_to_child, load_walk, replay};
use mc_flash::Flash;
use mc_walk::{FlashTree, Walk};
use std::alloc::{AllocError, Global};
use std::collections::BTreeSet;

// The walk at the end of a schedule that can occur, with one cut more to come.
fn walk_to<'a, F: Flash>(
    alloc: Global,
    start: &'a Start,
    schedule: &Schedule,
) -> Result<Walk<F, OneRound<'a>>, AllocError>
    requires few { length schedule.now < 16 }
    requires occurs { CanOccur (begun start.now) schedule.now }
    ensures at { IfOk result (IsAt (begun start.now) schedule.now) }
    ensures more { IfOk result (λ walk. length walk.path < walk.bound) }
{
    let cuts = schedule.cuts();
    let mut walk: Walk<F, OneRound<'a>> = load_walk(alloc, start, cuts.len() as u8 + 1)?;
    walk.begin()?;
    walk.follow(cuts)?;
    Ok(walk)
}

// Whether the boot from where a walk stands is known to go on with the one that was cut, and leaves no other flashes.
fn joins<F: Flash>(walk: &Walk<F, OneRound<'_>>) -> bool
    requires { walk.now.stands ≡ true }
    ensures { result ≡ true → GoesOnAt (begun_of walk.now) walk.now }
{
    let Some(step) = walk.last_step() else {
        return false;
    };
    let flash_tree = walk.flash_tree();
    flash_tree
        .tail_of(walk.flash(), &step.at, &step.parent, walk.summary())
        .is_some()
}

// The case of a schedule whose boot goes its own way.
fn own_case<F: Flash>(
    alloc: Global,
    start: &Start,
    schedule: &Schedule,
    digest: [u8; 32],
    lefts: &mut Digests,
) -> Result<Case, AllocError>
    requires { AreOfFlash start.now.geometry.sector lefts.old }
    ensures case { IfOk result (λ case. IsOwnCase (begun start.now) schedule.now digest case) }
    ensures digests { OnOk result (AreOfFlash start.now.geometry.sector lefts.new) }
{
    let Ok((outcome, flash)) = replay::<F>(alloc, start, schedule) else {
        return Err(AllocError);
    };
    let left = lefts.digest(&flash)?;
    Ok(Case {
        schedule: *schedule,
        digest,
        outcome,
        left,
        joins: false,
    })
}

// The case of the flash where a walk stands, at a cut of the boot from another case.
fn case_here<F: Flash>(
    alloc: Global,
    walk: &Walk<F, OneRound<'_>>,
    parent: &Case,
    start: &Start,
    digest: [u8; 32],
    lefts: &mut Digests,
) -> Result<Case, AllocError>
    requires digests { AreOfFlash start.now.geometry.sector lefts.old }
    requires at { IsAt (begun start.now) walk.now.path walk.now }
    ensures case { IfOk result (IsCaseHere (begun start.now) walk.now parent.now digest) }
    ensures digests { OnOk result (AreOfFlash start.now.geometry.sector lefts.new) }
{
    let outcome = walk.summary().outcome;
    let schedule = Schedule::of(&walk.path());
    if joins(walk) {
        return Ok(Case {
            schedule,
            digest,
            outcome,
            left: parent.left,
            joins: true,
        });
    }
    own_case::<F>(alloc, start, &schedule, digest, lefts)
}

// The cases so far and their digests, and the digests of the sectors that cuts left last, and that boots left last.
#[derive(Drop)]
struct Search {
    alloc: Global,
    cuts: Digests,
    lefts: Digests,
    cases: Vec<Case>,
    known: BTreeSet<[u8; 32]>,
}

impl Search {
    // No case yet.
    fn new(alloc: Global) -> Search
        ensures ready { (size : ℕ) → IsReady size result }
        ensures none { (result.cases.items ≡ []) × (result.known.keys ≡ []) }
    {
        Search {
            alloc,
            cuts: Digests::new(alloc),
            lefts: Digests::new(alloc),
            cases: Vec::new(alloc),
            known: BTreeSet::new(alloc),
        }
    }

    // Adds the case of the start.
    fn begin<F: Flash>(&mut self, start: &Start) -> Result<(), AllocError>
        requires ready { IsReady start.now.geometry.sector self.old }
        requires none { (self.old.cases.items ≡ []) × (self.old.known.keys ≡ []) }
        ensures ready { OnOk result (IsReady start.now.geometry.sector self.new) }
        ensures begun { OnOk result ((bound : ℕ)
            → IsSearch (begun start.now) bound self.new.cases.items 0
            × IsBelow self.new.cases.items 0) }
    {
        let (primary, secondary) = (start.primary(), start.secondary());
        let digest = self.cuts.digest_of(start.layout(), primary, secondary)?;
        let _ = self.known.insert(digest)?;
        let none = Schedule::new();
        let case = own_case::<F>(self.alloc, start, &none, digest, &mut self.lefts)?;
        self.cases.push(case)?;
        Ok(())
    }

    // Adds the case of the flash where a walk stands, at a cut of the boot from another case, where it was not met before.
    fn visit<F: Flash>(
        &mut self,
        walk: &Walk<F, OneRound<'_>>,
        parent: &Case,
        start: &Start,
    ) -> Result<(), AllocError>
        requires ready { IsReady start.now.geometry.sector self.old }
        requires at { IsAt (begun start.now) walk.now.path walk.now }
        ensures ready { OnOk result (IsReady start.now.geometry.sector self.new) }
        ensures visited { OnOk result ((bound index number : ℕ)
            → walk.now.path ≡ parent.now.schedule ++ number ∷ []
            → IsExpanding (begun start.now) bound self.old.cases.items index number parent.now
            → IsExpanding (begun start.now) bound self.new.cases.items index (number + 1)
            parent.now) }
    {
        // The summary gives the prover where the flash stands.
        let _summary = walk.summary();
        let digest = self.cuts.digest(walk.flash())?;
        if !self.known.insert(digest)? {
            return Ok(());
        }
        let case = case_here(self.alloc, walk, parent, start, digest, &mut self.lefts)?;
        self.cases.push(case)?;
        Ok(())
    }

    // Adds the cases of the flashes that cuts of the boot from a case leave.
    fn expand<F: Flash>(&mut self, start: &Start, case: &Case) -> Result<(), AllocError>
        requires ready { IsReady start.now.geometry.sector self.old }
        requires few { length case.now.schedule < 16 }
        requires occurs { CanOccur (begun start.now) case.now.schedule }
        ensures ready { OnOk result (IsReady start.now.geometry.sector self.new) }
        ensures expanded { OnOk result ((bound index : ℕ)
            → IsExpanding (begun start.now) bound self.old.cases.items index 0 case.now
            → IsDoneNext (begun start.now) bound self.new.cases.items index) }
    {
        let mut walk = walk_to::<F>(self.alloc, start, &case.schedule)?;
        let count = walk.flash_tree().width(walk.summary());
        for number in 0..count {
            go_to_child(&mut walk, number)?;
            self.visit(&walk, case, start)?;
        }
        Ok(())
    }

    // The cases, where all of them are done.
    fn found(self, bound: u8) -> Found
        ensures cases { result.cases.items ≡ self.cases.items }
        ensures whole { result.whole ≡ true → (c : Case) → Contains self.cases.items c
            → c.joins ≡ false → length c.schedule < bound }
    {
        let bound = usize::from(bound);
        let whole = self
            .cases
            .iter()
            .all(|case| case.joins || case.schedule.cuts().len() < bound);
        Found {
            cases: self.cases,
            whole,
        }
    }
}

/// The flashes that schedules of at most so many cuts leave, each once, in the order of their first schedules: the shortest
/// first, and of those that are as long the first in their order. A flash is known by its digest.
/// Promised: the distinct flashes that cuts leave (`cases`, `whole`, `AreCases`, `Covers`).
///
/// # Errors
///
/// Where an allocation failed.
pub fn find_cases<F: Flash>(alloc: Global, start: &Start, bound: u8) -> Result<Found, AllocError>
    requires { bound ≤ 16 }
    ensures cases { IfOk result (λ found. AreCases (begun start.now) (AtMost bound)
        found.cases.items) }
    // Where it is whole, no number of cuts leaves another flash.
    ensures whole { IfOk result (λ found. found.whole ≡ true
        → AreCases (begun start.now) AnyCuts found.cases.items) }
{
    let mut search = Search::new(alloc);
    search.begin::<F>(start)?;
    for index in 0..usize::MAX {
        let Some(case) = search.cases.get(index) else {
            return Ok(search.found(bound));
        };
        let case = *case;
        if !case.joins && case.schedule.cuts().len() < usize::from(bound) {
            search.expand::<F>(start, &case)?;
        }
    }
    // No memory holds so many cases.
    Err(AllocError)
}
