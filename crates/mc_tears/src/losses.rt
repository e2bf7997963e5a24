//! The search for the flashes that losses of power leave: by the fewest losses first.
ghost use Rattle.std.specs.Prelude.{◌≡◌, ◌+◌, ◌*◌, ◌++◌, ◌∷◌, ◌<◌, ◌≤◌, ℕ, [], Contains, Some, true, length, option_map, IfOk, IsSome, OnOk};
ghost use Rattle.std.specs.Vec.{vec_capacity};
ghost use Rattle.mc_boot.specs.Plan.{again};
ghost use Rattle.mc_explore.specs.inner.OneRound.{begins, most_of};
ghost use Rattle.mc_flash.specs.Usage.{HasRoom};
ghost use Rattle.mc_start.specs.Start.{begun};
ghost use Rattle.mc_boot.specs.Plan.{PowerOn};
ghost use Rattle.mc_tears.specs.Losses.{AnyLosses, AreLostCases, AtMost, after_losses, loss_number, lost};
ghost use Rattle.mc_tears.specs.declared.losses.LostCase.{LostCase as Lost};
ghost use Rattle.mc_tears.specs.inner.Losing.{Expands, IsCaseHere, IsDoneAt, IsDoneNext, IsFrom, IsReady, StandsAt, searched, torn_number};
ghost use Rattle.mc_tears.specs.inner.Standing.{CanMark, HoldsSlot, IsBack, IsWhole, Stands};
ghost use Rattle.mc_boot.specs.Outcome.{ops_of};
ghost use Rattle.mc_tear.specs.Cases.{written_len};
ghost use Rattle.mc_vectors.specs.inner.Searches.{IsExpanding};
ghost use Rattle.mc_vectors.specs.inner.Digests.{AreOfFlash};

use crate::case_flash::{flash_after, put_case};
use crate::end::Whole;
use crate::loading::{Loaded, load};
use crate::loss::Loss;
use crate::tears::next_op;
use mc_boot::Outcome;
use mc_explore::{OneRound, Schedule, Start, flash_at_cut};
use mc_flash::{Flash, Op};
use mc_tear::{Erasing, Reading, readings_law};
use mc_vectors::Digests;
use std::alloc::{AllocError, Global};
use std::collections::BTreeSet;

/// A flash that losses of power leave.
#[derive(Drop)]
pub struct LostCase {
    /// The first that leave it: the fewest, and of those as few the first in their order.
    pub losses: Vec<Loss>,
    /// The digest that names it.
    pub digest: [u8; 32],
    /// The outcome of the uncut boot from there.
    pub outcome: Outcome,
    /// The digest of the flash that this boot leaves.
    pub left: [u8; 32],
}

/// The flashes that so many losses of power leave.
#[derive(Drop)]
pub struct LostCases {
    /// In the order of their losses.
    pub cases: Vec<LostCase>,
    /// Whether no number of losses leaves another.
    pub whole: bool,
}

// The same losses.
fn copied(alloc: Global, losses: &[Loss]) -> Result<Vec<Loss>, AllocError>
    ensures { IfOk result (λ copy. copy.items ≡ losses.now) }
{
    let mut copy = Vec::with_capacity(alloc, losses.len())?;
    copy.extend_from_slice(losses)?;
    Ok(copy)
}

// The losses before and one more.
fn followed(alloc: Global, before: &[Loss], loss: Loss) -> Result<Vec<Loss>, AllocError>
    ensures { IfOk result (λ losses. losses.items ≡ before.now ++ loss ∷ []) }
{
    let mut losses = Vec::with_capacity(alloc, before.len() + 1)?;
    losses.extend_from_slice(before)?;
    losses.push(loss)?;
    Ok(losses)
}

// The case of the flash as it stands, where these losses leave it. The flash stays as it is.
fn case_here<F: Flash>(
    rounds: &OneRound<'_>,
    flash: &mut F,
    losses: Vec<Loss>,
    digest: [u8; 32],
    lefts: &mut Digests,
) -> Result<LostCase, AllocError>
    requires digests { AreOfFlash (begins rounds.now).geometry.sector lefts.old }
    requires layout { (F.seen flash.old).geometry ≡ (begins rounds.now).geometry }
    requires room { HasRoom (most_of (begins rounds.now)) (F.seen flash.old) }
    ensures case { IfOk result (IsCaseHere (again (begins rounds.now) (F.seen flash.old).content)
        losses.items digest) }
    ensures digests { OnOk result (AreOfFlash (begins rounds.now).geometry.sector lefts.new) }
    ensures back { OnOk result (IsBack (F.seen flash.old) (F.seen flash.new)) }
{
    let here = flash.mark()?;
    let boot = rounds.boot(flash);
    let summary = rounds.run(flash, boot)?;
    let left = lefts.digest(flash)?;
    flash.back_to(here);
    Ok(LostCase {
        losses,
        digest,
        outcome: summary.outcome,
        left,
    })
}

// The cases so far and their digests, how an erase fails, and the digests of the sectors that losses left last, and that boots left last.
#[derive(Drop)]
struct Search {
    alloc: Global,
    erasing: Erasing,
    here: Digests,
    lefts: Digests,
    cases: Vec<LostCase>,
    known: BTreeSet<[u8; 32]>,
}

impl Search {
    // No case yet.
    fn new(alloc: Global, erasing: Erasing) -> Search
        ensures ready { (size : ℕ) → IsReady size result }
        ensures none { (result.cases.items ≡ []) × (result.known.keys ≡ []) }
        ensures erasing { result.erasing ≡ erasing }
    {
        Search {
            alloc,
            erasing,
            here: Digests::new(alloc),
            lefts: Digests::new(alloc),
            cases: Vec::new(alloc),
            known: BTreeSet::new(alloc),
        }
    }

    // Adds the case of the start.
    fn begin<F: Flash + Drop>(&mut self, start: &Start) -> Result<(), AllocError>
        requires ready { IsReady start.now.geometry.sector self.old }
        requires none { (self.old.cases.items ≡ []) × (self.old.known.keys ≡ []) }
        ensures begun { OnOk result ((bound : ℕ)
            → IsDoneAt self.old.erasing (begun start.now) bound self.new 0) }
    {
        let rounds = OneRound { start };
        let mut loaded = load::<F>(self.alloc, &rounds)?;
        let digest = self.here.digest(&loaded.flash)?;
        let _ = self.known.insert(digest)?;
        let none = Vec::new(self.alloc);
        let case = case_here(&rounds, &mut loaded.flash, none, digest, &mut self.lefts)?;
        self.cases.push(case)?;
        Ok(())
    }

    // Adds the case of the flash as it stands, after a loss in the boot from another case, where it was not met before. The flash stays as it
    // is.
    fn visit<F: Flash>(
        &mut self,
        rounds: &OneRound<'_>,
        flash: &mut F,
        before: &[Loss],
        loss: Loss,
    ) -> Result<(), AllocError>
        requires ready { IsReady (begins rounds.now).geometry.sector self.old }
        requires layout { (F.seen flash.old).geometry ≡ (begins rounds.now).geometry }
        requires room { HasRoom (most_of (begins rounds.now)) (F.seen flash.old) }
        requires lost { lost self.old.erasing (begins rounds.now) loss
            ≡ Some (F.seen flash.old).content }
        ensures ready { OnOk result (IsReady (begins rounds.now).geometry.sector self.new) }
        ensures erasing { self.new.erasing ≡ self.old.erasing }
        ensures back { OnOk result (IsBack (F.seen flash.old) (F.seen flash.new)) }
        ensures visited { let n = loss_number loss in OnOk result (Expands self.old.erasing
            (begins rounds.now) before.now self.old.cases.items n self.new.cases.items (n + 1)) }
    {
        let digest = self.here.digest(flash)?;
        if !self.known.insert(digest)? {
            return Ok(());
        }
        let losses = followed(self.alloc, before, loss)?;
        let case = case_here(rounds, flash, losses, digest, &mut self.lefts)?;
        self.cases.push(case)?;
        Ok(())
    }

    // The same of a loss within an operation before which the flash stands, if it can occur.
    fn visit_tear<F: Flash>(
        &mut self,
        rounds: &OneRound<'_>,
        flash: &mut F,
        op: &Op,
        before: &[Loss],
        loss: (u32, Reading),
        buffer: &mut Vec<u8>,
    ) -> Result<(), AllocError>
        requires ready { IsReady (begins rounds.now).geometry.sector self.old }
        requires stands { StandsAt (begins rounds.now) loss.0 op.now (F.seen flash.old) }
        requires marks { CanMark 2 (F.seen flash.old) }
        requires buffer { written_len (F.seen flash.old).geometry op.now ≤ vec_capacity buffer.old }
        ensures ready { OnOk result (IsReady (begins rounds.now).geometry.sector self.new) }
        ensures erasing { self.new.erasing ≡ self.old.erasing }
        ensures back { OnOk result (IsBack (F.seen flash.old) (F.seen flash.new)) }
        ensures capacity { vec_capacity buffer.new ≡ vec_capacity buffer.old }
        ensures visited { let n = torn_number loss.0 loss.1 in OnOk result (Expands self.old.erasing
            (begins rounds.now) before.now self.old.cases.items n self.new.cases.items (n + 1)) }
    {
        let (operation, reading) = loss;
        let here = flash.mark()?;
        if !put_case(flash, op, self.erasing, &reading, buffer)? {
            flash.back_to(here);
            return Ok(());
        }
        let within = Some(reading);
        self.visit(rounds, flash, before, Loss { operation, within })?;
        flash.back_to(here);
        Ok(())
    }

    // The same of each loss within it.
    fn visit_tears<F: Flash>(
        &mut self,
        rounds: &OneRound<'_>,
        flash: &mut F,
        op: &Op,
        before: &[Loss],
        operation: u32,
        buffer: &mut Vec<u8>,
    ) -> Result<(), AllocError>
        requires ready { IsReady (begins rounds.now).geometry.sector self.old }
        requires stands { StandsAt (begins rounds.now) operation op.now (F.seen flash.old) }
        requires marks { CanMark 2 (F.seen flash.old) }
        requires buffer { written_len (F.seen flash.old).geometry op.now ≤ vec_capacity buffer.old }
        ensures ready { OnOk result (IsReady (begins rounds.now).geometry.sector self.new) }
        ensures erasing { self.new.erasing ≡ self.old.erasing }
        ensures back { OnOk result (IsBack (F.seen flash.old) (F.seen flash.new)) }
        ensures capacity { vec_capacity buffer.new ≡ vec_capacity buffer.old }
        ensures visited { OnOk result (Expands self.old.erasing (begins rounds.now) before.now
            self.old.cases.items (193 * operation + 1) self.new.cases.items
            (193 * operation + 193)) }
    {
        for number in 0..Reading::COUNT {
            let loss = (operation, Reading::of(number));
            self.visit_tear(rounds, flash, op, before, loss, buffer)?;
        }
        Ok(())
    }

    // Adds the cases of the flashes that losses in a boot leave, which was run: the flash stands where it begins.
    fn go_through<F: Flash>(
        &mut self,
        rounds: &OneRound<'_>,
        flash: &mut F,
        whole: &Whole,
        before: &[Loss],
        buffer: &mut Vec<u8>,
    ) -> Result<(), AllocError>
        requires ready { IsReady (begins rounds.now).geometry.sector self.old }
        requires whole { IsWhole (begins rounds.now) whole.now }
        requires stands { Stands (begins rounds.now) whole.now.summary.boot (F.seen flash.old) }
        requires marks { CanMark 2 (F.seen flash.old) }
        requires buffer { HoldsSlot (F.seen flash.old).geometry (vec_capacity buffer.old) }
        ensures ready { OnOk result (IsReady (begins rounds.now).geometry.sector self.new) }
        ensures erasing { self.new.erasing ≡ self.old.erasing }
        ensures visited { let y = begins rounds.now in OnOk result (Expands self.old.erasing y
            before.now self.old.cases.items 0 self.new.cases.items (193 * length (ops_of y))) }
    {
        let mut at = whole.summary.boot;
        for operation in 0..whole.summary.outcome.ops {
            let within = None;
            self.visit(rounds, flash, before, Loss { operation, within })?;
            let op = next_op(rounds, flash, &at);
            self.visit_tears(rounds, flash, &op, before, operation, buffer)?;
            rounds.pass(flash, &mut at)?;
        }
        Ok(())
    }

    // Adds the cases of the flashes that losses in the boot from a case leave, which begins with that start.
    fn expand<F: Flash + Drop>(&mut self, start: &Start, before: &[Loss]) -> Result<(), AllocError>
        requires ready { IsReady start.now.geometry.sector self.old }
        ensures ready { OnOk result (IsReady start.now.geometry.sector self.new) }
        ensures erasing { self.new.erasing ≡ self.old.erasing }
        ensures expanded { OnOk result ((x : PowerOn) (bound index : ℕ) (p : Lost)
            → IsFrom self.old.erasing x before.now (begun start.now) p
            → IsExpanding (searched self.old.erasing x bound) self.old.cases.items index 0 p
            → IsDoneNext self.old.erasing x bound self.new.cases.items index) }
    {
        let rounds = OneRound { start };
        let mut loaded = load::<F>(self.alloc, &rounds)?;
        let Loaded {
            flash,
            buffer,
            whole,
        } = &mut loaded;
        self.go_through(&rounds, flash, whole, before, buffer)
    }

    // The same of the case of these losses, which can occur.
    fn expand_after<F: Flash + Drop>(
        &mut self,
        start: &Start,
        losses: &[Loss],
    ) -> Result<(), AllocError>
        requires ready { IsReady start.now.geometry.sector self.old }
        requires occurs { IsSome (after_losses self.old.erasing (begun start.now) losses.now) }
        ensures ready { OnOk result (IsReady start.now.geometry.sector self.new) }
        ensures erasing { self.new.erasing ≡ self.old.erasing }
        ensures expanded { let e = self.old.erasing in let x = begun start.now in OnOk result
            ((bound index : ℕ) (p : Lost) → p.losses.items ≡ losses.now
            → IsExpanding (searched e x bound) self.old.cases.items index 0 p
            → IsDoneNext e x bound self.new.cases.items index) }
    {
        let Some(here) = start_after::<F>(self.alloc, start, self.erasing, losses)? else {
            unreachable!();
        };
        self.expand::<F>(&here, losses)
    }

    // The cases, where all of them are done.
    fn found(self, bound: u8) -> LostCases
        ensures cases { result.cases.items ≡ self.cases.items }
        ensures whole { result.whole ≡ true → (c : Lost) → Contains self.cases.items c
            → length c.losses.items < bound }
    {
        let bound = usize::from(bound);
        let whole = self.cases.iter().all(|case| case.losses.len() < bound);
        LostCases {
            cases: self.cases,
            whole,
        }
    }
}

/// The start that losses of power leave, one after another, from which the next boot begins. None where they can't occur.
/// Promised, also of `write_lost`: the start that losses leave, and the table (`after_losses`, `whole`, `prefix`).
///
/// # Errors
///
/// Where memory failed.
pub fn start_after<F: Flash + Drop>(
    alloc: Global,
    start: &Start,
    erasing: Erasing,
    losses: &[Loss],
) -> Result<Option<Start>, AllocError>
    ensures { let x = begun start.now in IfOk result (λ found. option_map begun found
        ≡ option_map (again x) (after_losses erasing x losses.now)) }
{
    let Ok(flash) = flash_at_cut::<F>(alloc, start, &Schedule::new()) else {
        return Err(AllocError);
    };
    let mut here = start.again(alloc, &flash)?;
    for loss in losses {
        let Some(flash) = flash_after::<F>(alloc, &here, erasing, loss)? else {
            return Ok(None);
        };
        here = here.again(alloc, &flash)?;
    }
    Ok(Some(here))
}

/// The flashes that at most so many losses of power leave, before operations and within them, each once, in the order of their first losses:
/// the fewest first, and of as many the first in their order. A flash is known by its digest.
/// Promised: the distinct flashes that losses leave (`cases`, `whole`, `Covers`, `EndsAsOne`).
///
/// # Errors
///
/// Where memory failed.
pub fn find_losses<F: Flash + Drop>(
    alloc: Global,
    start: &Start,
    erasing: Erasing,
    bound: u8,
) -> Result<LostCases, AllocError>
    ensures cases { IfOk result (λ found. AreLostCases erasing (begun start.now) (AtMost bound)
        found.cases.items) }
    // Where it is whole, no number of losses leaves another flash.
    ensures whole { IfOk result (λ found. found.whole ≡ true
        → AreLostCases erasing (begun start.now) AnyLosses found.cases.items) }
{
    readings_law();
    let mut search = Search::new(alloc, erasing);
    search.begin::<F>(start)?;
    for index in 0..usize::MAX {
        let Some(case) = search.cases.get(index) else {
            return Ok(search.found(bound));
        };
        if case.losses.len() < usize::from(bound) {
            let losses = copied(alloc, &case.losses)?;
            search.expand_after::<F>(start, &losses)?;
        }
    }
    // No memory holds so many cases.
    Err(AllocError)
}
