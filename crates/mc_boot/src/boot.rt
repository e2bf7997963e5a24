//! The boot as a machine that makes one operation at a time.
ghost use Rattle.std.specs.Prelude.{◌≡◌, ◌+◌, ◌<◌, ◌≤◌, [], length, slice_get, Some, IfErr, IfSome, MatchResult, OnOk};
ghost use Rattle.mc_trailer.specs.Trailer.{highest_entry};
ghost use Rattle.mc_flash.specs.Geometry.{Geometry};
ghost use Rattle.mc_flash.specs.Flash.{Content, CanTry};
ghost use Rattle.mc_flash.specs.Usage.{Does, Keeps, RanOut, Spends, Allows};
ghost use Rattle.mc_boot.specs.facts.Steps.{Comes};
ghost use Rattle.mc_trailer.specs.declared.tables.Rules.{Rules};
ghost use Rattle.mc_boot.specs.Joins.{IsCut};
ghost use Rattle.mc_boot.specs.Boot.{progress, IsBootOf, begun};
ghost use Rattle.mc_boot.specs.Outcome.{shown, outcome_of, left_by};
ghost use Rattle.mc_boot.specs.Plan.{images_of, confirms, nothing, new_swap, new_plan, resumed_swap, resumed_plan, plan, PowerOn, again, power_on, powered};

use crate::course::{Course, Opening};
use crate::image::Images;
use crate::kept_operations::count_kept;
use crate::known::KnownImage;
use crate::outcome::Outcome;
use crate::transfer::{Copies, first_left};
use crate::writes::is_test;
use mc_flash::{Flash, FlashError, Layout, Op, Slot};
use mc_trailer::{Flag, Rules, SwapType, Trailer, highest_entry, resumes_by, swap_type};

/// A boot, by how many of its operations have happened. It is small and `Copy`: one that was kept beside a checkpoint of the
/// flash serves again after `back_to`.
#[derive(Clone, Copy)]
pub struct Boot {
    rules: Rules,
    kind: SwapType,
    // None where there are no operations.
    course: Option<Course>,
    done: u32,
    faulted: bool,
}

// Makes one operation.
pub(crate) fn perform<F: Flash>(flash: &mut F, op: Op) -> Result<(), FlashError>
    requires { CanTry (F.seen flash.old).geometry op }
    ensures { Does op (F.seen flash.old) result (F.seen flash.new) }
{
    match op {
        Op::Erase(slot, sector) => flash.erase(slot, sector),
        Op::Program(slot, offset, bytes) => flash.program(slot, offset, bytes.bytes()),
        Op::Copy(from, at, to, offset, len) => flash.copy(from, at, to, offset, len),
    }
}

// Whether the end of a swap that was cut writes image-ok.
fn confirms(kind: SwapType, image_ok: Flag) -> bool
    ensures { result ≡ confirms kind image_ok }
{
    !is_test(kind) && matches!(image_ok, Flag::Unset)
}

impl Boot {
    ghost use Rattle.mc_boot.specs.Boot.{all_of, to_come, progress, IsBootOf, Steps, Leaps, LeapsOn, IsNextOp, begun, HasCome, GoesOn, IsCold, left_of, CountsOn};
    ghost use Rattle.mc_boot.specs.Copies.{AreCopies, whole_copy};
    ghost use Rattle.mc_boot.specs.Outcome.{shown, report, outcome_of};

    // A boot with no operations.
    fn idle(rules: Rules, kind: SwapType) -> Boot
        ensures progress { progress result ≡ begun rules (nothing kind) }
        ensures layout { (g : Geometry) → IsBootOf g result }
    {
        Boot {
            rules,
            kind,
            course: None,
            done: 0,
            faulted: false,
        }
    }

    // A swap from its start.
    fn new_swap(layout: &Layout, rules: Rules, images: &Images, kind: SwapType) -> Boot
        ensures progress { progress result
            ≡ begun rules (new_swap rules.grain layout.now images.now kind) }
        ensures layout { IsBootOf layout.now result }
    {
        let size = images.size;
        let sectors = size.div_ceil(layout.sector());
        if !images.valid || layout.greatest_sectors() < sectors {
            return Boot::idle(rules, SwapType::Fail);
        }
        Boot {
            rules,
            kind,
            course: Some(Course::new(
                rules.grain,
                layout.in_pieces(rules.grain),
                sectors,
                Opening::New { kind, size },
            )),
            done: 0,
            faulted: false,
        }
    }

    // A boot that the tables ask for. Images are read where it is a swap alone, unless they were read before, and hashed where
    // their bytes are none that are known.
    fn new_boot<F: Flash>(
        flash: &F,
        rules: Rules,
        images: Option<Images>,
        known: &[Option<KnownImage<'_>>],
        kind: SwapType,
    ) -> Boot
        requires { IfSome images (λ images. images ≡ images_of (F.seen flash.now).content) }
        ensures progress { progress result
            ≡ begun rules (new_plan rules.grain (F.seen flash.now).geometry
            (images_of (F.seen flash.now).content) kind) }
        ensures layout { IsBootOf (F.seen flash.now).geometry result }
    {
        match kind {
            SwapType::Test | SwapType::Perm | SwapType::Revert => {
                let images = match images {
                    Some(images) => images,
                    None => Images::read_among(flash, known),
                };
                Boot::new_swap(flash.layout(), rules, &images, kind)
            }
            SwapType::None | SwapType::Fail | SwapType::Panic => Boot::idle(rules, kind),
        }
    }

    // A swap of so many sectors, from where it was cut.
    fn resumed_swap<F: Flash>(
        flash: &F,
        rules: Rules,
        image_ok: Flag,
        kind: SwapType,
        sectors: u32,
    ) -> Boot
        ensures progress { let highest = highest_entry (F.seen flash.now).geometry
            (F.seen flash.now).content in progress result
            ≡ begun rules (resumed_swap rules.grain (F.seen flash.now).geometry image_ok highest
            kind sectors) }
        ensures layout { IsBootOf (F.seen flash.now).geometry result }
    {
        let layout = flash.layout();
        if sectors == 0 {
            return Boot::idle(rules, SwapType::Panic);
        }
        if layout.greatest_sectors() < sectors {
            return Boot::idle(rules, SwapType::Panic);
        }
        let highest = highest_entry(flash);
        let Some(first) = first_left(layout, sectors, highest) else {
            return Boot::idle(rules, SwapType::Panic);
        };
        let opening = Opening::Resumed {
            first,
            erases: highest.is_none(),
            image_ok: confirms(kind, image_ok),
        };
        let pieces = layout.in_pieces(rules.grain);
        Boot {
            rules,
            kind,
            course: Some(Course::new(rules.grain, pieces, sectors, opening)),
            done: 0,
            faulted: false,
        }
    }

    // A boot that goes on with a swap that was cut, by the primary's trailer.
    fn resumed_boot<F: Flash>(flash: &F, rules: Rules, primary: &Trailer) -> Boot
        ensures progress { let highest = highest_entry (F.seen flash.now).geometry
            (F.seen flash.now).content in progress result
            ≡ begun rules (resumed_plan rules.grain (F.seen flash.now).geometry primary.now
            highest) }
        ensures layout { IsBootOf (F.seen flash.now).geometry result }
    {
        let sectors = primary.swap_size.div_ceil(flash.layout().sector());
        match primary.swap_info {
            2 => Boot::resumed_swap(flash, rules, primary.image_ok, SwapType::Test, sectors),
            3 => Boot::resumed_swap(flash, rules, primary.image_ok, SwapType::Perm, sectors),
            4 => Boot::resumed_swap(flash, rules, primary.image_ok, SwapType::Revert, sectors),
            _ => Boot::idle(rules, SwapType::None),
        }
    }

    // A boot at power-on. Images are read where it begins a swap alone, unless they were read before, and hashed where their
    // bytes are none that are known.
    pub(crate) fn begin<F: Flash>(
        flash: &F,
        rules: Rules,
        images: Option<Images>,
        known: &[Option<KnownImage<'_>>],
    ) -> Boot
        requires { IfSome images (λ images. images ≡ images_of (F.seen flash.now).content) }
        ensures progress { progress result ≡ begun rules (plan (powered rules (F.seen flash.now))) }
        ensures layout { IsBootOf (F.seen flash.now).geometry result }
    {
        let primary = Trailer::read(flash, Slot::Primary);
        let secondary = Trailer::read(flash, Slot::Secondary);
        if resumes_by(rules.profile, &primary, &secondary) {
            Boot::resumed_boot(flash, rules, &primary)
        } else {
            let kind = swap_type(rules.profile, &primary, &secondary);
            Boot::new_boot(flash, rules, images, known, kind)
        }
    }

    /// A boot at power-on. It reads and hashes images only where it begins a swap.
    /// Promised, also of `cold_among`: a boot has exactly the plan's operations (`cold`, `come`).
    /// Promised: at most L operations, `3T + 3 nmax` saved sectors (`IsCold`, `at_most`, `saves`).
    pub fn cold<F: Flash>(flash: &F, rules: Rules) -> Boot
        ensures cold { IsCold rules (F.seen flash.now) result }
        ensures come { HasCome (powered rules (F.seen flash.now)) (progress result)
            (F.seen flash.now).content }
    {
        Boot::cold_among(flash, rules, &[])
    }

    /// A boot at power-on. It reads images only where it begins a swap, and hashes that of the secondary where it is none of those
    /// that are known.
    pub fn cold_among<F: Flash>(flash: &F, rules: Rules, known: &[Option<KnownImage<'_>>]) -> Boot
        ensures cold { IsCold rules (F.seen flash.now) result }
        ensures come { HasCome (powered rules (F.seen flash.now)) (progress result)
            (F.seen flash.now).content }
    {
        // Reading a field gives the prover that it is a layout, and each slot how long it is.
        let _sector = flash.layout().sector();
        let _primary = flash.read(Slot::Primary);
        let _secondary = flash.read(Slot::Secondary);
        Boot::begin(flash, rules, None, known)
    }

    // The next operation. That there are not many keeps the count of those that happened from overflowing.
    fn next_op(&self) -> Option<Op>
        ensures first { result ≡ slice_get (to_come self.now) 0 }
        ensures inside { (g : Geometry) → IsBootOf g self.now → IfSome result (λ op. CanTry g op) }
        ensures at_most { IfSome result (λ _. self.now.done < 204000000) }
    {
        if self.faulted {
            return None;
        }
        match &self.course {
            None => None,
            Some(course) => {
                // Reading a field gives the prover that it is a layout.
                let _unit = course.layout.unit();
                course.op(self.done)
            }
        }
    }

    /// The next operation, and none at the end.
    /// Promised: the next operation, none at the end; a flash can try it (`first`, `inside`).
    pub fn peek(&self) -> Option<Op>
        ensures first { result ≡ slice_get (to_come self.now) 0 }
        // It lies in the layout, so that the flash can try it.
        ensures inside { (g : Geometry) → IsBootOf g self.now → IfSome result (λ op. CanTry g op) }
    {
        self.next_op()
    }

    // The copies that are next, at most so many.
    pub(crate) fn copies(&self, most: u32) -> Option<Copies>
        ensures copies { IfSome result (AreCopies (to_come self.now) 0 most) }
        ensures inside { (g : Geometry) → IsBootOf g self.now → IfSome result (λ copies. CanTry g
            (whole_copy copies copies.count)) }
        ensures few { IfSome result (λ copies. self.now.done + copies.count ≤ 204000000) }
    {
        if self.faulted {
            return None;
        }
        match &self.course {
            None => None,
            Some(course) => {
                // Reading a field gives the prover that it is a layout.
                let _unit = course.layout.unit();
                course.copies(self.done, most)
            }
        }
    }

    // Makes the copies that are next as one, and returns whether they were not refused.
    pub(crate) fn leap<F: Flash>(
        &mut self,
        flash: &mut F,
        copies: &Copies,
    ) -> Result<bool, FlashError>
        requires copies { AreCopies (to_come self.old) 0 copies.now.count copies.now }
        requires inside { CanTry (F.seen flash.old).geometry (whole_copy copies.now
            copies.now.count) }
        requires few { self.old.done + copies.now.count ≤ 204000000 }
        ensures leaps { Leaps copies.now (progress self.old) (F.seen flash.old) result
            (progress self.new) (F.seen flash.new) }
        ensures whole { all_of self.new ≡ all_of self.old }
        ensures layout { (g : Geometry) → IsBootOf g self.old → IsBootOf g self.new }
        ensures keeps { Keeps (F.seen flash.old) (F.seen flash.new) }
    {
        // Reading a field gives the prover that it is a layout, and each slot how long it is.
        let _sector = flash.layout().sector();
        let _primary = flash.read(Slot::Primary);
        let _secondary = flash.read(Slot::Secondary);
        let whole = Op::Copy(
            copies.from,
            copies.at,
            copies.to,
            copies.offset,
            copies.count * copies.len,
        );
        match perform(flash, whole) {
            Ok(()) => {
                self.done += copies.count;
                Ok(true)
            }
            Err(FlashError::NotErased) => Ok(false),
            Err(FlashError::Memory) => Err(FlashError::Memory),
        }
    }

    // Makes that operation, which is the next one.
    fn make<F: Flash>(&mut self, flash: &mut F, op: Op) -> Result<(), FlashError>
        requires layout { IsBootOf (F.seen flash.old).geometry self.old }
        requires next { IsNextOp (F.seen flash.old).geometry self.old op }
        ensures step { Steps (progress self.old) (F.seen flash.old) result (progress self.new)
            (F.seen flash.new) }
        ensures come { (r : Rules) (s : Content) → let x = power_on r (F.seen flash.old).geometry s
            in HasCome x (progress self.old) (F.seen flash.old).content
            → HasCome x (progress self.new) (F.seen flash.new).content }
        ensures whole { all_of self.new ≡ all_of self.old }
        ensures layout { IsBootOf (F.seen flash.new).geometry self.new }
        ensures keeps { Keeps (F.seen flash.old) (F.seen flash.new) }
    {
        match perform(flash, op) {
            Ok(()) => {
                self.done += 1;
                Ok(())
            }
            Err(FlashError::NotErased) => {
                self.faulted = true;
                Err(FlashError::NotErased)
            }
            Err(FlashError::Memory) => Err(FlashError::Memory),
        }
    }

    /// Makes the next operation. At the end it does nothing and returns Ok.
    /// Promised: a step makes the next operation; 40 ends the boot, 41 changes nothing (`step`, `come`, `whole`, `layout`, `keeps`).
    ///
    /// # Errors
    ///
    /// `NotErased` exactly where the operation can't be done: the boot is at its end then, and the flash as it was.
    /// `Memory` where the flash can't grow: boot and flash are as they were.
    pub fn step<F: Flash>(&mut self, flash: &mut F) -> Result<(), FlashError>
        requires { IsBootOf (F.seen flash.old).geometry self.old }
        ensures step { Steps (progress self.old) (F.seen flash.old) result (progress self.new)
            (F.seen flash.new) }
        // It stays on its way from the flash at power-on.
        ensures come { (r : Rules) (s : Content) → let x = power_on r (F.seen flash.old).geometry s
            in HasCome x (progress self.old) (F.seen flash.old).content
            → HasCome x (progress self.new) (F.seen flash.new).content }
        ensures whole { all_of self.new ≡ all_of self.old }
        ensures layout { IsBootOf (F.seen flash.new).geometry self.new }
        // The layout and the checkpoints stay.
        ensures keeps { Keeps (F.seen flash.old) (F.seen flash.new) }
    {
        match self.next_op() {
            Some(op) => self.make(flash, op),
            None => Ok(()),
        }
    }

    // Makes the copies that are next as one, where the next operation is a copy, and returns whether it did.
    fn leap_on<F: Flash>(&mut self, flash: &mut F, op: &Op) -> Result<bool, FlashError>
        requires { IsBootOf (F.seen flash.old).geometry self.old }
        ensures leaps { LeapsOn (progress self.old) (F.seen flash.old) result (progress self.new)
            (F.seen flash.new) }
        ensures whole { all_of self.new ≡ all_of self.old }
        ensures layout { IsBootOf (F.seen flash.new).geometry self.new }
        ensures keeps { Keeps (F.seen flash.old) (F.seen flash.new) }
    {
        let Op::Copy(_, _, _, _, _) = op else {
            return Ok(false);
        };
        match self.copies(u32::MAX) {
            Some(copies) => self.leap(flash, &copies),
            None => Ok(false),
        }
    }

    // Makes that operation, which is the next one, or all copies that are next as one.
    fn stride<F: Flash>(&mut self, flash: &mut F, op: Op) -> Result<(), FlashError>
        requires layout { IsBootOf (F.seen flash.old).geometry self.old }
        requires next { IsNextOp (F.seen flash.old).geometry self.old op }
        requires room { Allows (left_of (F.seen flash.old).geometry (progress self.old))
            (F.seen flash.old) }
        ensures goes { GoesOn self.old (F.seen flash.old) self.new (F.seen flash.new) }
        ensures counts { CountsOn (progress self.old) (progress self.new) (F.seen flash.old)
            (F.seen flash.new) }
        ensures ok { OnOk result (Comes (progress self.old) (progress self.new) (F.seen flash.old)
            (F.seen flash.new)) }
        ensures out { IfErr result (λ e. (e ≡ FlashError.Memory) × RanOut (F.seen flash.old)
            (F.seen flash.new)) }
    {
        if self.leap_on(flash, &op)? {
            return Ok(());
        }
        match self.make(flash, op) {
            Ok(()) | Err(FlashError::NotErased) => Ok(()),
            Err(FlashError::Memory) => Err(FlashError::Memory),
        }
    }

    /// The course of its operations; none where it has none.
    pub(crate) fn course(&self) -> Option<Course>
        ensures { result ≡ self.now.course }
    {
        self.course
    }

    /// How many operations happened.
    pub fn count(&self) -> u32
        ensures { result ≡ (progress self.now).count }
    {
        self.done
    }

    /// Makes all operations that are left. After one that is refused the boot is at its end.
    /// Promised: a boot ends; only a flash that does not count fails it (`goes`, `end`, `spends`, `counts`).
    ///
    /// # Errors
    ///
    /// `Memory` where the flash can't grow.
    pub fn finish<F: Flash>(&mut self, flash: &mut F) -> Result<(), FlashError>
        requires layout { IsBootOf (F.seen flash.old).geometry self.old }
        requires room { Allows (left_of (F.seen flash.old).geometry (progress self.old))
            (F.seen flash.old) }
        ensures goes { GoesOn self.old (F.seen flash.old) self.new (F.seen flash.new) }
        ensures end { MatchResult result (λ _. to_come self.new ≡ [])
            (λ e. e ≡ FlashError.Memory) }
        // With that room it fails only where the flash takes memory as it goes.
        ensures spends { Spends (length (to_come self.old)) (F.seen flash.old) result
            (F.seen flash.new) }
        // What it counts is no more than was to come.
        ensures counts { CountsOn (progress self.old) (progress self.new) (F.seen flash.old)
            (F.seen flash.new) }
    {
        'steps: while let Some(op) = self.next_op() {
            self.stride(flash, op)?;
        }
        Ok(())
    }

    /// The type that the boot chose at power-on.
    pub fn kind(&self) -> SwapType
        ensures { result ≡ (progress self.now).kind }
    {
        self.kind
    }

    /// What the boot has done, to be asked at its end, where `peek` gives none. It reads and hashes each slot once.
    /// Promised, also of `outcome_among`: the uncut boot's outcome, whatever images are known (`report`, `end`).
    pub fn outcome<F: Flash>(&self, flash: &F) -> Outcome
        ensures report { let p = progress self.now in shown result
            ≡ report p.rules (F.seen flash.now).geometry p.kind p.count p.faulted
            (F.seen flash.now).content }
        // At the end it is the outcome of the uncut boot from the flash at power-on.
        ensures end { (r : Rules) (s : Content) → let x = power_on r (F.seen flash.now).geometry s
            in HasCome x (progress self.now) (F.seen flash.now).content → to_come self.now ≡ []
            → outcome_of x ≡ Some (shown result) }
    {
        self.outcome_among(flash, &[])
    }

    /// What the boot has done, to be asked at its end, where `peek` gives none. It reads each slot
    /// once, and hashes it where its image is none of those that are known.
    pub fn outcome_among<F: Flash>(&self, flash: &F, known: &[Option<KnownImage<'_>>]) -> Outcome
        ensures report { let p = progress self.now in shown result
            ≡ report p.rules (F.seen flash.now).geometry p.kind p.count p.faulted
            (F.seen flash.now).content }
        // At the end it is the outcome of the uncut boot from the flash at power-on.
        ensures end { (r : Rules) (s : Content) → let x = power_on r (F.seen flash.now).geometry s
            in HasCome x (progress self.now) (F.seen flash.now).content → to_come self.now ≡ []
            → outcome_of x ≡ Some (shown result) }
    {
        Outcome::read(flash, self.rules, self.kind, self.done, self.faulted, known)
    }
}

/// The outcome of the boot after a power cut, from the outcome that the boot that was cut would have had.
/// Promised: the outcome after a cut, and one flash is left (`outcome`, `left`).
///
/// `cut` is the boot at the cut, `whole` its outcome without the cut, and `next` the boot at power-on after it. There is an
/// outcome where the next boot goes on within a transfer of the one that was cut or after the last one, where it begins the
/// same swap again, and where the cut is before the first operation. It leaves the flash then that the other would have left.
/// Elsewhere there is none, and the boot has to be run. The two boots are compared in constant time, and no flash is read.
pub fn outcome_after(cut: &Boot, whole: &Outcome, next: &Boot) -> Option<Outcome>
    ensures outcome { (x : PowerOn) (u : Content) → IsCut x u cut.now (shown whole.now)
        → IsBootOf x.geometry next.now → progress next.now ≡ begun x.rules (plan (again x u))
        → IfSome result (λ outcome. outcome_of (again x u) ≡ Some (shown outcome)) }
    // And both leave the same flash.
    ensures left { (x : PowerOn) (u : Content) → IsCut x u cut.now (shown whole.now)
        → IsBootOf x.geometry next.now → progress next.now ≡ begun x.rules (plan (again x u))
        → IfSome result (λ _. left_by (again x u) ≡ left_by x) }
{
    let Some(course) = &cut.course else {
        return None;
    };
    if cut.done == 0 {
        return Some(*whole);
    }
    let Some(following) = &next.course else {
        return None;
    };
    let kept = count_kept(course, cut.done, following)?;
    let outcome = Outcome {
        kind: next.kind,
        ops: whole.ops.saturating_sub(kept),
        ..*whole
    };
    Some(outcome)
}
