//! One boot of a device, and what it erases.
ghost use Rattle.std.specs.List.{between};
ghost use Rattle.std.specs.Prelude.{◌≡◌, ◌⊎◌, ◌+◌, ◌≤◌, true, [], length, take, IfErr, IfOk, IfSome, IsSomeAnd, OnOk, Some, is_some};
ghost use Rattle.mc_flash.specs.Flash.{CanTry, IsRange, apply, is_blank, bytes_of};
ghost use Rattle.mc_boot.specs.Boot.{progress, to_come, IsBootOf, HasCome};
ghost use Rattle.mc_boot.specs.Life.{is_boot};
ghost use Rattle.mc_boot.specs.Outcome.{outcome_of, shown, after, left_by, ops_of};
ghost use Rattle.mc_boot.specs.Plan.{plan, powered};
ghost use Rattle.mc_life.specs.Device.{Cuts, LosesSo, RefusesCuts, RefusesTear, Stops, cut_ops, worn};
ghost use Rattle.mc_tear.specs.inner.Room.{Applies};

use crate::error::EventError;
use crate::tear::torn;
use crate::wear::Wear;
use mc_boot::{Boot, BootResult, KnownImage, Outcome};
use mc_flash::{Flash, FlashError, Op, Slot, blank};
use mc_tear::{Reading, readings_law};
use mc_trailer::Rules;
use std::alloc::Global;

/// Whether an image runs after a boot that ends so.
pub fn starts(ended: BootResult) -> bool
    ensures { result ≡ is_boot ended }
{
    match ended {
        BootResult::Boot => true,
        BootResult::None | BootResult::Panic | BootResult::Fault => false,
    }
}

// Whether the bytes of a part of a slot are all 0xff.
fn is_free<F: Flash>(flash: &F, slot: Slot, at: u32, len: u32) -> bool
    requires { IsRange (F.seen flash.now).geometry slot at len }
    ensures { result ≡ is_blank (between at (at + len) (bytes_of (F.seen flash.now).content slot)) }
{
    blank(&flash.read(slot)[at as usize..at as usize + len as usize])
}

// Whether the flash would do an operation.
#[tactic(auto, unfolding(mc_flash::specs::Flash::apply))]
fn is_defined<F: Flash>(flash: &F, op: &Op) -> bool
    requires { CanTry (F.seen flash.now).geometry op.now }
    ensures { let f = F.seen flash.now in result ≡ is_some (apply f.geometry op.now f.content) }
{
    match *op {
        Op::Erase(_, _) => true,
        Op::Program(slot, at, bytes) => is_free(flash, slot, at, bytes.bytes().len() as u32),
        Op::Copy(from, _, to, offset, len) => {
            // Reading a slot gives the prover its length.
            let _from = flash.read(from);
            is_free(flash, to, offset, len)
        }
    }
}

// Runs a boot from power-on until so many operations happened, or to its end.
fn run<F: Flash>(
    flash: &mut F,
    wear: &mut Wear,
    rules: Rules,
    until: Option<u32>,
    known: &[Option<KnownImage<'_>>],
) -> Result<Boot, FlashError>
    ensures come { IfOk result (λ boot. HasCome (powered rules (F.seen flash.old)) (progress boot)
        (F.seen flash.new).content) }
    ensures below { IfOk result (λ boot. IfSome until (λ n. (progress boot).count ≤ n)) }
    ensures end { IfOk result (λ boot. (to_come boot ≡ [])
        ⊎ IsSomeAnd until (λ n. (progress boot).count ≡ n)) }
    ensures layout { (F.seen flash.new).geometry ≡ (F.seen flash.old).geometry }
    ensures inside { IfOk result (IsBootOf (F.seen flash.new).geometry) }
    ensures wear { IfOk result (λ boot. wear.new ≡ worn wear.old
        (take (progress boot).count (plan (powered rules (F.seen flash.old))).list)) }
    ensures err { IfErr result (λ e. e ≡ FlashError.Memory) }
{
    let mut boot = Boot::cold_among(flash, rules, known);
    wear.idles();
    'steps: while until.is_none_or(|until| boot.count() < until) {
        let Some(op) = boot.peek() else {
            return Ok(boot);
        };
        match boot.step(flash) {
            Ok(()) => wear.note(op),
            Err(FlashError::NotErased) => {}
            Err(FlashError::Memory) => return Err(FlashError::Memory),
        }
    }
    Ok(boot)
}

// Runs a boot from power-on until so many operations happened. The operation before which it stands; none where the boot makes no more
// than that: then it has come to its end.
fn go_to<F: Flash>(
    flash: &mut F,
    wear: &mut Wear,
    rules: Rules,
    count: u32,
    known: &[Option<KnownImage<'_>>],
) -> Result<Option<Op>, FlashError>
    ensures comes { IfOk result (Stops (powered rules (F.seen flash.old)) count
        (F.seen flash.new).content) }
    ensures applies { IfOk result (λ next. IfSome next (λ op. Applies op (F.seen flash.new))) }
    ensures layout { (F.seen flash.new).geometry ≡ (F.seen flash.old).geometry }
    ensures wear { IfOk result (λ next. IfSome next (λ _. wear.new ≡ worn wear.old
        (take count (ops_of (powered rules (F.seen flash.old)))))) }
    ensures err { IfErr result (λ e. e ≡ FlashError.Memory) }
{
    let boot = run(flash, wear, rules, Some(count), known)?;
    if boot.count() < count {
        return Ok(None);
    }
    // Reading the slots gives the prover their sizes.
    let _primary = flash.read(Slot::Primary);
    let _secondary = flash.read(Slot::Secondary);
    let Some(op) = boot.peek() else {
        return Ok(None);
    };
    if !is_defined(flash, &op) {
        return Ok(None);
    }
    Ok(Some(op))
}

/// Runs a boot from power-on, and cuts the power after so many operations. False where it makes no more than that: then it has
/// come to its end.
///
/// # Errors
///
/// `Memory`, where the flash can't grow.
pub fn cut<F: Flash>(
    flash: &mut F,
    wear: &mut Wear,
    rules: Rules,
    count: u32,
    known: &[Option<KnownImage<'_>>],
) -> Result<bool, FlashError>
    ensures cuts { IfOk result (λ occurs. Cuts (powered rules (F.seen flash.old)) count occurs
        (F.seen flash.new).content) }
    ensures layout { (F.seen flash.new).geometry ≡ (F.seen flash.old).geometry }
    ensures wear { IfOk result (λ occurs. occurs ≡ true → wear.new ≡ worn wear.old
        (take count (ops_of (powered rules (F.seen flash.old))))) }
    ensures err { IfErr result (λ e. e ≡ FlashError.Memory) }
{
    Ok(go_to(flash, wear, rules, count, known)?.is_some())
}

/// Runs a boot from power-on, and loses power within the operation of that number, of which the next boot reads this.
///
/// # Errors
///
/// `CannotOccur` where the boot makes no more than that; `NoCase` where the operation leaves nothing that is read so; `Memory`.
pub fn tear<F: Flash>(
    alloc: Global,
    flash: &mut F,
    wear: &mut Wear,
    rules: Rules,
    count: u32,
    reading: &Reading,
    known: &[Option<KnownImage<'_>>],
) -> Result<(), EventError>
    ensures loses { OnOk result (LosesSo (powered rules (F.seen flash.old)) count reading.now
        (F.seen flash.new).content) }
    ensures layout { OnOk result ((F.seen flash.new).geometry ≡ (F.seen flash.old).geometry) }
    ensures wear { OnOk result (wear.new ≡ worn wear.old
        (take (count + 1) (ops_of (powered rules (F.seen flash.old))))) }
    ensures refused { IfErr result
        (RefusesTear (powered rules (F.seen flash.old)) count reading.now) }
{
    readings_law();
    let Some(op) = go_to(flash, wear, rules, count, known)? else {
        return Err(EventError::CannotOccur(0));
    };
    // Reading a field gives the prover that it is a layout.
    let _unit = flash.layout().unit();
    let Some(torn) = torn(alloc, flash, rules.grain, &op, reading)? else {
        return Err(EventError::NoCase);
    };
    *flash = torn;
    wear.note(op);
    Ok(())
}

/// Runs a boot from power-on to its end.
///
/// # Errors
///
/// `Memory`, where the flash can't grow.
pub fn boot<F: Flash>(
    flash: &mut F,
    wear: &mut Wear,
    rules: Rules,
    known: &[Option<KnownImage<'_>>],
) -> Result<Outcome, FlashError>
    ensures left { let x = powered rules (F.seen flash.old) in IfOk result
        (λ _. left_by x ≡ Some (F.seen flash.new).content) }
    ensures outcome { IfOk result (λ o. outcome_of (powered rules (F.seen flash.old))
        ≡ Some (shown o)) }
    ensures layout { (F.seen flash.new).geometry ≡ (F.seen flash.old).geometry }
    ensures wear { IfOk result (λ _. wear.new ≡ worn wear.old
        (ops_of (powered rules (F.seen flash.old)))) }
    ensures err { IfErr result (λ e. e ≡ FlashError.Memory) }
{
    let boot = run(flash, wear, rules, None, known)?;
    Ok(boot.outcome_among(flash, known))
}

/// Runs boots from power-on, each cut after so many operations, one after another.
///
/// # Errors
///
/// `CannotOccur` with the number of the first cut that can't occur; `Memory`, where the flash can't grow.
pub fn cut_all<F: Flash>(
    flash: &mut F,
    wear: &mut Wear,
    rules: Rules,
    cuts: &[u32],
    known: &[Option<KnownImage<'_>>],
) -> Result<(), EventError>
    requires { length cuts.now ≤ 16 }
    ensures after { OnOk result (after (powered rules (F.seen flash.old)) cuts.now
        ≡ Some (F.seen flash.new).content) }
    ensures layout { OnOk result ((F.seen flash.new).geometry ≡ (F.seen flash.old).geometry) }
    ensures wear { OnOk result (wear.new
        ≡ worn wear.old (cut_ops (powered rules (F.seen flash.old)) cuts.now)) }
    ensures refused { IfErr result (RefusesCuts (powered rules (F.seen flash.old)) cuts.now) }
{
    wear.idles();
    let mut number = 0;
    'cuts: for count in cuts {
        if !cut(flash, wear, rules, *count, known)? {
            return Err(EventError::CannotOccur(number));
        }
        number += 1;
    }
    Ok(())
}
