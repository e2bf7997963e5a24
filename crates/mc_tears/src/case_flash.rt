//! The flash that a loss of power leaves.
ghost use Rattle.std.specs.Prelude.{◌≡◌, ◌<◌, ◌≤◌, length, option_map, IfOk, IfSome, OnOk};
ghost use Rattle.std.specs.Vec.{vec_capacity};
ghost use Rattle.mc_boot.specs.Outcome.{ops_of};
ghost use Rattle.mc_explore.specs.inner.OneRound.{begins};
ghost use Rattle.mc_flash.specs.Usage.{HasRoom};
ghost use Rattle.mc_start.specs.Start.{begun};
ghost use Rattle.mc_tear.specs.Cases.{written_len};
ghost use Rattle.mc_tear.specs.inner.Room.{Applies, tear_counts};
ghost use Rattle.mc_tears.specs.Losses.{lost};
ghost use Rattle.mc_tears.specs.inner.Standing.{CanMark, IsWhole, Puts, Stands};

use crate::end::Whole;
use crate::loading::load;
use crate::loss::Loss;
use crate::tears::next_op;
use mc_boot::Boot;
use mc_explore::{OneRound, Start};
use mc_flash::{Flash, Op};
use mc_tear::{Erasing, Fields, Reading, is_case, put_torn};
use std::alloc::{AllocError, Global};

// Goes on to the operation of that number.
fn go_to<F: Flash>(
    rounds: &OneRound<'_>,
    flash: &mut F,
    whole: &Whole,
    number: u32,
) -> Result<Boot, AllocError>
    requires whole { IsWhole (begins rounds.now) whole.now }
    requires stands { Stands (begins rounds.now) whole.now.summary.boot (F.seen flash.old) }
    requires marks { CanMark 2 (F.seen flash.old) }
    requires early { number < length (ops_of (begins rounds.now)) }
    ensures stands { IfOk result (λ at. Stands (begins rounds.now) at (F.seen flash.new)) }
    ensures number { IfOk result (λ at. at.done ≡ number) }
    ensures marks { OnOk result (CanMark 2 (F.seen flash.new)) }
{
    let mut at = whole.summary.boot;
    for _number in 0..number {
        rounds.pass(flash, &mut at)?;
    }
    Ok(at)
}

/// Tears an operation before which the flash stands, where that is a case of it; whether it is.
pub(crate) fn put_case<F: Flash>(
    flash: &mut F,
    op: &Op,
    erasing: Erasing,
    reading: &Reading,
    buffer: &mut Vec<u8>,
) -> Result<bool, AllocError>
    requires applies { Applies op.now (F.seen flash.old) }
    requires buffer { written_len (F.seen flash.old).geometry op.now ≤ vec_capacity buffer.old }
    requires room { HasRoom (tear_counts (F.seen flash.old).geometry) (F.seen flash.old) }
    ensures puts { IfOk result (Puts erasing op.now reading.now (F.seen flash.old)
        (F.seen flash.new)) }
    ensures capacity { vec_capacity buffer.new ≡ vec_capacity buffer.old }
{
    let fields = Fields::of(flash, op, erasing);
    if !is_case(flash, op, erasing, &fields, reading, buffer)? {
        return Ok(false);
    }
    put_torn(flash, op, buffer)?;
    Ok(true)
}

/// The flash that a loss of power in the boot from a start leaves. None where it can't occur: the boot has no such operation, or that no such
/// case.
/// Promised: a case's flash, exactly where the boot has it (`content`, `geometry`).
///
/// # Errors
///
/// Where memory failed.
pub fn flash_after<F: Flash + Drop>(
    alloc: Global,
    start: &Start,
    erasing: Erasing,
    loss: &Loss,
) -> Result<Option<F>, AllocError>
    ensures content { IfOk result (λ found. option_map (λ flash. (F.seen flash).content) found
        ≡ lost erasing (begun start.now) loss.now) }
    ensures geometry { IfOk result (λ found. IfSome found
        (λ flash. (F.seen flash).geometry ≡ start.now.geometry)) }
{
    let rounds = OneRound { start };
    let mut loaded = load(alloc, &rounds)?;
    if loss.operation >= loaded.whole.summary.outcome.ops {
        return Ok(None);
    }
    let at = go_to(&rounds, &mut loaded.flash, &loaded.whole, loss.operation)?;
    let Some(reading) = &loss.within else {
        return Ok(Some(loaded.flash));
    };
    let op = next_op(&rounds, &loaded.flash, &at);
    let (flash, buffer) = (&mut loaded.flash, &mut loaded.buffer);
    if !put_case(flash, &op, erasing, reading, buffer)? {
        return Ok(None);
    }
    Ok(Some(loaded.flash))
}
