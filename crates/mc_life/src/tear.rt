//! What power that is lost within an operation leaves.
ghost use Rattle.std.specs.Prelude.{◌≡◌, ◌≤◌, IfErr, IfOk, IfSome, option_map};
ghost use Rattle.std.specs.Vec.{vec_capacity};
ghost use Rattle.mc_flash.specs.Usage.{HasRoom};
ghost use Rattle.mc_life.specs.Device.{torn_so};
ghost use Rattle.mc_life.specs.inner.Tearing.{Puts};
ghost use Rattle.mc_tear.specs.Cases.{written_len};
ghost use Rattle.mc_tear.specs.inner.Room.{Applies, tear_counts};

use mc_flash::{Flash, FlashError, Grain, Op, Slot};
use mc_tear::{Erasing, Fields, Reading, is_case, put_torn, written_len};
use std::alloc::{AllocError, Global};

/// For so many boots a flash that counts has room.
const MOST_BOOTS: u32 = 32;

// Tears an operation before which the flash stands, where it can be read so; whether it can. Where it can't, the flash stays as it is.
fn put_case<F: Flash>(
    flash: &mut F,
    op: &Op,
    erasing: Erasing,
    reading: &Reading,
    buffer: &mut Vec<u8>,
) -> Result<bool, AllocError>
    requires applies { Applies op.now (F.seen flash.old) }
    requires buffer { written_len (F.seen flash.old).geometry op.now ≤ vec_capacity buffer.old }
    requires room { HasRoom (tear_counts (F.seen flash.old).geometry) (F.seen flash.old) }
    ensures puts { IfOk result (Puts erasing op.now reading.now (F.seen flash.old)
        (F.seen flash.new)) }
    ensures capacity { vec_capacity buffer.new ≡ vec_capacity buffer.old }
{
    let fields = Fields::of(flash, op, erasing);
    if !is_case(flash, op, erasing, &fields, reading, buffer)? {
        return Ok(false);
    }
    put_torn(flash, op, buffer)?;
    Ok(true)
}

/// The same flash with an operation torn before which it stands, so that it is read so, if it can be: it is loaded anew.
///
/// # Errors
///
/// `Memory`.
pub fn torn<F: Flash>(
    alloc: Global,
    flash: &F,
    grain: Grain,
    op: &Op,
    reading: &Reading,
) -> Result<Option<F>, FlashError>
    requires applies { Applies op.now (F.seen flash.now) }
    ensures content { let f = F.seen flash.now in IfOk result (λ made.
        option_map (λ flash. (F.seen flash).content) made
        ≡ torn_so f.geometry op.now f.content reading.now) }
    ensures layout { IfOk result (λ made. IfSome made
        (λ torn. (F.seen torn).geometry ≡ (F.seen flash.now).geometry)) }
    ensures err { IfErr result (λ e. e ≡ FlashError.Memory) }
{
    let layout = flash.layout();
    // Reading a field gives the prover that it is a layout.
    let _unit = layout.unit();
    let mut buffer = Vec::with_capacity(alloc, written_len(layout, op) as usize)?;
    let (primary, secondary) = (flash.read(Slot::Primary), flash.read(Slot::Secondary));
    let mut torn = F::load(alloc, layout, grain, primary, secondary, MOST_BOOTS)?;
    if put_case(&mut torn, op, Erasing::Gentle, reading, &mut buffer)? {
        return Ok(Some(torn));
    }
    if put_case(&mut torn, op, Erasing::Rough, reading, &mut buffer)? {
        return Ok(Some(torn));
    }
    Ok(None)
}
