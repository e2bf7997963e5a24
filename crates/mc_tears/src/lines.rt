//! The lines of the cases of a boot's operations, each operation's by themselves.
ghost use Rattle.std.specs.Prelude.{◌≡◌, IfOk, map};
ghost use Rattle.std.specs.Vec.{vec_capacity};
ghost use Rattle.mc_explore.specs.inner.OneRound.{begins};
ghost use Rattle.mc_start.specs.Start.{begun};
ghost use Rattle.mc_tears.specs.Tears.{number_text, numbers};
ghost use Rattle.mc_tears.specs.inner.Standing.{CanMark, HoldsSlot, IsWhole, Stands};

use crate::cases::Asked;
use crate::end::Whole;
use crate::error::TearError;
use crate::loading::{Loaded, load};
use crate::tears::write_next;
use mc_explore::{OneRound, Start};
use mc_flash::Flash;
use std::alloc::Global;

// Those of a boot that begins where the flash stands.
fn all_lines<F: Flash>(
    alloc: Global,
    rounds: &OneRound<'_>,
    flash: &mut F,
    whole: &Whole,
    asked: &Asked,
    buffer: &mut Vec<u8>,
) -> Result<Vec<Vec<u8>>, TearError>
    requires whole { IsWhole (begins rounds.now) whole.now }
    requires stands { Stands (begins rounds.now) whole.now.summary.boot (F.seen flash.old) }
    requires marks { CanMark 2 (F.seen flash.old) }
    requires buffer { HoldsSlot (F.seen flash.old).geometry (vec_capacity buffer.old) }
    ensures { let x = begins rounds.now in IfOk result (λ all. map (λ text. text.items) all.items
        ≡ map (number_text asked.now x) (numbers x)) }
{
    let mut here = whole.begin();
    let mut lines = Vec::new(alloc);
    for _number in 0..whole.summary.outcome.ops {
        let mut text = Vec::new(alloc);
        write_next(rounds, flash, whole, &mut here, asked, buffer, &mut text)?;
        let Ok(()) = lines.push(text) else {
            return Err(TearError::Memory);
        };
    }
    Ok(lines)
}

/// For each operation of the boot from a start the lines of its cases that are told, as `write_tears` writes them.
///
/// # Errors
///
/// Where memory failed.
pub fn tear_lines<F: Flash + Drop>(
    alloc: Global,
    start: &Start,
    asked: &Asked,
) -> Result<Vec<Vec<u8>>, TearError>
    ensures { let x = begun start.now in IfOk result (λ all. map (λ text. text.items) all.items
        ≡ map (number_text asked.now x) (numbers x)) }
{
    let rounds = OneRound { start };
    let mut loaded = load::<F>(alloc, &rounds)?;
    let Loaded {
        flash,
        buffer,
        whole,
    } = &mut loaded;
    all_lines(alloc, &rounds, flash, whole, asked, buffer)
}
