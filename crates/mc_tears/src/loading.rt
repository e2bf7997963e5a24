//! A start that is loaded, with room for each case of its boot.
ghost use Rattle.std.specs.Prelude.{◌≡◌, IfOk};
ghost use Rattle.std.specs.Vec.{vec_capacity};
ghost use Rattle.mc_start.specs.Start.{begun};
ghost use Rattle.mc_tears.specs.inner.Standing.{IsLoaded};

use crate::end::{Whole, run_and_return};
use mc_explore::OneRound;
use mc_flash::{Flash, Slot};
use std::alloc::{AllocError, Global};

/// The flash of a start, a buffer with room for the bytes of a slot, and the boot from there, which was run.
#[derive(Drop)]
pub(crate) struct Loaded<F> {
    pub flash: F,
    pub buffer: Vec<u8>,
    pub whole: Whole,
}

/// Loads a start, and runs its boot.
///
/// # Errors
///
/// Where memory failed.
pub(crate) fn load<F: Flash + Drop>(
    alloc: Global,
    rounds: &OneRound<'_>,
) -> Result<Loaded<F>, AllocError>
    ensures { IfOk result (λ loaded. IsLoaded F.counted (begun rounds.now.start.now) loaded.whole
        (F.seen loaded.flash) (vec_capacity loaded.buffer)) }
{
    let start = rounds.start;
    let layout = *start.layout();
    let most = layout.size(Slot::Primary).max(layout.size(Slot::Secondary));
    // A boot, what it leads to where it is torn, and what is put in there.
    let mut flash = F::load(
        alloc,
        &layout,
        start.rules().grain,
        start.primary(),
        start.secondary(),
        3,
    )?;
    let buffer = Vec::with_capacity(alloc, most as usize)?;
    let whole = run_and_return(rounds, &mut flash)?;
    Ok(Loaded {
        flash,
        buffer,
        whole,
    })
}
