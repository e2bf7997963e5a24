//! The torn cases of the boots of a schedule, for a page.
ghost use Rattle.std.specs.Prelude.{◌≡◌, ◌∷◌, [], IfOk, OnOk, Some, false, map};
ghost use Rattle.mc_boot.specs.Plan.{again};
ghost use Rattle.mc_explore.specs.Boots.{at_cut};
ghost use Rattle.mc_explore.specs.Schedules.{CanOccur};
ghost use Rattle.mc_start.specs.Start.{begun};
ghost use Rattle.mc_trace.specs.inner.Torn.{AddsTorn, AreTornAlong};

use mc_explore::{Expectation, Schedule, Start, flash_at_cut};
use mc_flash::Flash;
use mc_tears::{Asked, Erasing, tear_lines};
use std::alloc::{AllocError, Global};

// The start from what is left where a boot is cut.
fn start_at<F: Flash>(alloc: Global, start: &Start, cut: u32) -> Result<Start, AllocError>
    requires { CanOccur (begun start.now) (cut ∷ []) }
    ensures { IfOk result (λ then. begun then
        ≡ again (begun start.now) (at_cut (begun start.now) cut)) }
{
    match flash_at_cut::<F>(alloc, start, &Schedule::of(&[cut])) {
        Ok(flash) => start.again(alloc, &flash),
        Err(_) => Err(AllocError),
    }
}

// Adds the lines of the boots of some cuts, and of the last one.
fn add_lines<F: Flash + Drop>(
    alloc: Global,
    start: &Start,
    cuts: &[u32],
    asked: &Asked,
    torn: &mut Vec<Vec<Vec<u8>>>,
) -> Result<(), AllocError>
    requires asked { asked.now.all ≡ false }
    requires occurs { CanOccur (begun start.now) cuts.now }
    ensures { OnOk result (AddsTorn (Some asked.now.erasing) asked.now.expectation (begun start.now)
        cuts.now (map (λ lines. map (λ text. text.items) lines.items) torn.old.items)
        (map (λ lines. map (λ text. text.items) lines.items) torn.new.items)) }
{
    let Ok(lines) = tear_lines::<F>(alloc, start, asked) else {
        return Err(AllocError);
    };
    let Ok(()) = torn.push(lines) else {
        return Err(AllocError);
    };
    let Some((cut, rest)) = cuts.split_first() else {
        return Ok(());
    };
    let next = start_at::<F>(alloc, start, *cut)?;
    add_lines::<F>(alloc, &next, rest, asked, torn)
}

/// For each boot of some cuts and the last one, for each of its operations, the lines of its torn cases that end otherwise than a cut; nothing
/// where it is not given how an erase fails.
///
/// # Errors
///
/// Where memory failed.
pub(crate) fn torn_along<F: Flash + Drop>(
    alloc: Global,
    start: &Start,
    cuts: &[u32],
    expectation: &Expectation,
    torn: Option<Erasing>,
) -> Result<Vec<Vec<Vec<u8>>>, AllocError>
    requires { CanOccur (begun start.now) cuts.now }
    ensures { IfOk result (λ boots. AreTornAlong torn expectation.now (begun start.now) cuts.now
        (map (λ lines. map (λ text. text.items) lines.items) boots.items)) }
{
    let mut boots = Vec::new(alloc);
    let Some(erasing) = torn else {
        return Ok(boots);
    };
    let asked = Asked {
        erasing,
        all: false,
        expectation: *expectation,
    };
    add_lines::<F>(alloc, start, cuts, &asked, &mut boots)?;
    Ok(boots)
}
