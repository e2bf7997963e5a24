//! How long the whole swap of the largest images is.
ghost use Rattle.std.specs.Prelude.{◌≡◌};
ghost use Rattle.mc_boot.specs.WholeSwap.{swap_operations, MakesSwap};

use crate::course::{Course, Opening};
use mc_flash::{Grain, Layout};
use mc_image::{one_reading, same_prefix};
use mc_trailer::SwapType;

/// How many operations the whole swap for a test has of two images that fit, the larger of which takes as many sectors as an
/// image may have. It takes no memory.
/// Promised: the largest swap for a test has exactly that many (`value`, `made`).
pub fn swap_operations(layout: &Layout, grain: Grain) -> u32
    ensures value { result ≡ swap_operations grain layout.now }
    // The boot from the start of such images makes so many.
    ensures made { MakesSwap grain layout.now result }
{
    one_reading();
    same_prefix();
    let course = Course::new(
        grain,
        layout.in_pieces(grain),
        layout.greatest_sectors(),
        Opening::New {
            kind: SwapType::Test,
            size: 0,
        },
    );
    course.len()
}
