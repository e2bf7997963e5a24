//! What a boot has done when it is at its end.
ghost use Rattle.std.specs.Prelude.{◌≡◌};
ghost use Rattle.mc_boot.specs.Outcome.{shown, report, result_of};

use crate::boot::Boot;
use crate::image::{Held, ImageId, Images, slot_bytes};
use crate::known::KnownImage;
use mc_flash::{Flash, Slot};
use mc_trailer::{Rules, SwapType};

/// How a boot ends.
#[derive(Clone, Copy, Debug, PartialEq, Eq)]
pub enum BootResult {
    /// The primary holds a valid image, which runs.
    Boot,
    /// The primary holds none.
    None,
    /// The trailers contradict each other.
    Panic,
    /// An operation was refused.
    Fault,
}

/// What a boot has done.
#[derive(Clone, Copy, Debug, PartialEq, Eq)]
pub struct Outcome {
    pub result: BootResult,
    /// The type that the boot chose at power-on.
    pub kind: SwapType,
    /// How many operations happened.
    pub ops: u32,
    /// The valid image of the primary.
    pub primary: Option<ImageId>,
    /// The valid image of the secondary.
    pub secondary: Option<ImageId>,
    /// The type that a boot from the flash as it now is would choose.
    pub next: SwapType,
}

/// How a boot of a type ends.
fn result_of(kind: SwapType, faulted: bool, boots: bool) -> BootResult
    ensures { result ≡ result_of kind faulted boots }
{
    if matches!(kind, SwapType::Panic) {
        BootResult::Panic
    } else if faulted {
        BootResult::Fault
    } else if boots {
        BootResult::Boot
    } else {
        BootResult::None
    }
}

impl Outcome {
    /// The outcome of a boot of that type, of which so many operations happened and one was refused or none, by the flash
    /// that it left. Each slot is read once, and hashed where its image is none of those that are known.
    pub(crate) fn read<F: Flash>(
        flash: &F,
        rules: Rules,
        kind: SwapType,
        ops: u32,
        faulted: bool,
        known: &[Option<KnownImage<'_>>],
    ) -> Outcome
        ensures { shown result
            ≡ report rules (F.seen flash.now).geometry kind ops faulted (F.seen flash.now).content }
    {
        let primary = Held::read_among(slot_bytes(flash, Slot::Primary), known);
        let secondary = Held::read_among(slot_bytes(flash, Slot::Secondary), known);
        let images = Images::new(primary.size, &secondary);
        Outcome {
            result: result_of(kind, faulted, primary.id.is_some()),
            kind,
            ops,
            primary: primary.id,
            secondary: secondary.id,
            next: Boot::begin(flash, rules, Some(images), &[]).kind(),
        }
    }
}
