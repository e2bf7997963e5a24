//! The room that a journal takes when its flash is loaded.
ghost use Rattle.std.specs.Prelude.{◌≡◌, ◌+◌, ◌*◌, ◌≤◌};
ghost use Rattle.mc_flash.specs.Geometry.{Geometry, IsLayout};
ghost use Rattle.mc_flash.specs.Usage.{limits_for, most_operations, most_saved};

use crate::flash::Grain;
use crate::layout::Layout;

/// How many entries, saved bytes and checkpoints a journal has room for.
#[derive(Clone, Copy)]
pub struct Reserve {
    pub entries: usize,
    pub saved: usize,
    pub checkpoints: usize,
}

// The operations of three transfers for each of so many sectors, each transfer of so many pieces: at most 3,072 of 65,538.
fn transfer_operations(sectors: u32, pieces: u32) -> u64
    requires sectors { sectors ≤ 1024 }
    requires pieces { pieces ≤ 65536 }
    ensures value { result ≡ 3 * sectors * (pieces + 2) }
    ensures at_most { result ≤ 201332736 }
{
    3 * sectors as u64 * (pieces as u64 + 2)
}

/// The most operations of a boot: those of its transfers, and those on the trailers. It takes no memory.
pub fn most_operations(layout: &Layout, grain: Grain) -> u64
    ensures value { result ≡ most_operations grain layout.now }
    ensures at_most { result ≤ 204000000 }
{
    let trailers = 3 * layout.trailer_sectors() as u64;
    let sectors = layout.greatest_sectors();
    let unit = layout.unit();
    match grain {
        Grain::Call => trailers
            + 9
            + transfer_operations(sectors, layout.sector() / layout.chunk()),
        Grain::Unit => {
            trailers
                + 5
                + 2 * 4u64.div_ceil(unit as u64)
                + 32 / unit as u64
                + transfer_operations(sectors, layout.sector() / unit)
        }
    }
}

// The most bytes that a boot's erases save: at most three slots of 2^24.
fn most_saved(layout: &Layout) -> u64
    ensures value { result ≡ most_saved layout.now }
    ensures at_most { result ≤ 50331648 }
{
    let sectors = 3 * layout.trailer_sectors() as u64 + 3 * layout.greatest_sectors() as u64;
    sectors * layout.sector() as u64
}

impl Reserve {
    ghost use Rattle.mc_flash.specs.inner.Journal.{limits_of};

    /// The room for so many boots.
    #[tactic(auto, unfolding(crate::specs::Usage::limits_for))]
    pub fn new(layout: &Layout, grain: Grain, boots: u32) -> Reserve
        requires { boots ≤ 32 }
        ensures { limits_of result ≡ limits_for grain layout.now boots }
    {
        Reserve {
            entries: (boots as u64 * most_operations(layout, grain)) as usize,
            saved: (boots as u64 * most_saved(layout)) as usize,
            checkpoints: boots as usize + 1,
        }
    }
}
