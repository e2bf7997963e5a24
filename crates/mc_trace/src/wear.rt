//! What the whole swaps of the largest images ask of a flash: how often they erase a sector, and how long they take.
ghost use Rattle.std.specs.Prelude.{◌≡◌, ◌+◌, ◌<◌, ◌≤◌, ◌^◌, ◌++◌, length};
ghost use Rattle.mc_flash.specs.declared.flash.Grain.{Grain};
ghost use Rattle.mc_boot.specs.WholeSwap.{largest_swap};
ghost use Rattle.mc_trace.specs.inner.Swaps.{trailers_of, fields_of};
ghost use Rattle.mc_trace.specs.Wear.{most_data_erases, most_trailer_erases, erases, units, time, whole_swap, erases_text, times_text, wear_text};

use mc_flash::{Layout, Slot};
use mc_output::{Line, MOST_LINE};
use mc_trailer::SwapType;

/// How long a flash takes, in microseconds.
#[derive(Clone, Copy, Debug, PartialEq, Eq)]
pub struct Times {
    /// To erase a sector.
    pub erase_us: u32,
    /// To write one unit.
    pub write_us: u32,
}

// The most erases of one sector of a slot.
#[derive(Clone, Copy)]
struct Wear {
    // Of the sectors before the trailer.
    data: u32,
    // Of those of the trailer.
    trailer: u32,
}

// How often the swap for a test erases the sectors of a slot.
fn swap_wear(layout: &Layout, slot: Slot) -> Wear
    ensures data { (c : Grain)
        → result.data ≡ most_data_erases layout.now slot (largest_swap c layout.now) }
    ensures trailer { (c : Grain)
        → result.trailer ≡ most_trailer_erases layout.now slot (largest_swap c layout.now) }
{
    let sectors = layout.greatest_sectors();
    // In the primary an image moves up by one sector, and then the other comes in: of one sector each, they lie apart.
    let data = match slot {
        Slot::Primary => sectors.min(2),
        Slot::Secondary => 1,
    };
    Wear { data, trailer: 1 }
}

// How many trailers a whole swap erases: both, and before a revert the secondary's once more.
fn trailers(kind: SwapType) -> u32
    ensures count { result ≡ trailers_of kind }
    ensures few { result ≤ 3 }
{
    match kind {
        SwapType::Revert => 3,
        _ => 2,
    }
}

// How many units it writes into fields, of which the size and the magic have so many: these, the type and copy-done; image-ok
// except for a test; and before a revert image-ok, the size and the magic in the secondary.
fn fields(kind: SwapType, marking: u32) -> u32
    requires { marking ≤ 20 }
    ensures count { result ≡ fields_of kind marking }
    ensures few { result ≤ 44 }
{
    match kind {
        SwapType::Test => 2 + marking,
        SwapType::Revert => 4 + 2 * marking,
        _ => 3 + marking,
    }
}

// How many sectors it erases.
fn swap_erases(layout: &Layout, kind: SwapType) -> u32
    ensures count { (c : Grain) → result ≡ erases (whole_swap c layout.now kind) }
    ensures few { result < 2 ^ 20 }
{
    trailers(kind) * layout.trailer_sectors() + 3 * layout.greatest_sectors()
}

// How many units it writes.
fn swap_units(layout: &Layout, kind: SwapType) -> u32
    ensures count { (c : Grain) → result ≡ units layout.now (whole_swap c layout.now kind) }
    ensures few { result < 2 ^ 28 }
{
    let unit = layout.unit();
    let marking = unit.max(4) / unit + 16 / unit;
    let transfer = layout.sector() / unit + 1;
    fields(kind, marking) + 3 * layout.greatest_sectors() * transfer
}

// How long a whole swap takes, in microseconds.
fn swap_time(layout: &Layout, kind: SwapType, times: Times) -> u64
    ensures time { (c : Grain) → result ≡ time times layout.now (whole_swap c layout.now kind) }
{
    u64::from(swap_erases(layout, kind)) * u64::from(times.erase_us)
        + u64::from(swap_units(layout, kind)) * u64::from(times.write_us)
}

// Adds the most erases of one sector: at most 124 bytes.
fn put_erases(line: &mut Line, layout: &Layout)
    requires { length line.old + 124 ≤ MOST_LINE }
    ensures text { line.new ≡ line.old ++ erases_text layout.now }
    ensures length { length line.new ≤ length line.old + 124 }
{
    let primary = swap_wear(layout, Slot::Primary);
    let secondary = swap_wear(layout, Slot::Secondary);
    line.put("primary erases ");
    line.put_number(primary.data);
    line.put("\nsecondary erases ");
    line.put_number(secondary.data);
    line.put("\nprimary trailer-erases ");
    line.put_number(primary.trailer);
    line.put("\nsecondary trailer-erases ");
    line.put_number(secondary.trailer);
    line.put("\n");
}

// Adds how long the swap for a test takes, and the revert: at most 60 bytes.
fn put_times(line: &mut Line, layout: &Layout, times: Times)
    requires { length line.old + 60 ≤ MOST_LINE }
    ensures text { line.new ≡ line.old ++ times_text layout.now times }
    ensures length { length line.new ≤ length line.old + 60 }
{
    line.put("swap-us ");
    line.put_long_number(swap_time(layout, SwapType::Test, times));
    line.put("\nrevert-us ");
    line.put_long_number(swap_time(layout, SwapType::Revert, times));
    line.put("\n");
}

/// Adds what the whole swaps of the largest images ask of the flash, a line each: at most 184 bytes.
pub fn put_wear(line: &mut Line, layout: &Layout, times: Option<Times>)
    requires { length line.old + 184 ≤ MOST_LINE }
    ensures { line.new ≡ line.old ++ wear_text layout.now times }
{
    put_erases(line, layout);
    if let Some(times) = times {
        put_times(line, layout, times);
    }
}
