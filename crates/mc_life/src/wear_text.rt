//! How often sectors were erased, as text.
ghost use Rattle.std.specs.Prelude.{◌≡◌, ◌≤◌, ◌++◌, codes, decimal, length, OnErr, OnOk};
ghost use Rattle.std.specs.Io.KnownBytes.{Appends};
ghost use Rattle.mc_life.specs.Device.{IsMost, OfWear, total};
ghost use Rattle.mc_output.specs.Text.{AppendsPrefix};

use crate::wear::Wear;
use mc_flash::Slot;
use mc_output::{Line, WriteFailed, write_line};
use std::io::Write;

// The most erases of a sector, and the first sector that was erased as often.
#[derive(Clone, Copy)]
struct Most {
    count: u64,
    sector: usize,
}

// The sector that was erased most often.
fn most_of(counts: &[u64]) -> Most
    ensures { IsMost counts.now (record { count = result.count; sector = result.sector }) }
{
    let mut most = Most {
        count: 0,
        sector: 0,
    };
    if let Some(first) = counts.first() {
        most.count = *first;
    }
    let mut sector = 0;
    'sectors: for count in counts {
        if most.count < *count {
            most = Most {
                count: *count,
                sector,
            };
        }
        sector += 1;
    }
    most
}

// All erases of a slot.
fn total(counts: &[u64]) -> u64
    ensures { result ≡ total counts.now }
{
    let mut all: u64 = 0;
    'sectors: for count in counts {
        all = all.saturating_add(*count);
    }
    all
}

// The line of a slot.
fn slot_line(name: &str, most: Most, all: u64) -> Line
    requires { length name.now ≤ 9 }
    ensures { result ≡ codes "wear " ++ (name.now ++ (codes " " ++ (decimal most.count ++ (codes " "
        ++ (decimal most.sector ++ (codes " " ++ (decimal all ++ codes "\n"))))))) }
{
    let mut line = Line::new();
    line.put("wear ");
    line.put(name);
    line.put(" ");
    line.put_long_number(most.count);
    line.put(" ");
    line.put_long_number(most.sector as u64);
    line.put(" ");
    line.put_long_number(all);
    line.put("\n");
    line
}

/// Writes a line for each slot: how often its most erased sector was erased, the first such sector, and how often all were.
/// Promised: erases are counted up to the largest `u64` (`whole`, `prefix`).
///
/// # Errors
///
/// `WriteFailed` where a write fails or takes no bytes.
pub fn write_wear<W: Write>(wear: &Wear, writer: &mut W) -> Result<(), WriteFailed>
    ensures whole { OnOk result
        (OfWear wear.now (Appends (W.contents writer.old) (W.contents writer.new))) }
    ensures prefix { OnErr result
        (OfWear wear.now (AppendsPrefix (W.contents writer.old) (W.contents writer.new))) }
{
    let primary = wear.counts(Slot::Primary);
    let secondary = wear.counts(Slot::Secondary);
    let first = slot_line("primary", most_of(primary), total(primary));
    let second = slot_line("secondary", most_of(secondary), total(secondary));
    write_line(writer, &first)?;
    write_line(writer, &second)
}
