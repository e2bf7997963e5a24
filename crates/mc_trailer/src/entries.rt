//! The status entries of the primary: which steps of a swap were made.
ghost use Rattle.std.specs.Prelude.{◌≡◌, ℕ, ◌+◌, ◌≤◌, ◌<◌, ◌*◌, true, false};
ghost use Rattle.mc_trailer.specs.Trailer.{IsHighest, is_written, highest_entry};

use crate::places::entry_place;
use mc_flash::{Flash, Slot, blank};

// Whether a status entry is written: its bytes are not all 0xff.
fn is_written<F: Flash>(flash: &F, entry: u32) -> bool
    requires { entry < 3 * (F.seen flash.now).geometry.max_sectors }
    ensures { result ≡ is_written (F.seen flash.now).geometry (F.seen flash.now).content entry }
{
    let layout = flash.layout();
    let at = entry_place(layout, entry) as usize;
    !blank(&flash.read(Slot::Primary)[at..at + layout.unit() as usize])
}

// Whether eight status entries are blank together: none of them is written then.
#[tactic(auto, using(crate::specs::facts::Places::group_inside))]
fn none_written<F: Flash>(flash: &F, first: u32) -> bool
    requires { first + 8 ≤ 3 * (F.seen flash.now).geometry.max_sectors }
    ensures { result ≡ true → (e : ℕ) → first ≤ e → e < first + 8
        → is_written (F.seen flash.now).geometry (F.seen flash.now).content e ≡ false }
{
    let layout = flash.layout();
    let at = entry_place(layout, first) as usize;
    blank(&flash.read(Slot::Primary)[at..at + 8 * layout.unit() as usize])
}

// How many entries are left when those are passed over from the end that are blank, eight at a time.
fn without_blank_end<F: Flash>(flash: &F) -> u32
    ensures at_most { result ≤ 3 * (F.seen flash.now).geometry.max_sectors }
    ensures none { (e : ℕ) → result ≤ e → e < 3 * (F.seen flash.now).geometry.max_sectors
        → is_written (F.seen flash.now).geometry (F.seen flash.now).content e ≡ false }
{
    let mut end = 3 * flash.layout().max_sectors();
    while let Some(first) = end.checked_sub(8) {
        if !none_written(flash, first) {
            return end;
        }
        end = first;
    }
    end
}

/// The highest status entry of the primary that is written: one whose bytes are not all 0xff. It takes no memory.
/// Promised: the highest written entry, or none (`value`, `highest`).
#[tactic(auto, using(crate::specs::facts::Entries::highest_is, crate::specs::facts::Entries::greatest_at, crate::specs::facts::Entries::none_passes))]
pub fn highest_entry<F: Flash>(flash: &F) -> Option<u32>
    ensures value { result ≡ highest_entry (F.seen flash.now).geometry (F.seen flash.now).content }
    ensures highest { IsHighest (F.seen flash.now).geometry (F.seen flash.now).content result }
{
    for entry in (0..without_blank_end(flash)).rev() {
        if is_written(flash, entry) {
            return Some(entry);
        }
    }
    None
}
