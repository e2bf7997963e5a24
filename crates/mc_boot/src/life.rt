//! The law of a device's whole life.
ghost use Rattle.mc_trailer.specs.declared.tables.Rules.{Rules};
ghost use Rattle.mc_boot.specs.Life.{LifeLaw, NextLaw, OnlyLaw, StartsLaw, WearLaw, WorkLaw};

use mc_image::{one_reading, same_prefix};

/// The life law: in a device's whole life no sequence of power cuts bricks it.
/// Promised: life: the next boot left alone boots, and does what was asked (`life`, `EndsWell`, `Forgets`).
/// Promised: what is asked next; what a confirmation changes (`next`).
/// Promised: no image comes from nowhere (`only`).
/// Promised: every erase and write of the secondary is covered (`work`).
/// Promised: starts, but a revert's, can be delivered (`starts`).
/// Promised: no power-on erases a sector more than twice (`wear`).
///
/// Take any flash that a device can be delivered with, and any list of events from there on: power-on with a power cut before
/// any operation of the boot; power-on with a boot that is left alone; and, while an image runs, that it leaves the secondary
/// slot with any bytes whatever, that it confirms itself, and that a confirmation is torn. Then the next boot, left alone, is
/// refused no operation, does not panic, and boots, and the images stand, whole, as the flash on which the device last rested
/// asks for (`life`). What that is follows from the secondary slot and from whether the primary's image is on trial (`next`), and
/// every image that ever runs was delivered, or left whole in the secondary by one that ran (`only`). No power-on erases a sector
/// more than twice (`wear`).
///
/// It holds by whole calls and unit by unit, and for every profile. A revert unit by unit in the first profile can be forgotten
/// where power is lost within the secondary's magic: then the image on trial stays.
///
/// Whatever a running image erases or writes in the secondary is covered (`work`), and so are the starts of two images (`starts`).
/// `docs/LIFE.md` has the automaton as a table.
pub fn life_law()
    ensures life { (rules : Rules) → LifeLaw rules }
    ensures next { (rules : Rules) → NextLaw rules }
    ensures only { (rules : Rules) → OnlyLaw rules }
    ensures work { WorkLaw }
    ensures starts { StartsLaw }
    ensures wear { WearLaw }
{
    one_reading();
    same_prefix();
}
