//! The restart theorem.
ghost use Rattle.mc_trailer.specs.declared.tables.Rules.{Rules};
ghost use Rattle.mc_boot.specs.Restart.{StartsExist, RestartLaw, RoundsLaw};

use mc_image::{one_reading, same_prefix};

/// The restart theorem. For every layout, kind of start and pair of valid images that fit there is a start; and from it,
/// after every list of power cuts that can occur, however long, the next boot ends what the start asked for: no operation of
/// it is refused, it does not panic, and the image that the start names boots, whole, with the other whole in the secondary.
/// Promised: restart: refused nothing, boots, both images in place (`starts`, `restart`, `EndsIn`).
/// Promised: the restart theorem of a second round (`rounds`, `EndsAgain`).
///
/// It holds by whole calls and unit by unit, and for every profile. The one exception is a revert unit by unit in the first
/// profile, which a cut within the secondary's magic makes the boot forget.
///
/// A second round follows, of power cuts and a whole boot: it takes a test back that was left alone, keeps one that was
/// confirmed, and has no operation where the first round was no test. The exception is the same: a revert in either round.
pub fn restart_law()
    ensures starts { StartsExist }
    ensures restart { (rules : Rules) → RestartLaw rules }
    ensures rounds { (rules : Rules) → RoundsLaw rules }
{
    one_reading();
    same_prefix();
}
