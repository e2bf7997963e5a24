//! The law of torn operations.
ghost use Rattle.mc_trailer.specs.declared.tables.Rules.{Rules};
ghost use Rattle.mc_boot.specs.Torn.{BitsLaw, CutsLaw, DropsLaw, TornLaw, TornLifeLaw, TornOnlyLaw, TornStartsLaw, Tearing};

use mc_image::{one_reading, same_prefix};

/// The law of torn operations: power that is lost within an operation bricks no device.
/// Promised: torn: from rest, the next boot left alone boots; how it may end (`torn`, `IsTorn`, `gently`, `roughly`).
/// Promised: torn boots from the four starts, by images (`starts`).
/// Promised: a life with tears, by profiles 1 and 2 if stores wait (`life`, `MayStore`).
/// Promised: no image comes from nowhere, with tears too (`only`).
/// Promised: failing bits and cuts are losses of power (`bits`, `cuts`).
/// Promised: by profiles 1 and 2 every layout can drop an upgrade (`drops`).
///
/// What is left there of the bytes that the operation would change is any bytes, and the others are as they were (`gently`); of an
/// erase that is torn any bytes may be left in its sector (`roughly`). After every list of such losses, and of cuts, however long, the
/// next boot that is left alone is refused no operation, does not panic and boots, and both images stand whole: exchanged, or where they
/// were (`torn`, and `starts` from the starts of two images). It is so in a device's whole life, by the first two profiles if a running
/// image stores only where the primary's trailer says that no swap is under way, by the third with no condition (`life`, `only`).
///
/// A flash whose bits fail one by one is one of those (`bits`), and so is one that power cuts leave (`cuts`). That a swap is
/// dropped by the first two profiles does occur, with bits that fail one by one (`drops`).
pub fn torn_law()
    ensures torn { (how : Tearing) (rules : Rules) → TornLaw how rules }
    ensures life { (how : Tearing) (rules : Rules) → TornLifeLaw how rules }
    ensures starts { (how : Tearing) (rules : Rules) → TornStartsLaw how rules }
    ensures only { (how : Tearing) (rules : Rules) → TornOnlyLaw how rules }
    ensures bits { BitsLaw }
    ensures cuts { CutsLaw }
    ensures drops { DropsLaw }
{
    one_reading();
    same_prefix();
}
