//! What the ends of cases and cuts stand for.
ghost use Rattle.mc_tears.specs.Tears.{EachTornEnds};

/// The law of ends: each flash that a torn operation of a boot may leave ends as the boot after a power cut before the operation or behind it,
/// or as one of its cases, whatever flash the torn boot began with, if no image that is asked for there, or in what is left at the end,
/// depends on a trailer (`mc_tear::readings_law`: `inside`). So what `write_tears` tells is all that such an operation can lead to.
pub fn ends_law()
    ensures { EachTornEnds }
{}
