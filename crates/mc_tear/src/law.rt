//! What the readings of a torn operation stand for.
ghost use Rattle.mc_tear.specs.Laws.{CasesAreTorn, EachChainEnds, EachEnds, EachIsRead, InsideIsApart};

use mc_image::same_prefix;

/// The law of readings: the flash of a case is one that the torn operation may leave (`torn`), and each flash that it may leave is read
/// as one of the readings says, and so is the flash of that reading (`each`): that reading is a case, or its flash is that of the
/// finished operation. And the boot from each flash that a torn operation of a boot may leave ends as the boot from a case, or as after a
/// power cut before the operation or behind it, whatever flash the torn boot began with, if no image that is asked for depends on a trailer
/// (`ends`); valid images that end before the trailers' sectors depend on none (`inside`). And whatever any number of losses leave, each in the
/// boot from what the one before it left, the boot that is then left alone ends as after as many cuts and cases (`chain`).
/// Promised: a case may be left; each torn flash is read as a reading (`torn`, `each`).
/// Promised, also of `mc_tears::ends_law`: each torn flash ends as a case, or a cut beside it, if images lie apart (`ends`, `inside`,
/// `ImagesApart`, `EachTornEnds`).
/// Promised: losses end as that many cuts and cases, if torn safely (`chain`, `TearsSafely`).
pub fn readings_law()
    ensures torn { CasesAreTorn }
    ensures each { EachIsRead }
    ensures ends { EachEnds }
    ensures chain { EachChainEnds }
    ensures inside { InsideIsApart }
{
    same_prefix();
}
