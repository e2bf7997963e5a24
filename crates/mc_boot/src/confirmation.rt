//! An image that confirms itself.
ghost use Rattle.std.specs.Prelude.{◌≡◌, OnOk, IfErr};
ghost use Rattle.mc_flash.specs.Geometry.{IsLayout};
ghost use Rattle.mc_flash.specs.Usage.{no_counts, Keeps, Allows, LeaveRoom, Spends, plus};
ghost use Rattle.mc_boot.specs.Restart.{Confirms, confirmed, may_confirm, one_write};

use crate::boot::perform;
use crate::writes::image_ok_write;
use mc_flash::{Flash, FlashError, Slot, blank};
use mc_trailer::{Field, Flag, Magic, Trailer, place};

// Whether a swap was finished and nothing is written at image-ok.
fn may_confirm<F: Flash>(flash: &F) -> bool
    ensures may { result ≡ may_confirm (F.seen flash.now).geometry (F.seen flash.now).content }
    ensures valid { IsLayout (F.seen flash.now).geometry }
{
    let primary = Trailer::read(flash, Slot::Primary);
    let at = place(flash.layout(), Slot::Primary, Field::ImageOk) as usize;
    let unit = flash.layout().unit() as usize;
    matches!(primary.magic, Magic::Good)
        && matches!(primary.copy_done, Flag::Set)
        && blank(&flash.read(Slot::Primary)[at..at + unit])
}

/// The image of the primary confirms itself after a finished swap, so that the next boot leaves it where it is: image-ok is
/// written where the primary's magic is good, its copy-done is set and each byte of the unit at image-ok is 0xff. True where it
/// was written; elsewhere nothing is.
/// Promised: a confirmation, exactly where it may, never refused (`does`, `content`, `err`, `keeps`, `spends`, `counts`).
///
/// It is no operation of a boot, and a power cut does not fall in it. It allocates nothing itself.
///
/// # Errors
///
/// `Memory` where the flash can't grow: all that it holds is as it was. The write is never refused.
pub fn confirm<F: Flash>(flash: &mut F) -> Result<bool, FlashError>
    ensures does { Confirms (F.seen flash.old) result (F.seen flash.new) }
    ensures content { OnOk result ((F.seen flash.new).content
        ≡ confirmed (F.seen flash.old).geometry (F.seen flash.old).content) }
    ensures err { IfErr result (λ e. (e ≡ FlashError.Memory)
        × ((F.seen flash.new).content ≡ (F.seen flash.old).content)) }
    // The layout and the checkpoints stay.
    ensures keeps { Keeps (F.seen flash.old) (F.seen flash.new) }
    // With room for one operation it fails only where the flash takes memory as it goes.
    ensures spends { Allows one_write (F.seen flash.old)
        → Spends 1 (F.seen flash.old) result (F.seen flash.new) }
    ensures counts { LeaveRoom (F.seen flash.new).usage.counts no_counts
        (plus (F.seen flash.old).usage.counts one_write) }
{
    if !may_confirm(flash) {
        return Ok(false);
    }
    let write = image_ok_write(flash.layout(), Slot::Primary);
    perform(flash, write)?;
    Ok(true)
}
