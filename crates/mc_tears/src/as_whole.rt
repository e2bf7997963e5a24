//! A torn status entry that is read as written ends as the whole one: its boot need not be run.
ghost use Rattle.std.specs.Prelude.{◌≡◌, ◌*◌, ◌<◌, ◌≤◌, ℕ, Some, length, true};
ghost use Rattle.mc_boot.specs.Plan.{again};
ghost use Rattle.mc_explore.specs.inner.OneRound.{begins};
ghost use Rattle.mc_flash.specs.facts.Layouts.{data_end};
ghost use Rattle.mc_tear.specs.Cases.{put_in, written_len};
ghost use Rattle.mc_tear.specs.inner.Room.{Applies};
ghost use Rattle.mc_tears.specs.Ends.{end_of, shown_end};
ghost use Rattle.mc_tears.specs.inner.Standing.{DifferFirst, EndsAfter};
ghost use Rattle.mc_trailer.specs.Tables.{is_resumed};
ghost use Rattle.mc_trailer.specs.Trailer.{entry_place};

use crate::end::End;
use mc_boot::ImageId;
use mc_explore::OneRound;
use mc_flash::{Flash, Layout, Op, Slot};
use mc_image::same_prefix;
use mc_trailer::{Trailer, entry_place, resumes_by};

// Whether a status entry begins at a byte of the primary.
fn is_entry_place(layout: &Layout, at: u32) -> bool
    ensures { result ≡ true
        → (e : ℕ) × (e < 3 * layout.now.max_sectors) × (at ≡ entry_place layout.now e) }
{
    let unit = layout.unit();
    let Some(after) = at.checked_sub(entry_place(layout, 0)) else {
        return false;
    };
    let entry = after / unit;
    entry < 3 * layout.max_sectors() && entry_place(layout, entry) == at
}

// Whether bytes differ in the first alone, which is 0xff in neither.
fn differ_first(bytes: &[u8], others: &[u8]) -> bool
    ensures { result ≡ true → DifferFirst bytes.now others.now }
{
    let Some((first, rest)) = bytes.split_first() else {
        return false;
    };
    let Some((other, others)) = others.split_first() else {
        return false;
    };
    *first != 0xff && *other != 0xff && rest == others
}

// Whether the boot from where the flash stands goes on with a swap.
fn goes_on<F: Flash>(rounds: &OneRound<'_>, flash: &F) -> bool
    ensures { let f = F.seen flash.now in result
        ≡ is_resumed (begins rounds.now).rules.profile f.geometry f.content }
{
    let primary = Trailer::read(flash, Slot::Primary);
    let secondary = Trailer::read(flash, Slot::Secondary);
    resumes_by(rounds.start.rules().profile, &primary, &secondary)
}

// Whether a slot holds an image that ends before the sectors of its trailer.
fn is_inside(layout: &Layout, slot: Slot, image: &Option<ImageId>) -> bool
    ensures { result ≡ true
        → (i : ImageId) × (image.now ≡ Some i) × (i.size ≤ data_end layout.now slot) }
{
    let data = (layout.sectors(slot) - layout.trailer_sectors()) * layout.sector();
    match image {
        Some(image) => image.size <= data,
        None => false,
    }
}

/// Whether the boot is known to end as after the whole operation, where these bytes stand in place of
/// those that it writes: it writes a status entry, they differ from it in the first alone, the boot
/// goes on with a swap, and both images that it leaves end before the trailers.
pub(crate) fn ends_as_whole<F: Flash>(
    rounds: &OneRound<'_>,
    flash: &F,
    op: &Op,
    bytes: &[u8],
    after: &End,
) -> bool
    requires layout { (F.seen flash.now).geometry ≡ (begins rounds.now).geometry }
    requires applies { Applies op.now (F.seen flash.now) }
    requires len { length bytes.now ≡ written_len (F.seen flash.now).geometry op.now }
    requires after { EndsAfter (begins rounds.now) op.now (F.seen flash.now) after.now }
    ensures { let f = F.seen flash.now in result ≡ true → end_of (again (begins rounds.now)
        (put_in f.geometry op.now f.content bytes.now)) ≡ shown_end after.now }
{
    same_prefix();
    let layout = flash.layout();
    let Op::Program(slot, at, ref written) = *op else {
        return false;
    };
    let Slot::Primary = slot else {
        return false;
    };
    if !is_entry_place(layout, at)
        || written.bytes().len() > layout.unit() as usize
        || !differ_first(bytes, written.bytes())
        || !goes_on(rounds, flash)
    {
        return false;
    }
    is_inside(layout, Slot::Primary, &after.outcome.primary)
        && is_inside(layout, Slot::Secondary, &after.outcome.secondary)
}
