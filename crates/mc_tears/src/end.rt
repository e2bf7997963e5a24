//! How a boot ends.
ghost use Rattle.std.specs.Prelude.{◌≡◌, ◌+◌, ◌≤◌, ◌++◌, length, option_map, IfOk, OnOk};
ghost use Rattle.mc_boot.specs.Plan.{again, identity_of};
ghost use Rattle.mc_flash.specs.Usage.{Allows, HasRoom, Spends};
ghost use Rattle.mc_explore.specs.inner.OneRound.{CountsAtMost, begins, most_of};
ghost use Rattle.mc_tears.specs.Ends.{are_alike, end_text, ends_right, hold_one, is_busy, is_one, shown_end};
ghost use Rattle.mc_tears.specs.inner.Standing.{IsWhole, Returns};

use mc_boot::{ImageId, Outcome};
use mc_explore::{Expectation, Labels, OneRound, Summary, put_outcome, put_slots};
use mc_flash::{Flash, Slot};
use mc_image::are_bytes;
use mc_output::{Line, MOST_LINE};
use mc_trailer::{Flag, Magic, Trailer};
use std::alloc::AllocError;

/// How a boot ends.
#[derive(Clone, Copy, Debug)]
pub struct End {
    pub outcome: Outcome,
    /// Whether the flash that it leaves says that a swap is under way.
    pub busy: bool,
}

/// A boot that was run: its summary, and whether the flash that it leaves says that a swap is under way.
#[derive(Clone, Copy)]
pub(crate) struct Whole {
    pub summary: Summary,
    pub busy: bool,
}

impl Whole {
    /// How it ends.
    pub fn end(self) -> End
        ensures { result ≡ record { outcome = self.summary.outcome; busy = self.busy } }
    {
        End {
            outcome: self.summary.outcome,
            busy: self.busy,
        }
    }
}

/// Whether the primary's trailer says that a swap is under way.
fn is_busy<F: Flash>(flash: &F) -> bool
    ensures { let f = F.seen flash.now in result ≡ is_busy f.geometry f.content }
{
    let trailer = Trailer::read(flash, Slot::Primary);
    matches!(trailer.magic, Magic::Good)
        && matches!(trailer.copy_done, Flag::Unset)
        && matches!(trailer.swap_info, 2 | 3 | 4)
}

/// Runs the boot at power-on to its end.
///
/// # Errors
///
/// Where the flash was refused memory.
pub(crate) fn run<F: Flash>(rounds: &OneRound<'_>, flash: &mut F) -> Result<Whole, AllocError>
    requires layout { (F.seen flash.old).geometry ≡ (begins rounds.now).geometry }
    requires room { Allows (most_of (begins rounds.now)) (F.seen flash.old) }
    ensures whole { IfOk result (IsWhole (again (begins rounds.now) (F.seen flash.old).content)) }
    ensures counts { OnOk result (CountsAtMost (most_of (begins rounds.now)) (F.seen flash.old)
        (F.seen flash.new)) }
    ensures spends { Spends (most_of (begins rounds.now)).entries (F.seen flash.old) result
        (F.seen flash.new) }
{
    let boot = rounds.boot(flash);
    let summary = rounds.run(flash, boot)?;
    let busy = is_busy(flash);
    // What is left is known to be bytes, as many as the slots have.
    are_bytes(flash.read(Slot::Primary));
    are_bytes(flash.read(Slot::Secondary));
    Ok(Whole { summary, busy })
}

/// The same, and goes back.
///
/// # Errors
///
/// Where the flash was refused memory.
pub(crate) fn run_and_return<F: Flash>(
    rounds: &OneRound<'_>,
    flash: &mut F,
) -> Result<Whole, AllocError>
    requires layout { (F.seen flash.old).geometry ≡ (begins rounds.now).geometry }
    requires room { HasRoom (most_of (begins rounds.now)) (F.seen flash.old) }
    ensures whole { IfOk result (IsWhole (again (begins rounds.now) (F.seen flash.old).content)) }
    ensures returns { Returns (F.seen flash.old) result (F.seen flash.new) }
{
    let here = flash.mark()?;
    let whole = run(rounds, flash)?;
    flash.back_to(here);
    Ok(whole)
}

// Whether two images are one.
fn is_one(image: &ImageId, other: &ImageId) -> bool
    ensures { result ≡ is_one (identity_of image.now) (identity_of other.now) }
{
    image.version == other.version && image.size == other.size && image.digest == other.digest
}

// Whether two slots hold one image, or none.
fn hold_one(held: &Option<ImageId>, other: &Option<ImageId>) -> bool
    ensures { result ≡ hold_one (option_map identity_of held.now)
        (option_map identity_of other.now) }
{
    match (held, other) {
        (None, None) => true,
        (Some(image), Some(other)) => is_one(image, other),
        (None, Some(_)) | (Some(_), None) => false,
    }
}

impl End {
    /// Whether two ends are alike: by the result, the images, the next type, and whether a swap is under way.
    pub fn is_like(&self, other: &End) -> bool
        ensures { result ≡ are_alike (shown_end self.now) (shown_end other.now) }
    {
        let (one, two) = (&self.outcome, &other.outcome);
        one.result == two.result
            && one.next == two.next
            && hold_one(&one.primary, &two.primary)
            && hold_one(&one.secondary, &two.secondary)
            && self.busy == other.busy
    }

    /// Whether it is right: what is expected is met, and no swap is under way.
    pub fn is_right(&self, expectation: &Expectation) -> bool
        ensures { result ≡ ends_right expectation.now (shown_end self.now) }
    {
        expectation.is_right(&self.outcome) && !self.busy
    }

    /// Adds it in words: the result, the type, how many operations happened, what the slots hold, the next type, and whether a swap
    /// is under way.
    pub fn put_into(&self, line: &mut Line)
        requires { length line.old + 150 ≤ MOST_LINE }
        ensures text { line.new ≡ line.old ++ end_text (shown_end self.now) }
        ensures length { length line.new ≤ length line.old + 150 }
    {
        put_outcome(line, &self.outcome);
        line.put(" ");
        put_slots(line, &self.outcome, &Labels::none());
        line.put(if self.busy { " busy" } else { " rest" });
    }
}
