//! What a dump comes to, at one look.
ghost use Rattle.std.specs.Prelude.{◌≡◌, ◌+◌, ◌≤◌, ◌++◌, ◌==◌, length, not, option_map, Some};
ghost use Rattle.mc_boot.specs.Outcome.{shown};
ghost use Rattle.mc_boot.specs.Plan.{identity_of};
ghost use Rattle.mc_trace.specs.Verdict.{end_of, fate_of, fate_text, holds, is_boot, is_lost, is_one, verdict_text};

use mc_boot::{BootResult, ImageId, Outcome};
use mc_flash::Layout;
use mc_output::{Line, MOST_LINE};

/// What a dump comes to. Of several that hold it is the first in this order.
#[derive(Clone, Copy, Debug, PartialEq, Eq)]
pub enum Fate {
    /// The layout never swaps: its trailers must have room for so many sectors of an image.
    NeedsSectors(u32),
    /// Something hints that the layout does not fit the dump, or that the dump is not whole or not in order.
    NeedsOther,
    /// The primary holds a valid image, and the boot runs none, or neither slot holds that image after it.
    Loses,
    /// The boot runs a valid image.
    Boots,
    /// The boot finds no valid image.
    NoImage,
    /// The trailers contradict each other.
    Panics,
    /// An operation of the boot is refused.
    Faults,
}

// Whether two images are one.
fn is_one(image: &ImageId, other: &ImageId) -> bool
    ensures { result ≡ is_one (identity_of image.now) (identity_of other.now) }
{
    image.version == other.version && image.size == other.size && image.digest == other.digest
}

// Whether a slot that holds this holds an image.
fn holds(image: &ImageId, held: &Option<ImageId>) -> bool
    ensures { result ≡ holds (identity_of image.now) (option_map identity_of held.now) }
{
    match held {
        Some(held) => is_one(image, held),
        None => false,
    }
}

/// Whether a boot that ends so runs an image.
pub(crate) fn is_boot(how: BootResult) -> bool
    ensures { result ≡ is_boot how }
{
    match how {
        BootResult::Boot => true,
        BootResult::None | BootResult::Panic | BootResult::Fault => false,
    }
}

// Whether the primary held an image, and a boot runs none, or neither slot holds that then.
fn is_lost(image: &Option<ImageId>, outcome: &Outcome) -> bool
    ensures { result ≡ is_lost (option_map identity_of image.now) (shown outcome.now) }
{
    match image {
        Some(image) => {
            let stays = holds(image, &outcome.primary) || holds(image, &outcome.secondary);
            !(is_boot(outcome.result) && stays)
        }
        None => false,
    }
}

// What a boot that ends so comes to.
fn end_of(how: BootResult) -> Fate
    ensures { result ≡ end_of how }
{
    match how {
        BootResult::Boot => Fate::Boots,
        BootResult::None => Fate::NoImage,
        BootResult::Panic => Fate::Panics,
        BootResult::Fault => Fate::Faults,
    }
}

impl Fate {
    /// What a dump comes to by its layout, whether there is a hint, the valid image of its primary, and the outcome of the boot from it.
    pub fn of(layout: &Layout, hinted: bool, image: &Option<ImageId>, outcome: &Outcome) -> Fate
        ensures { result ≡ fate_of layout.now hinted (option_map identity_of image.now)
            (shown outcome.now) }
    {
        if layout.max_sectors() < layout.primary() {
            Fate::NeedsSectors(layout.primary())
        } else if hinted {
            Fate::NeedsOther
        } else if is_lost(image, outcome) {
            Fate::Loses
        } else {
            end_of(outcome.result)
        }
    }

    // Adds its words to a line: at most 60 bytes.
    #[tactic(auto, unfolding(crate::specs::Verdict::fate_text))]
    fn put_into(self, line: &mut Line)
        requires { length line.old + 60 ≤ MOST_LINE }
        ensures text { line.new ≡ line.old ++ fate_text self }
        ensures length { length line.new ≤ length line.old + 60 }
    {
        match self {
            Fate::NeedsSectors(count) => {
                line.put("needs --max-sectors ");
                line.put_number(count);
            }
            Fate::NeedsOther => line.put("needs another layout or another dump"),
            Fate::Loses => line.put("the next boot loses the image that the primary holds"),
            Fate::Boots => line.put("boots"),
            Fate::NoImage => line.put("no image"),
            Fate::Panics => line.put("panics"),
            Fate::Faults => line.put("faults"),
        }
    }
}

/// The line of the verdict, by the text of the hints.
pub fn verdict_line(
    layout: &Layout,
    hints: &str,
    image: &Option<ImageId>,
    outcome: &Outcome,
) -> Line
    ensures { result ≡ verdict_text layout.now hints.now (option_map identity_of image.now)
        (Some (shown outcome.now)) }
{
    let mut line = Line::new();
    line.put("verdict ");
    Fate::of(layout, !hints.is_empty(), image, outcome).put_into(&mut line);
    line.put("\n");
    line
}
