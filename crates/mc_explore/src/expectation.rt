//! What the slots are to hold at the end, and whether an outcome is right.
ghost use Rattle.std.specs.Prelude.{◌≡◌, IfOk, IsOk, option_map};
ghost use Rattle.mc_boot.specs.Outcome.{shown};
ghost use Rattle.mc_boot.specs.Plan.{identity_of};
ghost use Rattle.mc_explore.specs.Right.{is_held, is_met, is_right, judged, IsBytesOf, Wants};
ghost use Rattle.mc_explore.specs.declared.expectation.Wanted.TheVariants.{Anything};

use mc_boot::{BootResult, ImageId, Outcome};
use mc_image::{Version, VersionError};
use mc_start::read_digest;

/// What a slot is to hold when a boot is at its end.
#[derive(Clone, Copy, Debug)]
pub enum Wanted {
    /// Whatever it holds.
    Anything,
    /// No valid image.
    Nothing,
    /// An image of that version.
    Version(Version),
    /// The image of that SHA-256.
    Digest([u8; 32]),
}

impl Wanted {
    /// What a text says: a version, `none`, or a digest in 64 lower-case digits.
    /// Promised: what a slot is to hold is read (`wants`, `taken`).
    ///
    /// # Errors
    ///
    /// Of any other text those of a version.
    pub fn read(text: &str) -> Result<Wanted, VersionError>
        ensures wants { IfOk result (Wants text.now) }
        ensures taken { (w : Wanted) → IsBytesOf w → Wants text.now w → IsOk result }
    {
        match Version::read(text) {
            Ok(version) => Ok(Wanted::Version(version)),
            Err(_) if text == "none" => Ok(Wanted::Nothing),
            Err(error) => match read_digest(text) {
                Some(digest) => Ok(Wanted::Digest(digest)),
                None => Err(error),
            },
        }
    }

    /// Whether a slot that holds this holds what is wanted.
    fn is_held(&self, held: &Option<ImageId>) -> bool
        ensures { result ≡ is_held self.now (option_map identity_of held.now) }
    {
        match (self, held) {
            (Wanted::Anything, _) => true,
            (Wanted::Nothing, held) => held.is_none(),
            (Wanted::Version(version), Some(id)) => id.version == *version,
            (Wanted::Digest(digest), Some(id)) => id.digest == *digest,
            (Wanted::Version(_) | Wanted::Digest(_), None) => false,
        }
    }
}

/// What both slots are to hold when a boot is at its end.
#[derive(Clone, Copy, Debug)]
pub struct Expectation {
    pub primary: Wanted,
    pub secondary: Wanted,
}

impl Expectation {
    /// Whatever they hold.
    pub fn any() -> Expectation
        ensures { result ≡ record { primary = Anything; secondary = Anything } }
    {
        Expectation {
            primary: Wanted::Anything,
            secondary: Wanted::Anything,
        }
    }

    // Whether each slot holds what is wanted of it.
    #[inline(always)]
    fn is_met(&self, outcome: &Outcome) -> bool
        ensures { result ≡ is_met self.now (shown outcome.now) }
    {
        self.primary.is_held(&outcome.primary) && self.secondary.is_held(&outcome.secondary)
    }

    /// Whether a boot ends well, and each slot holds what is wanted of it.
    #[inline(always)]
    pub fn is_right(&self, outcome: &Outcome) -> bool
        ensures { result ≡ is_right self.now (shown outcome.now) }
    {
        self.is_met(outcome) && matches!(outcome.result, BootResult::Boot)
    }

    // The outcome as it counts where only a right one counts as a boot.
    pub(crate) fn judge(&self, outcome: &Outcome) -> Outcome
        ensures { shown result ≡ judged self.now (shown outcome.now) }
    {
        if !self.is_met(outcome) && matches!(outcome.result, BootResult::Boot) {
            Outcome {
                result: BootResult::None,
                ..*outcome
            }
        } else {
            *outcome
        }
    }
}
