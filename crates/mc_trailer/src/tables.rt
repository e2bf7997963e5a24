//! The swap tables: what two trailers ask a boot to do.
ghost use Rattle.std.specs.Prelude.{◌≡◌};
ghost use Rattle.mc_trailer.specs.Tables.{
  reverts_at,
  asks_another,
  asks_revert,
  Asks,
  swap_type,
  resumes,
  resumes_by,
};

use crate::trailer::{Flag, Magic, Trailer};
use mc_flash::Grain;

/// The type of a swap.
#[derive(Clone, Copy, Debug, PartialEq, Eq)]
pub enum SwapType {
    /// Nothing is swapped.
    None,
    /// The images are swapped, and swapped back unless the new one is confirmed.
    Test,
    /// The images are swapped for good.
    Perm,
    /// The images are swapped back.
    Revert,
    /// A swap is asked for, and the secondary holds no image that can be swapped.
    Fail,
    /// A swap was begun, and its trailer contradicts itself.
    Panic,
}

/// Which tables are used: which magic of the secondary a revert takes, and what keeps a boot from going on with a swap.
#[derive(Clone, Copy, Debug, PartialEq, Eq)]
pub enum Profile {
    /// A revert takes an unset one; a boot goes on unless the secondary has a good one.
    One,
    /// A revert takes an unset or a bad one; a boot goes on unless the secondary has a good one.
    Two,
    /// As the second, but a boot goes on unless the secondary asks for a test or an upgrade: a good magic beside an image-ok that is
    /// neither set nor unset asks for nothing.
    Three,
}

/// What happens whole or not at all, and which tables are used.
#[derive(Clone, Copy, Debug, PartialEq, Eq)]
pub struct Rules {
    /// What happens whole or not at all.
    pub grain: Grain,
    /// Which tables are used.
    pub profile: Profile,
}

impl Rules {
    /// Whole calls and the first profile: the rules where no others are given.
    pub const PLAIN: Rules = Rules {
        grain: Grain::Call,
        profile: Profile::One,
    };
}

// Whether a revert takes this magic of the secondary.
fn reverts_at(profile: Profile, magic: Magic) -> bool
    ensures { result ≡ reverts_at profile magic }
{
    match profile {
        Profile::One => matches!(magic, Magic::Unset),
        Profile::Two | Profile::Three => !matches!(magic, Magic::Good),
    }
}

// Whether a finished test is to be swapped back.
fn is_reverted(profile: Profile, primary: &Trailer, secondary: &Trailer) -> bool
    ensures { result ≡ asks_revert profile primary.now secondary.now }
{
    matches!(primary.magic, Magic::Good)
        && reverts_at(profile, secondary.magic)
        && matches!(primary.image_ok, Flag::Unset)
        && matches!(primary.copy_done, Flag::Set)
}

/// The type that the tables give, also where a boot would go on with a swap that was cut. It takes no memory.
/// Promised, also of `one_row`: the type is the tables'; no two rows hold (`value`, `row`, `apart`, `types`).
#[tactic(auto, using(crate::specs::facts::Tables::asked))]
pub fn swap_type(profile: Profile, primary: &Trailer, secondary: &Trailer) -> SwapType
    ensures value { result ≡ swap_type profile primary.now secondary.now }
    ensures row { Asks profile primary.now secondary.now result }
{
    match (secondary.magic, secondary.image_ok) {
        (Magic::Good, Flag::Unset) => SwapType::Test,
        (Magic::Good, Flag::Set) => SwapType::Perm,
        _ if is_reverted(profile, primary, secondary) => SwapType::Revert,
        _ => SwapType::None,
    }
}

// Whether another swap is asked for than the one that was cut.
fn asks_another(profile: Profile, primary: &Trailer, secondary: &Trailer) -> bool
    ensures { result ≡ asks_another profile primary.now secondary.now }
{
    match profile {
        Profile::One | Profile::Two => matches!(secondary.magic, Magic::Good),
        Profile::Three => {
            matches!(secondary.magic, Magic::Good) && !matches!(secondary.image_ok, Flag::Bad)
        }
    }
}

/// Whether a boot goes on with a swap that was cut. It takes no memory.
/// Promised, also of `resumes`: a swap is resumed exactly by the three conditions (`resumes_by`, `resumes`).
pub fn resumes_by(profile: Profile, primary: &Trailer, secondary: &Trailer) -> bool
    ensures { result ≡ resumes_by profile primary.now secondary.now }
{
    matches!(primary.magic, Magic::Good)
        && matches!(primary.copy_done, Flag::Unset)
        && !asks_another(profile, primary, secondary)
}

/// The same by the first two profiles.
pub fn resumes(primary: &Trailer, secondary: &Trailer) -> bool
    ensures { result ≡ resumes primary.now secondary.now }
{
    resumes_by(Profile::One, primary, secondary)
}
