//! What a caller asks of: a layout, rules, and two images or the bytes of a flash.
ghost use Rattle.std.specs.Prelude.{◌≡◌, ◌⊎◌, MatchOption, MatchResult, None, Some};
ghost use Rattle.mc_flash.specs.Geometry.{refusal_of};
ghost use Rattle.mc_c.specs.Exports.{Makes, MakesOf, grain_of, layout_of, origin_of, profile_of, rules_of};

use mc_explore::{Kind, Start, StartError};
use mc_flash::{Grain, Layout, LayoutError};
use mc_options::Refusal;
use mc_trailer::{Profile, Rules};
use std::alloc::Global;

/// The six numbers of a layout; the rules: `grain` 0 for whole calls and 1 for units, `profile` 1, 2 or 3; and what the bytes are:
/// `kind` 0 (`none`), 1 (`test`), 2 (`perm`) or 3 (`revert`) of two images, and 4 of both slots of a flash.
#[repr(C)]
pub struct Source {
    pub sector: u32,
    pub unit: u32,
    pub max_sectors: u32,
    pub chunk: u32,
    pub primary: u32,
    pub secondary: u32,
    pub grain: u32,
    pub profile: u32,
    pub kind: u32,
}

// What the bytes of a source are.
#[derive(Clone, Copy)]
enum Origin {
    Images(Kind),
    Flash,
}

fn grain_of(number: u32) -> Option<Grain>
    ensures { result ≡ grain_of number }
{
    match number {
        0 => Some(Grain::Call),
        1 => Some(Grain::Unit),
        _ => None,
    }
}

fn profile_of(number: u32) -> Option<Profile>
    ensures { result ≡ profile_of number }
{
    match number {
        1 => Some(Profile::One),
        2 => Some(Profile::Two),
        3 => Some(Profile::Three),
        _ => None,
    }
}

fn origin_of(number: u32) -> Option<Origin>
    ensures { result ≡ origin_of number }
{
    match number {
        0 => Some(Origin::Images(Kind::None)),
        1 => Some(Origin::Images(Kind::Test)),
        2 => Some(Origin::Images(Kind::Perm)),
        3 => Some(Origin::Images(Kind::Revert)),
        4 => Some(Origin::Flash),
        _ => None,
    }
}

// The start of bytes that are that, of a layout, under the rules where no others are given.
fn start_of(
    alloc: Global,
    layout: &Layout,
    origin: Origin,
    a: &[u8],
    b: &[u8],
) -> Result<Start, StartError>
    ensures { MakesOf origin layout.now a.now b.now result }
{
    match origin {
        Origin::Images(kind) => Start::from_images(alloc, layout, kind, a, b),
        Origin::Flash => Start::from_flash(alloc, layout, a),
    }
}

impl Source {
    // The rules, and what the bytes are.
    fn names(&self) -> Option<(Rules, Origin)>
        ensures { MatchOption result
            ((rules_of self.now ≡ None) ⊎ (origin_of self.now.kind ≡ None))
            (λ named. (rules_of self.now ≡ Some named.0)
            × (origin_of self.now.kind ≡ Some named.1)) }
    {
        let grain = grain_of(self.grain)?;
        let profile = profile_of(self.profile)?;
        let origin = origin_of(self.kind)?;
        Some((Rules { grain, profile }, origin))
    }

    // The layout.
    fn layout(&self) -> Result<Layout, LayoutError>
        ensures { MatchResult result
            (λ l. (l ≡ layout_of self.now) × (refusal_of (layout_of self.now) ≡ None))
            (λ e. refusal_of (layout_of self.now) ≡ Some e) }
    {
        let (sector, unit, chunk) = (self.sector, self.unit, self.chunk);
        let (primary, secondary) = (self.primary, self.secondary);
        Layout::new(sector, unit, self.max_sectors, chunk, primary, secondary)
    }

    /// The start that it makes of two images, or of a flash and nothing.
    ///
    /// # Errors
    ///
    /// `Argument` where a number names no grain, profile or kind; `Layout`; `Start`.
    pub(crate) fn start(&self, alloc: Global, a: &[u8], b: &[u8]) -> Result<Start, Refusal>
        ensures { Makes self.now a.now b.now result }
    {
        let Some((rules, origin)) = self.names() else {
            return Err(Refusal::Argument);
        };
        let layout = match self.layout() {
            Ok(layout) => layout,
            Err(error) => return Err(Refusal::Layout(error)),
        };
        match start_of(alloc, &layout, origin, a, b) {
            Ok(start) => Ok(start.with_rules(rules)),
            Err(error) => Err(Refusal::Start(error)),
        }
    }
}
