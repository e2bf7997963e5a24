//! What the words ask of each row that is counted, and whether it is so.
ghost use Rattle.std.specs.Prelude.{◌≡◌, ◌↔◌, true, IfErr, IfOk, IfSome, IsErrOf, List, OnErr, OnOk, option_map};
ghost use Rattle.std.specs.Io.KnownBytes.{Appends};
ghost use Rattle.clap.specs.Matches.{found_of};
ghost use Rattle.mc_boot.specs.Plan.{identity_of};
ghost use Rattle.mc_explore.specs.declared.expectation.Expectation.{Expectation as Expected};
ghost use Rattle.mc_explore.specs.Right.{AllEndRight};
ghost use Rattle.mc_output.specs.Text.{AppendsPrefix};
ghost use Rattle.mc_verdict.specs.Verdicts.{AreCounted, IsExpectation, MayGiveWanted, GivesAsked, GivesEnds, IsJudged, LacksEnds, LacksWanted, expected_ends, is_any, is_of_slots, lines_of, NeverJudged, verdict_of, wanted_of, wanted_or_any};

use clap::ArgMatches;
use mc_boot::ImageId;
use mc_explore::{Expectation, RightsOf, Subject, Wanted, all_right, write_rights};
use mc_flash::Layout;
use mc_options::Refusal;
use mc_output::WriteFailed;
use std::io::Write;

/// What the words say that the slots hold at the end, where they say it.
#[derive(Clone, Copy, Debug)]
pub struct Ends {
    pub primary: Option<Wanted>,
    pub secondary: Option<Wanted>,
}

/// What the words ask of each row that is counted.
#[derive(Clone, Copy, Debug)]
pub struct Asked {
    /// What the slots are to hold at the end.
    pub ends: Ends,
    /// Whether each row is to be right also where nothing is said of a slot: with the image that is to lie there.
    pub all_right: bool,
    /// Whether it is refused where a row does not end in a boot.
    pub all_boot: bool,
}

/// What an option says that a slot is to hold, if it is given.
///
/// # Errors
///
/// `Version` where its text is no version, no digest and not `none`.
fn wanted_option(arguments: &ArgMatches<'_>, name: &str) -> Result<Option<Wanted>, Refusal>
    ensures given { IfOk result (MayGiveWanted (found_of arguments.now) name.now) }
    ensures refused { IfErr result (LacksWanted (found_of arguments.now) name.now) }
{
    match arguments.get_str(name) {
        Some(text) => Ok(Some(Wanted::read(text)?)),
        None => Ok(None),
    }
}

/// What is wanted of a slot: what is given; else, where each row is to be right, the image that is to lie there at the end.
fn wanted_of(given: Option<Wanted>, all_right: bool, image: Option<ImageId>) -> Option<Wanted>
    ensures { result ≡ wanted_of given all_right (option_map identity_of image) }
{
    match (given, image) {
        (Some(wanted), _) => Some(wanted),
        (None, Some(id)) if all_right => Some(Wanted::Digest(id.digest)),
        (None, None) if all_right => None,
        (None, _) => Some(Wanted::Anything),
    }
}

/// What is wanted of a slot: what is given; else the image that is to lie there at the end, where it is known; else anything.
fn wanted_or_any(given: Option<Wanted>, image: Option<ImageId>) -> Wanted
    ensures { result ≡ wanted_or_any given (option_map identity_of image) }
{
    match (given, image) {
        (Some(wanted), _) => wanted,
        (None, Some(id)) => Wanted::Digest(id.digest),
        (None, None) => Wanted::Anything,
    }
}

impl Ends {
    /// What the words say.
    ///
    /// # Errors
    ///
    /// Those of `wanted_option`.
    pub fn read(arguments: &ArgMatches<'_>) -> Result<Ends, Refusal>
        ensures given { IfOk result (GivesEnds (found_of arguments.now)) }
        ensures refused { IfErr result (LacksEnds (found_of arguments.now)) }
    {
        Ok(Ends {
            primary: wanted_option(arguments, "expect-primary")?,
            secondary: wanted_option(arguments, "expect-secondary")?,
        })
    }

    /// What is right of a start whose images lie so at the end, where they are known: the first in the primary.
    pub fn expectation(&self, images: Option<(ImageId, ImageId)>) -> Expectation
        ensures { result ≡ expected_ends self.now
            (option_map (λ p. (identity_of p.0, identity_of p.1)) images) }
    {
        let (named, other) = match images {
            Some((named, other)) => (Some(named), Some(other)),
            None => (None, None),
        };
        Expectation {
            primary: wanted_or_any(self.primary, named),
            secondary: wanted_or_any(self.secondary, other),
        }
    }
}

impl Asked {
    /// What the words ask.
    ///
    /// # Errors
    ///
    /// Those of `Ends::read`.
    pub fn read(arguments: &ArgMatches<'_>) -> Result<Asked, Refusal>
        ensures given { IfOk result (GivesAsked (found_of arguments.now)) }
        ensures refused { IfErr result (LacksEnds (found_of arguments.now)) }
    {
        Ok(Asked {
            ends: Ends::read(arguments)?,
            all_right: arguments.get_flag("all-right"),
            all_boot: arguments.get_flag("all-boot"),
        })
    }

    // Whether something is asked of the slots.
    fn is_of_slots(&self) -> bool
        ensures { result ≡ is_of_slots self.now }
    {
        self.ends.primary.is_some() || self.ends.secondary.is_some() || self.all_right
    }

    /// Whether anything is asked.
    pub fn is_any(&self) -> bool
        ensures { result ≡ is_any self.now }
    {
        self.is_of_slots() || self.all_boot
    }

    /// What the slots are to hold at the end, where that is asked: by default those images, where they are known, the first in the
    /// primary and the other one in the secondary.
    ///
    /// # Errors
    ///
    /// `Expectation` where each row is to be right, from a flash, and a slot's expectation is not given.
    pub fn expectation(
        &self,
        images: Option<(ImageId, ImageId)>,
    ) -> Result<Option<Expectation>, Refusal>
        ensures { IsExpectation self.now
            (option_map (λ p. (identity_of p.0, identity_of p.1)) images) result }
    {
        if !self.is_of_slots() {
            return Ok(None);
        }
        let (named, other) = match images {
            Some((named, other)) => (Some(named), Some(other)),
            None => (None, None),
        };
        let primary = wanted_of(self.ends.primary, self.all_right, named);
        let secondary = wanted_of(self.ends.secondary, self.all_right, other);
        match (primary, secondary) {
            (Some(primary), Some(secondary)) => Ok(Some(Expectation { primary, secondary })),
            _ => Err(Refusal::Expectation),
        }
    }

    /// Looks whether a layout can have a verdict: with fewer sectors in the trailer than in a slot the boot loader swaps nothing.
    /// Promised: a verdict asked of a layout that never swaps: 89, exactly (`refused`).
    ///
    /// # Errors
    ///
    /// `NeverSwaps`.
    pub fn check(&self, layout: &Layout) -> Result<(), Refusal>
        ensures judged { OnOk result (IsJudged self.now layout.now) }
        ensures refused { IfErr result (NeverJudged self.now layout.now) }
    {
        if self.is_any() && layout.max_sectors() < layout.primary() {
            return Err(Refusal::NeverSwaps);
        }
        Ok(())
    }

    /// The verdict on rows of which that was found: whether each boots, whether each is right, and whether they are all that there
    /// are.
    ///
    /// # Errors
    ///
    /// The first of `NotAllBoot`, `NotAllRight` and `NotWhole` that was asked for and does not hold. What is said of a slot is asked of
    /// each row.
    pub fn verdict(&self, boots: bool, right: bool, whole: bool) -> Result<(), Refusal>
        ensures { result ≡ verdict_of self.now.all_boot (is_of_slots self.now) boots right whole }
    {
        if self.all_boot && !boots {
            return Err(Refusal::NotAllBoot);
        }
        if self.is_of_slots() && !right {
            return Err(Refusal::NotAllRight);
        }
        if self.is_any() && !whole {
            return Err(Refusal::NotWhole);
        }
        Ok(())
    }
}

/// Writes the lines of what is right, where that was asked, or a beginning of them.
///
/// # Errors
///
/// `WriteFailed` where a write fails or takes no bytes.
pub fn write_lines<X: Subject, O: Write>(
    rights: &Option<RightsOf<X::Key>>,
    out: &mut O,
) -> Result<(), WriteFailed>
    ensures whole { OnOk result (Appends (O.contents out.old) (O.contents out.new)
        (lines_of X.subject rights.now)) }
    ensures prefix { OnErr result (AppendsPrefix (O.contents out.old) (O.contents out.new)
        (lines_of X.subject rights.now)) }
{
    match rights {
        Some(rights) => write_rights::<X, O>(rights, out),
        None => Ok(()),
    }
}

/// Whether all rows are right, where that was counted.
pub fn right_if_asked<X: Subject>(rights: &Option<RightsOf<X::Key>>) -> bool
    ensures { (e : Expected) (rows : List X.Shown) → AreCounted X.subject e rows rights.now
        → (result ≡ true) ↔ IfSome rights.now (λ _. AllEndRight X.subject.ends e rows) }
{
    match rights {
        Some(rights) => all_right::<X>(rights),
        None => true,
    }
}
