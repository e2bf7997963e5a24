//! The kinds of trees that commands explore, and what the options say of each.
use clap::ArgMatches;
use mc_campaign::{Campaign, CampaignCursor, Campaigns};
use mc_explore::{Cursor, Kind, Schedule, Schedules, Subject};
use mc_options::{RangeOptions, Refusal, range_options};

/// A kind of tree that commands explore.
pub trait Explorable: Subject {
    ghost use Rattle.std.specs.Prelude.{◌≡◌, Bool, IfErr, IfOk, List, ℕ};
    ghost use Rattle.mc_options.specs.Refusals.{LacksRange};
    ghost use Rattle.clap.specs.Matches.{found_of};
    ghost use Rattle.clap.specs.declared.parser.matches.Found.{Found};
    ghost use Rattle.mc_boot.specs.declared.kind.Kind.{Kind as StartKind};
    ghost use Rattle.mc_options.specs.Arguments.{GivesRange};

    ghost IsChoice: { Found → Self.Choice → Type 0 };

    ghost images_return: { StartKind → Self.Choice → Bool };

    ghost IsNoCursor: { List ℕ → Type 0 };

    ghost IsNoKey: { List ℕ → Type 0 };

    /// The choice that the options give.
    fn chosen(arguments: &ArgMatches<'_>) -> Self::Choice
        ensures { IsChoice (found_of arguments.now) result };

    /// Which of the rows the options ask for.
    ///
    /// # Errors
    ///
    /// Those of `range_options`.
    fn range(arguments: &ArgMatches<'_>) -> Result<RangeOptions<Self::Cursor, Self::Key>, Refusal>
        ensures given { IfOk result (GivesRange Self.subject.cursor_text Self.subject.key_text
            (found_of arguments.now)) }
        ensures refused { IfErr result (LacksRange IsNoCursor IsNoKey (found_of arguments.now)) };

    /// Whether the images of a start of that kind lie at the end where they would without the swap.
    fn images_return(kind: Kind, choice: Self::Choice) -> bool
        ensures { result ≡ images_return kind choice };
}

impl Explorable for Schedules {
    ghost use Rattle.std.specs.Prelude.{◌≡◌, IfErr, IfOk, false};
    ghost use Rattle.clap.specs.Matches.{found_of};
    ghost use Rattle.mc_explore.specs.Rows.{subject};
    ghost use Rattle.mc_options.specs.Arguments.{GivesRange};
    ghost use Rattle.mc_options.specs.Refusals.{IsNoSchedule, LacksRange};
    ghost use Rattle.mc_verdict.specs.Sessions.{IsNoCursor};

    ghost IsChoice = { λ _ _. Unit {0} };

    ghost images_return = { λ _ _. false };

    ghost IsNoCursor = { IsNoCursor };

    ghost IsNoKey = { IsNoSchedule };

    fn chosen(_arguments: &ArgMatches<'_>)
        ensures { Unit {0} }
    {}

    fn range(arguments: &ArgMatches<'_>) -> Result<RangeOptions<Cursor, Schedule>, Refusal>
        ensures given { IfOk result (GivesRange subject.cursor_text subject.key_text (found_of
            arguments.now)) }
        ensures refused { IfErr result (LacksRange IsNoCursor IsNoSchedule (found_of
            arguments.now)) }
    {
        range_options(arguments)
    }

    fn images_return(_kind: Kind, _choice: ()) -> bool
        ensures { result ≡ false }
    {
        false
    }
}

impl Explorable for Campaigns {
    ghost use Rattle.std.specs.Prelude.{◌≡◌, IfErr, IfOk, codes};
    ghost use Rattle.mc_options.specs.Refusals.{IsNoCampaign, LacksRange};
    ghost use Rattle.mc_verdict.specs.Sessions.{IsNoCampaignCursor};
    ghost use Rattle.clap.specs.Matches.{found_of};
    ghost use Rattle.mc_campaign.specs.Rows.{campaigns};
    ghost use Rattle.mc_options.specs.Arguments.{GivesRange, IsFlag};
    ghost use Rattle.mc_verdict.specs.Sessions.{is_left_alone};

    ghost IsChoice = { λ found confirms. IsFlag found (codes "confirm") confirms };

    ghost images_return = { is_left_alone };

    ghost IsNoCursor = { IsNoCampaignCursor };

    ghost IsNoKey = { IsNoCampaign };

    fn chosen(arguments: &ArgMatches<'_>) -> bool
        ensures { IsFlag (found_of arguments.now) (codes "confirm") result }
    {
        arguments.get_flag("confirm")
    }

    fn range(arguments: &ArgMatches<'_>) -> Result<RangeOptions<CampaignCursor, Campaign>, Refusal>
        ensures given { IfOk result (GivesRange campaigns.cursor_text campaigns.key_text (found_of
            arguments.now)) }
        ensures refused { IfErr result (LacksRange IsNoCampaignCursor IsNoCampaign (found_of
            arguments.now)) }
    {
        range_options(arguments)
    }

    // A test that does not confirm itself is taken back in the second round.
    fn images_return(kind: Kind, confirms: bool) -> bool
        ensures { result ≡ is_left_alone kind confirms }
    {
        matches!(kind, Kind::Test) && !confirms
    }
}
