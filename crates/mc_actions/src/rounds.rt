//! `replay`, `trace` and `sectors` of a campaign of two rounds of boots.
ghost use Rattle.std.specs.Prelude.{◌≡◌, IfErr, IfOk, List, ℕ, MatchResult, OnErr, OnOk, Some, codes};
ghost use Rattle.std.specs.Io.KnownBytes.{Appends};
ghost use Rattle.clap.specs.{Matches.{found_of}, Words.{first_value}};
ghost use Rattle.mc_actions.specs.Rounds.{AnswersRounds, AnswersShown, BeginsBoth, GivesCampaign, IsCampaignUnwritten, IsRoundText, LacksCampaign, LacksKey, RefusesRounds};
ghost use Rattle.mc_actions.specs.Schedules.{HasOutput};
ghost use Rattle.mc_boot.specs.Outcome.{Report};
ghost use Rattle.mc_campaign.specs.{Campaigns.{BeginsSecond, in_round}, Texts.{campaign_text}};
ghost use Rattle.mc_explore.specs.Schedules.{IsReplayed, RefusesReplay};
ghost use Rattle.mc_flash.specs.Flash.{Content};
ghost use Rattle.mc_output.specs.Text.{AppendsPrefix};
ghost use Rattle.mc_start.specs.Start.{begun};

use crate::replay::{write_file, write_left};
use crate::schedule::Outputs;
use clap::ArgMatches;
use mc_campaign::{Campaign, Round, replay_campaign, start_of_second};
use mc_cli::{KnownFiles, WatchedFiles};
use mc_explore::{ReplayError, Schedule, Start, flash_at_cut};
use mc_flash::JournalFlash;
use mc_options::{Refusal, check_outputs, flash_options, read_start, required};
use mc_output::write_text;
use mc_trace::{Span, TraceError, View, write_sectors, write_trace};
use std::alloc::Global;
use std::io::Write;
use std::rt::Files;

/// A start, a campaign from it, and whether the image confirms itself between the rounds.
#[derive(Drop)]
pub struct Campaigned {
    start: Start,
    campaign: Campaign,
    confirms: bool,
}

/// What is shown of a round.
#[derive(Clone, Copy, Debug)]
pub enum RoundText {
    /// The operations of its boots in that span, and its outcome.
    Operations(Span),
    /// What lies in each sector, by what lay there at its start.
    Sectors(View),
}

/// The campaign that the words give.
///
/// # Errors
///
/// `Argument` where they give none; `Campaign`.
fn campaign_option(arguments: &ArgMatches<'_>) -> Result<Campaign, Refusal>
    ensures given { IfOk result (λ campaign. first_value (found_of arguments.now)
        (codes "schedule") ≡ Some (campaign_text campaign)) }
    ensures refused { IfErr result (LacksKey (found_of arguments.now)) }
{
    let campaign = Campaign::read(required(arguments, "schedule")?)?;
    Ok(campaign)
}

/// What the commands on a campaign are asked for. The words are checked before a file is touched.
///
/// # Errors
///
/// `Source`, `Layout` and `Campaign` of the words, in this order; `SameFile`; what `read_start` refuses.
pub fn read<F: KnownFiles>(
    files: &F,
    alloc: Global,
    arguments: &ArgMatches<'_>,
) -> Result<Campaigned, Refusal>
    ensures given { IfOk result (GivesCampaign (F.holds files.now) (found_of arguments.now)) }
    ensures refused { IfErr result (LacksCampaign (F.holds files.now) (found_of arguments.now)) }
{
    let options = match flash_options(arguments) {
        Ok(options) => options,
        Err(refusal) => return Err(refusal),
    };
    let campaign = campaign_option(arguments)?;
    check_outputs(files, arguments)?;
    Ok(Campaigned {
        start: read_start(files, alloc, &options)?,
        campaign,
        confirms: arguments.get_flag("confirm"),
    })
}

impl Campaigned {
    // The start of the second round.
    fn second(&self, alloc: Global) -> Result<Start, ReplayError>
        ensures { let c = self.now in MatchResult result
            (λ then. BeginsSecond (begun c.start) c.confirms (in_round 1 c.campaign) (begun then))
            (λ e. RefusesReplay (begun c.start) (in_round 1 c.campaign) e) }
    {
        let cuts = self.campaign.schedule(Round::First);
        let then = start_of_second::<JournalFlash>(alloc, &self.start, &cuts, self.confirms)?;
        Ok(then)
    }

    // The start of the second round, once each cut was found to occur.
    fn checked(&self, alloc: Global) -> Result<Start, Refusal>
        ensures begins { IfOk result (λ then. BeginsBoth self.now (begun then)) }
        ensures refused { IfErr result (RefusesRounds self.now) }
    {
        match replay_campaign::<JournalFlash>(alloc, &self.start, &self.campaign, self.confirms) {
            Ok(_) => self.second(alloc).map_err(Refusal::Replay),
            Err(error) => Err(Refusal::Replay(error)),
        }
    }

    // The flash as it was when the last cut fell.
    fn cut(&self, alloc: Global) -> Result<JournalFlash, ReplayError> {
        let seconds = self.campaign.schedule(Round::Second);
        if seconds.cuts().is_empty() {
            flash_at_cut(alloc, &self.start, &self.campaign.schedule(Round::First))
        } else {
            flash_at_cut(alloc, &self.second(alloc)?, &seconds)
        }
    }

    // Writes that flash, where a file is named for it.
    fn write_cut<F: Files>(
        &self,
        files: &WatchedFiles<'_, F>,
        alloc: Global,
        outputs: &Outputs<'_>,
    ) -> Result<(), Refusal>
        ensures { IfErr result (λ e. HasOutput outputs.now × IsCampaignUnwritten e) }
    {
        let Some(path) = outputs.at_cut else {
            return Ok(());
        };
        let cut = self.cut(alloc).map_err(Refusal::Replay)?;
        write_file(files, alloc, path, &cut)
    }
}

/// Replays a campaign, and prints the outcomes of both rounds. Where files are named, the flash as it was when the last cut fell is written to the
/// one first, and then the flash that is left to the other.
///
/// # Errors
///
/// `Replay` where a cut can't occur, or for want of memory; `Memory`; `Open` and `Write` of the files and the output.
pub fn answer<F: Files, O: Write>(
    files: &WatchedFiles<'_, F>,
    alloc: Global,
    asked: &Campaigned,
    outputs: &Outputs<'_>,
    out: &mut O,
) -> Result<(), Refusal>
    ensures { AnswersRounds asked.now outputs.now (O.contents out.old) (O.contents out.new)
        result }
{
    let (start, campaign) = (&asked.start, &asked.campaign);
    let (first, second, left) = match replay_campaign::<JournalFlash>(
        alloc,
        start,
        campaign,
        asked.confirms,
    ) {
        Ok(done) => done,
        Err(error) => return Err(Refusal::Replay(error)),
    };
    let Ok(text) = format!(in alloc; "round 1\n{first}round 2\n{second}") else {
        return Err(Refusal::Memory);
    };
    asked.write_cut(files, alloc, outputs)?;
    write_left(files, alloc, &left, outputs)?;
    write_text(out, text.as_bytes())?;
    Ok(())
}

// Prints that of the round from a start whose cuts those are.
fn write_round<O: Write>(
    alloc: Global,
    start: &Start,
    cuts: &Schedule,
    text: RoundText,
    out: &mut O,
) -> Result<(), TraceError>
    ensures whole { OnOk result ((shown : List ℕ)
        × IsRoundText text (begun start.now) cuts.now shown
        × Appends (O.contents out.old) (O.contents out.new) shown) }
    ensures prefix { (o : Report) (z : Content) → IsReplayed (begun start.now) cuts.now o z
        → OnErr result ((shown : List ℕ) × IsRoundText text (begun start.now) cuts.now shown
        × AppendsPrefix (O.contents out.old) (O.contents out.new) shown) }
{
    match text {
        RoundText::Operations(span) => {
            write_trace::<JournalFlash, O>(alloc, start, cuts, span, out)
        }
        RoundText::Sectors(view) => {
            write_sectors::<JournalFlash, O>(alloc, start, cuts, view, out)
        }
    }
}

/// Prints that of both rounds, each under a line of its own.
///
/// # Errors
///
/// `Replay` where a cut can't occur, which is found before anything is printed, or for want of memory; `Trace` for want of memory, or where
/// the output fails; `Write`.
pub fn show<O: Write>(
    alloc: Global,
    asked: &Campaigned,
    text: RoundText,
    out: &mut O,
) -> Result<(), Refusal>
    ensures { AnswersShown asked.now text (O.contents out.old) (O.contents out.new) result }
{
    let then = asked.checked(alloc)?;
    write_text(out, b"round 1\n")?;
    let firsts = asked.campaign.schedule(Round::First);
    write_round(alloc, &asked.start, &firsts, text, out).map_err(Refusal::Trace)?;
    write_text(out, b"round 2\n")?;
    let seconds = asked.campaign.schedule(Round::Second);
    write_round(alloc, &then, &seconds, text, out).map_err(Refusal::Trace)?;
    Ok(())
}
