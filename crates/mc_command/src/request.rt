//! What a command is asked for, and its answer.
ghost use Rattle.std.specs.Prelude.{◌≡◌, MatchOption};
ghost use Rattle.clap.specs.Matches.{found_of};
ghost use Rattle.mc_cli.specs.Files.{Holds};
ghost use Rattle.mc_command.specs.Commands.{Answers, IsBounded, IsRead, command_name};

use crate::inspect::{Inspected, LocateAsked};
use crate::picture::PictureAsked;
use crate::tears::TearsAsked;
use crate::{inspect, picture, tears};
use clap::ArgMatches;
use mc_actions::creation::Creation;
use mc_actions::explain::Explained;
use mc_actions::infile::infile_named;
use mc_actions::rounds::{Campaigned, RoundText};
use mc_actions::schedule::{Outputs, Scheduled};
use mc_actions::vectors::VectorsAsked;
use mc_actions::{create, dumpinfo, layout, replay, rounds, trace, trailers, vectors, verify};
use mc_campaign::{Campaign, CampaignCursor, Campaigns};
use mc_cli::{KnownFiles, WatchedFiles};
use mc_explore::{Cursor, Schedule, Schedules, Start};
use mc_flash::Layout;
use mc_options::{Refusal, has_two_rounds, span_options, view_options};
use mc_trace::{Span, Times, View};
use mc_verdict::census::Wanted;
use mc_verdict::explore::Exploration;
use mc_verdict::{Asked, Ends, census, explore};
use std::alloc::Global;
use std::io::{Read, Write};

/// A command whose words alone, and the files that they name, say what is asked.
#[derive(Clone, Copy, Debug)]
pub enum Command {
    Create,
    Verify,
    Dumpinfo,
    Layout,
    Type,
    Boot,
    Replay,
    Trace,
    Sectors,
    Frames,
    Picture,
    Tears,
    Vectors,
    Inspect,
    Locate,
    Explore,
    Campaign,
    Survey,
    Census,
    Explain,
}

impl Command {
    /// The command of that name.
    pub fn named(name: &str) -> Option<Command>
        ensures { MatchOption result ((command : Command) → name.now ≡ command_name command → ⊥)
            (λ command. name.now ≡ command_name command) }
    {
        match name {
            "create" => Some(Command::Create),
            "verify" => Some(Command::Verify),
            "dumpinfo" => Some(Command::Dumpinfo),
            "layout" => Some(Command::Layout),
            "type" => Some(Command::Type),
            "boot" => Some(Command::Boot),
            "replay" => Some(Command::Replay),
            "trace" => Some(Command::Trace),
            "sectors" => Some(Command::Sectors),
            "frames" => Some(Command::Frames),
            "picture" => Some(Command::Picture),
            "tears" => Some(Command::Tears),
            "vectors" => Some(Command::Vectors),
            "inspect" => Some(Command::Inspect),
            "locate" => Some(Command::Locate),
            "explore" => Some(Command::Explore),
            "campaign" => Some(Command::Campaign),
            "survey" => Some(Command::Survey),
            "census" => Some(Command::Census),
            "explain" => Some(Command::Explain),
            _ => None,
        }
    }
}

/// What a command is asked for.
#[derive(Drop)]
pub enum Request<'p> {
    /// An image from a payload.
    Create(Creation<'p>),
    /// Whether a file, or standard input, is a valid image.
    Verify(Option<&'p str>),
    /// What is in an image, of a file or of standard input, and whether its entries are named.
    Dumpinfo(Option<&'p str>),
    /// What follows from the numbers of a layout, and from how long its flash takes.
    Layout(Layout, Option<Times>),
    /// What the trailers of a flash ask for.
    Type(Start),
    /// The outcome of the boot after a schedule, and its flashes in files.
    Replay(Scheduled, Outputs<'p>),
    /// The outcomes of both rounds of a campaign, and its flashes in files.
    CampaignReplay(Campaigned, Outputs<'p>),
    /// The operations of a schedule's boots.
    Trace(Scheduled, Span),
    /// The sectors of a flash of a schedule.
    Sectors(Scheduled, View),
    /// The operations, or the sectors, of both rounds of a campaign.
    CampaignShown(Campaigned, RoundText),
    /// The frames of a schedule's boots.
    Frames(Scheduled, Ends, Span),
    /// The page that shows a schedule's boots.
    Picture(PictureAsked),
    /// What torn operations of a boot lead to.
    Tears(TearsAsked<'p>),
    /// The distinct flashes that cuts or losses leave.
    Vectors(VectorsAsked<'p>),
    /// What a dump is.
    Inspect(Inspected),
    /// Where a dump occurs in a swap.
    Locate(LocateAsked),
    /// A page of schedules, and what is asked of its rows.
    Explore(Asked, Exploration<(), Cursor, Schedule>),
    /// A page of campaigns, and what is asked of its rows.
    Campaigns(Asked, Exploration<bool, CampaignCursor, Campaign>),
    /// What a page of schedules comes to.
    Survey(Asked, Exploration<(), Cursor, Schedule>),
    /// What a page of campaigns comes to.
    CampaignSurvey(Asked, Exploration<bool, CampaignCursor, Campaign>),
    /// What all schedules come to.
    Census(Wanted<()>),
    /// What all campaigns come to.
    CampaignCensus(Wanted<bool>),
    /// What refusals mean.
    Explain(Explained<'p>),
}

impl<'p> Request<'p> {
    /// What the words of a command ask for. They are checked before a file is touched.
    ///
    /// # Errors
    ///
    /// What refuses the words or their files.
    pub fn read<F: KnownFiles>(
        files: &F,
        alloc: Global,
        command: Command,
        arguments: &ArgMatches<'p>,
    ) -> Result<Request<'p>, Refusal>
        ensures { IsRead command (F.holds files.now) (found_of arguments.now) result }
    {
        match command {
            Command::Create => Ok(Request::Create(Creation::read(arguments)?)),
            Command::Verify => Ok(Request::Verify(infile_named(arguments))),
            Command::Dumpinfo => Ok(Request::Dumpinfo(infile_named(arguments))),
            Command::Layout => read_layout(arguments),
            Command::Type => Ok(Request::Type(trailers::read(files, alloc, arguments)?)),
            Command::Boot => read_boot(files, alloc, arguments),
            Command::Replay => read_replay(files, alloc, arguments),
            Command::Trace => read_trace(files, alloc, arguments),
            Command::Sectors => read_sectors(files, alloc, arguments),
            Command::Frames => read_frames(files, alloc, arguments),
            Command::Picture => read_picture(files, alloc, arguments),
            Command::Tears => Ok(Request::Tears(tears::read(files, alloc, arguments)?)),
            Command::Vectors => Ok(Request::Vectors(vectors::read(files, alloc, arguments)?)),
            Command::Inspect => Ok(Request::Inspect(inspect::read(files, alloc, arguments)?)),
            Command::Locate => Ok(Request::Locate(inspect::read_locate(files, alloc, arguments)?)),
            Command::Explore => read_explore(files, alloc, arguments),
            Command::Campaign => read_campaign(files, alloc, arguments),
            Command::Survey => read_survey(files, alloc, arguments),
            Command::Census => read_census(files, alloc, arguments),
            Command::Explain => Ok(Request::Explain(Explained::read(arguments))),
        }
    }

    /// Writes its text, or a beginning of it, and says how the command ends. With `named` the usual names of an image's entries follow on
    /// `err`, where the request is for a report of one.
    ///
    /// # Errors
    ///
    /// Those of its command.
    pub fn answer<F: KnownFiles, R: Read, O: Write, E: Write>(
        &self,
        files: &WatchedFiles<'_, F>,
        alloc: Global,
        input: &mut R,
        out: &mut O,
        err: &mut E,
        named: bool,
    ) -> Result<(), Refusal>
        requires { IsBounded self.now }
        ensures { Answers self.now (F.holds files.now.files.now) (R.remaining input.old)
            (O.contents out.old)
            (O.contents out.new) result }
    {
        match self {
            Request::Create(creation) => create::answer(files, alloc, creation, input, out),
            Request::Verify(infile) => verify::answer(files, *infile, input, out),
            Request::Dumpinfo(infile) => {
                dumpinfo::answer(files, alloc, *infile, named, input, out, err)
            }
            Request::Layout(layout, times) => layout::answer(layout, *times, out),
            Request::Type(start) => trailers::answer(alloc, start, out),
            Request::Replay(given, outputs) => replay::answer(files, alloc, given, outputs, out),
            Request::CampaignReplay(given, outputs) => {
                rounds::answer(files, alloc, given, outputs, out)
            }
            Request::Trace(given, span) => trace::answer(alloc, given, *span, out),
            Request::Sectors(given, view) => trace::answer_sectors(alloc, given, *view, out),
            Request::CampaignShown(given, text) => rounds::show(alloc, given, *text, out),
            Request::Frames(given, ends, span) => {
                picture::answer_frames(alloc, given, ends, *span, out)
            }
            Request::Picture(asked) => picture::answer(alloc, asked, out),
            Request::Tears(asked) => tears::answer(files, alloc, asked, out),
            Request::Vectors(asked) => vectors::answer(files, alloc, asked, out),
            Request::Inspect(asked) => inspect::answer(alloc, asked, out),
            Request::Locate(asked) => inspect::locate_in(alloc, asked, out),
            Request::Explore(asked, page) => explore::run::<Schedules, O>(page, asked, alloc, out),
            Request::Campaigns(asked, page) => explore::run::<Campaigns, O>(
                page, asked, alloc, out,
            ),
            Request::Survey(asked, page) => explore::survey::<Schedules, O>(
                page, asked, alloc, out,
            ),
            Request::CampaignSurvey(asked, page) => {
                explore::survey::<Campaigns, O>(page, asked, alloc, out)
            }
            Request::Census(wanted) => census::run::<Schedules, O>(wanted, alloc, out),
            Request::CampaignCensus(wanted) => census::run::<Campaigns, O>(wanted, alloc, out),
            Request::Explain(explained) => explained.answer(alloc, out),
        }
    }
}

/// What `layout` is asked for.
///
/// # Errors
///
/// Those of `layout::read`.
fn read_layout<'p>(arguments: &ArgMatches<'p>) -> Result<Request<'p>, Refusal>
    ensures { (holds : Holds) → IsRead Command.Layout holds (found_of arguments.now) result }
{
    let (layout, times) = layout::read(arguments)?;
    Ok(Request::Layout(layout, times))
}

/// What `boot` is asked for.
///
/// # Errors
///
/// Those of `replay::read_boot`.
fn read_boot<'p, F: KnownFiles>(
    files: &F,
    alloc: Global,
    arguments: &ArgMatches<'p>,
) -> Result<Request<'p>, Refusal>
    ensures { IsRead Command.Boot (F.holds files.now) (found_of arguments.now) result }
{
    let (given, outputs) = replay::read_boot(files, alloc, arguments)?;
    Ok(Request::Replay(given, outputs))
}

/// What `replay` is asked for, of one round or of two.
///
/// # Errors
///
/// `Argument`; those of `replay::read` and `rounds::read`.
fn read_replay<'p, F: KnownFiles>(
    files: &F,
    alloc: Global,
    arguments: &ArgMatches<'p>,
) -> Result<Request<'p>, Refusal>
    ensures { IsRead Command.Replay (F.holds files.now) (found_of arguments.now) result }
{
    if has_two_rounds(arguments)? {
        let given = rounds::read(files, alloc, arguments)?;
        return Ok(Request::CampaignReplay(given, Outputs::named(arguments)));
    }
    let (given, outputs) = replay::read(files, alloc, arguments)?;
    Ok(Request::Replay(given, outputs))
}

/// What `trace` is asked for, of one round or of two.
///
/// # Errors
///
/// `Argument`; those of `span_options`, `trace::read` and `rounds::read`.
fn read_trace<'p, F: KnownFiles>(
    files: &F,
    alloc: Global,
    arguments: &ArgMatches<'p>,
) -> Result<Request<'p>, Refusal>
    ensures { IsRead Command.Trace (F.holds files.now) (found_of arguments.now) result }
{
    if has_two_rounds(arguments)? {
        let text = RoundText::Operations(span_options(arguments)?);
        return Ok(Request::CampaignShown(rounds::read(files, alloc, arguments)?, text));
    }
    let (given, span) = trace::read(files, alloc, arguments)?;
    Ok(Request::Trace(given, span))
}

/// What `sectors` is asked for, of one round or of two.
///
/// # Errors
///
/// `Argument`; those of `view_options`, `trace::read_sectors` and `rounds::read`.
fn read_sectors<'p, F: KnownFiles>(
    files: &F,
    alloc: Global,
    arguments: &ArgMatches<'p>,
) -> Result<Request<'p>, Refusal>
    ensures { IsRead Command.Sectors (F.holds files.now) (found_of arguments.now) result }
{
    if has_two_rounds(arguments)? {
        let text = RoundText::Sectors(view_options(arguments)?);
        return Ok(Request::CampaignShown(rounds::read(files, alloc, arguments)?, text));
    }
    let (given, view) = trace::read_sectors(files, alloc, arguments)?;
    Ok(Request::Sectors(given, view))
}

/// What `frames` is asked for.
///
/// # Errors
///
/// Those of `picture::read`.
fn read_frames<'p, F: KnownFiles>(
    files: &F,
    alloc: Global,
    arguments: &ArgMatches<'p>,
) -> Result<Request<'p>, Refusal>
    ensures { IsRead Command.Frames (F.holds files.now) (found_of arguments.now) result }
{
    let (given, ends, span) = picture::read(files, alloc, arguments)?;
    Ok(Request::Frames(given, ends, span))
}

/// What `picture` is asked for.
///
/// # Errors
///
/// Those of `picture::read_picture`.
fn read_picture<'p, F: KnownFiles>(
    files: &F,
    alloc: Global,
    arguments: &ArgMatches<'p>,
) -> Result<Request<'p>, Refusal>
    ensures { IsRead Command.Picture (F.holds files.now) (found_of arguments.now) result }
{
    let asked = picture::read_picture(files, alloc, arguments)?;
    Ok(Request::Picture(asked))
}

/// What `explore` is asked for.
///
/// # Errors
///
/// Those of `explore::ask`.
fn read_explore<'p, F: KnownFiles>(
    files: &F,
    alloc: Global,
    arguments: &ArgMatches<'p>,
) -> Result<Request<'p>, Refusal>
    ensures { IsRead Command.Explore (F.holds files.now) (found_of arguments.now) result }
{
    let (asked, page) = explore::ask::<Schedules, F>(files, alloc, arguments)?;
    Ok(Request::Explore(asked, page))
}

/// What `campaign` is asked for.
///
/// # Errors
///
/// Those of `explore::ask`.
fn read_campaign<'p, F: KnownFiles>(
    files: &F,
    alloc: Global,
    arguments: &ArgMatches<'p>,
) -> Result<Request<'p>, Refusal>
    ensures { IsRead Command.Campaign (F.holds files.now) (found_of arguments.now) result }
{
    let (asked, page) = explore::ask::<Campaigns, F>(files, alloc, arguments)?;
    Ok(Request::Campaigns(asked, page))
}

/// What `survey` is asked for, of schedules or of campaigns.
///
/// # Errors
///
/// `Argument`; those of `explore::ask`.
fn read_survey<'p, F: KnownFiles>(
    files: &F,
    alloc: Global,
    arguments: &ArgMatches<'p>,
) -> Result<Request<'p>, Refusal>
    ensures { IsRead Command.Survey (F.holds files.now) (found_of arguments.now) result }
{
    if has_two_rounds(arguments)? {
        let (asked, page) = explore::ask::<Campaigns, F>(files, alloc, arguments)?;
        return Ok(Request::CampaignSurvey(asked, page));
    }
    let (asked, page) = explore::ask::<Schedules, F>(files, alloc, arguments)?;
    Ok(Request::Survey(asked, page))
}

/// What `census` is asked for, of schedules or of campaigns.
///
/// # Errors
///
/// `Argument`; those of `census::read`.
fn read_census<'p, F: KnownFiles>(
    files: &F,
    alloc: Global,
    arguments: &ArgMatches<'p>,
) -> Result<Request<'p>, Refusal>
    ensures { IsRead Command.Census (F.holds files.now) (found_of arguments.now) result }
{
    if has_two_rounds(arguments)? {
        let wanted = census::read::<Campaigns, F>(files, alloc, arguments)?;
        return Ok(Request::CampaignCensus(wanted));
    }
    let wanted = census::read::<Schedules, F>(files, alloc, arguments)?;
    Ok(Request::Census(wanted))
}
