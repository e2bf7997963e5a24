//! A schedule of power cuts and the start that it begins at, as options give them.
ghost use Rattle.std.specs.Prelude.{◌≡◌, IfErr, IfOk, OnOk};
ghost use Rattle.clap.specs.Matches.{found_of};
ghost use Rattle.mc_actions.specs.Schedules.{GivesOutputs, GivesScheduled, LacksFrom, LacksScheduled};
ghost use Rattle.mc_start.specs.Start.{schedule_text};
ghost use Rattle.mc_options.specs.{Arguments.{KeepsFiles}, Refusals.{FailsSchedule}};
ghost use Rattle.mc_options.specs.Sources.{GivesStart};

use clap::ArgMatches;
use mc_cli::KnownFiles;
use mc_explore::{Schedule, Start};
use mc_options::{Refusal, check_outputs, flash_options, read_start, required};
use std::alloc::Global;

/// A start, and a schedule of power cuts from it.
#[derive(Drop)]
pub struct Scheduled {
    pub start: Start,
    pub schedule: Schedule,
}

/// The start of a source, and the schedule that the options give. The words are checked before a file is touched.
///
/// # Errors
///
/// `Argument` where no schedule is given; what `schedule_from` refuses.
pub fn read_schedule<F: KnownFiles>(
    files: &F,
    alloc: Global,
    arguments: &ArgMatches<'_>,
) -> Result<Scheduled, Refusal>
    ensures given { IfOk result (GivesScheduled (F.holds files.now) (found_of arguments.now)) }
    ensures refused { IfErr result (LacksScheduled (F.holds files.now) (found_of arguments.now)) }
{
    schedule_from(files, alloc, arguments, required(arguments, "schedule")?)
}

/// The schedule of a text.
///
/// # Errors
///
/// `Schedule`.
fn schedule_of(text: &str) -> Result<Schedule, Refusal>
    ensures given { IfOk result (λ cuts. text.now ≡ schedule_text cuts) }
    ensures refused { IfErr result (FailsSchedule text.now) }
{
    let schedule = Schedule::read(text)?;
    Ok(schedule)
}

/// The start of a source, and the schedule of a text. The words are checked before a file is touched.
///
/// # Errors
///
/// `Source`, `Layout` and `Schedule` of the words, in this order; `SameFile` of the files to be written; what `read_start` refuses.
pub fn schedule_from<F: KnownFiles>(
    files: &F,
    alloc: Global,
    arguments: &ArgMatches<'_>,
    schedule: &str,
) -> Result<Scheduled, Refusal>
    ensures start { IfOk result (λ t. GivesStart (F.holds files.now) (found_of arguments.now)
        t.start) }
    ensures schedule { IfOk result (λ t. schedule.now ≡ schedule_text t.schedule) }
    ensures kept { OnOk result (KeepsFiles (found_of arguments.now)) }
    ensures refused { IfErr result (LacksFrom schedule.now (F.holds files.now)
        (found_of arguments.now)) }
{
    let options = match flash_options(arguments) {
        Ok(options) => options,
        Err(refusal) => return Err(refusal),
    };
    let schedule = schedule_of(schedule)?;
    check_outputs(files, arguments)?;
    let start = read_start(files, alloc, &options)?;
    Ok(Scheduled { start, schedule })
}

/// The files that the flashes of a replay go to, where some are named.
#[derive(Clone, Copy, Debug)]
pub struct Outputs<'p> {
    /// That of the flash at the last cut.
    pub at_cut: Option<&'p str>,
    /// That of the flash which the last boot leaves.
    pub out: Option<&'p str>,
}

impl<'p> Outputs<'p> {
    /// Those that the words name.
    pub fn named(arguments: &ArgMatches<'p>) -> Outputs<'p>
        ensures { GivesOutputs (found_of arguments.now) result }
    {
        Outputs {
            at_cut: arguments.get_str("at-cut"),
            out: arguments.get_str("out"),
        }
    }
}
