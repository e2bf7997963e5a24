//! Why a command ended without a result, and the status for it.
ghost use Rattle.std.specs.Prelude.{◌≡◌, ◌≤◌};
ghost use Rattle.mc_options.specs.Statuses.{status_of, status_of_start, status_of_replay, status_of_trace, status_of_tool, status_of_exploration, status_of_life, status_of_script};

use crate::numbers::NumberOption;
use mc_campaign::CampaignError;
use mc_explore::{CursorError, ExploreError, ReplayError, ScheduleError, StartError};
use mc_flash::{FlashError, LayoutError};
use mc_image::{ImageError, VersionError};
use mc_imgtool::ToolError;
use mc_life::{EventError, LifeError, ScriptError};
use mc_output::WriteFailed;
use mc_trace::TraceError;
use std::alloc::AllocError;
use std::io::Write;
use thiserror::Error;

/// Why a command ended without a result. Its text is the number and the name of the refusal, where it has them.
#[derive(Clone, Copy, Debug, PartialEq, Eq, Error)]
pub enum Refusal {
    /// A word of the command line is not UTF-8 text.
    #[error("an argument is not UTF-8 text")]
    NotText,
    /// A required argument is missing, or a word is not one that its option takes, where clap did not refuse it.
    #[error("an argument is missing or out of its range")]
    Argument,
    /// The text of an option says no number that it takes.
    #[error("{0}")]
    Number(NumberOption),
    /// The text of a version is refused.
    #[error(transparent)]
    Version(VersionError),
    /// The options of a source do not go together.
    #[error("E70 SourceOptions")]
    Source,
    /// The numbers of a layout are refused.
    #[error(transparent)]
    Layout(#[from] LayoutError),
    /// The text of a schedule is refused.
    #[error(transparent)]
    Schedule(ScheduleError),
    /// The text of a campaign is refused.
    #[error(transparent)]
    Campaign(CampaignError),
    /// The text of a cursor is refused.
    #[error(transparent)]
    Cursor(CursorError),
    /// The images or the bytes of a source are refused.
    #[error(transparent)]
    Start(StartError),
    /// The schedule is not replayed.
    #[error(transparent)]
    Replay(ReplayError),
    /// The schedule is not traced.
    #[error(transparent)]
    Trace(#[from] TraceError),
    /// The life is not replayed to its end.
    #[error(transparent)]
    Life(#[from] LifeError),
    /// The exploration ends early.
    #[error(transparent)]
    Explore(ExploreError),
    /// The flash refuses.
    #[error(transparent)]
    Flash(#[from] FlashError),
    /// The image tool refuses.
    #[error(transparent)]
    Tool(ToolError),
    /// No refusal has the number or the name that is to be explained.
    #[error("no refusal has this number or name")]
    Unexplained,
    /// `--after` and `--cursor` are both given.
    #[error("E73 CursorOptions")]
    CursorOptions,
    /// A schedule that was counted does not end in a boot.
    #[error("E74 NotAllBoot")]
    NotAllBoot,
    /// A schedule that was counted does not end right.
    #[error("E76 NotAllRight")]
    NotAllRight,
    /// Not all rows were counted.
    #[error("E77 NotWhole")]
    NotWhole,
    /// What a slot is to hold at the end is not known.
    #[error("E85 NoExpectation")]
    Expectation,
    /// What a device is delivered with is not given, or twice.
    #[error("E83 DeviceOptions")]
    Device,
    /// The script is not read.
    #[error(transparent)]
    Script(ScriptError),
    /// The file that is to be written is one that is read.
    #[error("E75 SameFile")]
    SameFile,
    /// The folder to be written exists, and is not an empty folder.
    #[error("E86 InUse")]
    InUse,
    /// Of all numbers of cuts: flashes that 16 cuts leave may lead to more.
    #[error("E87 MoreCuts")]
    MoreCuts,
    /// A verdict is asked of a layout with which the boot loader swaps nothing.
    #[error("E89 NeverSwaps")]
    NeverSwaps,
    /// A picture would show more operations than a browser can.
    #[error("E91 LargePicture")]
    LargePicture,
    /// The text says nothing that a boot can read of a torn operation.
    #[error("E92 NoReading")]
    NoReading,
    /// The boot has no operation of that number, or that operation has no such case.
    #[error("E93 NoCase")]
    NoCase,
    /// A file of a layout has a line that is none of its options.
    #[error("E88 LayoutFile")]
    LayoutFile,
    /// A file cannot be opened or created.
    #[error("E71 Open")]
    Open,
    /// The help, or the output of a command that is no page of rows, cannot be written.
    #[error("E25 Write")]
    Write,
    /// There is no memory to read the command line.
    #[error("E26 Memory")]
    Memory,
}

impl From<ExploreError> for Refusal {
    ghost use Rattle.mc_options.specs.declared.refusal.Refusal.TheVariants.{Explore};

    ghost from_gives = { λ error refusal. refusal ≡ Explore error };

    fn from(error: ExploreError) -> Self {
        Refusal::Explore(error)
    }
}

impl From<VersionError> for Refusal {
    ghost use Rattle.mc_options.specs.declared.refusal.Refusal.TheVariants.{Version};

    ghost from_gives = { λ error refusal. refusal ≡ Version error };

    fn from(error: VersionError) -> Self {
        Refusal::Version(error)
    }
}

impl From<ScheduleError> for Refusal {
    ghost use Rattle.mc_options.specs.declared.refusal.Refusal.TheVariants.{Schedule};

    ghost from_gives = { λ error refusal. refusal ≡ Schedule error };

    fn from(error: ScheduleError) -> Self {
        Refusal::Schedule(error)
    }
}

impl From<CampaignError> for Refusal {
    ghost use Rattle.mc_options.specs.declared.refusal.Refusal.TheVariants.{Campaign};

    ghost from_gives = { λ error refusal. refusal ≡ Campaign error };

    fn from(error: CampaignError) -> Self {
        Refusal::Campaign(error)
    }
}

impl From<CursorError> for Refusal {
    ghost use Rattle.mc_options.specs.declared.refusal.Refusal.TheVariants.{Cursor};

    ghost from_gives = { λ error refusal. refusal ≡ Cursor error };

    fn from(error: CursorError) -> Self {
        Refusal::Cursor(error)
    }
}

impl From<StartError> for Refusal {
    ghost use Rattle.mc_options.specs.declared.refusal.Refusal.TheVariants.{Start};

    ghost from_gives = { λ error refusal. refusal ≡ Start error };

    fn from(error: StartError) -> Self {
        Refusal::Start(error)
    }
}

impl From<ReplayError> for Refusal {
    ghost use Rattle.mc_options.specs.declared.refusal.Refusal.TheVariants.{Replay};

    ghost from_gives = { λ error refusal. refusal ≡ Replay error };

    fn from(error: ReplayError) -> Self {
        Refusal::Replay(error)
    }
}

impl From<ToolError> for Refusal {
    ghost use Rattle.mc_options.specs.declared.refusal.Refusal.TheVariants.{Tool};

    ghost from_gives = { λ error refusal. refusal ≡ Tool error };

    fn from(error: ToolError) -> Self {
        Refusal::Tool(error)
    }
}

impl From<ScriptError> for Refusal {
    ghost use Rattle.mc_options.specs.declared.refusal.Refusal.TheVariants.{Script};

    ghost from_gives = { λ error refusal. refusal ≡ Script error };

    fn from(error: ScriptError) -> Self {
        Refusal::Script(error)
    }
}

impl From<AllocError> for Refusal {
    ghost use Rattle.mc_options.specs.declared.refusal.Refusal.TheVariants.{Memory};

    ghost from_gives = { λ _ refusal. refusal ≡ Memory };

    fn from(_: AllocError) -> Self {
        Refusal::Memory
    }
}

impl From<WriteFailed> for Refusal {
    ghost use Rattle.mc_options.specs.declared.refusal.Refusal.TheVariants.{Write};

    ghost from_gives = { λ _ refusal. refusal ≡ Write };

    fn from(_: WriteFailed) -> Self {
        Refusal::Write
    }
}

impl Refusal {
    /// The exit status: 1 where a content is refused, 2 where the command line is, 3 where a file, a write or memory
    /// fails.
    /// Promised, also of `report`: the status of each refusal (`exact`, `status_of`).
    pub fn status(&self) -> u8
        ensures exact { result ≡ status_of self.now }
        ensures range { (1 ≤ result) × (result ≤ 3) }
    {
        match self {
            Refusal::NotText
            | Refusal::Argument
            | Refusal::Number(_)
            | Refusal::Version(_)
            | Refusal::Source
            | Refusal::Unexplained
            | Refusal::CursorOptions
            | Refusal::Device
            | Refusal::Expectation
            | Refusal::SameFile
            | Refusal::InUse
            | Refusal::LayoutFile
            | Refusal::NeverSwaps
            | Refusal::LargePicture
            | Refusal::NoReading
            | Refusal::Layout(_)
            | Refusal::Schedule(_)
            | Refusal::Campaign(_)
            | Refusal::Cursor(_) => 2,
            Refusal::NotAllBoot
            | Refusal::NotAllRight
            | Refusal::NotWhole
            | Refusal::MoreCuts
            | Refusal::NoCase => 1,
            Refusal::Script(error) => script_status(*error),
            Refusal::Life(error) => life_status(*error),
            Refusal::Start(error) => start_status(*error),
            Refusal::Replay(error) => replay_status(*error),
            Refusal::Trace(error) => trace_status(*error),
            Refusal::Tool(error) => tool_status(*error),
            Refusal::Explore(error) => exploration_status(*error),
            Refusal::Flash(_) | Refusal::Open | Refusal::Write | Refusal::Memory => 3,
        }
    }

    /// Prints the line of the refusal, and returns the status, also where the line cannot be written.
    pub fn report<E: Write>(&self, err: &mut E) -> u8
        ensures exact { result ≡ status_of self.now }
        ensures range { (1 ≤ result) × (result ≤ 3) }
    {
        let _ = writeln!(err, "mcsim: {self}");
        self.status()
    }
}

/// The status for a refused start.
fn start_status(error: StartError) -> u8
    ensures exact { result ≡ status_of_start error }
    ensures range { (1 ≤ result) × (result ≤ 3) }
{
    match error {
        StartError::Memory
        | StartError::ImageA(ImageError::Memory)
        | StartError::ImageB(ImageError::Memory) => 3,
        StartError::ImageA(_)
        | StartError::ImageB(_)
        | StartError::DoesNotFit
        | StartError::FlashSize => 1,
    }
}

/// The status for a schedule that is not replayed.
fn replay_status(error: ReplayError) -> u8
    ensures exact { result ≡ status_of_replay error }
    ensures range { (1 ≤ result) × (result ≤ 3) }
{
    match error {
        ReplayError::CannotOccur(_) => 1,
        ReplayError::Memory => 3,
    }
}

/// The status for a schedule that is not traced.
fn trace_status(error: TraceError) -> u8
    ensures exact { result ≡ status_of_trace error }
    ensures range { (1 ≤ result) × (result ≤ 3) }
{
    match error {
        TraceError::CannotOccur(_) => 1,
        TraceError::Memory | TraceError::Write => 3,
    }
}

/// The status for a script that is not read.
fn script_status(error: ScriptError) -> u8
    ensures exact { result ≡ status_of_script error }
    ensures range { (1 ≤ result) × (result ≤ 3) }
{
    match error {
        ScriptError::Input(error) => tool_status(error),
        ScriptError::NotText => 1,
    }
}

/// The status for a life that is not replayed to its end.
fn life_status(error: LifeError) -> u8
    ensures exact { result ≡ status_of_life error }
    ensures range { (1 ≤ result) × (result ≤ 3) }
{
    match error {
        LifeError::Refused(EventError::NoFile, _, _) | LifeError::Memory | LifeError::Write => 3,
        LifeError::Refused(_, _, _) => 1,
    }
}

/// The status for a refusal of the image tool.
fn tool_status(error: ToolError) -> u8
    ensures exact { result ≡ status_of_tool error }
    ensures range { (1 ≤ result) × (result ≤ 3) }
{
    match error {
        ToolError::Image(ImageError::Memory)
        | ToolError::Read
        | ToolError::Write
        | ToolError::Memory => 3,
        ToolError::NeedsSlotSize => 2,
        ToolError::Image(_)
        | ToolError::NotZeros
        | ToolError::SlotTooSmall
        | ToolError::InputTooLong => 1,
    }
}

/// The status for an exploration that ends early.
fn exploration_status(error: ExploreError) -> u8
    ensures exact { result ≡ status_of_exploration error }
    ensures range { (1 ≤ result) × (result ≤ 3) }
{
    match error {
        ExploreError::OtherStart
        | ExploreError::OtherRules
        | ExploreError::OtherBound
        | ExploreError::CannotOccur => 1,
        ExploreError::Memory | ExploreError::Failed | ExploreError::Write => 3,
    }
}
