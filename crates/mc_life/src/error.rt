//! Why an event cannot happen, and why a script is not read.
ghost use Rattle.std.specs.Prelude.{◌≡◌};

use mc_flash::FlashError;
use mc_imgtool::ToolError;
use std::alloc::AllocError;
use thiserror::Error;

/// Why an event cannot happen.
#[derive(Clone, Copy, Debug, PartialEq, Eq, Error)]
pub enum EventError {
    /// A byte that is to be written is not 0xff.
    #[error("E40 NotErased")]
    NotErased,
    /// The cut of that number of the event, counted from 0, is the first that can't occur.
    #[error("E53 CannotOccur at {0}")]
    CannotOccur(usize),
    /// The file cannot be opened.
    #[error("E71 Open")]
    NoFile,
    /// A line is no event's.
    #[error("E78 EventSyntax")]
    Syntax,
    /// It is one of the running image, and none runs.
    #[error("E79 NotRunning")]
    NotRunning,
    /// The file has not as many bytes as are downloaded or written, or the secondary does not hold them; or what is stored is not
    /// as long as the secondary.
    #[error("E80 NotThatLong")]
    NotThatLong,
    /// The secondary has no such sector.
    #[error("E81 NoSector")]
    NoSector,
    /// No swap is finished; or what is to stand at image-ok is longer than its room.
    #[error("E82 CannotMark")]
    CannotMark,
    /// What is written does not begin with a unit.
    #[error("E90 NotAligned")]
    NotAligned,
    /// The torn operation cannot be read so.
    #[error("E93 NoCase")]
    NoCase,
    /// An allocation failed, or the room of a flash that counts is full.
    #[error("E52 Memory")]
    Memory,
}

/// Why a script is not read.
#[derive(Clone, Copy, Debug, PartialEq, Eq, Error)]
pub enum ScriptError {
    /// It is longer than 2^24 bytes, or a read or an allocation failed.
    #[error(transparent)]
    Input(ToolError),
    /// It is not UTF-8 text.
    #[error("E84 ScriptText")]
    NotText,
}

impl From<ToolError> for ScriptError {
    ghost use Rattle.mc_life.specs.declared.error.ScriptError.TheVariants.{Input};

    ghost from_gives = { λ error e. e ≡ Input error };

    fn from(error: ToolError) -> Self {
        ScriptError::Input(error)
    }
}

impl From<FlashError> for EventError {
    ghost use Rattle.mc_life.specs.Device.{of_flash};

    ghost from_gives = { λ error e. e ≡ of_flash error };

    fn from(error: FlashError) -> Self {
        match error {
            FlashError::NotErased => EventError::NotErased,
            FlashError::Memory => EventError::Memory,
        }
    }
}

impl From<AllocError> for EventError {
    ghost use Rattle.mc_life.specs.declared.error.EventError.TheVariants.{Memory};

    ghost from_gives = { λ _ e. e ≡ Memory };

    fn from(_: AllocError) -> Self {
        EventError::Memory
    }
}
