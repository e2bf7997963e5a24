//! Why a schedule is not traced.
ghost use Rattle.std.specs.Prelude.{◌≡◌};
ghost use Rattle.mc_trace.specs.declared.error.TraceError.TheVariants.{Memory, Write};

use mc_explore::ReplayError;
use mc_flash::FlashError;
use mc_output::WriteFailed;
use std::alloc::AllocError;
use thiserror::Error;

/// Why a schedule is not traced.
#[derive(Clone, Copy, Debug, PartialEq, Eq, Error)]
pub enum TraceError {
    /// The cut of that number, counted from 0, is the first that can't occur. Nothing is written.
    #[error("E53 CannotOccur at {0}")]
    CannotOccur(usize),
    /// An allocation failed.
    #[error("E52 Memory")]
    Memory,
    /// A write failed, or took no bytes.
    #[error("E25 Write")]
    Write,
}

impl From<FlashError> for TraceError {
    ghost from_gives = { λ _ e. e ≡ Memory };

    fn from(_: FlashError) -> Self {
        TraceError::Memory
    }
}

impl From<ReplayError> for TraceError {
    ghost use Rattle.mc_trace.specs.Trace.{of_replay};

    ghost from_gives = { λ error e. e ≡ of_replay error };

    fn from(error: ReplayError) -> Self {
        match error {
            ReplayError::CannotOccur(index) => TraceError::CannotOccur(index),
            ReplayError::Memory => TraceError::Memory,
        }
    }
}

impl From<AllocError> for TraceError {
    ghost from_gives = { λ _ e. e ≡ Memory };

    fn from(_: AllocError) -> Self {
        TraceError::Memory
    }
}

impl From<WriteFailed> for TraceError {
    ghost from_gives = { λ _ e. e ≡ Write };

    fn from(_: WriteFailed) -> Self {
        TraceError::Write
    }
}
