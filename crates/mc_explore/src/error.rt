//! Why an explorer gives up.
ghost use Rattle.std.specs.Prelude.{◌≡◌};
ghost use Rattle.mc_explore.specs.declared.error.ExploreError.TheVariants.{Memory};
ghost use Rattle.mc_explore.specs.Explores.{failure_of};

use mc_walk::TourError;
use std::alloc::AllocError;
use thiserror::Error;

/// Why an explorer gives up.
#[derive(Clone, Copy, Debug, PartialEq, Eq, Error)]
pub enum ExploreError {
    /// An allocation failed, or the room that the flash took at its start is full. The explorer has failed then.
    #[error("E52 Memory")]
    Memory,
    /// The explorer failed before.
    #[error("E54 Failed")]
    Failed,
    /// The cursor is of another start.
    #[error("E56 OtherStart")]
    OtherStart,
    /// The cursor is of another bound.
    #[error("E57 OtherBound")]
    OtherBound,
    /// The cursor's schedule is none of those to go through.
    #[error("E58 CannotOccur")]
    CannotOccur,
    /// A write failed, or took no bytes. The explorer has failed then.
    #[error("E59 Write")]
    Write,
    /// The cursor is of other rules.
    #[error("E61 OtherRules")]
    OtherRules,
}

impl From<AllocError> for ExploreError {
    ghost from_gives = { λ _ e. e ≡ Memory };

    fn from(_: AllocError) -> Self {
        ExploreError::Memory
    }
}

impl From<TourError> for ExploreError {
    ghost from_gives = { λ failure e. e ≡ failure_of failure };

    fn from(failure: TourError) -> Self {
        match failure {
            TourError::Memory => ExploreError::Memory,
            TourError::Failed => ExploreError::Failed,
        }
    }
}
