//! Why tears are not shown.
ghost use Rattle.std.specs.Prelude.{◌≡◌};
ghost use Rattle.mc_tears.specs.declared.error.TearError.TheVariants.{Memory, Write};

use mc_output::WriteFailed;
use std::alloc::AllocError;
use thiserror::Error;

/// Why tears are not shown.
#[derive(Clone, Copy, Debug, PartialEq, Eq, Error)]
pub enum TearError {
    /// An allocation failed.
    #[error("E52 Memory")]
    Memory,
    /// A write failed, or took no bytes.
    #[error("E25 Write")]
    Write,
}

impl From<AllocError> for TearError {
    ghost from_gives = { λ _ e. e ≡ Memory };

    fn from(_: AllocError) -> Self {
        TearError::Memory
    }
}

impl From<WriteFailed> for TearError {
    ghost from_gives = { λ _ e. e ≡ Write };

    fn from(_: WriteFailed) -> Self {
        TearError::Write
    }
}
