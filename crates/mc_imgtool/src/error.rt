//! Why a command of the image tool ended without a result.
use mc_image::ImageError;
use thiserror::Error;

/// A refusal of the image tool, with its number and name as text.
#[derive(Clone, Copy, Debug, PartialEq, Eq, Error)]
pub enum ToolError {
    /// The input is refused as an image.
    #[error(transparent)]
    Image(ImageError),
    /// The input does not begin with zeros in the header's place.
    #[error("E20 NotZeros")]
    NotZeros,
    /// The slot has no room for the image and a trailer.
    #[error("E21 SlotTooSmall")]
    SlotTooSmall,
    /// The slot is to be filled, and its size is not given.
    #[error("E22 NeedsSlotSize")]
    NeedsSlotSize,
    /// The input has more bytes than the limit.
    #[error("E23 InputTooLong")]
    InputTooLong,
    /// A read failed.
    #[error("E24 Read")]
    Read,
    /// A write failed, or took no bytes.
    #[error("E25 Write")]
    Write,
    /// An allocation failed.
    #[error("E26 Memory")]
    Memory,
}
