//! The texts of refusals.
use crate::common::same;
use mc_flash::{FlashError, LayoutError};
use mc_image::ImageError;
use mc_imgtool::ToolError;
use std::alloc::Global;
use std::fmt::Display;
use std::process::Abort;

/// The refusals, in their order.
static IMAGE_ERRORS: [ImageError; 14] = [
    ImageError::Truncated,
    ImageError::BadMagic,
    ImageError::BadHeaderSize,
    ImageError::UnsupportedFlags,
    ImageError::TruncatedBody,
    ImageError::BadProtected,
    ImageError::BadTlvMagic,
    ImageError::BadTlvLength,
    ImageError::NoDigest,
    ImageError::ManyDigests,
    ImageError::DigestLength,
    ImageError::WrongDigest,
    ImageError::TooLarge,
    ImageError::Memory,
];

/// Their texts.
static IMAGE_TEXTS: &str = "\
E1 Truncated
E2 BadMagic
E3 BadHeaderSize
E4 UnsupportedFlags
E5 TruncatedBody
E6 BadProtected
E7 BadTlvMagic
E8 BadTlvLength
E9 NoDigest
E10 ManyDigests
E11 DigestLength
E12 WrongDigest
E13 TooLarge
E14 Memory
";

/// A refusal of an image, and the tool's own.
static TOOL_ERRORS: [ToolError; 8] = [
    ToolError::Image(ImageError::WrongDigest),
    ToolError::NotZeros,
    ToolError::SlotTooSmall,
    ToolError::NeedsSlotSize,
    ToolError::InputTooLong,
    ToolError::Read,
    ToolError::Write,
    ToolError::Memory,
];

/// Their texts.
static TOOL_TEXTS: &str = "\
E12 WrongDigest
E20 NotZeros
E21 SlotTooSmall
E22 NeedsSlotSize
E23 InputTooLong
E24 Read
E25 Write
E26 Memory
";

static LAYOUT_ERRORS: [LayoutError; 5] = [
    LayoutError::Unit,
    LayoutError::Sector,
    LayoutError::Chunk,
    LayoutError::Counts,
    LayoutError::NoRoom,
];

static LAYOUT_TEXTS: &str = "E30 Unit\nE31 Sector\nE32 Chunk\nE33 Counts\nE34 NoRoom\n";

static FLASH_ERRORS: [FlashError; 2] = [FlashError::NotErased, FlashError::Memory];

static FLASH_TEXTS: &str = "E40 NotErased\nE41 Memory\n";

/// Some values have these texts, a line each.
fn have_texts<T: Display>(rt: &impl Abort, alloc: Global, values: &[T], wanted: &str) {
    let mut texts = String::new(alloc);
    for value in values {
        let line = format!(in alloc; "{value}\n").expect(rt, "memory");
        texts.push_str(line.as_str()).expect(rt, "memory");
    }
    same(rt, &texts.as_str(), &wanted);
}

#[test]
fn refusals_have_their_texts(rt: HostRuntime) {
    have_texts(&rt, rt.alloc(), &IMAGE_ERRORS, IMAGE_TEXTS);
    have_texts(&rt, rt.alloc(), &TOOL_ERRORS, TOOL_TEXTS);
    have_texts(&rt, rt.alloc(), &LAYOUT_ERRORS, LAYOUT_TEXTS);
    have_texts(&rt, rt.alloc(), &FLASH_ERRORS, FLASH_TEXTS);
}
