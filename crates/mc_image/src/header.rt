//! The header's fields and their faults.
ghost use Rattle.std.specs.Prelude.{◌≡◌, ◌+◌, ◌≤◌, ◌<◌, ◌^◌, length, MatchResult, None, Some};
ghost use Rattle.mc_image.specs.Image.{u16_at, version_in};
ghost use Rattle.mc_image.specs.Valid.{header_fault};
ghost use Rattle.mc_image.specs.inner.Reading.{IsHeader};

use crate::numbers::{u16_at, u32_at};
use crate::{ImageError, Version};

/// What a header begins with.
pub(crate) const MAGIC: u32 = 0x96f3_b83d;

/// The length of the header's fields, in bytes.
pub(crate) const FIELDS: usize = 32;

/// The sizes and the version in a header.
#[derive(Clone, Copy)]
pub(crate) struct Header {
    /// The header's length in bytes.
    pub(crate) size: u16,
    /// The protected area's length in bytes, 0 where there is none.
    pub(crate) protected: u16,
    /// The payload's length in bytes.
    pub(crate) payload: u32,
    pub(crate) version: Version,
}

/// The faults of the fields.
#[tactic(auto, unfolding(crate::specs::Valid::header_fault))]
fn judge_fields(bytes: &[u8]) -> Result<(), ImageError>
    ensures { MatchResult result
        (λ _. (header_fault bytes.now ≡ None) × (32 ≤ length bytes.now) × (32 ≤ u16_at 8 bytes.now))
        (λ e. header_fault bytes.now ≡ Some e) }
{
    if bytes.len() < FIELDS {
        return Err(ImageError::Truncated);
    }
    if u32_at(bytes, 0) != MAGIC {
        return Err(ImageError::BadMagic);
    }
    if u16_at(bytes, 8) < 32 {
        return Err(ImageError::BadHeaderSize);
    }
    if u32_at(bytes, 16) != 0 {
        return Err(ImageError::UnsupportedFlags);
    }
    Ok(())
}

/// The version in a header.
#[tactic(auto, unfolding(crate::specs::Image::version_in))]
pub(crate) fn version_in(header: &[u8]) -> Version
    requires { 32 ≤ length header.now }
    ensures { result ≡ version_in header.now }
{
    Version {
        major: header[20],
        minor: header[21],
        revision: u16_at(header, 22),
        build: u32_at(header, 24),
    }
}

impl Header {
    /// The header that the bytes begin with, or the first of its faults.
    pub(crate) fn read(bytes: &[u8]) -> Result<Header, ImageError>
        ensures { MatchResult result
            (λ h. (header_fault bytes.now ≡ None) × (32 ≤ length bytes.now) × (32 ≤ h.size)
            × IsHeader h bytes.now)
            (λ e. header_fault bytes.now ≡ Some e) }
    {
        judge_fields(bytes)?;
        Ok(Header {
            size: u16_at(bytes, 8),
            protected: u16_at(bytes, 10),
            payload: u32_at(bytes, 12),
            version: version_in(bytes),
        })
    }

    /// The length of header and payload.
    pub(crate) fn payload_end(&self) -> u64
        ensures { result ≡ self.now.size + self.now.payload }
    {
        self.size as u64 + self.payload as u64
    }

    /// The length of header, payload and protected area.
    pub(crate) fn body_len(&self) -> u64
        ensures sum { result ≡ self.now.size + self.now.payload + self.now.protected }
        ensures small { result < 2 ^ 33 }
    {
        self.payload_end() + self.protected as u64
    }
}
