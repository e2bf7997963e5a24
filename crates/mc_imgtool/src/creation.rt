//! `create`: an image from a payload.
ghost use Rattle.std.specs.Prelude.{◌≡◌, ◌↔◌, ℕ, List, ◌+◌, ◌≤◌, ◌^◌, ◌||◌, length, MatchOption, IfSome, OnOk, IfOk, IsErrOf, Some, true, false, ◌==◌, vec_len};
ghost use Rattle.std.specs.List.{list_all};
ghost use Rattle.std.specs.Io.KnownBytes.{Consumes, IsAtEnd};
ghost use Rattle.mc_image.specs.declared.error.ImageError.{ImageError};
ghost use Rattle.mc_image.specs.Image.{image_text};
ghost use Rattle.mc_image.specs.Writing.{views, area_of, with_digest};
ghost use Rattle.mc_image.specs.Valid.{IsValid};
ghost use Rattle.mc_imgtool.specs.Engines.{Answers, Gives};
ghost use Rattle.mc_imgtool.specs.Created.{created, fills_slot, needs_slot_size, lacks_zeros, payload_in, counter_area, bare_image, is_too_small, filled_slot, slotted};

use crate::ToolError;
use crate::input::{GREATEST_INPUT, read_bounded};
use crate::output::write_text;
use byteorder::{ByteOrder, LittleEndian};
use mc_image::{ImageError, ImageParts, Version, write_image};
use std::alloc::{AllocError, Global};
use std::io::{Read, Write};

/// The type of the security counter's entry.
const SECURITY_COUNTER: u16 = 0x50;

/// What an erased byte of flash holds.
const ERASED: u8 = 0xff;

/// The value of a flag that is set.
const SET: u8 = 0x01;

/// The length of what ends a slot: a flag in a unit of 8 bytes, and the magic.
const SLOT_END: usize = 24;

/// What ends a slot that asks for a swap.
const TRAILER_MAGIC: [u8; 16] = [
    0x77, 0xc2, 0x95, 0xf3, 0x60, 0xd2, 0xef, 0x7f, 0x35, 0x52, 0x50, 0x0f, 0x2c, 0xb6, 0x79, 0x80,
];

/// What `create` is given (imgtool, `create`).
#[derive(Clone, Copy, Debug)]
pub struct CreateOptions {
    /// The image's version.
    pub version: Version,
    /// The header's length in bytes, at least 32.
    pub header_size: u16,
    /// Whether the input is the payload alone; otherwise it begins with zeros in the header's place.
    pub pad_header: bool,
    /// The length of the slot in bytes. An image that leaves no room for a trailer in it is refused.
    pub slot_size: Option<u32>,
    /// The flash's write unit in bytes: 1, 2, 4 or 8.
    pub align: u8,
    /// The largest number of sectors of a slot.
    pub max_sectors: u32,
    /// Whether the slot is filled up after the image and ends with the trailer's magic.
    pub pad: bool,
    /// Whether the slot is also marked as confirmed. It implies `pad`.
    pub confirm: bool,
    /// The security counter, as the one entry of a protected area.
    pub security_counter: Option<u32>,
}

impl CreateOptions {
    /// Whether the slot is to be filled.
    fn fills_slot(&self) -> bool
        ensures { result ≡ fills_slot self.now }
    {
        self.pad || self.confirm
    }

    /// Whether the slot is to be filled, and its size is not given.
    fn needs_slot_size(&self) -> bool
        ensures { result ≡ needs_slot_size self.now }
    {
        self.fills_slot() && self.slot_size.is_none()
    }

    /// Whether a slot has no room for an image of this size and a trailer.
    fn is_too_small(&self, slot: u32, size: usize) -> bool
        ensures { result ≡ is_too_small self.now size (Some slot) }
    {
        let trailer = 3 * u64::from(self.max_sectors) * u64::from(self.align) + 48;
        let slot = u64::from(slot);
        slot < trailer || slot - trailer < size as u64
    }

    /// How many bytes are made at once, as far as the options say.
    fn room(&self) -> usize {
        if self.fills_slot() {
            self.slot_size.unwrap_or(0) as usize
        } else {
            0
        }
    }
}

/// Whether each byte is zero.
fn are_zeros(bytes: &[u8]) -> bool
    ensures { result ≡ list_all (λ b. b == 0) bytes.now }
{
    bytes.iter().all(|byte| *byte == 0)
}

/// What is taken of an input as the payload.
#[tactic(auto, unfolding(crate::specs::Created::lacks_zeros, crate::specs::Created::payload_in))]
fn payload_in<'a>(options: &CreateOptions, input: &'a [u8]) -> Option<&'a [u8]>
    ensures { MatchOption result (lacks_zeros options.now input.entry.now ≡ true)
        (λ payload. (lacks_zeros options.now input.entry.now ≡ false)
        × (payload.now ≡ payload_in options.now input.entry.now)) }
{
    if options.pad_header {
        return Some(input);
    }
    let header = options.header_size as usize;
    if input.len() < header || !are_zeros(&input[..header]) {
        return None;
    }
    Some(&input[header..])
}

/// The image of a payload with some entries in its protected area.
fn image_with(
    alloc: Global,
    options: &CreateOptions,
    payload: &[u8],
    protected: &[(u16, &[u8])],
) -> Result<Vec<u8>, AllocError>
    requires size { 32 ≤ options.now.header_size }
    requires fits { length payload.now ≤ 2 ^ 24 }
    requires area { area_of (views protected.now) ≡ counter_area options.now.security_counter }
    ensures made { IfOk result
        (λ v. v.items ≡ image_text (with_digest (bare_image options.now payload.now))) }
    ensures valid { IfOk result (λ v. IsValid v.items) }
{
    let rest = vec![in alloc; 0u8; (options.header_size - 32) as usize]?;
    let parts = ImageParts {
        load: 0,
        version: options.version,
        padding: 0,
        header_rest: rest.as_slice(),
        payload,
        protected,
        plain: &[],
    };
    let mut image = Vec::with_capacity(alloc, options.room())?;
    match write_image(&parts, &mut image) {
        Ok(()) => Ok(image),
        Err(ImageError::Memory) => Err(AllocError),
        // The lengths fit, and there is no other digest.
        Err(_) => unreachable!(),
    }
}

/// The image of a payload.
fn image_of(alloc: Global, options: &CreateOptions, payload: &[u8]) -> Result<Vec<u8>, AllocError>
    requires size { 32 ≤ options.now.header_size }
    requires fits { length payload.now ≤ 2 ^ 24 }
    ensures made { IfOk result
        (λ v. v.items ≡ image_text (with_digest (bare_image options.now payload.now))) }
    ensures valid { IfOk result (λ v. IsValid v.items) }
{
    let Some(counter) = options.security_counter else {
        return image_with(alloc, options, payload, &[]);
    };
    let mut value = [0u8; 4];
    LittleEndian::write_u32(&mut value, counter);
    image_with(
        alloc,
        options,
        payload,
        &[(SECURITY_COUNTER, value.as_slice())],
    )
}

/// Fills a slot up after its image.
fn fill_slot(image: &mut Vec<u8>, slot: usize, confirm: bool) -> Result<(), AllocError>
    requires { vec_len image.old + 24 ≤ slot }
    ensures { OnOk result (image.new.items ≡ filled_slot slot confirm image.old.items) }
{
    image.reserve(slot - image.len())?;
    image.resize(slot - SLOT_END, ERASED)?;
    image.push(if confirm { SET } else { ERASED })?;
    image.extend_from_slice(&[ERASED; 7])?;
    image.extend_from_slice(&TRAILER_MAGIC)
}

/// The image where its slot has room for it, and in its slot where that is to be filled.
#[tactic(auto, unfolding(crate::specs::Created::slotted))]
fn slotted(options: &CreateOptions, image: Vec<u8>) -> Result<Vec<u8>, ToolError>
    ensures { Gives (λ v. v.items) result (slotted options.now image.items) }
{
    let Some(slot) = options.slot_size else {
        return Ok(image);
    };
    if options.is_too_small(slot, image.len()) {
        return Err(ToolError::SlotTooSmall);
    }
    if !options.fills_slot() {
        return Ok(image);
    }
    let mut filled = image;
    match fill_slot(&mut filled, slot as usize, options.confirm) {
        Ok(()) => Ok(filled),
        Err(AllocError) => Err(ToolError::Memory),
    }
}

/// What is written for an input that was read whole.
fn bytes_for(alloc: Global, options: &CreateOptions, input: &[u8]) -> Result<Vec<u8>, ToolError>
    requires size { 32 ≤ options.now.header_size }
    requires given { needs_slot_size options.now ≡ false }
    requires fits { length input.now ≤ 2 ^ 24 }
    ensures made { Gives (λ v. v.items) result (created options.now input.now) }
    ensures valid { IfOk result (λ v. IsValid v.items) }
{
    let Some(payload) = payload_in(options, input) else {
        return Err(ToolError::NotZeros);
    };
    match image_of(alloc, options, payload) {
        Ok(image) => slotted(options, image),
        Err(AllocError) => Err(ToolError::Memory),
    }
}

/// Reads a payload and writes its image: flags, load address and padding 0, the header filled up with zeros, a
/// protected area where there is a security counter, the digest as the only plain entry, and the slot filled up after
/// it where `pad` or `confirm` asks for it (imgtool, `create`).
/// Promised: the created bytes, a valid image, or a refusal and nothing written (`answer`, `valid`, `never`).
/// Promised: 22 exactly where a slot to fill has no size; nothing is read (`slot`, `unread`).
/// Promised, also of `verify` and `dumpinfo`: at 25 a prefix is out (`Answers`).
///
/// # Errors
///
/// `NeedsSlotSize` where the slot is to be filled and its size is not given: nothing is read; `Read` where a read
/// fails; `InputTooLong` above 2^24 bytes; `NotZeros` where the input does not begin with zeros in the header's place,
/// and `pad_header` is not set; `SlotTooSmall` where the slot has no room for the image and a trailer; `Memory`.
/// Nothing is written then. `Write` where a write fails or takes no bytes: a prefix of the bytes is out. Never `Image`.
pub fn create<R: Read, W: Write>(
    alloc: Global,
    options: &CreateOptions,
    input: &mut R,
    output: &mut W,
) -> Result<(), ToolError>
    requires { 32 ≤ options.now.header_size }
    ensures answer { Answers (created options.now) (R.remaining input.old) (W.contents output.old)
        (W.contents output.new) result }
    // What is written begins with a valid image.
    ensures valid { OnOk result
        (IfSome (R.remaining input.old) (λ xs. IfOk (created options.now xs) IsValid)) }
    ensures never { (e : ImageError) → result ≡ Err (ToolError.Image e) → ⊥ }
    ensures slot { IsErrOf result ToolError.NeedsSlotSize ↔ (needs_slot_size options.now ≡ true) }
    ensures unread { IsErrOf result ToolError.NeedsSlotSize → (input.new ≡ input.old)
        × (output.new ≡ output.old) }
    ensures end { OnOk result (IsAtEnd (R.remaining input.new)) }
    ensures taken { (bs : List ℕ) × Consumes (R.remaining input.old) (R.remaining input.new) bs
        × (length bs ≤ 2 ^ 24 + 1) }
{
    if options.needs_slot_size() {
        return Err(ToolError::NeedsSlotSize);
    }
    let bytes = read_bounded(alloc, input, GREATEST_INPUT)?;
    let image = bytes_for(alloc, options, bytes.as_slice())?;
    write_text(output, image.as_slice())
}
