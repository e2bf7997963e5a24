//! `dumpinfo`: the fields and entries of an image, as text.
ghost use Rattle.std.specs.Prelude.{◌≡◌, ℕ, List, ◌+◌, ◌≤◌, ◌^◌, ◌++◌, length, IfOk, IfErr, OnOk, string_bytes};
ghost use Rattle.std.specs.Io.KnownBytes.{Consumes, IsAtEnd};
ghost use Rattle.mc_image.specs.Valid.{is_good};
ghost use Rattle.mc_imgtool.specs.Engines.{Answers, Gives, RefusesAnImage};
ghost use Rattle.mc_imgtool.specs.Lines.{load_lines, size_lines, version_lines, header_lines, entry_line, entry_lines, value_text, last_lines, report, dumped};

use crate::ToolError;
use crate::input::{GREATEST_INPUT, read_bounded};
use crate::output::write_text;
use mc_image::{Area, ImageView, Tlv, Tlvs};
use std::alloc::{AllocError, Global};
use std::io::{Read, Write};

/// The lines of magic and load address. The magic is that of every image.
#[tactic(auto, unfolding(crate::specs::Lines::load_lines))]
fn load_lines(alloc: Global, image: &ImageView<'_>) -> Result<String, AllocError>
    ensures { IfOk result (λ text. string_bytes text ≡ load_lines image.now) }
{
    let load = hex::encode(alloc, image.load().to_be_bytes().as_slice())?;
    format!(in alloc; "magic 0x96f3b83d\nload 0x{load}\n")
}

/// The lines of the sizes of header, protected area and payload.
#[tactic(auto, unfolding(crate::specs::Lines::size_lines))]
fn size_lines(alloc: Global, image: &ImageView<'_>) -> Result<String, AllocError>
    ensures { IfOk result (λ text. string_bytes text ≡ size_lines image.now) }
{
    let header = image.header().len();
    let protected = image.protected().len();
    let payload = image.payload().len();
    format!(in alloc; "header-size {header}\nprotected-size {protected}\nimage-size {payload}\n")
}

/// The lines of flags, version and padding. The flags are those of every image.
#[tactic(auto, unfolding(crate::specs::Lines::version_lines))]
fn version_lines(alloc: Global, image: &ImageView<'_>) -> Result<String, AllocError>
    ensures { IfOk result (λ text. string_bytes text ≡ version_lines image.now) }
{
    let version = image.version();
    let padding = hex::encode(alloc, image.padding().to_be_bytes().as_slice())?;
    format!(in alloc; "flags 0x00000000\nversion {version}\npadding 0x{padding}\n")
}

/// A value's digits after a space, and nothing for an empty value.
fn value_text(alloc: Global, value: &[u8]) -> Result<String, AllocError>
    ensures { IfOk result (λ text. string_bytes text ≡ value_text value.now) }
{
    if value.is_empty() {
        return Ok(String::new(alloc));
    }
    let digits = hex::encode(alloc, value)?;
    format!(in alloc; " {digits}")
}

/// The line of an entry.
#[tactic(auto, unfolding(crate::specs::Lines::entry_line))]
fn entry_line(alloc: Global, tlv: &Tlv<'_>) -> Result<String, AllocError>
    ensures { IfOk result (λ text. string_bytes text
        ≡ entry_line (record {
          area = tlv.now.area;
          entry = record
              { kind = tlv.now.kind; value = tlv.now.value.now };
        })) }
{
    let area = match tlv.area {
        Area::Protected => "protected",
        Area::Plain => "plain",
    };
    let kind = hex::encode(alloc, tlv.kind.to_be_bytes().as_slice())?;
    let length = tlv.value.len();
    let value = value_text(alloc, tlv.value)?;
    format!(in alloc; "{area} 0x{kind} {length}{value}\n")
}

/// Whether the digest of an image is right.
#[tactic(auto, using(mc_image::specs::facts::Valid::good_true, mc_image::specs::facts::Valid::good_false))]
fn is_good(image: &ImageView<'_>) -> bool
    ensures { result ≡ is_good image.now }
{
    image.check().is_ok()
}

/// The last three lines, for an image that `rest` bytes follow.
#[tactic(auto, unfolding(crate::specs::Lines::last_lines))]
fn last_lines(alloc: Global, image: &ImageView<'_>, rest: usize) -> Result<String, AllocError>
    ensures { IfOk result (λ text. string_bytes text ≡ last_lines image.now rest) }
{
    let total = image.size();
    let judgement = if is_good(image) { "good" } else { "wrong" };
    format!(in alloc; "total {total}\nrest {rest}\ndigest {judgement}\n")
}

/// The lines of the header's fields.
#[tactic(auto, unfolding(crate::specs::Lines::header_lines))]
fn header_lines(alloc: Global, image: &ImageView<'_>) -> Result<String, AllocError>
    ensures { IfOk result (λ text. string_bytes text ≡ header_lines image.now) }
{
    let mut text = load_lines(alloc, image)?;
    text.push_str(size_lines(alloc, image)?.as_str())?;
    text.push_str(version_lines(alloc, image)?.as_str())?;
    Ok(text)
}

/// Appends the line of each entry.
fn push_entries(alloc: Global, text: &mut String, entries: Tlvs<'_>) -> Result<(), AllocError>
    ensures { OnOk result
        (string_bytes text.new ≡ string_bytes text.old ++ entry_lines entries.entry) }
{
    for tlv in entries {
        text.push_str(entry_line(alloc, &tlv)?.as_str())?;
    }
    Ok(())
}

/// The whole report of an image that `rest` bytes follow.
#[tactic(auto, unfolding(crate::specs::Lines::report))]
fn report_of(alloc: Global, image: &ImageView<'_>, rest: usize) -> Result<String, AllocError>
    ensures { IfOk result (λ text. string_bytes text ≡ report image.now rest) }
{
    let mut text = header_lines(alloc, image)?;
    push_entries(alloc, &mut text, image.tlvs())?;
    text.push_str(last_lines(alloc, image, rest)?.as_str())?;
    Ok(text)
}

/// The report for an input that was read whole.
fn report_for(alloc: Global, input: &[u8]) -> Result<String, ToolError>
    requires { length input.now ≤ 2 ^ 24 }
    ensures report { Gives string_bytes result (dumped input.now) }
    ensures never { IfErr result RefusesAnImage }
{
    let image = match ImageView::read(input) {
        Ok(image) => image,
        Err(error) => return Err(ToolError::Image(error)),
    };
    let rest = input.len() - image.size() as usize;
    match report_of(alloc, &image, rest) {
        Ok(report) => Ok(report),
        Err(AllocError) => Err(ToolError::Memory),
    }
}

/// Reads an image, which other bytes may follow, and writes its report: a line for each field of the header, one for
/// each entry, the protected ones first, then the image's size, how many bytes follow it, and whether its digest is
/// good (imgtool, `dumpinfo`).
/// Promised: the report; or 23, or a fault, and nothing written (`answer`).
///
/// # Errors
///
/// `Read` where a read fails; `InputTooLong` above 2^24 bytes; `Image` with the first fault, but not for a wrong
/// digest; `Memory`. Nothing is written then. `Write` where a write fails or takes no bytes: a prefix of the report is
/// out.
pub fn dumpinfo<R: Read, W: Write>(
    alloc: Global,
    input: &mut R,
    output: &mut W,
) -> Result<(), ToolError>
    ensures answer { Answers dumped (R.remaining input.old) (W.contents output.old)
        (W.contents output.new) result }
    // Whatever is known of the reader.
    ensures never { IfErr result RefusesAnImage }
    ensures end { OnOk result (IsAtEnd (R.remaining input.new)) }
    ensures taken { (bs : List ℕ) × Consumes (R.remaining input.old) (R.remaining input.new) bs
        × (length bs ≤ 2 ^ 24 + 1) }
{
    let bytes = read_bounded(alloc, input, GREATEST_INPUT)?;
    let report = report_for(alloc, bytes.as_slice())?;
    write_text(output, report.as_bytes())
}
