//! A flash explained: what it comes to, its trailers, what the slots hold, what lies in each sector, and what the boot from there does.
ghost use Rattle.std.specs.Prelude.{◌≡◌, ◌+◌, ◌≤◌, ◌^◌, ◌++◌, ◌⊎◌, length, IfErr, IfOk, IfSome, IsErrOf, OnOk, Some, option_map, string_bytes};
ghost use Rattle.std.specs.Io.KnownBytes.{Appends, Keeps};
ghost use Rattle.mc_boot.specs.Outcome.{outcome_of, shown};
ghost use Rattle.mc_flash.specs.Flash.{CanTry, size_of};
ghost use Rattle.mc_output.specs.Text.{AppendsPrefix};
ghost use Rattle.mc_start.specs.Start.{begun};
ghost use Rattle.mc_trace.specs.Hints.{hints_text};
ghost use Rattle.mc_trace.specs.Inspection.{asked_text, boot_text, both_text, bytes_text, fault_text, first_text, head_text, held_text, image_text, inspection_text, none_text, both_slots_text, state_text, trailers_text};
ghost use Rattle.mc_image.specs.Valid.{id_of, image_fault};

use crate::error::TraceError;
use crate::hints::push_hints;
use crate::operation::put_operation;
use crate::slot_words::push_sectors;
use crate::verdict::verdict_line;
use mc_boot::{Boot, Outcome, image_in};
use mc_explore::{Schedule, Start, replay};
use mc_flash::{Flash, Layout, Op, Slot, blank};
use mc_image::{ImageError, ImageView};
use mc_output::{Line, MOST_LINE, write_text};
use mc_trailer::{Flag, Magic, Profile, Trailer, resumes_by, swap_type};
use std::alloc::{AllocError, Global};
use std::io::Write;

// Adds both trailers: at most 200 bytes.
#[tactic(auto, unfolding(crate::specs::Inspection::both_text))]
fn put_both(line: &mut Line, primary: &Trailer, secondary: &Trailer)
    requires { length line.old + 200 ≤ MOST_LINE }
    ensures text { line.new ≡ line.old ++ both_text primary.now secondary.now }
    ensures length { length line.new ≤ length line.old + 200 }
{
    line.put("trailer primary ");
    primary.put_into(line);
    line.put("\ntrailer secondary ");
    secondary.put_into(line);
}

// Adds what they ask for: at most 30 bytes.
#[tactic(auto, unfolding(crate::specs::Inspection::asked_text))]
fn put_asked(line: &mut Line, profile: Profile, primary: &Trailer, secondary: &Trailer)
    requires { length line.old + 30 ≤ MOST_LINE }
    ensures text { line.new ≡ line.old ++ asked_text profile primary.now secondary.now }
    ensures length { length line.new ≤ length line.old + 30 }
{
    line.put("\nresume ");
    line.put(if resumes_by(profile, primary, secondary) {
        "yes"
    } else {
        "no"
    });
    line.put("\ntable ");
    line.put(swap_type(profile, primary, secondary).name());
    line.put("\n");
}

// The line that says whether a swap is under way, and whether the next boot goes on with it.
fn state_line(profile: Profile, primary: &Trailer, secondary: &Trailer) -> &'static str
    ensures text { result.now ≡ state_text profile primary.now secondary.now }
    ensures length { length result.now ≤ 14 }
{
    let is_swap = matches!(primary.magic, Magic::Good)
        && matches!(primary.copy_done, Flag::Unset)
        && matches!(primary.swap_info, 2 | 3 | 4);
    if !is_swap {
        "state rest\n"
    } else if resumes_by(profile, primary, secondary) {
        "state resumes\n"
    } else {
        "state busy\n"
    }
}

// Both trailers, what they ask for, and whether a swap is under way.
#[tactic(auto, unfolding(crate::specs::Inspection::trailers_text))]
fn trailers_line<F: Flash>(flash: &F, profile: Profile) -> Line
    ensures { result
        ≡ trailers_text profile (F.seen flash.now).geometry (F.seen flash.now).content }
{
    let primary = Trailer::read(flash, Slot::Primary);
    let secondary = Trailer::read(flash, Slot::Secondary);
    let mut line = Line::new();
    put_both(&mut line, &primary, &secondary);
    put_asked(&mut line, profile, &primary, &secondary);
    line.put(state_line(profile, &primary, &secondary));
    line
}

// The number and the name of a fault.
fn fault_name(fault: ImageError) -> &'static str
    ensures text { result.now ≡ fault_text fault }
    ensures length { length result.now ≤ 19 }
{
    match fault {
        ImageError::Truncated => "E1 Truncated",
        ImageError::BadMagic => "E2 BadMagic",
        ImageError::BadHeaderSize => "E3 BadHeaderSize",
        ImageError::UnsupportedFlags => "E4 UnsupportedFlags",
        ImageError::TruncatedBody => "E5 TruncatedBody",
        ImageError::BadProtected => "E6 BadProtected",
        ImageError::BadTlvMagic => "E7 BadTlvMagic",
        ImageError::BadTlvLength => "E8 BadTlvLength",
        ImageError::NoDigest => "E9 NoDigest",
        ImageError::ManyDigests => "E10 ManyDigests",
        ImageError::DigestLength => "E11 DigestLength",
        ImageError::WrongDigest => "E12 WrongDigest",
        ImageError::TooLarge => "E13 TooLarge",
        ImageError::Memory => "E14 Memory",
    }
}

// Adds why bytes are no valid image: at most 24 bytes.
fn put_none(line: &mut Line, bytes: &[u8])
    requires room { length line.old + 24 ≤ MOST_LINE }
    requires size { length bytes.now ≤ 2 ^ 24 }
    ensures text { line.new ≡ line.old ++ none_text (image_fault bytes.now) }
    ensures length { length line.new ≤ length line.old + 24 }
{
    line.put("none");
    if let Err(fault) = ImageView::read_valid(bytes) {
        line.put(" ");
        line.put(fault_name(fault));
    }
}

// Adds what a slot with these bytes holds: at most 119 bytes.
fn put_held(line: &mut Line, bytes: &[u8])
    requires room { length line.old + 119 ≤ MOST_LINE }
    requires size { length bytes.now ≤ 2 ^ 24 }
    ensures text { line.new ≡ line.old ++ held_text (id_of bytes.now) (image_fault bytes.now) }
    ensures length { length line.new ≤ length line.old + 119 }
{
    match image_in(bytes, &[]) {
        Some(image) => image.put_into(line),
        None => put_none(line, bytes),
    }
}

// Adds what a slot with these bytes holds, or that it is blank: at most 119 bytes.
fn put_bytes(line: &mut Line, bytes: &[u8])
    requires room { length line.old + 119 ≤ MOST_LINE }
    requires size { length bytes.now ≤ 2 ^ 24 }
    ensures text { line.new ≡ line.old ++ bytes_text bytes.now }
    ensures length { length line.new ≤ length line.old + 119 }
{
    if blank(bytes) {
        line.put("blank");
    } else {
        put_held(line, bytes);
    }
}

// What a slot with these bytes holds.
#[tactic(auto, unfolding(crate::specs::Inspection::image_text))]
fn image_line(layout: &Layout, slot: Slot, bytes: &[u8]) -> Line
    requires { length bytes.now ≡ size_of layout.now slot }
    ensures { result ≡ image_text slot bytes.now }
{
    // It gives the prover how many bytes a slot has at most.
    let _size = layout.size(slot);
    let mut line = Line::new();
    line.put("image ");
    line.put(slot.name());
    line.put(" ");
    put_bytes(&mut line, bytes);
    line.put("\n");
    line
}

// The first operation of a boot, or none.
fn first_line(layout: &Layout, op: Option<Op>) -> Line
    ensures { result ≡ first_text layout.now op }
{
    let mut line = Line::new();
    line.put("first ");
    match op {
        Some(op) => put_operation(&mut line, layout, op),
        None => line.put("none"),
    }
    line.put("\n");
    line
}

// A flash of a start, with room for one boot.
fn load_flash<F: Flash>(alloc: Global, start: &Start) -> Result<F, TraceError>
    ensures flash { IfOk result (λ flash. ((F.seen flash).geometry ≡ start.now.geometry)
        × ((F.seen flash).content ≡ start.now.content)) }
    ensures err { IfErr result (λ e. e ≡ TraceError.Memory) }
{
    Ok(F::load(
        alloc,
        start.layout(),
        start.rules().grain,
        start.primary(),
        start.secondary(),
        1,
    )?)
}

// The outcome of the boot from a flash.
fn outcome_from<F: Flash>(alloc: Global, start: &Start) -> Result<Outcome, TraceError>
    ensures outcome { IfOk result (λ o. outcome_of (begun start.now) ≡ Some (shown o)) }
    ensures err { IfErr result (λ e. e ≡ TraceError.Memory) }
{
    match replay::<F>(alloc, start, &Schedule::new()) {
        Ok((outcome, _)) => Ok(outcome),
        Err(_) => Err(TraceError::Memory),
    }
}

// Appends the verdict, both trailers, and the hints.
fn push_head<F: Flash>(
    alloc: Global,
    text: &mut String,
    start: &Start,
    outcome: &Outcome,
) -> Result<(), TraceError>
    requires { outcome_of (begun start.now) ≡ Some (shown outcome.now) }
    ensures text { OnOk result (string_bytes text.new ≡ string_bytes text.old
        ++ head_text (begun start.now) (hints_text start.now.geometry start.now.content.primary
        start.now.content.secondary)) }
    ensures err { IfErr result (λ e. e ≡ TraceError.Memory) }
{
    let (primary, secondary) = (start.primary(), start.secondary());
    let flash = load_flash::<F>(alloc, start)?;
    let mut hints = String::new(alloc);
    push_hints(&mut hints, start.layout(), primary, secondary)?;
    let image = image_in(primary, &[]);
    let verdict = verdict_line(start.layout(), hints.as_str(), &image, outcome);
    text.push_str(verdict.as_str())?;
    text.push_str(trailers_line(&flash, start.rules().profile).as_str())?;
    text.push_str(hints.as_str())?;
    Ok(())
}

// Appends what the slots hold, and what lies in their sectors.
fn push_slots(text: &mut String, start: &Start, named: Option<&Start>) -> Result<(), AllocError>
    requires { IfSome named (λ other. other.now.geometry ≡ start.now.geometry) }
    ensures { OnOk result (string_bytes text.new ≡ string_bytes text.old ++ both_slots_text
        start.now.geometry (option_map (λ other. other.now.content) named.entry)
        start.now.content) }
{
    let (primary, secondary) = (start.primary(), start.secondary());
    let layout = start.layout();
    text.push_str(image_line(layout, Slot::Primary, primary).as_str())?;
    text.push_str(image_line(layout, Slot::Secondary, secondary).as_str())?;
    push_sectors(text, layout, named, Slot::Primary, primary)?;
    push_sectors(text, layout, named, Slot::Secondary, secondary)?;
    Ok(())
}

// Appends the first operation of the boot from a flash, and its outcome.
#[tactic(auto, unfolding(crate::specs::Inspection::boot_text))]
fn push_boot<F: Flash>(
    alloc: Global,
    text: &mut String,
    start: &Start,
    outcome: &Outcome,
) -> Result<(), TraceError>
    requires { outcome_of (begun start.now) ≡ Some (shown outcome.now) }
    ensures text { OnOk result (string_bytes text.new ≡ string_bytes text.old
        ++ boot_text (begun start.now)) }
    ensures err { IfErr result (λ e. e ≡ TraceError.Memory) }
{
    let flash = load_flash::<F>(alloc, start)?;
    let boot = Boot::cold(&flash, start.rules());
    text.push_str(first_line(start.layout(), boot.peek()).as_str())?;
    let mut line = Line::new();
    outcome.put_into(&mut line);
    text.push_str(line.as_str())?;
    Ok(())
}

// The explanation of the flash of a start.
fn inspection_of<F: Flash>(
    alloc: Global,
    start: &Start,
    named: Option<&Start>,
) -> Result<String, TraceError>
    requires { IfSome named (λ other. other.now.geometry ≡ start.now.geometry) }
    ensures text { IfOk result (λ text. string_bytes text ≡ inspection_text (begun start.now)
        (option_map (λ other. other.now.content) named.entry)) }
    ensures err { IfErr result (λ e. e ≡ TraceError.Memory) }
{
    let outcome = outcome_from::<F>(alloc, start)?;
    let mut text = String::new(alloc);
    push_head::<F>(alloc, &mut text, start, &outcome)?;
    push_slots(&mut text, start, named)?;
    push_boot::<F>(alloc, &mut text, start, &outcome)?;
    Ok(text)
}

/// Explains the flash of a start, a line each: what it comes to at one look; both trailers, whether a boot would go on with a swap that was cut,
/// the type that the swap tables give, and whether a swap is under way with which the next boot goes on, or none; hints where the layout or the dump does not fit; the valid image of each slot, or that it is
/// blank, or why it holds none; what lies in each sector of a slot, by what lies in those of a named flash of the same layout, those that go on
/// with one another as one, or where there is none by what is blank and what is the trailer's; the first operation of the boot from there, as a
/// trace has it; and its outcome. The text is made in memory.
/// Promised: a dump explained (`whole`, `prefix`, `none`, `err`).
///
/// # Errors
///
/// `Memory`: nothing is written then. `Write`, where a write fails or takes no bytes: a beginning of the text is out.
pub fn write_inspection<F: Flash, W: Write>(
    alloc: Global,
    start: &Start,
    named: Option<&Start>,
    writer: &mut W,
) -> Result<(), TraceError>
    requires { IfSome named (λ other. other.now.geometry ≡ start.now.geometry) }
    ensures whole { OnOk result (Appends (W.contents writer.old) (W.contents writer.new)
        (inspection_text (begun start.now) (option_map (λ other. other.now.content) named.entry))) }
    ensures prefix { IsErrOf result TraceError.Write → AppendsPrefix (W.contents writer.old)
        (W.contents writer.new) (inspection_text (begun start.now)
        (option_map (λ other. other.now.content) named.entry)) }
    ensures none { IsErrOf result TraceError.Memory → writer.new ≡ writer.old }
    ensures err { IfErr result (λ e. (e ≡ TraceError.Memory) ⊎ (e ≡ TraceError.Write)) }
{
    let text = inspection_of::<F>(alloc, start, named)?;
    match write_text(writer, text.as_bytes()) {
        Ok(()) => Ok(()),
        Err(_) => Err(TraceError::Write),
    }
}
