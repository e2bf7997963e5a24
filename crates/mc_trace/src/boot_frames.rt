//! The frames of a boot, by a walk through its cuts.
ghost use Rattle.std.specs.Prelude.{◌≡◌, ◌≢◌, ◌<◌, ◌⊎◌, [], IfErr, IfSome, IsErrOf, OnOk, false, length, map, true};
ghost use Rattle.mc_boot.specs.Outcome.{ops_of};
ghost use Rattle.mc_explore.specs.facts.Children.{IsAtChild};
ghost use Rattle.mc_explore.specs.inner.LastCuts.{boot_at};
ghost use Rattle.mc_explore.specs.inner.OneRound.{begun_of};
ghost use Rattle.mc_start.specs.Start.{begun};
ghost use Rattle.mc_trace.specs.inner.Boots.{WritesText};
ghost use Rattle.mc_trace.specs.inner.Walking.{IsFrameHere, IsReady, length_to, model_of, shown_frame};
ghost use Rattle.mc_trace.specs.inner.Torn.{AreTorn, line_at};
ghost use Rattle.mc_trace.specs.Frames.{boot_frames, text_seen, torn_row};

use crate::error::TraceError;
use crate::frame::{Frame, Look, write_frame};
use crate::slot_cells::is_target;
use mc_explore::{OneRound, Start, go_to_child};
use mc_flash::Flash;
use mc_output::{WriteFailed, write_text};
use mc_walk::{FlashTree, Walk};
use std::io::Write;

// The frame of the child at which a walk stands, of a boot of that number.
fn frame_here<F: Flash>(walk: &Walk<F, OneRound<'_>>, boot: u32, cut: Option<u32>) -> Frame
    requires stands { walk.now.stands ≡ true }
    requires below { walk.now.path ≢ [] }
    ensures frame { IsFrameHere walk.now boot cut result }
    ensures layout { walk.now.seen.geometry ≡ (begun_of walk.now).geometry }
{
    let Some(step) = walk.last_step() else {
        unreachable!();
    };
    let Some(op) = step.at.peek() else {
        unreachable!();
    };
    Frame {
        boot,
        number: step.number,
        is_cut: is_target(cut, step.number),
        op,
        outcome: walk.summary().outcome,
    }
}

// Writes the lines of torn cases, where there are some.
fn write_torn<W: Write>(lines: &[u8], writer: &mut W) -> Result<(), WriteFailed>
    ensures { WritesText result (W.contents writer.old) (W.contents writer.new)
        (torn_row lines.now) }
{
    if lines.is_empty() {
        return Ok(());
    }
    write_text(writer, b"<pre class=\"t\">")?;
    write_text(writer, lines)?;
    write_text(writer, b"</pre>\n")
}

// Writes a frame and the lines of its operation's torn cases, if it is seen.
fn write_seen<F: Flash, W: Write>(
    flash: &F,
    start: &Start,
    look: &Look,
    frame: &Frame,
    lines: &[u8],
    writer: &mut W,
) -> Result<(), WriteFailed>
    requires { (F.seen flash.now).geometry ≡ start.now.geometry }
    ensures { WritesText result (W.contents writer.old) (W.contents writer.new)
        (text_seen look.now start.now.geometry start.now.content (F.seen flash.now).content
        (shown_frame frame.now) lines.now) }
{
    if !look.span.has(frame.number) {
        return Ok(());
    }
    write_frame(flash, start, look, frame, writer)?;
    write_torn(lines, writer)
}

// The lines of the operation of that number.
fn line_at(lines: &[Vec<u8>], number: u32) -> &[u8]
    ensures { result.now ≡ line_at (map (λ text. text.items) lines.now) number }
{
    match lines.get(number as usize) {
        Some(text) => text.as_slice(),
        None => &[],
    }
}

// Up to which operation of a boot there are frames: the one before which it is cut, that one too, or all.
fn frames_to(cut: Option<u32>, count: u32) -> u32
    requires { IfSome cut (λ n. n < count) }
    ensures { result ≡ length_to cut count }
{
    match cut {
        Some(cut) => cut + 1,
        None => count,
    }
}

/// Writes the frames of the boot from the node at which a walk stands, up to a cut, each with the lines of its torn cases, and goes to the
/// child at that cut.
///
/// # Errors
///
/// `Memory` where the flash was refused memory, which one that counts never is; `Write`. A prefix of the frames is out.
pub fn write_boot_frames<F: Flash, W: Write>(
    walk: &mut Walk<F, OneRound<'_>>,
    boot: u32,
    cut: Option<u32>,
    lines: &[Vec<u8>],
    start: &Start,
    look: &Look,
    writer: &mut W,
) -> Result<(), TraceError>
    requires ready { IsReady (begun start.now) 1 walk.old }
    requires inside { IfSome cut (λ n. n < length (ops_of (boot_at (begun start.now)
        walk.old.path))) }
    requires torn { AreTorn look.now.torn look.now.expectation (boot_at (begun start.now)
        walk.old.path) (map (λ text. text.items) lines.now) }
    ensures written { WritesText result (W.contents writer.old) (W.contents writer.new)
        (boot_frames look.now start.now.content boot (boot_at (begun start.now) walk.old.path)
        cut) }
    ensures goes { OnOk result (IfSome cut (λ n. IsAtChild model_of walk.old n
        walk.new)) }
    ensures cause { IsErrOf result TraceError.Memory → walk.old.seen.usage.limits.counted ≡ false }
    ensures err { IfErr result (λ e. (e ≡ TraceError.Memory) ⊎ (e ≡ TraceError.Write)) }
{
    let count = walk.flash_tree().width(walk.summary());
    let to = frames_to(cut, count);
    for number in 0..to {
        go_to_child(walk, number)?;
        let frame = frame_here(walk, boot, cut);
        write_seen(
            walk.flash(),
            start,
            look,
            &frame,
            line_at(lines, number),
            writer,
        )?;
    }
    Ok(())
}
