//! The cases of all operations of a boot.
ghost use Rattle.std.specs.Prelude.{◌≡◌, ◌+◌, ◌<◌, Some, slice_get, true, false, length, sum_by, IfOk, IsErrOf, OnErr, OnOk};
ghost use Rattle.std.specs.Io.KnownBytes.{Appends};
ghost use Rattle.std.specs.Vec.{vec_capacity};
ghost use Rattle.mc_boot.specs.Outcome.{ops_of};
ghost use Rattle.mc_boot.specs.Plan.{again};
ghost use Rattle.mc_explore.specs.Boots.{at_cut};
ghost use Rattle.mc_explore.specs.inner.OneRound.{begins};
ghost use Rattle.mc_output.specs.Text.{AppendsPrefix};
ghost use Rattle.mc_start.specs.Start.{begun};
ghost use Rattle.mc_tear.specs.inner.Room.{Applies};
ghost use Rattle.mc_tears.specs.Ends.{shown_end};
ghost use Rattle.mc_tears.specs.Tears.{all_right, counts_text, cut_end, lines_text, number_count, number_right, number_text, numbers, tears_text};
ghost use Rattle.mc_tears.specs.declared.error.TearError.TheVariants as errors;
ghost use Rattle.mc_tears.specs.inner.Standing.{CanMark, GoesOn, HoldsSlot, IsHere, IsWhole, LeavesBytes, Returns, Stands, WritesText};

use crate::cases::{Asked, Between, count_cases, write_cases};
use crate::end::{End, Whole, run_and_return};
use crate::error::TearError;
use crate::loading::{Loaded, load};
use mc_boot::Boot;
use mc_explore::{OneRound, Start};
use mc_flash::{Flash, Op, Slot};
use mc_output::{Line, write_line};
use mc_tear::Erasing;
use std::alloc::{AllocError, Global};
use std::io::Write;

/// The next operation of a boot that has not made all.
pub(crate) fn next_op<F: Flash>(rounds: &OneRound<'_>, flash: &F, at: &Boot) -> Op
    requires stands { Stands (begins rounds.now) at.now (F.seen flash.now) }
    requires early { at.now.done < length (ops_of (begins rounds.now)) }
    ensures next { slice_get (ops_of (begins rounds.now)) at.now.done ≡ Some result }
    ensures applies { Applies result (F.seen flash.now) }
{
    // Reading the slots gives the prover their sizes.
    let _primary = flash.read(Slot::Primary);
    let _secondary = flash.read(Slot::Secondary);
    let Some(op) = at.peek() else {
        unreachable!();
    };
    op
}

// How many cases the operations of a boot have. The flash stays as it is.
fn count_all<F: Flash>(
    rounds: &OneRound<'_>,
    flash: &mut F,
    whole: &Whole,
    erasing: Erasing,
    buffer: &mut Vec<u8>,
) -> Result<u64, AllocError>
    requires whole { IsWhole (begins rounds.now) whole.now }
    requires stands { Stands (begins rounds.now) whole.now.summary.boot (F.seen flash.old) }
    requires marks { CanMark 2 (F.seen flash.old) }
    requires buffer { HoldsSlot (F.seen flash.old).geometry (vec_capacity buffer.old) }
    ensures count { let x = begins rounds.now in IfOk result (λ n. n
        ≡ sum_by (number_count erasing x) (numbers x)) }
    ensures returns { Returns (F.seen flash.old) result (F.seen flash.new) }
    ensures capacity { vec_capacity buffer.new ≡ vec_capacity buffer.old }
{
    let here = flash.mark()?;
    let mut at = whole.summary.boot;
    let mut count = 0;
    for _number in 0..whole.summary.outcome.ops {
        let op = next_op(rounds, flash, &at);
        count += u64::from(count_cases(flash, &op, erasing, buffer)?);
        rounds.pass(flash, &mut at)?;
    }
    flash.back_to(here);
    Ok(count)
}

// How the boot ends after a power cut where the boot that was cut has come to.
fn end_at<F: Flash>(
    rounds: &OneRound<'_>,
    flash: &mut F,
    at: &Boot,
    whole: &Whole,
) -> Result<End, AllocError>
    requires whole { IsWhole (begins rounds.now) whole.now }
    requires stands { Stands (begins rounds.now) at.now (F.seen flash.old) }
    requires marks { CanMark 1 (F.seen flash.old) }
    ensures end { IfOk result (λ end. shown_end end ≡ cut_end (begins rounds.now) at.now.done) }
    ensures bytes { let x = begins rounds.now in OnOk result
        (LeavesBytes (again x (at_cut x at.now.done))) }
    ensures returns { Returns (F.seen flash.old) result (F.seen flash.new) }
{
    if at.count() < whole.summary.outcome.ops {
        if let Ok(summary) = rounds.derive(flash, at, &whole.summary) {
            return Ok(End {
                outcome: summary.outcome,
                busy: whole.busy,
            });
        }
    }
    Ok(run_and_return(rounds, flash)?.end())
}

// How it ends after one operation more. The flash stays as it is.
fn end_after<F: Flash>(
    rounds: &OneRound<'_>,
    flash: &mut F,
    at: &Boot,
    whole: &Whole,
) -> Result<End, AllocError>
    requires whole { IsWhole (begins rounds.now) whole.now }
    requires stands { Stands (begins rounds.now) at.now (F.seen flash.old) }
    requires marks { CanMark 2 (F.seen flash.old) }
    requires early { at.now.done < length (ops_of (begins rounds.now)) }
    ensures end { IfOk result (λ end. shown_end end
        ≡ cut_end (begins rounds.now) (at.now.done + 1)) }
    ensures bytes { let x = begins rounds.now in OnOk result
        (LeavesBytes (again x (at_cut x (at.now.done + 1)))) }
    ensures returns { Returns (F.seen flash.old) result (F.seen flash.new) }
{
    let here = flash.mark()?;
    let mut later = *at;
    rounds.pass(flash, &mut later)?;
    let end = end_at(rounds, flash, &later, whole)?;
    flash.back_to(here);
    Ok(end)
}

/// Where a boot has come to, and how it ends after a power cut there.
#[derive(Clone, Copy)]
pub(crate) struct Here {
    pub at: Boot,
    pub before: End,
}

impl Whole {
    /// Where it begins.
    pub fn begin(&self) -> Here
        ensures { result ≡ record {
          at = self.now.summary.boot;
          before = record {
            outcome = self.now.summary.outcome;
            busy = self.now.busy;
          };
        } }
    {
        Here {
            at: self.summary.boot,
            before: self.end(),
        }
    }
}

/// Writes the lines of the cases of the next operation that are told, and goes on behind it; whether each of its cases is right.
pub(crate) fn write_next<F: Flash, W: Write>(
    rounds: &OneRound<'_>,
    flash: &mut F,
    whole: &Whole,
    here: &mut Here,
    asked: &Asked,
    buffer: &mut Vec<u8>,
    writer: &mut W,
) -> Result<bool, TearError>
    requires whole { IsWhole (begins rounds.now) whole.now }
    requires here { IsHere (begins rounds.now) here.old (F.seen flash.old) }
    requires early { here.old.at.done < length (ops_of (begins rounds.now)) }
    requires buffer { HoldsSlot (F.seen flash.old).geometry (vec_capacity buffer.old) }
    ensures written { WritesText result (W.contents writer.old) (W.contents writer.new)
        (number_text asked.now (begins rounds.now) here.old.at.done) }
    ensures right { IfOk result (λ right. right ≡ number_right asked.now (begins rounds.now)
        here.old.at.done) }
    ensures steps { GoesOn (begins rounds.now) here.old (F.seen flash.old) result here.new
        (F.seen flash.new) }
    ensures capacity { vec_capacity buffer.new ≡ vec_capacity buffer.old }
{
    let op = next_op(rounds, flash, &here.at);
    let after = end_after(rounds, flash, &here.at, whole)?;
    let between = Between {
        number: here.at.count(),
        op,
        before: here.before,
        after,
    };
    let right = write_cases(rounds, flash, &between, asked, buffer, writer)?;
    rounds.pass(flash, &mut here.at)?;
    here.before = after;
    Ok(right)
}

// Writes the lines of the cases that are told; whether each case is right.
fn write_all<F: Flash, W: Write>(
    rounds: &OneRound<'_>,
    flash: &mut F,
    whole: &Whole,
    asked: &Asked,
    buffer: &mut Vec<u8>,
    writer: &mut W,
) -> Result<bool, TearError>
    requires whole { IsWhole (begins rounds.now) whole.now }
    requires stands { Stands (begins rounds.now) whole.now.summary.boot (F.seen flash.old) }
    requires marks { CanMark 2 (F.seen flash.old) }
    requires buffer { HoldsSlot (F.seen flash.old).geometry (vec_capacity buffer.old) }
    ensures written { WritesText result (W.contents writer.old) (W.contents writer.new)
        (lines_text asked.now (begins rounds.now)) }
    ensures right { IfOk result (λ right. right ≡ all_right asked.now (begins rounds.now)) }
    ensures cause { IsErrOf result errors.Memory
        → (F.seen flash.old).usage.limits.counted ≡ false }
{
    let mut here = whole.begin();
    let mut right = true;
    for _number in 0..whole.summary.outcome.ops {
        right &= write_next(rounds, flash, whole, &mut here, asked, buffer, writer)?;
    }
    Ok(right)
}

// The line of how many operations and cases there are.
fn counts_line(operations: u32, cases: u64) -> Line
    ensures { result ≡ counts_text operations cases }
{
    let mut line = Line::new();
    line.put("operations ");
    line.put_number(operations);
    line.put("\ncases ");
    line.put_long_number(cases);
    line.put("\n");
    line
}

/// Writes what power that is lost within an operation of the boot from a start leads to: how many operations that boot makes uncut, how many
/// cases these have, and a line for each case, or for each that ends otherwise than after a power cut before the operation or behind it:
/// the operation's number, what is read, how the boot from there ends, and whether the flash that it leaves says that a swap is under way
/// (docs/FORMAT.md, "Torn operations"). Whether each case is right. It takes one flash and the bytes of a slot.
/// Promised: a boot's cases, in order, and whether each is right (`whole`, `prefix`, `right`, `cause`).
///
/// # Errors
///
/// `Memory`: nothing is written then, where the flash counts. `Write`, where a write fails or takes no bytes: a beginning of the text is out.
pub fn write_tears<F: Flash + Drop, W: Write>(
    alloc: Global,
    start: &Start,
    asked: &Asked,
    writer: &mut W,
) -> Result<bool, TearError>
    ensures whole { OnOk result (Appends (W.contents writer.old) (W.contents writer.new)
        (tears_text asked.now (begun start.now))) }
    ensures prefix { OnErr result (AppendsPrefix (W.contents writer.old) (W.contents writer.new)
        (tears_text asked.now (begun start.now))) }
    ensures right { IfOk result (λ right. right ≡ all_right asked.now (begun start.now)) }
    // A flash that counts is loaded with enough room before anything is written.
    ensures cause { F.counted ≡ true → IsErrOf result errors.Memory → writer.new ≡ writer.old }
{
    let rounds = OneRound { start };
    let mut loaded = load::<F>(alloc, &rounds)?;
    let Loaded {
        flash,
        buffer,
        whole,
    } = &mut loaded;
    let cases = count_all(&rounds, flash, whole, asked.erasing, buffer)?;
    write_line(writer, &counts_line(whole.summary.outcome.ops, cases))?;
    write_all(&rounds, flash, whole, asked, buffer, writer)
}
