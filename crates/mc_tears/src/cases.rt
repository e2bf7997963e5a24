//! The cases of one operation, and how each ends.
ghost use Rattle.std.specs.Prelude.{◌≡◌, ◌≤◌, Some, length, IfErr, IfOk};
ghost use Rattle.std.specs.Vec.{vec_capacity};
ghost use Rattle.mc_boot.specs.Plan.{again};
ghost use Rattle.mc_flash.specs.Usage.{HasRoom};
ghost use Rattle.mc_explore.specs.inner.OneRound.{begins};
ghost use Rattle.mc_tear.specs.Cases.{cases_of, fields_of, put_in, written_len};
ghost use Rattle.mc_tear.specs.inner.Room.{Applies, tear_counts};
ghost use Rattle.mc_tears.specs.Ends.{end_of, shown_end};
ghost use Rattle.mc_tears.specs.Tears.{line_text, op_right, op_text, told_text};
ghost use Rattle.mc_tears.specs.declared.error.TearError.TheVariants as errors;
ghost use Rattle.mc_tears.specs.inner.Standing.{EndsAfter, Goes, Returns, StandsBefore, WritesText, case_counts, reading_right, reading_text_at};

use crate::as_whole::ends_as_whole;
use crate::end::{End, run};
use crate::error::TearError;
use mc_explore::{Expectation, OneRound};
use mc_flash::{Flash, Op};
use mc_output::{Line, write_line};
use mc_tear::{Erasing, Fields, Reading, is_case, is_there, put_torn};
use std::alloc::AllocError;
use std::io::Write;

/// How many cases an operation has before which the flash stands.
pub(crate) fn count_cases<F: Flash>(
    flash: &mut F,
    op: &Op,
    erasing: Erasing,
    buffer: &mut Vec<u8>,
) -> Result<u32, AllocError>
    requires applies { Applies op.now (F.seen flash.old) }
    requires buffer { written_len (F.seen flash.old).geometry op.now ≤ vec_capacity buffer.old }
    requires room { HasRoom (tear_counts (F.seen flash.old).geometry) (F.seen flash.old) }
    ensures count { let f = F.seen flash.old in IfOk result (λ n. n
        ≡ length (cases_of erasing f.geometry op.now f.content)) }
    ensures few { IfOk result (λ n. n ≤ 192) }
    ensures returns { Returns (F.seen flash.old) result (F.seen flash.new) }
    ensures capacity { vec_capacity buffer.new ≡ vec_capacity buffer.old }
{
    let fields = Fields::of(flash, op, erasing);
    let mut count = 0;
    for number in 0..fields.most_readings() {
        let reading = Reading::of(number);
        count += u32::from(is_case(flash, op, erasing, &fields, &reading, buffer)?);
    }
    Ok(count)
}

// How the boot ends from where these bytes are put in the place of those that an operation writes. The flash stays as it is.
fn end_from<F: Flash>(
    rounds: &OneRound<'_>,
    flash: &mut F,
    op: &Op,
    bytes: &[u8],
    before: &End,
    after: &End,
) -> Result<End, AllocError>
    requires layout { (F.seen flash.old).geometry ≡ (begins rounds.now).geometry }
    requires applies { Applies op.now (F.seen flash.old) }
    requires len { length bytes.now ≡ written_len (F.seen flash.old).geometry op.now }
    requires room { HasRoom (case_counts (begins rounds.now)) (F.seen flash.old) }
    requires before { shown_end before.now
        ≡ end_of (again (begins rounds.now) (F.seen flash.old).content) }
    requires after { EndsAfter (begins rounds.now) op.now (F.seen flash.old) after.now }
    ensures end { let f = F.seen flash.old in IfOk result (λ end. shown_end end
        ≡ end_of (again (begins rounds.now) (put_in f.geometry op.now f.content bytes.now))) }
    ensures returns { Returns (F.seen flash.old) result (F.seen flash.new) }
{
    if is_there(flash, op, bytes) {
        return Ok(*before);
    }
    if ends_as_whole(rounds, flash, op, bytes, after) {
        return Ok(*after);
    }
    let here = flash.mark()?;
    put_torn(flash, op, bytes)?;
    let whole = run(rounds, flash)?;
    flash.back_to(here);
    Ok(whole.end())
}

/// What is asked of the cases of a boot.
#[derive(Clone, Copy, Debug)]
pub struct Asked {
    /// How an erase fails.
    pub erasing: Erasing,
    /// Whether each case is written, or only those that end otherwise than a power cut does.
    pub all: bool,
    /// What is right.
    pub expectation: Expectation,
}

/// An operation of a boot by its number, and how the boots end after a power cut before it and after it.
#[derive(Clone, Copy)]
pub(crate) struct Between {
    pub number: u32,
    pub op: Op,
    pub before: End,
    pub after: End,
}

// The line of a case.
fn case_line(number: u32, reading: &Reading, end: &End) -> Line
    ensures { result ≡ line_text number reading.now (shown_end end.now) }
{
    let mut line = Line::new();
    line.put_number(number);
    line.put(" ");
    reading.put_into(&mut line);
    line.put(" ");
    end.put_into(&mut line);
    line.put("\n");
    line
}

// Writes the line of a case, if it is told.
#[tactic(auto, unfolding(crate::specs::Tears::told_text))]
fn tell<W: Write>(
    between: &Between,
    asked: &Asked,
    reading: &Reading,
    end: &End,
    writer: &mut W,
) -> Result<(), TearError>
    ensures written { WritesText result (W.contents writer.old) (W.contents writer.new)
        (told_text asked.now.all between.now.number (shown_end between.now.before)
        (shown_end between.now.after) reading.now (shown_end end.now)) }
    ensures err { IfErr result (λ e. e ≡ errors.Write) }
{
    if asked.all || !(end.is_like(&between.before) || end.is_like(&between.after)) {
        write_line(writer, &case_line(between.number, reading, end))?;
    }
    Ok(())
}

// Writes the line of a reading, if it is a case that is told; whether it is right, if it is a case.
fn write_case<F: Flash, W: Write>(
    rounds: &OneRound<'_>,
    flash: &mut F,
    between: &Between,
    asked: &Asked,
    fields: &Fields,
    reading: &Reading,
    buffer: &mut Vec<u8>,
    writer: &mut W,
) -> Result<bool, TearError>
    requires stands { StandsBefore (begins rounds.now) between.now (F.seen flash.old) }
    requires fields { let f = F.seen flash.old in fields.now
        ≡ fields_of asked.now.erasing f.geometry between.now.op f.content }
    requires buffer { written_len (F.seen flash.old).geometry between.now.op
        ≤ vec_capacity buffer.old }
    ensures written { WritesText result (W.contents writer.old) (W.contents writer.new)
        (reading_text_at asked.now (begins rounds.now) between.now.number between.now.op
        reading.now) }
    ensures right { IfOk result (λ right. right ≡ reading_right asked.now (begins rounds.now)
        between.now.number between.now.op reading.now) }
    ensures goes { Goes (F.seen flash.old) result (F.seen flash.new) }
    ensures capacity { vec_capacity buffer.new ≡ vec_capacity buffer.old }
{
    if !is_case(flash, &between.op, asked.erasing, fields, reading, buffer)? {
        return Ok(true);
    }
    let (before, after) = (&between.before, &between.after);
    let end = end_from(rounds, flash, &between.op, buffer, before, after)?;
    tell(between, asked, reading, &end, writer)?;
    Ok(end.is_right(&asked.expectation))
}

/// Writes the lines of the cases of an operation that are told; whether each of its cases is right.
pub(crate) fn write_cases<F: Flash, W: Write>(
    rounds: &OneRound<'_>,
    flash: &mut F,
    between: &Between,
    asked: &Asked,
    buffer: &mut Vec<u8>,
    writer: &mut W,
) -> Result<bool, TearError>
    requires stands { StandsBefore (begins rounds.now) between.now (F.seen flash.old) }
    requires buffer { written_len (F.seen flash.old).geometry between.now.op
        ≤ vec_capacity buffer.old }
    ensures written { WritesText result (W.contents writer.old) (W.contents writer.new)
        (op_text asked.now (begins rounds.now) between.now.number (Some between.now.op)) }
    ensures right { IfOk result (λ right. right ≡ op_right asked.now (begins rounds.now)
        between.now.number (Some between.now.op)) }
    ensures goes { Goes (F.seen flash.old) result (F.seen flash.new) }
    ensures capacity { vec_capacity buffer.new ≡ vec_capacity buffer.old }
{
    let fields = Fields::of(flash, &between.op, asked.erasing);
    let mut right = true;
    for number in 0..fields.most_readings() {
        let reading = Reading::of(number);
        right &= write_case(
            rounds, flash, between, asked, &fields, &reading, buffer, writer,
        )?;
    }
    Ok(right)
}
