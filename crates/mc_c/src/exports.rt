//! The engines, over a caller's buffers. Each returns 0 and puts its text into the buffer, as much of it as fits, with the length of
//! the whole text; or it returns the status of a refusal, and puts the line of that there.
ghost use Rattle.std.specs.Prelude.{◌≡◌, ◌≤◌, length};
ghost use Rattle.mc_c.specs.Exports.{Answer, IsCensusText, IsFlashAtCut, IsFlashLeft, IsGiven, IsOutcome, IsPage, IsPicture, IsTears, IsTrace, asked_of, span_of, view_of};

use crate::engines::Rows;
use crate::source::Source;
use crate::{engines, put};
use mc_explore::Expectation;
use mc_options::Refusal;
use mc_tears::{Asked, Erasing};
use mc_trace::{Moment, Span, View, Words};
use std::alloc::Global;

// Gives the caller a text, or the line of a refusal, and returns 0 or the refusal's status.
fn give(alloc: Global, answer: Result<Vec<u8>, Refusal>, out: &mut [u8], count: &mut u64) -> u32
    ensures { IsGiven answer result out.new count.new }
{
    match answer {
        Ok(text) => {
            *count = put(out, text.as_slice());
            0
        }
        Err(refusal) => {
            let mut line = Vec::new(alloc);
            let status = refusal.report(&mut line);
            *count = put(out, line.as_slice());
            u32::from(status)
        }
    }
}

/// The trace of a schedule, as `mcsim trace` prints it: of each boot's operations those from one number to another.
///
/// # Errors
///
/// 2 where there are more than 16 cuts, or the source is none; 1 where its bytes are refused, or a cut can't occur; 3 where an
/// allocation fails. The buffer holds the line of the refusal then.
#[unsafe(no_mangle)]
pub extern "C" fn mcsim_trace(
    alloc: Global,
    source: &Source,
    a: &[u8],
    b: &[u8],
    cuts: &[u32],
    from: u32,
    to: u32,
    out: &mut [u8],
    count: &mut u64,
) -> u32
    ensures { (answer : Answer) × IsTrace (span_of from to) source.now a.now b.now cuts.now answer
        × IsGiven answer result out.new count.new }
{
    let answer = engines::trace(alloc, source, a, b, cuts, Span { from, to });
    give(alloc, answer, out, count)
}

// Of which flash a picture is, and with which words.
fn view_of(end: bool, all: bool) -> View
    ensures { result ≡ view_of end all }
{
    let moment = if end { Moment::AtEnd } else { Moment::AtCut };
    let words = if all { Words::All } else { Words::Plain };
    View { moment, words }
}

/// What lies in each sector, as `mcsim sectors` prints it: when the last cut of a schedule falls, or `end`, what the boot after it
/// leaves; with `all` words or not.
///
/// # Errors
///
/// 2 where there are more than 16 cuts, or the source is none; 1 where its bytes are refused, or a cut can't occur; 3 where an
/// allocation fails. The buffer holds the line of the refusal then.
#[unsafe(no_mangle)]
pub extern "C" fn mcsim_sectors(
    alloc: Global,
    source: &Source,
    a: &[u8],
    b: &[u8],
    cuts: &[u32],
    end: bool,
    all: bool,
    out: &mut [u8],
    count: &mut u64,
) -> u32
    ensures { (answer : Answer) × IsPicture (view_of end all) source.now a.now b.now cuts.now answer
        × IsGiven answer result out.new count.new }
{
    let answer = engines::picture(alloc, source, a, b, cuts, view_of(end, all));
    give(alloc, answer, out, count)
}

// What is asked of torn operations.
fn asked_of(rough: bool, all: bool) -> Asked
    ensures { result ≡ asked_of rough all }
{
    Asked {
        erasing: if rough {
            Erasing::Rough
        } else {
            Erasing::Gentle
        },
        all,
        expectation: Expectation::any(),
    }
}

/// What torn operations of the uncut boot after a schedule lead to, as `mcsim tears` prints it: an erase fails gently or roughly, and each
/// case is told or only those that end otherwise than after a cut.
///
/// # Errors
///
/// 2 where there are more than 16 cuts, or the source is none; 1 where its bytes are refused, or a cut can't occur; 3 where an
/// allocation fails. The buffer holds the line of the refusal then.
#[unsafe(no_mangle)]
pub extern "C" fn mcsim_tears(
    alloc: Global,
    source: &Source,
    a: &[u8],
    b: &[u8],
    cuts: &[u32],
    rough: bool,
    all: bool,
    out: &mut [u8],
    count: &mut u64,
) -> u32
    ensures { (answer : Answer)
        × IsTears (asked_of rough all) source.now a.now b.now cuts.now answer
        × IsGiven answer result out.new count.new }
{
    let answer = engines::tears(alloc, source, a, b, cuts, &asked_of(rough, all));
    give(alloc, answer, out, count)
}

/// The bytes of both slots when the last cut of a schedule falls.
///
/// # Errors
///
/// 2 where there are more than 16 cuts, or the source is none; 1 where its bytes are refused, or a cut can't occur; 3 where an
/// allocation fails. The buffer holds the line of the refusal then.
#[unsafe(no_mangle)]
pub extern "C" fn mcsim_flash_at_cut(
    alloc: Global,
    source: &Source,
    a: &[u8],
    b: &[u8],
    cuts: &[u32],
    out: &mut [u8],
    count: &mut u64,
) -> u32
    ensures { (answer : Answer) × IsFlashAtCut source.now a.now b.now cuts.now answer
        × IsGiven answer result out.new count.new }
{
    let answer = engines::at_cut(alloc, source, a, b, cuts);
    give(alloc, answer, out, count)
}

/// The outcome of the uncut boot after a schedule, as `mcsim replay` prints it.
///
/// # Errors
///
/// 2 where there are more than 16 cuts, or the source is none; 1 where its bytes are refused, or a cut can't occur; 3 where an
/// allocation fails. The buffer holds the line of the refusal then.
#[unsafe(no_mangle)]
pub extern "C" fn mcsim_outcome(
    alloc: Global,
    source: &Source,
    a: &[u8],
    b: &[u8],
    cuts: &[u32],
    out: &mut [u8],
    count: &mut u64,
) -> u32
    ensures { (answer : Answer) × IsOutcome source.now a.now b.now cuts.now answer
        × IsGiven answer result out.new count.new }
{
    let answer = engines::outcome(alloc, source, a, b, cuts);
    give(alloc, answer, out, count)
}

/// The bytes of both slots that the uncut boot after a schedule leaves.
///
/// # Errors
///
/// 2 where there are more than 16 cuts, or the source is none; 1 where its bytes are refused, or a cut can't occur; 3 where an
/// allocation fails. The buffer holds the line of the refusal then.
#[unsafe(no_mangle)]
pub extern "C" fn mcsim_flash_left(
    alloc: Global,
    source: &Source,
    a: &[u8],
    b: &[u8],
    cuts: &[u32],
    out: &mut [u8],
    count: &mut u64,
) -> u32
    ensures { (answer : Answer) × IsFlashLeft source.now a.now b.now cuts.now answer
        × IsGiven answer result out.new count.new }
{
    let answer = engines::left(alloc, source, a, b, cuts);
    give(alloc, answer, out, count)
}

/// The census of at most so many cuts, as `mcsim census` prints it.
///
/// # Errors
///
/// 2 where the bound is above 16, or the source is none; 1 where its bytes are refused; 3 where an allocation fails.
#[unsafe(no_mangle)]
pub extern "C" fn mcsim_census(
    alloc: Global,
    source: &Source,
    a: &[u8],
    b: &[u8],
    bound: u32,
    out: &mut [u8],
    count: &mut u64,
) -> u32
    ensures { (answer : Answer) × IsCensusText source.now a.now b.now bound answer
        × IsGiven answer result out.new count.new }
{
    let answer = engines::census(alloc, source, a, b, bound);
    give(alloc, answer, out, count)
}

/// A page of the first so many rows of at most so many cuts, as `mcsim explore` prints it: from the first row on, or after a
/// schedule.
///
/// # Errors
///
/// 2 where the bound is above 16, the schedule longer, or the limit 0, or where the source is none; 1 where its bytes are refused, or
/// the schedule is none of those to go through; 3 where an allocation fails.
#[unsafe(no_mangle)]
pub extern "C" fn mcsim_rows(
    alloc: Global,
    source: &Source,
    a: &[u8],
    b: &[u8],
    bound: u32,
    first: bool,
    last: &[u32],
    limit: u32,
    out: &mut [u8],
    count: &mut u64,
) -> u32
    ensures { (answer : Answer) × IsPage source.now a.now b.now bound first last.now limit answer
        × IsGiven answer result out.new count.new }
{
    let rows = Rows {
        bound,
        first,
        last,
        limit,
    };
    let answer = engines::page(alloc, source, a, b, &rows);
    give(alloc, answer, out, count)
}
