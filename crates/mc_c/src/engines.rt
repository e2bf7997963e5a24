//! The engines' texts and bytes, of a source.
ghost use Rattle.std.specs.Prelude.{◌≡◌, ◌≤◌, IfErr, IfOk, MatchResult};
ghost use Rattle.mc_boot.specs.Outcome.{outcome_text, shown};
ghost use Rattle.mc_start.specs.Start.{begun};
ghost use Rattle.mc_trace.specs.Sectors.{slots_bytes};
ghost use Rattle.mc_c.specs.Exports.{Begins, IsCensusText, IsFlashAtCut, IsFlashLeft, IsOutcome, IsPage, IsPicture, IsTears, IsTrace, PageOf, RefusesPage, TextOf, is_at_cut, is_left, is_outcome, is_picture, is_tears, is_trace, state_at};

use crate::source::Source;
use mc_boot::Outcome;
use mc_explore::{
    Explorer, MOST_CUTS, Schedule, Schedules, Start, flash_at_cut, replay, take_census,
    write_census, write_page,
};
use mc_flash::JournalFlash;
use mc_options::Refusal;
use mc_output::{Line, write_line};
use mc_tears::{Asked, write_tears};
use mc_trace::{Span, View, write_sectors, write_slots, write_trace};
use std::alloc::Global;

// The start of a source, and a schedule.
fn begin(
    alloc: Global,
    source: &Source,
    a: &[u8],
    b: &[u8],
    cuts: &[u32],
) -> Result<(Start, Schedule), Refusal>
    ensures { Begins source.now a.now b.now cuts.now result }
{
    if cuts.len() > MOST_CUTS {
        return Err(Refusal::Argument);
    }
    let start = source.start(alloc, a, b)?;
    Ok((start, Schedule::of(cuts)))
}

// The trace of a schedule, with those operations of each boot that lie in a span.
fn trace_text(
    alloc: Global,
    start: &Start,
    schedule: &Schedule,
    span: Span,
) -> Result<Vec<u8>, Refusal>
    ensures { TextOf (begun start.now) schedule.now (is_trace span start.now
        schedule.now) result }
{
    let mut text = Vec::new(alloc);
    match write_trace::<JournalFlash, Vec<u8>>(alloc, start, schedule, span, &mut text) {
        Ok(()) => Ok(text),
        Err(error) => Err(Refusal::Trace(error)),
    }
}

/// The trace of a schedule, with those operations of each boot that lie in a span.
pub fn trace(
    alloc: Global,
    source: &Source,
    a: &[u8],
    b: &[u8],
    cuts: &[u32],
    span: Span,
) -> Result<Vec<u8>, Refusal>
    ensures { IsTrace span source.now a.now b.now cuts.now result }
{
    let (start, schedule) = begin(alloc, source, a, b, cuts)?;
    trace_text(alloc, &start, &schedule, span)
}

// What lies in each sector of a flash.
fn picture_text(
    alloc: Global,
    start: &Start,
    schedule: &Schedule,
    view: View,
) -> Result<Vec<u8>, Refusal>
    ensures { TextOf (begun start.now) schedule.now (is_picture view start.now
        schedule.now) result }
{
    let mut text = Vec::new(alloc);
    match write_sectors::<JournalFlash, Vec<u8>>(alloc, start, schedule, view, &mut text) {
        Ok(()) => Ok(text),
        Err(error) => Err(Refusal::Trace(error)),
    }
}

/// What lies in each sector of a flash.
pub fn picture(
    alloc: Global,
    source: &Source,
    a: &[u8],
    b: &[u8],
    cuts: &[u32],
    view: View,
) -> Result<Vec<u8>, Refusal>
    ensures { IsPicture view source.now a.now b.now cuts.now result }
{
    let (start, schedule) = begin(alloc, source, a, b, cuts)?;
    picture_text(alloc, &start, &schedule, view)
}

// The bytes of both slots of a flash.
fn slots_of(alloc: Global, flash: &JournalFlash) -> Result<Vec<u8>, Refusal>
    ensures { MatchResult result (λ bytes. bytes.items ≡ slots_bytes flash.now.content)
        (λ e. e ≡ Refusal.Memory) }
{
    let mut bytes = Vec::new(alloc);
    match write_slots(flash, &mut bytes) {
        Ok(()) => Ok(bytes),
        Err(_) => Err(Refusal::Memory),
    }
}

// The flash when the last cut of a schedule falls.
fn bytes_at_cut(alloc: Global, start: &Start, schedule: &Schedule) -> Result<Vec<u8>, Refusal>
    ensures { TextOf (begun start.now) schedule.now (is_at_cut start.now
        schedule.now) result }
{
    match flash_at_cut::<JournalFlash>(alloc, start, schedule) {
        Ok(flash) => slots_of(alloc, &flash),
        Err(error) => Err(Refusal::Replay(error)),
    }
}

/// The flash when the last cut of a schedule falls.
pub fn at_cut(
    alloc: Global,
    source: &Source,
    a: &[u8],
    b: &[u8],
    cuts: &[u32],
) -> Result<Vec<u8>, Refusal>
    ensures { IsFlashAtCut source.now a.now b.now cuts.now result }
{
    let (start, schedule) = begin(alloc, source, a, b, cuts)?;
    bytes_at_cut(alloc, &start, &schedule)
}

// The lines of an outcome.
fn lines_of(alloc: Global, outcome: &Outcome) -> Result<Vec<u8>, Refusal>
    ensures { MatchResult result (λ text. text.items ≡ outcome_text (shown outcome.now))
        (λ e. e ≡ Refusal.Memory) }
{
    let mut line = Line::new();
    outcome.put_into(&mut line);
    let mut text = Vec::new(alloc);
    match write_line(&mut text, &line) {
        Ok(()) => Ok(text),
        Err(_) => Err(Refusal::Memory),
    }
}

// The outcome of the uncut boot after a schedule.
fn replay_text(alloc: Global, start: &Start, schedule: &Schedule) -> Result<Vec<u8>, Refusal>
    ensures { TextOf (begun start.now) schedule.now (is_outcome start.now
        schedule.now) result }
{
    match replay::<JournalFlash>(alloc, start, schedule) {
        Ok((outcome, _)) => lines_of(alloc, &outcome),
        Err(error) => Err(Refusal::Replay(error)),
    }
}

/// The outcome of the uncut boot after a schedule.
pub fn outcome(
    alloc: Global,
    source: &Source,
    a: &[u8],
    b: &[u8],
    cuts: &[u32],
) -> Result<Vec<u8>, Refusal>
    ensures { IsOutcome source.now a.now b.now cuts.now result }
{
    let (start, schedule) = begin(alloc, source, a, b, cuts)?;
    replay_text(alloc, &start, &schedule)
}

// The flash that the uncut boot after a schedule leaves.
fn bytes_left(alloc: Global, start: &Start, schedule: &Schedule) -> Result<Vec<u8>, Refusal>
    ensures { TextOf (begun start.now) schedule.now (is_left start.now
        schedule.now) result }
{
    match replay::<JournalFlash>(alloc, start, schedule) {
        Ok((_, flash)) => slots_of(alloc, &flash),
        Err(error) => Err(Refusal::Replay(error)),
    }
}

/// The flash that the uncut boot after a schedule leaves.
pub fn left(
    alloc: Global,
    source: &Source,
    a: &[u8],
    b: &[u8],
    cuts: &[u32],
) -> Result<Vec<u8>, Refusal>
    ensures { IsFlashLeft source.now a.now b.now cuts.now result }
{
    let (start, schedule) = begin(alloc, source, a, b, cuts)?;
    bytes_left(alloc, &start, &schedule)
}

// What torn operations of the boot after a schedule lead to.
fn tears_text(
    alloc: Global,
    start: &Start,
    schedule: &Schedule,
    asked: &Asked,
) -> Result<Vec<u8>, Refusal>
    ensures { TextOf (begun start.now) schedule.now (is_tears asked.now start.now
        schedule.now) result }
{
    let flash: JournalFlash = match flash_at_cut(alloc, start, schedule) {
        Ok(flash) => flash,
        Err(error) => return Err(Refusal::Replay(error)),
    };
    let Ok(after) = start.again(alloc, &flash) else {
        return Err(Refusal::Memory);
    };
    let mut text = Vec::new(alloc);
    match write_tears::<JournalFlash, Vec<u8>>(alloc, &after, asked, &mut text) {
        Ok(_) => Ok(text),
        Err(_) => Err(Refusal::Memory),
    }
}

/// What torn operations of the uncut boot after a schedule lead to.
pub fn tears(
    alloc: Global,
    source: &Source,
    a: &[u8],
    b: &[u8],
    cuts: &[u32],
    asked: &Asked,
) -> Result<Vec<u8>, Refusal>
    ensures { IsTears asked.now source.now a.now b.now cuts.now result }
{
    let (start, schedule) = begin(alloc, source, a, b, cuts)?;
    tears_text(alloc, &start, &schedule, asked)
}

/// The census of at most so many cuts.
pub fn census(
    alloc: Global,
    source: &Source,
    a: &[u8],
    b: &[u8],
    bound: u32,
) -> Result<Vec<u8>, Refusal>
    ensures { IsCensusText source.now a.now b.now bound result }
{
    if bound > MOST_CUTS as u32 {
        return Err(Refusal::Argument);
    }
    let start = source.start(alloc, a, b)?;
    let census = match take_census::<JournalFlash, Schedules>(alloc, &start, bound as u8, ()) {
        Ok(census) => census,
        Err(error) => return Err(Refusal::Explore(error)),
    };
    let mut text = Vec::new(alloc);
    match write_census::<Schedules, Vec<u8>>(&census, &mut text) {
        Ok(()) => Ok(text),
        Err(_) => Err(Refusal::Memory),
    }
}

// An explorer that begins with the first row, or after a schedule.
fn explorer<'a>(
    alloc: Global,
    start: &'a Start,
    bound: u8,
    first: bool,
    last: &Schedule,
) -> Result<Explorer<'a, JournalFlash>, Refusal>
    requires { bound ≤ 16 }
    ensures at { IfOk result (λ explorer. explorer.state ≡ state_at (begun start.now) bound first
        last.now) }
    ensures refused { IfErr result (RefusesPage (begun start.now) bound first last.now) }
{
    let explorer = if first {
        Explorer::start(alloc, start, bound)?
    } else {
        Explorer::after(alloc, start, bound, last)?
    };
    Ok(explorer)
}

// The page of those rows.
fn page_text(
    alloc: Global,
    start: &Start,
    last: &Schedule,
    rows: &Rows<'_>,
) -> Result<Vec<u8>, Refusal>
    requires bound { rows.now.bound ≤ 16 }
    requires limit { 1 ≤ rows.now.limit }
    ensures { PageOf (begun start.now) rows.now.bound rows.now.first last.now rows.now.limit
        result }
{
    let mut explorer = explorer(alloc, start, rows.bound as u8, rows.first, last)?;
    let mut text = Vec::new(alloc);
    write_page(&mut explorer, rows.limit, &mut text)?;
    Ok(text)
}

/// The page of the first so many rows of at most so many cuts, from the first one on or after a
/// schedule.
pub fn page(
    alloc: Global,
    source: &Source,
    a: &[u8],
    b: &[u8],
    rows: &Rows<'_>,
) -> Result<Vec<u8>, Refusal>
    ensures { IsPage source.now a.now b.now rows.now.bound rows.now.first rows.now.last.now
        rows.now.limit result }
{
    if rows.bound > MOST_CUTS as u32 || rows.limit == 0 {
        return Err(Refusal::Argument);
    }
    let (start, last) = begin(alloc, source, a, b, rows.last)?;
    page_text(alloc, &start, &last, rows)
}

/// Which rows are asked for.
#[derive(Clone, Copy)]
pub struct Rows<'a> {
    pub bound: u32,
    pub first: bool,
    pub last: &'a [u32],
    pub limit: u32,
}
