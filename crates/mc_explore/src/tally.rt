//! What the rows of an exploration come to.
ghost use Rattle.std.specs.Prelude.{◌≡◌, ◌+◌, ◌-◌, ◌*◌, ◌^◌, ◌<◌, ◌≤◌, ◌⊎◌, ◌↔◌, ◌++◌, decimal, length, true, Some, IfOk, IfErr, OnErr, OnOk};
ghost use Rattle.std.specs.Io.KnownBytes.{Appends};
ghost use Rattle.mc_boot.specs.Outcome.{shown};
ghost use Rattle.mc_output.specs.Text.{AppendsPrefix};
ghost use Rattle.mc_explore.specs.Rows.{most_for_row};
ghost use Rattle.mc_explore.specs.Pages.{Page};
ghost use Rattle.mc_explore.specs.Survey.{AllEndInBoot, IsWithin, Surveys, counts_text, no_tally, one_row_more, tally_by, tally_text};
ghost use Rattle.mc_explore.specs.Right.{SurveysRows};
ghost use Rattle.mc_explore.specs.Subject.{Explores};

use crate::error::ExploreError;
use crate::expectation::Expectation;
use crate::explorer::Explorer;
use crate::rights::RightsOf;
use crate::subject::Subject;
use crate::tree_explorer::TreeExplorer;
use mc_boot::{BootResult, Outcome};
use mc_flash::Flash;
use mc_output::{Line, MOST_LINE, WriteFailed, write_line};
use mc_start::Cursor;
use std::io::Write;

/// How many rows a page would have, how many of them end with each result, and where it would go on.
#[derive(Clone, Copy, Debug)]
pub struct TallyOf<C> {
    pub rows: u32,
    /// How many end in a boot.
    pub boot: u32,
    /// How many leave a primary without a valid image.
    pub none: u32,
    /// How many end in a panic.
    pub panic: u32,
    /// How many end in a refused operation.
    pub fault: u32,
    /// The greatest number of operations of a last boot, 0 where there are no rows.
    pub most_ops: u32,
    /// The cursor of the last row, where the page would be full.
    pub next: Option<C>,
}

/// The tally of a page of schedules.
pub type Tally = TallyOf<Cursor>;

impl<C: Copy> TallyOf<C> {
    // Of no rows.
    fn new() -> TallyOf<C>
        ensures { result ≡ no_tally }
    {
        TallyOf {
            rows: 0,
            boot: 0,
            none: 0,
            panic: 0,
            fault: 0,
            most_ops: 0,
            next: None,
        }
    }

    // Counts one row more, which ends so.
    #[inline(always)]
    fn add(&mut self, end: &Outcome)
        requires room { self.old.rows < 2 ^ 32 - 1 }
        requires within { IsWithin self.old }
        ensures { self.new ≡ one_row_more (shown end.now) self.old }
    {
        self.rows += 1;
        match end.result {
            BootResult::Boot => self.boot += 1,
            BootResult::None => self.none += 1,
            BootResult::Panic => self.panic += 1,
            BootResult::Fault => self.fault += 1,
        }
        self.most_ops = self.most_ops.max(end.ops);
    }
}

/// Whether each of the rows that a tally counts ends in a boot.
/// Promised, also of `each_boots` and `all_right`: the verdict is on the rows that are listed (`AllEndInBoot`, `AllEndRight`).
pub fn all_boot<X: Subject>(tally: &TallyOf<X::Cursor>) -> bool
    ensures { (page : Page X.Shown X.Cursor) → tally.now ≡ tally_by X.subject.ends page
        → (result ≡ true) ↔ AllEndInBoot X.subject.ends page.rows }
{
    tally.boot == tally.rows
}

// Adds a word, and a number of rows or operations.
fn put_counted(line: &mut Line, word: &str, count: u32)
    requires { length line.old + length word.now + 10 ≤ MOST_LINE }
    ensures text { line.new ≡ line.old ++ (word.now ++ decimal count) }
    ensures length { length line.new ≤ length line.old + length word.now + 10 }
{
    line.put(word);
    line.put_number(count);
}

// The first six lines of a tally: how many rows, how many of them with each result, the greatest number of operations.
fn counts_line<C: Copy>(tally: &TallyOf<C>) -> Line
    ensures text { result ≡ counts_text tally.now }
    ensures length { length result ≤ 102 }
{
    let mut line = Line::new();
    put_counted(&mut line, "rows ", tally.rows);
    put_counted(&mut line, "\nboot ", tally.boot);
    put_counted(&mut line, "\nnone ", tally.none);
    put_counted(&mut line, "\npanic ", tally.panic);
    put_counted(&mut line, "\nfault ", tally.fault);
    put_counted(&mut line, "\nmost-ops ", tally.most_ops);
    line.put("\n");
    line
}

// Seven lines: how many rows, how many of them with each result, the greatest number of operations; then where to go on, or `end`.
fn tally_line<X: Subject>(tally: &TallyOf<X::Cursor>) -> Line
    ensures { result ≡ tally_text X.subject tally.now }
{
    let mut line = counts_line(tally);
    match &tally.next {
        Some(cursor) => {
            line.put("next ");
            X::put_cursor(cursor, &mut line);
            line.put("\n");
        }
        None => line.put("end\n"),
    }
    line
}

/// Writes seven lines, or a beginning of them: how many rows, how many of them with each result, the greatest number of operations;
/// then where to go on, or `end`.
/// Promised, also of `write_census` and `write_rights`: the lines of a census or a survey, or a prefix (`whole`, `prefix`).
///
/// # Errors
///
/// `WriteFailed` where a write fails or takes no bytes.
pub fn write_tally<X: Subject, W: Write>(
    tally: &TallyOf<X::Cursor>,
    writer: &mut W,
) -> Result<(), WriteFailed>
    ensures whole { OnOk result (Appends (W.contents writer.old) (W.contents writer.new)
        (tally_text X.subject tally.now)) }
    ensures prefix { OnErr result (AppendsPrefix (W.contents writer.old) (W.contents writer.new)
        (tally_text X.subject tally.now)) }
{
    write_line(writer, &tally_line::<X>(tally))
}

/// Counts the next rows that come before that key, if one is given, at most so many, and how many of them are right: the rows of
/// the page that `write_rows` would write. The explorer is where that page would have left it. It takes no memory but through the
/// flash.
///
/// # Errors
///
/// `Memory`, `Failed`: those of `next_row`.
pub fn survey_rows<F: Flash + Drop, X: Subject>(
    explorer: &mut TreeExplorer<'_, F, X>,
    until: &Option<X::Key>,
    limit: u32,
    expectation: &Expectation,
) -> Result<(TallyOf<X::Cursor>, RightsOf<X::Key>), ExploreError>
    requires { 1 ≤ limit }
    ensures surveys { IfOk result (λ counted. SurveysRows X.subject expectation.now
        until.now explorer.old.state explorer.new.state limit counted.0 counted.1) }
    // Each row takes as much as one by itself.
    ensures applied { let s = explorer.old.state.start in OnOk result (explorer.new.usage.applied
        ≤ explorer.old.usage.applied + limit * X.subject.most_for_row s.rules s.geometry) }
    ensures explores { Explores F.counted explorer.old result explorer.new }
    ensures err { IfErr result (λ e. (e ≡ ExploreError.Memory) ⊎ (e ≡ ExploreError.Failed)) }
{
    let mut tally = TallyOf::new();
    let mut rights = RightsOf::new();
    'rows: while tally.rows < limit {
        match explorer.next_before(until)? {
            Some(row) => {
                let end = X::end(&row);
                tally.add(&end);
                rights.add(expectation, X::key(&row), &end);
            }
            None => return Ok((tally, rights)),
        }
    }
    tally.next = Some(explorer.cursor());
    Ok((tally, rights))
}

/// Counts the next rows, at most so many: the rows of the page that `write_page` would write. The explorer is where that page
/// would have left it. It takes no memory but through the flash.
/// Promised, also of `survey_rows`: a survey of a page, and of what is right (`surveys`, `explores`, `err`).
///
/// # Errors
///
/// `Memory`, `Failed`: those of `next_row`.
pub fn survey<F: Flash + Drop>(
    explorer: &mut Explorer<'_, F>,
    limit: u32,
) -> Result<Tally, ExploreError>
    requires { 1 ≤ limit }
    // It is the stated function of the page's rows, and what is to come afterwards is the rest of the rows.
    ensures surveys { IfOk result (Surveys explorer.old.state explorer.new.state limit) }
    // Each row takes as much as one by itself.
    ensures applied { OnOk result (explorer.new.usage.applied ≤ explorer.old.usage.applied + limit
        * most_for_row explorer.old.state.start.rules explorer.old.state.start.geometry) }
    ensures explores { Explores F.counted explorer.old result explorer.new }
    ensures err { IfErr result (λ e. (e ≡ ExploreError.Memory) ⊎ (e ≡ ExploreError.Failed)) }
{
    let any = Expectation::any();
    let (tally, _rights) = survey_rows(&mut explorer.inner, &None, limit, &any)?;
    Ok(tally)
}
