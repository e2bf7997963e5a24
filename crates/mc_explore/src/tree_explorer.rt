//! Goes through the rows of a kind of tree, one after another.
ghost use Rattle.std.specs.Prelude.{◌≡◌, ◌↔◌, ◌+◌, ◌≤◌, ◌⊎◌, Some, true, length, option_map, IfErr, IfOk, IsErrOf, OnErr, OnOk};
ghost use Rattle.std.specs.Io.KnownBytes.{Appends};
ghost use Rattle.mc_output.specs.Text.{AppendsPrefix};
ghost use Rattle.mc_explore.specs.Pages.{FindsBefore, IsBefore, RowBegan, WritesRow, last_line};
ghost use Rattle.mc_flash.specs.Usage.{limits_for};
ghost use Rattle.mc_start.specs.Start.{begun};
ghost use Rattle.mc_tree.specs.Tree.{After, Lost};
ghost use Rattle.mc_explore.specs.Rounds.{more_of};
ghost use Rattle.mc_explore.specs.Subject.{Resumes, Explores, Finds, GoesOnBeyond, LeavesExplorer, Restarts, StandsBefore, at_start, row_cost, rows_of, state_after};

use crate::at_cuts::AtCuts;
use crate::before::key_before;
use crate::boot_row::{BootRow, Cuts};
use crate::error::ExploreError;
use crate::labels::Labels;
use crate::output::write_text;
use crate::row_line::RowLine;
use crate::rows::Rows;
use crate::subject::{Fields, Subject};
use crate::tree_loading::{check_cursor, load_boots};
use mc_flash::Flash;
use mc_start::{Line, Schedule, Start};
use std::alloc::Global;
use std::io::Write;
use std::marker::Model;

/// Goes through all keys of at most so many cuts that can occur, in their order, each with its outcomes, over one flash.
#[derive(Drop)]
pub struct TreeExplorer<'a, F: Flash, X: Subject> {
    start: &'a Start,
    // What distinguishes the start, where a cursor gave it.
    digest: Option<[u8; 32]>,
    choice: X::Choice,
    bound: u8,
    rows: Rows<'a, F>,
    // The cuts of the last row.
    last: Cuts,
    labels: Labels,
    // The line of the last row, or nothing.
    line: RowLine,
}

impl<'a, F: Flash, X: Subject> Model for TreeExplorer<'a, F, X> {
    ghost use Rattle.mc_start.specs.Start.{begun};
    ghost use Rattle.mc_explore.specs.inner.Lines.{KeepsLine};
    ghost use Rattle.mc_explore.specs.inner.View.{IsDigestOf};
    ghost use Rattle.mc_walk.specs.Walks.{position_of};
    ghost use Rattle.mc_explore.specs.Subject.{Explored};
    ghost use Rattle.mc_explore.specs.inner.Exploring.{IsSound, explored};

    ghost Value = { Explored X.Choice X.Key };

    ghost view = { λ e. explored (begun e.start.now) e.choice e.bound e.rows.walk
        (position_of e.rows.phase (X.edge.key_in e.last)) };

    ghost invariant = { λ e. IsSound F.counted (begun e.start.now) (X.edge.rounds_in e.choice)
        e.bound e.rows e.last
        × IsDigestOf (begun e.start.now) e.digest
        × KeepsLine X.subject X.edge e.rows e.line.text.items e.line.key };
}

impl<'a, F: Flash + Drop, X: Subject> TreeExplorer<'a, F, X> {
    /// An explorer at the start, under a choice. It takes its own memory here, and none later but through the flash, which
    /// it loads for so many boots more than there are cuts as the subject says.
    /// Promised, also of `after`, `resume` and `next_row`: in two rounds `k+3` in place of `k+1`, `k+4` checkpoints (`exact`, `limits`).
    ///
    /// # Errors
    ///
    /// `Memory` where an allocation failed.
    pub fn start(
        alloc: Global,
        start: &'a Start,
        bound: u8,
        choice: X::Choice,
    ) -> Result<TreeExplorer<'a, F, X>, ExploreError>
        requires { bound ≤ 16 }
        ensures ok { IfOk result (λ explorer. explorer.state
            ≡ at_start (begun start.now) choice bound) }
        // No operation is done yet, and a flash that counts has room for exactly so many boots.
        ensures applied { IfOk result (λ explorer. explorer.usage.applied ≡ 0) }
        ensures exact { IfOk result (λ explorer. F.counted ≡ true → explorer.usage.limits
            ≡ limits_for start.now.rules.grain start.now.geometry (bound + more_of (X.edge.rounds_in choice))) }
        ensures err { IfErr result (λ e. e ≡ ExploreError.Memory) }
    {
        let rounds = X::rounds_of(choice);
        let walk = load_boots(alloc, start, rounds, bound)?;
        let kept = AtCuts::of(alloc, start, rounds.count(), bound)?;
        Ok(TreeExplorer {
            start,
            digest: None,
            choice,
            bound,
            rows: Rows::fresh(walk, kept),
            last: Cuts::none(),
            labels: Labels::of(start),
            line: RowLine::new(),
        })
    }

    /// An explorer that goes on after a key, straight down along its path. It takes memory as one at the start does.
    ///
    /// # Errors
    ///
    /// `CannotOccur` where it is none of the keys to go through; `Memory`.
    pub fn after(
        alloc: Global,
        start: &'a Start,
        bound: u8,
        choice: X::Choice,
        key: &X::Key,
    ) -> Result<TreeExplorer<'a, F, X>, ExploreError>
        requires { bound ≤ 16 }
        ensures resumes { GoesOnBeyond X.subject (begun start.now) choice bound key.now result }
        ensures cheap { IfOk result (λ explorer. X.subject.IsCheap start.now.rules
            start.now.geometry bound explorer.usage.applied) }
        ensures exact { IfOk result (λ explorer. F.counted ≡ true → explorer.usage.limits
            ≡ limits_for start.now.rules.grain start.now.geometry (bound + more_of (X.edge.rounds_in choice))) }
    {
        let rounds = X::rounds_of(choice);
        let mut walk = load_boots(alloc, start, rounds, bound)?;
        walk.begin()?;
        if !X::follow(&mut walk, choice, key)? {
            return Err(ExploreError::CannotOccur);
        }
        let kept = AtCuts::of(alloc, start, rounds.count(), bound)?;
        let last = Cuts::along(&walk, &Schedule::of(walk.path().as_slice()));
        Ok(TreeExplorer {
            start,
            digest: None,
            choice,
            bound,
            rows: Rows::after(walk, kept),
            last,
            labels: Labels::of(start),
            line: RowLine::new(),
        })
    }

    /// An explorer that begins with a key: its row comes next. It goes along two paths before, that of the key and that of the one
    /// before it, each over a flash of its own, and then takes memory as one at the start does.
    /// Promised: begins with a key; 58 exactly where it can't occur (`stands`, `exact`).
    ///
    /// # Errors
    ///
    /// `CannotOccur` where it is none of the keys to go through; `Memory`.
    pub fn before(
        alloc: Global,
        start: &'a Start,
        bound: u8,
        choice: X::Choice,
        key: &X::Key,
    ) -> Result<TreeExplorer<'a, F, X>, ExploreError>
        requires { bound ≤ 16 }
        ensures stands { StandsBefore X.subject (begun start.now) choice bound key.now result }
        ensures exact { IfOk result (λ explorer. F.counted ≡ true → explorer.usage.limits
            ≡ limits_for start.now.rules.grain start.now.geometry (bound + more_of (X.edge.rounds_in choice))) }
    {
        match key_before::<F, X>(alloc, start, bound, choice, key)? {
            Some(last) => TreeExplorer::after(alloc, start, bound, choice, &last),
            None => TreeExplorer::start(alloc, start, bound, choice),
        }
    }

    /// An explorer that goes on after the key of a cursor, straight down along its path. It takes memory as one at the start
    /// does.
    ///
    /// # Errors
    ///
    /// The first of `OtherStart`, `OtherRules` (also for another choice), `OtherBound` and `CannotOccur` that holds of the
    /// cursor; `Memory`.
    pub fn resume(
        alloc: Global,
        start: &'a Start,
        bound: u8,
        choice: X::Choice,
        cursor: &X::Cursor,
    ) -> Result<TreeExplorer<'a, F, X>, ExploreError>
        requires { bound ≤ 16 }
        ensures resumes { Resumes X.subject (begun start.now) choice bound (X.fields cursor.now)
            result }
        ensures cheap { IfOk result (λ explorer. X.subject.IsCheap start.now.rules
            start.now.geometry bound explorer.usage.applied) }
        ensures exact { IfOk result (λ explorer. F.counted ≡ true → explorer.usage.limits
            ≡ limits_for start.now.rules.grain start.now.geometry (bound + more_of (X.edge.rounds_in choice))) }
    {
        let fields = X::fields(cursor);
        check_cursor::<X>(start, bound, choice, &fields)?;
        let mut explorer = TreeExplorer::after(alloc, start, bound, choice, &fields.key)?;
        explorer.digest = Some(fields.digest);
        Ok(explorer)
    }
}

impl<'a, F: Flash + Drop, X: Subject> TreeExplorer<'a, F, X> {
    /// Where to go on after the last row. Only here the start is hashed, where no cursor gave its digest.
    pub fn cursor(&self) -> X::Cursor
        ensures { (last : X.Key) → self.now.state.position ≡ After last → result
            ≡ X.subject.cursor self.now.state.start self.now.state.choice self.now.state.bound
            last }
    {
        let start = self.start;
        let digest = match self.digest {
            Some(digest) => digest,
            None => start.digest(),
        };
        X::cursor(Fields {
            rules: start.rules(),
            choice: self.choice,
            digest,
            bound: self.bound,
            key: X::key_of(&self.last),
        })
    }

    /// What the restart theorem says of each row.
    #[inline]
    pub(crate) fn restarts(&self)
        ensures { let rows = rows_of X.subject in let s = self.now.state in
            (row : X.Shown) → rows.IsRow s row → rows.Restarts s row }
    {
        X::restarts();
    }

    /// The next row, and none where there is no further one.
    ///
    /// # Errors
    ///
    /// `Memory` where the flash was refused memory; from then on always `Failed`.
    #[inline(always)]
    pub fn next_row(&mut self) -> Result<Option<X::Row>, ExploreError>
        // It is the first row past the position, and there is none exactly where no key is past it.
        ensures found { IfOk result (λ found. Finds X.subject self.old.state
            (option_map X.shown found)) }
        ensures moved { IfOk result (λ found. self.new.state ≡ state_after X.subject self.old.state
            (option_map X.shown found)) }
        // The restart theorem, for that row.
        ensures restarts { IfOk result (λ found. Restarts X.subject self.old.state
            (option_map X.shown found)) }
        // What it takes at most, and nothing where there is no row.
        ensures applied { IfOk result (λ found. self.new.usage.applied ≤ self.old.usage.applied
            + row_cost X.subject self.old.state (option_map X.shown found)) }
        // A flash that counts has enough memory. After an error the explorer has failed, and it stays so as it is.
        ensures explores { Explores F.counted self.old result self.new }
        ensures err { IfErr result (λ e. (e ≡ ExploreError.Memory) ⊎ (e ≡ ExploreError.Failed)) }
    {
        X::restarts();
        let _counted_up = self.rows.next()?;
        self.line.clear();
        let Some(row) = self.rows.row() else {
            return Ok(None);
        };
        self.last = row.cuts;
        Ok(Some(X::row(row)))
    }

    /// The flash as it is.
    pub fn flash(&self) -> &F
        ensures content { (F.seen result.now).content ≡ self.now.content }
        ensures usage { (F.seen result.now).usage ≡ self.now.usage }
        ensures marked { length (F.seen result.now).checkpoints ≡ self.now.marked }
    {
        self.rows.flash()
    }
}

// Whether a row comes before that key, if one is given.
#[inline]
fn comes_before<X: Subject>(row: &X::Row, until: &Option<X::Key>) -> bool
    ensures { (result ≡ true) ↔ IsBefore (rows_of X.subject) until.now
        (X.subject.key (X.shown row.now)) }
{
    match until {
        Some(key) => X::is_before(row, key),
        None => true,
    }
}

// The same of a row of boots.
#[inline]
fn is_shown<X: Subject>(row: &BootRow, until: &Option<X::Key>) -> bool
    ensures { (result ≡ true) ↔ IsBefore (rows_of X.subject) until.now
        (X.subject.key (X.edge.shown_of row.now)) }
{
    match until {
        Some(key) => X::is_before(&X::row(row), key),
        None => true,
    }
}

impl<'a, F: Flash + Drop, X: Subject> TreeExplorer<'a, F, X> {
    /// The next row, where it comes before that key, if one is given; none where it does not, or where there is no further row.
    ///
    /// # Errors
    ///
    /// `Memory` where the flash was refused memory; from then on always `Failed`.
    #[inline(always)]
    pub fn next_before(&mut self, until: &Option<X::Key>) -> Result<Option<X::Row>, ExploreError>
        ensures found { IfOk result (λ found. FindsBefore (rows_of X.subject) until.now
            self.old.state (option_map X.shown found) self.new.state) }
        ensures applied { let s = self.old.state.start in IfOk result (λ _. self.new.usage.applied
            ≤ self.old.usage.applied + X.subject.most_for_row s.rules s.geometry) }
        ensures explores { Explores F.counted self.old result self.new }
        ensures err { IfErr result (λ e. (e ≡ ExploreError.Memory) ⊎ (e ≡ ExploreError.Failed)) }
    {
        let found = self.next_row()?;
        if let Some(row) = &found {
            if !comes_before::<X>(row, until) {
                return Ok(None);
            }
        }
        Ok(found)
    }

    /// Writes the line of the next row, where that comes before that key, if one is given; whether it does, and there is one.
    ///
    /// # Errors
    ///
    /// `Memory` where the flash was refused memory; `Write` where a write fails or takes no bytes, and then a prefix of the line is out.
    /// Once the explorer has failed, `Failed`.
    #[inline(always)]
    pub(crate) fn write_next_row<W: Write>(
        &mut self,
        until: &Option<X::Key>,
        writer: &mut W,
    ) -> Result<bool, ExploreError>
        ensures writes { IfOk result (λ is. WritesRow (rows_of X.subject) until.now self.old.state
            is self.new.state (W.contents writer.old) (W.contents writer.new)) }
        ensures began { OnErr result (RowBegan (rows_of X.subject) until.now self.old.state
            (W.contents writer.old) (W.contents writer.new)) }
        ensures applied { let s = self.old.state.start in OnOk result (self.new.usage.applied
            ≤ self.old.usage.applied + X.subject.most_for_row s.rules s.geometry) }
        ensures leaves { LeavesExplorer F.counted self.old result self.new }
        ensures unwritten { IsErrOf result ExploreError.Failed → writer.new ≡ writer.old }
        ensures err { IfErr result (λ e. (e ≡ ExploreError.Memory) ⊎ (e ≡ ExploreError.Failed)
            ⊎ (e ≡ ExploreError.Write)) }
    {
        self.restarts();
        let counted_up = self.rows.next()?;
        let Some(row) = self.rows.row() else {
            self.line.clear();
            return Ok(false);
        };
        self.last = row.cuts;
        if !is_shown::<X>(row, until) {
            self.line.clear();
            return Ok(false);
        }
        self.line.turn_to::<X>(row, counted_up, &self.labels);
        write_text(writer, self.line.text.as_slice())?;
        Ok(true)
    }

    /// Writes the line that says where to go on after the last row, or a prefix of it.
    ///
    /// # Errors
    ///
    /// `Write` where a write fails or takes no bytes.
    pub(crate) fn write_next<W: Write>(&self, writer: &mut W) -> Result<(), ExploreError>
        ensures whole { let s = self.now.state in (last : X.Key) → s.position ≡ After last
            → OnOk result (Appends (W.contents writer.old) (W.contents writer.new)
            (last_line (rows_of X.subject) (Some (X.subject.cursor s.start s.choice s.bound
            last)))) }
        ensures prefix { let s = self.now.state in (last : X.Key) → s.position ≡ After last
            → OnErr result (AppendsPrefix (W.contents writer.old) (W.contents writer.new)
            (last_line (rows_of X.subject) (Some (X.subject.cursor s.start s.choice s.bound
            last)))) }
        ensures err { IfErr result (λ e. e ≡ ExploreError.Write) }
    {
        let cursor = self.cursor();
        let mut line = Line::new();
        line.put("next ");
        X::put_cursor(&cursor, &mut line);
        line.put("\n");
        write_text(writer, line.as_str().as_bytes())
    }

    /// Makes it one that failed, for a caller that could not write a row.
    pub(crate) fn mark_failed(&mut self)
        ensures lost { self.new.state.position ≡ Lost }
        ensures usage { self.new.usage ≡ self.old.usage }
        ensures still { self.old.state.position ≡ Lost → self.new ≡ self.old }
    {
        self.rows.mark_failed();
    }
}
