//! Goes through the schedules of power cuts, one after another.
ghost use Rattle.std.specs.Prelude.{◌≡◌, ◌+◌, ◌*◌, ◌≤◌, true, length, IfOk, IfErr, IfSome, ◌⊎◌};
ghost use Rattle.mc_flash.specs.Usage.{limits_for, most_operations};
ghost use Rattle.mc_start.specs.Cursor.{cursor_of};
ghost use Rattle.mc_start.specs.Start.{begun};
ghost use Rattle.mc_explore.specs.Rows.{row_cost, Finds, state_after, RowRestarts, Resumes, shown_row, at_start};
ghost use Rattle.mc_explore.specs.Subject.{Explores};

use crate::error::ExploreError;
use crate::row::Row;
use crate::schedules::Schedules;
use crate::tree_explorer::TreeExplorer;
use mc_flash::Flash;
use mc_start::{Cursor, Schedule, Start};
use std::alloc::Global;
use std::marker::Model;

/// Goes through all schedules of at most so many cuts that can occur, in their order, each with its outcome, over one
/// flash.
#[derive(Drop)]
pub struct Explorer<'a, F: Flash> {
    pub(crate) inner: TreeExplorer<'a, F, Schedules>,
}

impl<'a, F: Flash> Model for Explorer<'a, F> {
    ghost use Rattle.mc_explore.specs.Rows.{Explored};

    ghost Value = { Explored };

    ghost view = { λ e. e.inner };
}

impl<'a, F: Flash + Drop> Explorer<'a, F> {
    /// An explorer at the start. It takes its own memory here, and none later but through the flash, which it loads for
    /// one boot more than there are cuts.
    /// Promised, also of `TreeExplorer::start`: an explorer begins with all rows to come (`ok`).
    /// Promised, also of `after`, `resume` and `next_row`: `(k+1) L` entries, `(k+1) (3T + 3 nmax) sector` bytes, `k+2` checkpoints at most
    /// (`exact`, `limits`).
    /// Promised, also of `after` and `resume`: no operation at the start, at most `2 (k+1) L` to go on (`applied`).
    ///
    /// # Errors
    ///
    /// `Memory` where an allocation failed.
    pub fn start(
        alloc: Global,
        start: &'a Start,
        bound: u8,
    ) -> Result<Explorer<'a, F>, ExploreError>
        requires { bound ≤ 16 }
        ensures ok { IfOk result (λ explorer. explorer.state ≡ at_start (begun start.now) bound) }
        // No operation is done yet, and a flash that counts has room for exactly so many boots.
        ensures applied { IfOk result (λ explorer. explorer.usage.applied ≡ 0) }
        ensures exact { IfOk result (λ explorer. F.counted ≡ true → explorer.usage.limits
            ≡ limits_for start.now.rules.grain start.now.geometry (bound + 1)) }
        ensures err { IfErr result (λ e. e ≡ ExploreError.Memory) }
    {
        let inner = TreeExplorer::start(alloc, start, bound, ())?;
        Ok(Explorer { inner })
    }

    /// An explorer that goes on after a schedule, straight down along its cuts. It takes memory as one at the start does.
    /// Promised, also of `TreeExplorer::after`: goes on after a key, as after its cursor (`resumes`).
    ///
    /// # Errors
    ///
    /// `CannotOccur` where it is none of the schedules to go through; `Memory`.
    pub fn after(
        alloc: Global,
        start: &'a Start,
        bound: u8,
        last: &Schedule,
    ) -> Result<Explorer<'a, F>, ExploreError>
        requires { bound ≤ 16 }
        ensures resumes { Resumes (begun start.now) bound
            (cursor_of (begun start.now) bound last.now) result }
        // It takes at most two boots a cut, and one.
        ensures applied { IfOk result (λ explorer. explorer.usage.applied ≤ 2 * (bound + 1)
            * most_operations start.now.rules.grain start.now.geometry) }
        ensures exact { IfOk result (λ explorer. F.counted ≡ true → explorer.usage.limits
            ≡ limits_for start.now.rules.grain start.now.geometry (bound + 1)) }
    {
        let inner = TreeExplorer::after(alloc, start, bound, (), last)?;
        Ok(Explorer { inner })
    }

    /// An explorer that goes on after the schedule of a cursor, straight down along its cuts. It takes memory as one at
    /// the start does.
    /// Promised, also of `TreeExplorer::resume`: goes on after a cursor; else the first of 56, 61, 57, 58 (`resumes`).
    ///
    /// # Errors
    ///
    /// The first of `OtherStart`, `OtherRules`, `OtherBound` and `CannotOccur` that holds of the cursor; `Memory`.
    pub fn resume(
        alloc: Global,
        start: &'a Start,
        bound: u8,
        cursor: &Cursor,
    ) -> Result<Explorer<'a, F>, ExploreError>
        requires { bound ≤ 16 }
        ensures resumes { Resumes (begun start.now) bound cursor.now result }
        // It takes at most two boots a cut, and one.
        ensures applied { IfOk result (λ explorer. explorer.usage.applied ≤ 2 * (bound + 1)
            * most_operations start.now.rules.grain start.now.geometry) }
        ensures exact { IfOk result (λ explorer. F.counted ≡ true → explorer.usage.limits
            ≡ limits_for start.now.rules.grain start.now.geometry (bound + 1)) }
    {
        let inner = TreeExplorer::resume(alloc, start, bound, (), cursor)?;
        Ok(Explorer { inner })
    }

    /// The row of the next schedule, and none where there is no further one.
    /// Promised, also of `TreeExplorer::next_row`: the first row past the position, or none (`found`, `moved`).
    /// Promised, also of `TreeExplorer::next_row`: 52 only if the flash does not count; then 54 for ever (`explores`, `Explores`, `err`).
    /// Promised, also of `TreeExplorer::next_row`: a row adds at most `L + 2`; in two rounds `2 L + 3` with the confirmation (`applied`).
    /// Promised, also of `TreeExplorer::next_row`: `next_row` takes no memory and never returns 52 (`explores`, `cause`).
    ///
    /// # Errors
    ///
    /// `Memory` where the flash was refused memory, which one that counts never is; from then on always `Failed`.
    pub fn next_row(&mut self) -> Result<Option<Row>, ExploreError>
        // It is the first row past the position, and there is none exactly where no schedule is past it.
        ensures found { IfOk result (λ found. Finds self.old.state found) }
        ensures moved { IfOk result (λ found. self.new.state ≡ state_after self.old.state found) }
        // The restart theorem, for that row.
        ensures restarts { IfOk result (λ found. IfSome found
            (λ row. RowRestarts self.old.state.start (shown_row row))) }
        // It takes at most one boot and two operations, and none where there is no row.
        ensures applied { IfOk result (λ
            found. self.new.usage.applied ≤ self.old.usage.applied + row_cost
            self.old.state.start.rules self.old.state.start.geometry found) }
        // A flash that counts has enough memory. After an error the explorer has failed, and it stays so as it is.
        ensures explores { Explores F.counted self.old result self.new }
        ensures err { IfErr result (λ e. (e ≡ ExploreError.Memory) ⊎ (e ≡ ExploreError.Failed)) }
    {
        self.inner.next_row()
    }

    /// The flash as it is.
    pub fn flash(&self) -> &F
        ensures content { (F.seen result.now).content ≡ self.now.content }
        ensures usage { (F.seen result.now).usage ≡ self.now.usage }
        ensures marked { length (F.seen result.now).checkpoints ≡ self.now.marked }
    {
        self.inner.flash()
    }
}
