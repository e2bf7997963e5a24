//! Schedules, as what an explorer goes through.
use crate::boot_row::{BootRow, Cuts};
use crate::labels::Labels;
use crate::rounds::{BootTree, Rounds};
use crate::row::Row;
use crate::subject::{Fields, Subject};
use mc_boot::{Outcome, restart_law};
use mc_flash::Flash;
use mc_start::{Cursor, Line, Schedule};
use mc_walk::Walk;
use std::alloc::AllocError;

/// Schedules of power cuts: the paths of one round of boots.
pub struct Schedules;

impl Subject for Schedules {
    ghost use Rattle.std.specs.Prelude.{◌≡◌, ◌≢◌, ◌↔◌, ◌++◌, ◌+◌, ◌<◌, ◌≤◌, [], length, true, false};
    ghost use Rattle.mc_boot.specs.Outcome.{shown};
    ghost use Rattle.mc_boot.specs.Plan.{PowerOn};
    ghost use Rattle.mc_tree.specs.Tree.{Precedes};
    ghost use Rattle.mc_start.specs.Cursor.{cursor_of};
    ghost use Rattle.mc_start.specs.Start.{schedule_text, start_digest};
    ghost use Rattle.mc_explore.specs.Rows.{fields_of, subject};
    ghost use Rattle.mc_explore.specs.Rows as states;
    ghost use Rattle.mc_explore.specs.facts.Keys.{edge, schedules_are_family};

    ghost Shown = { states.ShownRow };

    type Choice = ();

    type Key = Schedule;

    type Row = Row;

    type Cursor = Cursor;

    ghost subject = { subject };

    ghost edge = { edge };

    ghost shown = { states.shown_row };

    ghost fields = { fields_of };

    fn rounds_of(_choice: ()) -> Rounds {
        Rounds::One
    }

    fn is_choice(one: &(), other: &()) -> bool
        ensures yes { result ≡ true → one.now ≡ other.now }
        ensures no { result ≡ false → one.now ≢ other.now }
    {
        *one == *other
    }

    #[inline]
    fn key_of(cuts: &Cuts) -> Schedule
        ensures { result ≡ cuts.now.numbers }
    {
        cuts.numbers
    }

    #[inline]
    fn row(row: &BootRow) -> Row
        ensures { states.shown_row result ≡ edge.shown_of row.now }
    {
        Row {
            schedule: row.cuts.numbers,
            outcome: row.ends.last,
        }
    }

    fn follow<F: Flash>(
        walk: &mut Walk<F, BootTree<'_>>,
        _choice: (),
        key: &Schedule,
    ) -> Result<bool, AllocError> {
        let went = walk.follow(key.cuts())?;
        Ok(went)
    }

    #[inline]
    fn key(row: &Row) -> Schedule
        ensures { result ≡ (states.shown_row row.now).schedule }
    {
        row.schedule
    }

    #[inline(always)]
    fn end(row: &Row) -> Outcome
        ensures { shown result ≡ (states.shown_row row.now).outcome }
    {
        row.outcome
    }

    #[inline]
    fn is_before(row: &Row, key: &Schedule) -> bool
        ensures { (result ≡ true) ↔ Precedes (states.shown_row row.now).schedule key.now }
    {
        row.schedule.is_before(key)
    }

    fn restarts() {
        restart_law();
    }

    fn fields(cursor: &Cursor) -> Fields<(), Schedule>
        ensures { result ≡ fields_of cursor.now }
    {
        let digest = cursor.digest;
        Fields {
            rules: cursor.rules,
            choice: (),
            digest,
            bound: cursor.bound,
            key: cursor.schedule,
        }
    }

    fn cursor(says: Fields<(), Schedule>) -> Cursor
        ensures { (start : PowerOn) → says.rules ≡ start.rules
            → says.digest ≡ start_digest start → result ≡ cursor_of start says.bound says.key }
    {
        let digest = says.digest;
        Cursor {
            rules: says.rules,
            digest,
            bound: says.bound,
            schedule: says.key,
        }
    }

    fn put_row(row: &Row, line: &mut Line, labels: &Labels) -> usize
        requires { line.old ≡ [] }
        ensures key { result ≡ length (schedule_text (states.shown_row row.now).schedule) }
        ensures text { line.new ≡ subject.row_text (states.shown_row row.now) }
        ensures length { length line.new < 512 }
    {
        row.put_into(line, labels)
    }

    fn put_key(key: &Schedule, line: &mut Line)
        requires { length line.old + 208 ≤ 512 }
        ensures text { line.new ≡ line.old ++ subject.key_text key.now }
        ensures length { length line.new ≤ length line.old + 208 }
    {
        key.put_into(line);
    }

    fn put_cursor(cursor: &Cursor, line: &mut Line)
        requires { length line.old + 303 ≤ 512 }
        ensures text { line.new ≡ line.old ++ subject.cursor_text cursor.now }
        ensures length { length line.new ≤ length line.old + 303 }
    {
        cursor.put_into(line);
    }

    ghost laws = { schedules_are_family };
}
