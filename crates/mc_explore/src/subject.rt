//! What is explored: a kind of rows, and how they are those of a tree of boots.
use crate::boot_row::{BootRow, Cuts};
use crate::labels::Labels;
use crate::rounds::{BootTree, Rounds};
use mc_boot::Outcome;
use mc_flash::Flash;
use mc_start::Line;
use mc_trailer::Rules;
use mc_walk::Walk;
use std::alloc::AllocError;

/// What a cursor says: where to go on, of a start (named by its digest) under some rules and a choice, with so many cuts at most.
#[derive(Clone, Copy)]
pub struct Fields<C, K> {
    pub rules: Rules,
    pub choice: C,
    pub digest: [u8; 32],
    pub bound: u8,
    pub key: K,
}

/// A kind of rows, each found by a key: those of the paths of a tree of boots, of so many rounds as a choice says.
pub trait Subject {
    ghost use Rattle.std.specs.Prelude.{◌≡◌, ◌≢◌, ◌↔◌, ℕ, ◌+◌, ◌<◌, ◌≤◌, Bool, List, [], length, ◌++◌, true, false, IfOk, OnOk};
    ghost use Rattle.mc_flash.specs.Geometry.{IsLayout};
    ghost use Rattle.mc_boot.specs.Outcome as outcomes;
    ghost use Rattle.mc_boot.specs.Plan.{PowerOn};
    ghost use Rattle.mc_start.specs.Start.{start_digest};
    ghost use Rattle.mc_explore.specs.Subject as subjects;
    ghost use Rattle.mc_explore.specs.declared.subject.Fields.{Fields as FieldsOf};
    ghost use Rattle.mc_explore.specs.inner.BootTree.{begins_of, model_of};
    ghost use Rattle.mc_explore.specs.inner.Exploring.{Edge, FollowsKey, IsCheapFor, IsFamily, NoAllocationFailed};

    ghost Shown: { Type 0 };

    /// What is chosen besides the start.
    type Choice: Copy;

    /// By what a row is found: the cuts along its path.
    type Key: Copy;

    /// A row.
    type Row: Copy;

    /// Where to go on.
    type Cursor: Copy;

    ghost subject: { subjects.Subject Self.Choice Self.Key Shown Self.Cursor };

    ghost edge: { Edge Self.Choice Self.Key Shown };

    ghost shown: { Self.Row → Shown };

    ghost fields: { Self.Cursor → FieldsOf Self.Choice Self.Key };

    /// In how many rounds the boots are, under a choice.
    fn rounds_of(choice: Self::Choice) -> Rounds
        ensures { result ≡ edge.rounds_in choice };

    /// Whether two choices are the same.
    fn is_choice(one: &Self::Choice, other: &Self::Choice) -> bool
        ensures yes { result ≡ true → one.now ≡ other.now }
        ensures no { result ≡ false → one.now ≢ other.now };

    /// The key of the cuts along a path.
    fn key_of(cuts: &Cuts) -> Self::Key
        ensures { result ≡ edge.key_in cuts.now };

    /// The row of a path.
    fn row(row: &BootRow) -> Self::Row
        ensures { shown result ≡ edge.shown_of row.now };

    /// Goes from the root along the path of a key, if it is one of those to go through.
    ///
    /// # Errors
    ///
    /// Where the flash was refused memory.
    fn follow<F: Flash>(
        walk: &mut Walk<F, BootTree<'_>>,
        choice: Self::Choice,
        key: &Self::Key,
    ) -> Result<bool, AllocError>
        requires stands { walk.old.stands ≡ true }
        requires root { walk.old.path ≡ [] }
        requires valid { IsLayout (begins_of walk.old.flash_tree).geometry }
        requires rounds { walk.old.flash_tree.rounds ≡ edge.rounds_in choice }
        ensures follows { IfOk result (λ went. FollowsKey subject edge choice walk.old key.now went
            walk.new) }
        ensures no_allocation_failed { OnOk result (NoAllocationFailed walk.old.seen
            walk.new.seen) }
        ensures cheap { IfOk result (λ went. went ≡ true → walk.old.seen.usage.applied
            ≤ (model_of walk.old.flash_tree).all.entries → IsCheapFor subject walk.old
            walk.new.seen.usage.applied) };

    /// The key of a row.
    fn key(row: &Self::Row) -> Self::Key
        ensures { result ≡ subject.key (shown row.now) };

    /// How a row ends, by which rows are counted.
    fn end(row: &Self::Row) -> Outcome
        ensures { outcomes.shown result ≡ subject.ends (shown row.now) };

    /// Whether a row comes before a key, in their order.
    fn is_before(row: &Self::Row, key: &Self::Key) -> bool
        ensures { (result ≡ true) ↔ subject.Before (subject.key (shown row.now)) key.now };

    /// What the restart theorem says of the rows.
    fn restarts()
        ensures { (start : PowerOn) (c : Self.Choice) (row : Shown)
            → subject.HasOutcome start c row → subject.Restarts start c row };

    /// What a cursor says.
    fn fields(cursor: &Self::Cursor) -> Fields<Self::Choice, Self::Key>
        ensures { result ≡ fields cursor.now };

    /// The cursor that says so.
    fn cursor(says: Fields<Self::Choice, Self::Key>) -> Self::Cursor
        ensures { (start : PowerOn) → says.rules ≡ start.rules
            → says.digest ≡ start_digest start → result
            ≡ subject.cursor start says.choice says.bound says.key };

    /// Puts the text of a row into an empty line, where there is room for it and more. How many bytes of it are those of its key.
    fn put_row(row: &Self::Row, line: &mut Line, labels: &Labels) -> usize
        requires { line.old ≡ [] }
        ensures key { result ≡ length (subject.key_text (subject.key (shown row.now))) }
        ensures text { line.new ≡ subject.row_text (shown row.now) }
        ensures length { length line.new < 512 };

    /// Adds the text of a key to a line.
    fn put_key(key: &Self::Key, line: &mut Line)
        requires { length line.old + 208 ≤ 512 }
        ensures text { line.new ≡ line.old ++ subject.key_text key.now }
        ensures length { length line.new ≤ length line.old + 208 };

    /// Adds the text of a cursor to a line.
    fn put_cursor(cursor: &Self::Cursor, line: &mut Line)
        requires { length line.old + 303 ≤ 512 }
        ensures text { line.new ≡ line.old ++ subject.cursor_text cursor.now }
        ensures length { length line.new ≤ length line.old + 303 };

    ghost laws: { IsFamily subject edge };
}
