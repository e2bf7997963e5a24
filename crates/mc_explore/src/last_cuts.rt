//! The rows after last cuts that are told by those at the cuts of another boot.
ghost use Rattle.std.specs.Prelude.{◌≡◌, ◌+◌, ◌++◌, ◌∷◌, ◌<◌, ◌≤◌, ◌^◌, [], length, IfSome, IsSomeAnd, true};
ghost use Rattle.mc_explore.specs.inner.BootRows.{AreAhead, AreKeptOf, AreLikePaths, EndSoAt, IsRowIn, counted_up};
ghost use Rattle.mc_explore.specs.declared.rounds.BootTree.{BootTree as Boots};
ghost use Rattle.mc_explore.specs.inner.BootTree.{model_of};
ghost use Rattle.mc_explore.specs.inner.Exploring.{AreAllowed, AreCountedUp, AreFresh, IsWithin, one_taken};
ghost use Rattle.mc_explore.specs.inner.LastCuts.{AreLastCuts, AreTold, IsToldLast};
ghost use Rattle.mc_walk.specs.Walks.{IsPath};

use crate::ahead::{Ahead, RowsAhead};
use crate::at_cuts::{AtCuts, Joined, MOST_COUNT};
use crate::boot_row::{BootRow, Ends};
use crate::rounds::BootTree;
use mc_boot::{ImageId, Outcome, SharedTail};
use mc_flash::Flash;
use mc_start::Schedule;
use mc_walk::{FlashTree, Walk};

/// Whether two images are the same.
fn is_same_image(one: &ImageId, other: &ImageId) -> bool
    ensures { result ≡ true → one.now ≡ other.now }
{
    one.version == other.version && one.size == other.size && one.digest == other.digest
}

/// Whether two slots hold the same image, or none.
fn hold_same(one: &Option<ImageId>, other: &Option<ImageId>) -> bool
    ensures { result ≡ true → one.now ≡ other.now }
{
    match (one, other) {
        (Some(one), Some(other)) => is_same_image(one, other),
        (None, None) => true,
        _ => false,
    }
}

/// Whether two outcomes are the same.
fn is_same_outcome(one: &Outcome, other: &Outcome) -> bool
    ensures { result ≡ true → one.now ≡ other.now }
{
    one.ops == other.ops
        && one.result == other.result
        && one.kind == other.kind
        && one.next == other.next
        && hold_same(&one.primary, &other.primary)
        && hold_same(&one.secondary, &other.secondary)
}

// Whether two first rounds end alike, or there is none.
fn is_same_first(one: &Option<Outcome>, other: &Option<Outcome>) -> bool
    ensures { result ≡ true → one.now ≡ other.now }
{
    match (one, other) {
        (Some(one), Some(other)) => is_same_outcome(one, other),
        (None, None) => true,
        _ => false,
    }
}

/// Whether the rounds end alike.
fn is_same(one: &Ends, other: &Ends) -> bool
    ensures { result ≡ true → one.now ≡ other.now }
{
    is_same_outcome(&one.last, &other.last) && is_same_first(&one.first, &other.first)
}

// The last steps after the path of a walk, where its node's children lie among those of its parent, and all is kept that is told of
// these. Where it is not, what is told of its own children is kept.
fn find_last_cuts<F: Flash>(
    kept: &mut AtCuts<Ends>,
    walk: &Walk<F, BootTree<'_>>,
    path: &[u32],
) -> Option<(SharedTail, u32)>
    requires stands { walk.now.stands ≡ true }
    requires path { path.now ≡ walk.now.path }
    requires at_most { length path.now ≤ 16 }
    ensures kept { AreKeptOf walk.now.flash_tree kept.old
        → AreKeptOf walk.now.flash_tree kept.new }
    ensures cuts { let t = walk.now.flash_tree in IfSome result
        (λ found. AreLastCuts (model_of t) (AreLikePaths t) (EndSoAt t) path.now kept.new found.0
        found.1) }
{
    kept.joined = None;
    let step = walk.last_step()?;
    let (_, parent_path) = path.split_last()?;
    let flash_tree = walk.flash_tree();
    let summary = walk.summary();
    let count = flash_tree.width(summary);
    if count == 0 || count > MOST_COUNT {
        return None;
    }
    let shared_tail = flash_tree.tail_of(walk.flash(), &step.at, &step.parent, summary)?;
    kept.turn_to(parent_path);
    if !kept.has_all(&shared_tail, flash_tree.width(&step.parent)) {
        let path = Schedule::of(path);
        kept.joined = Some(Joined { path, shared_tail });
        return None;
    }
    Some((shared_tail, count))
}

/// Whether the same was surely told of the last of those cuts.
fn is_told_last(kept: &AtCuts<Ends>, told: &Ends) -> bool
    ensures { result ≡ true → IsToldLast kept.now told.now }
{
    match kept.told.last() {
        Some(run) => is_same(&run.of, told),
        None => false,
    }
}

/// Keeps what is told at the cut after those of which something is kept.
fn keep_next(kept: &mut AtCuts<Ends>, told: Ends)
    requires { kept.old.count < 2 ^ 31 }
    ensures kept { (t : Boots) → AreTold (EndSoAt t) kept.old
        → EndSoAt t (kept.old.parent_path ++ (kept.old.first + kept.old.count) ∷ []) told
        → AreTold (EndSoAt t) kept.new }
    ensures path { kept.new.parent_path ≡ kept.old.parent_path }
    ensures joined { kept.new.joined ≡ kept.old.joined }
{
    if is_told_last(kept, &told) {
        kept.count += 1;
    } else {
        kept.begin_run(told);
    }
}

/// Keeps what is told at a cut of its boot: with what is kept where it comes next, and else by itself.
fn keep(kept: &mut AtCuts<Ends>, index: u32, told: Ends)
    ensures kept { (t : Boots) → AreTold (EndSoAt t) kept.old
        → EndSoAt t (kept.old.parent_path ++ index ∷ []) told → AreTold (EndSoAt t) kept.new }
    ensures path { kept.new.parent_path ≡ kept.old.parent_path }
    ensures joined { kept.new.joined ≡ kept.old.joined }
{
    if index >= MOST_COUNT || kept.has(index) {
        return;
    }
    if u64::from(index) == kept.end() {
        return keep_next(kept, told);
    }
    kept.clear_at(index);
    kept.begin_run(told);
}

/// Keeps how the rounds end where a walk came to, with that row, and finds the rows after that path which are told without the flash.
pub(crate) fn tell<F: Flash>(
    kept: &mut AtCuts<Ends>,
    walk: &Walk<F, BootTree<'_>>,
    path: &Schedule,
    row: &BootRow,
) -> Option<RowsAhead>
    requires stands { walk.now.stands ≡ true }
    requires path { path.now ≡ walk.now.path }
    requires listed { IsPath (model_of walk.now.flash_tree) walk.now walk.now.path }
    requires row { IsRowIn walk.now.flash_tree walk.now.path row.now }
    ensures kept { AreKeptOf walk.now.flash_tree kept.old
        → AreKeptOf walk.now.flash_tree kept.new }
    ensures ahead { IfSome result (AreFresh model_of AreAhead walk.now kept.new path.now) }
{
    let cuts = path.cuts();
    if cuts.len() == walk.bound() {
        let index = kept.index_of(cuts)?;
        keep(kept, index, row.ends);
        return None;
    }
    if cuts.len() + 1 != walk.bound() {
        return None;
    }
    let (shared_tail, count) = find_last_cuts(kept, walk, cuts)?;
    let ahead = Ahead {
        shared_tail,
        cuts: row.cuts,
        in_first: walk.summary().first_width(),
        first: row.ends.first,
    };
    Some(RowsAhead {
        ahead,
        count,
        next: 0,
        near: 0,
        counted_up: 0,
    })
}

/// The next of those rows, which is there wherever rows are found ahead; then one less is to come, and it is known how many of the
/// next ones are that row with its last cut counted up.
#[inline]
pub(crate) fn row_ahead(
    flash_tree: &BootTree<'_>,
    kept: &AtCuts<Ends>,
    path: &Schedule,
    rows: &mut RowsAhead,
) -> Option<BootRow>
    requires short { length path.now < 16 }
    requires some { rows.old.next < rows.old.count }
    requires kept { AreKeptOf flash_tree.now kept.now }
    requires are { AreAhead flash_tree.now kept.now path.now rows.old.ahead rows.old.count }
    requires allowed { AreAllowed (model_of flash_tree.now) path.now rows.old.count }
    ensures row { IsSomeAnd result (λ row. IsRowIn flash_tree.now
        (path.now ++ rows.old.next ∷ []) row
        × AreCountedUp IsRowIn counted_up flash_tree.now path.now row rows.new) }
    ensures next { rows.new ≡ one_taken rows.old rows.new.near rows.new.counted_up }
    ensures within { IsWithin rows.new }
{
    let number = rows.next;
    rows.next += 1;
    rows.counted_up = 0;
    let (told, alike) = kept.find(&rows.ahead.shared_tail, number, &mut rows.near)?;
    let cuts = rows.ahead.cuts_of(number);
    let ends = rows.ahead.ends_of(number, told);
    let left = rows.ahead.left_in_round(number, rows.count);
    rows.counted_up = alike.min(left.saturating_sub(1));
    Some(BootRow { cuts, ends })
}
