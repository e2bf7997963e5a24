//! The rows of an exploration, one after another.
ghost use Rattle.std.specs.Prelude.{◌≡◌, ℕ, List, ◌≤◌, [], false, true, option_map, None, Ok, IfOk, IfSome, OnOk};
ghost use Rattle.mc_tree.specs.Tree.{Position};
ghost use Rattle.mc_walk.specs.Walks.{Costs, Visits, IsFresh};
ghost use Rattle.mc_explore.specs.inner.BootRows.{AreKeptOf, IsRowIn};
ghost use Rattle.mc_explore.specs.inner.BootTree.{model_of};
ghost use Rattle.mc_explore.specs.inner.Exploring.{CostsRow, FindsRow, IsCountedUp, IsWithin, StandsFor, TakesCountedUp};

use crate::ahead::RowsAhead;
use crate::at_cuts::AtCuts;
use crate::boot_row::{BootRow, Ends};
use crate::last_cuts::{row_ahead, tell};
use crate::rounds::BootTree;
use mc_flash::Flash;
use mc_start::Schedule;
use mc_walk::{Phase, Tour, TourError, Walk};
use std::marker::Model;

/// Goes through the rows of a tree of boots over one flash. Those after a node that can be found without the flash are found so.
#[derive(Drop)]
pub struct Rows<'a, F: Flash> {
    tour: Tour<F, BootTree<'a>>,
    // The path at which the tour stands.
    path: Schedule,
    kept: AtCuts<Ends>,
    // The last row, where there was one.
    row: Option<BootRow>,
    // The rows after that path, where they are found without the flash.
    ahead: Option<RowsAhead>,
}

impl<'a, F: Flash> Model for Rows<'a, F> {
    ghost use Rattle.mc_explore.specs.declared.boot_row.BootRow.{BootRow as Row};
    ghost use Rattle.mc_explore.specs.declared.rounds.BootTree.{BootTree as Boots};
    ghost use Rattle.mc_explore.specs.inner.BootRows.{AreAhead, AreKeptOf, IsRowIn, counted_up};
    ghost use Rattle.mc_explore.specs.inner.BootTree.{model_of};
    ghost use Rattle.mc_explore.specs.inner.Exploring.{last_of, IsRowing, Rowed};

    ghost Value = { Rowed Boots Row };

    ghost view = { λ rows. record {
      walk = rows.tour.walk;
      phase = rows.tour.phase;
      last = last_of rows.path rows.ahead;
      row = rows.row;
    } };

    ghost invariant = { λ rows. IsRowing model_of IsRowIn counted_up AreKeptOf AreAhead rows.tour
        rows.kept rows.path rows.ahead rows.row };
}

// Makes the last row the next one, where that is known to be the same with its last cut counted up.
#[inline]
fn count_up(row: &mut Option<BootRow>, ahead: &mut Option<RowsAhead>) -> bool
    requires { IfSome ahead.old IsWithin }
    ensures next { result ≡ true → TakesCountedUp ahead.old ahead.new }
    ensures counted { result ≡ true → IsCountedUp row.old row.new }
    ensures same { result ≡ false → (row.new ≡ row.old) × (ahead.new ≡ ahead.old) }
{
    let Some(rows) = ahead else {
        return false;
    };
    // They are no more than there are.
    let _count = rows.count;
    if rows.counted_up == 0 {
        return false;
    }
    let Some(row) = row else {
        return false;
    };
    if !row.count_up() {
        return false;
    }
    rows.counted_up -= 1;
    rows.next += 1;
    true
}

// Goes on to the next node: from where a tour stands, or after all children of that node.
fn next_node<F: Flash>(tour: &mut Tour<F, BootTree<'_>>, is_beyond: bool) -> Result<bool, TourError>
    ensures visits { IfOk result (λ went. (position : Position (List ℕ))
        → StandsFor model_of is_beyond tour.old position
        → Visits (model_of tour.old.walk.flash_tree) tour.old position went tour.new) }
    ensures costs { Costs (model_of tour.old.walk.flash_tree) tour.old result tour.new }
{
    if is_beyond {
        tour.leave()
    } else {
        tour.visit()
    }
}

impl<'a, F: Flash + Drop> Rows<'a, F> {
    /// From the root.
    pub fn fresh(walk: Walk<F, BootTree<'a>>, kept: AtCuts<Ends>) -> Rows<'a, F>
        requires fresh { IsFresh (model_of walk.flash_tree) walk }
        requires at_most { walk.bound ≤ 16 }
        requires kept { AreKeptOf walk.flash_tree kept }
        ensures { result ≡ record {
          walk = walk.entry;
          phase = Phase.Fresh;
          last = [];
          row = None;
        } }
    {
        let tour = Tour::fresh(walk);
        Rows {
            tour,
            path: Schedule::new(),
            kept,
            row: None,
            ahead: None,
        }
    }

    /// After the path along which a walk came.
    pub fn after(walk: Walk<F, BootTree<'a>>, kept: AtCuts<Ends>) -> Rows<'a, F>
        requires stands { walk.stands ≡ true }
        requires at_most { walk.bound ≤ 16 }
        requires kept { AreKeptOf walk.flash_tree kept }
        ensures { result ≡ record {
          walk = walk.entry;
          phase = Phase.Going;
          last = walk.entry.path;
          row = None;
        } }
    {
        let path = Schedule::of(walk.path().as_slice());
        Rows {
            tour: Tour::after(walk),
            path,
            kept,
            row: None,
            ahead: None,
        }
    }

    // Goes on to the next row where that is known to be the last one with its last cut counted up.
    #[inline]
    fn count_up(&mut self) -> bool
        ensures finds { result ≡ true → FindsRow model_of IsRowIn self.old self.new.row
            self.new }
        ensures counted { result ≡ true → IsCountedUp self.old.row self.new.row }
        ensures costs { result ≡ true → CostsRow model_of self.old (Ok true) self.new }
        ensures same { result ≡ false → self.new ≡ self.old }
    {
        count_up(&mut self.row, &mut self.ahead)
    }

    // Goes on to the next row, if there is one.
    fn go_on(&mut self) -> Result<(), TourError>
        ensures finds { OnOk result (FindsRow model_of IsRowIn self.old self.new.row
            self.new) }
        ensures costs { CostsRow model_of self.old result self.new }
    {
        if let Some(rows) = &mut self.ahead
            && rows.next < rows.count
        {
            let flash_tree = self.tour.walk().flash_tree();
            self.row = row_ahead(&flash_tree, &self.kept, &self.path, rows);
            return Ok(());
        }
        if !next_node(&mut self.tour, self.ahead.is_some())? {
            self.row = None;
            return Ok(());
        }
        let walk = self.tour.walk();
        let path = Schedule::of(walk.path().as_slice());
        let row = BootRow::at(walk, &path);
        self.ahead = tell(&mut self.kept, walk, &path, &row);
        self.path = path;
        self.row = Some(row);
        Ok(())
    }

    /// Goes on to the next row, if there is one. Whether that is known to be the last one with its last cut counted up.
    ///
    /// # Errors
    ///
    /// `Memory` where the flash was refused memory; from then on always `Failed`.
    #[inline(always)]
    pub fn next(&mut self) -> Result<bool, TourError>
        ensures finds { OnOk result (FindsRow model_of IsRowIn self.old self.new.row
            self.new) }
        ensures counted { IfOk result (λ is. is ≡ true → IsCountedUp self.old.row
            self.new.row) }
        ensures costs { CostsRow model_of self.old result self.new }
    {
        if self.count_up() {
            return Ok(true);
        }
        self.go_on()?;
        Ok(false)
    }

    /// The row at which it stands, if there is one.
    #[inline]
    pub fn row(&self) -> Option<&BootRow>
        ensures { option_map (λ row. row.now) result ≡ self.now.row }
    {
        self.row.as_ref()
    }

    /// The flash as it is.
    pub fn flash(&self) -> &F
        ensures { F.seen result.now ≡ self.now.walk.seen }
    {
        self.tour.walk().flash()
    }

    /// Makes it one that failed.
    pub fn mark_failed(&mut self)
        ensures { self.new ≡ record {
          walk = self.old.walk;
          phase = Phase.Broken;
          last = self.new.last;
          row = self.old.row;
        } }
    {
        self.ahead = None;
        self.tour.mark_failed();
    }
}
