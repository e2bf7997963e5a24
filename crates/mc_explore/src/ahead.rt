//! Rows that are found without the flash.
ghost use Rattle.std.specs.Prelude.{◌≡◌, ◌<◌, ◌≤◌, length};
ghost use Rattle.mc_explore.specs.inner.BootRows.{cut_at, first_there, left_in_round, one_cut_more};

use crate::boot_row::{Cuts, Ends};
use crate::rounds::Round;
use mc_boot::{Outcome, SharedTail};

/// By what the rows of the children of a node are found.
#[derive(Clone, Copy)]
pub struct Ahead {
    pub shared_tail: SharedTail,
    /// The cuts along the path to the node.
    pub cuts: Cuts,
    /// How many of the children lie in the first of two rounds.
    pub in_first: u32,
    /// How the first round ends where the last cut is not in it.
    pub first: Option<Outcome>,
}

/// The rows of the children of a node, the last of their path, that are found without the flash.
#[derive(Clone, Copy)]
pub struct RowsAhead {
    /// By what they are found.
    pub ahead: Ahead,
    /// How many children the node has.
    pub count: u32,
    /// The next child.
    pub next: u32,
    /// Where the row of the next child is looked for first.
    pub near: usize,
    /// How many of the next rows are the one before with its last cut counted up.
    pub counted_up: u32,
}

impl Ahead {
    // The cuts along the path to the child of that number.
    #[inline]
    pub(crate) fn cuts_of(&self, number: u32) -> Cuts
        requires short { length self.now.cuts.numbers < 16 }
        requires few { self.now.cuts.in_first ≤ 16 }
        ensures { result ≡ one_cut_more self.now.cuts (cut_at self.now.in_first number) }
    {
        if number < self.in_first {
            self.cuts.with(Round::First.number(), number)
        } else {
            let later = number - self.in_first;
            self.cuts.with(Round::Second.number(), later)
        }
    }

    // How many of the last cuts from that one on, of so many in all, lie in the same round.
    #[inline]
    pub(crate) fn left_in_round(&self, number: u32, count: u32) -> u32
        ensures { result ≡ left_in_round self.now.in_first number count }
    {
        if number < self.in_first {
            self.in_first.min(count).saturating_sub(number)
        } else {
            count.saturating_sub(number)
        }
    }

    // How the rounds end there, as it was told.
    #[inline]
    pub(crate) fn ends_of(&self, number: u32, told: &Ends) -> Ends
        ensures first { result.first ≡ first_there self.now told.now number }
        ensures last { result.last ≡ told.now.last }
    {
        let first = if number < self.in_first {
            told.first
        } else {
            self.first
        };
        Ends {
            first,
            last: told.last,
        }
    }
}
