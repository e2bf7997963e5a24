//! Runs of sectors that go on with one another, and their words.
ghost use Rattle.std.specs.Prelude.{◌≡◌, ◌+◌, ◌<◌, ◌≤◌, ◌++◌, length};
ghost use Rattle.mc_trace.specs.Runs.{goes_on, is_again, joins, letter_in, one_more, reach_text, rises_to, run_of, run_word, sector_in, takes};

use crate::cells::{Cell, Words};
use mc_flash::Slot;
use mc_output::{Line, MOST_LINE};

/// Cells that go on with one another: the first of them, how many they are, whether each holds what the next sector of the start held
/// or all hold the same, and whether it is one in a frame.
#[derive(Clone, Copy, Debug, PartialEq, Eq)]
pub struct Run {
    pub first: Cell,
    pub count: u32,
    pub rises: bool,
    pub framed: bool,
}

// Whether a cell holds the same as another.
fn is_again(first: Cell, cell: Cell) -> bool
    ensures { result ≡ is_again first cell }
{
    match (first, cell) {
        (Cell::Blank, Cell::Blank) | (Cell::Trailer, Cell::Trailer) | (Cell::Other, Cell::Other) =>
            true,
        (Cell::Held(Slot::Primary, sector), Cell::Held(Slot::Primary, next))
        | (Cell::Held(Slot::Secondary, sector), Cell::Held(Slot::Secondary, next)) => {
            sector == next
        }
        _ => false,
    }
}

// Whether a cell holds what the start's sector held that comes so many after that of another.
fn rises_to(first: Cell, count: u32, cell: Cell) -> bool
    ensures { result ≡ rises_to first count cell }
{
    match (first, cell) {
        (Cell::Held(Slot::Primary, sector), Cell::Held(Slot::Primary, next))
        | (Cell::Held(Slot::Secondary, sector), Cell::Held(Slot::Secondary, next)) => {
            u64::from(next) == u64::from(sector) + u64::from(count)
        }
        _ => false,
    }
}

// The sector of the start that a cell holds, or 0.
fn sector_in(cell: Cell) -> u32
    ensures { result ≡ sector_in cell }
{
    match cell {
        Cell::Held(_, sector) => sector,
        _ => 0,
    }
}

// The letter of a cell that holds what a sector of the start held.
fn letter_in(cell: Cell) -> &'static str
    ensures value { result.now ≡ letter_in cell }
    ensures length { length result.now ≤ 1 }
{
    match cell {
        Cell::Held(Slot::Primary, _) => "a",
        Cell::Held(Slot::Secondary, _) => "b",
        _ => "",
    }
}

impl Run {
    /// A run of one cell.
    pub fn of(cell: (Cell, bool)) -> Run
        ensures { result ≡ run_of cell }
    {
        let (first, framed) = cell;
        Run {
            first,
            count: 1,
            rises: false,
            framed,
        }
    }

    // Whether a cell goes on after its cells.
    fn is_next(&self, cell: Cell) -> bool
        ensures { result ≡ goes_on self.now cell }
    {
        if self.rises {
            return rises_to(self.first, self.count, cell);
        }
        is_again(self.first, cell) || self.count == 1 && rises_to(self.first, 1, cell)
    }

    // Whether it takes that cell: none of them is framed, and it goes on.
    fn takes(&self, cell: Cell, framed: bool) -> bool
        ensures { result ≡ takes self.now cell framed }
    {
        !self.framed && !framed && self.is_next(cell)
    }

    /// Whether a cell joins it.
    pub fn joins(&self, merges: bool, cell: (Cell, bool)) -> bool
        ensures { result ≡ joins merges self.now cell }
    {
        merges && self.takes(cell.0, cell.1)
    }

    /// The run with one cell more.
    pub fn with(&self, cell: Cell) -> Run
        requires { self.now.count < 4294967295 }
        ensures { result ≡ one_more self.now cell }
    {
        Run {
            count: self.count + 1,
            rises: !is_again(self.first, cell),
            ..*self
        }
    }

    // Adds how far it goes to a line: its last sector of the start, or how many cells it has, where there is more than one.
    fn put_reach(&self, line: &mut Line)
        requires one { 1 ≤ self.now.count }
        requires room { length line.old + 23 ≤ MOST_LINE }
        ensures text { line.new ≡ line.old ++ reach_text self.now }
        ensures length { length line.new ≤ length line.old + 23 }
    {
        if self.rises {
            line.put("..");
            line.put(letter_in(self.first));
            line.put_long_number(u64::from(sector_in(self.first)) + u64::from(self.count - 1));
        } else if self.count > 1 {
            line.put("x");
            line.put_number(self.count);
        }
    }

    /// Adds its word to a line: at most 35 bytes.
    pub fn put_word(&self, line: &mut Line)
        requires one { 1 ≤ self.now.count }
        requires room { length line.old + 35 ≤ MOST_LINE }
        ensures text { line.new ≡ line.old ++ run_word self.now }
        ensures length { length line.new ≤ length line.old + 35 }
    {
        self.first.put_into(Words::All, line);
        self.put_reach(line);
    }
}
