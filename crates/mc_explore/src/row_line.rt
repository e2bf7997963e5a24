//! The line of a row, which is kept for the next one: where only the last cut is counted up, a digit of it changes.
ghost use Rattle.std.specs.Prelude.{◌≡◌, [], true, Option, Some};
ghost use Rattle.mc_explore.specs.inner.Exploring.{IsCountedUp};
ghost use Rattle.mc_explore.specs.declared.boot_row.BootRow.{BootRow as Row};
ghost use Rattle.mc_explore.specs.inner.Lines.{IsLine, IsLineOf, IsNextLine};

use crate::boot_row::BootRow;
use crate::labels::Labels;
use crate::subject::Subject;
use arrayvec::ArrayVec;
use mc_start::{Line, MOST_LINE};

/// The line of a row, or nothing.
#[derive(Drop)]
pub struct RowLine {
    pub text: ArrayVec<u8, MOST_LINE>,
    /// How many bytes of it are those of the row's key, where it is the line of a row.
    pub key: usize,
}

impl RowLine {
    /// Nothing.
    pub fn new() -> RowLine
        ensures { result.text.items ≡ [] }
    {
        RowLine {
            text: ArrayVec::new(),
            key: 0,
        }
    }

    /// Makes it nothing.
    #[inline]
    pub fn clear(&mut self)
        ensures { self.new.text.items ≡ [] }
    {
        self.text.clear();
    }

    /// Makes it the line of a row.
    pub fn put<X: Subject>(&mut self, row: &BootRow, labels: &Labels)
        ensures { IsLine X.subject (X.edge.shown_of row.now) self.new.text.items self.new.key }
    {
        let mut line = Line::new();
        self.key = X::put_row(&X::row(row), &mut line, labels);
        line.put("\n");
        self.text.clear();
        let _fits = self.text.try_extend_from_slice(line.as_str().as_bytes());
    }

    /// Makes it the line of a row, out of that of the row before, where the row is that with its last cut counted up.
    #[inline]
    pub fn turn_to<X: Subject>(&mut self, row: &BootRow, counted_up: bool, labels: &Labels)
        ensures { (before : Option Row) → (counted_up ≡ true → IsCountedUp before (Some row.now))
            → IsLineOf X.subject X.edge before self.old.text.items self.old.key
            → IsLine X.subject (X.edge.shown_of row.now) self.new.text.items self.new.key }
    {
        if counted_up && self.count_up() {
            return;
        }
        self.put::<X>(row, labels);
    }

    /// Makes the last byte of its key the next digit, where it is one below 9; says whether it is.
    #[inline]
    pub fn count_up(&mut self) -> bool
        ensures next { result ≡ true → IsNextLine self.old.key self.old.text.items
            self.new.text.items }
        ensures key { self.new.key ≡ self.old.key }
    {
        let Some(last) = self.key.checked_sub(1) else {
            return false;
        };
        let text = self.text.as_mut_slice();
        if last >= text.len() {
            return false;
        }
        let digit = text[last];
        if digit < b'0' || digit >= b'9' {
            return false;
        }
        text[last] = digit + 1;
        true
    }
}
