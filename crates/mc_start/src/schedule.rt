//! Schedules of power cuts.
ghost use Rattle.std.specs.Prelude.{◌≡◌, ◌↔◌, true, ℕ, ◌+◌, ◌<◌, ◌≤◌, ◌^◌, ◌++◌, List, [], ◌∷◌, false, length, take, decimal, Some, Ok, IfOk, MatchResult, OnOk, OnErr};
ghost use Rattle.mc_tree.specs.Tree.{Precedes};
ghost use Rattle.mc_start.specs.Start.{lowered, on_last, schedule_text, FitsCut, IsNextText, IsSchedule, IsAdded, ReadsSchedule};

use mc_output::{Line, MOST_LINE};
use mc_tree::precedes;
use std::fmt;
use std::marker::Model;
use thiserror::Error;

/// The most cuts of a schedule.
pub const MOST_CUTS: usize = 16;

/// A text that is no schedule's.
#[derive(Clone, Copy, Debug, PartialEq, Eq, Error)]
#[error("E60 ScheduleSyntax")]
pub struct ScheduleError;

/// At most 16 power cuts: for each boot that is cut, after how many operations the power is lost. It takes no memory.
#[derive(Clone, Copy, Debug)]
pub struct Schedule {
    cuts: [u32; MOST_CUTS],
    len: usize,
}

impl Model for Schedule {
    ghost use Rattle.std.specs.Prelude.{◌≡◌, ℕ, ◌≤◌, List, ◌++◌, length, take, drop};
    ghost use Rattle.mc_flash.specs.inner.Room.{zeros_after, len_again, room_again};

    ghost Value = { List ℕ };

    ghost view = { λ s. take s.len s.cuts };

    ghost invariant = { λ s. (s.len ≤ 16) × (length s.cuts ≡ 16)
        × (drop s.len s.cuts ≡ zeros_after s.len) };

    ghost inverse = { λ l. record { cuts = l ++ zeros_after (length l); len = length l } };

    ghost inverse_ok = { λ s h i. record { cuts = room_again s.cuts s.len h.1 h.0 h.2 i; len = len_again s.cuts s.len h.1 h.0 i } };
}

// The number that a text writes, without leading zeros.
fn cut_of(text: &str) -> Result<u32, ScheduleError>
    ensures { MatchResult result (λ n. text.now ≡ decimal n)
        (λ _. (n : ℕ) → n < 2 ^ 32 → text.now ≡ decimal n → ⊥) }
{
    match text.parse::<u32>() {
        Ok(cut) if itoa::Buffer::new().format(cut) == text => Ok(cut),
        _ => Err(ScheduleError),
    }
}

impl Schedule {
    /// The schedule that a text says: `-` for no cut, else 1 to 16 numbers below 2^32 without leading zeros, with points
    /// between them. It takes no memory.
    /// Promised, also of `fmt`: schedules read exactly, and print (`exact`, `only`, `output`).
    ///
    /// # Errors
    ///
    /// `ScheduleError` for every other text.
    pub fn read(text: &str) -> Result<Schedule, ScheduleError>
        ensures exact { ReadsSchedule text.now result }
        // The text of each schedule is read as that schedule.
        ensures only { (l : List ℕ) → IsSchedule l → text.now ≡ schedule_text l → result ≡ Ok l }
        ensures valid { IfOk result IsSchedule }
    {
        let mut schedule = Schedule::new();
        if text == "-" {
            return Ok(schedule);
        }
        let mut rest = text;
        'cuts: while let Some((first, after)) = rest.split_once('.') {
            schedule.add(first)?;
            rest = after;
        }
        schedule.add(rest)?;
        Ok(schedule)
    }

    // Adds the cut that a text writes, where there is room for one.
    fn add(&mut self, text: &str) -> Result<(), ScheduleError>
        ensures added { OnOk result (IsAdded self.old text.now self.new) }
        ensures refused { OnErr result ((cut : ℕ) → FitsCut self.old cut → text.now ≡ decimal cut
            → ⊥) }
    {
        let cut = cut_of(text)?;
        if self.len == MOST_CUTS {
            return Err(ScheduleError);
        }
        self.push(cut);
        Ok(())
    }

    /// The schedule of no cut.
    pub fn new() -> Schedule
        ensures { result ≡ [] }
    {
        Schedule {
            cuts: [0; MOST_CUTS],
            len: 0,
        }
    }

    /// The schedule of these cuts.
    pub fn of(cuts: &[u32]) -> Schedule
        requires { length cuts.now ≤ 16 }
        ensures { result ≡ cuts.now }
    {
        let mut schedule = Schedule::new();
        for cut in cuts {
            schedule.push(*cut);
        }
        schedule
    }

    /// The cuts, in their order.
    pub fn cuts(&self) -> &[u32]
        ensures value { result.now ≡ self.now }
        ensures at_most { length result.now ≤ 16 }
    {
        &self.cuts[..self.len]
    }

    // The schedule of a first cut and of later ones.
    fn beginning(first: u32, later: &[u32]) -> Schedule
        requires { length later.now < 16 }
        ensures { result ≡ first ∷ later.now }
    {
        let mut schedule = Schedule::new();
        schedule.push(first);
        for cut in later {
            schedule.push(*cut);
        }
        schedule
    }

    /// The same schedule after a cut, without its last one where it has 16.
    pub fn prefixed(&self, cut: u32) -> Schedule
        ensures { result ≡ take 16 (cut ∷ self.now) }
    {
        let cuts = self.cuts();
        let kept = cuts.len().min(MOST_CUTS - 1);
        Schedule::beginning(cut, &cuts[..kept])
    }

    /// The same schedule with its first cut so many operations earlier, at 0 at the least.
    pub fn first_lowered(&self, operations: u32) -> Schedule
        ensures { result ≡ lowered operations self.now }
    {
        match self.cuts().split_first() {
            Some((first, later)) => { Schedule::beginning(first.saturating_sub(operations), later) }
            None => *self,
        }
    }

    /// Whether it comes before another in the order of rows: a prefix comes first, else the first cut that differs decides.
    pub fn is_before(&self, other: &Schedule) -> bool
        ensures { (result ≡ true) ↔ Precedes self.now other.now }
    {
        precedes(self.cuts(), other.cuts())
    }

    /// Makes its last cut one greater, where it has one that is not the greatest number; says whether it has.
    #[inline]
    pub fn count_up(&mut self) -> bool
        ensures counted { result ≡ true → self.new ≡ on_last (λ n. n + 1) self.old }
        ensures text { result ≡ true → IsNextText (schedule_text self.old)
            (schedule_text self.new) }
        ensures some { (l : List ℕ) (n : ℕ) → self.old ≡ l ++ n ∷ [] → n + 1 < 2 ^ 32 → result
            ≡ true }
        ensures same { result ≡ false → self.new ≡ self.old }
    {
        if self.len == 0 {
            return false;
        }
        let last = self.len - 1;
        match self.cuts[last].checked_add(1) {
            Some(cut) => {
                self.cuts[last] = cut;
                true
            }
            None => false,
        }
    }

    /// Adds a cut at the end.
    pub fn push(&mut self, cut: u32)
        requires { length self.old < 16 }
        ensures { self.new ≡ self.old ++ cut ∷ [] }
    {
        self.cuts[self.len] = cut;
        self.len += 1;
    }
}

impl Schedule {
    /// Adds its text to a line: at most 176 bytes.
    pub fn put_into(&self, line: &mut Line)
        requires { length line.old + 176 ≤ MOST_LINE }
        ensures text { line.new ≡ line.old ++ schedule_text self.now }
        ensures length { length line.new ≤ length line.old + 176 }
    {
        let Some((first, rest)) = self.cuts().split_first() else {
            line.put("-");
            return;
        };
        line.put_number(*first);
        for cut in rest {
            line.put(".");
            line.put_number(*cut);
        }
    }
}

impl fmt::Display for Schedule {
    ghost output = { λ s. Some (schedule_text s) };

    fn fmt<W: fmt::Write>(&self, f: &mut fmt::Formatter<W>) -> fmt::Result {
        let mut line = Line::new();
        self.put_into(&mut line);
        f.write_str(line.as_str())
    }
}
