//! Where to go on after a page of which only a beginning is out.
ghost use Rattle.std.specs.Prelude.{◌≡◌, ℕ, ◌≤◌, List, ◌∷◌, ◌++◌, Option, Some, take, IfSome, IfNone};
ghost use Rattle.std.specs.Str.Iter.{LacksByte};
ghost use Rattle.mc_flash.specs.Geometry.{IsLayout};
ghost use Rattle.mc_explore.specs.Page.{page_at, page_text, Shown};
ghost use Rattle.mc_explore.specs.Rows.{IsRest, State, ShownRow};
ghost use Rattle.mc_explore.specs.Survey.{IsRowLine, IsLastRow, Continues};

use mc_start::Schedule;
use std::str;

// What stands before the first such byte, and what stands after it.
fn split_at_first(text: &[u8], byte: u8) -> Option<(&[u8], &[u8])>
    ensures some { IfSome result (λ parts. LacksByte byte parts.0.now × (text.now
        ≡ parts.0.now ++ byte ∷ parts.1.now)) }
    ensures none { IfNone result (LacksByte byte text.now) }
{
    let index = text.iter().position(|other| *other == byte)?;
    Some((&text[..index], &text[index + 1..]))
}

// The schedule of a row line.
fn schedule_of(line: &[u8]) -> Option<Schedule>
    ensures row { IfSome result (λ l. IsRowLine l line.now) }
    ensures none { IfNone result ((l : List ℕ) → IsRowLine l line.now → ⊥) }
{
    let Some((first, _)) = split_at_first(line, b' ') else {
        return None;
    };
    match str::from_utf8(first) {
        Ok(text) => Schedule::read(text).ok(),
        Err(_) => None,
    }
}

/// The schedule of the last whole row line of a page that was cut off somewhere, or none where there is none. A whole row
/// line ends with a line feed, and what stands before its first space is the text of a schedule. An exploration that goes
/// on after that schedule (`Cursor::of`) gives the rows that are missing. It takes no memory.
/// Promised: a torn page continues (`exact`, `goes_on`, `until`).
pub fn last_row(torn: &[u8]) -> Option<Schedule>
    ensures exact { IsLastRow torn.now result }
    // The rows of these lines, and then those of the whole list after the schedule, are those that were to come when the
    // page began. Where there is none, no row of the page is whole.
    ensures goes_on { (state : State) (limit n : ℕ) (rows : List ShownRow)
        → IsLayout state.start.geometry → state.bound ≤ 16 → IsRest state rows
        → torn.now ≡ take n (page_text (page_at state limit rows))
        → Continues state rows (take limit rows) torn.now result }
    // And so it is of a page of the rows before a schedule.
    ensures until { (until : Option (List ℕ)) (state : State) (limit n : ℕ) (of : Shown until state)
        → IsLayout state.start.geometry → state.bound ≤ 16
        → torn.now ≡ take n (page_text (page_at state limit of.shown))
        → Continues state of.rows (take limit of.shown) torn.now result }
{
    let mut last = None;
    let mut rest = torn;
    'lines: while let Some((line, after)) = split_at_first(rest, b'\n') {
        if let Some(schedule) = schedule_of(line) {
            last = Some(schedule);
        }
        rest = after;
    }
    // What is left is no whole line.
    last
}
