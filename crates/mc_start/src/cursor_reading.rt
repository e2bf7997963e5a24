//! Cursors from their text.
ghost use Rattle.std.specs.Prelude.{◌≡◌, ℕ, ◌≤◌, List, ◌++◌, Ok, IfOk, IfSome};
ghost use Rattle.mc_start.specs.Cursor.{IsRead, head_text, cursor_text, IsCursor, ReadsCursor};
ghost use Rattle.mc_trailer.specs.declared.tables.Rules.{Rules};

use crate::cursor::{Cursor, CursorError};
use crate::cursor_fields::{RulesField, StartField};
use crate::schedule::Schedule;
use mc_trailer::Rules;

// The rules of a cursor, and what follows them. Whole calls and the first profile are written in a form of their own alone.
fn rules_of(text: &str) -> Option<(Rules, &str)>
    ensures some { IfSome result (λ found. text.now
        ≡ head_text found.0.grain found.0.profile ++ found.1.now) }
    ensures only { (rules : Rules) (rest : List ℕ)
        → text.now ≡ head_text rules.grain rules.profile ++ rest → IsRead result rules rest }
{
    if let Some(rest) = text.strip_prefix("mc1:") {
        return Some((Rules::PLAIN, rest));
    }
    let (rules, rest) = RulesField::read(text.strip_prefix("mc2:")?)?;
    if rules == Rules::PLAIN {
        return None;
    }
    Some((rules, rest))
}

impl Cursor {
    /// The cursor that a text says: `mc1:` for whole calls and the first profile, else `mc2:`, the grain (`call`, `unit`),
    /// `:`, the profile (`1`, `2`, `3`) and `:`; then the start's digest in 64 lower-case digits, `:`, the most cuts (0 to 16),
    /// `:`, and the schedule. It takes no memory.
    /// Promised, also of `fmt`: cursors of at most 16 cuts read exactly, and print (`exact`, `only`, `at_most`, `output`).
    ///
    /// # Errors
    ///
    /// `CursorError` for every other text.
    pub fn read(text: &str) -> Result<Cursor, CursorError>
        ensures exact { ReadsCursor text.now result }
        ensures at_most { IfOk result (λ c. c.bound ≤ 16) }
        // The text of each cursor is read as that cursor.
        ensures only { (c : Cursor) → IsCursor c → text.now ≡ cursor_text c → result ≡ Ok c }
    {
        let Some((rules, rest)) = rules_of(text) else {
            return Err(CursorError);
        };
        let Some((start, cuts)) = StartField::read(rest) else {
            return Err(CursorError);
        };
        let Ok(schedule) = Schedule::read(cuts) else {
            return Err(CursorError);
        };
        let digest = start.digest;
        let bound = start.bound;
        Ok(Cursor {
            rules,
            digest,
            bound,
            schedule,
        })
    }
}
