//! Cursors of campaigns from their text.
ghost use Rattle.std.specs.Prelude.{◌≡◌, ◌≤◌, Bool, Some, Ok, MatchOption, IfOk, IfSome};
ghost use Rattle.mc_campaign.specs.Texts.{choice_text, cursor_text, IsCursor, ReadsCursor};
ghost use Rattle.mc_campaign.specs.declared.cursor.CampaignCursor.{CampaignCursor};

use crate::campaign::Campaign;
use crate::cursor::CampaignCursor;
use mc_explore::{CursorError, RulesField, StartField, next_field};

// The choice that a word says.
fn choice_of(word: &str) -> Option<bool>
    ensures { MatchOption result ((confirms : Bool) → word.now ≡ choice_text confirms → ⊥)
        (λ confirms. word.now ≡ choice_text confirms) }
{
    match word {
        "leave" => Some(false),
        "confirm" => Some(true),
        _ => None,
    }
}

// The cursor that a text says, if it is one's.
fn cursor_of(text: &str) -> Option<CampaignCursor>
    ensures some { IfSome result (λ c. text.now ≡ cursor_text c) }
    ensures at_most { IfSome result (λ c. c.bound ≤ 16) }
    ensures only { (c : CampaignCursor) → IsCursor c → text.now ≡ cursor_text c → result ≡ Some c }
{
    let (rules, rest) = RulesField::read(text.strip_prefix("mc3:")?)?;
    let (word, rest) = next_field(rest)?;
    let confirms = choice_of(word)?;
    let (start, rest) = StartField::read(rest)?;
    let Ok(campaign) = Campaign::read(rest) else {
        return None;
    };
    let StartField { digest, bound } = start;
    Some(CampaignCursor {
        rules,
        confirms,
        digest,
        bound,
        campaign,
    })
}

impl CampaignCursor {
    /// The cursor that a text says: `mc3:`, the grain (`call`, `unit`), `:`, the profile (`1`, `2`, `3`), `:`, the choice between the
    /// rounds (`leave`, `confirm`), `:`, the start's digest in 64 lower-case digits, `:`, the most cuts (0 to 16), `:`, and the
    /// campaign. It takes no memory.
    ///
    /// # Errors
    ///
    /// `CursorError` for every other text.
    pub fn read(text: &str) -> Result<CampaignCursor, CursorError>
        ensures exact { ReadsCursor text.now result }
        ensures at_most { IfOk result (λ c. c.bound ≤ 16) }
        // The text of each cursor is read as that cursor.
        ensures only { (c : CampaignCursor) → IsCursor c → text.now ≡ cursor_text c → result
            ≡ Ok c }
    {
        match cursor_of(text) {
            Some(cursor) => Ok(cursor),
            None => Err(CursorError),
        }
    }
}
