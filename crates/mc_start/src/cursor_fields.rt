//! What the texts of cursors are made of: fields with a colon after each. Nothing here takes memory.
ghost use Rattle.std.specs.Prelude.{◌≡◌, ℕ, ◌+◌, ◌≤◌, List, [], ◌∷◌, ◌++◌, length, decimal, Some, IfSome, IsSomeAnd};
ghost use Rattle.hex.specs.Hex.{IsBytes, encode_lower};
ghost use Rattle.mc_output.specs.facts.Parting.{Lacks};
ghost use Rattle.mc_trailer.specs.declared.tables.Rules.{Rules};
ghost use Rattle.mc_start.specs.Cursor.{rules_text, start_text, IsRead, IsStartField};
ghost use Rattle.mc_start.specs.declared.cursor_fields.StartField.{StartField};

use crate::schedule::MOST_CUTS;
use mc_flash::Grain;
use mc_output::{Line, MOST_LINE};
use mc_trailer::{Profile, Rules};

/// The field before the first colon of a text, and what follows that.
/// Promised, also of `RulesField::read` and `StartField::read`: the fields that cursors share (`some`, `only`).
pub fn next_field(text: &str) -> Option<(&str, &str)>
    ensures some { IfSome result (λ found. text.now ≡ found.0.now ++ 58 ∷ found.1.now) }
    ensures only { (field rest : List ℕ) → Lacks 58 field → text.now ≡ field ++ 58 ∷ rest
        → IsSomeAnd result (λ found. (found.0.now ≡ field) × (found.1.now ≡ rest)) }
{
    text.split_once(':')
}

/// Rules: the grain (`call`, `unit`), `:`, the profile (`1`, `2`, `3`) and `:`.
#[derive(Clone, Copy, Debug)]
pub struct RulesField(pub Rules);

impl RulesField {
    /// The rules that a text begins with, and what follows them.
    pub fn read(text: &str) -> Option<(Rules, &str)>
        ensures some { IfSome result (λ found. text.now
            ≡ rules_text found.0.grain found.0.profile ++ found.1.now) }
        ensures only { (rules : Rules) (rest : List ℕ)
            → text.now ≡ rules_text rules.grain rules.profile ++ rest → IsRead result rules rest }
    {
        let (grain, rest) = next_field(text)?;
        let (profile, rest) = next_field(rest)?;
        let grain = Grain::read(grain)?;
        let profile = Profile::read(profile)?;
        Some((Rules { grain, profile }, rest))
    }
}

impl RulesField {
    /// Adds its text to a line: at most 7 bytes.
    pub fn put_into(self, line: &mut Line)
        requires { length line.old + 7 ≤ MOST_LINE }
        ensures text { line.new ≡ line.old ++ rules_text self.0.grain self.0.profile }
        ensures length { length line.new ≤ length line.old + 7 }
    {
        line.put(self.0.grain.name());
        line.put(":");
        line.put(self.0.profile.name());
        line.put(":");
    }
}

/// A start and a bound: the digest of the start in 64 lower-case digits, `:`, the most cuts (0 to 16, without leading zeros) and
/// `:`.
#[derive(Clone, Copy, Debug)]
pub struct StartField {
    pub digest: [u8; 32],
    pub bound: u8,
}

// The digits of a digest.
fn digits_of(digest: &[u8; 32]) -> [u8; 64]
    ensures { result ≡ encode_lower digest.now }
{
    let mut digits = [0; 64];
    let _whole = hex::encode_to_slice(digest.as_slice(), &mut digits);
    digits
}

/// The digest that 64 lower-case digits write.
pub fn read_digest(text: &str) -> Option<[u8; 32]>
    ensures exact { IfSome result (λ d. text.now ≡ encode_lower d) }
    ensures only { (d : List ℕ) → length d ≡ 32 → IsBytes d → text.now ≡ encode_lower d → result
        ≡ Some d }
{
    let mut digest = [0; 32];
    if hex::decode_to_slice(text, &mut digest).is_err() {
        return None;
    }
    // Upper case digits are read too.
    if digits_of(&digest).as_slice() != text.as_bytes() {
        return None;
    }
    Some(digest)
}

// The most cuts that a text writes, without leading zeros.
fn bound_of(text: &str) -> Option<u8>
    ensures exact { IfSome result (λ n. text.now ≡ decimal n) }
    ensures at_most { IfSome result (λ n. n ≤ 16) }
    ensures only { (n : ℕ) → n ≤ 16 → text.now ≡ decimal n → result ≡ Some n }
{
    match text.parse::<u8>() {
        Ok(bound) if usize::from(bound) <= MOST_CUTS && itoa::Buffer::new().format(bound) == text =>
            { Some(bound) }
        _ => None,
    }
}

impl StartField {
    /// The start and the bound that a text begins with, and what follows them.
    pub fn read(text: &str) -> Option<(StartField, &str)>
        ensures some { IfSome result (λ found. text.now
            ≡ start_text found.0.digest found.0.bound found.1.now) }
        ensures at_most { IfSome result (λ found. found.0.bound ≤ 16) }
        ensures only { (start : StartField) (rest : List ℕ) → IsStartField start
            → text.now ≡ start_text start.digest start.bound rest → IsRead result start rest }
    {
        let (digits, rest) = next_field(text)?;
        let (number, rest) = next_field(rest)?;
        let digest = read_digest(digits)?;
        let bound = bound_of(number)?;
        Some((StartField { digest, bound }, rest))
    }
}

impl StartField {
    /// Adds its text to a line: at most 76 bytes.
    pub fn put_into(&self, line: &mut Line)
        requires { length line.old + 76 ≤ MOST_LINE }
        ensures text { line.new ≡ line.old ++ start_text self.now.digest self.now.bound [] }
        ensures length { length line.new ≤ length line.old + 76 }
    {
        line.put_hex(&self.digest);
        line.put(":");
        line.put_number(u32::from(self.bound));
        line.put(":");
    }
}
