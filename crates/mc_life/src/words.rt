//! The words after the first of an event's text: names of files, and numbers.
ghost use Rattle.std.specs.Prelude.{◌≡◌, ℕ, ◌<◌, ◌≤◌, ◌^◌, List, ◌∷◌, Option, length, decimal, MatchOption, option_map};
ghost use Rattle.std.specs.Str.Parse.{IsNumeral, digits_value};
ghost use Rattle.mc_life.specs.Script.{BeginsWith, Writes, WritesBoth, WritesTear};
ghost use Rattle.mc_tear.specs.declared.reading.Reading.{Reading as TornReading};

use mc_tear::Reading;

// The number that a text writes in decimal, without leading zeros.
fn decimal_number(text: &str) -> Option<u32>
    ensures { MatchOption result ((n : ℕ) → n < 2 ^ 32 → text.now ≡ decimal n → ⊥)
        (λ n. text.now ≡ decimal n) }
{
    match text.parse::<u32>() {
        Ok(number) if itoa::Buffer::new().format(number) == text => Some(number),
        _ => None,
    }
}

// The number that one to eight hexadecimal digits write.
fn hexadecimal_number(digits: &str) -> Option<u32>
    ensures { MatchOption result (IsNumeral 16 digits.now → length digits.now ≤ 8
        → digits_value 16 digits.now < 2 ^ 32 → ⊥)
        (λ n. (n < 2 ^ 32) × IsNumeral 16 digits.now × (length digits.now ≤ 8)
        × (digits_value 16 digits.now ≡ n)) }
{
    if digits.starts_with('+') {
        return None;
    }
    if digits.len() > 8 {
        return None;
    }
    u32::from_str_radix(digits, 16).ok()
}

/// The number that a text writes: in decimal without leading zeros, or `0x` and one to eight hexadecimal digits.
pub fn number_of(text: &str) -> Option<u32>
    ensures { MatchOption result ((n : ℕ) → Writes n text.now → ⊥) (λ n. Writes n text.now) }
{
    match text.strip_prefix("0x") {
        Some(digits) => hexadecimal_number(digits),
        None => decimal_number(text),
    }
}

/// Two numbers, with a space between them.
pub fn both_numbers(text: &str) -> Option<(u32, u32)>
    ensures { MatchOption result ((m n : ℕ) → WritesBoth m n text.now → ⊥)
        (λ p. WritesBoth p.0 p.1 text.now) }
{
    let Some((first, second)) = text.split_once(' ') else {
        return None;
    };
    match (number_of(first), number_of(second)) {
        (Some(first), Some(second)) => Some((first, second)),
        _ => None,
    }
}

/// A number and a reading of a torn operation, with a space between them.
pub fn number_and_reading(text: &str) -> Option<(u32, Reading)>
    ensures { MatchOption result ((n : ℕ) (r : TornReading) → WritesTear n r text.now → ⊥)
        (λ p. WritesTear p.0 p.1 text.now) }
{
    let Some((first, second)) = text.split_once(' ') else {
        return None;
    };
    match (number_of(first), Reading::read(second)) {
        (Some(number), Some(reading)) => Some((number, reading)),
        _ => None,
    }
}

// The name that a text which begins with no double quote begins with, and what stands after it.
fn bare_name(text: &str) -> (&str, Option<&str>)
    requires { (rest : List ℕ) → text.now ≡ 34 ∷ rest → ⊥ }
    ensures { BeginsWith text.now result.0.now (option_map (λ t. t.now) result.1) }
{
    match text.split_once(' ') {
        Some((name, more)) => (name, Some(more)),
        None => (text, None),
    }
}

// The name that stands before a double quote, and what stands after that and a space.
fn quoted_name(text: &str) -> Option<(&str, Option<&str>)>
    ensures { MatchOption result
        ((name : List ℕ) (more : Option (List ℕ)) → BeginsWith (34 ∷ text.now) name more → ⊥)
        (λ p. BeginsWith (34 ∷ text.now) p.0.now (option_map (λ t. t.now) p.1)) }
{
    let Some((name, after)) = text.split_once('"') else {
        return None;
    };
    match after.strip_prefix(' ') {
        Some(more) => Some((name, Some(more))),
        None if after.is_empty() => Some((name, None)),
        None => None,
    }
}

/// The name of a file that a text begins with, without its double quotes, and what stands after it and a space, if something does.
pub fn name_in(text: &str) -> Option<(&str, Option<&str>)>
    ensures { MatchOption result
        ((name : List ℕ) (more : Option (List ℕ)) → BeginsWith text.now name more → ⊥)
        (λ p. BeginsWith text.now p.0.now (option_map (λ t. t.now) p.1)) }
{
    match text.strip_prefix('"') {
        Some(quoted) => quoted_name(quoted),
        None => Some(bare_name(text)),
    }
}
