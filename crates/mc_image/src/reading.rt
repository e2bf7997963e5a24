//! A version from its text.
ghost use Rattle.std.specs.Prelude.{◌≡◌, ◌≤◌, ◌^◌, None, Some, MatchOption, ◌∷◌, []};
ghost use Rattle.mc_image.specs.inner.VersionReading.{number_from, numeral_at, part_at, numbers_in, version_read};

use crate::{Version, VersionError};

/// Greater than the numbers of every field.
const TOO_GREAT: u64 = 1 << 32;

/// The numbers of a text in the form, missing ones 0.
#[derive(Clone, Copy)]
struct Numbers {
    major: u64,
    minor: u64,
    revision: u64,
    build: u64,
}

/// Digits go on: the number with them, and the text after them.
#[tactic(auto, unfolding(crate::specs::inner::VersionReading::number_from))]
fn number_from(start: u64, text: &[u8]) -> (u64, &[u8])
    requires { start ≤ 2 ^ 32 }
    ensures { number_from start text.now ≡ (result.0, result.1.now) }
{
    let mut number = start;
    let mut rest = text;
    while let [digit, others @ ..] = rest {
        if !digit.is_ascii_digit() {
            break;
        }
        number = (10 * number + (*digit - b'0') as u64).min(TOO_GREAT);
        rest = others;
    }
    (number, rest)
}

/// The number without leading zeros that the text begins with.
#[tactic(auto, unfolding(crate::specs::inner::VersionReading::numeral_at))]
fn numeral_at(text: &[u8]) -> Option<(u64, &[u8])>
    ensures { MatchOption result (numeral_at text.now ≡ None)
        (λ x. numeral_at text.now ≡ Some (x.0, x.1.now)) }
{
    match text {
        [] => None,
        [b'0', rest @ ..] => Some((0, rest)),
        [digit, rest @ ..] => {
            if !digit.is_ascii_digit() {
                return None;
            }
            Some(number_from((*digit - b'0') as u64, rest))
        }
    }
}

/// The number after a separator, or 0 at the end of the text.
#[tactic(auto, unfolding(crate::specs::inner::VersionReading::part_at))]
fn part_at(separator: u8, text: &[u8]) -> Option<(u64, &[u8])>
    ensures { MatchOption result (part_at separator text.now ≡ None)
        (λ x. part_at separator text.now ≡ Some (x.0, x.1.now)) }
{
    match text {
        [] => Some((0, text)),
        [first, rest @ ..] => {
            if *first != separator {
                return None;
            }
            numeral_at(rest)
        }
    }
}

/// The numbers of a text in the form.
#[tactic(auto, unfolding(crate::specs::inner::VersionReading::numbers_in, crate::specs::inner::VersionReading::parts_after))]
fn numbers_in(text: &[u8]) -> Option<Numbers>
    ensures { MatchOption result (numbers_in text.now ≡ None)
        (λ x. numbers_in text.now ≡ Some (x.major ∷ x.minor ∷ x.revision ∷ x.build ∷ [])) }
{
    let (major, rest) = numeral_at(text)?;
    let (minor, rest) = part_at(b'.', rest)?;
    let (revision, rest) = part_at(b'.', rest)?;
    let (build, rest) = part_at(b'+', rest)?;
    if !rest.is_empty() {
        return None;
    }
    Some(Numbers {
        major,
        minor,
        revision,
        build,
    })
}

/// The version that a text names.
#[tactic(auto, unfolding(crate::specs::inner::VersionReading::version_read, crate::specs::inner::VersionReading::fitted))]
pub(crate) fn version_read(text: &[u8]) -> Result<Version, VersionError>
    ensures { result ≡ version_read text.now }
{
    let Some(numbers) = numbers_in(text) else {
        return Err(VersionError::Syntax);
    };
    let Ok(major) = u8::try_from(numbers.major) else {
        return Err(VersionError::Range);
    };
    let Ok(minor) = u8::try_from(numbers.minor) else {
        return Err(VersionError::Range);
    };
    let Ok(revision) = u16::try_from(numbers.revision) else {
        return Err(VersionError::Range);
    };
    let Ok(build) = u32::try_from(numbers.build) else {
        return Err(VersionError::Range);
    };
    Ok(Version {
        major,
        minor,
        revision,
        build,
    })
}
