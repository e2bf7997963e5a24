//! The options that take a number, and the numbers that they give.
ghost use Rattle.std.specs.Prelude.{◌≡◌, ℕ, ◌≤◌, ◌^◌, MatchOption, MatchResult, IfErr, IfOk, IsOk};
ghost use Rattle.std.specs.Str.Parse.{IsNumeral, digits_value};
ghost use Rattle.clap.specs.Matches.{found_of};
ghost use Rattle.mc_options.specs.Numbers.{option_name, least_of, most_of, radix_of, digits_of, GivesNumber, MayGiveNumber, GivesNoNumber};
ghost use Rattle.mc_options.specs.Refusals.{LacksRequired};

use crate::refusal::Refusal;
use clap::ArgMatches;
use std::fmt;

/// An option that takes a number.
#[derive(Clone, Copy, Debug, PartialEq, Eq)]
pub enum NumberOption {
    HeaderSize,
    SlotSize,
    Align,
    /// `--max-sectors` of `create`.
    SlotSectors,
    SecurityCounter,
    Sector,
    Unit,
    /// `--max-sectors` of a layout.
    MaxSectors,
    Chunk,
    Primary,
    Secondary,
    Cuts,
    Limit,
    From,
    To,
    EraseUs,
    WriteUs,
    At,
}

impl NumberOption {
    /// Its name, without the hyphens before it.
    pub fn name(self) -> &'static str
        ensures { result.now ≡ option_name self }
    {
        match self {
            NumberOption::HeaderSize => "header-size",
            NumberOption::SlotSize => "slot-size",
            NumberOption::Align => "align",
            NumberOption::SlotSectors | NumberOption::MaxSectors => "max-sectors",
            NumberOption::SecurityCounter => "security-counter",
            NumberOption::Sector => "sector",
            NumberOption::Unit => "unit",
            NumberOption::Chunk => "chunk",
            NumberOption::Primary => "primary",
            NumberOption::Secondary => "secondary",
            NumberOption::Cuts => "cuts",
            NumberOption::Limit => "limit",
            NumberOption::From => "from",
            NumberOption::To => "to",
            NumberOption::EraseUs => "erase-us",
            NumberOption::WriteUs => "write-us",
            NumberOption::At => "at",
        }
    }

    /// The least number that it takes.
    fn least(self) -> u32
        ensures { result ≡ least_of self }
    {
        match self {
            NumberOption::HeaderSize => 32,
            NumberOption::SlotSize
            | NumberOption::Align
            | NumberOption::SlotSectors
            | NumberOption::Limit => 1,
            _ => 0,
        }
    }

    /// The largest number that it takes.
    fn most(self) -> u32
        ensures { result ≡ most_of self }
    {
        match self {
            NumberOption::HeaderSize => 65535,
            NumberOption::SlotSize => 16777216,
            NumberOption::Align => 8,
            NumberOption::SlotSectors => 1024,
            NumberOption::Cuts => 16,
            _ => u32::MAX,
        }
    }

    /// The number that the arguments give, or none where the option is left out.
    /// Promised: decimal or hexadecimal, each in its range (`MayGiveNumber`, `GivesNoNumber`).
    ///
    /// # Errors
    ///
    /// `Number` where its text says no number that it takes.
    pub fn read(self, arguments: &ArgMatches<'_>) -> Result<Option<u32>, Refusal>
        ensures { MatchResult result (λ given. MayGiveNumber (found_of arguments.now) self given)
            (λ r. (r ≡ Refusal.Number self) × GivesNoNumber (found_of arguments.now) self) }
    {
        let Some(text) = arguments.get_str(self.name()) else {
            return Ok(None);
        };
        match number_in(text) {
            Some(number) if self.least() <= number && number <= self.most() => Ok(Some(number)),
            _ => Err(Refusal::Number(self)),
        }
    }

    /// The number that the arguments give of an option which they cannot leave out.
    ///
    /// # Errors
    ///
    /// `Number` where its text says no number that it takes, `Argument` where it is left out.
    pub fn read_required(self, arguments: &ArgMatches<'_>) -> Result<u32, Refusal>
        ensures given { IfOk result (GivesNumber (found_of arguments.now) self) }
        ensures taken { (n : ℕ) → GivesNumber (found_of arguments.now) self n → IsOk result }
        ensures refused { IfErr result (LacksRequired (found_of arguments.now) self) }
    {
        self.read(arguments)?.ok_or(Refusal::Argument)
    }
}

/// What the option takes.
impl fmt::Display for NumberOption {
    fn fmt<W: fmt::Write>(&self, f: &mut fmt::Formatter<W>) -> fmt::Result {
        let name = self.name();
        let least = self.least();
        let most = self.most();
        match self {
            NumberOption::Align => write!(f, "--{name} takes 1, 2, 4 or 8"),
            _ => write!(f, "--{name} takes a number from {least} to {most}"),
        }
    }
}

/// The number that hexadecimal digits write, where it is below 2^32.
fn hexadecimal(digits: &str) -> Option<u32>
    ensures { MatchOption result (IsNumeral 16 digits.now → 2 ^ 32 ≤ digits_value 16 digits.now)
        (λ n. IsNumeral 16 digits.now × (digits_value 16 digits.now ≡ n)) }
{
    if digits.starts_with('+') {
        return None;
    }
    u32::from_str_radix(digits, 16).ok()
}

/// The number that a text says, where it is below 2^32: decimal digits, which a plus sign may precede, or hexadecimal
/// digits of either case after `0x` or `0X`.
fn number_in(text: &str) -> Option<u32>
    ensures { MatchOption result (IsNumeral (radix_of text.now) (digits_of text.now)
        → 2 ^ 32 ≤ digits_value (radix_of text.now) (digits_of text.now))
        (λ n. IsNumeral (radix_of text.now) (digits_of text.now)
        × (digits_value (radix_of text.now) (digits_of text.now) ≡ n)) }
{
    if let Some(digits) = text.strip_prefix("0x") {
        return hexadecimal(digits);
    }
    if let Some(digits) = text.strip_prefix("0X") {
        return hexadecimal(digits);
    }
    text.parse().ok()
}
