//! Fields, types and profiles as text.
ghost use Rattle.std.specs.Prelude.{◌≡◌, ◌+◌, ◌≤◌, ◌++◌, length, Some, MatchOption};
ghost use Rattle.mc_trailer.specs.declared.tables.Profile.{Profile};
ghost use Rattle.mc_trailer.specs.Tables.{magic_text, flag_text, type_text, profile_text, flags_text, swap_text, trailer_text};

use crate::tables::{Profile, SwapType};
use crate::trailer::{Flag, Magic, Trailer};
use mc_output::{Line, MOST_LINE};
use std::fmt;

impl Magic {
    /// Its name in one word.
    pub fn name(self) -> &'static str
        ensures text { result.now ≡ magic_text self }
        ensures at_most { length result.now ≤ 5 }
    {
        match self {
            Magic::Good => "good",
            Magic::Unset => "unset",
            Magic::Bad => "bad",
        }
    }
}

impl fmt::Display for Magic {
    ghost output = { λ magic. Some (magic_text magic) };

    fn fmt<W: fmt::Write>(&self, f: &mut fmt::Formatter<W>) -> fmt::Result {
        f.write_str(self.name())
    }
}

impl Flag {
    /// Its name in one word.
    pub fn name(self) -> &'static str
        ensures text { result.now ≡ flag_text self }
        ensures at_most { length result.now ≤ 5 }
    {
        match self {
            Flag::Set => "set",
            Flag::Unset => "unset",
            Flag::Bad => "bad",
        }
    }
}

impl fmt::Display for Flag {
    ghost output = { λ flag. Some (flag_text flag) };

    fn fmt<W: fmt::Write>(&self, f: &mut fmt::Formatter<W>) -> fmt::Result {
        f.write_str(self.name())
    }
}

impl SwapType {
    /// Its name in one word.
    pub fn name(self) -> &'static str
        ensures text { result.now ≡ type_text self }
        ensures at_most { length result.now ≤ 6 }
    {
        match self {
            SwapType::None => "none",
            SwapType::Test => "test",
            SwapType::Perm => "perm",
            SwapType::Revert => "revert",
            SwapType::Fail => "fail",
            SwapType::Panic => "panic",
        }
    }
}

impl fmt::Display for SwapType {
    ghost output = { λ kind. Some (type_text kind) };

    fn fmt<W: fmt::Write>(&self, f: &mut fmt::Formatter<W>) -> fmt::Result {
        f.write_str(self.name())
    }
}

impl Profile {
    /// The profile that a text names: `1`, `2` or `3`. It takes no memory.
    pub fn read(text: &str) -> Option<Profile>
        ensures { MatchOption result ((p : Profile) → text.now ≡ profile_text p → ⊥)
            (λ p. text.now ≡ profile_text p) }
    {
        match text {
            "1" => Some(Profile::One),
            "2" => Some(Profile::Two),
            "3" => Some(Profile::Three),
            _ => None,
        }
    }

    /// Its name: a digit.
    pub fn name(self) -> &'static str
        ensures text { result.now ≡ profile_text self }
        ensures at_most { length result.now ≤ 1 }
    {
        match self {
            Profile::One => "1",
            Profile::Two => "2",
            Profile::Three => "3",
        }
    }
}

impl fmt::Display for Profile {
    ghost output = { λ profile. Some (profile_text profile) };

    fn fmt<W: fmt::Write>(&self, f: &mut fmt::Formatter<W>) -> fmt::Result {
        f.write_str(self.name())
    }
}

impl Trailer {
    // Adds the magic and the flags: at most 43 bytes.
    fn put_flags(&self, line: &mut Line)
        requires { length line.old + 43 ≤ MOST_LINE }
        ensures text { line.new ≡ line.old ++ flags_text self.now }
        ensures length { length line.new ≤ length line.old + 43 }
    {
        line.put("magic=");
        line.put(self.magic.name());
        line.put(" image-ok=");
        line.put(self.image_ok.name());
        line.put(" copy-done=");
        line.put(self.copy_done.name());
        line.put(" ");
    }

    // Adds the type and the size of a swap: at most 35 bytes.
    fn put_swap(&self, line: &mut Line)
        requires { length line.old + 35 ≤ MOST_LINE }
        ensures text { line.new ≡ line.old ++ swap_text self.now }
        ensures length { length line.new ≤ length line.old + 35 }
    {
        line.put("swap-info=0x");
        line.put_hex(&[self.swap_info]);
        line.put(" swap-size=");
        line.put_number(self.swap_size);
    }

    /// Adds all five fields to a line: at most 78 bytes.
    pub fn put_into(&self, line: &mut Line)
        requires { length line.old + 78 ≤ MOST_LINE }
        ensures text { line.new ≡ line.old ++ trailer_text self.now }
        ensures length { length line.new ≤ length line.old + 78 }
    {
        self.put_flags(line);
        self.put_swap(line);
    }
}

/// All five fields in one line, without a line feed.
impl fmt::Display for Trailer {
    ghost output = { λ trailer. Some (trailer_text trailer) };

    fn fmt<W: fmt::Write>(&self, f: &mut fmt::Formatter<W>) -> fmt::Result {
        let mut line = Line::new();
        self.put_into(&mut line);
        f.write_str(line.as_str())
    }
}
