//! Versions and their text.
ghost use Rattle.std.specs.Prelude.{◌≡◌, Some, MatchResult, ℕ, ◌+◌, ◌≤◌, List, ◌++◌, length};
ghost use Rattle.mc_image.specs.VersionText.{version_line, IsForm, AreInRange, IsVersion, Names, IsRefused};

use crate::VersionError;
use crate::reading::version_read;
use mc_output::{Line, MOST_LINE};
use std::fmt;

/// The version of an image. Its text is `major.minor.revision+build` (imgtool, option `--version`).
#[derive(Clone, Copy, Debug, PartialEq, Eq)]
pub struct Version {
    /// The first number.
    pub major: u8,
    /// The second number.
    pub minor: u8,
    /// The third number.
    pub revision: u16,
    /// The number after the `+`.
    pub build: u32,
}

impl Version {
    /// The version that a text names: `major[.minor[.revision[+build]]]`, decimal numbers without leading zeros,
    /// missing ones 0.
    /// Promised: versions are read exactly, and read back (`exact`, `only`, `printed`, `IsForm`).
    /// Promised: `Range` exactly for a number too large, else `Syntax` (`range`, `exact`).
    ///
    /// # Errors
    ///
    /// `Syntax` for a text outside this form, else `Range` where a number is too great for its field.
    pub fn read(text: &str) -> Result<Version, VersionError>
        ensures exact { MatchResult result (Names text.now) (IsRefused text.now) }
        // Each text that names a version is read as that version.
        ensures only { (v : Version) → Names text.now v → result ≡ Ok v }
        ensures range { (ns : List ℕ) → IsForm text.now ns → (AreInRange ns → ⊥)
            → result ≡ Err VersionError.Range }
        // What is printed reads back.
        ensures printed { (v : Version) → IsVersion v → text.now ≡ version_line v → result ≡ Ok v }
    {
        version_read(text.as_bytes())
    }

    /// Adds its four parts to a line: at most 43 bytes.
    pub fn put_into(self, line: &mut Line)
        requires { length line.old + 43 ≤ MOST_LINE }
        ensures text { line.new ≡ line.old ++ version_line self }
        ensures length { length line.new ≤ length line.old + 43 }
    {
        line.put_number(u32::from(self.major));
        line.put(".");
        line.put_number(u32::from(self.minor));
        line.put(".");
        line.put_number(u32::from(self.revision));
        line.put("+");
        line.put_number(self.build);
    }
}

/// The four numbers, as `1.2.3+4`.
/// Promised: a version prints its four numbers (`version_line`).
impl fmt::Display for Version {
    ghost output = { λ v. Some (version_line v) };

    fn fmt<W: fmt::Write>(&self, f: &mut fmt::Formatter<W>) -> fmt::Result {
        let mut line = Line::new();
        self.put_into(&mut line);
        f.write_str(line.as_str())
    }
}
