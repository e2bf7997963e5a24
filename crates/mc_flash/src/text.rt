//! Grains and slots as text.
ghost use Rattle.std.specs.Prelude.{◌≡◌, ◌≤◌, length, Some, MatchOption};
ghost use Rattle.mc_flash.specs.declared.flash.Grain.{Grain};
ghost use Rattle.mc_flash.specs.Flash.{grain_text, slot_text};

use crate::flash::Grain;
use crate::op::Slot;
use std::fmt;

impl Grain {
    /// The grain that a text names: `call` or `unit`. It takes no memory.
    /// Promised, also of `mc_trailer::Profile::read`: a grain or a profile is read exactly (`grain_text`, `profile_text`).
    pub fn read(text: &str) -> Option<Grain>
        ensures { MatchOption result ((g : Grain) → text.now ≡ grain_text g → ⊥)
            (λ g. text.now ≡ grain_text g) }
    {
        match text {
            "call" => Some(Grain::Call),
            "unit" => Some(Grain::Unit),
            _ => None,
        }
    }

    /// Its name in one word.
    pub fn name(self) -> &'static str
        ensures text { result.now ≡ grain_text self }
        ensures at_most { length result.now ≤ 4 }
    {
        match self {
            Grain::Call => "call",
            Grain::Unit => "unit",
        }
    }
}

impl fmt::Display for Grain {
    ghost output = { λ grain. Some (grain_text grain) };

    fn fmt<W: fmt::Write>(&self, f: &mut fmt::Formatter<W>) -> fmt::Result {
        f.write_str(self.name())
    }
}

impl Slot {
    /// Its name in one word.
    pub fn name(self) -> &'static str
        ensures text { result.now ≡ slot_text self }
        ensures at_most { length result.now ≤ 9 }
    {
        match self {
            Slot::Primary => "primary",
            Slot::Secondary => "secondary",
        }
    }
}

impl fmt::Display for Slot {
    ghost output = { λ slot. Some (slot_text slot) };

    fn fmt<W: fmt::Write>(&self, f: &mut fmt::Formatter<W>) -> fmt::Result {
        f.write_str(self.name())
    }
}
