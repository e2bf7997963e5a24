//! Lines of text that are put together without memory.
ghost use Rattle.std.specs.Prelude.{◌≡◌, ◌+◌, ◌*◌, ◌<◌, ◌≤◌, ◌++◌, ◌∷◌, [], length, slice_index, decimal};
ghost use Rattle.hex.specs.Hex.{encode_lower, lower_digits};

use arrayvec::ArrayString;
use std::marker::Model;

/// The most bytes of a line.
pub const MOST_LINE: usize = 512;

const DIGITS: &[u8; 16] = b"0123456789abcdef";

/// A text of at most 512 bytes, which grows at its end. It takes no memory.
#[derive(Drop)]
pub struct Line {
    text: ArrayString<MOST_LINE>,
}

impl Model for Line {
    ghost use Rattle.std.specs.Prelude.{List, ℕ};

    ghost Value = { List ℕ };

    ghost view = { λ line. line.text.bytes };
}

impl Line {
    /// The empty line.
    #[inline]
    pub fn new() -> Line
        ensures { result ≡ [] }
    {
        Line {
            text: ArrayString::new(),
        }
    }

    /// Makes it empty.
    #[inline]
    pub fn clear(&mut self)
        ensures { self.new ≡ [] }
    {
        self.text.clear();
    }

    /// The text so far.
    #[inline]
    pub fn as_str(&self) -> &str
        ensures { result.now ≡ self.now }
    {
        self.text.as_str()
    }

    /// Adds a text, for which there is room.
    #[inline]
    pub fn put(&mut self, text: &str)
        requires { length self.old + length text.now ≤ MOST_LINE }
        ensures text { self.new ≡ self.old ++ text.now }
        ensures length { length self.new ≡ length self.old + length text.now }
    {
        self.text.push_str(text);
    }

    /// Adds a number in decimal digits, of which there are at most ten.
    #[tactic(auto, using(std::proofs::lemmas::Fmt::decimal_digit))]
    #[inline]
    pub fn put_number(&mut self, number: u32)
        requires { length self.old + 10 ≤ MOST_LINE }
        ensures text { self.new ≡ self.old ++ decimal number }
        ensures length { length self.new ≤ length self.old + 10 }
    {
        if number < 10 {
            self.text.push(char::from(b'0' + number as u8));
            return;
        }
        self.put(itoa::Buffer::new().format(number));
    }

    /// Adds a number of 64 bits in decimal digits, of which there are at most 20.
    pub fn put_long_number(&mut self, number: u64)
        requires { length self.old + 20 ≤ MOST_LINE }
        ensures text { self.new ≡ self.old ++ decimal number }
        ensures length { length self.new ≤ length self.old + 20 }
    {
        self.put(itoa::Buffer::new().format(number));
    }

    // Adds one hexadecimal digit.
    #[inline]
    fn put_digit(&mut self, digit: u8)
        requires digit { digit < 16 }
        requires room { length self.old < MOST_LINE }
        ensures { self.new ≡ self.old ++ slice_index lower_digits digit ∷ [] }
    {
        self.text.push(char::from(DIGITS[usize::from(digit)]));
    }

    /// Adds bytes in lower-case hexadecimal digits, two for each.
    pub fn put_hex(&mut self, bytes: &[u8])
        requires { length self.old + 2 * length bytes.now ≤ MOST_LINE }
        ensures text { self.new ≡ self.old ++ encode_lower bytes.now }
        ensures length { length self.new ≡ length self.old + 2 * length bytes.now }
    {
        for byte in bytes {
            self.put_digit(*byte / 16);
            self.put_digit(*byte % 16);
        }
    }
}
