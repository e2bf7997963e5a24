//! Bytes as an erase leaves them.
ghost use Rattle.std.specs.Prelude.{◌≡◌};
ghost use Rattle.mc_flash.specs.Flash.{is_blank};

use std::simd::prelude::*;

/// Whether each of 32 bytes is 0xff, by one comparison of all lanes. It takes no memory.
pub fn blank_lanes(group: Simd<u8, 32>) -> bool
    ensures { result ≡ is_blank group }
{
    group.simd_eq(u8x32::splat(0xff)).all()
}

// Whether each of 8 bytes is 0xff, by one comparison of words.
fn blank_word(word: [u8; 8]) -> bool
    ensures { result ≡ is_blank word }
{
    u64::from_le_bytes(word) == u64::MAX
}

// Whether every byte is 0xff, 8 bytes at a time.
fn blank_words(bytes: &[u8]) -> bool
    ensures { result ≡ is_blank bytes.now }
{
    let (words, rest) = bytes.as_chunks::<8>();
    words.iter().all(|word| blank_word(*word)) && rest.iter().all(|byte| *byte == 0xff)
}

/// Whether every byte is 0xff, so that any bytes may be written there. It takes no memory.
/// Promised, also of `blank_lanes`: blank is each byte `0xff`; no allocator (`is_blank`).
pub fn blank(bytes: &[u8]) -> bool
    ensures { result ≡ is_blank bytes.now }
{
    let (groups, rest) = bytes.as_chunks::<32>();
    groups
        .iter()
        .all(|group| blank_lanes(Simd::from_array(*group)))
        && blank_words(rest)
}
