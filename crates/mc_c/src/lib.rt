//! `mcsim` for programs in C and other languages: a whole command line over files in memory, and each engine by itself, over the
//! caller's buffers. `bindings/mcsim.h` says what a caller owes.
#![tactic(auto)]

ghost use Rattle.std.specs.Prelude.{◌≡◌, ◌≤◌, length};
ghost use Rattle.mc_c.specs.Exports.{Holds};

mod command;
mod disk;
mod engines;
mod exports;
mod source;
#[cfg(test)]
mod tests;

pub use command::{Lengths, mcsim_run};
pub use exports::{
    mcsim_census, mcsim_flash_at_cut, mcsim_flash_left, mcsim_outcome, mcsim_rows, mcsim_sectors,
    mcsim_tears, mcsim_trace,
};
pub use source::Source;

// Puts as many bytes of a text into a buffer as fit, and says how many it has.
fn put(buffer: &mut [u8], text: &[u8]) -> u64
    ensures holds { Holds buffer.new result text.now }
    ensures size { length buffer.new ≡ length buffer.old }
{
    let count = buffer.len().min(text.len());
    buffer[..count].copy_from_slice(&text[..count]);
    text.len() as u64
}
