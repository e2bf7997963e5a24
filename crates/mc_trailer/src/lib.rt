//! The trailer at the end of a slot: its fields, the status entries of a swap, and the swap tables.
#![tactic(auto)]

mod entries;
mod laws;
mod places;
mod tables;
mod text;
mod trailer;

pub use entries::highest_entry;
pub use laws::{fields_read_back, highest_after_a_write, magic_of_a_trailer, one_row};
pub use places::{Field, entry_place, place};
pub use tables::{Profile, Rules, SwapType, resumes, resumes_by, swap_type};
pub use trailer::{Flag, MAGIC, Magic, Trailer};
