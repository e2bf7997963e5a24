//! What a torn operation leaves: the flashes that the next boot can tell apart, each by what it reads of them.
#![tactic(auto)]

mod law;
mod named;
mod reading;
mod torn;

pub use law::readings_law;
pub use named::{Fields, is_case};
pub use reading::{Entry, Reading};
pub use torn::{Erasing, is_there, put_torn, slot_of, written_len};
