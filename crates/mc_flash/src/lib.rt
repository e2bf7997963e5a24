//! The layout of two slots in a flash, the flash itself as a model, and two flashes in memory: one keeps copies, the other
//! a journal.
#![tactic(auto)]

mod content;
mod entry;
mod erased;
mod flash;
mod journal;
mod layout;
mod op;
mod reserve;
mod slots;
mod snap;
mod text;

pub use content::Content;
pub use erased::{blank, blank_lanes};
pub use flash::{Flash, FlashError, Grain};
pub use journal::JournalFlash;
pub use layout::{Layout, LayoutError};
pub use op::{Bytes16, Op, Slot};
pub use reserve::most_operations;
pub use snap::SnapFlash;
