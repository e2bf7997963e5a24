//! What power cuts do to a boot, traced operation by operation; what lies in each sector and slot then, and how that differs
//! from the start; and a layout in numbers.
#![tactic(auto)]

mod boot_frames;
mod boots;
mod cells;
mod error;
mod frame;
mod frames;
mod header;
mod hints;
mod inspection;
mod layout;
mod operation;
mod page;
mod patch;
mod picture;
mod runs;
mod sections;
mod sectors;
mod slot_cells;
mod slot_words;
mod slots;
mod torn;
mod trace;
mod verdict;
mod wear;

pub use cells::Words;
pub use error::TraceError;
pub use frames::write_frames;
pub use inspection::write_inspection;
pub use layout::write_layout;
pub use patch::write_patch;
pub use picture::write_picture;
pub use sectors::{Moment, View, write_sectors};
pub use slots::write_slots;
pub use trace::{Span, write_trace};
pub use wear::Times;
