//! The flashes that a swap starts from, schedules of power cuts, and where to go on after one.
#![tactic(auto)]

mod cursor;
mod cursor_fields;
mod cursor_reading;
mod cursor_text;
mod schedule;
mod slots;
mod start;

pub use cursor::{Cursor, CursorError};
pub use cursor_fields::{RulesField, StartField, next_field, read_digest};
pub use mc_output::{Line, MOST_LINE};
pub use schedule::{MOST_CUTS, Schedule, ScheduleError};
pub use start::{Start, StartError};
