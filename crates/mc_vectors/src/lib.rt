//! The distinct flashes that power cuts leave, each with the first schedule that leaves it, for a boot loader to be tried on; and which
//! of them comes nearest to a given flash.
#![tactic(auto)]

mod case;
mod digests;
mod locating;
mod search;
mod table;

pub use case::{Case, Found};
pub use digests::Digests;
pub use locating::{Located, SectorId, locate, write_located};
pub use search::find_cases;
pub use table::{NAMES, ended_line, write_cases};
