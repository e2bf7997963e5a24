//! The image tool: `create`, `verify` and `dumpinfo`, over any reader and any writer.
#![tactic(auto)]

mod creation;
mod error;
mod input;
mod output;
mod report;
mod verification;

pub use creation::{CreateOptions, create};
pub use error::ToolError;
pub use input::read_bounded;
pub use report::dumpinfo;
pub use verification::verify;
