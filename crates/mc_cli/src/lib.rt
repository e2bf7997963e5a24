//! The command line of `mcsim` as clap reads it, with its help; what each refusal means; what stands for imgtool's other options; and
//! files and a writer that remember what failed.
#![tactic(auto)]

mod command;
mod explanations;
mod imgtool;
mod known;
mod watched;

pub use command::{VERSION, parse};
pub use explanations::{Explanation, all_explanations};
pub use imgtool::left_out;
pub use known::{KnownFiles, have_one_number};
pub use watched::{Failed, WatchedFiles, WatchedWriter};
