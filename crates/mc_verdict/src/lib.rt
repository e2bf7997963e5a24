//! Rows that are listed or counted, and the verdict on them: what the words ask, the exploration that they ask for, and what is printed of it,
//! of schedules and of campaigns alike.
#![tactic(auto)]

pub mod census;
mod explorable;
pub mod explore;
mod shortest;
mod verdict;

pub use explorable::Explorable;
pub use shortest::Shortest;
pub use verdict::{Asked, Ends};
