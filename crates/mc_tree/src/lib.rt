//! Trees whose nodes have numbered children, their paths in order, and the one list of rows that stands for them. What the
//! crates above cite of it stands in specs/; it has no code but the law of the order and the order as a test.
#![tactic(auto)]

mod laws;
mod order;

pub use laws::paths_are_ordered;
pub use order::precedes;
