//! A walk through a tree of flash contents, depth first, over one flash with checkpoints. What the tree is stands in a trait.
#![tactic(auto)]

mod child_steps;
mod enter;
mod flash_tree;
mod frame;
mod tour;
mod walk;

pub use flash_tree::FlashTree;
pub use frame::Frame;
pub use tour::{Phase, Tour, TourError};
pub use walk::Walk;
