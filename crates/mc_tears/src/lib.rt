//! What the torn operations of a boot lead to: how the boot from each flash that can be told apart ends.
#![tactic(auto)]

mod as_whole;
mod case_flash;
mod cases;
mod end;
mod error;
mod law;
mod lines;
mod loading;
mod loss;
mod losses;
mod lost_table;
mod tears;

pub use case_flash::flash_after;
pub use cases::Asked;
pub use error::TearError;
pub use law::ends_law;
pub use lines::tear_lines;
pub use loss::Loss;
pub use losses::{LostCase, LostCases, find_losses, start_after};
pub use lost_table::write_lost;
pub use mc_tear::{Entry, Erasing, Reading};
pub use tears::write_tears;
