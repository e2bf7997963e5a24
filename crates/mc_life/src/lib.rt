//! A device's life, replayed: what can happen to a device, as a script states it, and what it comes to.
#![tactic(auto)]

mod boots;
mod device;
mod error;
mod event;
mod files;
mod life;
mod line;
mod request;
mod script;
mod state;
mod tear;
mod wear;
mod wear_text;
mod words;
mod work;

pub use device::Device;
pub use error::{EventError, ScriptError};
pub use event::Event;
pub use files::{File, find};
pub use life::{LifeError, replay_life};
pub use line::said;
pub use request::Request;
pub use script::Script;
pub use wear::Wear;
pub use wear_text::write_wear;
