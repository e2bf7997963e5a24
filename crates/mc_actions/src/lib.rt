//! The commands on an image, on one schedule of power cuts or one campaign, and on a device's life, each with its files.
#![tactic(auto)]

pub mod create;
pub mod creation;
pub mod dumpinfo;
pub mod explain;
pub mod infile;
pub mod layout;
pub mod life;
pub mod replay;
pub mod rounds;
pub mod schedule;
pub mod trace;
pub mod trailers;
pub mod vectors;
pub mod verify;
