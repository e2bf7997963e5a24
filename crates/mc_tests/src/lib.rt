//! Tests of the libraries, through what they offer to all. They stand by themselves, so that no crate is proved again for its tests.
#![tactic(auto)]

#[cfg(test)]
mod boot;
#[cfg(test)]
mod common;
#[cfg(test)]
mod explore;
#[cfg(test)]
mod flash;
#[cfg(test)]
mod image;
#[cfg(test)]
mod imgtool;
#[cfg(test)]
mod journal;
#[cfg(test)]
mod tears;
#[cfg(test)]
mod texts;
#[cfg(test)]
mod trailer;
