//! A flash that power cuts leave, and what the boot from there does.
use mc_boot::Outcome;
use mc_explore::Schedule;

/// A flash that power cuts leave.
#[derive(Clone, Copy, Debug)]
pub struct Case {
    /// The first schedule that leaves it: the shortest, and of those the first in their order.
    pub schedule: Schedule,
    /// The digest that names it.
    pub digest: [u8; 32],
    /// The outcome of the uncut boot from there.
    pub outcome: Outcome,
    /// The digest of the flash that this boot leaves.
    pub left: [u8; 32],
    /// Whether the flashes that cuts of this boot leave are known to be those that cuts of a shorter schedule's boot leave.
    pub(crate) joins: bool,
}

/// The flashes that schedules of at most so many cuts leave.
#[derive(Drop)]
pub struct Found {
    /// In the order of their schedules.
    pub cases: Vec<Case>,
    /// Whether no number of cuts leaves another.
    pub whole: bool,
}
