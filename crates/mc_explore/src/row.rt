//! A schedule with its outcome.
use mc_boot::Outcome;
use mc_start::Schedule;

/// A schedule, and the outcome of the boot that is not cut after it.
#[derive(Clone, Copy, Debug)]
pub struct Row {
    pub schedule: Schedule,
    pub outcome: Outcome,
}
