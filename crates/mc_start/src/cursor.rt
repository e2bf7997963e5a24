//! Where to go on with an exploration.

ghost use Rattle.std.specs.Prelude.{◌≡◌, ◌≤◌};
ghost use Rattle.mc_start.specs.Cursor.{cursor_of};
ghost use Rattle.mc_start.specs.Start.{begun};

use crate::{Schedule, Start};
use mc_trailer::Rules;
use thiserror::Error;

/// A text that is no cursor's.
#[derive(Clone, Copy, Debug, PartialEq, Eq, Error)]
#[error("E55 Syntax")]
pub struct CursorError;

/// Where to go on with an exploration: after a schedule, of a start (named by its digest) under some rules, with so
/// many cuts at most. It takes no memory.
#[derive(Clone, Copy, Debug)]
pub struct Cursor {
    /// The rules of the boots.
    pub rules: Rules,
    /// What distinguishes the start: `Start::digest`.
    pub digest: [u8; 32],
    /// The most cuts of a schedule.
    pub bound: u8,
    /// The schedule after which to go on.
    pub schedule: Schedule,
}

impl Cursor {
    /// The cursor that goes on after a schedule, of a start and at most so many cuts: the one that a page which ends with
    /// the row of that schedule names. It takes no memory.
    /// Promised: a schedule's cursor is the page's (`cursor_of`).
    pub fn of(start: &Start, bound: u8, schedule: &Schedule) -> Cursor
        requires { bound ≤ 16 }
        ensures { result ≡ cursor_of (begun start.now) bound schedule.now }
    {
        Cursor {
            rules: start.rules(),
            digest: start.digest(),
            bound,
            schedule: *schedule,
        }
    }
}
