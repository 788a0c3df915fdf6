//! What is found of a schedule, and why nothing is.

use sf_base::{TaskPath, Thing, Value};
use sf_machine::Stepped;
use std::alloc::AllocError;
use thiserror::Error;

/// What comes of a schedule.
#[derive(Clone, Copy, Debug, PartialEq, Eq)]
pub enum Found {
    /// Each event has a step, and no configuration is bad.
    Clean,
    /// After so many events this task is about to touch a cell at this value, where there is none.
    Absent(u64, TaskPath, Value),
    /// After so many events these two tasks race on this thing.
    Race(u64, TaskPath, TaskPath, Thing),
}

/// Why nothing is found of a schedule.
#[derive(Clone, Copy, Debug, PartialEq, Eq, Error)]
pub enum ReplayFault {
    /// The event of this number, counted from 0, is none, for that reason, and no configuration
    /// before it is bad.
    #[error("an event that has no step")]
    NotAnEvent(usize, Stepped),
    /// Memory ran out.
    #[error("out of memory")]
    OutOfMemory,
}

impl From<AllocError> for ReplayFault {
    ghost use Rattle.std.specs.Prelude.{◌≡◌};
    ghost use Rattle.sf_replay.specs.declared.found.ReplayFault.TheVariants.{OutOfMemory};

    ghost from_gives = { λ _ e. e ≡ OutOfMemory };

    fn from(_error: AllocError) -> ReplayFault {
        ReplayFault::OutOfMemory
    }
}
