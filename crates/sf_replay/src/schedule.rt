//! A schedule, what a line of one says, and why a text is none.

use sf_base::Sequence;
use sf_machine::Event;
use std::alloc::{AllocError, AllocFailed};
use thiserror::Error;

/// An event of a schedule, and the number, from 1, of the line that gives it.
#[derive(Debug, Drop)]
pub struct Scheduled {
    /// The event.
    pub event: Event,
    /// The number of its line.
    pub line: u32,
}

/// The events of a schedule, in order.
pub type Schedule = Sequence<Scheduled>;

/// What a line of a schedule's text says.
#[derive(Debug, Drop)]
pub enum Said {
    /// Nothing: it is a comment, or a line without words.
    Nothing,
    /// It is no line of a schedule's text.
    Bad,
    /// This event is next.
    Happens(Event),
}

/// Why a text is no schedule.
#[derive(Clone, Copy, Debug, PartialEq, Eq, Error)]
pub enum ScheduleFault {
    /// Kind 80: the number, from 1, of the first line that has none of the forms.
    #[error("a line that is none of a schedule")]
    BadLine(u32),
    /// Kind 81: the text has too many bytes or events.
    #[error("a schedule longer than 67,108,864 bytes, or of more than 1,000,000 events")]
    TooLong,
    /// Memory ran out.
    #[error("out of memory")]
    OutOfMemory,
}

impl From<AllocError> for ScheduleFault {
    ghost use Rattle.std.specs.Prelude.{◌≡◌};
    ghost use Rattle.sf_replay.specs.declared.schedule.ScheduleFault.TheVariants.{OutOfMemory};

    ghost from_gives = { λ _ e. e ≡ OutOfMemory };

    fn from(_error: AllocError) -> ScheduleFault {
        ScheduleFault::OutOfMemory
    }
}

impl<T: Drop> From<AllocFailed<T>> for ScheduleFault {
    ghost use Rattle.std.specs.Prelude.{◌≡◌};
    ghost use Rattle.sf_replay.specs.declared.schedule.ScheduleFault.TheVariants.{OutOfMemory};

    ghost from_gives = { λ _ e. e ≡ OutOfMemory };

    fn from(_error: AllocFailed<T>) -> ScheduleFault {
        ScheduleFault::OutOfMemory
    }
}
