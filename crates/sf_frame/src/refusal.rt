//! Why the event of a command is none.

use sf_base::{ResId, Value};

/// Why the event of a command is none.
#[derive(Clone, Copy, Debug, PartialEq, Eq)]
pub enum Refusal {
    /// It would touch a cell where there is none: this value isn't the location of one.
    Absent(Value),
    /// It is a region whose resource is held or whose condition is false.
    Waiting(ResId),
    /// The location of a `new` is 0 or has a cell.
    Stale,
    /// It is a fork, and the task's path has no room for another turn.
    TooDeep,
}
