//! Answers to a task that asks for a step of its own.

use sf_base::{ResId, Value};

/// What a task is told that asks for a step that is its own affair.
#[derive(Clone, Copy, Debug, PartialEq, Eq)]
pub enum Local {
    /// It is made.
    Moved,
    /// The next step is the entry of a region of that resource.
    AtRegion(ResId),
    /// It is the exit from one.
    AtExit(ResId),
    /// It is a parallel call.
    AtFork,
    /// It is the return of the procedure that sets the resources up.
    AtInit,
    /// The task has ended.
    Done,
    /// The step would be its own affair, and there is no number for its event.
    Spent,
    /// It would touch the cell at this value, and the part has none there.
    Absent(Value),
}
