//! Logs: which events there were, and when.

use sf_base::TaskPath;

/// An entry of a log: when an event was, whose it was, and its number.
#[derive(Clone, Copy, Debug, PartialEq, Eq)]
pub struct Stamped {
    /// The clock of the event's task just after it.
    pub stamp: u64,
    /// The path of the task.
    pub task: TaskPath,
    /// The number of the event.
    pub number: u64,
}

/// A log: an entry for each event that was noted. Those of one task are in the order of their
/// stamps; those of its children come where it joined them, the left one's first.
#[derive(Debug, Drop)]
pub struct Log {
    /// The entries.
    pub entries: Vec<Stamped>,
}
