//! Events.

use sf_base::TaskPath;

/// An event: of which task, and its number. A `new` makes its cell at that location; other events
/// have no use for it.
#[derive(Clone, Copy, Debug, PartialEq, Eq)]
pub struct Stamp {
    /// The path of the task.
    pub task: TaskPath,
    /// The number, by which the slots are named that the event makes.
    pub number: u64,
    /// The location of the cell that a `new` makes.
    pub at: u64,
}
