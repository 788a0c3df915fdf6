//! Events, and what a step answers.

ghost use Rattle.std.specs.Prelude.{◌≡◌};
ghost use Rattle.sf_frame.specs.Stamps.{event_of};
ghost use Rattle.sf_heap.specs.Cells.{cell_of};
ghost use Rattle.sf_machine.specs.Events.{event_of as event_of_code};

use sf_base::{ResId, TaskPath, Value};
use sf_frame::Stamp;
use sf_heap::Cell;

/// An event: of which task, and its number. A `new` makes a cell with those fields at that
/// location; other events have no use for the two.
#[derive(Debug, Drop)]
pub struct Event {
    /// The path of the task.
    pub task: TaskPath,
    /// The number, by which the slots are named that the event makes.
    pub number: u64,
    /// The location of the cell that a `new` makes.
    pub at: u64,
    /// The values of its fields.
    pub fields: Cell,
}

impl Event {
    /// The event without the fields of its cell.
    pub(crate) fn stamp(&self) -> Stamp
        ensures event { event_of result (cell_of self.now.fields) ≡ event_of_code self.now }
        ensures number { result.number ≡ self.now.number }
    {
        Stamp {
            task: self.task,
            number: self.number,
            at: self.at,
        }
    }
}

/// What a step answers.
#[derive(Clone, Copy, Debug, PartialEq, Eq)]
pub enum Stepped {
    /// The configuration is the next one.
    Moved,
    /// The task would touch a cell where there is none: this value isn't the location of one.
    Absent(Value),
    /// The task is at a region whose resource is held or whose condition is false.
    Waiting(ResId),
    /// There is no such task, or it has ended, or it waits for children that haven't ended.
    NoTask,
    /// The number was used, or the location of a `new` is 0 or has a cell.
    Stale,
    /// The task is at a fork, and its path has no room for another turn.
    TooDeep,
}
