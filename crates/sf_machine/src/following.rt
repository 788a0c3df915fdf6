//! What a task does next.

ghost use Rattle.std.specs.Prelude.{◌≡◌};
ghost use Rattle.sf_machine.specs.Checked.Nexts.{next_by, IsNext};
ghost use Rattle.sf_machine.specs.Tasks.{task_of};

use crate::task::Task;
use sf_base::{ProcId, ResId};
use sf_core::Command;
use sf_frame::{Frame, Room};

/// What a task does next, where it hasn't ended and needn't wait for its children.
#[derive(Drop)]
pub(crate) enum Next<'a, 'p> {
    Does(&'a Frame<'p>, &'p Command),
    Leaves(ResId),
    Returns(ProcId, Room),
    Joins,
    Nothing,
}

/// What a task does next. The entry's task has ended where its one frame has nothing more to do.
pub(crate) fn next_of<'a, 'p>(task: &'a Task<'p>, is_entry: bool) -> Next<'a, 'p>
    ensures { IsNext (task_of task.now) is_entry result }
{
    match task {
        Task::Over => Next::Nothing,
        Task::Waits(_, left, right) => {
            if left.as_ref().is_over() && right.as_ref().is_over() {
                Next::Joins
            } else {
                Next::Nothing
            }
        }
        Task::Runs(stack) => of_stack(sf_frame::next_of(stack, is_entry)),
    }
}

/// What a task does next whose frames do that.
fn of_stack<'a, 'p>(next: sf_frame::Next<'a, 'p>) -> Next<'a, 'p>
    ensures { result ≡ next_by next.entry }
{
    match next {
        sf_frame::Next::Does(frame, command) => Next::Does(frame, command),
        sf_frame::Next::Leaves(r) => Next::Leaves(r),
        sf_frame::Next::Returns(g, room) => Next::Returns(g, room),
        sf_frame::Next::Done => Next::Nothing,
    }
}
