//! What an event would make of a configuration, or why it is none.

ghost use Rattle.std.specs.Prelude.{◌≡◌, [], ◌∷◌, IfOk};
ghost use Rattle.sf_core.specs.Machine.Config.{runs};
ghost use Rattle.sf_frame.specs.Frames.{frame_of};
ghost use Rattle.sf_machine.specs.Checked.Plans.{answer_of, IsPlanOf};
ghost use Rattle.sf_machine.specs.Tasks.{task_of};

use crate::event::Stepped;
use crate::task::{Change, Task};
use sf_frame::{Effect, Frame, Refusal, Stack};
use std::alloc::{AllocError, Global};

/// What an event would make of a configuration, or why it is none.
#[derive(Drop)]
pub(crate) enum Plan<'p> {
    Acts(Effect, Change<'p>),
    Refused(Stepped),
}

/// The plan of a stack of frames as one of a task: the children of a fork are boxed.
pub(crate) fn of_stack<'p>(alloc: Global, plan: sf_frame::Plan<'p>) -> Result<Plan<'p>, AllocError>
    ensures { IfOk result (IsPlanOf plan.entry) }
{
    match plan {
        sf_frame::Plan::Acts(effect, change) => Ok(Plan::Acts(effect, Change::Steps(change))),
        sf_frame::Plan::Forks(left, right) => {
            let one = child(alloc, left.frame)?;
            let two = child(alloc, right.frame)?;
            Ok(Plan::Acts(
                Effect::OpenBoth(left.opening, right.opening),
                Change::Fork(one, two),
            ))
        }
        sf_frame::Plan::Refused(why) => Ok(Plan::Refused(answer(why))),
    }
}

/// The task of a frame.
fn child<'p>(alloc: Global, frame: Frame<'p>) -> Result<Box<Task<'p>>, AllocError>
    ensures { IfOk result (λ task. task_of task.value ≡ runs (frame_of frame.entry ∷ [])) }
{
    let task = Box::new(alloc, Task::Runs(Stack::of(alloc, frame)))?;
    Ok(task)
}

/// What a step answers for that reason.
fn answer(why: Refusal) -> Stepped
    ensures { result ≡ answer_of why }
{
    match why {
        Refusal::Absent(value) => Stepped::Absent(value),
        Refusal::Waiting(r) => Stepped::Waiting(r),
        Refusal::Stale => Stepped::Stale,
        Refusal::TooDeep => Stepped::TooDeep,
    }
}
