//! What a stack of frames does next.

ghost use Rattle.std.specs.Prelude.{◌≡◌, ◌↔◌, List, [], ◌∷◌, IsTrue};
ghost use Rattle.sf_core.specs.Machine.Config.{Frame as F};
ghost use Rattle.sf_frame.specs.Checked.Nexts.{IsNext};
ghost use Rattle.sf_frame.specs.Frames.{frame_of, stack_of};

use crate::frame::{Frame, Room};
use crate::stack::Stack;
use crate::todo::Todo;
use sf_base::{ProcId, ResId};
use sf_core::Command;

/// What a stack of frames does next.
#[derive(Drop)]
pub enum Next<'a, 'p> {
    /// The innermost frame does that command.
    Does(&'a Frame<'p>, &'p Command),
    /// It leaves the region of that resource.
    Leaves(ResId),
    /// It returns, whose procedure is that one, and its room vanishes.
    Returns(ProcId, Room),
    /// Nothing: it is the entry's, and has ended.
    Done,
}

/// What a stack of frames does next, which is the entry's or not. The entry's task has ended where
/// its one frame has nothing more to do.
pub fn next_of<'a, 'p>(stack: &'a Stack<'p>, is_entry: bool) -> Next<'a, 'p>
    ensures { IsNext (stack_of stack.now) is_entry result }
{
    frame_next(&stack.frame, stack.below.as_slice().is_empty(), is_entry)
}

/// What a frame does next, which is alone in the entry's task or not.
fn frame_next<'a, 'p>(frame: &'a Frame<'p>, is_alone: bool, is_entry: bool) -> Next<'a, 'p>
    ensures { (below : List F) → IsTrue is_alone ↔ (below ≡ [])
        → IsNext (frame_of frame.now ∷ below) is_entry result }
{
    let Some((todo, _)) = frame.todo.as_slice().split_last() else {
        return if is_entry && is_alone {
            Next::Done
        } else {
            Next::Returns(frame.procedure, frame.room)
        };
    };
    match *todo {
        Todo::Commands(command, _) => Next::Does(frame, command),
        Todo::Leave(r) => Next::Leaves(r),
    }
}
