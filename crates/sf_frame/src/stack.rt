//! The frames of a task.

ghost use Rattle.std.specs.Prelude.{◌≡◌, ◌↔◌, ◌+◌, ◌≤◌, [], ◌∷◌, IsTrue, IfOk, OnErr, OnOk, vec_len, vec_capacity};
ghost use Rattle.sf_core.specs.Machine.Config.{runs};
ghost use Rattle.sf_core.specs.Machine.Enabled.{HasEnded};
ghost use Rattle.sf_frame.specs.Frames.{frame_of, frames_of, stack_of};
ghost use Rattle.sf_frame.specs.Checked.Frames.{after, frames_left, moved, HasRoom, IsCall};

use crate::frame::{Frame, Way};
use std::alloc::{AllocError, Global};

/// The frames of a task: the innermost, and those below it, of which the outermost comes first.
#[derive(Drop)]
pub struct Stack<'p> {
    pub(crate) frame: Frame<'p>,
    pub(crate) below: Vec<Frame<'p>>,
}

/// What an event makes of the frames of a task.
#[derive(Drop)]
pub enum Change<'p> {
    /// The innermost frame goes on that way.
    GoOn(Way),
    /// A callee's frame comes above, and the one that called it goes on after the call.
    Call(Frame<'p>),
    /// The innermost frame is gone.
    Return,
}

impl<'p> Stack<'p> {
    /// A stack of one frame.
    pub fn of(alloc: Global, frame: Frame<'p>) -> Stack<'p>
        ensures { stack_of result ≡ frame_of frame.entry ∷ [] }
    {
        Stack {
            frame,
            below: Vec::new(alloc),
        }
    }

    /// A stack of two frames. An `Err` says that memory ran out.
    pub fn above(alloc: Global, frame: Frame<'p>, outer: Frame<'p>) -> Result<Stack<'p>, AllocError>
        ensures { IfOk result
            (λ s. stack_of s ≡ frame_of frame.entry ∷ frame_of outer.entry ∷ []) }
    {
        let mut below = Vec::new(alloc);
        below.push(outer)?;
        Ok(Stack { frame, below })
    }

    /// Whether the entry's task has ended that has these frames.
    pub fn has_ended(&self) -> bool
        ensures { IsTrue result ↔ HasEnded [] (runs (stack_of self.now)) }
    {
        self.below.as_slice().is_empty() && self.frame.todo.as_slice().is_empty()
    }

    /// Takes room for a change: only a call wants memory, for one frame more. An `Err` says that it
    /// ran out.
    pub fn reserve(&mut self, change: &Change<'p>) -> Result<(), AllocError>
        ensures same { stack_of self.new ≡ stack_of self.old }
        ensures ok { OnOk result (HasRoom change.now self.new) }
        ensures memory { OnErr result (IsCall change.now) }
    {
        if let Change::Call(_) = change {
            self.below.reserve(1)?;
        }
        Ok(())
    }

    /// The innermost frame goes on that way. It wants no memory.
    pub fn advance(&mut self, way: Way)
        ensures { stack_of self.new ≡ moved (Change.GoOn way) (stack_of self.old) }
    {
        self.frame.go_on(way);
    }

    /// The stack after its innermost frame went on that way. It wants no memory.
    pub fn advanced(mut self, way: Way) -> Stack<'p>
        ensures { stack_of result ≡ moved (Change.GoOn way) (stack_of self.entry) }
    {
        self.advance(way);
        self
    }

    /// The stack after a change, if a frame is left. It wants no memory.
    pub fn changed(self, change: Change<'p>) -> Option<Stack<'p>>
        requires { HasRoom change self }
        ensures { frames_left result ≡ moved change.entry (stack_of self.entry) }
    {
        match change {
            Change::GoOn(way) => Some(self.advanced(way)),
            Change::Call(callee) => Some(called(self.frame, self.below, callee)),
            Change::Return => returned(self.below),
        }
    }
}

/// The stack of a callee above those frames, of which the innermost called it.
fn called<'p>(mut frame: Frame<'p>, mut below: Vec<Frame<'p>>, callee: Frame<'p>) -> Stack<'p>
    requires { vec_len below + 1 ≤ vec_capacity below }
    ensures { stack_of result ≡ frame_of callee.entry ∷ after (frame_of frame.entry)
        ∷ frames_of below.entry.items }
{
    frame.go_on(Way::Past);
    below.push_reserved(frame);
    Stack {
        frame: callee,
        below,
    }
}

/// The stack of those frames, if there are any.
#[tactic(auto, using(crate::proofs::Stacks::frames_snoc))]
fn returned<'p>(mut below: Vec<Frame<'p>>) -> Option<Stack<'p>>
    ensures { frames_left result ≡ frames_of below.entry.items }
{
    match below.pop() {
        Some(frame) => Some(Stack { frame, below }),
        None => None,
    }
}
