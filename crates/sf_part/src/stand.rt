//! How a task stands.

ghost use Rattle.std.specs.Prelude.{◌≡◌, OnErr, OnOk};
ghost use Rattle.sf_core.specs.Machine.Whole.{running, waiting};
ghost use Rattle.sf_frame.specs.Checked.Frames.{IsCall, moved};
ghost use Rattle.sf_part.specs.Of.{frames_in};
ghost use Rattle.sf_part.specs.Stands.{stand_in};
ghost use Rattle.sf_part.specs.Checked.Standing.{HasStandRoom, Runs};

use sf_frame::{Change, Stack, Way};
use std::alloc::AllocError;

/// How a task stands: it runs its frames, or waits with them at a fork for its two children; or it
/// is a child that has ended and has none.
#[derive(Drop)]
pub(crate) enum Stand<'p> {
    Runs(Stack<'p>),
    Waits(Stack<'p>),
    Over,
}

impl<'p> Stand<'p> {
    /// Takes room for a change of the frames: only a call wants memory. An `Err` says that it ran
    /// out.
    pub(crate) fn reserve(&mut self, change: &Change<'p>) -> Result<(), AllocError>
        ensures same { stand_in self.new ≡ stand_in self.old }
        ensures ok { OnOk result (HasStandRoom change.now self.new) }
        ensures memory { OnErr result (IsCall change.now) }
    {
        match self {
            Stand::Runs(stack) => stack.reserve(change),
            Stand::Waits(_) => Ok(()),
            Stand::Over => Ok(()),
        }
    }

    /// How the task stands once its frames have changed.
    pub(crate) fn changed(self, change: Change<'p>) -> Stand<'p>
        requires runs { Runs self }
        requires room { HasStandRoom change self }
        ensures { stand_in result ≡ running (moved change.entry (frames_in (stand_in self.entry))) }
    {
        match self {
            Stand::Runs(stack) => match stack.changed(change) {
                Some(left) => Stand::Runs(left),
                None => Stand::Over,
            },
            Stand::Waits(stack) => Stand::Waits(stack),
            Stand::Over => Stand::Over,
        }
    }

    /// How the task stands once it waits no longer: it runs its frames.
    pub(crate) fn resumed(self) -> Stand<'p>
        ensures { stand_in result ≡ running (frames_in (stand_in self.entry)) }
    {
        match self {
            Stand::Runs(stack) => Stand::Runs(stack),
            Stand::Waits(stack) => Stand::Runs(stack),
            Stand::Over => Stand::Over,
        }
    }

    /// How the task stands that waits for the children of a parallel call, past which its frames go
    /// on.
    pub(crate) fn waiting(self) -> Stand<'p>
        requires { Runs self }
        ensures { stand_in result
            ≡ waiting (moved (Change.GoOn Way.Past) (frames_in (stand_in self.entry))) }
    {
        match self {
            Stand::Runs(stack) => Stand::Waits(stack.advanced(Way::Past)),
            Stand::Waits(stack) => Stand::Waits(stack),
            Stand::Over => Stand::Over,
        }
    }
}
