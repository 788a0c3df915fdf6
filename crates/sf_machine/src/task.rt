//! The tree of tasks.

ghost use Rattle.std.specs.Prelude.{◌≡◌, ◌↔◌, [], ◌∷◌, Some, None, IsTrue, OnOk};
ghost use Rattle.std.specs.Option.{option_map};
ghost use Rattle.sf_core.specs.Machine.Config.{task_at, runs, IsOver};
ghost use Rattle.sf_frame.specs.Frames.{stack_of};
ghost use Rattle.sf_machine.specs.Tasks.{task_of};
ghost use Rattle.sf_machine.specs.Checked.Tasks.{moved, at_path, HasRoom, HasRoomIn};

use sf_base::Turn;
use sf_frame::{Change as StackChange, Stack, Way};
use std::alloc::AllocError;
use std::mem::replace;

/// A task: it is over, it runs its frames, or it waits with them for its two children.
#[derive(Drop)]
pub(crate) enum Task<'p> {
    Over,
    Runs(Stack<'p>),
    Waits(Stack<'p>, Box<Task<'p>>, Box<Task<'p>>),
}

/// What an event makes of a task.
#[derive(Drop)]
pub(crate) enum Change<'p> {
    Steps(StackChange<'p>),
    Fork(Box<Task<'p>>, Box<Task<'p>>),
    Join,
}

impl<'p> Task<'p> {
    /// Whether the task is over.
    pub(crate) fn is_over(&self) -> bool
        ensures { IsTrue result ↔ IsOver (task_of self.now) }
    {
        match self {
            Task::Over => true,
            Task::Runs(_) => false,
            Task::Waits(_, _, _) => false,
        }
    }

    /// The task at the end of a path, if there is one.
    pub(crate) fn at(&self, path: &[Turn]) -> Option<&Task<'p>>
        ensures { option_map (λ t. task_of t.now) result ≡ task_at path.now (task_of self.now) }
    {
        let mut task = self;
        for turn in path {
            match task {
                Task::Over => return None,
                Task::Runs(_) => return None,
                Task::Waits(_, left, right) => task = match turn {
                    Turn::Left => left.as_ref(),
                    Turn::Right => right.as_ref(),
                },
            }
        }
        Some(task)
    }

    /// Takes room for a change of the task at the end of a path. An `Err` says that memory ran out.
    pub(crate) fn reserve_at(
        &mut self,
        path: &[Turn],
        change: &Change<'p>,
    ) -> Result<(), AllocError>
        ensures same { task_of self.new ≡ task_of self.old }
        ensures ok { OnOk result (HasRoom path.now change.now self.new) }
    {
        match path.split_first() {
            None => self.reserve(change),
            Some((Turn::Left, rest)) => {
                if let Task::Waits(_, left, _) = self {
                    return left.as_mut().reserve_at(rest, change);
                }
                Ok(())
            }
            Some((Turn::Right, rest)) => {
                if let Task::Waits(_, _, right) = self {
                    return right.as_mut().reserve_at(rest, change);
                }
                Ok(())
            }
        }
    }

    /// Takes room for a change of this task.
    fn reserve(&mut self, change: &Change<'p>) -> Result<(), AllocError>
        ensures same { task_of self.new ≡ task_of self.old }
        ensures ok { OnOk result (HasRoom [] change.now self.new) }
    {
        if let Task::Runs(stack) = self {
            reserve_in(stack, change)?;
        }
        Ok(())
    }

    /// Changes the task at the end of a path.
    pub(crate) fn change_at(&mut self, path: &[Turn], change: Change<'p>)
        requires { HasRoom path.now change self.old }
        ensures { task_of self.new ≡ at_path path.now (moved change.entry) (task_of self.old) }
    {
        match path.split_first() {
            None => {
                let task = replace(self, Task::Over);
                *self = task.changed(change);
            }
            Some((Turn::Left, rest)) => {
                if let Task::Waits(_, left, _) = self {
                    left.as_mut().change_at(rest, change);
                }
            }
            Some((Turn::Right, rest)) => {
                if let Task::Waits(_, _, right) = self {
                    right.as_mut().change_at(rest, change);
                }
            }
        }
    }

    /// The task after a change.
    fn changed(self, change: Change<'p>) -> Task<'p>
        requires { HasRoom [] change self }
        ensures { task_of result ≡ moved change.entry (task_of self.entry) }
    {
        match self {
            Task::Over => Task::Over,
            Task::Runs(stack) => running(stack, change),
            Task::Waits(stack, left, right) => match change {
                Change::Join => Task::Runs(stack),
                _ => Task::Waits(stack, left, right),
            },
        }
    }
}

/// Takes room for a change of the task that runs those frames.
fn reserve_in<'p>(stack: &mut Stack<'p>, change: &Change<'p>) -> Result<(), AllocError>
    ensures same { stack_of stack.new ≡ stack_of stack.old }
    ensures ok { OnOk result (HasRoomIn change.now stack.new) }
{
    if let Change::Steps(change) = change {
        stack.reserve(change)?;
    }
    Ok(())
}

/// The task that ran those frames, after a change.
fn running<'p>(stack: Stack<'p>, change: Change<'p>) -> Task<'p>
    requires { HasRoomIn change stack }
    ensures { task_of result ≡ moved change.entry (runs (stack_of stack.entry)) }
{
    match change {
        Change::Steps(change) => match stack.changed(change) {
            Some(stack) => Task::Runs(stack),
            None => Task::Over,
        },
        Change::Fork(left, right) => Task::Waits(stack.advanced(Way::Past), left, right),
        Change::Join => Task::Runs(stack),
    }
}
