//! What is seen of a configuration: the command that a task does next, the values of variables in the
//! frame that does it, and the cells.

ghost use Rattle.std.specs.Prelude.{◌≡◌, IfSome};
ghost use Rattle.sf_core.specs.Program.View.{command_of};
ghost use Rattle.sf_heap.specs.Cells.{heap_of};
ghost use Rattle.sf_machine.specs.Configs.{config_of};
ghost use Rattle.sf_machine.specs.Seen.{DoesNext, HasThere};

use crate::config::Config;
use crate::following::{Next, next_of};
use sf_base::{TaskPath, Value, Var};
use sf_core::Command;
use sf_heap::Heap;

impl<'p> Config<'p> {
    /// The cells.
    pub fn heap(&self) -> &Heap
        ensures { heap_of result.now ≡ (config_of self.now).common.heap }
    {
        &self.common.heap
    }

    /// The command that the task at a path does next. Where there is one, it is that command; there is
    /// none where no task is at the path, and where what it does next is no command.
    pub fn next_command(&self, task: TaskPath) -> Option<&'p Command>
        ensures { IfSome result (λ one. DoesNext (config_of self.now) task (command_of one.now)) }
    {
        let at = self.tasks.at(task.turns())?;
        match next_of(at, task.len() == 0) {
            Next::Does(_, command) => Some(command),
            Next::Leaves(_) => None,
            Next::Returns(_, _) => None,
            Next::Joins => None,
            Next::Nothing => None,
        }
    }

    /// The value that a variable has in the frame that does the next command of the task at a path, if
    /// one does.
    pub fn value_there(&self, task: TaskPath, x: Var) -> Option<Value>
        ensures { IfSome result (λ v. HasThere (config_of self.now) task x v) }
    {
        let at = self.tasks.at(task.turns())?;
        match next_of(at, task.len() == 0) {
            Next::Does(frame, _) => Some(self.common.store.get(frame.spot(x))),
            Next::Leaves(_) => None,
            Next::Returns(_, _) => None,
            Next::Joins => None,
            Next::Nothing => None,
        }
    }
}
