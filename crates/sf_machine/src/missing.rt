//! Where the next step of a task finds no cell.

ghost use Rattle.std.specs.Prelude.{◌≡◌, ◌↔◌, IsTrue, MatchOption};
ghost use Rattle.sf_base.specs.declared.value.Value.{Value as V};
ghost use Rattle.sf_core.specs.Machine.Bad.{IsAbsent, TouchesNoCell};
ghost use Rattle.sf_core.specs.Machine.Config.{evaluate};
ghost use Rattle.sf_core.specs.Program.View.{command_of};
ghost use Rattle.sf_frame.specs.Commons.{common_of};
ghost use Rattle.sf_frame.specs.Frames.{fixed_of};
ghost use Rattle.sf_frame.specs.Stores.{store_of};
ghost use Rattle.sf_heap.specs.Cells.{heap_of};
ghost use Rattle.sf_machine.specs.Absent.{IsAtAbsent, root_in};
ghost use Rattle.sf_machine.specs.Checked.Missing.{Misses};
ghost use Rattle.sf_machine.specs.Configs.{config_of};

use crate::config::Config;
use crate::following::{Next, next_of};
use sf_base::{TaskPath, Value};
use sf_core::Command;
use sf_frame::{Frame, Shared, Store, evaluate};
use sf_heap::Heap;

/// The value at which the next step of the task at a path looks for a cell where there is none.
/// `None` where there is no such task, where it isn't enabled, and where its next step looks for no
/// cell or finds it.
pub fn absent(c: &Config<'_>, task: TaskPath) -> Option<Value>
    ensures { MatchOption result ((v : V) → IsAtAbsent (config_of c.now) task v → ⊥)
        (IsAtAbsent (config_of c.now) task) }
{
    let at = c.tasks.at(task.turns())?;
    match next_of(at, task.len() == 0) {
        Next::Does(frame, command) => missed(&c.common, frame, command),
        Next::Leaves(_) => None,
        Next::Returns(_, _) => None,
        Next::Joins => None,
        Next::Nothing => None,
    }
}

/// The value at which a command of a frame looks for a cell where there is none.
fn missed(common: &Shared, frame: &Frame<'_>, command: &Command) -> Option<Value>
    ensures { MatchOption result
        (TouchesNoCell (evaluate (fixed_of frame.now).slots (common_of common.now).store)
        (common_of common.now).heap (command_of command.now) → ⊥)
        (Misses (common_of common.now) (fixed_of frame.now) (command_of command.now)) }
{
    let root = root_in(&common.store, frame, command)?;
    if is_absent(&common.heap, root) {
        Some(root)
    } else {
        None
    }
}

/// The value at which a command of a frame looks for a cell, if it does.
fn root_in(store: &Store, frame: &Frame<'_>, command: &Command) -> Option<Value>
    ensures { result ≡ root_in (evaluate (fixed_of frame.now).slots (store_of store.now))
        (command_of command.now) }
{
    match command {
        Command::LookUp(_, _, e, _) => Some(evaluate(store, frame, *e)),
        Command::Mutate(_, e, _, _) => Some(evaluate(store, frame, *e)),
        Command::Dispose(_, e) => Some(evaluate(store, frame, *e)),
        Command::Assign(_, _, _) => None,
        Command::New(_, _) => None,
        Command::If(_, _, _, _) => None,
        Command::While(_, _, _, _) => None,
        Command::Call(_, _) => None,
        Command::Fork(_, _, _) => None,
        Command::With(_, _, _, _) => None,
    }
}

/// Whether the value is no location of the heap.
fn is_absent(heap: &Heap, root: Value) -> bool
    ensures { IsTrue result ↔ IsAbsent (heap_of heap.now) root }
{
    match root {
        Value::Loc(at) => heap.get(at).is_none(),
        Value::Nil => true,
        Value::Int(_) => true,
    }
}
