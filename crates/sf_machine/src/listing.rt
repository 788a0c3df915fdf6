//! The paths of all tasks.

ghost use Rattle.std.specs.Prelude.{◌≡◌, ◌++◌, ◌-◌, length, map, IfOk, OnOk};
ghost use Rattle.sf_base.specs.declared.limits.TheConstants.{TURNS};
ghost use Rattle.sf_core.specs.Checked.Machine.InOrder.{HasTurns};
ghost use Rattle.sf_core.specs.Program.ProgramView.{program_of};
ghost use Rattle.sf_machine.specs.Configs.{config_of};
ghost use Rattle.sf_machine.specs.Paths.{paths_of};
ghost use Rattle.sf_machine.specs.Reached.{IsReached};
ghost use Rattle.sf_machine.specs.Tasks.{task_of};

use crate::config::Config;
use crate::task::Task;
use sf_base::{TaskPath, Turn};
use sf_core::Program;
use std::alloc::AllocError;

/// The paths of all tasks of a configuration: that of a task comes before those of its children,
/// and those of the left child and below it before those of the right one. An `Err` says that
/// memory ran out.
pub fn paths(p: &Program, c: &Config<'_>) -> Result<Vec<TaskPath>, AllocError>
    requires { IsReached (program_of p.now) (config_of c.now) }
    ensures { IfOk result (λ paths. paths.items ≡ paths_of (config_of c.now).tasks) }
{
    let mut paths = Vec::new(c.common.alloc);
    add_paths(&c.tasks, TaskPath::entry(), &mut paths)?;
    Ok(paths)
}

/// Appends the paths of a task, which is at that path, and of all below it.
fn add_paths(task: &Task<'_>, path: TaskPath, paths: &mut Vec<TaskPath>) -> Result<(), AllocError>
    requires { HasTurns (TURNS - length path) (task_of task.now) }
    ensures { OnOk result (paths.new.items
        ≡ paths.old.items ++ map (λ q. path ++ q) (paths_of (task_of task.now))) }
{
    paths.push(path)?;
    if let Task::Waits(_, left, right) = task {
        add_paths(left.as_ref(), path.child(Turn::Left), paths)?;
        add_paths(right.as_ref(), path.child(Turn::Right), paths)?;
    }
    Ok(())
}
