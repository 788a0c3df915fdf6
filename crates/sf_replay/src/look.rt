//! What is known of the next step of each task.

ghost use Rattle.std.specs.Prelude.{◌≡◌, IfOk, map};
ghost use Rattle.sf_core.specs.Program.ProgramView.{program_of};
ghost use Rattle.sf_machine.specs.Configs.{config_of};
ghost use Rattle.sf_machine.specs.Paths.{paths_of};
ghost use Rattle.sf_machine.specs.Reached.{IsReached};
ghost use Rattle.sf_replay.specs.Checked.Looks.{AreLooks, IsLook, meeting, seen_of};

use crate::things::least_in;
use sf_base::{TaskPath, Thing, Value};
use sf_core::Program;
use sf_machine::{Accesses, Config, absent, accesses, paths};
use std::alloc::{AllocError, Global};

/// What is known of the next step of a task: whose it is, the value at which it looks for a cell
/// where there is none, and what it reads and writes. It is nothing where it isn't enabled.
#[derive(Debug, Drop)]
pub(crate) struct Look {
    pub(crate) path: TaskPath,
    pub(crate) absent: Option<Value>,
    pub(crate) accesses: Accesses,
}

/// What is known of the next step of the task at a path.
fn make_look(p: &Program, c: &Config<'_>, path: TaskPath) -> Result<Look, AllocError>
    requires { IsReached (program_of p.now) (config_of c.now) }
    ensures { IfOk result (λ look. IsLook (config_of c.now) path (seen_of look)) }
{
    let accesses = accesses(p, c, path)?;
    Ok(Look {
        path,
        absent: absent(c, path),
        accesses,
    })
}

/// What is known of the next steps of the tasks at these paths.
fn look_at(
    alloc: Global,
    p: &Program,
    c: &Config<'_>,
    paths: &[TaskPath],
) -> Result<Vec<Look>, AllocError>
    requires { IsReached (program_of p.now) (config_of c.now) }
    ensures { IfOk result (λ looks. AreLooks (config_of c.now) paths.now (map seen_of looks.items)) }
{
    let mut looks = Vec::with_capacity(alloc, paths.len())?;
    let mut left = paths;
    'paths: while let Some((path, rest)) = left.split_first() {
        looks.push(make_look(p, c, *path)?)?;
        left = rest;
    }
    Ok(looks)
}

/// What is known of the next steps of all tasks, in the order of their paths.
pub(crate) fn looks(alloc: Global, p: &Program, c: &Config<'_>) -> Result<Vec<Look>, AllocError>
    requires { IsReached (program_of p.now) (config_of c.now) }
    ensures { IfOk result (λ looks.
        AreLooks (config_of c.now) (paths_of (config_of c.now).tasks) (map seen_of looks.items)) }
{
    let paths = paths(p, c)?;
    look_at(alloc, p, c, &paths)
}

/// The first thing on which two steps conflict: one writes what the other reads or writes.
pub(crate) fn meeting(one: &Look, other: &Look) -> Option<Thing>
    ensures { result ≡ meeting (seen_of one.now) (seen_of other.now) }
{
    let read = least_in(None, &one.accesses.writes, &other.accesses.reads);
    let written = least_in(read, &one.accesses.writes, &other.accesses.writes);
    least_in(written, &one.accesses.reads, &other.accesses.writes)
}
