//! What the next step of a task reads and writes.

ghost use Rattle.std.specs.Prelude.{◌↔◌, IfOk, IsTrue};
ghost use Rattle.sf_core.specs.Machine.Enabled.{IsShut};
ghost use Rattle.sf_core.specs.Program.ProgramView.{program_of};
ghost use Rattle.sf_core.specs.Program.View.{command_of};
ghost use Rattle.sf_machine.specs.Accessing.{AreAccesses};
ghost use Rattle.sf_frame.specs.Commons.{held_of};
ghost use Rattle.sf_machine.specs.Configs.{config_of};
ghost use Rattle.sf_machine.specs.Reached.{IsReached};

use crate::accessed::Accesses;
use crate::config::Config;
use crate::following::{Next, next_of};
use crate::noting::{note_reads, note_room, note_writes};
use sf_base::TaskPath;
use sf_core::{Command, Program};
use std::alloc::AllocError;
use std::collections::BTreeMap;

/// What the next step of the task at a path reads and writes. Both lists are empty where there is
/// no such task, or it has ended, or it has to wait for others.
pub fn accesses(p: &Program, c: &Config<'_>, task: TaskPath) -> Result<Accesses, AllocError>
    requires { IsReached (program_of p.now) (config_of c.now) }
    ensures { IfOk result (λ found. AreAccesses (config_of c.now) task
        found.reads.items found.writes.items) }
{
    let mut reads = Vec::new(c.common.alloc);
    let mut writes = Vec::new(c.common.alloc);
    if let Some(at) = c.tasks.at(task.turns()) {
        match next_of(at, task.len() == 0) {
            Next::Does(frame, command) => {
                if !is_shut(&c.common.held, command) {
                    note_reads(&mut reads, &c.common.store, frame, command)?;
                    note_writes(&mut writes, &c.common.store, frame, command)?;
                }
            }
            Next::Returns(_, room) => note_room(&mut writes, room)?,
            Next::Leaves(_) => {}
            Next::Joins => {}
            Next::Nothing => {}
        }
    }
    Ok(Accesses { reads, writes })
}

/// Whether the command is a region of a resource that is held.
fn is_shut(held: &BTreeMap<u32, TaskPath>, command: &Command) -> bool
    ensures { IsTrue result ↔ IsShut (held_of held.now) (command_of command.now) }
{
    match command {
        Command::With(_, r, _, _) => held.contains_key(&r.0),
        _ => false,
    }
}
