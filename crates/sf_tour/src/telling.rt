//! A configuration as text: its tasks with their variables, the variables of the resources, and the
//! cells.

ghost use Rattle.sf_core.specs.Program.ProgramView.{program_of};
ghost use Rattle.sf_machine.specs.Configs.{config_of};
ghost use Rattle.sf_machine.specs.Reached.{IsReached};

use crate::naming::{names_of, procedure_around, put_task};
use sf_base::{Name, ProcId, ResId, TaskPath, Var};
use sf_core::Program;
use sf_hints::{put, put_number};
use sf_machine::{Config, paths};
use sf_state::{put_cells, put_value};
use std::alloc::AllocError;

/// How many cells of a configuration are told.
const CELLS_TOLD: usize = 40;

/// Appends the variables of those names with their values where the task does its next command. An
/// `Err` says that memory ran out.
fn put_variables(
    text: &mut Vec<u8>,
    c: &Config<'_>,
    task: TaskPath,
    names: &[Name],
    resource: Option<ResId>,
) -> Result<(), AllocError> {
    let mut sign = ": ";
    let mut number: u32 = 0;
    for name in names {
        let x = match resource {
            Some(r) => Var::Shared(r, number),
            None => Var::Own(number),
        };
        if let Some(value) = c.value_there(task, x) {
            put(text, sign)?;
            text.extend_from_slice(name.as_bytes())?;
            put(text, " = ")?;
            put_value(text, value)?;
            sign = ", ";
        }
        number = number.saturating_add(1);
    }
    Ok(())
}

/// Appends the line of a task: its path, where its next command stands, and its variables there. An
/// `Err` says that memory ran out.
fn put_task_line(
    text: &mut Vec<u8>,
    p: &Program,
    c: &Config<'_>,
    task: TaskPath,
) -> Result<(), AllocError> {
    put(text, "  task ")?;
    put_task(text, task)?;
    let Some(command) = c.next_command(task) else {
        return put(text, " does no command next\n");
    };
    let place = command.place();
    put_number(text, " at ", u64::from(place.line))?;
    put_number(text, ":", u64::from(place.column))?;
    let f = procedure_around(p, place).unwrap_or(ProcId(u32::MAX));
    put(text, " in ")?;
    text.extend_from_slice(p.name_of(f))?;
    put_variables(text, c, task, names_of(p, f), None)?;
    put(text, "\n")
}

/// Appends the variables of the resources, as a task that does a command sees them. An `Err` says
/// that memory ran out.
fn put_resources(
    text: &mut Vec<u8>,
    p: &Program,
    c: &Config<'_>,
    task: TaskPath,
) -> Result<(), AllocError> {
    let mut number: u32 = 0;
    for resource in &p.resources {
        put(text, "  resource ")?;
        text.extend_from_slice(resource.name.as_bytes())?;
        let names = resource.variables.as_slice();
        put_variables(text, c, task, names, Some(ResId(number)))?;
        put(text, "\n")?;
        number = number.saturating_add(1);
    }
    Ok(())
}

/// The first task that does a command next.
fn first_doing(c: &Config<'_>, tasks: &[TaskPath]) -> Option<TaskPath> {
    for task in tasks {
        if c.next_command(*task).is_some() {
            return Some(*task);
        }
    }
    None
}

/// The first of these locations, of which cells are told.
fn first_cells(at: &[u64]) -> &[u64] {
    at.get(..CELLS_TOLD).unwrap_or(at)
}

/// Appends the first cells, each as a line of a state, and how many more there are. An `Err` says
/// that memory ran out.
fn put_heap(text: &mut Vec<u8>, p: &Program, c: &Config<'_>) -> Result<(), AllocError> {
    let at = c.heap().locations()?;
    let told = first_cells(at.as_slice());
    put_cells(text, &p.fields, c.heap(), told)?;
    let more = at.len().saturating_sub(told.len());
    if more > 0 {
        put_number(text, "  .. and ", more as u64)?;
        put(text, " cells more\n")?;
    }
    Ok(())
}

/// Appends a configuration: its tasks, the variables of the resources, and the cells. An `Err` says
/// that memory ran out.
pub(crate) fn put_configuration(
    text: &mut Vec<u8>,
    p: &Program,
    c: &Config<'_>,
) -> Result<(), AllocError>
    requires { IsReached (program_of p.now) (config_of c.now) }
{
    let tasks = paths(p, c)?;
    for task in &tasks {
        put_task_line(text, p, c, *task)?;
    }
    if let Some(task) = first_doing(c, &tasks) {
        put_resources(text, p, c, task)?;
    }
    put_heap(text, p, c)
}
