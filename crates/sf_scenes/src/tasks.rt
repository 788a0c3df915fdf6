//! The scene of a configuration: its tasks side by side, the variables of the resources, and the
//! cells.

ghost use Rattle.sf_core.specs.Program.ProgramView.{program_of};
ghost use Rattle.sf_machine.specs.Configs.{config_of};
ghost use Rattle.sf_machine.specs.Reached.{IsReached};

use crate::cells::cells_of;
use crate::texts::{spot, text_of, value_text};
use sf_base::{Name, Place, ResId, TaskPath, Var};
use sf_core::Program;
use sf_hints::line_of;
use sf_machine::{Config, paths};
use sf_page::{Scene, Task, Value};
use sf_tour::{names_of, procedure_around, put_task};
use std::alloc::{AllocError, Global};

/// The values of variables of those names, as the task sees them where it does its next command. An
/// `Err` says that memory ran out.
fn values_there(
    alloc: Global,
    c: &Config<'_>,
    task: TaskPath,
    names: &[Name],
    resource: Option<ResId>,
) -> Result<Vec<Value>, AllocError> {
    let mut found = Vec::new(alloc);
    let mut number: u32 = 0;
    for name in names {
        let x = match resource {
            Some(r) => Var::Shared(r, number),
            None => Var::Own(number),
        };
        if let Some(value) = c.value_there(task, x) {
            found.push(Value {
                name: Vec::from_slice(alloc, name.as_bytes())?,
                term: value_text(alloc, value)?,
            })?;
        }
        number = number.saturating_add(1);
    }
    Ok(found)
}

/// The names of the variables of the procedure around a place.
fn names_around(p: &Program, place: Place) -> &[Name] {
    match procedure_around(p, place) {
        Some(f) => names_of(p, f),
        None => &[],
    }
}

/// The path of a task as text. An `Err` says that memory ran out.
fn path_text(alloc: Global, task: TaskPath) -> Result<Vec<u8>, AllocError> {
    let mut text = Vec::new(alloc);
    put_task(&mut text, task)?;
    Ok(text)
}

/// A task of a configuration. An `Err` says that memory ran out.
fn task_of(
    alloc: Global,
    p: &Program,
    bytes: &[u8],
    c: &Config<'_>,
    task: TaskPath,
) -> Result<Task, AllocError> {
    let Some(command) = c.next_command(task) else {
        return Ok(Task {
            path: path_text(alloc, task)?,
            doing: text_of(alloc, "no command next")?,
            span: spot(Place { line: 0, column: 0 }),
            variables: Vec::new(alloc),
            owner: None,
        });
    };
    let place = command.place();
    Ok(Task {
        path: path_text(alloc, task)?,
        doing: Vec::from_slice(alloc, line_of(bytes, place.line))?,
        span: spot(place),
        variables: values_there(alloc, c, task, names_around(p, place), None)?,
        owner: None,
    })
}

/// Appends the variables of the resources, as the task sees them. An `Err` says that memory ran out.
fn add_resources(
    alloc: Global,
    p: &Program,
    c: &Config<'_>,
    task: TaskPath,
    found: &mut Vec<Value>,
) -> Result<(), AllocError> {
    let mut number: u32 = 0;
    for resource in &p.resources {
        let names = resource.variables.as_slice();
        let mut values = values_there(alloc, c, task, names, Some(ResId(number)))?;
        found.append(&mut values)?;
        number = number.saturating_add(1);
    }
    Ok(())
}

/// The scene of a configuration. An `Err` says that memory ran out.
pub(crate) fn configuration_scene(
    alloc: Global,
    p: &Program,
    bytes: &[u8],
    c: &Config<'_>,
) -> Result<Scene, AllocError>
    requires { IsReached (program_of p.now) (config_of c.now) }
{
    let mut tasks = Vec::new(alloc);
    let mut variables = Vec::new(alloc);
    for path in &paths(p, c)? {
        if variables.is_empty() {
            add_resources(alloc, p, c, *path, &mut variables)?;
        }
        tasks.push(task_of(alloc, p, bytes, c, *path)?)?;
    }
    Ok(Scene {
        variables,
        differ: Vec::new(alloc),
        heap: cells_of(alloc, p, c.heap(), &[])?,
        wanted: Vec::new(alloc),
        tasks,
    })
}
