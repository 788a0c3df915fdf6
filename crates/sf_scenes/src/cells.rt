//! Cells as parts of a scene, the scene of a start, and that of a witness.

use crate::texts::{lines_of, name_text, value_text, variable_text};
use sf_base::{ProcId, ResId, Var};
use sf_core::Program;
use sf_foot::{Start, Vars};
use sf_heap::{Cell, Heap, Locations};
use sf_page::{Part, Scene, Shape, Value, Witness};
use sf_sym::{Goal, Stuck};
use sf_witness::{witness_of, witness_text};
use std::alloc::{AllocError, Global};

/// How many cells a scene has at most.
const SHOWN: usize = 200;

/// The fields of a cell with their values. An `Err` says that memory ran out.
fn fields_of(alloc: Global, p: &Program, cell: &Cell) -> Result<Vec<Value>, AllocError> {
    let mut found = Vec::with_capacity(alloc, cell.values().len())?;
    let mut number: u32 = 0;
    for value in cell.values() {
        found.push(Value {
            name: name_text(alloc, &p.fields, number)?,
            term: value_text(alloc, *value)?,
        })?;
        number = number.saturating_add(1);
    }
    Ok(found)
}

/// The number of the part that has the cell at a location, if one has.
fn owner_of(parts: &[Locations], at: u64) -> Option<u8> {
    let mut number: u8 = 0;
    for part in parts {
        if part.as_slice().binary_search(&at).is_ok() {
            return Some(number);
        }
        number = number.saturating_add(1);
    }
    None
}

/// The cells of a heap as parts of a scene, each with the number of the part that owns it. An `Err` says
/// that memory ran out.
pub(crate) fn cells_of(
    alloc: Global,
    p: &Program,
    heap: &Heap,
    owners: &[Locations],
) -> Result<Vec<Part>, AllocError> {
    let mut found = Vec::new(alloc);
    let all = heap.locations()?;
    for at in all.as_slice().iter().take(SHOWN) {
        if let Some(cell) = heap.get(*at) {
            found.push(Part {
                label: Vec::new(alloc),
                shape: Shape::Cell {
                    at: value_text(alloc, sf_base::Value::Loc(*at))?,
                    fields: fields_of(alloc, p, cell)?,
                },
                gone: false,
                owner: owner_of(owners, *at),
            })?;
        }
    }
    Ok(found)
}

/// The scene of variables and a heap alone.
fn still_scene(alloc: Global, variables: Vec<Value>, heap: Vec<Part>) -> Scene {
    Scene {
        variables,
        differ: Vec::new(alloc),
        heap,
        wanted: Vec::new(alloc),
        tasks: Vec::new(alloc),
    }
}

/// A state of the goal at which a search is stuck for that reason, with its text, if it has one. An
/// `Err` says that memory ran out.
pub fn witness_of_goal(
    alloc: Global,
    p: &Program,
    f: ProcId,
    goal: &Goal,
    kind: Stuck,
) -> Result<Option<Witness>, AllocError> {
    let Some(found) = witness_of(alloc, p, goal, kind)? else {
        return Ok(None);
    };
    let mut variables = Vec::with_capacity(alloc, found.vars.len())?;
    for (x, value) in &found.vars {
        variables.push(Value {
            name: variable_text(alloc, p, f, *x)?,
            term: value_text(alloc, *value)?,
        })?;
    }
    let heap = cells_of(alloc, p, &found.heap, &[])?;
    let text = witness_text(alloc, p, f, goal, kind)?;
    Ok(Some(Witness {
        text: lines_of(alloc, text.as_slice())?,
        scene: still_scene(alloc, variables, heap),
    }))
}

/// Appends the values of those variables. An `Err` says that memory ran out.
fn add_values(
    alloc: Global,
    p: &Program,
    f: ProcId,
    vars: &Vars,
    xs: &[Var],
    found: &mut Vec<Value>,
) -> Result<(), AllocError> {
    for x in xs {
        found.push(Value {
            name: variable_text(alloc, p, f, *x)?,
            term: value_text(alloc, vars.get(*x))?,
        })?;
    }
    Ok(())
}

/// The variables that have a value. An `Err` says that memory ran out.
fn variables_of(alloc: Global, vars: &Vars) -> Result<Vec<Var>, AllocError> {
    let mut found = Vec::new(alloc);
    let mut number: u32 = 0;
    for _ in &vars.own {
        found.push(Var::Own(number))?;
        number = number.saturating_add(1);
    }
    let mut r: u32 = 0;
    for values in &vars.shared {
        add_shared(r, values.len(), &mut found)?;
        r = r.saturating_add(1);
    }
    Ok(found)
}

/// Appends the first variables of a resource. An `Err` says that memory ran out.
fn add_shared(r: u32, count: usize, found: &mut Vec<Var>) -> Result<(), AllocError> {
    let mut number: u32 = 0;
    for _ in 0..count {
        found.push(Var::Shared(ResId(r), number))?;
        number = number.saturating_add(1);
    }
    Ok(())
}

/// The scene of a state of procedure `f`, with the cells of each of these parts told apart. An `Err` says
/// that memory ran out.
pub(crate) fn state_scene(
    alloc: Global,
    p: &Program,
    f: ProcId,
    vars: &Vars,
    heap: &Heap,
    parts: &[Locations],
) -> Result<Scene, AllocError> {
    let xs = variables_of(alloc, vars)?;
    let mut variables = Vec::new(alloc);
    add_values(alloc, p, f, vars, &xs, &mut variables)?;
    let heap = cells_of(alloc, p, heap, parts)?;
    Ok(still_scene(alloc, variables, heap))
}

/// The scene of a start of procedure `f`: the cells of the precondition and of each resource are told
/// apart. An `Err` says that memory ran out.
pub fn start_scene(
    alloc: Global,
    p: &Program,
    f: ProcId,
    start: &Start,
) -> Result<Scene, AllocError> {
    state_scene(alloc, p, f, &start.vars, &start.heap, &start.parts)
}
