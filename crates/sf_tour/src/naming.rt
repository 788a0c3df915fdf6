//! What tasks, variables and values are called.

use sf_base::{Name, Place, ProcId, TaskPath, Turn};
use sf_core::{Proc, Program};
use sf_hints::put;
use std::alloc::AllocError;

/// Appends a task: `0`, and its turns. An `Err` says that memory ran out.
pub fn put_task(text: &mut Vec<u8>, path: TaskPath) -> Result<(), AllocError> {
    put(text, "0")?;
    for turn in path.turns() {
        match turn {
            Turn::Left => put(text, ".1")?,
            Turn::Right => put(text, ".2")?,
        }
    }
    Ok(())
}

/// Whether the place is in the procedure, from its name to its closing brace.
fn is_in(procedure: &Proc, place: Place) -> bool {
    !place.is_before(procedure.place) && !procedure.end.is_before(place)
}

/// The procedure in whose text a place is, if it is in one.
pub fn procedure_around(p: &Program, place: Place) -> Option<ProcId> {
    let mut number: u32 = 0;
    for procedure in &p.procedures {
        if is_in(procedure, place) {
            return Some(ProcId(number));
        }
        number = number.saturating_add(1);
    }
    None
}

/// The names of a procedure's own variables.
pub fn names_of(p: &Program, f: ProcId) -> &[Name] {
    match p.procedures.get(f.0 as usize) {
        Some(procedure) => procedure.names.as_slice(),
        None => &[],
    }
}
