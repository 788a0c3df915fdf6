//! The scene of the state in which a run has ended.

ghost use Rattle.std.specs.Prelude.{◌<◌, length};

use crate::cells::state_scene;
use sf_base::{ProcId, ResId};
use sf_core::Ordered;
use sf_foot::{Finish, footprint};
use sf_heap::Locations;
use sf_page::Scene;
use sf_precise::Arranged;
use std::alloc::{AllocError, Global};

/// The cells that an assertion has in that state; none where it isn't met. An `Err` says that memory ran
/// out.
fn part_of(alloc: Global, a: &Ordered, end: &Finish) -> Result<Locations, AllocError> {
    match footprint(alloc, a, &end.vars, &end.heap)? {
        Some(at) => Ok(at),
        None => Ok(Locations::from_vec(Vec::new(alloc))),
    }
}

/// The invariant of the resource of that number, if there is one.
fn invariant_at(arranged: &Arranged, number: u32) -> Option<&Ordered> {
    if number as usize >= arranged.program.resources.len() {
        return None;
    }
    Some(arranged.invariant(ResId(number)))
}

/// The cells of the postcondition of procedure `f`, and then those of each resource's invariant. An `Err`
/// says that memory ran out.
fn parts_of(
    alloc: Global,
    arranged: &Arranged,
    f: ProcId,
    end: &Finish,
) -> Result<Vec<Locations>, AllocError>
    requires { f.0 < length arranged.now.program.procedures.items }
{
    let mut parts = Vec::new(alloc);
    parts.push(part_of(alloc, arranged.post(f), end)?)?;
    let mut number: u32 = 0;
    for _ in &arranged.program.resources {
        if let Some(invariant) = invariant_at(arranged, number) {
            parts.push(part_of(alloc, invariant, end)?)?;
        }
        number = number.saturating_add(1);
    }
    Ok(parts)
}

/// The scene of the state in which a run of procedure `f` has ended: the cells of the postcondition and
/// of each resource are told apart. An `Err` says that memory ran out.
pub(crate) fn end_scene(
    alloc: Global,
    arranged: &Arranged,
    f: ProcId,
    end: &Finish,
) -> Result<Scene, AllocError>
    requires { f.0 < length arranged.now.program.procedures.items }
{
    let parts = parts_of(alloc, arranged, f, end)?;
    state_scene(alloc, &arranged.program, f, &end.vars, &end.heap, &parts)
}
