//! Why an assertion isn't met by a state: the first conjunct that finds no cells, and what is there.
//!
//! It goes through the conjuncts in the order in which footprints are looked for, and takes the cells
//! of each. That there is no footprint is sf_state's word; this only looks for what a reader sees.

use crate::walk::{Obstacle, Walk};
use sf_base::limits::FILE_BYTES;
use sf_base::{FieldId, Place, ProcId, ResId, Value};
use sf_core::{Assertion, Conjunct, Expr, Level, Program};
use sf_foot::Vars;
use sf_hints::{put, put_number, put_source};
use sf_precise::Arranged;
use sf_state::{State, put_value, read_state};
use std::alloc::{AllocError, Global};

/// The place of a conjunct.
fn place_of(conjunct: &Conjunct<Expr>) -> Place {
    match conjunct {
        Conjunct::Holds(place, _)
        | Conjunct::Points(place, _, _)
        | Conjunct::Segment(place, _, _, _)
        | Conjunct::Doubly(place, _, _, _, _, _, _)
        | Conjunct::Tree(place, _, _, _)
        | Conjunct::If(place, _, _, _) => *place,
    }
}

/// The branch of a choice that a test takes.
fn branch_of<'l>(walk: &mut Walk<'_>, conjunct: &'l Conjunct<Expr>) -> Option<&'l Level<Expr>> {
    match conjunct {
        Conjunct::If(_, test, this, that) => Some(if walk.holds(test) { this } else { that }),
        _ => None,
    }
}

/// Appends the conjuncts of a level, the first one last. An `Err` says that memory ran out.
fn add_conjuncts<'l>(
    level: &'l Level<Expr>,
    left: &mut Vec<&'l Conjunct<Expr>>,
) -> Result<(), AllocError> {
    for conjunct in level.conjuncts.iter().rev() {
        left.push(conjunct)?;
    }
    Ok(())
}

/// The first conjunct in whose way something is, with its place; the cells of those before it are
/// taken. Of a choice the branch is looked at that its test takes. An `Err` says that memory ran out.
fn first_obstacle(
    alloc: Global,
    walk: &mut Walk<'_>,
    level: &Level<Expr>,
) -> Result<Option<(Place, Obstacle)>, AllocError> {
    let mut left = Vec::new(alloc);
    add_conjuncts(level, &mut left)?;
    // A conjunct has a byte of the file at least.
    for _ in 0..FILE_BYTES {
        let Some(conjunct) = left.pop() else {
            break;
        };
        if let Some(branch) = branch_of(walk, conjunct) {
            add_conjuncts(branch, &mut left)?;
        } else if let Some(obstacle) = walk.conjunct(alloc, conjunct)? {
            return Ok(Some((place_of(conjunct), obstacle)));
        }
    }
    Ok(None)
}

/// The first obstacle of an assertion, whose existentials are its own. An `Err` says that memory ran
/// out.
fn obstacle_of(
    alloc: Global,
    walk: &mut Walk<'_>,
    assertion: &Assertion,
) -> Result<Option<(Place, Obstacle)>, AllocError> {
    walk.enter(alloc, assertion.names.len())?;
    first_obstacle(alloc, walk, &assertion.level)
}

/// The invariant of the resource of that number, if there is one.
fn invariant_at(arranged: &Arranged, number: u32) -> Option<&Assertion> {
    if number as usize >= arranged.program.resources.len() {
        return None;
    }
    Some(&arranged.invariant(ResId(number)).assertion)
}

/// The first obstacle of a procedure's precondition, and then of each resource's invariant, unless the
/// start is fresh. An `Err` says that memory ran out.
fn obstacle_in(
    alloc: Global,
    arranged: &Arranged,
    f: ProcId,
    fresh: bool,
    walk: &mut Walk<'_>,
) -> Result<Option<(Place, Obstacle)>, AllocError> {
    if f.0 as usize >= arranged.program.procedures.len() {
        return Ok(None);
    }
    if let Some(found) = obstacle_of(alloc, walk, &arranged.pre(f).assertion)? {
        return Ok(Some(found));
    }
    if fresh {
        return Ok(None);
    }
    let mut number: u32 = 0;
    for _ in &arranged.program.resources {
        if let Some(invariant) = invariant_at(arranged, number) {
            if let Some(found) = obstacle_of(alloc, walk, invariant)? {
                return Ok(Some(found));
            }
        }
        number = number.saturating_add(1);
    }
    Ok(None)
}

/// The first so many of the values, from that number on.
fn values_from(
    alloc: Global,
    values: &[Value],
    first: usize,
    count: usize,
) -> Result<Vec<Value>, AllocError> {
    let mut found = Vec::new(alloc);
    for value in values.iter().skip(first).take(count) {
        found.push(*value)?;
    }
    Ok(found)
}

/// The variables of a state, by procedure and resource. An `Err` says that memory ran out.
fn vars_of(alloc: Global, p: &Program, f: ProcId, values: &[Value]) -> Result<Vars, AllocError> {
    let mut first = match p.procedures.get(f.0 as usize) {
        Some(procedure) => procedure.references as usize + procedure.values as usize,
        None => 0,
    };
    let own = values_from(alloc, values, 0, first)?;
    let mut shared = Vec::new(alloc);
    for resource in &p.resources {
        let count = resource.variables.len();
        shared.push(values_from(alloc, values, first, count)?)?;
        first = first.saturating_add(count);
    }
    Ok(Vars { own, shared })
}

/// The name of a field.
fn field_name(p: &Program, f: FieldId) -> &[u8] {
    match p.fields.get(f.0 as usize) {
        Some(name) => name.as_bytes(),
        None => b"?",
    }
}

/// Appends that something has the first value, where the second is due. An `Err` says that memory ran
/// out.
fn put_due(text: &mut Vec<u8>, there: Value, due: Value) -> Result<(), AllocError> {
    put_value(text, there)?;
    put(text, ", where ")?;
    put_value(text, due)?;
    put(text, " is due")
}

/// Appends what a cell has in a field, and what is due there. An `Err` says that memory ran out.
fn put_field(
    text: &mut Vec<u8>,
    p: &Program,
    at: u64,
    f: FieldId,
    there: Value,
    due: Value,
) -> Result<(), AllocError> {
    put(text, "the field ")?;
    text.extend_from_slice(field_name(p, f))?;
    put_number(text, " of the cell @", at)?;
    put(text, " is ")?;
    put_due(text, there, due)
}

/// Appends what is in the way. An `Err` says that memory ran out.
fn put_obstacle(text: &mut Vec<u8>, p: &Program, obstacle: Obstacle) -> Result<(), AllocError> {
    match obstacle {
        Obstacle::Absent(value) => {
            put(text, "a cell is due where none is: ")?;
            put_value(text, value)?;
        }
        Obstacle::Taken(at) => put_number(text, "an earlier part has this cell already: @", at)?,
        Obstacle::Again(at) => put_number(text, "the links come to this cell again: @", at)?,
        Obstacle::Field(at, f, there, due) => put_field(text, p, at, f, there, due)?,
        Obstacle::Last(there, due) => {
            put(text, "the last cell is ")?;
            put_due(text, there, due)?;
        }
        Obstacle::Test => put(text, "the test isn't true")?,
    }
    put(text, "\n")
}

/// Appends why no part of a state satisfies the precondition, or an invariant after it: the first
/// conjunct that finds nothing, with its line, and what is there. Nothing where the text is no state.
/// An `Err` says that memory ran out.
pub fn put_unmet(
    text: &mut Vec<u8>,
    alloc: Global,
    arranged: &Arranged,
    f: ProcId,
    bytes: &[u8],
    state: &[u8],
) -> Result<(), AllocError> {
    let p = &arranged.program;
    if f.0 as usize >= p.procedures.len() {
        return Ok(());
    }
    let Ok(
        State {
            values,
            cells,
            fresh,
        },
    ) = read_state(alloc, p, f, state)
    else {
        return Ok(());
    };
    let vars = vars_of(alloc, p, f, &values)?;
    let mut walk = Walk::new(alloc, &vars, &cells);
    if let Some((place, obstacle)) = obstacle_in(alloc, arranged, f, fresh, &mut walk)? {
        put_source(text, bytes, place, 1)?;
        put_obstacle(text, p, obstacle)?;
    }
    Ok(())
}
