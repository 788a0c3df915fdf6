//! The scene of a goal: its variables, what differs, the parts of the heap, and what is wanted.

use crate::texts::{name_text, term_text, variable_text};
use sf_base::{FieldId, ProcId};
use sf_core::Program;
use sf_hints::line_of;
use sf_lines::split_once;
use sf_page::{Part, Scene, Shape, Value};
use sf_report::failed;
use sf_sym::{Atom, Goal, Numbered, State, Stuck, Term};
use std::alloc::{AllocError, Global};

/// The line of a failed obligation's text that has the pairs of terms that differ.
const PAIRS: u32 = 3;
/// The line that says what is wanted.
const WANTED: u32 = 6;
/// How many pairs that differ, and parts, a scene has at most.
const SHOWN: usize = 200;

/// The variables with their terms. An `Err` says that memory ran out.
fn variables_of(
    alloc: Global,
    p: &Program,
    f: ProcId,
    state: &State,
) -> Result<Vec<Value>, AllocError> {
    let mut found = Vec::with_capacity(alloc, state.vars().len())?;
    for (x, t) in state.vars() {
        found.push(Value {
            name: variable_text(alloc, p, f, *x)?,
            term: term_text(alloc, *t)?,
        })?;
    }
    Ok(found)
}

/// A line of a text without the word that begins it.
fn rest_of(text: &[u8], line: u32) -> &[u8] {
    match split_once(b' ', line_of(text, line)) {
        Some((_, rest)) => rest,
        None => &[],
    }
}

/// What is before the first comma of a text, and what is behind it and a blank.
fn next_pair(text: &[u8]) -> (&[u8], &[u8]) {
    match split_once(b',', text) {
        Some((pair, rest)) => match rest.split_first() {
            Some((_, more)) => (pair, more),
            None => (pair, rest),
        },
        None => (text, &[]),
    }
}

/// The pairs of terms that differ, each once, of a text that tells of a goal. An `Err` says that
/// memory ran out.
fn pairs_of(alloc: Global, told: &[u8]) -> Result<Vec<Vec<u8>>, AllocError> {
    let mut found = Vec::new(alloc);
    let mut left = rest_of(told, PAIRS);
    for _ in 0..SHOWN {
        if left.is_empty() {
            break;
        }
        let (pair, more) = next_pair(left);
        found.push(Vec::from_slice(alloc, pair)?)?;
        left = more;
    }
    Ok(found)
}

/// The known fields of a cell. An `Err` says that memory ran out.
fn fields_of(
    alloc: Global,
    p: &Program,
    fields: &[(FieldId, Term)],
) -> Result<Vec<Value>, AllocError> {
    let mut found = Vec::with_capacity(alloc, fields.len())?;
    for (f, t) in fields {
        found.push(Value {
            name: name_text(alloc, &p.fields, f.0)?,
            term: term_text(alloc, *t)?,
        })?;
    }
    Ok(found)
}

/// What a part is. An `Err` says that memory ran out.
fn shape_of(alloc: Global, p: &Program, atom: &Atom) -> Result<Shape, AllocError> {
    match atom {
        Atom::Points(t, fields) => Ok(Shape::Cell {
            at: term_text(alloc, *t)?,
            fields: fields_of(alloc, p, fields.as_slice())?,
        }),
        Atom::Ls(t, u) => Ok(Shape::List {
            at: term_text(alloc, *t)?,
            to: term_text(alloc, *u)?,
        }),
        Atom::Tree(t) => Ok(Shape::Tree {
            at: term_text(alloc, *t)?,
        }),
        Atom::Dll(v, before, last, u) => Ok(Shape::Double {
            at: term_text(alloc, *v)?,
            before: term_text(alloc, *before)?,
            last: term_text(alloc, *last)?,
            to: term_text(alloc, *u)?,
        }),
    }
}

/// The number of a part as text. An `Err` says that memory ran out.
fn label_of(alloc: Global, number: u32) -> Result<Vec<u8>, AllocError> {
    let mut text = Vec::new(alloc);
    sf_hints::put_number(&mut text, "", u64::from(number))?;
    Ok(text)
}

/// Appends parts of the heap, handed over or not. An `Err` says that memory ran out.
fn add_parts(
    alloc: Global,
    p: &Program,
    atoms: &[Numbered],
    gone: bool,
    found: &mut Vec<Part>,
) -> Result<(), AllocError> {
    for a in atoms.iter().take(SHOWN) {
        found.push(Part {
            label: label_of(alloc, a.number)?,
            shape: shape_of(alloc, p, &a.atom)?,
            gone,
            owner: None,
        })?;
    }
    Ok(())
}

/// What is wanted next, of a text that tells of a goal: nothing where that is the empty heap. An
/// `Err` says that memory ran out.
fn wanted_of(alloc: Global, told: &[u8]) -> Result<Vec<Vec<u8>>, AllocError> {
    let mut found = Vec::new(alloc);
    let wanted = rest_of(told, WANTED);
    if wanted != b"emp".as_slice() {
        found.push(Vec::from_slice(alloc, wanted)?)?;
    }
    Ok(found)
}

/// The scene of a goal of that procedure, where a search is stuck for that reason or isn't stuck. An
/// `Err` says that memory ran out.
pub fn goal_scene(
    alloc: Global,
    p: &Program,
    f: ProcId,
    goal: &Goal,
    kind: Option<Stuck>,
) -> Result<Scene, AllocError> {
    let told = failed(alloc, p, f, goal, kind.unwrap_or(Stuck::NoAtom))?;
    let mut heap = Vec::new(alloc);
    add_parts(alloc, p, goal.state.atoms(), false, &mut heap)?;
    add_parts(alloc, p, goal.state.taken(), true, &mut heap)?;
    Ok(Scene {
        variables: variables_of(alloc, p, f, &goal.state)?,
        differ: pairs_of(alloc, told.as_slice())?,
        heap,
        wanted: wanted_of(alloc, told.as_slice())?,
        tasks: Vec::new(alloc),
    })
}
