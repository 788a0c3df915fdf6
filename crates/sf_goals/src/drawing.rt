//! A heap drawn as text: each chain of parts that lead to one another is a line.
//!
//! A cell is its known fields in brackets, a segment is two dots, a doubly linked one two dots
//! between brackets, a tree its word. An arrow goes along `tl`.

use crate::naming::{Namer, put_named};
use sf_base::FieldId;
use sf_core::{Links, Program};
use sf_hints::put;
use sf_proof::put_term;
use sf_sym::{Atom, Numbered, Term, field_term};
use std::alloc::{AllocError, Global};

/// Where a part leads along the field of lists, if that is known.
fn next_of(links: Links, atom: &Atom) -> Option<Term> {
    match atom {
        Atom::Points(_, fields) => field_term(fields.as_slice(), links.tl?),
        Atom::Ls(_, u) | Atom::Dll(_, _, _, u) => Some(*u),
        Atom::Tree(_) => None,
    }
}

/// Whether one of the parts leads to that term.
fn is_led_to(links: Links, atoms: &[&Numbered], t: Term) -> bool {
    for a in atoms {
        if let Some(u) = next_of(links, &a.atom) {
            if u.is(t) {
                return true;
            }
        }
    }
    false
}

/// How many of the parts come before the first that begins at that term; all where none does.
fn before_root(left: &[&Numbered], t: Term) -> usize {
    let mut index: usize = 0;
    for a in left {
        if a.atom.root().is(t) {
            break;
        }
        index = index.saturating_add(1);
    }
    index
}

/// Takes the first part out that begins at that term.
fn take_at<'a>(left: &mut Vec<&'a Numbered>, t: Term) -> Option<&'a Numbered> {
    let index = before_root(left.as_slice(), t);
    if index >= left.len() {
        return None;
    }
    Some(left.remove(index))
}

/// How many of the parts come before the first to which none leads; all where there is none.
fn before_head(links: Links, left: &[&Numbered]) -> usize {
    let mut index: usize = 0;
    for a in left {
        if !is_led_to(links, left, a.atom.root()) {
            break;
        }
        index = index.saturating_add(1);
    }
    index
}

/// Takes the first part out to which none of the others leads; where there is none, as in rings, the
/// first one.
fn take_head<'a>(links: Links, left: &mut Vec<&'a Numbered>) -> Option<&'a Numbered> {
    let index = before_head(links, left.as_slice());
    if index < left.len() {
        return Some(left.remove(index));
    }
    if left.is_empty() {
        return None;
    }
    Some(left.remove(0))
}

/// The name of a field.
fn field_name(p: &Program, f: FieldId) -> &[u8] {
    match p.fields.get(f.0 as usize) {
        Some(name) => name.as_bytes(),
        None => b"?",
    }
}

/// Whether it is the field along which lists go.
fn is_link(links: Links, f: FieldId) -> bool {
    match links.tl {
        Some(tl) => tl.0 == f.0,
        None => false,
    }
}

/// Appends the known fields of a cell but for the one along which lists go. An `Err` says that memory
/// ran out.
fn put_fields(
    text: &mut Vec<u8>,
    namer: &Namer<'_>,
    links: Links,
    fields: &[(FieldId, Term)],
) -> Result<(), AllocError> {
    let mut before = "[";
    for (f, t) in fields {
        if !is_link(links, *f) {
            put(text, before)?;
            text.extend_from_slice(field_name(namer.p, *f))?;
            put(text, " ")?;
            put_term(text, *t)?;
            before = ", ";
        }
    }
    if before == "[" {
        put(text, "[")?;
    }
    put(text, "]")
}

/// Appends a part, without where it begins and where it leads to. An `Err` says that memory ran out.
fn put_part(
    text: &mut Vec<u8>,
    namer: &Namer<'_>,
    links: Links,
    atom: &Atom,
) -> Result<(), AllocError> {
    match atom {
        Atom::Points(_, fields) => {
            put(text, " -> ")?;
            put_fields(text, namer, links, fields.as_slice())
        }
        Atom::Ls(_, _) => put(text, " .."),
        Atom::Tree(_) => put(text, " -> tree"),
        Atom::Dll(_, before, last, _) => {
            put(text, " <..> (after ")?;
            put_term(text, *before)?;
            put(text, ", last ")?;
            put_term(text, *last)?;
            put(text, ")")
        }
    }
}

/// Appends the arrow to what a part leads to, if it is a cell that does.
fn put_arrow(text: &mut Vec<u8>, atom: &Atom) -> Result<(), AllocError> {
    match atom {
        Atom::Points(_, _) => put(text, " -> "),
        Atom::Ls(_, _) | Atom::Tree(_) | Atom::Dll(_, _, _, _) => put(text, " "),
    }
}

/// Appends the chain that begins with a part, and takes the others of it out. An `Err` says that
/// memory ran out.
fn put_chain(
    text: &mut Vec<u8>,
    namer: &Namer<'_>,
    links: Links,
    head: &Numbered,
    left: &mut Vec<&Numbered>,
) -> Result<(), AllocError> {
    let mut part = &head.atom;
    put(text, "    ")?;
    put_named(text, namer, part.root())?;
    for _ in 0..left.len().saturating_add(1) {
        put_part(text, namer, links, part)?;
        let Some(t) = next_of(links, part) else {
            break;
        };
        put_arrow(text, part)?;
        put_named(text, namer, t)?;
        let Some(next) = take_at(left, t) else {
            break;
        };
        part = &next.atom;
    }
    put(text, "\n")
}

/// Appends parts of a heap, a line for each chain of them. An `Err` says that memory ran out.
pub fn put_heap(
    text: &mut Vec<u8>,
    alloc: Global,
    namer: &Namer<'_>,
    links: Links,
    atoms: &[Numbered],
) -> Result<(), AllocError> {
    let mut left = Vec::with_capacity(alloc, atoms.len())?;
    for a in atoms {
        left.push(a)?;
    }
    for _ in 0..atoms.len() {
        let Some(head) = take_head(links, &mut left) else {
            break;
        };
        put_chain(text, namer, links, head, &mut left)?;
    }
    Ok(())
}

/// Appends the parts that were handed over, if there are any, below a line that says so. An `Err`
/// says that memory ran out.
pub fn put_taken(
    text: &mut Vec<u8>,
    alloc: Global,
    namer: &Namer<'_>,
    links: Links,
    atoms: &[Numbered],
) -> Result<(), AllocError> {
    if atoms.is_empty() {
        return Ok(());
    }
    put(text, "  handed over already:\n")?;
    put_heap(text, alloc, namer, links, atoms)
}
