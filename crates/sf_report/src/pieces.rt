//! How places, variables, pairs and parts of the heap are written.

ghost use Rattle.std.specs.Prelude.{◌≡◌, [], codes};
ghost use Rattle.sf_base.specs.Results.{Appends};
ghost use Rattle.sf_core.specs.Program.ProgramView.{program_of};
ghost use Rattle.sf_proof.specs.ProofText.{term_text};
ghost use Rattle.sf_report.specs.Pieces.{double_text, joined, kind_text, known_text, line_text, numbered_text, pair_text, place_text, shape_text, value_text};

use crate::names::{put_bytes, put_field, put_variable};
use itoa::Buffer;
use sf_base::{FieldId, Place, ProcId, Var};
use sf_core::Program;
use sf_proof::{put, put_term};
use sf_sym::{Atom, Numbered, Stuck, Term};
use std::alloc::AllocError;

/// Appends the name of a kind. An `Err` means out of memory.
pub fn put_kind(text: &mut Vec<u8>, kind: Stuck) -> Result<(), AllocError>
    ensures { Appends result text.old.items text.new.items (kind_text kind) }
{
    match kind {
        Stuck::NoCell => put(text, "NoCell"),
        Stuck::NotEqual => put(text, "NotEqual"),
        Stuck::NotDifferent => put(text, "NotDifferent"),
        Stuck::NoAtom => put(text, "NoAtom"),
        Stuck::Leak => put(text, "Leak"),
        Stuck::EndNotAllocated => put(text, "EndNotAllocated"),
    }
}

/// Appends a place. An `Err` means out of memory.
pub fn put_place(text: &mut Vec<u8>, place: Place) -> Result<(), AllocError>
    ensures { Appends result text.old.items text.new.items (place_text place) }
{
    put(text, Buffer::new().format(place.line))?;
    put(text, ":")?;
    put(text, Buffer::new().format(place.column))
}

/// Appends a variable and its term. An `Err` means out of memory.
fn put_value(
    text: &mut Vec<u8>,
    p: &Program,
    f: ProcId,
    value: (Var, Term),
) -> Result<(), AllocError>
    ensures { Appends result text.old.items text.new.items
        (value_text (program_of p.now) f value) }
{
    put_variable(text, p, f, value.0)?;
    put(text, " = ")?;
    put_term(text, value.1)
}

/// Appends the line of the variables. An `Err` means out of memory.
pub fn put_vars(
    text: &mut Vec<u8>,
    p: &Program,
    f: ProcId,
    vars: &[(Var, Term)],
) -> Result<(), AllocError>
    ensures { Appends result text.old.items text.new.items
        (line_text (codes "vars") (value_text (program_of p.now) f) vars.now) }
{
    put(text, "vars")?;
    let mut before: &[u8] = b" ";
    for value in vars {
        put_bytes(text, before)?;
        put_value(text, p, f, *value)?;
        before = b", ";
    }
    put(text, "\n")
}

/// Appends two terms that differ. An `Err` means out of memory.
fn put_pair(text: &mut Vec<u8>, pair: (Term, Term)) -> Result<(), AllocError>
    ensures { Appends result text.old.items text.new.items (pair_text pair) }
{
    put_term(text, pair.0)?;
    put(text, " != ")?;
    put_term(text, pair.1)
}

/// Appends the line of the pairs. An `Err` means out of memory.
pub fn put_pairs(text: &mut Vec<u8>, pairs: &[(Term, Term)]) -> Result<(), AllocError>
    ensures { Appends result text.old.items text.new.items
        (line_text (codes "apart") pair_text pairs.now) }
{
    put(text, "apart")?;
    let mut before: &[u8] = b" ";
    for pair in pairs {
        put_bytes(text, before)?;
        put_pair(text, *pair)?;
        before = b", ";
    }
    put(text, "\n")
}

/// Appends a field of a cell and its term. An `Err` means out of memory.
fn put_known(text: &mut Vec<u8>, p: &Program, field: (FieldId, Term)) -> Result<(), AllocError>
    ensures { Appends result text.old.items text.new.items
        (known_text (program_of p.now) field) }
{
    put_field(text, p, field.0)?;
    put(text, ":")?;
    put_term(text, field.1)
}

/// Appends the fields of a cell. An `Err` means out of memory.
fn put_fields(text: &mut Vec<u8>, p: &Program, fields: &[(FieldId, Term)]) -> Result<(), AllocError>
    ensures { Appends result text.old.items text.new.items
        (joined (known_text (program_of p.now)) [] (codes ",") fields.now) }
{
    let mut before: &[u8] = b"";
    for field in fields {
        put_bytes(text, before)?;
        put_known(text, p, *field)?;
        before = b",";
    }
    Ok(())
}

/// Appends a part of the heap. An `Err` means out of memory.
fn put_shape(text: &mut Vec<u8>, p: &Program, atom: &Atom) -> Result<(), AllocError>
    ensures { Appends result text.old.items text.new.items
        (shape_text (program_of p.now) atom.now) }
{
    match atom {
        Atom::Points(t, fields) => {
            put_term(text, *t)?;
            put(text, "|->")?;
            put_fields(text, p, fields.as_slice())
        }
        Atom::Ls(t, u) => {
            put(text, "ls(")?;
            put_term(text, *t)?;
            put(text, ",")?;
            put_term(text, *u)?;
            put(text, ")")
        }
        Atom::Tree(t) => {
            put(text, "tree(")?;
            put_term(text, *t)?;
            put(text, ")")
        }
        Atom::Dll(v, b, l, u) => put_double(text, *v, *b, *l, *u),
    }
}

/// Appends a doubly linked segment: where it begins, what stands before it, its last cell, where it
/// ends. An `Err` means out of memory.
fn put_double(text: &mut Vec<u8>, v: Term, b: Term, l: Term, u: Term) -> Result<(), AllocError>
    ensures { Appends result text.old.items text.new.items
        (double_text (term_text v) (term_text b) (term_text l) (term_text u)) }
{
    put(text, "dll(")?;
    put_term(text, v)?;
    put(text, ",")?;
    put_term(text, b)?;
    put(text, ",")?;
    put_term(text, l)?;
    put(text, ",")?;
    put_term(text, u)?;
    put(text, ")")
}

/// Appends a part of the heap with its number. An `Err` means out of memory.
pub fn put_numbered(text: &mut Vec<u8>, p: &Program, a: &Numbered) -> Result<(), AllocError>
    ensures { Appends result text.old.items text.new.items
        (numbered_text (program_of p.now) a.now) }
{
    put(text, Buffer::new().format(a.number))?;
    put(text, ": ")?;
    put_shape(text, p, &a.atom)
}

/// Appends the line of the parts of the heap. An `Err` means out of memory.
pub fn put_atoms(text: &mut Vec<u8>, p: &Program, atoms: &[Numbered]) -> Result<(), AllocError>
    ensures { Appends result text.old.items text.new.items
        (line_text (codes "atoms") (numbered_text (program_of p.now)) atoms.now) }
{
    put(text, "atoms")?;
    let mut before: &[u8] = b" ";
    for a in atoms {
        put_bytes(text, before)?;
        put_numbered(text, p, a)?;
        before = b", ";
    }
    put(text, "\n")
}
