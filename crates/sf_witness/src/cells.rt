//! The heap of a state's atoms.

ghost use Rattle.std.specs.Prelude.{◌≡◌, IfOk, OnOk, replicate};
ghost use Rattle.sf_base.specs.HeapStore.{put_field};
ghost use Rattle.sf_base.specs.declared.value.Value.TheVariants.{Nil as nil};
ghost use Rattle.sf_heap.specs.Cells.{cell_of, heap_of};
ghost use Rattle.sf_witness.specs.WitnessState.{beside, cell_of_atom, double_cell, heap_of_atom, heap_of_atoms, nil_cell, one_cell, with_fields, with_last, with_link};

use crate::values::value_at;
use sf_base::{FieldId, Value};
use sf_core::Links;
use sf_heap::{Cell, Heap, HeapFault};
use sf_sym::{Atom, Numbered, Term};
use std::alloc::{AllocError, Global};

/// Puts a value into a field, in a list of values that gets as long as the field needs. An `Err`
/// means out of memory.
fn put_field(values: &mut Vec<Value>, field: FieldId, value: Value) -> Result<(), AllocError>
    ensures { OnOk result
        (cell_of values.new.items ≡ put_field (cell_of values.old.items) field.0 value) }
{
    let at = field.0 as usize;
    while values.len() <= at {
        values.push(Value::Nil)?;
    }
    values[at] = value;
    Ok(())
}

/// Puts the values of terms into fields. An `Err` means out of memory.
fn put_fields(values: &mut Vec<Value>, fields: &[(FieldId, Term)]) -> Result<(), AllocError>
    ensures { OnOk result
        (cell_of values.new.items ≡ with_fields fields.now (cell_of values.old.items)) }
{
    let mut left = fields;
    while let Some((first, rest)) = left.split_first() {
        put_field(values, first.0, value_at(first.1))?;
        left = rest;
    }
    Ok(())
}

/// Puts the value of a term into a link, where there is such a field. An `Err` means out of memory.
fn put_link(values: &mut Vec<Value>, link: Option<FieldId>, t: Term) -> Result<(), AllocError>
    ensures { OnOk result
        (cell_of values.new.items ≡ with_link link t (cell_of values.old.items)) }
{
    match link {
        Some(field) => put_field(values, field, value_at(t)),
        None => Ok(()),
    }
}

/// Puts the values of two terms into the links of a doubly linked segment, where there are such
/// fields. An `Err` means out of memory.
fn put_links(
    values: &mut Vec<Value>,
    links: Links,
    to: Term,
    before: Term,
) -> Result<(), AllocError>
    ensures { OnOk result (cell_of values.new.items
        ≡ with_link links.pv before (with_link links.tl to (cell_of values.old.items))) }
{
    put_link(values, links.tl, to)?;
    put_link(values, links.pv, before)
}

/// The first cell of an atom that has one, with that many fields at least. An `Err` means out of
/// memory.
fn cell_of_atom(alloc: Global, fields: usize, links: Links, atom: &Atom) -> Result<Cell, AllocError>
    ensures { IfOk result (λ cell. cell_of cell ≡ cell_of_atom links atom.now) }
{
    let mut values = nil_values(alloc, fields)?;
    match atom {
        Atom::Points(_, known) => put_fields(&mut values, known.as_slice())?,
        Atom::Ls(_, end) => put_link(&mut values, links.tl, *end)?,
        Atom::Tree(_) => {}
        Atom::Dll(v, p, l, u) => {
            let to = if l.is(*v) { *u } else { *l };
            put_links(&mut values, links, to, *p)?
        }
    }
    Ok(Cell::from_values(values))
}

/// That many values, all nil. An `Err` means out of memory.
fn nil_values(alloc: Global, fields: usize) -> Result<Vec<Value>, AllocError>
    ensures { IfOk result (λ values. cell_of values.items ≡ nil_cell) }
{
    Vec::from_elem(alloc, Value::Nil, fields)
}

/// Adds a cell at a symbol, where there is none yet; a constant is no location. An `Err` means out
/// of memory.
fn put_cell(heap: &mut Heap, at: Term, cell: Cell) -> Result<(), AllocError>
    ensures { OnOk result
        (heap_of heap.new ≡ beside (heap_of heap.old) (one_cell at (cell_of cell))) }
{
    let Term::Sym(n) = at else {
        return Ok(());
    };
    match heap.put(u64::from(n) + 1, cell) {
        Ok(()) => Ok(()),
        // The cell of an earlier atom stays. In a normal state no two are at one place.
        Err(HeapFault::Present(_)) => Ok(()),
        Err(HeapFault::OutOfMemory(_)) => Err(AllocError),
    }
}

/// A cell of a doubly linked segment that leads there, and back to that, with that many fields at
/// least. An `Err` means out of memory.
fn double_cell(
    alloc: Global,
    fields: usize,
    links: Links,
    to: Term,
    before: Term,
) -> Result<Cell, AllocError>
    ensures { IfOk result (λ cell. cell_of cell ≡ double_cell links.tl links.pv to before) }
{
    let mut values = nil_values(alloc, fields)?;
    put_links(&mut values, links, to, before)?;
    Ok(Cell::from_values(values))
}

/// Adds the last cell of a doubly linked segment, where that is another than its first. An `Err`
/// means out of memory.
fn add_last(
    alloc: Global,
    heap: &mut Heap,
    fields: usize,
    links: Links,
    atom: &Atom,
) -> Result<(), AllocError>
    ensures { OnOk result (heap_of heap.new ≡ with_last links atom.now (heap_of heap.old)) }
{
    match atom {
        Atom::Points(..) | Atom::Ls(..) | Atom::Tree(_) => Ok(()),
        Atom::Dll(v, _, l, u) => {
            if l.is(*v) {
                return Ok(());
            }
            let cell = double_cell(alloc, fields, links, *u, *v)?;
            put_cell(heap, *l, cell)
        }
    }
}

/// Adds the cells of an atom, if it has some. An `Err` means out of memory.
fn add_atom(
    alloc: Global,
    heap: &mut Heap,
    fields: usize,
    links: Links,
    atom: &Atom,
) -> Result<(), AllocError>
    ensures { OnOk result
        (heap_of heap.new ≡ beside (heap_of heap.old) (heap_of_atom links atom.now)) }
{
    if atom.is_nothing() {
        return Ok(());
    }
    let cell = cell_of_atom(alloc, fields, links, atom)?;
    put_cell(heap, atom.root(), cell)?;
    add_last(alloc, heap, fields, links, atom)
}

/// Adds the cells of atoms, each with that many fields at least. An `Err` means out of memory.
pub fn add_atoms(
    alloc: Global,
    heap: &mut Heap,
    fields: usize,
    links: Links,
    atoms: &[Numbered],
) -> Result<(), AllocError>
    ensures { OnOk result
        (heap_of heap.new ≡ beside (heap_of heap.old) (heap_of_atoms links atoms.now)) }
{
    let mut left = atoms;
    while let Some((first, rest)) = left.split_first() {
        add_atom(alloc, heap, fields, links, &first.atom)?;
        left = rest;
    }
    Ok(())
}
