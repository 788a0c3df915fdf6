//! Whether a cell has wanted fields, whatever the existentials without a term stand for.

ghost use Rattle.std.specs.Prelude.{◌≡◌, ◌↔◌, [], false, true, IfOk, IsTrue};
ghost use Rattle.sf_core.specs.Assertions.Sat.{HasFields, operand};
ghost use Rattle.sf_heap.specs.Cells.{cell_of, heap_of};
ghost use Rattle.sf_sym.specs.Holds.{term_value};
ghost use Rattle.sf_witness.specs.Located.{located};
ghost use Rattle.sf_witness.specs.Checked.Meeting.{HasCellAs, HasValue, IsCellAs, IsConsistent, IsThereAs, Meets, Refutes, found};

use crate::values::{is_same, value_at};
use sf_base::{FieldId, Value};
use sf_core::Operand;
use sf_heap::{Cell, Heap};
use sf_sym::{Term, term_of};
use std::alloc::{AllocError, Global};

/// The value of an existential that was met.
fn found(met: &[(u32, Value)], n: u32) -> Option<Value>
    ensures { result ≡ found met.now n }
{
    let mut left = met;
    while let Some((first, rest)) = left.split_first() {
        if first.0 == n {
            return Some(first.1);
        }
        left = rest;
    }
    None
}

/// Whether an operand has that value; an existential that has none yet has it from now on. An `Err`
/// means out of memory.
fn meet(
    met: &mut Vec<(u32, Value)>,
    bindings: &[Option<Term>],
    x: &Operand<Term>,
    v: Value,
) -> Result<bool, AllocError>
    requires { IsConsistent bindings.now met.old.items }
    ensures consistent { IsConsistent bindings.now met.new.items }
    ensures yes { IfOk result (λ b. b ≡ true
        → Meets bindings.now met.old.items met.new.items (λ some. HasValue v some x.now)) }
    ensures no { IfOk result (λ b. b ≡ false
        → Refutes bindings.now met.old.items (λ some. HasValue v some x.now)) }
{
    if let Some(t) = term_of(bindings, x) {
        return Ok(is_same(value_at(t), v));
    }
    let Operand::Exists(n) = x else {
        unreachable!();
    };
    if let Some(u) = found(met, *n) {
        return Ok(is_same(u, v));
    }
    met.push((*n, v))?;
    Ok(true)
}

/// Whether the cell has these fields. An `Err` means out of memory.
fn meet_fields(
    met: &mut Vec<(u32, Value)>,
    bindings: &[Option<Term>],
    fields: &[(FieldId, Operand<Term>)],
    cell: &Cell,
) -> Result<bool, AllocError>
    requires { IsConsistent bindings.now met.old.items }
    ensures consistent { IsConsistent bindings.now met.new.items }
    ensures yes { IfOk result (λ b. b ≡ true → Meets bindings.now met.old.items met.new.items
        (λ some. HasFields (operand (term_value located) some) fields.now (cell_of cell.now))) }
    ensures no { IfOk result (λ b. b ≡ false → Refutes bindings.now met.old.items
        (λ some. HasFields (operand (term_value located) some) fields.now (cell_of cell.now))) }
{
    let mut left = fields;
    while let Some((first, rest)) = left.split_first() {
        if !meet(met, bindings, &first.1, cell.get(first.0))? {
            return Ok(false);
        }
        left = rest;
    }
    Ok(true)
}

/// Whether the cell at that location is one at the root with these fields. An `Err` means out of
/// memory.
fn meet_cell(
    alloc: Global,
    bindings: &[Option<Term>],
    root: &Operand<Term>,
    fields: &[(FieldId, Operand<Term>)],
    location: u64,
    cell: &Cell,
) -> Result<bool, AllocError>
    requires { IsConsistent bindings.now [] }
    ensures { IfOk result (λ b. IsTrue b
        ↔ IsCellAs bindings.now root.now fields.now location (cell_of cell.now)) }
{
    let mut met = Vec::new(alloc);
    if !meet(&mut met, bindings, root, Value::Loc(location))? {
        return Ok(false);
    }
    meet_fields(&mut met, bindings, fields, cell)
}

/// Whether there is a cell at that location, one at the root with these fields. An `Err` means out of
/// memory.
fn meet_at(
    alloc: Global,
    heap: &Heap,
    bindings: &[Option<Term>],
    root: &Operand<Term>,
    fields: &[(FieldId, Operand<Term>)],
    location: u64,
) -> Result<bool, AllocError>
    ensures { IfOk result (λ b. IsTrue b
        ↔ IsThereAs bindings.now root.now fields.now (heap_of heap.now) location) }
{
    let Some(cell) = heap.get(location) else {
        return Ok(false);
    };
    let is_so = meet_cell(alloc, bindings, root, fields, location, cell)?;
    Ok(is_so)
}

/// Whether a cell of the heap is one at the root with these fields. An `Err` means out of memory.
pub fn has_cell(
    alloc: Global,
    heap: &Heap,
    bindings: &[Option<Term>],
    root: &Operand<Term>,
    fields: &[(FieldId, Operand<Term>)],
) -> Result<bool, AllocError>
    ensures { IfOk result (λ b. IsTrue b
        ↔ HasCellAs bindings.now root.now fields.now (heap_of heap.now)) }
{
    let at = heap.locations()?;
    let mut left = at.as_slice();
    while let Some((first, rest)) = left.split_first() {
        if meet_at(alloc, heap, bindings, root, fields, *first)? {
            return Ok(true);
        }
        left = rest;
    }
    Ok(false)
}
