//! The text of a state: a line for each variable, and then one for each cell.

ghost use Rattle.std.specs.Prelude.{◌≡◌, IfOk, slice_index_or};
ghost use Rattle.std.specs.FinMap as map;
ghost use Rattle.sf_base.specs.Results.{Appends};
ghost use Rattle.sf_core.specs.Program.ProgramView.{program_of};
ghost use Rattle.sf_core.specs.Program.View.{procedure_of};
ghost use Rattle.sf_state.specs.Names.{names_of};
ghost use Rattle.sf_state.specs.Refused.{cell_name};
ghost use Rattle.sf_state.specs.StateText.{cell_line, cell_lines, field_text, field_texts, state_text, value_text, values_or_none, variable_line, variable_lines};

use crate::names::{name_at, names_of};
use itoa::Buffer;
use sf_base::{Name, Value};
use sf_core::{Proc, Program};
use sf_heap::{Heap, Locations};
use std::alloc::{AllocError, Global};

/// Appends a text. An `Err` means out of memory.
fn put(text: &mut Vec<u8>, more: &str) -> Result<(), AllocError>
    ensures { Appends result text.old.items text.new.items more.now }
{
    text.extend_from_slice(more.as_bytes())?;
    Ok(())
}

/// Appends the name of the cell at a location. An `Err` means out of memory.
fn put_location(text: &mut Vec<u8>, location: u64) -> Result<(), AllocError>
    ensures { Appends result text.old.items text.new.items (cell_name location) }
{
    put(text, "@")?;
    put(text, Buffer::new().format(location))
}

/// Appends a value. An `Err` means out of memory.
pub fn put_value(text: &mut Vec<u8>, value: Value) -> Result<(), AllocError>
    ensures { Appends result text.old.items text.new.items (value_text value) }
{
    match value {
        Value::Nil => put(text, "nil"),
        Value::Int(i) => put(text, Buffer::new().format(i)),
        Value::Loc(location) => put_location(text, location),
    }
}

/// Appends the line of a variable. An `Err` means out of memory.
fn put_variable(text: &mut Vec<u8>, name: &[u8], value: Value) -> Result<(), AllocError>
    ensures { Appends result text.old.items text.new.items (variable_line name.now value) }
{
    text.extend_from_slice(name)?;
    put(text, " = ")?;
    put_value(text, value)?;
    put(text, "\n")
}

/// Appends a field with its value. An `Err` means out of memory.
fn put_field(text: &mut Vec<u8>, name: &[u8], value: Value) -> Result<(), AllocError>
    ensures { Appends result text.old.items text.new.items (field_text name.now value) }
{
    put(text, " ")?;
    text.extend_from_slice(name)?;
    put(text, "=")?;
    put_value(text, value)
}

/// The value of that number, nil where there is none.
fn value_at(values: &[Value], number: usize) -> Value
    ensures { result ≡ slice_index_or values.now number Value.Nil }
{
    match values.get(number) {
        Some(value) => *value,
        None => Value::Nil,
    }
}

/// Appends the lines of variables. An `Err` means out of memory.
#[tactic(auto, using(crate::proofs::Written::variables_more))]
fn put_variables(text: &mut Vec<u8>, names: &[Name], values: &[Value]) -> Result<(), AllocError>
    ensures { Appends result text.old.items text.new.items
        (variable_lines names.now 0 values.now) }
{
    for i in 0..names.len() {
        put_variable(text, name_at(names, i), value_at(values, i))?;
    }
    Ok(())
}

/// Appends the fields of a cell. An `Err` means out of memory.
#[tactic(auto, using(crate::proofs::Written::fields_more))]
fn put_fields(text: &mut Vec<u8>, names: &[Name], values: &[Value]) -> Result<(), AllocError>
    ensures { Appends result text.old.items text.new.items (field_texts names.now 0 values.now) }
{
    for i in 0..names.len() {
        put_field(text, name_at(names, i), value_at(values, i))?;
    }
    Ok(())
}

/// Appends the line of a cell. An `Err` means out of memory.
fn put_cell(
    text: &mut Vec<u8>,
    fields: &[Name],
    location: u64,
    values: &[Value],
) -> Result<(), AllocError>
    ensures { Appends result text.old.items text.new.items
        (cell_line fields.now location values.now) }
{
    put_location(text, location)?;
    put_fields(text, fields, values)?;
    put(text, "\n")
}

/// The values of a cell, none where it isn't there.
fn values_at(heap: &Heap, location: u64) -> &[Value]
    ensures { result.now ≡ values_or_none (map.get heap.now location) }
{
    match heap.get(location) {
        Some(cell) => cell.values(),
        None => &[],
    }
}

/// Appends the lines of the cells at those locations, each with the fields of these names, in order.
/// An `Err` means out of memory.
pub fn put_cells(
    text: &mut Vec<u8>,
    fields: &[Name],
    heap: &Heap,
    at: &[u64],
) -> Result<(), AllocError>
    ensures { Appends result text.old.items text.new.items
        (cell_lines fields.now (map.get heap.now) at.now) }
{
    for location in at {
        put_cell(text, fields, *location, values_at(heap, *location))?;
    }
    Ok(())
}

/// The text of a state of a procedure: the values of its variables in canonical order, and the
/// cells at those locations, each with all fields in declared order. An `Err` means out of memory.
pub fn state_text(
    alloc: Global,
    p: &Program,
    g: &Proc,
    values: &[Value],
    heap: &Heap,
    at: &Locations,
) -> Result<Vec<u8>, AllocError>
    ensures { IfOk result (λ text. text.items ≡ state_text (program_of p.now).fields
        (names_of (program_of p.now) (procedure_of g.now)) values.now (map.get heap.now) at.now) }
{
    let names = names_of(alloc, p, g)?;
    let mut text = Vec::new(alloc);
    put_variables(&mut text, &names, values)?;
    put_cells(&mut text, &p.fields, heap, at.as_slice())?;
    Ok(text)
}
