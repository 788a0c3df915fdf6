//! The values of one cell's fields.

ghost use Rattle.std.specs.Prelude.{◌≡◌, ◌<◌, length, replicate, slice_index_or, slice_set, IfOk};

use sf_base::{FieldId, Value};
use std::alloc::{AllocError, Global};
use std::marker::Model;
use std::slice::from_ref;

/// A cell: a value for each of the file's fields. Contracts see the list of the values, by the
/// fields' numbers.
#[derive(Debug, Drop)]
pub struct Cell {
    values: Values,
}

/// The values: one alone lies within the cell, and wants no memory of its own.
#[derive(Debug, Drop)]
enum Values {
    One(Value),
    Many(Vec<Value>),
}

impl Model for Cell {
    ghost use Rattle.sf_heap.specs.Cells.{FieldValues};
    ghost use Rattle.sf_heap.specs.Checked.Values.{values_of};

    ghost Value = { FieldValues };

    ghost view = { λ c. values_of c.values };
}

impl Cell {
    /// A cell with that many fields, all nil. An `Err` says that memory ran out.
    pub fn new(alloc: Global, fields: usize) -> Result<Cell, AllocError>
        ensures { IfOk result (λ c. c ≡ replicate fields Value.Nil) }
    {
        if fields == 1 {
            return Ok(Cell {
                values: Values::One(Value::Nil),
            });
        }
        Ok(Cell {
            values: Values::Many(Vec::from_elem(alloc, Value::Nil, fields)?),
        })
    }

    /// The cell with those values.
    pub fn from_values(values: Vec<Value>) -> Cell
        ensures { result ≡ values.items }
    {
        if let [value] = values.as_slice() {
            return Cell {
                values: Values::One(*value),
            };
        }
        Cell {
            values: Values::Many(values),
        }
    }

    /// The values of the fields, in order of the fields' numbers.
    pub fn values(&self) -> &[Value]
        ensures { result.now ≡ self.now }
    {
        match &self.values {
            Values::One(value) => from_ref(value),
            Values::Many(values) => values.as_slice(),
        }
    }

    /// The value of a field, or nil where the cell has no such field.
    pub fn get(&self, field: FieldId) -> Value
        ensures { result ≡ slice_index_or self.now field.0 Value.Nil }
    {
        match self.values().get(field.0 as usize) {
            Some(value) => *value,
            None => Value::Nil,
        }
    }

    /// Puts a value into a field that the cell has.
    pub fn put(&mut self, field: FieldId, value: Value)
        requires { field.0 < length self.old }
        ensures { self.new ≡ slice_set self.old field.0 value }
    {
        match &mut self.values {
            Values::One(one) => *one = value,
            Values::Many(values) => values[field.0 as usize] = value,
        }
    }
}
