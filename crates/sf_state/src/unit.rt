//! The first unit: one more than the greatest location that is mentioned.

ghost use Rattle.std.specs.Prelude.{◌≡◌, ◌<◌, ◌^◌};
ghost use Rattle.sf_foot.specs.Starting.{IsFirstUnit, IsMentioned};
ghost use Rattle.sf_heap.specs.Cells.{AreAt};
ghost use Rattle.sf_state.specs.Checked.FirstUnit.{AreInBounds, IsInCell, IsLocation, IsOfOne, IsValueIn, Raises};

use sf_base::Value;
use sf_foot::Vars;
use sf_heap::{Heap, Locations};

/// The unit, raised above a location.
fn above(unit: u64, location: u64) -> u64
    requires { location < 2 ^ 62 }
    ensures { Raises (λ l. l ≡ location) unit result }
{
    if location < unit { unit } else { location + 1 }
}

/// The unit, raised above the value if it is a location.
fn above_value(unit: u64, value: Value) -> u64
    requires { AreInBounds (IsLocation value) }
    ensures { Raises (IsLocation value) unit result }
{
    match value {
        Value::Nil => unit,
        Value::Int(_) => unit,
        Value::Loc(location) => above(unit, location),
    }
}

/// The unit, raised above each location among the values.
fn above_values(unit: u64, values: &[Value]) -> u64
    requires { AreInBounds (IsValueIn values.now) }
    ensures { Raises (IsValueIn values.now) unit result }
{
    let mut raised = unit;
    for value in values {
        raised = above_value(raised, *value);
    }
    raised
}

/// The unit, raised above each location among the values of all resources' variables.
fn above_shared(unit: u64, shared: &[Vec<Value>]) -> u64
    requires { AreInBounds (IsOfOne (λ vs. IsValueIn vs.items) shared.now) }
    ensures { Raises (IsOfOne (λ vs. IsValueIn vs.items) shared.now) unit result }
{
    let mut raised = unit;
    for values in shared {
        raised = above_values(raised, values);
    }
    raised
}

/// The unit, raised above a location and those in the cell there.
fn above_cell(unit: u64, heap: &Heap, location: u64) -> u64
    requires { AreInBounds (IsInCell heap.now location) }
    ensures { Raises (IsInCell heap.now location) unit result }
{
    let raised = above(unit, location);
    match heap.get(location) {
        Some(cell) => above_values(raised, cell.values()),
        None => raised,
    }
}

/// The unit, raised above these locations and those in the cells there.
fn above_cells(unit: u64, heap: &Heap, at: &[u64]) -> u64
    requires { AreInBounds (IsOfOne (IsInCell heap.now) at.now) }
    ensures { Raises (IsOfOne (IsInCell heap.now) at.now) unit result }
{
    let mut raised = unit;
    for location in at {
        raised = above_cell(raised, heap, *location);
    }
    raised
}

/// One more than the greatest location that is mentioned, and 1 where none is. The locations are
/// those of all cells.
pub(crate) fn first_unit(vars: &Vars, heap: &Heap, at: &Locations) -> u64
    requires in_bounds { AreInBounds (IsMentioned vars.now heap.now) }
    requires all { AreAt at.now heap.now }
    ensures { IsFirstUnit vars.now heap.now result }
{
    let own = above_values(1, &vars.own);
    let shared = above_shared(own, &vars.shared);
    above_cells(shared, heap, at.as_slice())
}
