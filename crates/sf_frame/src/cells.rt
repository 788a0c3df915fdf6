//! What an event makes of the heap.

ghost use Rattle.std.specs.Prelude.{◌≡◌, ◌==◌, ◌<◌, ℕ, cond, Some, None, length, OnOk, OnErr};
ghost use Rattle.std.specs.FinMap.{get};
ghost use Rattle.std.specs.Option.{option_map};
ghost use Rattle.sf_base.specs.HeapStore.{put_field};
ghost use Rattle.sf_foot.specs.Starting.{HasWidth};
ghost use Rattle.sf_heap.specs.Cells.{FieldValues, cell_of, heap_of};

use sf_base::{FieldId, Value};
use sf_heap::{Cell, Heap};
use std::alloc::{AllocError, Global};

/// Puts a value into a field of the cell at a location, which has that field, if a cell is there.
/// It has as many fields as before.
pub(crate) fn put_field(heap: &mut Heap, at: u64, field: FieldId, value: Value)
    requires { (values : FieldValues) → get heap.old at ≡ Some values → field.0 < length values }
    ensures cells { (l : ℕ) → heap_of heap.new l ≡ cond (l == at)
        (option_map (λ k. put_field k field.0 value) (heap_of heap.old at))
        (heap_of heap.old l) }
    ensures width { (count : ℕ) → HasWidth count heap.old → HasWidth count heap.new }
{
    if let Some(cell) = heap.get_mut(at) {
        cell.put(field, value);
    }
}

/// Puts a cell with those fields at a location, which has none. An `Err` says that memory ran out,
/// and nothing is changed.
pub(crate) fn make_cell(
    alloc: Global,
    heap: &mut Heap,
    at: u64,
    fields: &Cell,
) -> Result<(), AllocError>
    requires { heap_of heap.old at ≡ None }
    ensures ok { OnOk result ((l : ℕ) → heap_of heap.new l
        ≡ cond (l == at) (Some (cell_of fields.now)) (heap_of heap.old l)) }
    ensures err { OnErr result ((l : ℕ) → heap_of heap.new l ≡ heap_of heap.old l) }
    ensures width { (count : ℕ) → length fields.now ≡ count → HasWidth count heap.old
        → HasWidth count heap.new }
{
    let values = Vec::from_slice(alloc, fields.values())?;
    match heap.put(at, Cell::from_values(values)) {
        Ok(()) => Ok(()),
        Err(_) => Err(AllocError),
    }
}

/// The cell at a location is gone.
pub(crate) fn remove_cell(heap: &mut Heap, at: u64)
    ensures cells { (l : ℕ) → heap_of heap.new l ≡ cond (l == at) None (heap_of heap.old l) }
    ensures width { (count : ℕ) → HasWidth count heap.old → HasWidth count heap.new }
{
    let _ = heap.take(at);
}
