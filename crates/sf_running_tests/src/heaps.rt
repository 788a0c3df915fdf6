//! Each call that allocates succeeds where there is ample memory, and a heap is what was put in.

use sf_base::{FieldId, Value};
use sf_heap::{Cell, Heap, Locations};
use std::alloc::{AllocError, Global};
use std::process::Abort;
use std::test::Fail;

/// A cell whose one field holds that location.
fn numbered(alloc: Global, l: u64) -> Result<Cell, AllocError> {
    Ok(Cell::from_values(vec![in alloc; Value::Loc(l)]?))
}

/// A heap with such a cell at each of the locations.
fn heap_at(alloc: Global, at: &[u64]) -> Result<Heap, Fail> {
    let mut heap = Heap::new(alloc);
    for l in at {
        heap.put(*l, numbered(alloc, *l)?)?;
    }
    Ok(heap)
}

/// The heap has just these cells.
fn assert_at(rt: &impl Abort, heap: &Heap, at: &[u64]) {
    assert_eq!(rt; heap.len(), at.len());
    for l in at {
        let value = heap.get(*l).map(|cell| cell.get(FieldId(0)));
        assert!(rt; value == Some(Value::Loc(*l)));
    }
}

#[test]
fn a_new_cell_is_nil(rt: HostRuntime) -> Result<(), Fail> {
    let cell = Cell::new(rt.alloc(), 3)?;
    assert_eq!(rt;
        cell.values(),
        [Value::Nil, Value::Nil, Value::Nil].as_slice()
    );
    Ok(())
}

#[test]
fn cells_are_put_and_taken(rt: HostRuntime) -> Result<(), Fail> {
    let mut heap = heap_at(rt.alloc(), &[7, 2, 9, 4])?;
    assert_at(&rt, &heap, &[2, 4, 7, 9]);
    assert!(rt; heap.put(7, numbered(rt.alloc(), 1)?).is_err());
    assert!(rt; heap.take(7).is_some());
    assert!(rt; heap.take(7).is_none());
    assert!(rt; heap.get_mut(7).is_none());
    assert_at(&rt, &heap, &[2, 4, 9]);
    if let Some(cell) = heap.get_mut(4) {
        if cell.values().len() == 1 {
            cell.put(FieldId(0), Value::Int(-1));
        }
    }
    let value = heap.get(4).map(|cell| cell.get(FieldId(0)));
    assert!(rt; value == Some(Value::Int(-1)));
    Ok(())
}

#[test]
fn heaps_are_joined_and_parted(rt: HostRuntime) -> Result<(), Fail> {
    let alloc = rt.alloc();
    let mut heap = heap_at(alloc, &[7, 2, 9])?;
    let other = heap_at(alloc, &[1, 8, 10, 3])?;
    assert!(rt; heap.is_disjoint(&other));
    heap.join(other)?;
    assert_at(&rt, &heap, &[1, 2, 3, 7, 8, 9, 10]);
    assert!(rt; !heap.is_disjoint(&heap_at(alloc, &[5, 7])?));
    let at = Locations::from_vec(vec![in alloc; 9, 1, 8, 9]?);
    assert_eq!(rt; at.as_slice(), [1, 8, 9].as_slice());
    assert_eq!(rt; at.len(), 3);
    assert!(rt; heap.has_all(&at));
    let part = heap.part_off(&at);
    assert_at(&rt, &part, &[1, 8, 9]);
    assert_at(&rt, &heap, &[2, 3, 7, 10]);
    assert!(rt; !heap.has_all(&at));
    Ok(())
}
