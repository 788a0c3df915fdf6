//! Heaps with cells at the locations from 1 on, each with two fields.

use sf_base::Value;
use sf_heap::{Cell, Heap};
use std::alloc::{AllocError, Global};

/// Puts a cell with those fields there, where there is none.
fn put(
    alloc: Global,
    heap: &mut Heap,
    at: u64,
    first: Value,
    second: Value,
) -> Result<(), AllocError> {
    let values = vec![in alloc; first, second]?;
    let cell = Cell::from_values(values);
    if heap.put(at, cell).is_err() {
        return Err(AllocError);
    }
    Ok(())
}

/// The location, if it is one of the first so many, and else nil.
fn within(at: u64, count: u64) -> Value {
    if at <= count {
        Value::Loc(at)
    } else {
        Value::Nil
    }
}

/// A list from the location 1 on, which goes each time so many locations further, and around at
/// the end. It has all cells where the step has no divisor in common with their number.
pub fn listed(alloc: Global, count: u32, step: u32) -> Result<Heap, AllocError> {
    let mut heap = Heap::new(alloc);
    for i in 0..count {
        let next = (i as u64 + step as u64) % (count as u64);
        let first = if next == 0 {
            Value::Nil
        } else {
            Value::Loc(next + 1)
        };
        put(alloc, &mut heap, i as u64 + 1, first, Value::Nil)?;
    }
    Ok(heap)
}

/// Where the last cell of a doubly linked list leads.
#[derive(Clone, Copy)]
pub struct LastLinks {
    /// On.
    pub next: Value,
    /// Back.
    pub back: Value,
}

/// A doubly linked list from the location 1 on, in the order of the locations. Its first cell leads
/// back to the last one.
pub fn doubled(alloc: Global, count: u32, last: LastLinks) -> Result<Heap, AllocError> {
    let mut heap = Heap::new(alloc);
    for i in 0..count {
        let before = if i == 0 { count } else { i };
        let (mut next, mut back) = (Value::Loc(i as u64 + 2), Value::Loc(before as u64));
        if i + 1 == count {
            (next, back) = (last.next, last.back);
        }
        put(alloc, &mut heap, i as u64 + 1, next, back)?;
    }
    Ok(heap)
}

/// A tree from the location 1 on, balanced.
pub fn rooted(alloc: Global, count: u32) -> Result<Heap, AllocError> {
    let mut heap = Heap::new(alloc);
    for i in 0..count {
        let left = 2 * (i as u64) + 2;
        put(
            alloc,
            &mut heap,
            i as u64 + 1,
            within(left, count as u64),
            within(left + 1, count as u64),
        )?;
    }
    Ok(heap)
}

/// A tree from the location 1 on, each of whose nodes has only a right one below it.
pub fn chained(alloc: Global, count: u32) -> Result<Heap, AllocError> {
    let mut heap = Heap::new(alloc);
    for i in 0..count {
        put(
            alloc,
            &mut heap,
            i as u64 + 1,
            Value::Nil,
            within(i as u64 + 2, count as u64),
        )?;
    }
    Ok(heap)
}
