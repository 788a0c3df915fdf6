//! What is done with the cells.

use sf_base::Value;
use sf_heap::{Cell, Heap, Locations};
use std::alloc::{AllocError, Global};

/// How many times a few cells are joined and parted off.
const TURNS: u32 = 20_000;

/// Puts a cell there, where there is none.
fn put(alloc: Global, heap: &mut Heap, at: u64) -> Result<(), AllocError> {
    let values = vec![in alloc; Value::Nil]?;
    let cell = Cell::from_values(values);
    if heap.put(at, cell).is_err() {
        return Err(AllocError);
    }
    Ok(())
}

/// So many cells from the location 1 on, each so far from the next one.
pub fn cells(alloc: Global, count: u32, step: u8) -> Result<Heap, AllocError> {
    let mut heap = Heap::new(alloc);
    for i in 0..count {
        put(alloc, &mut heap, i as u64 * step as u64 + 1)?;
    }
    Ok(heap)
}

/// What is left once the cells at the locations are taken from 1 on that are so far apart.
pub fn take_front(mut heap: Heap, count: u32, step: u8) -> Heap {
    for i in 0..count {
        let _ = heap.take(i as u64 * step as u64 + 1);
    }
    heap
}

/// What is left once so many cells are taken, the last one first.
pub fn take_back(mut heap: Heap, count: u32) -> Heap {
    for i in 0..count {
        let _ = heap.take((count - i) as u64);
    }
    heap
}

/// Ten cells between the others, so far apart, and their locations.
fn few(alloc: Global, step: u32) -> Result<(Heap, Locations), AllocError> {
    let mut heap = Heap::new(alloc);
    for i in 0u32..10 {
        put(alloc, &mut heap, i as u64 * step as u64 * 2 + 2)?;
    }
    let at = heap.locations()?;
    Ok((heap, at))
}

/// The cells of both, or nothing where they have a location in common.
fn joined(mut heap: Heap, other: Heap) -> Option<Heap> {
    if !heap.is_disjoint(&other) {
        return None;
    }
    heap.join(other).ok()?;
    Some(heap)
}

/// The cells at those locations, and the others, or nothing where one isn't there.
fn parted(mut heap: Heap, at: &Locations) -> Option<(Heap, Heap)> {
    if !heap.has_all(at) {
        return None;
    }
    let part = heap.part_off(at);
    Some((part, heap))
}

/// The cells once ten more were joined to them and parted off again, many times: those are taken
/// from all of them.
pub fn join_and_part(alloc: Global, heap: Heap, count: u32) -> Result<Heap, AllocError> {
    let (mut part, at) = few(alloc, count / 10)?;
    let mut rest = heap;
    for _ in 0..TURNS {
        let Some(whole) = joined(rest, part) else {
            return Err(AllocError);
        };
        let Some((less, others)) = parted(whole, &at) else {
            return Err(AllocError);
        };
        part = less;
        rest = others;
    }
    Ok(rest)
}
