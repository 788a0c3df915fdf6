//! Finds the footprint of a large assertion in a large heap, and prints how many locations it has:
//! the first word names the case, and the second says how many cells there are. `bench/run`
//! measures it.
//!
//! - `heaps`: the heaps.
//! - `assertions`: what is looked for in them.
#![tactic(auto)]

mod assertions;
mod heaps;

use crate::assertions::{cells, double, list, tree};
use crate::heaps::{LastLinks, chained, doubled, listed, rooted};
use sf_base::Value;
use sf_cases::case_and_count;
use sf_core::Assertion;
use sf_foot::{Vars, footprint};
use sf_heap::Heap;
use sf_precise::order;
use std::alloc::{AllocError, Global};
use std::io;

/// The heap of a case with a doubly linked list whose last cell leads on to that value, and the
/// assertion that is looked for. Where the links aren't right it leads back to nil.
fn made_double(
    alloc: Global,
    count: u32,
    next: Value,
    right: bool,
) -> Result<(Heap, Assertion), AllocError> {
    let back = if right {
        Value::Loc(count.saturating_sub(1) as u64)
    } else {
        Value::Nil
    };
    let heap = doubled(alloc, count, LastLinks { next, back })?;
    Ok((heap, double(alloc)?))
}

/// The heap of a case and the assertion that is looked for.
fn made(alloc: Global, case: &str, count: u32) -> Result<(Heap, Assertion), AllocError> {
    match case {
        "random" => Ok((listed(alloc, count, 531_441)?, list(alloc)?)),
        "balanced" => Ok((rooted(alloc, count)?, tree(alloc)?)),
        "chain" => Ok((chained(alloc, count)?, tree(alloc)?)),
        "double" => made_double(alloc, count, Value::Nil, true),
        "ring" => made_double(alloc, count, Value::Loc(1), true),
        "wrong" => made_double(alloc, count, Value::Nil, false),
        "cells" => Ok((listed(alloc, count, 1)?, cells(alloc, count)?)),
        _ => Ok((listed(alloc, count, 1)?, list(alloc)?)),
    }
}

/// How many locations the footprint has, if there is one. The variable 0 is the location 1, and the
/// variable 1 the location of that number.
fn found(
    alloc: Global,
    heap: &Heap,
    last: u32,
    a: &Assertion,
) -> Result<Option<usize>, AllocError> {
    let Ok(ordered) = order(alloc, a) else {
        return Ok(None);
    };
    let vars = Vars {
        own: vec![in alloc; Value::Loc(1), Value::Loc(last as u64)]?,
        shared: Vec::new(alloc),
    };
    let at = footprint(alloc, &ordered, &vars, heap)?;
    Ok(at.map(|locations| locations.len()))
}

fn main(rt: HostRuntime) -> io::Result<()> {
    let (case, count) = case_and_count(&rt, "ordered", 10)?;
    let (heap, a) = made(rt.alloc(), case.as_str(), count)?;
    // With no case of that name only the heap is made.
    if case.as_str() == "heap" {
        return Ok(());
    }
    let locations = found(rt.alloc(), &heap, count, &a)?;
    println!(rt; "{locations:?}")
}
