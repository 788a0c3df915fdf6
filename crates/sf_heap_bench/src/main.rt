//! Disposes of many cells, or joins few to many and parts them off again, and prints how many are
//! left: the first word names the case, and the second says how many cells there are. `bench/run`
//! measures it.
//!
//! - `moves`: what is done with the cells.
#![tactic(auto)]

mod moves;

use crate::moves::{cells, join_and_part, take_back, take_front};
use sf_cases::case_and_count;
use sf_heap::Heap;
use std::alloc::{AllocError, Global};
use std::io;

/// The cells of a case, once that is done with them which it names.
fn done(alloc: Global, case: &str, count: u32) -> Result<Heap, AllocError> {
    match case {
        "joins" => join_and_part(alloc, cells(alloc, count, 2)?, count),
        "back" => Ok(take_back(cells(alloc, count, 1)?, count)),
        "second" => Ok(take_front(cells(alloc, count, 1)?, count / 2, 2)),
        _ => Ok(take_front(cells(alloc, count, 1)?, count, 1)),
    }
}

fn main(rt: HostRuntime) -> io::Result<()> {
    let (case, count) = case_and_count(&rt, "front", 10)?;
    let left = done(rt.alloc(), case.as_str(), count)?;
    let cells = left.len();
    println!(rt; "{cells}")
}
