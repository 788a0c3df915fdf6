//! Runs a small program on the machine, and prints how many events it made: the first word names
//! the program, and the second says how many events are made. `bench/run` measures it.
//!
//! - `programs`: the programs.
//! - `plain`: procedures that need nothing, and their starts.
//! - `running`: the events.
#![tactic(auto)]

mod plain;
mod programs;
mod running;

use crate::plain::plain_start;
use crate::programs::program_of_case;
use crate::running::run;
use sf_cases::case_and_count;
use sf_machine::begin_with;
use std::alloc::{AllocError, Global};
use std::io;

/// How many events the program of a case made. None are made where it isn't one that starts with
/// nothing.
fn made(alloc: Global, case: &str, count: u64) -> Result<u64, AllocError> {
    let Some(p) = program_of_case(alloc, case) else {
        return Ok(0);
    };
    let Some(f) = p.find("run") else {
        return Ok(0);
    };
    let Some(start) = plain_start(alloc, &p, f)? else {
        return Ok(0);
    };
    let c = begin_with(alloc, &p, f, start)?;
    run(alloc, &p, c, count)
}

fn main(rt: HostRuntime) -> io::Result<()> {
    let (case, count) = case_and_count(&rt, "assignments", 1000)?;
    let made = made(rt.alloc(), case.as_str(), count as u64)?;
    println!(rt; "{made}")
}
