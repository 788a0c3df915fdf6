//! Runs a small program on parts, and prints how often it did what is counted: the first word names
//! the case, and the second says how many events of its own are made, or how many cells the task has
//! where entries or forks are counted. `bench/run` measures it.
//!
//! - `texts`: the programs and their states.
//! - `running`: the runs.
#![tactic(auto)]

mod running;
mod texts;

use crate::running::{events, forks, visits};
use crate::texts::file_of;
use sf_cases::case_and_count;
use std::alloc::{AllocError, Global};
use std::process::ExitCode;

/// How often the program of a case did what is counted, if it starts.
fn made(alloc: Global, case: &str, count: u32) -> Result<Option<u64>, AllocError> {
    match case {
        "visits" => visits(alloc, count),
        "forks" => forks(alloc, count),
        _ => events(alloc, file_of(case), count as u64),
    }
}

fn main(rt: HostRuntime) -> ExitCode {
    let Ok((case, count)) = case_and_count(&rt, "assignments", 1000) else {
        return ExitCode::from(1);
    };
    let Ok(Some(made)) = made(rt.alloc(), case.as_str(), count) else {
        return ExitCode::from(1);
    };
    match println!(rt; "{made}") {
        Ok(()) => ExitCode::from(0),
        Err(_) => ExitCode::from(1),
    }
}
