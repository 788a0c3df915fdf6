//! Reads the text of a state with many cells, and prints how many cells the start has and its first
//! unit: the first word names the order of the cells' lines, and the second says how many there
//! are. `bench/run` measures it.
//!
//! - `texts`: the texts.
//! - `files`: the file for which they are read.
#![tactic(auto)]

mod files;
mod texts;

use crate::files::fitted;
use crate::texts::{listed, reversed};
use sf_cases::case_and_count;
use sf_foot::Start;
use sf_precise::Arranged;
use sf_state::{StartFault, entry, read};
use std::alloc::{AllocError, Global};
use std::process::ExitCode;

/// The text of a case.
fn made(alloc: Global, case: &str, count: u32) -> Result<Vec<u8>, AllocError> {
    match case {
        "rising" => listed(alloc, count, 1),
        "falling" => reversed(alloc, count),
        _ => listed(alloc, count, 531_441),
    }
}

/// The start that the text gives.
fn started(alloc: Global, p: &Arranged, text: &[u8]) -> Result<Start, StartFault> {
    let f = entry(alloc, p, "walk")?;
    read(alloc, p, f, text)
}

fn main(rt: HostRuntime) -> ExitCode {
    let Ok((case, count)) = case_and_count(&rt, "random", 10) else {
        return ExitCode::from(1);
    };
    let Some(p) = fitted(rt.alloc(), b"walk(p;) [list(p)] { }") else {
        return ExitCode::from(1);
    };
    let Ok(text) = made(rt.alloc(), case.as_str(), count) else {
        return ExitCode::from(1);
    };
    let Ok(start) = started(rt.alloc(), &p, &text) else {
        return ExitCode::from(1);
    };
    match println!(rt; "{} cells, unit {}", start.heap.len(), start.unit) {
        Ok(()) => ExitCode::from(0),
        Err(_) => ExitCode::from(1),
    }
}
