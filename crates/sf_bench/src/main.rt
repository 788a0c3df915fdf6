//! Asks of three large states what a search asks at each of its goals, as often as the first word
//! says, and prints the last answers. `bench/run` measures it; where no number is given it asks
//! five times.
//!
//! - `states`: the states.
//! - `answers`: what is asked.
#![tactic(auto)]

mod answers;
mod states;

use crate::answers::{Answers, asked};
use crate::states::{lists, segments, shared_cells};
use std::alloc::{AllocError, Global};
use std::process::ExitCode;
use std::{env, io};

/// How often to ask: the number that the first word is.
fn times(rt: &HostRuntime) -> io::Result<u32> {
    match env::args(rt)?.nth(1) {
        Some(word) => Ok(word.as_str().parse::<u32>().unwrap_or(5)),
        None => Ok(5),
    }
}

/// The last answers of each state: 5,000 segments, 5,000 lists from one symbol, and 20,000 cells at
/// 250 symbols.
fn measured(alloc: Global, times: u32) -> Result<[Answers; 3], AllocError> {
    let long = segments(alloc, 5_000)?;
    let same = lists(alloc, 5_000)?;
    let wide = shared_cells(alloc, 20_000, 250)?;
    Ok([
        asked(&long, times),
        asked(&same, times),
        asked(&wide, times),
    ])
}

fn main(rt: HostRuntime) -> ExitCode {
    let Ok(times) = times(&rt) else {
        return ExitCode::from(1);
    };
    let Ok([long, same, wide]) = measured(rt.alloc(), times) else {
        return ExitCode::from(1);
    };
    match println!(rt; "segments: {long:?}\nlists: {same:?}\ncells: {wide:?}") {
        Ok(()) => ExitCode::from(0),
        Err(_) => ExitCode::from(1),
    }
}
