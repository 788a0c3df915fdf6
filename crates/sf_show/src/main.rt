//! The command `show`: what smallfoot's layers say of a file, drawn for a reader.
//!
//! - `top`: the call that does all of it
//! - `order`: what the words ask for
//! - `reply`: what is said, with which status; and what is fetched of a file
//! - `reading`: from a file's bytes to a program with which nothing is wrong
//! - `refused`: why a file is refused, with its hint
//! - `failing`: the obligation at which a search is stuck
//! - `proving`: tags one after the other, and why a proof is refused
//! - `explaining`: what is said to `explain`
//! - `goals`: the goals after the tags
//! - `files`: the files that a run is of
//! - `starting`: why a text is no start
//! - `tracing`: what is said to `trace`
//! - `scening`: what a page has of a refusal, a proof and a run
//! - `paging`: what is said to `page`
//!
//! What is shown is unproved drawing over proved parts: each fact in it is asked of a layer, by the
//! contract of its public call, and nothing is claimed of how it is put into words. The program
//! itself is safe and ends, and each fault is named.
#![tactic(auto)]

mod explaining;
mod failing;
mod files;
mod goals;
mod order;
mod paging;
mod proving;
mod reading;
mod refused;
mod reply;
mod scening;
mod starting;
mod top;
mod tracing;

use crate::top::{OUT_OF_MEMORY, show};
use sf_io::{FileShelf, StdSink};
use std::process::ExitCode;
use std::{env, io};

/// The words after the program's name.
fn given_words(rt: &HostRuntime) -> io::Result<Vec<String>> {
    let mut words = Vec::new(rt.alloc());
    for word in env::args(rt)?.skip(1) {
        words.push(word)?;
    }
    Ok(words)
}

fn main(rt: HostRuntime) -> ExitCode {
    let alloc = rt.alloc();
    let words = match given_words(&rt) {
        Ok(words) => words,
        Err(e) if e.kind() == io::ErrorKind::OutOfMemory => return ExitCode::from(OUT_OF_MEMORY),
        // Words that aren't text are no command, as no words at all are.
        Err(_) => Vec::new(alloc),
    };
    let mut shelf = FileShelf::new(&rt, alloc);
    let mut sink = StdSink::new(&rt);
    ExitCode::from(show(alloc, words.as_slice(), &mut shelf, &mut sink))
}
