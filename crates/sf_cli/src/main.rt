//! The command `smallfoot`: it proves a program, or says what can't be shown of it.
//!
//! - `top`: the call that does all of it
//! - `usage`: what is said of words that are no command
//! - `reply`: what is said, with which status; and what is fetched of a file
//! - `reading`: from a file's bytes to a program with which nothing is wrong
//! - `refusal`: why a file is refused, and the line that says so
//! - `verify`: what the command says to `verify`
//! - `recheck`: what it says to `recheck`
//! - `rejection`: why such a text is refused, and the line that says so
//! - `run`: what it says to `run` and to `journal`, in the order of its work
//! - `demo`: what it says to `demo`
//! - `ranking`: what it says to `order`
//! - `replay`: what it says to `replay`, in the order of its work
//! - `witness`: what it says to `witness`
//! - `found`: what is found of a schedule and why nothing is, printed
//! - `start_refusal`: why there is no start, and the line that says so
//! - `outcome`: what comes of a run, printed
//! - `journal`: its end with the events by which it came there, printed
//! - `command`: to each order its command
//! - `writing`: what lines are put together from
//! - `laws`: laws of answers
#![tactic(auto)]

ghost use Rattle.std.specs.Prelude.{◌≡◌, map, IfOk};
ghost use Rattle.std.specs.String.{string_bytes};
ghost use Rattle.sf_words.specs.WordsOf.{words_of};

mod command;
mod demo;
mod found;
mod journal;
mod laws;
mod outcome;
mod ranking;
mod reading;
mod recheck;
mod refusal;
mod rejection;
mod replay;
mod reply;
mod run;
mod start_refusal;
#[cfg(test)]
mod tests;
mod top;
mod usage;
mod verify;
mod witness;
mod writing;

use crate::top::{OUT_OF_MEMORY, smallfoot};
use sf_io::{FileShelf, OpenGate, StdSink};
use std::alloc::{AllocError, Global};
use std::process::ExitCode;
use std::{env, io};

/// The words after the program's name.
fn given_words(rt: &HostRuntime) -> io::Result<Vec<String>> {
    let mut words = Vec::new(rt.alloc());
    for word in env::args(rt)?.skip(1) {
        words.push(word)?;
    }
    Ok(words)
}

/// The words as texts that others own.
fn borrowed<'a>(alloc: Global, words: &'a [String]) -> Result<Vec<&'a str>, AllocError>
    ensures { IfOk result (λ texts. words_of texts.items ≡ map string_bytes words.now) }
{
    let mut texts = Vec::with_capacity(alloc, words.len())?;
    for word in words {
        texts.push(word.as_str())?;
    }
    Ok(texts)
}

fn main(rt: HostRuntime) -> ExitCode {
    let alloc = rt.alloc();
    let words = match given_words(&rt) {
        Ok(words) => words,
        Err(e) if e.kind() == io::ErrorKind::OutOfMemory => return ExitCode::from(OUT_OF_MEMORY),
        // Words that aren't text are no command, as no words at all are.
        Err(_) => Vec::new(alloc),
    };
    let Ok(texts) = borrowed(alloc, words.as_slice()) else {
        return ExitCode::from(OUT_OF_MEMORY);
    };
    let mut shelf = FileShelf::new(&rt, alloc);
    let mut sink = StdSink::new(&rt);
    ExitCode::from(smallfoot(
        &rt,
        alloc,
        texts.as_slice(),
        &mut shelf,
        &mut sink,
        &OpenGate,
    ))
}
