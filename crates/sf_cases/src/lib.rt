//! What a bench is told by its words: the first one names a case, and the second says how large it is.
#![tactic(auto)]

use std::env::{self, Env};
use std::io;

/// The case and the count that the words say, or those that are given where a word isn't there; the
/// given count too where the second word is no number. An `Err` says that memory ran out, or that a
/// word is no text.
pub fn case_and_count<R: Env + AllocGlobal>(
    rt: &R,
    case: &str,
    count: u32,
) -> io::Result<(String, u32)> {
    let mut words = env::args(rt)?;
    let case = match words.nth(1) {
        Some(word) => word,
        None => String::from_str(rt.alloc(), case)?,
    };
    let count = match words.next() {
        Some(word) => word.as_str().parse::<u32>().unwrap_or(count),
        None => count,
    };
    Ok((case, count))
}
