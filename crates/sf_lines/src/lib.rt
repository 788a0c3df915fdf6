//! Texts as lines and words: the lines of a text, the words of a line, and what is before and after
//! a sign. Nothing is copied, and nothing recurses.
//!
//! - `lines`: the first line of a text, and what comes after it.
//! - `words`: the first word of a line, and what comes after it.
//! - `signs`: what is before a sign, and what after it.
#![tactic(auto)]

mod lines;
mod signs;
mod words;

pub use lines::next_line;
pub use signs::split_once;
pub use words::{next_word, only_word};
