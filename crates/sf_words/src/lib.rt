//! The words of the command line: which order they are.
//!
//! - `order`: the orders, and why words are none.
//! - `reading`: the call `read`.
//! - `laws`: laws of reading words.
//! - `screen`: what is refused before the words go to `clap`.
//! - `forms`: what `clap` is told of the commands.
//! - `given`: an order from what `clap` found.
//! - `number`: the numbers of options and operands.
//!
//! `specs/Words` is the grammar, `specs/WordsOf` says how the code's words and orders are read as
//! those of the grammar.
#![tactic(auto)]

mod forms;
mod given;
pub mod laws;
mod number;
mod order;
mod reading;
mod screen;

pub use order::{Order, WordFault};
pub use reading::read;
