//! The tokens of a file: which bytes make one, where it is, and the first fault where there is one.
//!
//! - `fault`: why bytes are no tokens.
//! - `laws`: laws of reading tokens.
//! - `lexeme`: the next token, blank or comment of the bytes that are left.
//! - `scan`: the call `tokens`.
//! - `symbols`: the longest symbol that comes next.
//! - `token`: tokens and their kinds.
//! - `whole`: whether a whole text is a name, and which number it writes.
//! - `words`: reserved words.
#![tactic(auto)]

mod fault;
pub mod laws;
mod lexeme;
mod scan;
mod symbols;
mod token;
mod whole;
mod words;

pub use fault::LexFault;
pub use scan::tokens;
pub use token::{Kind, Token, Tokens};
pub use whole::{is_name, number};
