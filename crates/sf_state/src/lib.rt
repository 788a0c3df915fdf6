//! The text of a state, both ways.
//!
//! - `words`: what a word begins with.
//! - `names`: the names in a state's text.
//! - `values`: which value a word writes.
//! - `fields`: what the words of a cell's fields say.
//! - `entering`: the procedure that a run starts with.
//! - `line`: what a line says.
//! - `saying`: the reading of a line.
//! - `given`: what the lines have given so far.
//! - `cell`: the cell that words give.
//! - `state`: the variables and cells that a text gives.
//! - `placing`: these cells in a heap, and these values as those of variables.
//! - `finding`: the footprints of a start's assertions, one after the other.
//! - `unit`: the first unit of a start.
//! - `start`: the start that a text gives.
//! - `text`: the text of a state as it is written.
//! - `finish`: the text of what a run ends with.
//! - `fault`: why a procedure and a text are no start.
//! - `laws`: entries, starts and texts are one each, and what is written is read back.
#![tactic(auto)]

mod cell;
mod entering;
mod fault;
mod fields;
mod finding;
mod finish;
mod given;
pub mod laws;
mod line;
mod names;
mod placing;
mod saying;
mod start;
mod state;
mod text;
mod unit;
mod values;
mod words;

pub use cell::cell_from_words;
pub use entering::entry;
pub use fault::StartFault;
pub use finish::write;
pub use start::read;
pub use state::{State, read_state};
pub use text::{put_cells, put_value, state_text};
