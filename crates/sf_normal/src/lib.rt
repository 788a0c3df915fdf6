//! The rules that work out what is known, whatever is to do: a state that can't be, an empty
//! segment or tree, one that can only be empty, two terms that are the same or differ, the first
//! cell of a segment or tree, the last cell of a doubly linked segment.
//!
//! - `empty`: a state that can't be, and atoms that can only be empty.
//! - `two_terms`: two terms are the same, or they differ.
//! - `first_cell`: a segment or tree that isn't empty begins with a cell.
//! - `last_cell`: a doubly linked segment that isn't empty ends with a cell.
//! - `laws`: what these rules keep.
#![tactic(auto)]

mod empty;
mod first_cell;
mod last_cell;
pub mod laws;
mod two_terms;

pub use empty::{absurd, drop, force};
pub use first_cell::unroll;
pub use last_cell::unroll_back;
pub use two_terms::split;
