//! A witness of a failed obligation: a concrete state that satisfies what the goal knows at which a
//! search is stuck. Symbol `sN` is the location N + 1; a list that may be anything has one cell, and
//! so has a tree.
//!
//! - `values`: the values of terms.
//! - `normal`: whether a state has a witness.
//! - `cells`: the heap of a state's atoms.
//! - `meeting`: whether a cell has wanted fields.
//! - `shapes`: whether a heap has a wanted segment or tree.
//! - `wanted`: whether what the goal is stuck at is so in its witness.
//! - `finding`: the witness of a goal.
//! - `text`: its text.
//! - `laws`: a witness satisfies what its goal knows.
//!
//! `specs/` says which value a symbol has (Located), which states have a witness (Normal), what it is
//! (WitnessState), what is asked for and whether it is so there (Wanted), what it is to satisfy a
//! state (Satisfied), and how a witness is written (WitnessText).
#![tactic(auto)]

mod cells;
mod finding;
pub mod laws;
mod meeting;
mod normal;
mod shapes;
mod text;
mod values;
mod wanted;

pub use finding::{Witness, witness_of};
pub use text::witness_text;
