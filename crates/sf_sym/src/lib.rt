//! Symbolic states and goals: what is known at a point of a procedure, and what is still to do
//! there. The specs/ say which stores and heaps a goal stands for (`Holds`), and what the tests of
//! a state are.
//!
//! - `term`: values as a state knows them.
//! - `atom`: the parts of a heap, as a state knows them.
//! - `fields`: the terms of a cell's fields.
//! - `parts`: the parts of a state's heap, and how one is found and goes.
//! - `outline`: what the tests of a state ask of an atom.
//! - `rows`: outlines of atoms by terms.
//! - `marks`: atoms that are still to be tested.
//! - `pairs`: the pairs of terms that differ.
//! - `index`: what a state keeps beside its parts.
//! - `made`: indices that are made of all parts anew.
//! - `store`: the parts and pairs of a state with their index, and the primitive changes of them.
//! - `state`: states, and the primitive changes of them.
//! - `known`: the tests of a state.
//! - `decided`: which terms operands have.
//! - `empty`: atoms that can only be empty, and the lowest atom of a kind.
//! - `found`: these tests, by what is kept beside the parts of a heap.
//! - `pending`: conjuncts that are still to be assumed or to be shown.
//! - `above`: a number above the symbols of conjuncts and atoms.
//! - `goal`: a state, and what is still to do from there.
//! - `todo`: the items of a goal.
//! - `copy`: copies of goals.
//! - `tag`: the steps of a proof.
//! - `stuck`: why a proof has no step at a goal.
//! - `replace`: replacing a symbol by a term.
//! - `vars`: the terms of the variables.
//! - `laws`: what the tests of a state tell of its stores and heaps.
//! - `examples`: examples of small goals.
#![tactic(auto)]

mod above;
mod atom;
mod atoms;
mod copy;
mod decided;
mod empty;
pub mod examples;
mod fields;
mod found;
mod goal;
mod index;
mod known;
pub mod laws;
mod made;
mod marks;
mod outline;
mod pairs;
mod parts;
mod pending;
mod replace;
mod rows;
mod state;
mod store;
mod stuck;
mod tag;
mod term;
mod todo;
mod vars;

pub use atom::{Atom, Kind, Numbered};
pub use decided::term_of;
pub use fields::{FieldTerms, field_term};
pub use goal::{Goal, Item};
pub use pending::Pending;
pub use state::State;
pub use stuck::Stuck;
pub use tag::Tag;
pub use term::Term;
pub use todo::{next_item, peek_item, with_add, with_take};
pub use vars::{fresh_for, term_at};
