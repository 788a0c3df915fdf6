//! Heaps: the cells of a running program, at their locations.
//!
//! - `cell`: the values of one cell's fields.
//! - `locations`: a set of locations, in order.
//! - `tree`: a balanced search tree of cells, which moves its nodes and copies none.
//! - `moves`: what moves cells between such trees, and what compares two.
//! - `heap`: cells at their locations, as a finite map.
//!
//! `specs/` says which heap of the definitions a `Heap` is (Cells), what the refusal of a cell says
//! (Faults), and what a heap ends as where one of its cells was lent (Lending).
#![tactic(auto)]

mod cell;
mod heap;
mod locations;
mod moves;
mod tree;

pub use cell::Cell;
pub use heap::{Heap, HeapFault};
pub use locations::Locations;
