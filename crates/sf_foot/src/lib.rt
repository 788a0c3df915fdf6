//! The footprints of assertions in heaps.
//!
//! - `vars`: the values of variables.
//! - `known`: the values of the existentials that are known, level by level.
//! - `walks`: the cells that a segment or a tree has, by following its fields.
//! - `taking`: conjunct by conjunct, which cells an assertion takes.
//! - `finding`: the footprint of an assertion. `found`: those of several, one after the other.
//! - `start`: what a run starts with, and what it ends with.
//! - `laws`: whether an assertion has a footprint is decided.
//!
//! `specs/` says what the value of a variable is (Variables), what a footprint is (Footprint), what it
//! is to find several (Found), with which variables and cells a procedure starts (Starting), and what
//! holds of these (Laws).
#![tactic(auto)]

mod finding;
mod found;
mod known;
pub mod laws;
mod start;
mod taking;
mod vars;
mod walks;

pub use finding::footprint;
pub use found::Found;
pub use start::{Finish, Start};
pub use vars::Vars;
