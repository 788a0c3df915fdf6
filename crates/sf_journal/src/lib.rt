//! The interleaving that a run on threads really made, from its log: the events in one list, which
//! leads where the run has led.
//!
//! - `order`: which of two entries of a log comes first.
//! - `merging`: the events of a log in one list.
//! - `laws`: that such a list leads where the run has led; and which lists of the same events do.
//!
//! `specs/` says in which order a log is merged (Merge), which events of a list depend on one another
//! (Depends), and what a list is that keeps these in order (Reorders).
#![tactic(auto)]

pub mod laws;
mod merging;
mod order;

pub use merging::merge;
