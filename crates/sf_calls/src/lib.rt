//! What a call of a procedure may enter, hold and use: the least sets on which the conditions on
//! variables rest.
//!
//! - `assigned`: the variables that commands may change.
//! - `breach`: which condition on variables is broken, and where.
//! - `callers`: for each procedure, who calls it.
//! - `calls`: the sets of all procedures.
//! - `keys`: the resources of a program and their variables, in order.
//! - `laws`: laws of the sets and of the conditions.
//! - `leading`: the procedures from which some procedure is reached by calls.
//! - `occurs`: whether a variable occurs in the arguments of a call.
//! - `outside`: the calls outside the regions of a resource.
//! - `reaching`: the call `reach`, which finds the sets.
//! - `regions`: the regions of commands, and those with a call inside.
//! - `set`: sets as lists in order.
//! - `shared`: the variables of resources that occur outside the regions of their resources.
//! - `summary`: what occurs in each procedure's text.
//! - `tables`: for each resource and each of its variables, the procedures that have it.
#![tactic(auto)]

mod assigned;
mod breach;
mod callers;
mod calls;
mod keys;
pub mod laws;
mod leading;
mod occurs;
mod outside;
mod reaching;
mod regions;
mod set;
mod shared;
mod summary;
mod tables;

pub use breach::Breach;
pub use calls::Calls;
pub use occurs::{in_references, in_values};
pub use reaching::reach;
pub use set::{ResSet, Set, VarSet};
