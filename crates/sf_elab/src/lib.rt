//! From the surface tree to the numbered program: what each name stands for, or the first fault of
//! its names and counts.
//!
//! It is one crate in two layers, the tables of names and, from `env` on, the walk over the tree:
//! each function of the walk looks names up, so a crate for the tables alone would hand all of them
//! over.
//!
//! - `table`: names and what they stand for.
//! - `texts`: what words say.
//! - `fault`: what can be wrong with names.
//! - `first_fault`: the first of the faults, and how it is answered.
//! - `declared`: what the names of a file stand for.
//! - `declarations`: what the items of a file declare.
//! - `env`: what names stand for at some place of a file, and the expressions there.
//! - `flat`: assertions made flat.
//! - `levels`: which existentials a level of an assertion makes.
//! - `assertions`: assertions, numbered.
//! - `commands`: commands, numbered.
//! - `procedures`: procedures and resources, numbered.
//! - `shape`: the procedure named `init`.
//! - `elaboration`: the call `elaborate`.
//! - `laws`: laws of elaboration.
#![tactic(auto)]

mod assertions;
mod commands;
mod declarations;
mod declared;
mod elaboration;
mod env;
mod fault;
mod first_fault;
mod flat;
pub mod laws;
mod levels;
mod procedures;
mod shape;
mod table;
mod texts;

pub use elaboration::elaborate;
pub use fault::NameFault;
