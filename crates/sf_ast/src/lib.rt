//! The surface tree: a file as it is written, each node where it is.
//!
//! Names are not copied: the tree has the ends of their texts. It keeps whatever the spelling
//! needs, so that the kinds of a file's tokens are a function of its tree.
//!
//! - `assertion`: assertions and their conjuncts.
//! - `command`: commands and calls.
//! - `file`: a whole file: fields, resources, procedures.
//! - `word`: words, expressions, operands and tests.
#![tactic(auto)]

mod assertion;
mod command;
mod file;
mod word;

pub use assertion::{SurfaceAssertion, SurfaceConjunct, SurfaceField, SurfaceNote};
pub use command::{SurfaceArguments, SurfaceCall, SurfaceCommand};
pub use file::{File, Item, SurfaceParameters, SurfaceProcedure, SurfaceResource};
pub use word::{SurfaceExpr, SurfaceNames, SurfaceOperand, SurfaceTest, Word};
