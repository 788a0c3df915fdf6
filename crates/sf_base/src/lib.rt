//! The plain types that every other crate speaks of, and the library of lemmas under all proofs.
//!
//! - `ids`: numbers in place of names: resources, procedures, fields, variables, slots.
//! - `value`: what a variable or a field holds.
//! - `place`: a line and a column of a text.
//! - `name`: a name of a file, by its bytes.
//! - `path`: where a task is in the tree of tasks.
//! - `sequence`, `counted`: lists that contracts see as lists, the second numbered in 32 bits.
//! - `limits`: how much of each thing a file, a proof, a state and a command line may have.
//!
//! `specs/` defines heaps, stores and the separating conjunction (HeapStore), the test of two
//! variables (Variables), what comes first in a text or a list (First), and what clauses say of a
//! call's result (Results). `proofs/` has the algebra of heaps that split (MapSplits, HeapSplits,
//! HeapSums, StoreSplits) and, by subject, the lemmas that speak of std's types alone.
#![tactic(auto)]

mod counted;
mod ids;
pub mod limits;
mod name;
mod path;
mod place;
mod sequence;
mod value;

pub use counted::Counted;
pub use ids::{FieldId, ProcId, ResId, Slot, Thing, Var};
pub use name::Name;
pub use path::{TaskPath, Turn};
pub use place::Place;
pub use sequence::Sequence;
pub use value::Value;
