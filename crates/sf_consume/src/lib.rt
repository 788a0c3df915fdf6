//! Subtraction: what is wanted is shown of a state, and its parts of the heap are handed over. The
//! specs/ have the rows: what each leaves of a state and of what is wanted, and where there is
//! none.
//!
//! - `fault`: why a tag doesn't apply.
//! - `fit`: how far the fields of a wanted cell fit a cell.
//! - `meeting`: the same, without changing anything.
//! - `differing`: the first field of a wanted cell that doesn't fit.
//! - `pure`: wanted equalities and inequalities, and what is wanted of no heap.
//! - `cells`: wanted parts that are cells or begin with one.
//! - `doubles`: wanted doubly linked segments that begin with a cell or with such a segment.
//! - `parts`: wanted segments and trees that are an atom or begin with one.
//! - `wanted`: what is wanted first.
//! - `ready`: whether a step has a row, without taking it.
//! - `laws`: what the rows keep.
//! - `rows`: the rows of subtraction by their tags.
#![tactic(auto)]

mod cells;
mod differing;
mod doubles;
mod fault;
mod fit;
pub mod laws;
mod meeting;
mod parts;
mod pure;
mod ready;
mod rows;
mod wanted;

pub use differing::{Misfit, first_misfit};
pub use fault::ConsumeFault;
pub use meeting::Met;
pub use parts::is_same_shape;
pub use ready::{binds, fits_cell, is_empty, is_same};
pub use rows::subtract;
pub use wanted::{both, four, wanted_shape};
