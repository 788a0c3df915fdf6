//! Orders of assertions in which each conjunct is ready when it comes, and a program whose
//! annotations all have one.
//!
//! - `annotations`: all annotations of a program.
//! - `arranged`: a program with its calls' sets and its annotations in order.
//! - `arranging`: the call `arrange`, which makes it.
//! - `fault`: why there is no order.
//! - `laws`: laws of orders.
//! - `ordering`: the call `order`, for one assertion, branches first.
//! - `outer`: the existentials that a conjunct takes from outside.
//! - `sequence`: the order of the conjuncts of one level.
//! - `waits`: what a conjunct waits for.
//! - `work`: what is kept while conjuncts are taken.
#![tactic(auto)]

mod annotations;
mod arranged;
mod arranging;
mod fault;
pub mod laws;
mod ordering;
mod outer;
mod sequence;
mod waits;
mod work;

pub use arranged::Arranged;
pub use arranging::arrange;
pub use fault::OrderFault;
pub use ordering::order;
