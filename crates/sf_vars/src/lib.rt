//! The conditions on variables: that the variables of resources are used where these are held, that
//! no held resource is entered, and that calls and parallel calls do not share what one changes.
//!
//! - `at_calls`: what one call breaks.
//! - `condition`: the call `conditions`, for a whole program.
//! - `fault`: what is said of the first breach.
//! - `held`: which resources are held at a place.
//! - `laws`: the law that each program has an answer.
//! - `naming`: the names in faults.
//! - `parallel`: what two parallel calls share.
//! - `unheld`: the first variable of a resource that is not held.
//! - `walk`: the walk over the commands of a procedure, in text order.
#![tactic(auto)]

mod at_calls;
mod condition;
mod fault;
mod held;
pub mod laws;
mod naming;
mod parallel;
mod unheld;
mod walk;

pub use condition::conditions;
pub use fault::VarFault;
