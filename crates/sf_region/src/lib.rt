//! A table of resources whose contents cross between the tasks of a run.
//!
//! - `regions` and `receipt`: the table, the seats at it, and what they give account of; `views`,
//!   `steps` and `entry`: what a seat knows, the steps on words, and what a try comes to.
//! - `task`: one task, its part and its seat together, its own steps, and how a table begins and is
//!   closed with it; `starting`: the task with which a run begins.
//! - `meeting`: the regions that a task enters and leaves; `forking`: its parallel calls;
//!   `spending`: what is told of a task that would go on and has no unit left.
//! - `laws`: what the events of a task at a table keep, and what a spent task comes to.
#![tactic(auto)]

mod entry;
mod forking;
pub mod laws;
mod meeting;
mod part_laws;
mod receipt;
mod regions;
mod spending;
mod starting;
mod steps;
mod task;
mod views;

pub use entry::Entry;
pub use receipt::{Closed, Misses};
pub use regions::{RegionSeat, Regions};
pub use task::Task;
