//! The tasks of a run: each makes its own steps, enters and leaves regions at the table of resources,
//! and runs the two children of a parallel call on threads of their own.
//!
//! - `stop`: why a run stops before its end.
//! - `tasks`: a task from where it stands to its end; `tries`: its tries at a region; `forks`: its
//!   parallel calls.
//! - `run_laws`: what they need to know of parts; `crossing`: what may go to other threads.
#![tactic(auto)]

mod crossing;
mod forks;
mod run_laws;
mod stop;
mod tasks;
mod tries;

pub use crossing::{tables_are_shared, tasks_are_sent};
pub use stop::Stop;
pub use tasks::{Crew, run_task};
