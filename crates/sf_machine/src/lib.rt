//! The machine that runs: configurations of running programs, on one heap and one store. What an
//! event makes of the frames of one task, and of what all tasks share, is sf_frame's.
//!
//! - `task`: the tree of tasks, and what an event makes of one of them.
//! - `following`: what a task does next.
//! - `config`: configurations.
//! - `beginning`: the configuration in which a procedure starts.
//! - `accessed`, `noting`, `accessing`: what the next step of a task reads and writes.
//! - `listing`: the paths of all tasks. `missing`: where the next step of a task finds no cell.
//! - `event`: events, and what a step answers.
//! - `plan`: what an event would make of a configuration, or why it is none.
//! - `performing`: what an event makes of a configuration.
//! - `finishing`: whether a run has ended, and what it ends with.
//! - `seeing`: what a task does next, with its variables, and the cells.
//! - `stepping`: the step. `laws`: that each answer of it comes exactly where its cause is, and which
//!   configurations are reached.
//!
//! `specs/` says which configuration of the definitions a `Config` is (Configs), with which one a
//! procedure starts (Beginning), which ones a running program has (Reached), what is said of a
//! step's reads and writes (Accessing), which tasks there are (Paths), where a step finds no cell
//! (Absent), what a step answers (Answers), what is seen of a task (Seen), and what a run ends with
//! (Ending).
#![tactic(auto)]

mod accessed;
mod accessing;
mod beginning;
mod config;
mod event;
mod finishing;
mod following;
mod laws;
mod listing;
mod missing;
mod noting;
mod performing;
mod plan;
mod seeing;
mod stepping;
mod task;

pub use accessed::Accesses;
pub use accessing::accesses;
pub use beginning::{begin, begin_with};
pub use config::Config;
pub use event::{Event, Stepped};
pub use laws::{
    answers_are_exclusive, refused_events_do_not_step, starts_are_reached, steps_are_reached,
};
pub use listing::paths;
pub use missing::absent;
pub use stepping::step;
