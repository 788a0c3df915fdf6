//! A given interleaving on one heap: the text of a schedule of events, and what comes of them from
//! a start. The first configuration is named in which a task is about to touch an absent cell, or
//! two tasks race.
//!
//! - `limits`: how long a schedule may be.
//! - `schedule`: a schedule, what a line of one says, and why a text is none.
//! - `naming`: the task, the number and the location that a word writes.
//! - `saying`: what a line says.
//! - `reading`: the schedule that a text gives.
//! - `things`: the order of things, and the first one that two steps meet on.
//! - `look`: what is known of the next step of each task.
//! - `keeping`: whether nothing is bad after an event, by what was known before it.
//! - `found`: what is found, and why nothing is.
//! - `badness`: the first task at an absent cell, and the first race.
//! - `replaying`: what comes of a schedule.
//! - `laws`: that it is one thing.
//!
//! `specs/` says which path and which thing comes first (Order), what is named of a configuration
//! that is bad (FirstBad), what comes of a list of events (Replays), and what a text gives
//! (ScheduleText).
#![tactic(auto)]

mod badness;
mod found;
mod keeping;
pub mod laws;
pub mod limits;
mod look;
mod naming;
mod reading;
mod replaying;
mod saying;
mod schedule;
mod things;

pub use found::{Found, ReplayFault};
pub use reading::read;
pub use replaying::replay;
pub use schedule::{Said, Schedule, ScheduleFault, Scheduled};
