//! The beginning of a run whose resources are still to be set up: the procedure `init` runs before
//! anything else, without a table of resources, since its task holds all of them.
//!
//! - `setting_up`: the whole of it (`set_up`); `stop`: why it stops before its end.
//! - `alone`: a task from where it stands to its end, or to the return of `init`; `forks`: its
//!   parallel calls, whose children run on threads of their own.
//! - `laws`: how a task goes on alone, and what that comes to in each whole that it belongs to.
//! - `run_laws`: what they need to know of parts.
//!
//! `specs/` says by which events a task goes on alone (Going), how one comes to have no unit left
//! (Draining), where such a run begins (Fresh), what is so once the resources are set up (SetUp), and
//! of which events a log tells then (Told).
#![tactic(auto)]

mod alone;
mod forks;
pub mod laws;
mod run_laws;
mod setting_up;
mod stop;

pub use setting_up::set_up;
pub use stop::SetUpStop;
