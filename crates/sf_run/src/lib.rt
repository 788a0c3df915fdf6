//! The run of an entry of a proved program: its tasks, each with its part, at a table of resources.
//!
//! - `running`: the run (`run`, `run_kept`); `opening`: where its table begins; `finishing`: what it
//!   ends with. `stop`: what a run may use.
//! - `logging`: the log of a run, from its start on.
//! - `laws`: what a run of one task comes to is one thing, comes of each proved program, and comes by
//!   a numbered run. `sequential`: whether a parallel call can be reached.
//!
//! `specs/` says what a run answers (Running), and from which procedures no parallel call can be
//! reached (Sequential).
#![tactic(auto)]

mod finishing;
mod laws;
mod logging;
mod opening;
mod running;
mod sequential;
mod stop;

pub use laws::{
    bases_are_free, beginnings_are_starts, beginnings_are_unique, ends_are_numbered,
    ends_are_unique, init_sequential_is_decided, lone_tasks_find_regions_free, lone_tasks_progress,
    numbered_ends_come_alone, numbered_runs_reach, outcomes_are_unique, outcomes_exist,
    sequential_is_decided, sequential_runs_are_lone, spent_runs_have_used_all,
    spent_steps_come_alone, starts_have_one_outcome, units_stay_free, waiting_runs_try_in_vain,
    waits_come_alone,
};
pub use running::{run, run_kept};
pub use sequential::{is_init_sequential, is_sequential};
pub use sf_threads::Stop;
pub use stop::Budget;
