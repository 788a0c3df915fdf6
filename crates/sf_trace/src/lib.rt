//! What the events of a run do, which of them have an order that counts, and what a log says of them.
//!
//! - `laws`: each run has one trace; what each event of a part has to do with others; the log of one list
//!   of events after another.
//!
//! `specs/` says what a trace is and which pairs of its events depend on one another (Trace), and what
//! a log says of the events of a run (Logs).
#![tactic(auto)]

mod laws;

pub use laws::{
    equal_weights_permute, logs_compose, parallel_calls_fork, private_acts_meet_nobody,
    regions_touch_one, runs_have_traces, settling_frees_all, traces_are_runs, traces_are_unique,
    traces_compose,
};
