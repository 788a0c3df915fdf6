//! What a task has used of the units that it was given, in numbered lists of events: laws of the
//! machine alone.
//!
//! - `laws`: such lists, what they leave, and how they are put together.
//!
//! `specs/` says what a counted list is, and when what a task has used and has left is what it was
//! given (Counting).
#![tactic(auto)]

mod laws;

pub use laws::{
    counted_lists_are_numbered, counts_are_unique, counts_begin_anew, counts_compose,
    counts_divide, counts_stay_balanced, numbered_lists_are_counted, spending_lists_are_counted,
    spent_tasks_have_spent_steps, starts_are_divided, supplies_stay_divided,
};
