//! That what a task has is enough for it: the first part of a run of a proved program is safe,
//! every event keeps its part so, and a safe part has what its next event needs.
//!
//! - `laws`: which events keep a part safe.
//! - `needs`: what a safe part has.
//! - `examples`: small parts that are safe, or aren't.
#![tactic(auto)]

mod examples;
mod laws;
mod needs;

pub use examples::{
    absent_cells_are_not_safe, ended_children_are_safe, held_resources_are_not_safe,
    left_cells_are_not_safe,
};
pub use laws::{
    entries_keep_safe, exits_keep_safe, first_parts_are_safe, forks_keep_safe, going_keeps_safe,
    joins_keep_safe, private_events_keep_safe, settling_keeps_safe,
};
pub use needs::{
    absent_never_comes, all_contents_are_there, cells_are_there, contents_are_there,
    ended_entries_meet_theirs, ended_parts_are_returned, shares_are_there,
};
