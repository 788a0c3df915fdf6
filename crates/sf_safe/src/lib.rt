//! The machine's half of soundness: what a frame owns, when a frame is safe for a number of events,
//! and that safe bodies make sound programs, whatever rules showed them to be safe.
//!
//! - `laws`: the theorem, and laws of shares for whoever runs tasks apart from one another.
//! - `examples`: small frames that are safe, or aren't.
#![tactic(auto)]

mod examples;
mod laws;

pub use examples::{
    filling_twice_is_sound, setting_up_is_sound, unmet_invariants_are_not_sound,
    writing_is_not_safe,
};
pub use laws::{
    events_keep_shares, init_leaves_shares, locally_safe_bodies_are_safe,
    locally_safe_programs_are_sound, reached_is_owned, safe_programs_are_sound,
};
