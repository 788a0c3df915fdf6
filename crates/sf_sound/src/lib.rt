//! What a proof promises: a program whose tags prove it is sound, and its bodies are safe.
//!
//! - `laws`: the theorem, and that the bodies are safe.
//! - `examples`: programs that are proved, and so are sound; some that no tags prove; and one that
//!   tags prove and that isn't sound, since it breaks a condition on variables.
#![tactic(auto)]

mod examples;
mod laws;

pub use examples::{
    buffer_is_sound, pair_is_sound, set_up_is_sound, shared_writers_race,
    unmet_invariants_have_no_proof, writers_have_no_proof,
};
pub use laws::{proofs_are_sound, proved_bodies_are_locally_safe, proved_bodies_are_safe};
