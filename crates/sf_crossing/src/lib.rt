//! What of parts and programs may go to other threads, and what references to it may.
//!
//! - `laws`: functions that do nothing; calling one gives its fact to the caller's proof.
#![tactic(auto)]

mod laws;

pub use laws::{arranged_programs_are_shared, parts_are_sent};
