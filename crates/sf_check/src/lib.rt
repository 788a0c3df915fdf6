//! The checker: whether tags prove a program.
//!
//! - `laws`: tags prove a program or are refused, in one way, and never both.
//! - `proof`: a program with tags that prove it.
//! - `proving`: a check of tags, one after the other; it makes a proof, or says which tag is
//!   refused and why.
//! - `refusal`: why tags are refused.
#![tactic(auto)]

pub mod laws;
mod proof;
mod proving;
mod refusal;

pub use proof::Proof;
pub use proving::check;
pub use refusal::{CheckFault, Refusal};
