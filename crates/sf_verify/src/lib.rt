//! A whole program judged, and its proof accepted by the checker.
//!
//! - `verifying`: the call `verify`.
//! - `workers`: the workers, which search procedures side by side.
//! - `board`: where they put what they find.
//! - `crossing`: that what workers share may be shared.
//! - `subject`: the program whose procedures they search, as types name it.
//!
//! `sf_search` says what the verdict on a program is, `sf_check` what a proof is. Here the two are
//! tied together: what the strategy finds is handed out as a proof that the checker made.
#![tactic(auto)]

mod board;
mod crossing;
mod subject;
mod verifying;
mod workers;

pub use verifying::verify;
