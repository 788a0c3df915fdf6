//! The text of a failed obligation: the goal at which a search for a proof had no rule.
//!
//! - `names`: how variables and fields are named.
//! - `pieces`: how places, variables, pairs and parts of the heap are written.
//! - `laws`: what holds of these lists.
//! - `listed`: in which order pairs and parts of the heap are listed.
//! - `wanted`: what the first thing to do asks for.
//! - `failure`: the whole text.
#![tactic(auto)]

mod failure;
pub mod laws;
mod listed;
mod names;
mod pieces;
mod wanted;

pub use failure::{failed, put_goal_line, too_large};
pub use names::put_variable;
pub use wanted::{address, double_misfit, misfit_at, term};
