//! Production: what is to be assumed becomes what is known. The specs/ have the row: what assuming
//! the first conjunct leaves of a goal.
//!
//! - `operands`: operands that are met, and what existentials get by that.
//! - `rows`: the row of what is assumed.
//! - `laws`: what it keeps.
#![tactic(auto)]

pub mod laws;
mod operands;
mod rows;

pub use operands::OPERANDS;
pub use rows::produce;
