//! The strategy: the tag that a search takes at a goal, by what is known and then by what is in
//! front.
//!
//! - `choice`: what the strategy does at a goal.
//! - `atoms`: what is done where a cell is wanted, and where a goal would be stuck.
//! - `branches`: choices, by their test.
//! - `commands`: commands.
//! - `given`: what is to be assumed.
//! - `seeking`: the lowest part that begins at a term.
//! - `wanted`: what is to be shown.
//! - `whole`: all of it.

mod atoms;
mod branches;
mod choice;
mod commands;
mod given;
mod seeking;
mod wanted;
mod whole;

pub use choice::Choice;
pub use whole::choose;
