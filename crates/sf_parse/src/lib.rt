//! From the tokens of a file to its surface tree.
//!
//! - `annotation`: assertions in square brackets.
//! - `assertion`: assertions, nested no deeper than their levels allow.
//! - `call`: calls and their arguments.
//! - `command`: commands, of which each may have others in it.
//! - `condition`: tests of two values, over expressions and over operands.
//! - `conjunct`: conjuncts with no assertion in them.
//! - `fault`: why tokens are no file.
//! - `fields`: the fields of a points-to.
//! - `file`: the call `parse`.
//! - `front`: the next token of those that are left.
//! - `item`: the items of a file: fields, resources, procedures.
//! - `laws`: laws of reading a file.
//! - `leaf`: what is predicted and is one token.
//! - `memory`: what takes memory: lists that grow by one, values in boxes.
//! - `names`: names with commas between them.
//! - `plain`: commands with no command in them.
//! - `stop`: why reading stops, by how many tokens are left.
#![tactic(auto)]

mod annotation;
mod assertion;
mod call;
mod command;
mod condition;
mod conjunct;
mod fault;
mod fields;
mod file;
mod front;
mod item;
pub mod laws;
mod leaf;
mod memory;
mod names;
mod plain;
mod stop;

pub use fault::ParseFault;
pub use file::parse;
