//! Tests of names and lists, and of what reads a file and the words of a command, by the public
//! calls of their crates. They are in a crate of their own so that the crates that they test
//! needn't be proved once more with them.
//!
//! - `lists`: names and lists that grow.
//! - `tokens`: bytes, or the first byte that begins no token.
//! - `files`: tokens, or the first one that fits nothing; and the grammar as a table of rules.
//! - `programs`: names and numbers.
//! - `conditions`: conditions on variables.
//! - `words`: the words of a command.
#![tactic(auto)]

#[cfg(test)]
mod conditions;
#[cfg(test)]
mod files;
#[cfg(test)]
mod lists;
#[cfg(test)]
mod programs;
#[cfg(test)]
mod tokens;
#[cfg(test)]
mod words;
