//! Tests of what states, orders, takes, searches and prints, by the public calls of their crates,
//! and worked examples of the rows of subtraction. They are in a crate of their own so that the
//! crates that they test needn't be proved once more with them, nor those above when an example
//! comes.
//!
//! - `examples`: conditions of rows of subtraction, and why they are there.
//! - `tests`: the tests, by subject.
#![tactic(auto)]

pub mod examples;
#[cfg(test)]
mod tests;
