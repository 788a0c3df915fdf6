//! Tests of the parts of tasks and of the table where they meet, by the public calls of their crates.
//! They are in a crate of their own so that the crates that they test needn't be proved once more
//! with them.
//!
//! - `programs`: the texts of programs and of states.
//! - `parts`: parts of one task, from their beginning to their end.
//! - `regions`: what a task enters with, leaves and gets again, and what it misses.
//! - `forks`: tasks that fork: which units, numbers and stamps they have, and what they meet with.
//! - `orders`: joins in every order.
//! - `meetings`: two threads at one table.
#![tactic(auto)]

#[cfg(test)]
mod forks;
#[cfg(test)]
mod meetings;
#[cfg(test)]
mod orders;
#[cfg(test)]
mod parts;
#[cfg(test)]
mod programs;
#[cfg(test)]
mod regions;
