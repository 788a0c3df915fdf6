//! Tasks at a table, turn by turn, and what comes of them: for tests of parts and of the table.
//!
//! - `parts`: the part of one task alone, and its own steps.
//! - `turns`: the next turns of a task at a table.
//! - `forks`: a task that forks, the turns of its two children, and their join.
//! - `seated`: tasks that others keep.
//! - `trees`: forks of children, some levels down, and their joins in any order.
//! - `orders`: runs whose joins are made in a given order.
//! - `ends`: what a run ends with.
#![tactic(auto)]

pub mod ends;
pub mod forks;
pub mod orders;
pub mod parts;
pub mod seated;
mod trees;
pub mod turns;
