//! The table of rules: the first goal of a procedure, and the goals that a tag leaves of a goal.
//!
//! - `terms`: expressions and assertions with the terms that the variables have now.
//! - `words`: where the terms of an annotation's expressions are from, and annotations first of all
//!   that there is to do.
//! - `few`: how many new symbols at once are too many for a row.
//! - `front`: what is in front of what there is to do.
//! - `children`: what a tag leaves of a goal: the whole table.
//! - `left`: what a row leaves of a goal.
//! - `knowledge`: the rows of what a state tells alone, whatever is still to do.
//! - `commands`: the rows of commands that touch a variable or a cell.
//! - `decided`: which tests a state decides.
//! - `branches`: the rows of choices.
//! - `calls`: the rows of calls, and of what was taken.
//! - `loops`: the rows of loops and of ends.
//! - `regions`: the rows of critical regions.
//! - `subtracting`: the rows of what is assumed, and of what is to be shown.
//! - `start`: the first goal of a procedure.
//! - `laws`: what is in front of each row of the table; what the rows of commands and of conjuncts
//!   keep; that a program has one setting.
//! - `examples`: examples of rows of the whole table.
#![tactic(auto)]

mod branches;
mod calls;
mod children;
mod commands;
mod decided;
pub mod examples;
pub mod few;
mod front;
mod knowledge;
pub mod laws;
mod left;
mod loops;
mod regions;
mod start;
mod subtracting;
mod terms;
mod words;

pub use children::{Children, RuleFault, apply_row, push_children};
pub use decided::{command_test, is_decided, test_of_terms};
pub use start::first_goal;
