//! The program, numbered: what every later crate reads, checks, proves and runs. Its specs/ have
//! the definitions that the whole project rests on: the meaning of assertions, the machine and its
//! steps, and what a good configuration is.
//!
//! - `assertion`: assertions as trees of conjuncts.
//! - `command`: expressions, calls and commands.
//! - `fields`: fields by name, and the links, which segments and trees follow.
//! - `heads`: what occurs in a command itself.
//! - `program`: procedures, resources, and the program with all that its type keeps.
//! - `ordered`: assertions whose conjuncts are in order.
//! - `walk`: the walk over all commands.
//! - `laws`: laws of assertions and of the machine.
//! - `examples`: examples of assertions and of runs.
#![tactic(auto)]

mod assertion;
mod command;
pub mod examples;
mod fields;
mod heads;
pub mod laws;
mod ordered;
mod program;
mod walk;

pub use assertion::{Assertion, Conjunct, Level, Operand, Scope, Test};
pub use command::{Call, Command, Expr, Occurrence};
pub use fields::Links;
pub use heads::{add_call_occurrences, add_head_occurrences, add_level_occurrences};
pub use ordered::Ordered;
pub use program::{Proc, Program, Resource};
pub use walk::{Site, sites};
