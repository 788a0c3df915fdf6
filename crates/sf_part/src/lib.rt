//! One task's part of a run: what its events do to it, and that they are steps of the whole that it
//! belongs to.
//!
//! - `part`: what a task has, owned; `stand` and `supply`: where it stands, and its units.
//! - `log` and `clock`: the events it made, stamped by its clock.
//! - `local` and `stepping`: the events that are its own affair, and what it answers for the others.
//! - `first`: the part with which a run begins, and the contents beside it.
//! - `ending`: what a run ends with.
//! - `content`, `guard`, `spots` and `entering`: the entry of a region with its resource's content.
//! - `share` and `leaving`: the exit, which gives up just that; `setup`: the return that sets all
//!   resources up, which gives up what each has. `fault`: why they may not.
//! - `joining` and `back`: the join of two children that have ended, which takes back what they hold.
//! - `children`, `halving` and `splitting`: the fork, which gives each child just its share.
//! - `laws`: the law of parts; `lent`: that a task keeps what it was lent; `going`: how tasks go on,
//!   with the tasks that they make.
//! - `time`: clocks, stamps and logs.
//! - `whole`: what a part tells of the whole; `setting_up`: of a part whose task sets the resources up.
//! - `examples`: one event of each kind, and what there isn't.
#![tactic(auto)]

mod back;
mod children;
mod clock;
mod content;
mod ending;
mod entering;
pub mod examples;
mod fault;
mod first;
pub mod going;
mod guard;
mod halving;
mod joining;
pub mod laws;
mod leaving;
pub mod lent;
mod local;
mod log;
mod part;
pub mod setting_up;
mod setup;
mod share;
mod splitting;
mod spots;
mod stand;
mod stepping;
mod supply;
pub mod time;
pub mod whole;

pub use content::Content;
pub use fault::PartFault;
pub use local::Local;
pub use log::{Log, Stamped};
pub use part::Part;
