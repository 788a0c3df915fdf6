//! A ranking of the resources: which may be entered while which is held, how far up in that order
//! each is, and the first cycle where there is one. Where tasks enter resources only upwards, no
//! tasks wait for one another in a circle.
//!
//! - `cycles`: the first cycle.
//! - `examples`: examples of cycles, ranks, nesting and circles.
//! - `laws`: laws of rankings, and that a ranking rules out circles of waiting tasks.
//! - `nested`: the pairs of resources of which the first may be held where the second is entered.
//! - `pairs`: lists of pairs of resources.
//! - `ranked`: the ranks of the resources, or the first cycle.
//! - `ranks`: a rank for each resource, and the check of given ranks.
//! - `sorted`: the resources by rank.
//! - `steps`: how many steps along pairs a resource is from another.
#![tactic(auto)]

mod cycles;
pub mod examples;
pub mod laws;
mod nested;
mod pairs;
mod ranked;
mod ranks;
mod sorted;
mod steps;

pub use cycles::ResList;
pub use nested::nesting;
pub use pairs::Pairs;
pub use ranked::{RankFault, rank, ranking};
pub use ranks::{Ranks, check_ranks};
pub use sorted::by_rank;
