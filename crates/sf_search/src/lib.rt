//! The search: the tags that the strategy takes, or the first procedure at which it is stuck.
//!
//! - `choices`: the strategy: the tag that a search takes at a goal.
//! - `verdicts`: the search for a proof, procedure by procedure.
//! - `laws`: a program has exactly one verdict, and one that is a proof proves it.
#![tactic(auto)]

mod choices;
mod laws;
mod verdicts;

pub use choices::{Choice, choose};
pub use laws::{
    arranged_is_set_up, goals_have_shape, programs_have_verdicts, search_exists, search_is_unique,
    taken_tags_have_rows, taken_tags_prove, verdicts_are_unique,
};
pub use verdicts::{SearchFault, VerifyFault, append, failure, search, verify};
