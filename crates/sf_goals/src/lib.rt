//! The goals of a proof, drawn: what is known and wanted at each, the tags by which a search comes
//! there, and what often helps where it is stuck.
//!
//! - `naming`: terms with the names of the variables that have them.
//! - `drawing`: a heap drawn as text.
//! - `around`: the loop around a place, and what a procedure's annotations leave out.
//! - `advice`: what often helps at a goal where a search is stuck.
//! - `rule`: the line of words of each rule.
//! - `walking`: the tags that a search takes of a procedure, as far as it comes, and the goals at them.
//! - `rows`: the tags that have a row at a goal.
//! - `telling`: a goal in the form of a failed obligation, and a failure in words.
//!
//! Goals are those of sf_rules' table, which makes them: nothing of it stands here again. Of the
//! texts nothing is claimed, but that they are made without a fault.
#![tactic(auto)]

mod advice;
mod around;
mod drawing;
mod naming;
mod rows;
mod rule;
mod telling;
mod walking;

pub use advice::{advise, put_advice};
pub use drawing::{put_heap, put_taken};
pub use naming::{Namer, put_named, put_names};
pub use rows::rows_at;
pub use rule::rule_words;
pub use telling::{front_place, goal_text, kind_word, put_failure, put_state, wanted_words};
pub use walking::{End, Walk, first, follow, search_of};
