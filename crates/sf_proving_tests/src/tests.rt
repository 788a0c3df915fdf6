//! Tests by the public calls of crates, by subject.
//!
//! - `states`: what a state knows of terms.
//! - `orders`: conjuncts in the order in which they can be taken.
//! - `footprints`: locations that satisfy an assertion.
//! - `subtraction`: the tags that hand over.
//! - `choices`: the tag that a search takes.
//! - `proofs`: the text of a proof, written and read.
//! - `reports`: what is printed of a goal that has no proof.
//! - `programs`: programs for tests that don't ask what is in them, and what else tests share.

mod choices;
mod footprints;
mod orders;
mod programs;
mod proofs;
mod reports;
mod states;
mod subtraction;
