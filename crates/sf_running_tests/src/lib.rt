//! Tests of the outside, of heaps, of states' texts, of the machine that runs and of runs, by the
//! public calls of their crates, and laws that join these crates. They are in a crate
//! of their own so that the crates that they test needn't be proved once more with them.
//!
//! - `laws`: that what is written of a proof or of a run of a file's program is read back.
//! - `shelves`: shelves that hand out files and sinks that take bytes, and a caller of any of them.
//! - `gates`: gates that hold callers, or nobody.
//! - `heaps`: cells that are put, taken, joined and parted off.
//! - `texts`: what the lines of a state's text give, or why not, and the text of a state.
//! - `states`: starts, why there is none, and what is written.
//! - `running`: programs, event by event.
//! - `runs`: runs, of one task and of several.
#![tactic(auto)]

#[cfg(test)]
mod gates;
#[cfg(test)]
mod heaps;
pub mod laws;
#[cfg(test)]
mod running;
#[cfg(test)]
mod runs;
#[cfg(test)]
mod shelves;
#[cfg(test)]
mod states;
#[cfg(test)]
mod texts;
