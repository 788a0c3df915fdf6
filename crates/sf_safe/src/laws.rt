//! The machine's half of soundness, for frames as they are in the machine and as they see
//! themselves. Each function is a law: calling it gives its fact to the caller's proof, and does
//! nothing.

ghost use Rattle.sf_safe.specs.Checked.Law.{SafeProgramsAreSound};
ghost use Rattle.sf_safe.specs.Checked.LawsOfShares.{EventsKeepShares, InitLeavesShares, ReachedIsOwned};
ghost use Rattle.sf_safe.specs.Checked.LocalSafe.{LocallySafeBodiesAreSafe, LocallySafeProgramsAreSound};

/// A program that is formed, meets the conditions on variables, and whose bodies are safe for every
/// number of events from whatever satisfies their preconditions is sound: whatever procedure it
/// starts with, from whatever store and heap that procedure's precondition and the invariants
/// allow, and whatever events come in whatever order, no event touches a cell that isn't there, no
/// two tasks race, free resources and finished calls have disjoint footprints of their invariants
/// and postconditions, and where the procedure has ended nothing is leaked.
#[tactic(auto, using(crate::proofs::Sound::safe_programs_are_sound))]
pub fn safe_programs_are_sound()
    ensures { SafeProgramsAreSound }
{}

/// The same of a program whose bodies are safe as they see themselves: by the values of their
/// variables, without the slots in which the machine keeps them.
#[tactic(auto, using(crate::proofs::Locally::locally_safe_programs_are_sound))]
pub fn locally_safe_programs_are_sound()
    ensures { LocallySafeProgramsAreSound }
{}

/// Bodies that are safe as they see themselves are safe.
#[tactic(auto, using(crate::proofs::Locally::locally_safe_bodies_are_safe))]
pub fn locally_safe_bodies_are_safe()
    ensures { LocallySafeBodiesAreSafe }
{}

/// What a program with safe bodies reaches from a start is owned: by a tree of stacks of frames
/// that are safe for every number of events, each task with its share, and by free resources.
#[tactic(auto, using(crate::proofs::Sound::reached_is_owned))]
pub fn reached_is_owned()
    ensures { ReachedIsOwned }
{}

/// An event of one task leaves the other tasks' share as it is.
#[tactic(auto, using(crate::proofs::Keeps::events_keep_shares))]
pub fn events_keep_shares()
    ensures { EventsKeepShares }
{}

/// What the procedure that sets the resources up has at its end is the share of each of them, but
/// for the slots of its own variables.
#[tactic(auto, using(crate::proofs::Freed::init_leaves_shares))]
pub fn init_leaves_shares()
    ensures { InitLeavesShares }
{}
