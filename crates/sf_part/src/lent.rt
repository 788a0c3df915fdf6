//! What a task was lent at the fork that made it, it has until it is joined, so its parent can go
//! on then. Each function is a law, and does nothing.

ghost use Rattle.sf_part.specs.Checked.LawsOfLending.{
  ContentsAreTheirVariables,
  EntriesKeepLent,
  ExitsKeepLent,
  ForksLend,
  JoinsBringBack,
  ParentsGoOn,
  PrivateEventsKeepLent,
};

/// At a fork each child is lent what it has then of its parent's variables.
#[tactic(auto, using(crate::proofs::Borrowed::forks_lend))]
pub fn forks_lend()
    ensures { ForksLend }
{}

/// A private event gives up none of what was lent.
#[tactic(auto, using(crate::proofs::Borrowed::private_events_keep_lent))]
pub fn private_events_keep_lent()
    ensures { PrivateEventsKeepLent }
{}

/// Nor does the entry of a region.
#[tactic(auto, using(crate::proofs::Borrowed::entries_keep_lent))]
pub fn entries_keep_lent()
    ensures { EntriesKeepLent }
{}

/// The content of a resource that is taken in has just its variables.
#[tactic(auto, using(crate::proofs::Borrowed::contents_are_their_variables))]
pub fn contents_are_their_variables()
    ensures { ContentsAreTheirVariables }
{}

/// Nor does the exit from one, which gives up just the content of its resource.
#[tactic(auto, using(crate::proofs::Borrowed::exits_keep_lent))]
pub fn exits_keep_lent()
    ensures { ExitsKeepLent }
{}

/// A fork lends them on, and at its join they are back.
#[tactic(auto, using(crate::proofs::Borrowed::joins_bring_back))]
pub fn joins_bring_back()
    ensures { JoinsBringBack }
{}

/// With what it has and its children have, a parent can go on after its fork.
#[tactic(auto, using(crate::proofs::Borrowed::parents_go_on))]
pub fn parents_go_on()
    ensures { ParentsGoOn }
{}
