//! The part of a task stays safe. Each function is a law: calling it gives its fact to the caller's
//! proof, and does nothing.

ghost use Rattle.sf_own.specs.Checked.Laws.{
  EntriesKeepSafe,
  ExitsKeepSafe,
  FirstPartsAreSafe,
  ForksKeepSafe,
  GoingKeepsSafe,
  JoinsKeepSafe,
  PrivateEventsKeepSafe,
  SettlingKeepsSafe,
};

use sf_part::laws::{given_contents_are_one, lent_shares_are_one};
use sf_safe::{events_keep_shares, init_leaves_shares, reached_is_owned};

/// The part with which a procedure of an accepted program starts is safe, where the contents beside
/// it are just the resources'.
#[tactic(auto, using(crate::proofs::Firsts::first_parts_are_safe))]
pub fn first_parts_are_safe()
    ensures { FirstPartsAreSafe }
{
    given_contents_are_one();
    reached_is_owned();
}

/// A private event keeps a part safe.
#[tactic(auto, using(crate::proofs::Private::private_events_keep_safe))]
pub fn private_events_keep_safe()
    ensures { PrivateEventsKeepSafe }
{
    events_keep_shares();
}

/// So does the entry of a region, with a content that is just its resource's.
#[tactic(auto, using(crate::proofs::Entries::entries_keep_safe))]
pub fn entries_keep_safe()
    ensures { EntriesKeepSafe }
{}

/// So does the exit from one that leaves just that behind.
#[tactic(auto, using(crate::proofs::Exits::exits_keep_safe))]
pub fn exits_keep_safe()
    ensures { ExitsKeepSafe }
{
    given_contents_are_one();
}

/// So does the return of the procedure that sets the resources up, which leaves the content of
/// each.
#[tactic(auto, using(crate::proofs::Settling::settling_keeps_safe))]
pub fn settling_keeps_safe()
    ensures { SettlingKeepsSafe }
{
    given_contents_are_one();
    init_leaves_shares();
}

/// A fork that lends each child just its share leaves a parent that waits and two children, all
/// safe.
#[tactic(auto, using(crate::proofs::Forks::forks_keep_safe))]
pub fn forks_keep_safe()
    ensures { ForksKeepSafe }
{
    lent_shares_are_one();
}

/// The join of two children that have ended, each with what it owes, leaves a safe parent.
#[tactic(auto, using(crate::proofs::Joins::joins_keep_safe))]
pub fn joins_keep_safe()
    ensures { JoinsKeepSafe }
{}

/// So a task that goes on keeps its part safe, whatever it does.
#[tactic(auto, using(crate::proofs::Going::going_keeps_safe))]
pub fn going_keeps_safe()
    ensures { GoingKeepsSafe }
{
    private_events_keep_safe();
    entries_keep_safe();
    exits_keep_safe();
    forks_keep_safe();
    joins_keep_safe();
}
