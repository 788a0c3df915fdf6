//! What a safe part has. Each function is a law: calling it gives its fact to the caller's proof,
//! and does nothing.

ghost use Rattle.sf_own.specs.Checked.LawsOfNeeds.{
  AbsentNeverComes,
  AllContentsAreThere,
  CellsAreThere,
  ContentsAreThere,
  EndedEntriesMeetTheirs,
  EndedPartsAreReturned,
  SharesAreThere,
};

use sf_safe::init_leaves_shares;

/// Where the next event of a task is a look-up, a mutation or a dispose, its safe part has the
/// cell.
#[tactic(auto, using(crate::proofs::Having::cells_are_there))]
pub fn cells_are_there()
    ensures { CellsAreThere }
{}

/// So a task is never told that a cell is absent.
#[tactic(auto, using(crate::proofs::Having::absent_never_comes))]
pub fn absent_never_comes()
    ensures { AbsentNeverComes }
{}

/// At an exit a safe part has what is just the resource's.
#[tactic(auto, using(crate::proofs::Having::contents_are_there))]
pub fn contents_are_there()
    ensures { ContentsAreThere }
{}

/// Where the procedure that sets the resources up returns, it has what is just theirs.
#[tactic(auto, using(crate::proofs::Settling::all_contents_are_there))]
pub fn all_contents_are_there()
    ensures { AllContentsAreThere }
{
    init_leaves_shares();
}

/// At a fork it has just what is each child's.
#[tactic(auto, using(crate::proofs::Lends::shares_are_there))]
pub fn shares_are_there()
    ensures { SharesAreThere }
{}

/// A child that has ended has just what it owes.
#[tactic(auto, using(crate::proofs::Having::ended_parts_are_returned))]
pub fn ended_parts_are_returned()
    ensures { EndedPartsAreReturned }
{}

/// So has the entry, which isn't returned from.
#[tactic(auto, using(crate::proofs::Having::ended_entries_meet_theirs))]
pub fn ended_entries_meet_theirs()
    ensures { EndedEntriesMeetTheirs }
{}
