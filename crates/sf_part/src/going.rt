//! How tasks go on. Each function is a law, and does nothing.

ghost use Rattle.sf_part.specs.Checked.LawsOfGoing.{
  ChildrenArePastSetup,
  ChildrenGoOn,
  EndedChildrenMayBeTakenBack,
  ForksHalve,
  GoingComposes,
  GoingKeepsLent,
  GoingKeepsPath,
  GoingKeepsRunning,
  GoingSpends,
  GoingStaysPastSetup,
  JoinsGoOn,
  PastSetupNothingSettles,
};

/// A task that goes on twice goes on.
#[tactic(auto, using(crate::proofs::Gone::going_composes))]
pub fn going_composes()
    ensures { GoingComposes }
{}

/// It keeps what it was lent.
#[tactic(auto, using(crate::proofs::Gone::going_keeps_lent))]
pub fn going_keeps_lent()
    ensures { GoingKeepsLent }
{}

/// And its path.
#[tactic(auto, using(crate::proofs::Gone::going_keeps_path))]
pub fn going_keeps_path()
    ensures { GoingKeepsPath }
{}

/// One that runs runs after it.
#[tactic(auto, using(crate::proofs::Gone::going_keeps_running))]
pub fn going_keeps_running()
    ensures { GoingKeepsRunning }
{}

/// It has no more units after it.
#[tactic(auto, using(crate::proofs::Spending::going_spends))]
pub fn going_spends()
    ensures { GoingSpends }
{}

/// Each child of a fork has at most half of its parent's units.
#[tactic(auto, using(crate::proofs::Spending::forks_halve))]
pub fn forks_halve()
    ensures { ForksHalve }
{}

/// A task of which no frame sets the resources up goes on so.
#[tactic(auto, using(crate::proofs::PastSetup::going_stays_past_setup))]
pub fn going_stays_past_setup()
    ensures { GoingStaysPastSetup }
{}

/// So are the children of its fork.
#[tactic(auto, using(crate::proofs::PastSetup::children_are_past_setup))]
pub fn children_are_past_setup()
    ensures { ChildrenArePastSetup }
{}

/// And the return of the procedure that sets the resources up isn't next.
#[tactic(auto, using(crate::proofs::PastSetup::past_setup_nothing_settles))]
pub fn past_setup_nothing_settles()
    ensures { PastSetupNothingSettles }
{}

/// The children of a fork go on.
#[tactic(auto, using(crate::proofs::Gone::children_go_on))]
pub fn children_go_on()
    ensures { ChildrenGoOn }
{}

/// By their join their parent goes on.
#[tactic(auto, using(crate::proofs::Gone::joins_go_on))]
pub fn joins_go_on()
    ensures { JoinsGoOn }
{}

/// Children that have ended may be taken back: they are the parent's, and it can go on with what
/// they have.
#[tactic(auto, using(crate::proofs::Gone::ended_children_may_be_taken_back))]
pub fn ended_children_may_be_taken_back()
    ensures { EndedChildrenMayBeTakenBack }
{}
