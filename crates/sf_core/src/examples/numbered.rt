//! Worked examples of numbered runs, each the contract of a function that does nothing.
ghost use Rattle.sf_core.specs.Checked.Machine.NumberedExamples.{
  CountsAnew,
  CountsDescendants,
  EndedFinishes,
  EvenFork,
  HandedBack,
  NoEventsAreNumbered,
  NoOtherNumber,
  NoUnitIsSpent,
  NoUnitNoEvent,
  OddFork,
  ThreeUnits,
};

/// Three units from 5 on are 5, 6 and 7.
#[tactic(auto, using(crate::proofs::Machine::NumberedRuns::three_units))]
pub fn three_units()
    ensures { ThreeUnits }
{}

/// Of five units a fork takes the first, and each child gets two of the others.
#[tactic(auto, using(crate::proofs::Machine::NumberedRuns::even_fork))]
pub fn even_fork()
    ensures { EvenFork }
{}

/// Of four units a fork takes the first, the left child gets one of the others and the right child
/// two.
#[tactic(auto, using(crate::proofs::Machine::NumberedRuns::odd_fork))]
pub fn odd_fork()
    ensures { OddFork }
{}

/// No fork takes another number than the first unit.
#[tactic(auto, using(crate::proofs::Machine::NumberedRuns::no_other_number))]
pub fn no_other_number()
    ensures { NoOtherNumber }
{}

/// A task without units has no event.
#[tactic(auto, using(crate::proofs::Machine::NumberedRuns::no_unit_no_event))]
pub fn no_unit_no_event()
    ensures { NoUnitNoEvent }
{}

/// What the children hand back begins with what the left one has left.
#[tactic(auto, using(crate::proofs::Machine::NumberedRuns::handed_back))]
pub fn handed_back()
    ensures { HandedBack }
{}

/// A fork begins the count of its left child anew.
#[tactic(auto, using(crate::proofs::Machine::NumberedRuns::counts_anew))]
pub fn counts_anew()
    ensures { CountsAnew }
{}

/// An event of a descendant counts for the task above it, and not for its sibling.
#[tactic(auto, using(crate::proofs::Machine::NumberedRuns::counts_descendants))]
pub fn counts_descendants()
    ensures { CountsDescendants }
{}

/// A run without events is numbered, whatever the units.
#[tactic(auto, using(crate::proofs::Machine::NumberedRuns::no_events_are_numbered))]
pub fn no_events_are_numbered()
    ensures { NoEventsAreNumbered }
{}

/// An entry that has ended finishes at once, whatever its units.
#[tactic(auto, using(crate::proofs::Machine::NumberedRuns::ended_finishes))]
pub fn ended_finishes()
    ensures { EndedFinishes }
{}

/// An entry that hasn't ended and has no unit has used all.
#[tactic(auto, using(crate::proofs::Machine::NumberedRuns::no_unit_is_spent))]
pub fn no_unit_is_spent()
    ensures { NoUnitIsSpent }
{}
