//! Worked examples, each the contract of a function that does nothing.

ghost use Rattle.sf_own.specs.Checked.Examples.{
  AbsentCellsAreNotSafe,
  EndedChildrenAreSafe,
  HeldResourcesAreNotSafe,
  LeftCellsAreNotSafe,
};

/// A child that has ended with just what it owes is safe.
#[tactic(auto, using(crate::proofs::Worked::ended_children_are_safe))]
pub fn ended_children_are_safe()
    ensures { EndedChildrenAreSafe }
{}

/// With a cell too much it isn't.
#[tactic(auto, using(crate::proofs::Worked::left_cells_are_not_safe))]
pub fn left_cells_are_not_safe()
    ensures { LeftCellsAreNotSafe }
{}

/// Nor is it where it still holds a resource.
#[tactic(auto, using(crate::proofs::Worked::held_resources_are_not_safe))]
pub fn held_resources_are_not_safe()
    ensures { HeldResourcesAreNotSafe }
{}

/// Nor is a task at a cell that its part doesn't have.
#[tactic(auto, using(crate::proofs::Worked::absent_cells_are_not_safe))]
pub fn absent_cells_are_not_safe()
    ensures { AbsentCellsAreNotSafe }
{}
