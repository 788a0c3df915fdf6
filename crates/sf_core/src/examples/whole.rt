//! Worked examples of parts and contents that are a configuration, or aren't, each the contract of
//! a function that does nothing.
ghost use Rattle.sf_core.specs.Checked.Machine.WholeExamples.{
  CellsOfNobodyAreNoWhole,
  ChildrenOfRunningTasksAreNoWhole,
  ContentsOfHeldResourcesAreNoWhole,
  HeldByAnotherIsNoWhole,
  HeldByNoPartIsNoWhole,
  OtherStandsAreNoWhole,
  PartsAndAContentAreWhole,
  SharedCellsAreNoWhole,
  SharedSlotsAreNoWhole,
  SharedUnitsAreNoWhole,
  SlotsOfNobodyAreNoWhole,
  TasksWithoutPartsAreNoWhole,
  TwoAtAPathAreNoWhole,
  TwoContentsAreNoWhole,
  UnitsAtCellsAreNoWhole,
  UnitsOfSlotsAreNoWhole,
  UsedUnitsAreNoWhole,
};

/// Three parts and a content are a configuration.
#[tactic(auto, using(crate::proofs::Machine::Examples::Whole::parts_and_a_content_are_whole))]
pub fn parts_and_a_content_are_whole()
    ensures { PartsAndAContentAreWhole }
{}

/// Parts that share a slot are none.
#[tactic(auto, using(crate::proofs::Machine::Examples::Whole::shared_slots_are_no_whole))]
pub fn shared_slots_are_no_whole()
    ensures { SharedSlotsAreNoWhole }
{}

/// A part and a content that share a cell are none.
#[tactic(auto, using(crate::proofs::Machine::Examples::Whole::shared_cells_are_no_whole))]
pub fn shared_cells_are_no_whole()
    ensures { SharedCellsAreNoWhole }
{}

/// Two parts of one path are none.
#[tactic(auto, using(crate::proofs::Machine::Examples::Whole::two_at_a_path_are_no_whole))]
pub fn two_at_a_path_are_no_whole()
    ensures { TwoAtAPathAreNoWhole }
{}

/// A task that no part has makes them none.
#[tactic(auto, using(crate::proofs::Machine::Examples::Whole::tasks_without_parts_are_no_whole))]
pub fn tasks_without_parts_are_no_whole()
    ensures { TasksWithoutPartsAreNoWhole }
{}

/// A child whose parent runs, and doesn't wait, makes them none.
#[tactic(auto, using(crate::proofs::Machine::Examples::Whole::children_of_running_tasks_are_no_whole))]
pub fn children_of_running_tasks_are_no_whole()
    ensures { ChildrenOfRunningTasksAreNoWhole }
{}

/// A part that runs is none where its task waits.
#[tactic(auto, using(crate::proofs::Machine::Examples::Whole::other_stands_are_no_whole))]
pub fn other_stands_are_no_whole()
    ensures { OtherStandsAreNoWhole }
{}

/// A cell that neither a part nor a content has makes them none.
#[tactic(auto, using(crate::proofs::Machine::Examples::Whole::cells_of_nobody_are_no_whole))]
pub fn cells_of_nobody_are_no_whole()
    ensures { CellsOfNobodyAreNoWhole }
{}

/// So does a slot.
#[tactic(auto, using(crate::proofs::Machine::Examples::Whole::slots_of_nobody_are_no_whole))]
pub fn slots_of_nobody_are_no_whole()
    ensures { SlotsOfNobodyAreNoWhole }
{}

/// A resource that is held, and that no part holds, makes them none.
#[tactic(auto, using(crate::proofs::Machine::Examples::Whole::held_by_no_part_is_no_whole))]
pub fn held_by_no_part_is_no_whole()
    ensures { HeldByNoPartIsNoWhole }
{}

/// So does one that the part of another task holds.
#[tactic(auto, using(crate::proofs::Machine::Examples::Whole::held_by_another_is_no_whole))]
pub fn held_by_another_is_no_whole()
    ensures { HeldByAnotherIsNoWhole }
{}

/// A content of a resource that a part holds makes them none.
#[tactic(auto, using(crate::proofs::Machine::Examples::Whole::contents_of_held_resources_are_no_whole))]
pub fn contents_of_held_resources_are_no_whole()
    ensures { ContentsOfHeldResourcesAreNoWhole }
{}

/// Two contents of one resource are none, even where they have nothing.
#[tactic(auto, using(crate::proofs::Machine::Examples::Whole::two_contents_are_no_whole))]
pub fn two_contents_are_no_whole()
    ensures { TwoContentsAreNoWhole }
{}

/// Supplies that share a unit are none.
#[tactic(auto, using(crate::proofs::Machine::Examples::Whole::shared_units_are_no_whole))]
pub fn shared_units_are_no_whole()
    ensures { SharedUnitsAreNoWhole }
{}

/// A unit that an event has had makes them none.
#[tactic(auto, using(crate::proofs::Machine::Examples::Whole::used_units_are_no_whole))]
pub fn used_units_are_no_whole()
    ensures { UsedUnitsAreNoWhole }
{}

/// So does a unit that is a location of the heap.
#[tactic(auto, using(crate::proofs::Machine::Examples::Whole::units_at_cells_are_no_whole))]
pub fn units_at_cells_are_no_whole()
    ensures { UnitsAtCellsAreNoWhole }
{}

/// So does a unit that is the number of a slot.
#[tactic(auto, using(crate::proofs::Machine::Examples::Whole::units_of_slots_are_no_whole))]
pub fn units_of_slots_are_no_whole()
    ensures { UnitsOfSlotsAreNoWhole }
{}
