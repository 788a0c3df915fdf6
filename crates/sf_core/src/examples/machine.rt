//! Examples of the machine's definitions, each the contract of a function that does nothing.
ghost use Rattle.sf_core.specs.Checked.Machine.Examples.{
  AssignmentAndConditionRace,
  AssignmentAndReferenceDoNotRace,
  AssignmentAndTestRace,
  CallMutateReturn,
  ChildrenEndInAnyOrder,
  ChildrenFillReferences,
  DeepForksDoNotStep,
  DisposeAtNilIsBad,
  EndedIsGoodWithItsCellAlone,
  EndedIsGoodWithTheInvariantAlone,
  EndedWhileHeldIsNotGood,
  FreeResourcesHaveTheirCell,
  FreedLocationsComeAgain,
  HeldRegionsWait,
  HoldersDoNotStart,
  LessDeepForksStep,
  MutationAndEntryCommute,
  MutationAndLookUpRace,
  NewAndLookUpDoNotRace,
  ReferencesArePassedOn,
  RegionThenLoop,
  ReturningBesideAResourceIsGoodWithTwoCells,
  ReturningIsGoodWithItsCell,
  ReturningOverAResourceIsNotGood,
  ReturningTogetherIsGoodWithTwoCells,
  ReturningTogetherOverOneCellIsNotGood,
  ReturnsCommute,
  RoomsAreNotGivenTwice,
  SettingStarts,
  SkipDoesNotStartWithNothing,
  SkipStartsWithNothingElse,
  SkipStartsWithTheInvariant,
  TwoEntriesDoNotRace,
  TwoLookUpsDoNotRace,
  TwoMutationsRace,
  UsedNumbersStayUsed,
};

/// A procedure of one cell has a start: the definition of a start can be met.
#[tactic(auto, using(crate::proofs::Machine::Examples::Runs::setting_starts))]
pub fn setting_starts()
    ensures { SettingStarts }
{}

/// A call, a mutation in the callee and its return lead from there to a good configuration in which
/// the entry has ended.
#[tactic(auto, using(crate::proofs::Machine::Examples::Runs::call_mutate_return))]
pub fn call_mutate_return()
    ensures { CallMutateReturn }
{}

/// Two tasks at mutations of one cell are bad.
#[tactic(auto, using(crate::proofs::Machine::Examples::Races::two_mutations_race))]
pub fn two_mutations_race()
    ensures { TwoMutationsRace }
{}

/// A mutation and a look-up of one cell are bad, in either order.
#[tactic(auto, using(crate::proofs::Machine::Examples::Races::mutation_and_look_up_race))]
pub fn mutation_and_look_up_race()
    ensures { MutationAndLookUpRace }
{}

/// Two look-ups of one cell aren't bad.
#[tactic(auto, using(crate::proofs::Machine::Examples::Races::two_look_ups_do_not_race))]
pub fn two_look_ups_do_not_race()
    ensures { TwoLookUpsDoNotRace }
{}

/// Two tasks at entries of one free resource aren't bad.
#[tactic(auto, using(crate::proofs::Machine::Examples::Races::two_entries_do_not_race))]
pub fn two_entries_do_not_race()
    ensures { TwoEntriesDoNotRace }
{}

/// A task at a region whose resource is held isn't enabled, so what the holder does is no race.
#[tactic(auto, using(crate::proofs::Machine::Examples::Races::held_regions_wait))]
pub fn held_regions_wait()
    ensures { HeldRegionsWait }
{}

/// A dispose at nil by the only task is bad.
#[tactic(auto, using(crate::proofs::Machine::Examples::Runs::dispose_at_nil_is_bad))]
pub fn dispose_at_nil_is_bad()
    ensures { DisposeAtNilIsBad }
{}

/// A `new` may give a location that was freed before.
#[tactic(auto, using(crate::proofs::Machine::Examples::Runs::freed_locations_come_again))]
pub fn freed_locations_come_again()
    ensures { FreedLocationsComeAgain }
{}

/// The children of a fork may end in either order; then the parent goes on.
#[tactic(auto, using(crate::proofs::Machine::Examples::Runs::children_end_in_any_order))]
pub fn children_end_in_any_order()
    ensures { ChildrenEndInAnyOrder }
{}

/// A fork makes the slots of values and locals for both children, the left one's first; what they
/// assign to their references are the caller's variables, and their slots vanish with them.
#[tactic(auto, using(crate::proofs::Machine::Examples::Runs::children_fill_references))]
pub fn children_fill_references()
    ensures { ChildrenFillReferences }
{}

/// A reference that is passed on as a reference names the first caller's variable.
#[tactic(auto, using(crate::proofs::Machine::Examples::Runs::references_are_passed_on))]
pub fn references_are_passed_on()
    ensures { ReferencesArePassedOn }
{}

/// A task enters a region and leaves it, runs a loop's body once, and leaves the loop.
#[tactic(auto, using(crate::proofs::Machine::Examples::Runs::region_then_loop))]
pub fn region_then_loop()
    ensures { RegionThenLoop }
{}

/// An ended entry is good exactly where its heap is the one cell of its postcondition: a cell that
/// is missing or left over isn't good.
#[tactic(auto, using(crate::proofs::Machine::Examples::Good::ended_is_good_with_its_cell_alone))]
pub fn ended_is_good_with_its_cell_alone()
    ensures { EndedIsGoodWithItsCellAlone }
{}

/// A callee at its return is good exactly where the heap has the cell of its postcondition.
#[tactic(auto, using(crate::proofs::Machine::Examples::Good::returning_is_good_with_its_cell))]
pub fn returning_is_good_with_its_cell()
    ensures { ReturningIsGoodWithItsCell }
{}

/// Two children at their returns are good exactly where each has its own cell.
#[tactic(auto, using(crate::proofs::Machine::Examples::Returns::returning_together_is_good_with_two_cells))]
pub fn returning_together_is_good_with_two_cells()
    ensures { ReturningTogetherIsGoodWithTwoCells }
{}

/// So two children at their returns over one cell aren't good.
#[tactic(auto, using(crate::proofs::Machine::Examples::Returns::returning_together_over_one_cell_is_not_good))]
pub fn returning_together_over_one_cell_is_not_good()
    ensures { ReturningTogetherOverOneCellIsNotGood }
{}

/// A callee at its return beside a free resource is good exactly where it has its cell and the
/// resource another.
#[tactic(auto, using(crate::proofs::Machine::Examples::Returns::returning_beside_a_resource_is_good_with_two_cells))]
pub fn returning_beside_a_resource_is_good_with_two_cells()
    ensures { ReturningBesideAResourceIsGoodWithTwoCells }
{}

/// So a callee at its return over the cell of a free resource isn't good.
#[tactic(auto, using(crate::proofs::Machine::Examples::Returns::returning_over_a_resource_is_not_good))]
pub fn returning_over_a_resource_is_not_good()
    ensures { ReturningOverAResourceIsNotGood }
{}

/// An ended entry of a program with a resource is good exactly where its heap is the one cell of
/// the invariant, which is the resource's.
#[tactic(auto, using(crate::proofs::Machine::Examples::Good::ended_is_good_with_the_invariant_alone))]
pub fn ended_is_good_with_the_invariant_alone()
    ensures { EndedIsGoodWithTheInvariantAlone }
{}

/// Whenever a resource is free, a good configuration has the cell of its invariant.
#[tactic(auto, using(crate::proofs::Machine::Examples::Good::free_resources_have_their_cell))]
pub fn free_resources_have_their_cell()
    ensures { FreeResourcesHaveTheirCell }
{}

/// An entry that has ended while a resource is held isn't good.
#[tactic(auto, using(crate::proofs::Machine::Examples::Good::ended_while_held_is_not_good))]
pub fn ended_while_held_is_not_good()
    ensures { EndedWhileHeldIsNotGood }
{}

/// With a resource a procedure has a start: at the cell of the invariant.
#[tactic(auto, using(crate::proofs::Machine::Examples::Starts::skip_starts_with_the_invariant))]
pub fn skip_starts_with_the_invariant()
    ensures { SkipStartsWithTheInvariant }
{}

/// It starts at no other heap.
#[tactic(auto, using(crate::proofs::Machine::Examples::Starts::skip_starts_with_nothing_else))]
pub fn skip_starts_with_nothing_else()
    ensures { SkipStartsWithNothingElse }
{}

/// So it doesn't start at the empty heap.
#[tactic(auto, using(crate::proofs::Machine::Examples::Starts::skip_does_not_start_with_nothing))]
pub fn skip_does_not_start_with_nothing()
    ensures { SkipDoesNotStartWithNothing }
{}

/// A procedure whose precondition mentions a variable of a resource has no start.
#[tactic(auto, using(crate::proofs::Machine::Examples::Starts::holders_do_not_start))]
pub fn holders_do_not_start()
    ensures { HoldersDoNotStart }
{}

/// An assignment and a test of one variable are bad.
#[tactic(auto, using(crate::proofs::Machine::Examples::Races::assignment_and_test_race))]
pub fn assignment_and_test_race()
    ensures { AssignmentAndTestRace }
{}

/// An assignment beside a region whose condition reads the variable is bad while the resource is
/// free, and not while it is held.
#[tactic(auto, using(crate::proofs::Machine::Examples::Races::assignment_and_condition_race))]
pub fn assignment_and_condition_race()
    ensures { AssignmentAndConditionRace }
{}

/// An assignment beside a call that passes the variable as a reference isn't bad.
#[tactic(auto, using(crate::proofs::Machine::Examples::Races::assignment_and_reference_do_not_race))]
pub fn assignment_and_reference_do_not_race()
    ensures { AssignmentAndReferenceDoNotRace }
{}

/// A `new` beside a look-up of a cell that is there isn't bad.
#[tactic(auto, using(crate::proofs::Machine::Examples::Races::new_and_look_up_do_not_race))]
pub fn new_and_look_up_do_not_race()
    ensures { NewAndLookUpDoNotRace }
{}

/// After a call the number of its event isn't new, nor is that of the start.
#[tactic(auto, using(crate::proofs::Machine::Examples::Numbers::used_numbers_stay_used))]
pub fn used_numbers_stay_used()
    ensures { UsedNumbersStayUsed }
{}

/// A task whose path has 63 turns has no event at a fork.
#[tactic(auto, using(crate::proofs::Machine::Examples::Numbers::deep_forks_do_not_step))]
pub fn deep_forks_do_not_step()
    ensures { DeepForksDoNotStep }
{}

/// A task whose path has 62 turns has one.
#[tactic(auto, using(crate::proofs::Machine::Examples::Numbers::less_deep_forks_step))]
pub fn less_deep_forks_step()
    ensures { LessDeepForksStep }
{}

/// Of two calls, one after the other, the second has another room, whatever its number.
#[tactic(auto, using(crate::proofs::Machine::Examples::Numbers::rooms_are_not_given_twice))]
pub fn rooms_are_not_given_twice()
    ensures { RoomsAreNotGivenTwice }
{}

/// The returns of a fork's children lead to one configuration in either order.
#[tactic(auto, using(crate::proofs::Machine::Examples::Commute::returns_commute))]
pub fn returns_commute()
    ensures { ReturnsCommute }
{}

/// So do a mutation and another task's entry of a region.
#[tactic(auto, using(crate::proofs::Machine::Examples::Commute::mutation_and_entry_commute))]
pub fn mutation_and_entry_commute()
    ensures { MutationAndEntryCommute }
{}
