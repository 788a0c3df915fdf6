//! Examples of cycles, ranks, nesting and circles. Each function does nothing; its contract is the
//! result.

ghost use Rattle.sf_order.specs.Checked.Examples.{
  CallsNest,
  ChainsHaveRanks,
  ChildrenWaitForParents,
  CyclesBeginWithTheirFirst,
  FreeResourcesAreNoCircle,
  LaterCyclesAreNotFirst,
  LongerCyclesAreNotFirst,
  NothingNestsBack,
  OppositeOrderIsACycle,
  OppositeTasksAreACircle,
  RanksBeginAtTheTop,
  RanksHaveNoGaps,
  RegionsDoNotNestThemselves,
};

/// Two resources in opposite order are the first cycle.
#[tactic(auto, using(crate::proofs::Worked::opposite_order_is_a_cycle))]
pub fn opposite_order_is_a_cycle()
    ensures { OppositeOrderIsACycle }
{}

/// A cycle begins with its first resource in the file.
#[tactic(auto, using(crate::proofs::Worked::cycles_begin_with_their_first))]
pub fn cycles_begin_with_their_first()
    ensures { CyclesBeginWithTheirFirst }
{}

/// A longer cycle through the same resource is not the first.
#[tactic(auto, using(crate::proofs::Worked::longer_cycles_are_not_first))]
pub fn longer_cycles_are_not_first()
    ensures { LongerCyclesAreNotFirst }
{}

/// Nor is one that is as short and goes on through a later resource.
#[tactic(auto, using(crate::proofs::Worked::later_cycles_are_not_first))]
pub fn later_cycles_are_not_first()
    ensures { LaterCyclesAreNotFirst }
{}

/// Three resources, one inside the other, have the ranks 0, 1 and 2.
#[tactic(auto, using(crate::proofs::Worked::chains_have_ranks))]
pub fn chains_have_ranks()
    ensures { ChainsHaveRanks }
{}

/// They have not those of the other end.
#[tactic(auto, using(crate::proofs::Worked::ranks_begin_at_the_top))]
pub fn ranks_begin_at_the_top()
    ensures { RanksBeginAtTheTop }
{}

/// Nor any with a gap.
#[tactic(auto, using(crate::proofs::Worked::ranks_have_no_gaps))]
pub fn ranks_have_no_gaps()
    ensures { RanksHaveNoGaps }
{}

/// What a call inside a region takes is nested in it.
#[tactic(auto, using(crate::proofs::Worked::calls_nest))]
pub fn calls_nest()
    ensures { CallsNest }
{}

/// Nothing is nested the other way round.
#[tactic(auto, using(crate::proofs::Worked::nothing_nests_back))]
pub fn nothing_nests_back()
    ensures { NothingNestsBack }
{}

/// A region is not nested in itself.
#[tactic(auto, using(crate::proofs::Worked::regions_do_not_nest_themselves))]
pub fn regions_do_not_nest_themselves()
    ensures { RegionsDoNotNestThemselves }
{}

/// Two tasks, each of which holds what the other waits for, are a circle.
#[tactic(auto, using(crate::proofs::Worked::opposite_tasks_are_a_circle))]
pub fn opposite_tasks_are_a_circle()
    ensures { OppositeTasksAreACircle }
{}

/// So is a task that holds what its own child waits for.
#[tactic(auto, using(crate::proofs::Worked::children_wait_for_parents))]
pub fn children_wait_for_parents()
    ensures { ChildrenWaitForParents }
{}

/// A task that waits for what is free is none.
#[tactic(auto, using(crate::proofs::Worked::free_resources_are_no_circle))]
pub fn free_resources_are_no_circle()
    ensures { FreeResourcesAreNoCircle }
{}
