//! Laws of runs of one task. Each function does nothing; its contract is the law.

ghost use Rattle.sf_run.specs.Checked.Laws.{
  BasesAreFree,
  BeginningsAreStarts,
  BeginningsAreUnique,
  EndsAreNumbered,
  EndsAreUnique,
  InitSequentialIsDecided,
  LoneTasksFindRegionsFree,
  LoneTasksProgress,
  NumberedEndsComeAlone,
  NumberedRunsReach,
  OutcomesAreUnique,
  OutcomesExist,
  SequentialIsDecided,
  SequentialRunsAreLone,
  SpentRunsHaveUsedAll,
  SpentStepsComeAlone,
  StartsHaveOneOutcome,
  UnitsStayFree,
  WaitingRunsTryInVain,
  WaitsComeAlone,
};

/// From a start and a supply of units at most one outcome comes.
#[tactic(auto, using(crate::proofs::Closing::outcomes_are_unique))]
pub fn outcomes_are_unique()
    ensures { OutcomesAreUnique }
{}

/// Where no parallel call can be reached from the entry, there is one task in every configuration
/// that is reached from a start, and it never makes another.
#[tactic(auto, using(crate::proofs::Closing::sequential_runs_are_lone))]
pub fn sequential_runs_are_lone()
    ensures { SequentialRunsAreLone }
{}

/// At a start, the numbers from a base on aren't used, and no cell is at them.
#[tactic(auto, using(crate::proofs::Closing::bases_are_free))]
pub fn bases_are_free()
    ensures { BasesAreFree }
{}

/// After an event that takes a unit, those after it are as free as this one was.
#[tactic(auto, using(crate::proofs::Closing::units_stay_free))]
pub fn units_stay_free()
    ensures { UnitsStayFree }
{}

/// A lone task that is at a region doesn't hold its resource, and so it is free.
#[tactic(auto, using(crate::proofs::Closing::lone_tasks_find_regions_free))]
pub fn lone_tasks_find_regions_free()
    ensures { LoneTasksFindRegionsFree }
{}

/// A lone task of a good configuration has ended, or is at a region whose condition is false, or
/// has a step by each unit that is free.
#[tactic(auto, using(crate::proofs::Closing::lone_tasks_progress))]
pub fn lone_tasks_progress()
    ensures { LoneTasksProgress }
{}

/// Each start from which only good configurations are reached has an outcome, for each number of
/// units.
#[tactic(auto, using(crate::proofs::Closing::outcomes_exist))]
pub fn outcomes_exist()
    ensures { OutcomesExist }
{}

/// In a sound program that meets the conditions on variables, exactly one outcome comes of each
/// start, for each number of units.
#[tactic(auto, using(crate::proofs::Closing::starts_have_one_outcome))]
pub fn starts_have_one_outcome()
    ensures { StartsHaveOneOutcome }
{}

/// What a configuration ends with is one thing: the values of variables, and the cells.
#[tactic(auto, using(crate::proofs::Closing::ends_are_unique))]
pub fn ends_are_unique()
    ensures { EndsAreUnique }
{}

/// Where a procedure begins with variables and cells that are a start of it, is a start.
#[tactic(auto, using(crate::proofs::Closing::beginnings_are_starts))]
pub fn beginnings_are_starts()
    ensures { BeginningsAreStarts }
{}

/// A procedure begins in one configuration at most, fresh or not.
#[tactic(auto, using(crate::proofs::Closing::beginnings_are_unique))]
pub fn beginnings_are_unique()
    ensures { BeginningsAreUnique }
{}

/// What a numbered run reaches, its events lead to.
#[tactic(auto, using(crate::proofs::Closing::numbered_runs_reach))]
pub fn numbered_runs_reach()
    ensures { NumberedRunsReach }
{}

/// Where no parallel call can be reached, a run ends in what a numbered list of events leads to,
/// and there the entry has ended.
#[tactic(auto, using(crate::proofs::Closing::ends_are_numbered))]
pub fn ends_are_numbered()
    ensures { EndsAreNumbered }
{}

/// Where no parallel call can be reached and a numbered list of events leads to where the entry has
/// ended, the run ends there.
#[tactic(auto, using(crate::proofs::Closing::numbered_ends_come_alone))]
pub fn numbered_ends_come_alone()
    ensures { NumberedEndsComeAlone }
{}

/// Where after a numbered list the entry's task has used all units and would go on, the run has used
/// its units.
#[tactic(auto, using(crate::proofs::Closing::spent_steps_come_alone))]
pub fn spent_steps_come_alone()
    ensures { SpentStepsComeAlone }
{}

/// Where a numbered list leads to where the entry's task is at a region whose condition is false, and
/// leaves it a unit, the run waits there.
#[tactic(auto, using(crate::proofs::Closing::waits_come_alone))]
pub fn waits_come_alone()
    ensures { WaitsComeAlone }
{}

/// Where a run has used its units, after some numbered list the entry's task was given so many, has
/// used as many, and would go on.
#[tactic(auto, using(crate::proofs::Closing::spent_runs_have_used_all))]
pub fn spent_runs_have_used_all()
    ensures { SpentRunsHaveUsedAll }
{}

/// Where a run waits for a condition, after some numbered list the entry's task tries the region in
/// vain, as often as one likes.
#[tactic(auto, using(crate::proofs::Closing::waiting_runs_try_in_vain))]
pub fn waiting_runs_try_in_vain()
    ensures { WaitingRunsTryInVain }
{}

/// A parallel call can be reached from a procedure, or none can.
#[tactic(auto, using(crate::proofs::Closing::sequential_is_decided))]
pub fn sequential_is_decided()
    ensures { SequentialIsDecided }
{}

/// A parallel call can be reached from the procedure that sets the resources up, or none can, or
/// there is no such procedure.
#[tactic(auto, using(crate::proofs::Closing::init_sequential_is_decided))]
pub fn init_sequential_is_decided()
    ensures { InitSequentialIsDecided }
{}
