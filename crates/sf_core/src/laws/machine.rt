//! Laws of the machine's definitions, each the contract of a function that does nothing.
ghost use Rattle.sf_core.specs.Checked.GoodParts.{PartsMakeGood};
ghost use Rattle.sf_core.specs.Checked.Machine.Laws.{
  EndedRunsStop,
  StepsAreDeterministic,
  EnabledTasksDiverge,
  EnabledTasksProgress,
  OnlyEnabledTasksStep,
  StepsFrameOtherTasks,
  RunsCompose,
  StepsAreLocal,
  StepsAreMonotone,
  StepsHaveFrames,
  StepsCommute,
  StepsWriteOnlyTheirFootprint,
  StoppedTasksDoNotStep,
  UsedNumbersGrow,
  RaceFreeStepsCommute,
  StepsKeepOrder,
  ReachedConfigsAreInOrder,
  UsedSlotsAreThere,
  ExitsAreOfHeldResources,
  OrderedTasksStopOnlyThere,
};

/// A task's step changes the slots and cells that it writes, the rooms that a call or fork makes
/// and the cell that a `new` makes, and nothing else; and the one resource that changes hands is
/// that of the region that the task enters or leaves.
#[tactic(auto, using(crate::proofs::Machine::Laws::steps_write_only_their_footprint))]
pub fn steps_write_only_their_footprint()
    ensures { StepsWriteOnlyTheirFootprint }
{}

/// A task's step rests on what it reads, on the cells that it writes or makes, and on the holder of
/// the resource that it enters or leaves: where another state agrees on these there is the same
/// step, and what it writes, makes and moves is the same after it.
#[tactic(auto, using(crate::proofs::Machine::Laws::steps_are_local))]
pub fn steps_are_local()
    ensures { StepsAreLocal }
{}

/// Steps of different tasks commute where neither changes what the other reads or changes, and no
/// resource changes hands by both: the other order leads to the same configuration.
#[tactic(auto, using(crate::proofs::Machine::Laws::steps_commute))]
pub fn steps_commute()
    ensures { StepsCommute }
{}

/// A step of a part is a step of the whole, and leaves the rest: where heap and store split into
/// those of the part and a rest that has nothing of what the event reads, writes or makes.
#[tactic(auto, using(crate::proofs::Machine::Laws::steps_are_monotone))]
pub fn steps_are_monotone()
    ensures { StepsAreMonotone }
{}

/// The frame property: a step of the whole is a step of such a part, unless that is about to touch
/// a cell that it lacks, and leaves the rest.
#[tactic(auto, using(crate::proofs::Machine::Laws::steps_have_frames))]
pub fn steps_have_frames()
    ensures { StepsHaveFrames }
{}

/// An event leads to at most one configuration.
#[tactic(auto, using(crate::proofs::Machine::Laws::steps_are_deterministic))]
pub fn steps_are_deterministic()
    ensures { StepsAreDeterministic }
{}

/// A run's events have new and different numbers, and just these are used after it besides those
/// used before.
#[tactic(auto, using(crate::proofs::Machine::Laws::used_numbers_grow))]
pub fn used_numbers_grow()
    ensures { UsedNumbersGrow }
{}

/// Two runs, one after the other, are one run, and each run may be cut in two anywhere.
#[tactic(auto, using(crate::proofs::Machine::Laws::runs_compose))]
pub fn runs_compose()
    ensures { RunsCompose }
{}

/// A step of one task leaves all tasks as they are that are neither its ancestors nor its
/// descendants, and its ancestors go on waiting with the same frames.
#[tactic(auto, using(crate::proofs::Machine::Laws::steps_frame_other_tasks))]
pub fn steps_frame_other_tasks()
    ensures { StepsFrameOtherTasks }
{}

/// Only enabled tasks step.
#[tactic(auto, using(crate::proofs::Machine::Laws::only_enabled_tasks_step))]
pub fn only_enabled_tasks_step()
    ensures { OnlyEnabledTasksStep }
{}

/// Once the entry has ended no event comes.
#[tactic(auto, using(crate::proofs::Machine::Laws::ended_runs_stop))]
pub fn ended_runs_stop()
    ensures { EndedRunsStop }
{}

/// A configuration is good that isn't bad, whose heap splits into parts along its resources and
/// the tree of its tasks, and that ends well where it has ended.
#[tactic(auto, using(crate::proofs::Machine::Laws::parts_make_good))]
pub fn parts_make_good()
    ensures { PartsMakeGood }
{}

/// Of two different enabled tasks neither is an ancestor of the other.
#[tactic(auto, using(crate::proofs::Machine::Laws::enabled_tasks_diverge))]
pub fn enabled_tasks_diverge()
    ensures { EnabledTasksDiverge }
{}

/// An enabled task steps by any of its events that has a new number, and where it makes a cell an
/// absent location, unless it is at an absent cell, at a region whose condition is false, at a call
/// of a procedure that isn't there, at a fork too deep in the tree, or leaves a region that it
/// isn't in.
#[tactic(auto, using(crate::proofs::Machine::Laws::enabled_tasks_progress))]
pub fn enabled_tasks_progress()
    ensures { EnabledTasksProgress }
{}

/// A task that one of these keeps from it has no event.
#[tactic(auto, using(crate::proofs::Machine::Laws::stopped_tasks_do_not_step))]
pub fn stopped_tasks_do_not_step()
    ensures { StoppedTasksDoNotStep }
{}

/// Each step keeps a configuration in order.
#[tactic(auto, using(crate::proofs::Machine::Laws::steps_keep_order))]
pub fn steps_keep_order()
    ensures { StepsKeepOrder }
{}

/// Every configuration that is reached from a start is in order.
#[tactic(auto, using(crate::proofs::Machine::Laws::reached_configs_are_in_order))]
pub fn reached_configs_are_in_order()
    ensures { ReachedConfigsAreInOrder }
{}

/// In a configuration in order the variables that the next step of a task reads or writes are in
/// the store, so the value that counts where a slot is absent is never met.
#[tactic(auto, using(crate::proofs::Machine::Laws::used_slots_are_there))]
pub fn used_slots_are_there()
    ensures { UsedSlotsAreThere }
{}

/// In a configuration in order a task that leaves a region holds its resource, so the condition of
/// an exit is always met.
#[tactic(auto, using(crate::proofs::Machine::Laws::exits_are_of_held_resources))]
pub fn exits_are_of_held_resources()
    ensures { ExitsAreOfHeldResources }
{}

/// In a configuration in order only an absent cell, a condition that is false, or 63 turns at a
/// fork keep a task from its step.
#[tactic(auto, using(crate::proofs::Machine::Laws::ordered_tasks_stop_only_there))]
pub fn ordered_tasks_stop_only_there()
    ensures { OrderedTasksStopOnlyThere }
{}

/// From a configuration in order that isn't bad, steps of different tasks commute, unless they
/// enter or leave one resource, or the second makes a cell that the first makes or writes.
#[tactic(auto, using(crate::proofs::Machine::Laws::race_free_steps_commute))]
pub fn race_free_steps_commute()
    ensures { RaceFreeStepsCommute }
{}
