//! How a task goes on alone, and what that comes to. Each function is a law: calling it gives its
//! fact to the caller's proof, and does nothing.

ghost use Rattle.sf_setup.specs.Checked.Laws.{
  DrainedTasksHaveSpentSteps,
  EventsAloneAreSteps,
  FirstPartsBeginFresh,
  GoingAloneComposes,
  GoingAloneIsGoing,
  ResourcesAreSetUp,
  SettingUpIsTold,
};

use sf_own::{first_parts_are_safe, going_keeps_safe, settling_keeps_safe};
use sf_part::laws::{
    first_parts_are_whole, forks_are_steps, joins_are_steps, leads_compose,
    private_events_are_steps, settling_is_a_step,
};
use sf_part::time::settling_stays_in_time;
use sf_part::whole::{held_are_of_the_program, running_parts_run, waiting_parts_wait};
use sf_spend::{
    counted_lists_are_numbered, counts_compose, counts_stay_balanced, numbered_lists_are_counted,
};
use sf_trace::{
    equal_weights_permute, parallel_calls_fork, private_acts_meet_nobody, runs_have_traces,
    traces_are_runs, traces_are_unique,
};

/// A task that goes on alone goes on.
#[tactic(auto, using(crate::proofs::Goes::going_alone_is_going))]
pub fn going_alone_is_going()
    ensures { GoingAloneIsGoing }
{}

/// One that does so twice goes on alone by both lists of events.
#[tactic(auto, using(crate::proofs::Goes::going_alone_composes))]
pub fn going_alone_composes()
    ensures { GoingAloneComposes }
{}

/// Its events are steps of every whole that its part belongs to, whatever the others are.
#[tactic(auto, using(crate::proofs::Leading::events_alone_are_steps))]
pub fn events_alone_are_steps()
    ensures { EventsAloneAreSteps }
{
    private_events_are_steps();
    forks_are_steps();
    joins_are_steps();
    leads_compose();
}

/// Where it comes to a task that has no unit left, that task has spent its steps.
#[tactic(auto, using(crate::proofs::Draining::drained_tasks_have_spent_steps))]
pub fn drained_tasks_have_spent_steps()
    ensures { DrainedTasksHaveSpentSteps }
{
    events_alone_are_steps();
    forks_are_steps();
    running_parts_run();
    waiting_parts_wait();
    first_parts_are_whole();
    numbered_lists_are_counted();
    counted_lists_are_numbered();
    counts_compose();
    counts_stay_balanced();
}

/// Where the procedure that sets the resources up has run, they are set up.
#[tactic(auto, using(crate::proofs::SettingUp::resources_are_set_up))]
pub fn resources_are_set_up()
    ensures { ResourcesAreSetUp }
{
    events_alone_are_steps();
    settling_is_a_step();
    leads_compose();
    first_parts_are_whole();
    held_are_of_the_program();
    first_parts_are_safe();
    going_keeps_safe();
    settling_keeps_safe();
    settling_stays_in_time();
}

/// Its log then tells of all events by which it has run, where it keeps one.
#[tactic(auto, using(crate::proofs::Telling::setting_up_is_told))]
pub fn setting_up_is_told()
    ensures { SettingUpIsTold }
{
    first_parts_are_whole();
    private_events_are_steps();
    forks_are_steps();
    joins_are_steps();
    settling_is_a_step();
    running_parts_run();
    waiting_parts_wait();
    held_are_of_the_program();
    private_acts_meet_nobody();
    parallel_calls_fork();
    traces_are_runs();
    runs_have_traces();
    traces_are_unique();
    equal_weights_permute();
}

/// The part with which a procedure starts from a fresh start begins a run whose resources are still
/// to be set up.
#[tactic(auto, using(crate::proofs::Beginning::first_parts_begin_fresh))]
pub fn first_parts_begin_fresh()
    ensures { FirstPartsBeginFresh }
{}
