//! What the events of a task at a table keep, and what a spent task comes to. Each function is a
//! law: calling it gives its fact to the caller's proof, and does nothing.

ghost use Rattle.sf_region.specs.Checked.Laws.{
  DrainedTasksHaveSpentSteps,
  StillClocksHaveNoEvent,
  StoppedTasksGoOn,
};

use sf_spend::spent_tasks_have_spent_steps;

/// Where a task's clock is as it was, it had no event.
#[tactic(auto, using(crate::proofs::Quiet::still_clocks_have_no_event))]
pub fn still_clocks_have_no_event()
    ensures { StillClocksHaveNoEvent }
{}

/// A task that has no unit for its next step, or that stands at a region, an exit or a parallel
/// call, runs and hasn't ended.
#[tactic(auto, using(crate::proofs::Stopped::stopped_tasks_go_on))]
pub fn stopped_tasks_go_on()
    ensures { StoppedTasksGoOn }
{}

/// Where a numbered list of events from the start led to where the table began, as that of the
/// procedure that sets the resources up, a task of which the table tells that it is drained has
/// spent its steps, from the start on.
pub fn drained_tasks_have_spent_steps()
    ensures { DrainedTasksHaveSpentSteps }
{
    spent_tasks_have_spent_steps();
}
