//! Laws of what a step answers, and of the configurations that are reached, each the contract of a
//! function that does nothing.

ghost use Rattle.sf_machine.specs.Answers.{AnswersAreExclusive, RefusedEventsDoNotStep};
ghost use Rattle.sf_machine.specs.Reached.{StartsAreReached, StepsAreReached};

/// No event has two answers, so each answer of a step comes exactly where its cause is.
#[tactic(auto, using(crate::proofs::Causes::answers_are_exclusive))]
pub fn answers_are_exclusive()
    ensures { AnswersAreExclusive }
{}

/// Where a step answers anything but `Moved`, the event leads to no configuration.
#[tactic(auto, using(crate::proofs::Causes::refused_events_do_not_step))]
pub fn refused_events_do_not_step()
    ensures { RefusedEventsDoNotStep }
{}

/// The configuration in which a procedure starts is one that a running program has.
#[tactic(auto, using(crate::proofs::Reaching::starts_are_reached))]
pub fn starts_are_reached()
    ensures { StartsAreReached }
{}

/// So is each that a step leads to from one that is.
#[tactic(auto, using(crate::proofs::Reaching::steps_are_reached))]
pub fn steps_are_reached()
    ensures { StepsAreReached }
{}
