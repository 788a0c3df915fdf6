//! Laws of replays, each the contract of a function that does nothing.

ghost use Rattle.sf_replay.specs.Checked.Laws.{EventsAreReplayed, EventsAreReplayedOnce, SafeRunsAreRuns, SoundRunsAreClean, StartsAreReplayed};

use sf_machine::{
    answers_are_exclusive, refused_events_do_not_step, starts_are_reached, steps_are_reached,
};

/// One thing is found of a list of events, or nothing for one reason, and not both. So each answer
/// of `replay` comes exactly where its cause is.
pub fn events_are_replayed_once()
    ensures { EventsAreReplayedOnce }
{
    answers_are_exclusive();
    refused_events_do_not_step();
}

/// Events lead safely to a configuration exactly where they lead to it, and no configuration that
/// fewer of them lead to is bad.
#[tactic(auto, using(crate::proofs::Once::safe_runs_are_runs))]
pub fn safe_runs_are_runs()
    ensures { SafeRunsAreRuns }
{}

/// Something is found of each list of events, or nothing for a reason.
pub fn events_are_replayed()
    ensures { EventsAreReplayed }
{
    steps_are_reached();
}

/// So it is of each list of events from each start of a procedure.
pub fn starts_are_replayed()
    ensures { StartsAreReplayed }
{
    starts_are_reached();
    steps_are_reached();
}

/// Of a sound program neither an absent cell nor a race is found, whatever the events are.
#[tactic(auto, using(crate::proofs::Answered::sound_runs_are_clean))]
pub fn sound_runs_are_clean()
    ensures { SoundRunsAreClean }
{}
