//! Laws of traces. Each function does nothing; its contract is the law.

ghost use Rattle.sf_trace.specs.Checked.Laws.{
  EqualWeightsPermute,
  LogsCompose,
  ParallelCallsFork,
  PrivateActsMeetNobody,
  RegionsTouchOne,
  RunsHaveTraces,
  SettlingFreesAll,
  TracesAreRuns,
  TracesAreUnique,
  TracesCompose,
};

/// What the events of a trace lead to, they lead to as a run.
#[tactic(auto, using(crate::proofs::Traces::traces_are_runs))]
pub fn traces_are_runs()
    ensures { TracesAreRuns }
{}

/// Each run has a trace.
#[tactic(auto, using(crate::proofs::Traces::runs_have_traces))]
pub fn runs_have_traces()
    ensures { RunsHaveTraces }
{}

/// A run has one trace alone, which leads to one configuration.
#[tactic(auto, using(crate::proofs::Traces::traces_are_unique))]
pub fn traces_are_unique()
    ensures { TracesAreUnique }
{}

/// One trace after another is one.
#[tactic(auto, using(crate::proofs::Traces::traces_compose))]
pub fn traces_compose()
    ensures { TracesCompose }
{}

/// A task's own affair touches no resource, makes and joins no children, and doesn't set the resources
/// up.
#[tactic(auto, using(crate::proofs::Meetings::private_acts_meet_nobody))]
pub fn private_acts_meet_nobody()
    ensures { PrivateActsMeetNobody }
{}

/// The entry of a region, and the exit from one, touch that resource alone.
#[tactic(auto, using(crate::proofs::Meetings::regions_touch_one))]
pub fn regions_touch_one()
    ensures { RegionsTouchOne }
{}

/// A parallel call makes children, and touches no resource.
#[tactic(auto, using(crate::proofs::Meetings::parallel_calls_fork))]
pub fn parallel_calls_fork()
    ensures { ParallelCallsFork }
{}

/// The return that sets the resources up is the one that frees them.
#[tactic(auto, using(crate::proofs::Meetings::settling_frees_all))]
pub fn settling_frees_all()
    ensures { SettlingFreesAll }
{}

/// Two logs that weigh the same, however entries are weighed, have the same entries, each as often.
#[tactic(auto, using(crate::proofs::Weights::equal_weights_permute))]
pub fn equal_weights_permute()
    ensures { EqualWeightsPermute }
{}

/// The logs of two lists of events, one after the other, are together one of both, where of two whose
/// order counts the one of the second list has the greater stamp.
#[tactic(auto, using(crate::proofs::Logs::logs_compose))]
pub fn logs_compose()
    ensures { LogsCompose }
{}
