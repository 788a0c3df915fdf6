//! Examples of a fresh start, each the contract of a function that does nothing.
ghost use Rattle.sf_core.specs.Checked.Machine.SettingUp.{
  FreshSkipRuns,
  FreshSkipStarts,
  SetVariablesDoNotStartFresh,
  UnmetInvariantsAreNotGood,
};

/// A procedure with one resource has a fresh start, whatever the body that sets the resource up.
#[tactic(auto, using(crate::proofs::Machine::Examples::SettingUp::fresh_skip_starts))]
pub fn fresh_skip_starts()
    ensures { FreshSkipStarts }
{}

/// Where the resource's variable is set, and there are no cells, there is no start.
#[tactic(auto, using(crate::proofs::Machine::Examples::SettingUp::set_variables_do_not_start_fresh))]
pub fn set_variables_do_not_start_fresh()
    ensures { SetVariablesDoNotStartFresh }
{}

/// The body makes the invariant's cell, and its return makes the resource free; all is good at each
/// moment.
#[tactic(auto, using(crate::proofs::Machine::Examples::SettingUp::fresh_skip_runs))]
pub fn fresh_skip_runs()
    ensures { FreshSkipRuns }
{}

/// A body that leaves the invariant unmet is at its return in a configuration that isn't good.
#[tactic(auto, using(crate::proofs::Machine::Examples::SettingUp::unmet_invariants_are_not_good))]
pub fn unmet_invariants_are_not_good()
    ensures { UnmetInvariantsAreNotGood }
{}
