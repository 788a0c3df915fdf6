//! The law of a run's log. The function does nothing; its contract is the law.

ghost use Rattle.sf_run.specs.Checked.LawsOfLogs.{TablesGoOnWithLogs};

use sf_trace::{
    equal_weights_permute, logs_compose, parallel_calls_fork, private_acts_meet_nobody,
    regions_touch_one,
};

/// What a table's list tells goes on with the log of what has led to where the table begins.
#[tactic(auto, using(crate::proofs::Logged::tables_go_on_with_logs))]
pub(crate) fn tables_go_on_with_logs()
    ensures { TablesGoOnWithLogs }
{
    logs_compose();
    private_acts_meet_nobody();
    regions_touch_one();
    parallel_calls_fork();
    equal_weights_permute();
}
