//! What the tasks of a run need to know of parts.

ghost use Rattle.sf_threads.specs.Checked.Laws.{RunLaws};

use sf_own::{
    absent_never_comes, contents_are_there, forks_keep_safe, going_keeps_safe, shares_are_there,
};
use sf_part::going::{
    children_are_past_setup, children_go_on, forks_halve, going_composes, going_keeps_path,
    going_spends, going_stays_past_setup, past_setup_nothing_settles,
};
use sf_region::laws::stopped_tasks_go_on;

/// The laws of parts on which the tasks of a run rest. It does nothing.
pub(crate) fn run_laws()
    ensures { RunLaws }
{
    going_composes();
    going_keeps_path();
    going_spends();
    going_stays_past_setup();
    children_are_past_setup();
    past_setup_nothing_settles();
    forks_halve();
    children_go_on();
    going_keeps_safe();
    forks_keep_safe();
    absent_never_comes();
    contents_are_there();
    shares_are_there();
    stopped_tasks_go_on();
}
