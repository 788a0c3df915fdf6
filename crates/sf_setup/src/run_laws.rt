//! What tasks that go on alone need to know of parts.

ghost use Rattle.sf_setup.specs.Checked.RunLaws.{RunLaws};

use crate::laws::events_alone_are_steps;
use sf_own::{
    absent_never_comes, all_contents_are_there, first_parts_are_safe, forks_keep_safe,
    going_keeps_safe, shares_are_there,
};
use sf_part::going::{
    ended_children_may_be_taken_back, forks_halve, going_keeps_path, going_spends,
    going_stays_past_setup, past_setup_nothing_settles,
};
use sf_part::laws::{first_parts_are_whole, forks_are_steps, parts_in_any_order};
use sf_part::setting_up::{fresh_parts_set_up, setting_up_goes_on, setting_up_is_alone};
use sf_part::time::stamps_rise;
use sf_part::whole::children_are_apart;

/// The laws of parts on which tasks that go on alone rest. It does nothing.
pub(crate) fn run_laws()
    ensures { RunLaws }
{
    going_keeps_path();
    going_spends();
    going_stays_past_setup();
    past_setup_nothing_settles();
    forks_halve();
    ended_children_may_be_taken_back();
    fresh_parts_set_up();
    setting_up_goes_on();
    setting_up_is_alone();
    first_parts_are_safe();
    going_keeps_safe();
    forks_keep_safe();
    absent_never_comes();
    all_contents_are_there();
    shares_are_there();
    stamps_rise();
    first_parts_are_whole();
    forks_are_steps();
    parts_in_any_order();
    children_are_apart();
    events_alone_are_steps();
}
