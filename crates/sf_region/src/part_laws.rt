//! What the table needs to know of parts, and of what tasks have used.

ghost use Rattle.sf_region.specs.Checked.PartLaws.{PartLaws};

use sf_part::laws::{
    entries_are_steps, exits_are_steps, forks_are_steps, joins_are_steps, parts_in_any_order,
    private_events_are_steps,
};
use sf_part::whole::{
    children_are_apart, conditions_are_seen_alike, contents_are_apart, parts_hold,
    running_entries_are_alone, running_parts_run, waiting_parts_wait,
};
use sf_spend::{
    counted_lists_are_numbered, counts_are_unique, counts_begin_anew, counts_divide,
    counts_stay_balanced, numbered_lists_are_counted, spending_lists_are_counted,
};

/// The laws on which the table stands. It does nothing.
pub(crate) fn part_laws()
    ensures { PartLaws }
{
    parts_in_any_order();
    private_events_are_steps();
    entries_are_steps();
    exits_are_steps();
    forks_are_steps();
    joins_are_steps();
    running_parts_run();
    waiting_parts_wait();
    running_entries_are_alone();
    parts_hold();
    conditions_are_seen_alike();
    contents_are_apart();
    children_are_apart();
    numbered_lists_are_counted();
    counted_lists_are_numbered();
    spending_lists_are_counted();
    counts_are_unique();
    counts_divide();
    counts_stay_balanced();
    counts_begin_anew();
}
