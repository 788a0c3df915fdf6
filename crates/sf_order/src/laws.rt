//! Laws of rankings. Each function does nothing; its contract is the law.

ghost use Rattle.sf_order.specs.Checked.Laws.{EachProgramIsOrdered, NoCircleIsReached, RankedHaveNoCycle, RanksRise, ResourcesAreListedOnce};

/// What has ranks has no cycle.
pub fn ranked_have_no_cycle()
    ensures { RankedHaveNoCycle }
{}

/// Ranks rise along each pair, so the check says yes to what `rank` gives.
pub fn ranks_rise()
    ensures { RanksRise }
{}

/// The resources of a program have ranks, or there is a first cycle, and not both; there is one
/// ranking, and one first cycle.
pub fn each_program_is_ordered()
    ensures { EachProgramIsOrdered }
{}

/// There is one list of resources by ranks that are below their count.
pub fn resources_are_listed_once()
    ensures { ResourcesAreListedOnce }
{}

/// Of a program whose conditions on variables are not broken, and of any ranks that rise along each
/// of its pairs: no configuration that is reached from a start is a circle of tasks that hold
/// resources and wait for one another.
pub fn no_circle_is_reached()
    ensures { NoCircleIsReached }
{}
