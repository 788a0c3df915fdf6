//! Laws of lists of events. Each function does nothing; its contract is the law.

ghost use Rattle.sf_journal.specs.Checked.Laws.{LogsOfOneTaskKeepItsOrder, MergedCellsAreEmpty, MergedLogsReachTheSame, ReorderingsReachTheSame, RunsHaveJournals};

/// From a start from which nothing bad is reached: where a list of events reaches a configuration,
/// each cell that is made standing at its event's number, which is no location of the start's heap,
/// each list of the same events reaches it too in which each event still comes after those that it
/// depends on.
#[tactic(auto, using(crate::proofs::Reorderings::reorderings_reach_the_same))]
pub fn reorderings_reach_the_same()
    ensures { ReorderingsReachTheSame }
{}

/// From such a start: where a numbered list of events reaches a configuration, its units above each
/// location of the start's heap, the schedule that is merged from a log of it reaches it too.
#[tactic(auto, using(crate::proofs::MergedLogs::merged_logs_reach_the_same))]
pub fn merged_logs_reach_the_same()
    ensures { MergedLogsReachTheSame }
{}

/// In a schedule that is merged from a log each cell that is made stands at its event's number, with
/// all fields nil.
#[tactic(auto, using(crate::proofs::MergedLogs::merged_cells_are_empty))]
pub fn merged_cells_are_empty()
    ensures { MergedCellsAreEmpty }
{}

/// Each run has a log of its events, which can be merged.
#[tactic(auto, using(crate::proofs::Placed::runs_have_journals))]
pub fn runs_have_journals()
    ensures { RunsHaveJournals }
{}

/// Where all events are of one task, a schedule that is merged from a log has them in their order.
#[tactic(auto, using(crate::proofs::InOrder::logs_of_one_task_keep_its_order))]
pub fn logs_of_one_task_keep_its_order()
    ensures { LogsOfOneTaskKeepItsOrder }
{}
