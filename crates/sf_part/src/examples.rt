//! Worked examples of the events of parts, each the contract of a function that does nothing.
ghost use Rattle.sf_part.specs.Checked.Examples.{
  AssigningIsPrivate,
  ContentsGetTheExitsStamp,
  EntersWithContent,
  EntriesComeAfterContents,
  EventsAreLogged,
  ExitsWithContent,
  FalseConditionsAreNotEntered,
  ForksInHalves,
  HalvesAreExact,
  JoinsKeepLogsInOrder,
  JoinsTakeTheLeftUnitsFirst,
  JustTheContentIsGiven,
  KeptVariablesAreNotGiven,
  LeftHalvesAreRoundedDown,
  MissingCellsAreNotGiven,
  MoreCellsAreNotGiven,
  OtherNumbersAreNotTaken,
  OthersVariablesAreNotWritten,
  SpentPartsHaveNoEvent,
};

/// An assignment is a private event, with the next unit as its number.
#[tactic(auto, using(crate::proofs::Worked::assigning_is_private))]
pub fn assigning_is_private()
    ensures { AssigningIsPrivate }
{}

/// It has no other number.
#[tactic(auto, using(crate::proofs::Worked::other_numbers_are_not_taken))]
pub fn other_numbers_are_not_taken()
    ensures { OtherNumbersAreNotTaken }
{}

/// A part without units has no private event.
#[tactic(auto, using(crate::proofs::Worked::spent_parts_have_no_event))]
pub fn spent_parts_have_no_event()
    ensures { SpentPartsHaveNoEvent }
{}

/// Nor has one that lacks the variable that is assigned.
#[tactic(auto, using(crate::proofs::Worked::others_variables_are_not_written))]
pub fn others_variables_are_not_written()
    ensures { OthersVariablesAreNotWritten }
{}

/// Where a log is kept, each event is in it.
#[tactic(auto, using(crate::proofs::Worked::events_are_logged))]
pub fn events_are_logged()
    ensures { EventsAreLogged }
{}

/// The entry of a region takes the content in, and its clock goes on from the content's stamp.
#[tactic(auto, using(crate::proofs::Worked::enters_with_content))]
pub fn enters_with_content()
    ensures { EntersWithContent }
{}

/// A region whose condition is false of the content isn't entered.
#[tactic(auto, using(crate::proofs::Worked::false_conditions_are_not_entered))]
pub fn false_conditions_are_not_entered()
    ensures { FalseConditionsAreNotEntered }
{}

/// The clock of an entry doesn't go on from an earlier one than the content's stamp.
#[tactic(auto, using(crate::proofs::Worked::entries_come_after_contents))]
pub fn entries_come_after_contents()
    ensures { EntriesComeAfterContents }
{}

/// The exit leaves the content behind, with its own stamp.
#[tactic(auto, using(crate::proofs::Worked::exits_with_content))]
pub fn exits_with_content()
    ensures { ExitsWithContent }
{}

/// The content has no earlier stamp.
#[tactic(auto, using(crate::proofs::Worked::contents_get_the_exits_stamp))]
pub fn contents_get_the_exits_stamp()
    ensures { ContentsGetTheExitsStamp }
{}

/// A fork takes the first of five units, and each child has two of the others.
#[tactic(auto, using(crate::proofs::Worked::forks_in_halves))]
pub fn forks_in_halves()
    ensures { ForksInHalves }
{}

/// The children of such a fork have no other units.
#[tactic(auto, using(crate::proofs::Worked::halves_are_exact))]
pub fn halves_are_exact()
    ensures { HalvesAreExact }
{}

/// Of four units the left child has one, and the right one two.
#[tactic(auto, using(crate::proofs::Worked::left_halves_are_rounded_down))]
pub fn left_halves_are_rounded_down()
    ensures { LeftHalvesAreRoundedDown }
{}

/// A join takes its unit from what the left child has left.
#[tactic(auto, using(crate::proofs::Worked::joins_take_the_left_units_first))]
pub fn joins_take_the_left_units_first()
    ensures { JoinsTakeTheLeftUnitsFirst }
{}

/// It comes after all that its children did, and keeps their logs, the left one's first.
#[tactic(auto, using(crate::proofs::Worked::joins_keep_logs_in_order))]
pub fn joins_keep_logs_in_order()
    ensures { JoinsKeepLogsInOrder }
{}

/// A resource's variable with the cell of its invariant is just its content.
#[tactic(auto, using(crate::proofs::Worked::just_the_content_is_given))]
pub fn just_the_content_is_given()
    ensures { JustTheContentIsGiven }
{}

/// Without the cell it isn't.
#[tactic(auto, using(crate::proofs::Worked::missing_cells_are_not_given))]
pub fn missing_cells_are_not_given()
    ensures { MissingCellsAreNotGiven }
{}

/// Nor is it with another cell beside it.
#[tactic(auto, using(crate::proofs::Worked::more_cells_are_not_given))]
pub fn more_cells_are_not_given()
    ensures { MoreCellsAreNotGiven }
{}

/// Nor without the variable.
#[tactic(auto, using(crate::proofs::Worked::kept_variables_are_not_given))]
pub fn kept_variables_are_not_given()
    ensures { KeptVariablesAreNotGiven }
{}
