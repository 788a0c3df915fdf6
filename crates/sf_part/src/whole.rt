//! What a part tells of the whole that it belongs to. Each function is a law, and does nothing.

ghost use Rattle.sf_part.specs.Checked.LawsOfWhole.{
  ChildrenAreApart,
  ConditionsAreSeenAlike,
  ContentsAreApart,
  HeldAreOfTheProgram,
  PartsHold,
  RegionsAreOutside,
  RunningEntriesAreAlone,
  RunningPartsRun,
  WaitingPartsWait,
};

/// The task of a part that runs runs the part's frames.
#[tactic(auto, using(crate::proofs::Seen::running_parts_run))]
pub fn running_parts_run()
    ensures { RunningPartsRun }
{}

/// The task of a part that waits waits with the part's frames.
#[tactic(auto, using(crate::proofs::Seen::waiting_parts_wait))]
pub fn waiting_parts_wait()
    ensures { WaitingPartsWait }
{}

/// Beside the part of the entry's task, where that runs, there is no other.
#[tactic(auto, using(crate::proofs::Seen::running_entries_are_alone))]
pub fn running_entries_are_alone()
    ensures { RunningEntriesAreAlone }
{}

/// What a part holds is held by its task.
#[tactic(auto, using(crate::proofs::Seen::parts_hold))]
pub fn parts_hold()
    ensures { PartsHold }
{}

/// A task at a region isn't inside of one of its resource, where the program meets the conditions on
/// variables: its part doesn't hold the resource.
#[tactic(auto, using(crate::proofs::Outside::regions_are_outside))]
pub fn regions_are_outside()
    ensures { RegionsAreOutside }
{}

/// A condition whose variables a part with a content in hand has is true there exactly where it is
/// true of the whole.
#[tactic(auto, using(crate::proofs::Seen::conditions_are_seen_alike))]
pub fn conditions_are_seen_alike()
    ensures { ConditionsAreSeenAlike }
{}

/// Nothing but resources of the program is held in any configuration that a start reaches.
#[tactic(auto, using(crate::proofs::Seen::held_are_of_the_program))]
pub fn held_are_of_the_program()
    ensures { HeldAreOfTheProgram }
{}

/// A part and a content of one whole have nothing in common, so the part may take the content in;
/// and no unit of the part is a location of the content or the number of a slot of it.
#[tactic(auto, using(crate::proofs::Seen::contents_are_apart))]
pub fn contents_are_apart()
    ensures { ContentsAreApart }
{}

/// The parts of a parent and of its children in one whole have nothing in common, so the parent may
/// take all in.
#[tactic(auto, using(crate::proofs::Seen::children_are_apart))]
pub fn children_are_apart()
    ensures { ChildrenAreApart }
{}
