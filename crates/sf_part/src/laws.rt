//! The law of parts: from parts and contents that are a configuration, an event of one part is a
//! step of the machine, and they are a configuration again, whatever the other parts and contents
//! are. Each function is a law: calling it gives its fact to the caller's proof, and does nothing.

ghost use Rattle.sf_part.specs.Checked.LawsOfGiving.{GivenContentsAreOne, LentSharesAreOne};
ghost use Rattle.sf_part.specs.Checked.Laws.{
  ContentsInAnyOrder,
  EntriesAreSteps,
  EventsOfPartsDiffer,
  ExitsAreSteps,
  FirstPartsAreWhole,
  ForksAreSteps,
  JoinsAreSteps,
  LeadsCompose,
  NewCellsAreAbsent,
  PartsInAnyOrder,
  PrivateEventsAreSteps,
  SettlingIsAStep,
};

/// The order of the parts doesn't matter: each may come first.
#[tactic(auto, using(crate::proofs::Law::parts_in_any_order))]
pub fn parts_in_any_order()
    ensures { PartsInAnyOrder }
{}

/// Nor does that of the contents.
#[tactic(auto, using(crate::proofs::Law::contents_in_any_order))]
pub fn contents_in_any_order()
    ensures { ContentsInAnyOrder }
{}

/// Private events of a part, which are all but regions, parallel calls, joins and the return of the
/// procedure that sets the resources up, are steps of every whole that the part belongs to.
#[tactic(auto, using(crate::proofs::Law::private_events_are_steps))]
pub fn private_events_are_steps()
    ensures { PrivateEventsAreSteps }
{}

/// The entry of a region is a step of every whole that the part and the content belong to: the
/// part has the content from then on.
#[tactic(auto, using(crate::proofs::Law::entries_are_steps))]
pub fn entries_are_steps()
    ensures { EntriesAreSteps }
{}

/// The exit from a region is one: the content is left behind, among the others.
#[tactic(auto, using(crate::proofs::Law::exits_are_steps))]
pub fn exits_are_steps()
    ensures { ExitsAreSteps }
{}

/// A parallel call is one: the two children's parts are there from then on.
#[tactic(auto, using(crate::proofs::Law::forks_are_steps))]
pub fn forks_are_steps()
    ensures { ForksAreSteps }
{}

/// The join of two children that have ended is one: their parts are no more.
#[tactic(auto, using(crate::proofs::Law::joins_are_steps))]
pub fn joins_are_steps()
    ensures { JoinsAreSteps }
{}

/// The return of the procedure that sets the resources up is one, where nothing but resources of
/// the program is held: the content of each is left behind.
#[tactic(auto, using(crate::proofs::Law::settling_is_a_step))]
pub fn settling_is_a_step()
    ensures { SettlingIsAStep }
{}

/// Private events of two parts never have one number, whatever comes between them: no counter is
/// shared.
#[tactic(auto, using(crate::proofs::Law::events_of_parts_differ))]
pub fn events_of_parts_differ()
    ensures { EventsOfPartsDiffer }
{}

/// A cell that an event of a part makes is at a location that is absent from the whole heap.
#[tactic(auto, using(crate::proofs::Law::new_cells_are_absent))]
pub fn new_cells_are_absent()
    ensures { NewCellsAreAbsent }
{}

/// What events lead to more events may lead on from: both together lead there.
#[tactic(auto, using(crate::proofs::Law::leads_compose))]
pub fn leads_compose()
    ensures { LeadsCompose }
{}

/// The part with which a procedure starts, and the contents beside it, are the configuration in
/// which it starts, settled or fresh; and the part has all the units.
#[tactic(auto, using(crate::proofs::Law::first_parts_are_whole))]
pub fn first_parts_are_whole()
    ensures { FirstPartsAreWhole }
{}

/// What a part gives up is determined: of one part there is one way to give up just what the
/// invariant of a resource asks for, where the invariants are determined.
#[tactic(auto, using(crate::proofs::Giving::given_contents_are_one))]
pub fn given_contents_are_one()
    ensures { GivenContentsAreOne }
{}

/// What a part lends to the two children of a fork is determined too: of what it has then there is
/// one way to lend just what their preconditions ask for and their variables, where the
/// preconditions are determined.
#[tactic(auto, using(crate::proofs::Lending::lent_shares_are_one))]
pub fn lent_shares_are_one()
    ensures { LentSharesAreOne }
{}
