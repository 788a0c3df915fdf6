//! Clocks, stamps and logs: an event is later than all that led to it, and a part stays in time: no
//! stamp of its log is above its clock, and its clock leaves room for its units. Each function is a
//! law, and does nothing.

ghost use Rattle.sf_part.specs.Checked.LawsOfTime.{
  EntriesStayInTime,
  ExitsStayInTime,
  ForksStayInTime,
  JoinsStayInTime,
  PrivateEventsStayInTime,
  SettlingStaysInTime,
  StampsRise,
};

/// The clock after an event, which is its stamp, is later than all that led to it: than that before
/// it, the stamp of the content that it takes in, the clocks of the children that it joins.
#[tactic(auto, using(crate::proofs::Times::stamps_rise))]
pub fn stamps_rise()
    ensures { StampsRise }
{}

/// A private event keeps a part in time.
#[tactic(auto, using(crate::proofs::Times::private_events_stay_in_time))]
pub fn private_events_stay_in_time()
    ensures { PrivateEventsStayInTime }
{}

/// So does an entry, where the content's stamp leaves room for the units.
#[tactic(auto, using(crate::proofs::Times::entries_stay_in_time))]
pub fn entries_stay_in_time()
    ensures { EntriesStayInTime }
{}

/// So does an exit.
#[tactic(auto, using(crate::proofs::Times::exits_stay_in_time))]
pub fn exits_stay_in_time()
    ensures { ExitsStayInTime }
{}

/// So does the return that sets the resources up.
#[tactic(auto, using(crate::proofs::Times::settling_stays_in_time))]
pub fn settling_stays_in_time()
    ensures { SettlingStaysInTime }
{}

/// So does a fork, whose children are in time too.
#[tactic(auto, using(crate::proofs::Times::forks_stay_in_time))]
pub fn forks_stay_in_time()
    ensures { ForksStayInTime }
{}

/// So does a join, where the children's clocks leave room for the units that they hand back.
#[tactic(auto, using(crate::proofs::Times::joins_stay_in_time))]
pub fn joins_stay_in_time()
    ensures { JoinsStayInTime }
{}
