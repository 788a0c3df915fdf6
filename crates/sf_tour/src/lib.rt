//! Runs, drawn: an interleaving of a procedure from a start, and the configurations along it.
//!
//! - `naming`: what tasks, variables and values are called.
//! - `making`: events that are made, of a configuration that goes on.
//! - `driving`: an interleaving of a run, as the text of a schedule.
//! - `sight`: what comes of a schedule.
//! - `telling`: a configuration as text.
//! - `ending`: what is said of what is found at the end of a schedule.
//! - `touring`: the configurations along the events of a schedule.
//! - `walk`: what the conjuncts of an assertion take of a state's cells.
//! - `meeting`: why an assertion isn't met by a state.
//!
//! Configurations, and which events they have, are sf_machine's; what is bad of them is said by
//! sf_replay. Of the texts nothing is claimed, but that they are made without a fault.
#![tactic(auto)]

mod driving;
mod ending;
mod making;
mod meeting;
mod naming;
mod sight;
mod telling;
mod touring;
mod walk;

pub use driving::{Driven, Outcome, drive};
pub use ending::Source;
pub use making::{make_events, make_given};
pub use meeting::put_unmet;
pub use naming::{names_of, procedure_around, put_task};
pub use sight::{Sight, Tour, tour_of};
pub use touring::put_tour;
