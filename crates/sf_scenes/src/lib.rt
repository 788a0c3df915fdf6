//! Goals, configurations, starts and witnesses as scenes of a page: plain data that sf_page draws.
//!
//! - `texts`: terms, values, names and lines as texts of their own.
//! - `goals`: the scene of a goal.
//! - `cells`: cells as parts of a scene, the scene of a start, and that of a witness.
//! - `tasks`: the scene of a configuration.
//! - `events`: the events of a schedule as steps, each with the configuration after it.
//! - `ends`: the scene of the state in which a run has ended.
//!
//! Nothing is claimed of a scene, but that it is made without a fault.
#![tactic(auto)]

mod cells;
mod ends;
mod events;
mod goals;
mod tasks;
mod texts;

pub use cells::{start_scene, witness_of_goal};
pub use events::{EventSteps, event_steps};
pub use goals::goal_scene;
pub use texts::{lines_of, spot, text_of};
