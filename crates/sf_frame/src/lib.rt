//! One code that steps: the frames of a task, and what its next event makes of them and of what it
//! shares with others. The machine of whole configurations stands on it.
//!
//! - `spot`: where the store keeps the values of variables.
//! - `store`, `rooms`: the values of variables by their slots, and rooms of slots that come up.
//! - `moving`: slots that move between stores.
//! - `frame`: frames. `todo`: what they have still to do. `stack`: the frames of a task.
//! - `shared`: the cells, the values of variables, and who holds the resources.
//! - `look`: where values are looked up. `values`: the values of expressions and tests.
//! - `entry`: the first frames of a run. `resources`, `first`: where a run begins. `ending`: the values
//!   of variables that it ends with. `calling`: the frames of callees, and their values.
//! - `following`: what a stack of frames does next.
//! - `stamp`: events. `refusal`: why the event of a command is none.
//! - `act`: what a command does, or why its event is none. `plan`: what that event would make.
//! - `effect`, `cells`, `applying`: what an event makes of what is shared.
//!
//! `specs/` says which frames of the definitions a `Stack` has (Frames), which common state a
//! `Shared` is (Commons, Spots, Stores), which event a `Stamp` is of (Stamps), and why an event is
//! none (Refusals).
#![tactic(auto)]

mod act;
mod applying;
mod calling;
mod cells;
mod effect;
mod ending;
mod entry;
mod first;
mod following;
mod frame;
mod look;
mod moving;
mod plan;
mod refusal;
mod resources;
mod rooms;
mod shared;
mod spot;
mod stack;
mod stamp;
mod store;
mod todo;
mod values;

pub use act::{Act, act_of};
pub use applying::{apply, edit};
pub use calling::Callee;
pub use effect::{Edit, Effect, Opening};
pub use ending::{own_values, parameter_count, shared_values};
pub use first::{first_shared, first_stack};
pub use following::{Next, next_of};
pub use frame::{Frame, Room, Way};
pub use look::{Both, Look};
pub use plan::{Plan, plan_command};
pub use refusal::Refusal;
pub use resources::variable_count;
pub use rooms::{close, open};
pub use shared::Shared;
pub use spot::Spot;
pub use stack::{Change, Stack};
pub use stamp::Stamp;
pub use store::Store;
pub use values::{evaluate, is_true};
