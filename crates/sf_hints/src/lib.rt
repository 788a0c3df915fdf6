//! What helps a reader of a refusal: the line with a mark below it, what could stand there, and a hint
//! for the slips of those who are new to the language.
//!
//! - `source`: the lines of a text, and one of them with a mark below it.
//! - `slip`: the slips, and the hint to each.
//! - `words`: how tokens are written, and which word a name is nearly.
//! - `context`: what stands before a token, and inside of what it stands.
//! - `byte`: the slip behind a byte that begins no token.
//! - `grammar`: the slip behind a token that can't continue a file.
//! - `name`: the slip behind a name that nothing has.
//! - `expected`: what could stand at a place.
//!
//! Nothing is claimed of what is shown, but that it is found without a fault: it is drawing over what
//! the layers below say by their contracts.
#![tactic(auto)]

mod byte;
mod context;
mod expected;
mod grammar;
mod name;
mod slip;
mod source;
mod words;

pub use byte::slip_of_byte;
pub use expected::{Expected, expected_at};
pub use grammar::slip_of_token;
pub use name::{slip_of_name, slip_of_part};
pub use slip::{Slip, put_hint};
pub use source::{line_of, offset_of, put, put_line, put_number, put_source};
pub use words::spelling;
