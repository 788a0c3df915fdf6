//! A file of so many procedures: what `demo` verifies, so that anybody can see at once that
//! everything works, and measure it.
#![tactic(auto)]

mod making;

pub use making::make;
