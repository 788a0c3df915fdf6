//! The outside: where files come from, where the answer goes, and where threads may be held up.
//!
//! - `shelf`: the trait of what hands out files; `file_shelf` the real ones, `mem_shelf` a stand-in
//! - `sink`: the trait of what takes the answer's bytes; `std_sink` standard output, `mem_sink` a
//!   stand-in
//! - `fault_plan`: at which calls a stand-in is to fail
//! - `failures`: the names of files that couldn't be read
//! - `gate`: points at which a thread may be held up; `turn_gate` a gate for tests, which does so
#![tactic(auto)]

mod failures;
mod fault_plan;
mod file_shelf;
mod gate;
mod mem_shelf;
mod mem_sink;
mod shelf;
mod sink;
mod std_sink;
mod turn_gate;

pub use file_shelf::FileShelf;
pub use gate::{Gate, OpenGate, Point};
pub use mem_shelf::{MemShelf, Request};
pub use mem_sink::MemSink;
pub use shelf::{FetchFault, Shelf};
pub use sink::{Sink, SinkFault, put_all};
pub use std_sink::StdSink;
pub use turn_gate::TurnGate;
