//! The text of a proof, both ways.
//!
//! - `text`: writing: a line for each tag, after the line of the verdict.
//! - `reading`: line by line.
//! - `words`: the words of a line, and what they say.
//! - `entry`: what a line says.
//! - `laws`: what holds of all texts.
//! - `lined`: tags with the numbers of their lines.
//! - `fault`: why bytes are no text of a proof.
#![tactic(auto)]

mod entry;
mod fault;
pub mod laws;
mod lined;
mod reading;
mod text;
mod words;

pub use fault::ProofFault;
pub use lined::Lined;
pub use reading::read;
pub use text::{proof_text, put, put_term};
