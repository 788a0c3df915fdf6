//! A page that shows proofs and runs: one self-contained file of HTML, drawn from plain data.
//!
//! - `model`: what a page shows, as plain data.
//! - `markup`: the elements, classes and attributes that a page is made of.
//! - `fixed`: what is the same in each page.
//! - `bytes`: how markup and escaped text are appended to bytes.
//! - `html`: the bytes of a page, to which nothing else can be added.
//! - `parts`, `spots`, `curves`, `heap`: a heap as a drawing, what stands in its boxes, where they
//!   are, how its arrows go.
//! - `scene`: what is shown of a step.
//! - `source`, `walk`: the source, and what can be walked.
//! - `whole`: the whole page.
//! - `laws`: what holds of escaped text and of every page.
#![tactic(auto)]

mod bytes;
mod curves;
mod fixed;
mod heap;
mod html;
pub mod laws;
mod markup;
mod model;
mod parts;
mod scene;
mod source;
mod spots;
mod walk;
mod whole;

pub use model::{
    Failure, Mark, Page, Part, Run, Scene, Shape, Span, Step, Task, Track, TrackKind, Value,
    Verdict, Witness,
};
pub use walk::STEPS_SHOWN;
pub use whole::make_page;
