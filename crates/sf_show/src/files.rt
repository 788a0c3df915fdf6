//! The files that a run is of.

use crate::order::RunWords;
use crate::reply::{Unsaid, fetch_up_to};
use sf_base::limits::STATE_BYTES;
use sf_io::Shelf;
use sf_replay::limits::SCHEDULE_BYTES;
use std::alloc::Global;

/// The files that a run is of, beside the program's.
#[derive(Drop)]
pub struct Files {
    /// The text of the state.
    pub state: Vec<u8>,
    /// The text of the schedule, if one is given.
    pub schedule: Option<Vec<u8>>,
}

/// The text of a schedule, if one is named.
fn fetch_schedule<S: Shelf>(
    alloc: Global,
    name: Option<&str>,
    shelf: &mut S,
) -> Result<Option<Vec<u8>>, Unsaid> {
    match name {
        Some(name) => {
            let text = fetch_up_to(alloc, name, SCHEDULE_BYTES, shelf)?;
            Ok(Some(text))
        }
        None => Ok(None),
    }
}

/// The files that a run is of.
pub fn fetch_run<S: Shelf>(
    alloc: Global,
    words: RunWords<'_>,
    shelf: &mut S,
) -> Result<Files, Unsaid> {
    let state = fetch_up_to(alloc, words.state, STATE_BYTES, shelf)?;
    let schedule = fetch_schedule(alloc, words.schedule, shelf)?;
    Ok(Files { state, schedule })
}
