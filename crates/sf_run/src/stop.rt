//! What a run may use.

/// What a run may use.
#[derive(Clone, Copy, Debug, PartialEq, Eq)]
pub struct Budget {
    /// How many units the entry's task is given: one for each of its events.
    pub steps: u64,
    /// How often a task tries a region in vain before the run stops.
    pub waits: u32,
}
