//! Answers to a try at a region.

use sf_part::Content;

/// What a try at a region comes to.
#[derive(Drop)]
pub enum Entry {
    /// The region's resource was free: its content, which the task may take in, or give back where
    /// the region's condition is false of it.
    Entered(Content),
    /// Another task has the resource, or tries it too.
    Held,
}
