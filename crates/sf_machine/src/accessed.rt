//! The things that a step reads and writes.

use sf_base::Thing;

/// The slots and locations that a step reads, and those that it writes.
#[derive(Debug, Drop)]
pub struct Accesses {
    /// Those that it reads.
    pub reads: Vec<Thing>,
    /// Those that it writes.
    pub writes: Vec<Thing>,
}
