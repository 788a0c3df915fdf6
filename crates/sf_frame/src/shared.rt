//! What tasks share.

use crate::store::Store;
use sf_base::TaskPath;
use sf_heap::Heap;
use std::alloc::Global;
use std::collections::BTreeMap;

/// What tasks share: the cells, the values of the variables, and for each resource that is held the
/// task that holds it.
#[derive(Drop)]
pub struct Shared {
    /// The cells.
    pub heap: Heap,
    /// The values of the variables.
    pub store: Store,
    /// Who holds a resource, by its number.
    pub held: BTreeMap<u32, TaskPath>,
    /// Where new cells and frames come from.
    pub alloc: Global,
}
