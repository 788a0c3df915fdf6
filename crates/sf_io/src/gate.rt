use sf_base::{ProcId, ResId, TaskPath};

/// A point that a thread has come to.
#[derive(Clone, Copy, Debug, PartialEq, Eq)]
pub enum Point {
    /// That task's start. The task is the child of a parallel call.
    Start(TaskPath),
    /// That task's next try at that resource's region.
    Region(TaskPath, ResId),
    /// That worker, counted from 0, has claimed that procedure.
    Worker(u32, ProcId),
}

/// Something that threads pass at certain points, and that may hold one up there for a while. No
/// contract depends on it.
pub trait Gate: Sync {
    /// Returns when the caller may go on.
    fn pass(&self, at: &Point);
}

/// The gate that holds nobody up.
#[derive(Clone, Copy, Debug)]
pub struct OpenGate;

impl Gate for OpenGate {
    fn pass(&self, _at: &Point) {}
}
