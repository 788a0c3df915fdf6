//! Configurations.

use crate::task::Task;
use sf_frame::Shared;
use std::collections::BTreeSet;

/// A configuration of a running program: what all tasks share, the numbers of the events so far,
/// and the tree of the tasks, whose frames refer to the program's commands.
#[derive(Drop)]
pub struct Config<'p> {
    pub(crate) common: Shared,
    pub(crate) used: BTreeSet<u64>,
    pub(crate) tasks: Task<'p>,
}
