//! What a run ends with.

ghost use Rattle.sf_turns.specs.Checked.Seats.{IsEntryAt};

use crate::turns::{AtTable, ended};
use sf_foot::Vars;
use sf_heap::Heap;
use sf_part::going::going_keeps_path;
use sf_part::{Content, Log};
use std::alloc::AllocError;

/// What a run ends with.
#[derive(Drop)]
pub struct End {
    /// The values of the entry's parameters.
    pub vars: Vars,
    /// Its cells.
    pub heap: Heap,
    /// The log.
    pub log: Log,
    /// What the table had, in file order.
    pub contents: Vec<Content>,
}

/// What a run ends with whose entry has ended, whose table is closed then. `None` where it hasn't
/// ended. An `Err` says that memory ran out.
pub fn closed<'p>(at: AtTable<'p>) -> Result<Option<End>, AllocError>
    requires { IsEntryAt at.p.now at.f at.regions at.task }
{
    going_keeps_path();
    let AtTable {
        p,
        f,
        regions,
        task,
    } = at;
    let Some(task) = ended(task, p, &regions)? else {
        return Ok(None);
    };
    let (part, contents, _) = task.close(p, regions);
    let (vars, heap, log) = part.into_end(&p.program, f)?;
    Ok(Some(End {
        vars,
        heap,
        log,
        contents,
    }))
}
