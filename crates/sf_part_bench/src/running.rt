//! The runs of the programs.

ghost use Rattle.std.specs.Prelude.{IfOk, IfSome};
ghost use Rattle.sf_turns.specs.Checked.Seats.{IsEntryAt};

use crate::texts::{FORKS, VISITS, list_state, visits_state};
use sf_base::{ResId, Turn};
use sf_files::fitted;
use sf_turns::forks::{first_other_of, fork_at, join_at};
use sf_turns::parts::{Begun, begin_part, own_steps};
use sf_turns::turns::{AtTable, Comes, first_other, sit};
use std::alloc::{AllocError, Global};

/// How often a region is entered and left.
const VISITS_MADE: u64 = 10_000;

/// How often a task forks and joins its children.
const FORKS_MADE: u64 = 1_000;

/// The units that such a task has.
const UNITS: u64 = 1_000_000;

/// The turns of a visit: the test of the loop, the entry and the exit.
const VISIT: [Comes; 3] = [
    Comes::Moved,
    Comes::Entered(ResId(0)),
    Comes::Left(ResId(0)),
];

/// Those of the two children of a fork: each returns.
const RETURNS: [(Turn, Comes); 2] = [(Turn::Left, Comes::Moved), (Turn::Right, Comes::Moved)];

/// How many events of its own the task of a file's procedure makes, up to so many.
pub fn events(alloc: Global, file: &[u8], count: u64) -> Result<Option<u64>, AllocError> {
    let Some(p) = fitted(alloc, file) else {
        return Ok(None);
    };
    let Some(begun) = begin_part(alloc, &p, "run", b"", count, false)? else {
        return Ok(None);
    };
    let Begun { mut part, .. } = begun;
    match own_steps(&mut part, &p.program, count)? {
        Some((made, _)) => Ok(Some(made)),
        None => Ok(Some(count)),
    }
}

/// How often a task with so many cells enters a region and leaves it, up to 10,000 times. The
/// region's resource has ten cells.
pub fn visits(alloc: Global, cells: u32) -> Result<Option<u64>, AllocError> {
    let Some(p) = fitted(alloc, VISITS) else {
        return Ok(None);
    };
    let text = visits_state(alloc, cells)?;
    let Some(mut at) = sit(alloc, &p, "run", text.as_slice(), UNITS, false)? else {
        return Ok(None);
    };
    for made in 0..VISITS_MADE {
        let (next, other) = first_other(at, &VISIT)?;
        at = next;
        if other.is_some() {
            return Ok(Some(made));
        }
    }
    Ok(Some(VISITS_MADE))
}

/// How often a task with so many cells forks, lends all of them to the one child, and joins both, up
/// to 1,000 times.
pub fn forks(alloc: Global, cells: u32) -> Result<Option<u64>, AllocError> {
    let Some(p) = fitted(alloc, FORKS) else {
        return Ok(None);
    };
    let text = list_state(alloc, cells)?;
    let Some(mut at) = sit(alloc, &p, "run", text.as_slice(), UNITS, false)? else {
        return Ok(None);
    };
    for made in 0..FORKS_MADE {
        let Some(next) = forked(at)? else {
            return Ok(Some(made));
        };
        at = next;
    }
    Ok(Some(FORKS_MADE))
}

/// The test of the loop, the fork, the returns of both children, and their join.
fn forked<'p>(at: AtTable<'p>) -> Result<Option<AtTable<'p>>, AllocError>
    requires { IsEntryAt at.p.now at.f at.regions at.task }
    ensures { IfOk result (λ o. IfSome o (λ s. IsEntryAt s.p.now s.f s.regions s.task)) }
{
    let (at, _) = first_other(at, &[Comes::Moved])?;
    let Some(at) = fork_at(at)? else {
        return Ok(None);
    };
    let (at, _) = first_other_of(at, &RETURNS)?;
    join_at(at)
}
