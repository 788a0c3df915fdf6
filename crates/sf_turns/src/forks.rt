//! A task that forks, the turns of its two children, and their join.

ghost use Rattle.std.specs.Prelude.{IfOk, IfSome};
ghost use Rattle.sf_turns.specs.Checked.Parting.{HasParted, IsEntryParted, MayJoin};
ghost use Rattle.sf_turns.specs.Checked.Seats.{HasGone, IsEntryAt, RunsAt, Seen};

use crate::turns::{AtTable, Comes, ended, turn};
use sf_base::limits::TURNS;
use sf_base::{ProcId, Turn};
use sf_part::going::{children_go_on, going_composes, going_keeps_path, going_keeps_running};
use sf_part::{Local, PartFault};
use sf_precise::Arranged;
use sf_region::{Regions, Task};
use std::alloc::AllocError;

/// A task that waits at a parallel call, and its two children.
#[derive(Drop)]
pub struct Parted<'p> {
    /// The task that waits.
    pub waits: Task<'p>,
    /// The left child's task.
    pub left: Task<'p>,
    /// The right child's.
    pub right: Task<'p>,
}

/// Makes the parallel call that is the task's next step. `None` where none is, where the task has no
/// unit or no turn left for it, or not what its children need. An `Err` says that memory ran out.
pub fn fork<'p>(
    task: Task<'p>,
    p: &'p Arranged,
    regions: &Regions<'p>,
) -> Result<Option<Parted<'p>>, AllocError>
    requires { RunsAt p.now regions.now task }
    ensures { IfOk result (λ o. IfSome o (HasParted p.now regions.now task.entry)) }
{
    let (task, comes) = turn(task, p, regions)?;
    let Comes::Other(Local::AtFork) = comes else {
        return Ok(None);
    };
    if task.path().len() >= TURNS || !task.has_unit() {
        return Ok(None);
    }
    match task.fork(p, regions) {
        Ok((waits, left, right)) => Ok(Some(Parted { waits, left, right })),
        Err(PartFault::NoFootprint) => Ok(None),
        Err(PartFault::OutOfMemory) => Err(AllocError),
    }
}

/// Takes a turn of one of the two children. An `Err` says that memory ran out.
pub fn turn_of<'p>(
    parted: Parted<'p>,
    p: &'p Arranged,
    regions: &Regions<'p>,
    child: Turn,
) -> Result<(Parted<'p>, Comes), AllocError>
    requires { (k : Seen) × HasParted p.now regions.now k parted }
    ensures { IfOk result (λ t. (k : Seen) → HasParted p.now regions.now k parted.entry
        → HasParted p.now regions.now k t.0) }
{
    children_go_on();
    let Parted { waits, left, right } = parted;
    match child {
        Turn::Left => {
            let (left, comes) = turn(left, p, regions)?;
            Ok((Parted { waits, left, right }, comes))
        }
        Turn::Right => {
            let (right, comes) = turn(right, p, regions)?;
            Ok((Parted { waits, left, right }, comes))
        }
    }
}

/// The three tasks, if both children have ended.
fn both_ended<'p>(
    parted: Parted<'p>,
    p: &'p Arranged,
    regions: &Regions<'p>,
) -> Result<Option<Parted<'p>>, AllocError>
    requires { (k : Seen) × HasParted p.now regions.now k parted }
    ensures { IfOk result (λ o. IfSome o (λ f. (k : Seen)
        → HasParted p.now regions.now k parted.entry → MayJoin p.now regions.now k f)) }
{
    children_go_on();
    let Parted { waits, left, right } = parted;
    let Some(left) = ended(left, p, regions)? else {
        return Ok(None);
    };
    let Some(right) = ended(right, p, regions)? else {
        return Ok(None);
    };
    Ok(Some(Parted { waits, left, right }))
}

/// Joins two children that have ended, if one of them has a unit left for it.
fn join_ended<'p>(
    parted: Parted<'p>,
    p: &'p Arranged,
    regions: &Regions<'p>,
) -> Result<Option<Task<'p>>, AllocError>
    requires { (k : Seen) × MayJoin p.now regions.now k parted }
    ensures { IfOk result (λ o. IfSome o (λ t. (k : Seen)
        → MayJoin p.now regions.now k parted.entry → HasGone p.now regions.now k t)) }
{
    going_composes();
    going_keeps_running();
    let Parted { waits, left, right } = parted;
    if !left.has_unit_or(&right) {
        return Ok(None);
    }
    let joined = waits.join(p, regions, left, right)?;
    Ok(Some(joined))
}

/// Joins the two children. `None` where one hasn't ended, or neither has a unit left for it. An
/// `Err` says that memory ran out.
pub fn join<'p>(
    parted: Parted<'p>,
    p: &'p Arranged,
    regions: &Regions<'p>,
) -> Result<Option<Task<'p>>, AllocError>
    requires { (k : Seen) × HasParted p.now regions.now k parted }
    ensures { IfOk result (λ o. IfSome o (λ t. (k : Seen)
        → HasParted p.now regions.now k parted.entry → HasGone p.now regions.now k t)) }
{
    let Some(both) = both_ended(parted, p, regions)? else {
        return Ok(None);
    };
    let Some(task) = join_ended(both, p, regions)? else {
        return Ok(None);
    };
    Ok(Some(task))
}

/// A procedure that runs at a table, where its entry's task waits at a parallel call.
#[derive(Drop)]
pub struct AtFork<'p> {
    /// The program.
    pub p: &'p Arranged,
    /// The procedure.
    pub f: ProcId,
    /// The table.
    pub regions: Regions<'p>,
    /// The three tasks.
    pub parted: Parted<'p>,
}

/// Makes the parallel call that is the next step of the entry's task, as `fork` does.
pub fn fork_at<'p>(at: AtTable<'p>) -> Result<Option<AtFork<'p>>, AllocError>
    requires { IsEntryAt at.p.now at.f at.regions at.task }
    ensures { IfOk result (λ o. IfSome o (λ s. IsEntryParted s.p.now s.f s.regions s.parted)) }
{
    let AtTable {
        p,
        f,
        regions,
        task,
    } = at;
    let Some(parted) = fork(task, p, &regions)? else {
        return Ok(None);
    };
    Ok(Some(AtFork {
        p,
        f,
        regions,
        parted,
    }))
}

/// Takes turns of the two children, and gives the number of the first that doesn't come to what is
/// said, with the tasks after it, or after all of them. An `Err` says that memory ran out.
pub fn first_other_of<'p>(
    at: AtFork<'p>,
    turns: &[(Turn, Comes)],
) -> Result<(AtFork<'p>, Option<usize>), AllocError>
    requires { IsEntryParted at.p.now at.f at.regions at.parted }
    ensures { IfOk result (λ t. IsEntryParted t.0.p.now t.0.f t.0.regions t.0.parted) }
{
    let mut at = at;
    for (number, (child, expected)) in turns.iter().enumerate() {
        let (next, comes) = turn_at(at, *child)?;
        at = next;
        if comes != *expected {
            return Ok((at, Some(number)));
        }
    }
    Ok((at, None))
}

/// Takes a turn of one of the two children.
fn turn_at<'p>(at: AtFork<'p>, child: Turn) -> Result<(AtFork<'p>, Comes), AllocError>
    requires { IsEntryParted at.p.now at.f at.regions at.parted }
    ensures { IfOk result (λ t. IsEntryParted t.0.p.now t.0.f t.0.regions t.0.parted) }
{
    let AtFork {
        p,
        f,
        regions,
        parted,
    } = at;
    let (parted, comes) = turn_of(parted, p, &regions, child)?;
    let at = AtFork {
        p,
        f,
        regions,
        parted,
    };
    Ok((at, comes))
}

/// Joins the two children, as `join` does.
pub fn join_at<'p>(at: AtFork<'p>) -> Result<Option<AtTable<'p>>, AllocError>
    requires { IsEntryParted at.p.now at.f at.regions at.parted }
    ensures { IfOk result (λ o. IfSome o (λ s. IsEntryAt s.p.now s.f s.regions s.task)) }
{
    going_keeps_path();
    let AtFork {
        p,
        f,
        regions,
        parted,
    } = at;
    let Some(task) = join(parted, p, &regions)? else {
        return Ok(None);
    };
    Ok(Some(AtTable {
        p,
        f,
        regions,
        task,
    }))
}
