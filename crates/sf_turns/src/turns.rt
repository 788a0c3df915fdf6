//! A task at a table, turn by turn.

ghost use Rattle.std.specs.Prelude.{◌≡◌, ◌≢◌, [], IfOk, IfSome};
ghost use Rattle.sf_core.specs.Machine.Whole.{numbers};
ghost use Rattle.sf_core.specs.Program.ProgramView.{program_of};
ghost use Rattle.sf_part.specs.Answers.{Answers};
ghost use Rattle.sf_part.specs.declared.local.Local.{Local as L};
ghost use Rattle.sf_part.specs.PartView.{part_of};
ghost use Rattle.sf_turns.specs.Checked.Seats.{HasEnded, HasGone, IsEntryAt, RunsAt};

use sf_base::limits::STEPS;
use sf_base::{ProcId, ResId};
use sf_files::{Entered, start_of};
use sf_part::going::{going_composes, going_keeps_path, going_keeps_running};
use sf_part::{Local, PartFault};
use sf_precise::Arranged;
use sf_region::{Regions, Task};
use std::alloc::{AllocError, Global};
use std::thread::yield_now;

/// A procedure that runs, at a table of the resources of its program.
#[derive(Drop)]
pub struct AtTable<'p> {
    /// The program.
    pub p: &'p Arranged,
    /// The procedure.
    pub f: ProcId,
    /// The table.
    pub regions: Regions<'p>,
    /// The entry's task.
    pub task: Task<'p>,
}

/// What a turn of a task comes to.
#[derive(Clone, Copy, Debug, PartialEq, Eq)]
pub enum Comes {
    /// A step of its own.
    Moved,
    /// It is inside of a region of that resource.
    Entered(ResId),
    /// It has missed at one, so often since its last event.
    Missed(ResId, u32),
    /// It has left one.
    Left(ResId),
    /// At the exit from one it has not what it is to leave.
    Lacking(ResId),
    /// There is no further step of it alone at a table.
    Other(Local),
}

/// The procedure of that name, begun from what the text gives, with so many units, at a table of the
/// resources, if it begins without setting them up. It keeps a log where it is to. An `Err` says that
/// memory ran out.
pub fn sit<'p>(
    alloc: Global,
    p: &'p Arranged,
    name: &str,
    text: &[u8],
    steps: u64,
    keep: bool,
) -> Result<Option<AtTable<'p>>, AllocError>
    ensures { IfOk result (λ o. IfSome o (λ s. IsEntryAt s.p.now s.f s.regions s.task)) }
{
    let Some(entered) = start_of(alloc, p, name, text) else {
        return Ok(None);
    };
    let Entered { f, start } = entered;
    if start.fresh || steps == 0 || steps > STEPS {
        return Ok(None);
    }
    let (regions, task) = Task::first(alloc, p, f, start, steps, keep)?;
    Ok(Some(AtTable {
        p,
        f,
        regions,
        task,
    }))
}

/// The next turn of a task at its table. An `Err` says that memory ran out.
pub fn turn<'p>(
    task: Task<'p>,
    p: &'p Arranged,
    regions: &Regions<'p>,
) -> Result<(Task<'p>, Comes), AllocError>
    requires { RunsAt p.now regions.now task }
    ensures gone { IfOk result (λ t. HasGone p.now regions.now task.entry t.0) }
    ensures answers { IfOk result (λ t. (answer : L) → t.1 ≡ Comes.Other answer
        → Answers (program_of p.now.program) (part_of t.0.1) answer) }
{
    going_keeps_running();
    let mut task = task;
    match task.step(p)? {
        Local::Moved => Ok((task, Comes::Moved)),
        Local::AtRegion(r) if task.has_unit() => enter(task, p, regions, r),
        Local::AtExit(r) if task.has_unit() => leave(task, p, regions, r),
        answer => Ok((task, Comes::Other(answer))),
    }
}

/// A try at the region of that resource, at which the task stands.
fn enter<'p>(
    task: Task<'p>,
    p: &'p Arranged,
    regions: &Regions<'p>,
    r: ResId,
) -> Result<(Task<'p>, Comes), AllocError>
    requires runs { RunsAt p.now regions.now task }
    requires region { Answers (program_of p.now.program) (part_of task.1) (Local.AtRegion r) }
    requires unit { numbers (part_of task.1).part.supply ≢ [] }
    ensures gone { IfOk result (λ t. HasGone p.now regions.now task.entry t.0) }
    ensures meets { IfOk result (λ t. (answer : L) → t.1 ≡ Comes.Other answer → ⊥) }
{
    going_keeps_running();
    let (task, inside) = task.try_region(p, regions, r)?;
    if inside {
        return Ok((task, Comes::Entered(r)));
    }
    let misses = task.misses(regions);
    let comes = Comes::Missed(misses.resource(), misses.count());
    Ok((task, comes))
}

/// The exit from a region of that resource, at which the task stands.
fn leave<'p>(
    task: Task<'p>,
    p: &'p Arranged,
    regions: &Regions<'p>,
    r: ResId,
) -> Result<(Task<'p>, Comes), AllocError>
    requires runs { RunsAt p.now regions.now task }
    requires exit { Answers (program_of p.now.program) (part_of task.1) (Local.AtExit r) }
    requires unit { numbers (part_of task.1).part.supply ≢ [] }
    ensures gone { IfOk result (λ t. HasGone p.now regions.now task.entry t.0) }
    ensures meets { IfOk result (λ t. (answer : L) → t.1 ≡ Comes.Other answer → ⊥) }
{
    going_keeps_running();
    let mut task = task;
    match task.leave_region(p, regions, r) {
        Ok(()) => Ok((task, Comes::Left(r))),
        Err(PartFault::NoFootprint) => Ok((task, Comes::Lacking(r))),
        Err(PartFault::OutOfMemory) => Err(AllocError),
    }
}

/// The task, if it has ended. An `Err` says that memory ran out.
pub fn ended<'p>(
    task: Task<'p>,
    p: &'p Arranged,
    regions: &Regions<'p>,
) -> Result<Option<Task<'p>>, AllocError>
    requires { RunsAt p.now regions.now task }
    ensures { IfOk result (λ o. IfSome o (HasEnded p.now regions.now task.entry)) }
{
    let (task, comes) = turn(task, p, regions)?;
    match comes {
        Comes::Other(Local::Done) => Ok(Some(task)),
        _ => Ok(None),
    }
}

/// Takes turns, and gives the number of the first that doesn't come to what is said, with the task
/// after it, or after all of them. An `Err` says that memory ran out.
pub fn first_unlike<'p>(
    task: Task<'p>,
    p: &'p Arranged,
    regions: &Regions<'p>,
    turns: &[Comes],
) -> Result<(Task<'p>, Option<usize>), AllocError>
    requires { RunsAt p.now regions.now task }
    ensures { IfOk result (λ t. HasGone p.now regions.now task.entry t.0) }
{
    going_composes();
    let mut task = task;
    for (number, expected) in turns.iter().enumerate() {
        let (next, comes) = turn(task, p, regions)?;
        task = next;
        if comes != *expected {
            return Ok((task, Some(number)));
        }
    }
    Ok((task, None))
}

/// The same of the entry's task.
pub fn first_other<'p>(
    at: AtTable<'p>,
    turns: &[Comes],
) -> Result<(AtTable<'p>, Option<usize>), AllocError>
    requires { IsEntryAt at.p.now at.f at.regions at.task }
    ensures { IfOk result (λ t. IsEntryAt t.0.p.now t.0.f t.0.regions t.0.task) }
{
    going_keeps_path();
    let AtTable {
        p,
        f,
        regions,
        task,
    } = at;
    let (task, other) = first_unlike(task, p, &regions, turns)?;
    let at = AtTable {
        p,
        f,
        regions,
        task,
    };
    Ok((at, other))
}

/// After a miss, lets other threads go on.
fn let_others(comes: Comes) {
    if let Comes::Missed(_, _) = comes {
        yield_now();
    }
}

/// Takes turns, at most so many, until there is no further step of the task alone at the table. After
/// a miss others may go on. An `Err` says that memory ran out.
pub fn to_halt<'p>(
    task: Task<'p>,
    p: &'p Arranged,
    regions: &Regions<'p>,
    most: u64,
) -> Result<Task<'p>, AllocError>
    requires { RunsAt p.now regions.now task }
    ensures { IfOk result (HasGone p.now regions.now task.entry) }
{
    going_composes();
    let mut task = task;
    for _ in 0..most {
        let (next, comes) = turn(task, p, regions)?;
        task = next;
        if let Comes::Other(_) = comes {
            return Ok(task);
        }
        let_others(comes);
    }
    Ok(task)
}
