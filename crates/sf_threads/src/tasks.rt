//! A task, from where it stands to its end.

ghost use Rattle.std.specs.Prelude.{◌≡◌, ◌<◌, [], true, false, IfErr, IfOk};
ghost use Rattle.sf_core.specs.Machine.Whole.{numbers};
ghost use Rattle.sf_core.specs.Program.ProgramView.{program_of};
ghost use Rattle.sf_own.specs.Checked.Accepted.{IsAccepted};
ghost use Rattle.sf_part.specs.Answers.{Answers};
ghost use Rattle.sf_part.specs.declared.local.Local.{Local};
ghost use Rattle.sf_part.specs.PartView.{part_of};
ghost use Rattle.sf_region.specs.Drained.{IsGoing};
ghost use Rattle.sf_threads.specs.Checked.Running.{HasEnded, HasMoved, IsRunning};
ghost use Rattle.sf_threads.specs.Stopping.{Says};

use crate::forks::fork;
use crate::run_laws::run_laws;
use crate::stop::Stop;
use crate::tries::enter;
use sf_base::ResId;
use sf_io::Gate;
use sf_part::{Local, PartFault};
use sf_precise::Arranged;
use sf_region::{Regions, Task};
use std::thread::Threads;

/// What the tasks of a run share: the program, the table of its resources, the gate that they pass,
/// and how often one tries a region in vain before the run stops.
#[derive(Drop)]
pub struct Crew<'c, 'p, G: Gate> {
    /// The program.
    pub program: &'p Arranged,
    /// The table of its resources.
    pub regions: &'c Regions<'p>,
    /// The gate.
    pub gate: &'c G,
    /// How often a task tries a region in vain before the run stops: at least once.
    pub waits: u32,
}

/// Runs a task to its end, with the tasks that it makes, the two of a parallel call on threads of
/// their own where such can be made. An `Err` says why it stopped before: `Steps` that it, or one that
/// it has made, would go on and has no unit left; `Waits` that one tried a region in vain as often as
/// may be; else memory ran out. Where two children stop, the left one's stop is told.
#[cycle(tasks)]
pub fn run_task<'c, 'p, R: Threads + Sync, G: Gate>(
    rt: &R,
    crew: &'c Crew<'c, 'p, G>,
    task: Task<'p>,
) -> Result<Task<'p>, Stop<'p>>
    requires accepted { IsAccepted (program_of crew.now.program.now.program) }
    requires running { IsRunning (program_of crew.now.program.now.program)
        crew.now.regions.now task }
    requires waits { 0 < crew.now.waits }
    ensures ended { IfOk result (HasEnded (program_of crew.now.program.now.program)
        crew.now.regions.now task.entry) }
    ensures stopped { IfErr result (Says crew.now.regions.now.1 crew.now.waits) }
{
    run_laws();
    let mut current = task;
    loop {
        let (next, has_ended) = turn(rt, crew, current)?;
        if has_ended {
            return Ok(next);
        }
        current = next;
    }
}

/// The next turn of a task, and whether there is none since it has ended.
#[cycle(tasks)]
fn turn<'c, 'p, R: Threads + Sync, G: Gate>(
    rt: &R,
    crew: &'c Crew<'c, 'p, G>,
    task: Task<'p>,
) -> Result<(Task<'p>, bool), Stop<'p>>
    requires accepted { IsAccepted (program_of crew.now.program.now.program) }
    requires running { IsRunning (program_of crew.now.program.now.program)
        crew.now.regions.now task }
    requires waits { 0 < crew.now.waits }
    ensures moved { IfOk result (λ t. t.1 ≡ false
        → HasMoved (program_of crew.now.program.now.program) crew.now.regions.now task.entry
        t.0) }
    ensures ended { IfOk result (λ t. t.1 ≡ true
        → HasEnded (program_of crew.now.program.now.program) crew.now.regions.now task.entry
        t.0) }
    ensures stopped { IfErr result (Says crew.now.regions.now.1 crew.now.waits) }
{
    run_laws();
    let mut task = task;
    match task.step(crew.program)? {
        Local::Moved => Ok((task, false)),
        Local::Done => Ok((task, true)),
        Local::AtRegion(r) => Ok((enter(crew, task, r)?, false)),
        Local::AtExit(r) => Ok((leave(crew, task, r)?, false)),
        Local::AtFork => Ok((fork(rt, crew, task)?, false)),
        Local::Spent => Err(spent(crew, task)),
        Local::AtInit => unreachable!(),
        Local::Absent(_) => unreachable!(),
    }
}

/// The stop of a task that would go on and has no unit left.
pub(crate) fn spent<'c, 'p, G: Gate>(crew: &'c Crew<'c, 'p, G>, task: Task<'p>) -> Stop<'p>
    requires running { IsRunning (program_of crew.now.program.now.program)
        crew.now.regions.now task }
    requires going { IsGoing (part_of task.1) }
    requires none { numbers (part_of task.1).part.supply ≡ [] }
    ensures { Says crew.now.regions.now.1 crew.now.waits result }
{
    let path = task.path();
    let given = task.given();
    task.tell_spent(crew.program, crew.regions);
    Stop::Steps(path, given)
}

/// Leaves the region of that resource, at whose exit the task stands.
fn leave<'c, 'p, G: Gate>(
    crew: &'c Crew<'c, 'p, G>,
    task: Task<'p>,
    r: ResId,
) -> Result<Task<'p>, Stop<'p>>
    requires accepted { IsAccepted (program_of crew.now.program.now.program) }
    requires running { IsRunning (program_of crew.now.program.now.program)
        crew.now.regions.now task }
    requires exit { Answers (program_of crew.now.program.now.program) (part_of task.1)
        (Local.AtExit r) }
    ensures moved { IfOk result (HasMoved (program_of crew.now.program.now.program)
        crew.now.regions.now task.entry) }
    ensures stopped { IfErr result (Says crew.now.regions.now.1 crew.now.waits) }
{
    run_laws();
    if !task.has_unit() {
        return Err(spent(crew, task));
    }
    let mut task = task;
    match task.leave_region(crew.program, crew.regions, r) {
        Ok(()) => Ok(task),
        Err(PartFault::OutOfMemory) => Err(Stop::OutOfMemory),
        Err(PartFault::NoFootprint) => unreachable!(),
    }
}
