//! The tries of a task at a region.

ghost use Rattle.std.specs.Prelude.{◌≡◌, ◌≢◌, ◌<◌, [], true, false, IfErr, IfOk};
ghost use Rattle.sf_core.specs.Machine.Whole.{numbers};
ghost use Rattle.sf_core.specs.Program.ProgramView.{program_of};
ghost use Rattle.sf_own.specs.Checked.Accepted.{IsAccepted};
ghost use Rattle.sf_part.specs.Answers.{Answers};
ghost use Rattle.sf_part.specs.declared.local.Local.{Local};
ghost use Rattle.sf_part.specs.PartView.{part_of};
ghost use Rattle.sf_threads.specs.Checked.Trying.{HasTried, IsTrying};
ghost use Rattle.sf_threads.specs.Checked.Running.{HasMoved, IsRunning};
ghost use Rattle.sf_threads.specs.Stopping.{Says};

use crate::run_laws::run_laws;
use crate::stop::Stop;
use crate::tasks::{Crew, spent};
use crossbeam_utils::Backoff;
use sf_base::ResId;
use sf_io::{Gate, Point};
use sf_region::Task;

/// Tries the region of that resource, at which the task stands, until it is inside, or has missed as
/// often as may be. Between two tries it lets others go on.
pub(crate) fn enter<'c, 'p, G: Gate>(
    crew: &'c Crew<'c, 'p, G>,
    task: Task<'p>,
    r: ResId,
) -> Result<Task<'p>, Stop<'p>>
    requires accepted { IsAccepted (program_of crew.now.program.now.program) }
    requires running { IsRunning (program_of crew.now.program.now.program)
        crew.now.regions.now task }
    requires region { Answers (program_of crew.now.program.now.program) (part_of task.1)
        (Local.AtRegion r) }
    requires waits { 0 < crew.now.waits }
    ensures moved { IfOk result (HasMoved (program_of crew.now.program.now.program)
        crew.now.regions.now task.entry) }
    ensures stopped { IfErr result (Says crew.now.regions.now.1 crew.now.waits) }
{
    run_laws();
    if !task.has_unit() {
        return Err(spent(crew, task));
    }
    let backoff = Backoff::new();
    let mut trying = task;
    for count in 0..crew.waits {
        let (next, is_inside) = attempt(crew, trying, r)?;
        if is_inside {
            return Ok(next);
        }
        trying = next;
        backoff.snooze();
    }
    Err(Stop::Waits(trying.path(), r, trying.misses(crew.regions)))
}

/// One try, once the gate lets the task pass.
fn attempt<'c, 'p, G: Gate>(
    crew: &'c Crew<'c, 'p, G>,
    task: Task<'p>,
    r: ResId,
) -> Result<(Task<'p>, bool), Stop<'p>>
    requires accepted { IsAccepted (program_of crew.now.program.now.program) }
    requires trying { IsTrying (program_of crew.now.program.now.program) crew.now.regions.now r
        task }
    ensures inside { IfOk result (λ t. t.1 ≡ true
        → HasMoved (program_of crew.now.program.now.program) crew.now.regions.now task.entry
        t.0) }
    ensures missed { IfOk result (λ t. t.1 ≡ false
        → HasTried (program_of crew.now.program.now.program) crew.now.regions.now r task.entry
        t.0) }
    ensures stopped { IfErr result (Says crew.now.regions.now.1 crew.now.waits) }
{
    run_laws();
    crew.gate.pass(&Point::Region(task.path(), r));
    match task.try_region(crew.program, crew.regions, r) {
        Ok(tried) => Ok(tried),
        Err(_) => Err(Stop::OutOfMemory),
    }
}
