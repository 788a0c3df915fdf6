//! The parallel calls of a task.

ghost use Rattle.std.specs.Prelude.{◌≡◌, ◌<◌, ◌++◌, [], Err, IfErr, IfOk, Ok};
ghost use Rattle.std.specs.Thread.{IsSync};
ghost use Rattle.sf_core.specs.Machine.Whole.{numbers};
ghost use Rattle.sf_core.specs.Program.ProgramView.{program_of};
ghost use Rattle.sf_own.specs.Checked.Accepted.{IsAccepted};
ghost use Rattle.sf_part.specs.Answers.{Answers};
ghost use Rattle.sf_part.specs.declared.local.Local.{Local};
ghost use Rattle.sf_part.specs.PartView.{part_of};
ghost use Rattle.sf_threads.specs.Checked.Parting.{HasParted, MayMeet};
ghost use Rattle.sf_threads.specs.Checked.Running.{HasEnded, HasMoved, IsRunning, Seen};
ghost use Rattle.sf_threads.specs.Stopping.{Says};

use crate::crossing::{receipts_are_sent, tables_are_shared, tasks_are_sent};
use crate::run_laws::run_laws;
use crate::stop::Stop;
use crate::tasks::{Crew, run_task, spent};
use sf_crossing::arranged_programs_are_shared;
use sf_io::{Gate, Point};
use sf_part::PartFault;
use sf_region::Task;
use std::thread::{Threads, join};

/// A task that waits, and its two children.
#[derive(Drop)]
pub(crate) struct Parted<'p> {
    pub(crate) waits: Task<'p>,
    pub(crate) left: Task<'p>,
    pub(crate) right: Task<'p>,
}

/// A child of a parallel call, with what the tasks of the run share.
#[derive(Drop)]
pub(crate) struct Child<'c, 'p, G: Gate> {
    crew: &'c Crew<'c, 'p, G>,
    task: Task<'p>,
}

/// Makes the parallel call at which the task stands, lets its two children run to their ends, each on
/// a thread of its own where one can be made, and joins them.
#[cycle(tasks)]
pub(crate) fn fork<'c, 'p, R: Threads + Sync, G: Gate>(
    rt: &R,
    crew: &'c Crew<'c, 'p, G>,
    task: Task<'p>,
) -> Result<Task<'p>, Stop<'p>>
    requires accepted { IsAccepted (program_of crew.now.program.now.program) }
    requires running { IsRunning (program_of crew.now.program.now.program)
        crew.now.regions.now task }
    requires at { Answers (program_of crew.now.program.now.program) (part_of task.1)
        Local.AtFork }
    requires waits { 0 < crew.now.waits }
    ensures moved { IfOk result (HasMoved (program_of crew.now.program.now.program)
        crew.now.regions.now task.entry) }
    ensures stopped { IfErr result (Says crew.now.regions.now.1 crew.now.waits) }
{
    run_laws();
    arranged_programs_are_shared();
    tables_are_shared();
    tasks_are_sent();
    receipts_are_sent();
    let Parted { waits, left, right } = part(crew, task)?;
    let one = Child { crew, task: left };
    let two = Child { crew, task: right };
    let (left, right) = join(
        rt,
        move ||
            requires { IsSync R.row × (0 < one.crew.now.waits)
                × IsAccepted (program_of one.crew.now.program.now.program)
                × IsRunning (program_of one.crew.now.program.now.program)
                one.crew.now.regions.now one.task }
            ensures ended { IfOk result (HasEnded
                (program_of one.entry.crew.now.program.now.program)
                one.entry.crew.now.regions.now one.entry.task) }
            ensures stopped { IfErr result (Says one.entry.crew.now.regions.now.1
                one.entry.crew.now.waits) }
        { run_child(rt, one) },
        move ||
            requires { IsSync R.row × (0 < two.crew.now.waits)
                × IsAccepted (program_of two.crew.now.program.now.program)
                × IsRunning (program_of two.crew.now.program.now.program)
                two.crew.now.regions.now two.task }
            ensures ended { IfOk result (HasEnded
                (program_of two.entry.crew.now.program.now.program)
                two.entry.crew.now.regions.now two.entry.task) }
            ensures stopped { IfErr result (Says two.entry.crew.now.regions.now.1
                two.entry.crew.now.waits) }
        { run_child(rt, two) },
    );
    let (left, right) = both(crew, left, right)?;
    meet(crew, waits, left, right)
}

/// The parallel call itself.
fn part<'c, 'p, G: Gate>(crew: &'c Crew<'c, 'p, G>, task: Task<'p>) -> Result<Parted<'p>, Stop<'p>>
    requires accepted { IsAccepted (program_of crew.now.program.now.program) }
    requires running { IsRunning (program_of crew.now.program.now.program)
        crew.now.regions.now task }
    requires at { Answers (program_of crew.now.program.now.program) (part_of task.1)
        Local.AtFork }
    ensures parted { IfOk result (HasParted (program_of crew.now.program.now.program)
        crew.now.regions.now task.entry) }
    ensures stopped { IfErr result (Says crew.now.regions.now.1 crew.now.waits) }
{
    run_laws();
    if !task.has_unit() {
        return Err(spent(crew, task));
    }
    // That the part is the program's is told with its path.
    let _path = task.path();
    match task.fork(crew.program, crew.regions) {
        Ok((waits, left, right)) => Ok(Parted { waits, left, right }),
        Err(PartFault::OutOfMemory) => Err(Stop::OutOfMemory),
        Err(PartFault::NoFootprint) => unreachable!(),
    }
}

/// Runs a child to its end, once the gate lets it start.
#[cycle(tasks)]
fn run_child<'c, 'p, R: Threads + Sync, G: Gate>(
    rt: &R,
    child: Child<'c, 'p, G>,
) -> Result<Task<'p>, Stop<'p>>
    requires accepted { IsAccepted (program_of child.crew.now.program.now.program) }
    requires running { IsRunning (program_of child.crew.now.program.now.program)
        child.crew.now.regions.now child.task }
    requires waits { 0 < child.crew.now.waits }
    ensures ended { IfOk result (HasEnded (program_of child.entry.crew.now.program.now.program)
        child.entry.crew.now.regions.now child.entry.task) }
    ensures stopped { IfErr result (Says child.entry.crew.now.regions.now.1
        child.entry.crew.now.waits) }
{
    let Child { crew, task } = child;
    crew.gate.pass(&Point::Start(task.path()));
    run_task(rt, crew, task)
}

/// The two children, where both have ended; else why one stopped, the left one where both did.
fn both<'c, 'p, G: Gate>(
    crew: &'c Crew<'c, 'p, G>,
    left: Result<Task<'p>, Stop<'p>>,
    right: Result<Task<'p>, Stop<'p>>,
) -> Result<(Task<'p>, Task<'p>), Stop<'p>>
    requires left { IfErr left (Says crew.now.regions.now.1 crew.now.waits) }
    requires right { IfErr right (Says crew.now.regions.now.1 crew.now.waits) }
    ensures first { IfErr left.entry (λ s. result ≡ Err s) }
    ensures ended { IfOk result (λ t. (left.entry ≡ Ok t.0) × (right.entry ≡ Ok t.1)) }
    ensures stopped { IfErr result (Says crew.now.regions.now.1 crew.now.waits) }
{
    match left {
        Err(stop) => Err(stop),
        Ok(one) => match right {
            Err(other) => Err(other),
            Ok(two) => Ok((one, two)),
        },
    }
}

/// Joins two children that have ended.
fn meet<'c, 'p, G: Gate>(
    crew: &'c Crew<'c, 'p, G>,
    waits: Task<'p>,
    left: Task<'p>,
    right: Task<'p>,
) -> Result<Task<'p>, Stop<'p>>
    requires accepted { IsAccepted (program_of crew.now.program.now.program) }
    requires meet { (k : Seen) × MayMeet (program_of crew.now.program.now.program)
        crew.now.regions.now k waits left right }
    ensures moved { IfOk result (λ t. (k : Seen)
        → MayMeet (program_of crew.now.program.now.program) crew.now.regions.now k waits.entry
        left.entry right.entry
        → HasMoved (program_of crew.now.program.now.program) crew.now.regions.now k t) }
    ensures stopped { IfErr result (Says crew.now.regions.now.1 crew.now.waits) }
{
    run_laws();
    if !left.has_unit_or(&right) {
        return Err(spent_join(crew, waits, left, right));
    }
    match waits.join(crew.program, crew.regions, left, right) {
        Ok(joined) => Ok(joined),
        Err(_) => Err(Stop::OutOfMemory),
    }
}

/// The stop of a task whose children have ended, and left it no unit for their join.
fn spent_join<'c, 'p, G: Gate>(
    crew: &'c Crew<'c, 'p, G>,
    waits: Task<'p>,
    left: Task<'p>,
    right: Task<'p>,
) -> Stop<'p>
    requires meet { (k : Seen) × MayMeet (program_of crew.now.program.now.program)
        crew.now.regions.now k waits left right }
    requires none { numbers (part_of left.1).part.supply
        ++ numbers (part_of right.1).part.supply ≡ [] }
    ensures { Says crew.now.regions.now.1 crew.now.waits result }
{
    let path = waits.path();
    let given = waits.given();
    waits.tell_spent_join(crew.program, crew.regions, left, right);
    Stop::Steps(path, given)
}
