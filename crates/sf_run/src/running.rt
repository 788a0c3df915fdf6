//! A run: its tasks, each with its part, at a table of resources.

ghost use Rattle.std.specs.Prelude.{◌≡◌, ◌<◌, ◌≤◌, [], length, map, IfErr, IfOk, IsTrue};
ghost use Rattle.sf_base.specs.declared.limits.TheConstants.{STEPS, WAITS};
ghost use Rattle.sf_core.specs.Machine.Config.{Config};
ghost use Rattle.sf_core.specs.Program.ProgramView.{program_of};
ghost use Rattle.sf_foot.specs.Starting.{StartsWith};
ghost use Rattle.sf_own.specs.Checked.Accepted.{IsAccepted};
ghost use Rattle.sf_part.specs.Answers.{Answers};
ghost use Rattle.sf_part.specs.Parts.{entry_of};
ghost use Rattle.sf_part.specs.PartView.{part_of};
ghost use Rattle.sf_region.specs.Waits.{BeganAt, first_of, program_in as program_at};
ghost use Rattle.sf_run.specs.Checked.Closed.{HasPlaces, IsClosed};
ghost use Rattle.sf_run.specs.Running.{EndsWith, IsFinish, IsLog, IsStop, IsTable, Stops, program_in};
ghost use Rattle.sf_run.specs.Sequential.{IsSequentialStart};
ghost use Rattle.sf_threads.specs.Checked.Running.{HasEnded, IsRunning};
ghost use Rattle.sf_threads.specs.Stopping.{Says};

use crate::finishing::finish;
use crate::logging::tables_go_on_with_logs;
use crate::opening::open;
use crate::stop::Budget;
use sf_base::ProcId;
use sf_calls::laws::{conditions_from_truncation, sets_from_truncation};
use sf_check::Proof;
use sf_foot::{Finish, Start};
use sf_io::Gate;
use sf_part::going::going_keeps_path;
use sf_part::whole::running_parts_run;
use sf_part::{Local, Log};
use sf_precise::Arranged;
use sf_precise::laws::{ordered_is_determined, orders_from_truncation};
use sf_region::laws::drained_tasks_have_spent_steps;
use sf_region::{Closed, Regions, Task};
use sf_sound::proved_bodies_are_safe;
use sf_threads::{Crew, Stop, run_task};
use std::alloc::{AllocError, Global};
use std::thread::Threads;

/// Runs procedure `f` of a proved program from a start of it. From a fresh start `init` runs first.
/// Each task makes its own steps on its own part of the variables and cells; a table has what belongs
/// to resources that no task holds, and what crosses at regions; the two children of a parallel call
/// run on threads of their own, where these can be made. Each task passes the gate at its start and at
/// each try at a region. An `Ok` has what an interleaving of the tasks ends with, and the receipt of
/// the table. `Steps` says that a task would go on, and has used as many units as it was given;
/// `Waits` that it has tried a region in vain as often as the budget allows, and has the table's
/// receipt for that. Where no parallel call can be reached from `f`, nor, where the start is fresh,
/// from `init`, each of these answers comes only where it is what comes of the one task. An `Err` may
/// also say that memory ran out.
pub fn run<'p, R: Threads + Sync, G: Gate>(
    rt: &R,
    alloc: Global,
    proof: &Proof<'p>,
    f: ProcId,
    start: Start,
    budget: Budget,
    gate: &G,
) -> Result<(Finish, Closed<'p>), Stop<'p>>
    requires starts { StartsWith (program_in proof.now) f start.fresh start.vars start.heap
        start.parts.items }
    requires steps { (1 ≤ budget.steps) × (budget.steps ≤ STEPS) }
    requires waits { (1 ≤ budget.waits) × (budget.waits ≤ WAITS) }
    ensures ends { IfOk result (λ t. IsFinish (program_in proof.now) f start.fresh start.vars
        start.heap start.unit budget.steps t.0) }
    ensures closed { IfOk result (λ t. IsTable (program_in proof.now) f start.fresh start.vars
        start.heap start.unit budget.steps t.1) }
    ensures stops { IfErr result (IsStop (program_in proof.now) f start.fresh start.vars start.heap
        start.unit budget) }
    ensures ends_alone { IsSequentialStart (program_in proof.now) f start.fresh
        → IfOk result (λ t. EndsWith (program_in proof.now) f start.fresh start.vars start.heap
        start.unit budget.steps t.0) }
    ensures stops_alone { IsSequentialStart (program_in proof.now) f start.fresh
        → IfErr result (Stops (program_in proof.now) f start.fresh start.vars start.heap start.unit
        budget) }
{
    match run_kept(rt, alloc, proof, f, start, budget, gate, false) {
        Ok((finish, closed, _log)) => Ok((finish, closed)),
        Err(stop) => Err(stop),
    }
}

/// The same run, with a log of its events where it is to keep one: it has just one entry for each
/// event of the list by which the run has ended, those of `init` among them where the start is fresh,
/// and of two events whose order counts the later has the greater stamp.
pub fn run_kept<'p, R: Threads + Sync, G: Gate>(
    rt: &R,
    alloc: Global,
    proof: &Proof<'p>,
    f: ProcId,
    start: Start,
    budget: Budget,
    gate: &G,
    keep: bool,
) -> Result<(Finish, Closed<'p>, Log), Stop<'p>>
    requires starts { StartsWith (program_in proof.now) f start.fresh start.vars start.heap
        start.parts.items }
    requires steps { (1 ≤ budget.steps) × (budget.steps ≤ STEPS) }
    requires waits { (1 ≤ budget.waits) × (budget.waits ≤ WAITS) }
    ensures ends { IfOk result (λ t. IsFinish (program_in proof.now) f start.fresh start.vars
        start.heap start.unit budget.steps t.0) }
    ensures closed { IfOk result (λ t. IsTable (program_in proof.now) f start.fresh start.vars
        start.heap start.unit budget.steps t.1) }
    ensures stops { IfErr result (IsStop (program_in proof.now) f start.fresh start.vars start.heap
        start.unit budget) }
    ensures ends_alone { IsSequentialStart (program_in proof.now) f start.fresh
        → IfOk result (λ t. EndsWith (program_in proof.now) f start.fresh start.vars start.heap
        start.unit budget.steps t.0) }
    ensures stops_alone { IsSequentialStart (program_in proof.now) f start.fresh
        → IfErr result (Stops (program_in proof.now) f start.fresh start.vars start.heap start.unit
        budget) }
    ensures log { IsTrue keep → IfOk result (λ t. IsLog (program_in proof.now) f start.fresh
        start.vars start.heap start.unit budget.steps t.0 (map entry_of t.2.entries.items)) }
{
    let p = proved_program(proof);
    run_accepted(rt, alloc, p, f, start, budget, gate, keep)
}

/// The program that is proved, arranged: so it is accepted.
fn proved_program<'p>(proof: &Proof<'p>) -> &'p Arranged
    ensures program { program_of result.now.program ≡ program_in proof.now }
    ensures accepted { IsAccepted (program_of result.now.program) }
{
    proved_bodies_are_safe();
    conditions_from_truncation();
    sets_from_truncation();
    orders_from_truncation();
    ordered_is_determined();
    proof.proves();
    proof.arranged()
}

/// The same run, of a program that is accepted.
fn run_accepted<'p, R: Threads + Sync, G: Gate>(
    rt: &R,
    alloc: Global,
    p: &'p Arranged,
    f: ProcId,
    start: Start,
    budget: Budget,
    gate: &G,
    keep: bool,
) -> Result<(Finish, Closed<'p>, Log), Stop<'p>>
    requires accepted { IsAccepted (program_of p.now.program) }
    requires starts { StartsWith (program_of p.now.program) f start.fresh start.vars start.heap
        start.parts.items }
    requires some { 1 ≤ budget.steps }
    requires most { budget.steps ≤ STEPS }
    requires waits { 1 ≤ budget.waits }
    ensures ends { IfOk result (λ t. IsFinish (program_of p.now.program) f start.fresh start.vars
        start.heap start.unit budget.steps t.0) }
    ensures closed { IfOk result (λ t. IsTable (program_of p.now.program) f start.fresh start.vars
        start.heap start.unit budget.steps t.1) }
    ensures stops { IfErr result (IsStop (program_of p.now.program) f start.fresh start.vars
        start.heap start.unit budget) }
    ensures ends_alone { IsSequentialStart (program_of p.now.program) f start.fresh
        → IfOk result (λ t. EndsWith (program_of p.now.program) f start.fresh start.vars start.heap
        start.unit budget.steps t.0) }
    ensures stops_alone { IsSequentialStart (program_of p.now.program) f start.fresh
        → IfErr result (Stops (program_of p.now.program) f start.fresh start.vars start.heap
        start.unit budget) }
    ensures log { IsTrue keep → IfOk result (λ t. IsLog (program_of p.now.program) f start.fresh
        start.vars start.heap start.unit budget.steps t.0 (map entry_of t.2.entries.items)) }
{
    running_parts_run();
    going_keeps_path();
    drained_tasks_have_spent_steps();
    tables_go_on_with_logs();
    let (regions, task) = match open(rt, alloc, p, f, start, budget.steps, gate, keep) {
        Ok(opened) => opened,
        Err(stop) => return Err(stop),
    };
    let last = match run_tasks(rt, p, &regions, task, budget.waits, gate) {
        Ok(last) => last,
        Err(stop) => return Err(stop),
    };
    match close(alloc, p, f, regions, last) {
        Ok(ended) => Ok(ended),
        Err(_) => Err(Stop::OutOfMemory),
    }
}

/// Runs the entry's task at the table, and the tasks that it makes.
fn run_tasks<'p, R: Threads + Sync, G: Gate>(
    rt: &R,
    p: &'p Arranged,
    regions: &Regions<'p>,
    task: Task<'p>,
    waits: u32,
    gate: &G,
) -> Result<Task<'p>, Stop<'p>>
    requires accepted { IsAccepted (program_of p.now.program) }
    requires running { IsRunning (program_of p.now.program) regions.now task }
    requires waits { 1 ≤ waits }
    ensures ended { IfOk result
        (HasEnded (program_of p.now.program) regions.now task.entry) }
    ensures says { IfErr result (Says regions.now.1 waits) }
    ensures places { IfErr result HasPlaces }
{
    let crew = Crew {
        program: p,
        regions,
        gate,
        waits,
    };
    match run_task(rt, &crew, task) {
        Ok(last) => Ok(last),
        Err(stop) => {
            tell(&stop);
            Err(stop)
        }
    }
}

/// What a receipt for misses stands for.
fn tell(stop: &Stop<'_>)
    ensures { HasPlaces stop.now }
{
    if let Stop::Waits(_, _, misses) = stop {
        let _count = misses.count();
    }
}

/// Closes the table, where the entry's task has ended, and puts together what is there.
fn close<'p>(
    alloc: Global,
    p: &'p Arranged,
    f: ProcId,
    regions: Regions<'p>,
    task: Task<'p>,
) -> Result<(Finish, Closed<'p>, Log), AllocError>
    requires procedure { f.0 < length p.now.program.procedures.items }
    requires table { task.0.0 ≡ regions.0 }
    requires program { program_at task.0.1.begun ≡ program_of p.now.program }
    requires begun { program_at regions.1 ≡ program_of p.now.program }
    requires entry { (part_of task.1).part.task ≡ [] }
    requires first { (first_of task.0.1.begun).part.task ≡ [] }
    requires ended { Answers (program_of p.now.program) (part_of task.1) Local.Done }
    requires began { (c : Config) × BeganAt task.0.1.begun c }
    ensures closed { IfOk result (λ t. IsClosed (program_of p.now.program) f task.entry.0.1.begun
        (part_of task.entry.1) t.0 t.2) }
    ensures receipt { IfOk result (λ t. t.1 ≡ task.entry.0.1.begun) }
{
    let _path = task.path();
    let (part, contents, closed) = task.close(p, regions);
    let (finish, log) = finish(alloc, &p.program, f, part, contents)?;
    Ok((finish, closed, log))
}
