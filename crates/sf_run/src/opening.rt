//! Where the table of a run's resources begins: at the run's start, or where `init` has set them up.

ghost use Rattle.std.specs.Prelude.{◌≡◌, ◌<◌, ◌≤◌, true, false, IfErr, IfOk};
ghost use Rattle.sf_base.specs.declared.limits.TheConstants.{STEPS};
ghost use Rattle.sf_core.specs.Program.ProgramView.{program_of};
ghost use Rattle.sf_foot.specs.Starting.{StartsWith};
ghost use Rattle.sf_own.specs.Checked.Accepted.{IsAccepted};
ghost use Rattle.sf_part.specs.PartView.{part_of};
ghost use Rattle.sf_region.specs.Waits.{first_of};
ghost use Rattle.sf_run.specs.Checked.Opened.{IsOpened, IsPrepared, IsUnready, told_of};
ghost use Rattle.sf_threads.specs.Checked.Running.{IsRunning};

use sf_base::ProcId;
use sf_foot::Start;
use sf_io::Gate;
use sf_own::first_parts_are_safe;
use sf_part::laws::{first_parts_are_whole, settling_is_a_step};
use sf_part::whole::{held_are_of_the_program, running_parts_run};
use sf_part::{Content, Part};
use sf_precise::Arranged;
use sf_region::{Regions, Task};
use sf_setup::laws::{events_alone_are_steps, first_parts_begin_fresh, setting_up_is_told};
use sf_setup::{SetUpStop, set_up};
use sf_threads::Stop;
use std::alloc::{AllocError, Global};
use std::thread::Threads;

/// The table of a run's resources, and the task of its entry at it. From a fresh start `init` runs
/// before, and `Steps` says that a task of it would go on and has no unit left.
pub(crate) fn open<'p, R: Threads + Sync, G: Gate>(
    rt: &R,
    alloc: Global,
    p: &'p Arranged,
    f: ProcId,
    start: Start,
    steps: u64,
    gate: &G,
    keep: bool,
) -> Result<(Regions<'p>, Task<'p>), Stop<'p>>
    requires accepted { IsAccepted (program_of p.now.program) }
    requires starts { StartsWith (program_of p.now.program) f start.fresh start.vars start.heap
        start.parts.items }
    requires some { 0 < steps }
    requires most { steps ≤ STEPS }
    ensures opened { IfOk result (λ t. IsOpened (program_of p.now.program) f start.fresh start.vars
        start.heap start.unit steps t.0.1) }
    ensures running { IfOk result (λ t. IsRunning (program_of p.now.program) t.0 t.1) }
    ensures first { IfOk result (λ t. t.0.1.part ≡ t.1.1) }
    ensures keeps { IfOk result (λ t. (first_of t.0.1).keeps ≡ keep) }
    ensures stops { IfErr result (IsUnready (program_of p.now.program) f start.fresh start.vars
        start.heap start.unit steps) }
{
    let (part, contents) = match prepare(rt, alloc, p, f, start, steps, gate, keep) {
        Ok(prepared) => prepared,
        Err(stop) => return Err(stop),
    };
    match Task::begin(alloc, p, part, contents) {
        Ok(opened) => Ok(opened),
        Err(_) => Err(Stop::OutOfMemory),
    }
}

/// The part of the entry and the contents of the resources with which the table begins.
fn prepare<'p, R: Threads + Sync, G: Gate>(
    rt: &R,
    alloc: Global,
    p: &'p Arranged,
    f: ProcId,
    start: Start,
    steps: u64,
    gate: &G,
    keep: bool,
) -> Result<(Part<'p>, Vec<Content>), Stop<'p>>
    requires accepted { IsAccepted (program_of p.now.program) }
    requires starts { StartsWith (program_of p.now.program) f start.fresh start.vars start.heap
        start.parts.items }
    requires some { 0 < steps }
    requires most { steps ≤ STEPS }
    ensures prepared { IfOk result (λ t. IsPrepared (program_of p.now.program) f start.fresh
        start.vars start.heap start.unit steps t.0 t.1.items) }
    ensures keeps { IfOk result (λ t. (part_of t.0).keeps ≡ keep) }
    ensures stops { IfErr result (IsUnready (program_of p.now.program) f start.fresh start.vars
        start.heap start.unit steps) }
{
    if start.fresh {
        return prepare_fresh(rt, alloc, p, f, start, steps, gate, keep);
    }
    match prepare_settled(alloc, p, f, start, steps, keep) {
        Ok(prepared) => Ok(prepared),
        Err(_) => Err(Stop::OutOfMemory),
    }
}

/// Those with which a run begins whose resources are set up. An `Err` says that memory ran out.
fn prepare_settled<'p>(
    alloc: Global,
    p: &'p Arranged,
    f: ProcId,
    start: Start,
    steps: u64,
    keep: bool,
) -> Result<(Part<'p>, Vec<Content>), AllocError>
    requires accepted { IsAccepted (program_of p.now.program) }
    requires starts { StartsWith (program_of p.now.program) f start.fresh start.vars start.heap
        start.parts.items }
    requires settled { start.fresh ≡ false }
    requires some { 0 < steps }
    requires most { steps ≤ STEPS }
    ensures prepared { IfOk result (λ t. IsPrepared (program_of p.now.program) f start.fresh
        start.vars start.heap start.unit steps t.0 t.1.items) }
    ensures keeps { IfOk result (λ t. (part_of t.0).keeps ≡ keep) }
{
    first_parts_are_whole();
    first_parts_are_safe();
    let (part, contents) = Part::first(alloc, p, f, start, steps, keep)?;
    Ok((part, contents))
}

/// Those with which it goes on after `init` has run.
fn prepare_fresh<'p, R: Threads + Sync, G: Gate>(
    rt: &R,
    alloc: Global,
    p: &'p Arranged,
    f: ProcId,
    start: Start,
    steps: u64,
    gate: &G,
    keep: bool,
) -> Result<(Part<'p>, Vec<Content>), Stop<'p>>
    requires accepted { IsAccepted (program_of p.now.program) }
    requires starts { StartsWith (program_of p.now.program) f start.fresh start.vars start.heap
        start.parts.items }
    requires fresh { start.fresh ≡ true }
    requires some { 0 < steps }
    requires most { steps ≤ STEPS }
    ensures prepared { IfOk result (λ t. IsPrepared (program_of p.now.program) f start.fresh
        start.vars start.heap start.unit steps t.0 t.1.items) }
    ensures keeps { IfOk result (λ t. (part_of t.0).keeps ≡ keep) }
    ensures stops { IfErr result (IsUnready (program_of p.now.program) f start.fresh start.vars
        start.heap start.unit steps) }
{
    first_parts_are_whole();
    first_parts_begin_fresh();
    events_alone_are_steps();
    settling_is_a_step();
    held_are_of_the_program();
    running_parts_run();
    setting_up_is_told();
    let (part, _none) = match Part::first(alloc, p, f, start, steps, keep) {
        Ok(first) => first,
        Err(_) => return Err(Stop::OutOfMemory),
    };
    match set_up(rt, p, part, gate) {
        Ok(prepared) => Ok(prepared),
        Err(stop) => Err(told(stop)),
    }
}

/// Why the run stops, where the resources aren't set up.
fn told<'p>(stop: SetUpStop) -> Stop<'p>
    ensures { result ≡ told_of stop }
{
    match stop {
        SetUpStop::Steps(path, used) => Stop::Steps(path, used),
        SetUpStop::OutOfMemory => Stop::OutOfMemory,
    }
}
