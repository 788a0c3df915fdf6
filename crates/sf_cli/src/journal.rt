//! What is said of what a run ends with, and of the events by which it came there.

ghost use Rattle.std.specs.Prelude.{◌≡◌, ◌<◌, ◌++◌, IfOk, IfSome, OnOk, length, map, slice_get};
ghost use Rattle.std.specs.List.{flat_map};
ghost use Rattle.sf_core.specs.Program.ProgramView.{program_of};
ghost use Rattle.sf_machine.specs.Events.{event_of};
ghost use Rattle.sf_part.specs.Parts.{entry_of};
ghost use Rattle.sf_cli.specs.Checked.Printed.{AddsEvents, SaysEnd, told_line};
ghost use Rattle.sf_cli.specs.Journaled.{event_line};

use crate::outcome::say_finish;
use crate::reply::Said;
use crate::writing::{put, put_number, put_task};
use sf_base::ProcId;
use sf_core::Program;
use sf_foot::Finish;
use sf_journal::merge;
use sf_machine::Event;
use sf_part::Log;
use sf_precise::Arranged;
use sf_replay::Scheduled;
use std::alloc::{AllocError, Global};

/// Appends the line of an event.
fn put_event(text: &mut Vec<u8>, event: &Event) -> Result<(), AllocError>
    ensures { OnOk result (text.new.items ≡ text.old.items ++ event_line (event_of event.now)) }
{
    put_task(text, "", event.task)?;
    put_number(text, " ", event.number)?;
    put(text, "\n")
}

/// Appends the lines of a schedule's events.
fn put_events(text: &mut Vec<u8>, schedule: &[Scheduled]) -> Result<(), AllocError>
    ensures { OnOk result (text.new.items ≡ text.old.items ++ flat_map told_line schedule.now) }
{
    for scheduled in schedule {
        put_event(text, &scheduled.event)?;
    }
    Ok(())
}

/// What is said, and after it the events of a log as a schedule.
fn with_events(alloc: Global, said: Said, p: &Program, log: Log) -> Result<Said, AllocError>
    ensures text { IfOk result (λ more. AddsEvents (program_of p.now)
        (map entry_of log.entries.items) said.text.items more.text.items) }
    ensures status { IfOk result (λ more. more.status ≡ said.status) }
{
    let schedule = merge(alloc, p, log)?;
    let mut text = said.text;
    put(&mut text, "schedule\n")?;
    put_events(&mut text, schedule.as_slice())?;
    Ok(Said {
        text,
        status: said.status,
    })
}

/// What procedure `f` ends with, and, where it is to be kept, the log of the run as a schedule after
/// it. An `Err` says that memory ran out, or that there are more events than a schedule has lines.
pub fn say_end(
    alloc: Global,
    arranged: &Arranged,
    f: ProcId,
    end: &Finish,
    log: Log,
    kept: bool,
) -> Result<Said, AllocError>
    requires { f.0 < length arranged.now.program.procedures.items }
    ensures { IfOk result (λ said.
        IfSome (slice_get (program_of arranged.now.program).procedures f.0)
        (λ g. SaysEnd kept (program_of arranged.now.program) g end.now.vars end.now.heap
        (map entry_of log.entries.items) said.text.items said.status)) }
{
    let said = say_finish(alloc, arranged, f, end)?;
    if kept {
        with_events(alloc, said, &arranged.program, log)
    } else {
        Ok(said)
    }
}
