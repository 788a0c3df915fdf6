//! An interleaving of a run, as the text of a schedule: the tasks take turns.

ghost use Rattle.std.specs.Prelude.{◌≡◌, length};
ghost use Rattle.sf_core.specs.Program.ProgramView.{program_of};
ghost use Rattle.sf_foot.specs.Starting.{StartsWith};
ghost use Rattle.sf_machine.specs.Configs.{config_of, IsWide};
ghost use Rattle.sf_machine.specs.Reached.{IsReached};

use crate::making::make_event;
use crate::naming::put_task;
use sf_base::{ProcId, TaskPath};
use sf_core::Program;
use sf_foot::Start;
use sf_heap::Cell;
use sf_hints::{put, put_number};
use sf_machine::{Config, Event, begin, paths};
use std::alloc::{AllocError, Global};

/// How many events are made at most.
pub const EVENTS_MADE: u64 = 2_000;

/// How an interleaving ends.
#[derive(Clone, Copy, Debug, PartialEq, Eq)]
pub enum Outcome {
    /// The run has ended.
    Ended,
    /// No task has an event: each waits, or is about to touch a cell that isn't there.
    Stays,
    /// It goes on after so many events.
    Long,
}

/// An interleaving and how it ends.
#[derive(Debug, Drop)]
pub struct Driven {
    /// The text of its events.
    pub text: Vec<u8>,
    /// How it ends.
    pub outcome: Outcome,
}

/// Makes an event of that number of the first of these tasks that has one, and says of which.
fn move_first<'p>(
    p: &'p Program,
    c: &mut Config<'p>,
    event: &mut Event,
    tasks: &[TaskPath],
) -> Result<Option<TaskPath>, AllocError>
    requires reached { IsReached (program_of p.now) (config_of c.old) }
    requires wide { IsWide (program_of p.now) c.old }
    requires fields { length event.old.fields ≡ length p.now.fields.items }
    ensures reached { IsReached (program_of p.now) (config_of c.new) }
    ensures wide { IsWide (program_of p.now) c.new }
    ensures fields { event.new.fields ≡ event.old.fields }
{
    for task in tasks {
        event.task = *task;
        if make_event(p, c, event)? {
            return Ok(Some(*task));
        }
    }
    Ok(None)
}

/// The tasks of a configuration from one of them on, so that each has its turn. An `Err` says that
/// memory ran out.
fn tasks_from(
    alloc: Global,
    p: &Program,
    c: &Config<'_>,
    turn: u64,
) -> Result<Vec<TaskPath>, AllocError>
    requires { IsReached (program_of p.now) (config_of c.now) }
{
    let all = paths(p, c)?;
    let mut found = Vec::with_capacity(alloc, all.len())?;
    let count = all.len() as u64;
    let first = if count == 0 {
        0
    } else {
        (turn % count) as usize
    };
    for task in all.iter().skip(first) {
        found.push(*task)?;
    }
    for task in all.iter().take(first) {
        found.push(*task)?;
    }
    Ok(found)
}

/// Appends the line of an event. An `Err` says that memory ran out.
fn put_event(text: &mut Vec<u8>, task: TaskPath, number: u64, at: u64) -> Result<(), AllocError> {
    put_task(text, task)?;
    put_number(text, " ", number)?;
    put_number(text, " @", at)?;
    put(text, "\n")
}

/// Makes events from a configuration on, with cells from that location on, and says how that ends.
/// An `Err` says that memory ran out.
fn drive_on<'p>(
    alloc: Global,
    p: &'p Program,
    mut c: Config<'p>,
    unit: u64,
    text: &mut Vec<u8>,
) -> Result<Outcome, AllocError>
    requires reached { IsReached (program_of p.now) (config_of c) }
    requires wide { IsWide (program_of p.now) c }
{
    let mut event = Event {
        task: TaskPath::entry(),
        number: 0,
        at: 0,
        fields: Cell::new(alloc, p.fields.len())?,
    };
    for made in 0..EVENTS_MADE {
        if c.has_ended() {
            return Ok(Outcome::Ended);
        }
        event.number = made.saturating_add(1);
        event.at = unit.saturating_add(made);
        let tasks = tasks_from(alloc, p, &c, made)?;
        match move_first(p, &mut c, &mut event, &tasks)? {
            Some(task) => put_event(text, task, event.number, event.at)?,
            None => return Ok(Outcome::Stays),
        }
    }
    Ok(Outcome::Long)
}

/// An interleaving of procedure `f` from a start, in which the tasks take turns, as far as it goes or
/// up to the first 2,000 events. An `Err` says that memory ran out.
pub fn drive(alloc: Global, p: &Program, f: ProcId, start: &Start) -> Result<Driven, AllocError>
    requires { StartsWith (program_of p.now) f start.now.fresh start.now.vars start.now.heap
        start.now.parts.items }
{
    let c = begin(alloc, p, f, start)?;
    let mut text = Vec::new(alloc);
    let outcome = drive_on(alloc, p, c, start.unit, &mut text)?;
    Ok(Driven { text, outcome })
}
