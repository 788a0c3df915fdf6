//! The configurations along the events of a schedule, each with the line of the command that led there.

ghost use Rattle.sf_core.specs.Program.ProgramView.{program_of};
ghost use Rattle.sf_foot.specs.Starting.{StartsWith};
ghost use Rattle.sf_machine.specs.Configs.{config_of, IsWide};
ghost use Rattle.sf_machine.specs.Reached.{IsReached};

use crate::ending::{Source, put_sight};
use crate::making::{make_events, make_given};
use crate::naming::put_task;
use crate::sight::Tour;
use crate::telling::put_configuration;
use sf_base::ProcId;
use sf_core::Program;
use sf_foot::Start;
use sf_hints::{put, put_number, put_source};
use sf_machine::{Config, Event, begin};
use sf_replay::{Schedule, Scheduled};
use std::alloc::{AllocError, Global};

/// How many events are told one by one.
const EVENTS_TOLD: usize = 2_000;

/// Appends an event, with the line of its command, and the configuration after it. `false` where it
/// isn't made. An `Err` says that memory ran out.
fn put_event<'p>(
    text: &mut Vec<u8>,
    p: &'p Program,
    source: Source<'_>,
    c: &mut Config<'p>,
    event: &Event,
) -> Result<bool, AllocError>
    requires reached { IsReached (program_of p.now) (config_of c.old) }
    requires wide { IsWide (program_of p.now) c.old }
    ensures reached { IsReached (program_of p.now) (config_of c.new) }
    ensures wide { IsWide (program_of p.now) c.new }
{
    put_number(text, "\nevent ", event.number)?;
    put(text, " of task ")?;
    put_task(text, event.task)?;
    put(text, "\n")?;
    if let Some(command) = c.next_command(event.task) {
        put_source(text, source.bytes, command.place(), 1)?;
    }
    let made = make_given(p, c, event)?;
    if made {
        put_configuration(text, p, c)?;
    }
    Ok(made)
}

/// Appends how many events follow, where some do, and the configuration after them. An `Err` says that
/// memory ran out.
fn put_rest<'p>(
    text: &mut Vec<u8>,
    p: &'p Program,
    c: &mut Config<'p>,
    events: &[Scheduled],
) -> Result<(), AllocError>
    requires reached { IsReached (program_of p.now) (config_of c.old) }
    requires wide { IsWide (program_of p.now) c.old }
{
    if events.is_empty() {
        return Ok(());
    }
    make_events(p, c, events)?;
    put_number(text, "\n.. and ", events.len() as u64)?;
    put(text, " events more\n")?;
    put_configuration(text, p, c)
}

/// Appends the start, the configuration after each event of a tour, of which the first 2,000 are told
/// one by one, and what is found at its end. An `Err` says that memory ran out.
pub fn put_tour(
    text: &mut Vec<u8>,
    alloc: Global,
    p: &Program,
    source: Source<'_>,
    f: ProcId,
    start: &Start,
    schedule: &Schedule,
    tour: Tour,
) -> Result<(), AllocError>
    requires { StartsWith (program_of p.now) f start.now.fresh start.now.vars start.now.heap
        start.now.parts.items }
{
    let mut c = begin(alloc, p, f, start)?;
    put(text, "start\n")?;
    put_configuration(text, p, &c)?;
    let events = schedule.as_slice();
    let made = events.get(..tour.count).unwrap_or(events);
    let (told, rest) = made.split_at(made.len().min(EVENTS_TOLD));
    for scheduled in told {
        if !put_event(text, p, source, &mut c, &scheduled.event)? {
            break;
        }
    }
    put_rest(text, p, &mut c, rest)?;
    put_sight(text, p, source, &c, tour.sight)
}
