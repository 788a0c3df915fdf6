//! The events of a schedule as steps, each with the configuration after it.

ghost use Rattle.sf_core.specs.Program.ProgramView.{program_of};
ghost use Rattle.sf_foot.specs.Starting.{StartsWith};
ghost use Rattle.sf_machine.specs.Configs.{config_of, IsWide};
ghost use Rattle.sf_machine.specs.Reached.{IsReached};

use crate::ends::end_scene;
use crate::tasks::configuration_scene;
use crate::texts::spot;
use sf_base::{Place, ProcId};
use sf_core::Program;
use sf_foot::Start;
use sf_hints::put_number;
use sf_machine::{Config, Event, begin};
use sf_page::{Scene, Step};
use sf_precise::Arranged;
use sf_replay::Scheduled;
use sf_tour::{make_events, make_given, put_task};
use std::alloc::{AllocError, Global};

/// Events as steps, and the configuration at the end.
#[derive(Drop)]
pub struct EventSteps {
    /// The steps.
    pub steps: Vec<Step>,
    /// The scene after all events.
    pub end: Scene,
}

/// The name of an event: its task and its number. An `Err` says that memory ran out.
fn name_of(alloc: Global, event: &Event) -> Result<Vec<u8>, AllocError> {
    let mut text = Vec::from_slice(alloc, b"task ")?;
    put_task(&mut text, event.task)?;
    put_number(&mut text, ", event ", event.number)?;
    Ok(text)
}

/// Where the next command of an event's task stands; nowhere where it does none.
fn place_of(c: &Config<'_>, event: &Event) -> Place {
    match c.next_command(event.task) {
        Some(command) => command.place(),
        None => Place { line: 0, column: 0 },
    }
}

/// Appends the step of an event, which is made. `false` where the configuration hasn't it. An `Err` says
/// that memory ran out.
fn add_step<'p>(
    alloc: Global,
    p: &'p Program,
    bytes: &[u8],
    c: &mut Config<'p>,
    event: &Event,
    steps: &mut Vec<Step>,
) -> Result<bool, AllocError>
    requires reached { IsReached (program_of p.now) (config_of c.old) }
    requires wide { IsWide (program_of p.now) c.old }
    ensures reached { IsReached (program_of p.now) (config_of c.new) }
    ensures wide { IsWide (program_of p.now) c.new }
{
    let place = place_of(c, event);
    if !make_given(p, c, event)? {
        return Ok(false);
    }
    steps.push(Step {
        depth: 0,
        span: spot(place),
        name: name_of(alloc, event)?,
        rule: Vec::new(alloc),
        fails: false,
        scene: Some(configuration_scene(alloc, p, bytes, c)?),
    })?;
    Ok(true)
}

/// Appends the steps of those events, up to the first that isn't made. An `Err` says that memory ran
/// out.
fn add_steps<'p>(
    alloc: Global,
    p: &'p Program,
    bytes: &[u8],
    c: &mut Config<'p>,
    events: &[Scheduled],
    steps: &mut Vec<Step>,
) -> Result<(), AllocError>
    requires reached { IsReached (program_of p.now) (config_of c.old) }
    requires wide { IsWide (program_of p.now) c.old }
    ensures reached { IsReached (program_of p.now) (config_of c.new) }
    ensures wide { IsWide (program_of p.now) c.new }
{
    for scheduled in events {
        if !add_step(alloc, p, bytes, c, &scheduled.event, steps)? {
            break;
        }
    }
    Ok(())
}

/// The scene after all events: of the state in which the run of procedure `f` has ended, or of the
/// configuration at which it goes on. An `Err` says that memory ran out.
fn last_scene<'p>(
    alloc: Global,
    arranged: &'p Arranged,
    bytes: &[u8],
    f: ProcId,
    c: Config<'p>,
) -> Result<Scene, AllocError>
    requires reached { IsReached (program_of arranged.now.program) (config_of c) }
    requires wide { IsWide (program_of arranged.now.program) c }
{
    let p = &arranged.program;
    if c.has_ended() && (f.0 as usize) < p.procedures.len() {
        let end = c.finish(alloc, p, f)?;
        return end_scene(alloc, arranged, f, &end);
    }
    configuration_scene(alloc, p, bytes, &c)
}

/// The steps of the first so many of those events from a start of procedure `f`, and the scene after all
/// of them. An `Err` says that memory ran out.
pub fn event_steps(
    alloc: Global,
    arranged: &Arranged,
    bytes: &[u8],
    f: ProcId,
    start: &Start,
    events: &[Scheduled],
    room: usize,
) -> Result<EventSteps, AllocError>
    requires { StartsWith (program_of arranged.now.program) f start.now.fresh start.now.vars
        start.now.heap start.now.parts.items }
{
    let p = &arranged.program;
    let mut c = begin(alloc, p, f, start)?;
    let mut steps = Vec::new(alloc);
    let (shown, rest) = events.split_at(events.len().min(room));
    add_steps(alloc, p, bytes, &mut c, shown, &mut steps)?;
    make_events(p, &mut c, rest)?;
    Ok(EventSteps {
        steps,
        end: last_scene(alloc, arranged, bytes, f, c)?,
    })
}
