//! What comes of a schedule.

ghost use Rattle.std.specs.Prelude.{◌≡◌, ◌⊎◌, ◌↔◌, length, map, IfOk, IsTrue, MatchOption, MatchResult, OnOk};
ghost use Rattle.std.specs.List.{All};
ghost use Rattle.sf_core.specs.Machine.Bad.{Bad};
ghost use Rattle.sf_core.specs.Machine.Config.{Config as SpecConfig};
ghost use Rattle.sf_core.specs.Program.ProgramView.{program_of};
ghost use Rattle.sf_foot.specs.Starting.{StartsWith};
ghost use Rattle.sf_machine.specs.Configs.{config_of, IsWide as HasWideCells};
ghost use Rattle.sf_machine.specs.Paths.{paths_of};
ghost use Rattle.sf_machine.specs.Reached.{IsReached};
ghost use Rattle.sf_replay.specs.Checked.Going.{IsBadAt};
ghost use Rattle.sf_replay.specs.Checked.Looks.{AreLooks, seen_of};
ghost use Rattle.sf_replay.specs.Checked.Taking.{IsWide};
ghost use Rattle.sf_replay.specs.Replays.{Finds, FromStart, Stops};
ghost use Rattle.sf_replay.specs.ScheduleText.{events_of};

use crate::badness::{found_after, found_in};
use crate::found::{Found, ReplayFault};
use crate::look::{Look, looks};
use crate::schedule::{Schedule, Scheduled};
use sf_base::ProcId;
use sf_core::Program;
use sf_foot::Start;
use sf_machine::{Config, Stepped, begin, step};
use sf_precise::Arranged;
use std::alloc::{AllocError, Global};

/// Whether the step was made.
fn is_moved(stepped: Stepped) -> bool
    ensures { IsTrue result ↔ (stepped ≡ Stepped.Moved) }
{
    stepped == Stepped::Moved
}

/// What is found of a configuration after so many events, once the last of them is made, where what
/// was known before it was of a configuration that isn't bad. What is known is then of this one.
fn look_again(
    alloc: Global,
    p: &Program,
    c: &Config<'_>,
    number: u64,
    known: &mut Vec<Look>,
) -> Result<Option<Found>, AllocError>
    requires { IsReached (program_of p.now) (config_of c.now) }
    ensures known { OnOk result (AreLooks (config_of c.now) (paths_of (config_of c.now).tasks)
        (map seen_of known.new.items)) }
    ensures found { IfOk result (λ found. (d : SpecConfig)
        → AreLooks d (paths_of d.tasks) (map seen_of known.old.items) → (Bad d → ⊥)
        → MatchOption found (Bad (config_of c.now) → ⊥) (IsBadAt number (config_of c.now))) }
{
    let now = looks(alloc, p, c)?;
    let found = found_after(number, known, &now);
    *known = now;
    Ok(found)
}

/// What comes of the events from a configuration on, which isn't bad, and of which that is known.
fn replay_on<'p>(
    alloc: Global,
    p: &'p Program,
    c: &mut Config<'p>,
    known: Vec<Look>,
    events: &[Scheduled],
) -> Result<Found, ReplayFault>
    requires reached { IsReached (program_of p.now) (config_of c.old) }
    requires wide { HasWideCells (program_of p.now) c.old }
    requires fields { All (IsWide (length p.now.fields.items)) events.now }
    requires known { AreLooks (config_of c.old) (paths_of (config_of c.old).tasks)
        (map seen_of known.items) }
    requires fine { Bad (config_of c.old) → ⊥ }
    ensures { MatchResult result
        (Finds (program_of p.now) (config_of c.old) (events_of events.now))
        (λ fault. (fault ≡ ReplayFault.OutOfMemory)
        ⊎ Stops (program_of p.now) (config_of c.old) (events_of events.now) fault) }
{
    let mut looks = known;
    let mut number: usize = 0;
    let mut left = events;
    'events: while let Some((next, rest)) = left.split_first() {
        let stepped = step(p, c, &next.event)?;
        if !is_moved(stepped) {
            return Err(ReplayFault::NotAnEvent(number, stepped));
        }
        number += 1;
        left = rest;
        if let Some(found) = look_again(alloc, p, c, number as u64, &mut looks)? {
            return Ok(found);
        }
    }
    Ok(Found::Clean)
}

/// What comes of the events from a configuration on.
fn replay_from<'p>(
    alloc: Global,
    p: &'p Program,
    c: &mut Config<'p>,
    events: &[Scheduled],
) -> Result<Found, ReplayFault>
    requires reached { IsReached (program_of p.now) (config_of c.old) }
    requires wide { HasWideCells (program_of p.now) c.old }
    requires fields { All (IsWide (length p.now.fields.items)) events.now }
    ensures { MatchResult result
        (Finds (program_of p.now) (config_of c.old) (events_of events.now))
        (λ fault. (fault ≡ ReplayFault.OutOfMemory)
        ⊎ Stops (program_of p.now) (config_of c.old) (events_of events.now) fault) }
{
    let known = looks(alloc, p, c)?;
    match found_in(0, &known) {
        Some(found) => Ok(found),
        None => replay_on(alloc, p, c, known, events),
    }
}

/// What comes of the events of a schedule from the start of procedure `f`. Each configuration is
/// looked at before its next event, and the last one too.
///
/// `Clean` comes exactly where each event has a step and no configuration is bad. `Absent` and
/// `Race` tell of the first configuration that is bad, after so many events: `Absent` the first
/// enabled task by path whose next step is at an absent cell, and else `Race` the first pair of
/// enabled tasks by path whose next steps conflict, and the first thing on which they do.
/// `NotAnEvent` comes exactly where the first event that has no step comes before any configuration
/// that is bad, which the one before it isn't either. Or memory runs out.
pub fn replay(
    alloc: Global,
    p: &Arranged,
    f: ProcId,
    start: &Start,
    events: &Schedule,
) -> Result<Found, ReplayFault>
    requires starts { StartsWith (program_of p.now.program) f start.now.fresh start.now.vars
        start.now.heap start.now.parts.items }
    requires fields { All (IsWide (length p.now.program.fields.items)) events.now }
    ensures { MatchResult result
        (λ found. FromStart (program_of p.now.program) f start.now.fresh start.now.vars
        start.now.heap
        (λ c. Finds (program_of p.now.program) c (events_of events.now) found))
        (λ fault. (fault ≡ ReplayFault.OutOfMemory)
        ⊎ FromStart (program_of p.now.program) f start.now.fresh start.now.vars start.now.heap
        (λ c. Stops (program_of p.now.program) c (events_of events.now) fault)) }
{
    let mut c = begin(alloc, &p.program, f, start)?;
    replay_from(alloc, &p.program, &mut c, events.as_slice())
}
