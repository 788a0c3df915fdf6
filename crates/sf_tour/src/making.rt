//! Events that are made, of a configuration that goes on.

ghost use Rattle.std.specs.Prelude.{◌≡◌, length};
ghost use Rattle.sf_core.specs.Program.ProgramView.{program_of};
ghost use Rattle.sf_machine.specs.Configs.{config_of, IsWide};
ghost use Rattle.sf_machine.specs.Reached.{IsReached};

use sf_core::Program;
use sf_machine::{Config, Event, Stepped, step};
use sf_replay::Scheduled;
use std::alloc::AllocError;

/// Makes an event of a configuration, and says whether it has one. An `Err` says that memory ran out.
pub(crate) fn make_event<'p>(
    p: &'p Program,
    c: &mut Config<'p>,
    event: &Event,
) -> Result<bool, AllocError>
    requires reached { IsReached (program_of p.now) (config_of c.old) }
    requires wide { IsWide (program_of p.now) c.old }
    requires fields { length event.now.fields ≡ length p.now.fields.items }
    ensures reached { IsReached (program_of p.now) (config_of c.new) }
    ensures wide { IsWide (program_of p.now) c.new }
{
    match step(p, c, event)? {
        Stepped::Moved => Ok(true),
        _ => Ok(false),
    }
}

/// Makes an event of a schedule, and says whether the configuration has it: not where its cell hasn't
/// the program's fields. An `Err` says that memory ran out.
pub fn make_given<'p>(p: &'p Program, c: &mut Config<'p>, event: &Event) -> Result<bool, AllocError>
    requires reached { IsReached (program_of p.now) (config_of c.old) }
    requires wide { IsWide (program_of p.now) c.old }
    ensures reached { IsReached (program_of p.now) (config_of c.new) }
    ensures wide { IsWide (program_of p.now) c.new }
{
    if event.fields.values().len() != p.fields.len() {
        return Ok(false);
    }
    make_event(p, c, event)
}

/// Makes those events, up to the first that the configuration hasn't. An `Err` says that memory ran
/// out.
pub fn make_events<'p>(
    p: &'p Program,
    c: &mut Config<'p>,
    events: &[Scheduled],
) -> Result<(), AllocError>
    requires reached { IsReached (program_of p.now) (config_of c.old) }
    requires wide { IsWide (program_of p.now) c.old }
    ensures reached { IsReached (program_of p.now) (config_of c.new) }
    ensures wide { IsWide (program_of p.now) c.new }
{
    for scheduled in events {
        if !make_given(p, c, &scheduled.event)? {
            break;
        }
    }
    Ok(())
}
