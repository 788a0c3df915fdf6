//! The events.

ghost use Rattle.std.specs.Prelude.{◌≡◌, length, IfOk};
ghost use Rattle.sf_core.specs.Program.ProgramView.{program_of};
ghost use Rattle.sf_machine.specs.Configs.{config_of, IsWide};
ghost use Rattle.sf_machine.specs.Reached.{IsReached};

use sf_base::{TaskPath, Turn};
use sf_core::Program;
use sf_heap::Cell;
use sf_machine::{Config, Event, Stepped, step};
use std::alloc::{AllocError, Global};

/// Makes so many events, and answers how many were made: fewer where nothing goes on.
pub fn run<'p>(
    alloc: Global,
    p: &'p Program,
    mut c: Config<'p>,
    count: u64,
) -> Result<u64, AllocError>
    requires reached { IsReached (program_of p.now) (config_of c) }
    requires wide { IsWide (program_of p.now) c }
{
    let mut event = blank(alloc, p)?;
    for made in 0..count {
        event.number = made + 1;
        event.at = made + 1;
        if !goes_on(p, &mut c, &mut event)? {
            return Ok(made);
        }
    }
    Ok(count)
}

/// An event of the entry's task without a number, with the program's fields.
fn blank(alloc: Global, p: &Program) -> Result<Event, AllocError>
    ensures { IfOk result (λ event. length event.fields ≡ length p.now.fields.items) }
{
    let fields = Cell::new(alloc, p.fields.len())?;
    Ok(Event {
        task: TaskPath::entry(),
        number: 0,
        at: 0,
        fields,
    })
}

/// Makes an event of the entry's task, or of one of its children.
fn goes_on<'p>(p: &'p Program, c: &mut Config<'p>, event: &mut Event) -> Result<bool, AllocError>
    requires reached { IsReached (program_of p.now) (config_of c.old) }
    requires wide { IsWide (program_of p.now) c.old }
    requires fields { length event.old.fields ≡ length p.now.fields.items }
    ensures reached { IsReached (program_of p.now) (config_of c.new) }
    ensures wide { IsWide (program_of p.now) c.new }
    ensures fields { event.new.fields ≡ event.old.fields }
{
    event.task = TaskPath::entry();
    if moves(p, c, event)? {
        return Ok(true);
    }
    event.task = TaskPath::entry().child(Turn::Left);
    if moves(p, c, event)? {
        return Ok(true);
    }
    event.task = TaskPath::entry().child(Turn::Right);
    moves(p, c, event)
}

/// Whether the event is made.
fn moves<'p>(p: &'p Program, c: &mut Config<'p>, event: &Event) -> Result<bool, AllocError>
    requires reached { IsReached (program_of p.now) (config_of c.old) }
    requires wide { IsWide (program_of p.now) c.old }
    requires fields { length event.now.fields ≡ length p.now.fields.items }
    ensures reached { IsReached (program_of p.now) (config_of c.new) }
    ensures wide { IsWide (program_of p.now) c.new }
{
    let stepped = step(p, c, event)?;
    Ok(matches!(stepped, Stepped::Moved))
}
