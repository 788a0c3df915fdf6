//! What is said of what is found of a schedule, and of why nothing is.

ghost use Rattle.std.specs.Prelude.{◌≡◌, ◌≢◌, ◌++◌, IfOk, OnOk, slice_get};
ghost use Rattle.sf_core.specs.Program.ProgramView.{program_of};
ghost use Rattle.sf_replay.specs.declared.schedule.ScheduleFault.TheVariants.{OutOfMemory};
ghost use Rattle.sf_state.specs.Refused.{cell_name, name_at};
ghost use Rattle.sf_state.specs.StateText.{value_text};
ghost use Rattle.sf_cli.specs.FoundText.{absent_text, found_status, found_text, line_at, no_event_text, schedule_refusal_text, slot_text, thing_text, variables_of, why_text};

use crate::outcome::resource_name;
use crate::reply::Said;
use crate::writing::{put, put_number, put_task};
use itoa::Buffer;
use sf_base::{Name, ResId, Slot, TaskPath, Thing, Value};
use sf_core::Program;
use sf_machine::Stepped;
use sf_replay::{Found, Schedule, ScheduleFault};
use std::alloc::{AllocError, Global};

/// Appends the name of the cell at a location.
fn put_cell(text: &mut Vec<u8>, location: u64) -> Result<(), AllocError>
    ensures { OnOk result (text.new.items ≡ text.old.items ++ cell_name location) }
{
    put_number(text, "@", location)
}

/// Appends a value.
fn put_value(text: &mut Vec<u8>, value: Value) -> Result<(), AllocError>
    ensures { OnOk result (text.new.items ≡ text.old.items ++ value_text value) }
{
    match value {
        Value::Nil => put(text, "nil"),
        Value::Int(i) => put(text, Buffer::new().format(i)),
        Value::Loc(location) => put_cell(text, location),
    }
}

/// The names of a resource's variables, none where it isn't there.
fn variables_of(p: &Program, r: ResId) -> &[Name]
    ensures { result.now ≡ variables_of (slice_get (program_of p.now).resources r.0) }
{
    match p.resources.get(r.0 as usize) {
        Some(resource) => resource.variables.as_slice(),
        None => &[],
    }
}

/// The name of that number, empty where there is none.
fn name_at(names: &[Name], number: u32) -> &[u8]
    ensures { result.now ≡ name_at names.now number }
{
    match names.get(number as usize) {
        Some(name) => name.as_bytes(),
        None => &[],
    }
}

/// Appends a slot.
fn put_slot(text: &mut Vec<u8>, slot: Slot) -> Result<(), AllocError>
    ensures { OnOk result (text.new.items ≡ text.old.items ++ slot_text slot) }
{
    put_number(text, "slot ", slot.event)?;
    put_number(text, ".", u64::from(slot.index))
}

/// Appends a resource's variable, with the resource's name.
fn put_variable(text: &mut Vec<u8>, p: &Program, r: ResId, i: u32) -> Result<(), AllocError>
    ensures { OnOk result (text.new.items
        ≡ text.old.items ++ thing_text (program_of p.now) (Thing.Shared r i)) }
{
    text.extend_from_slice(resource_name(p, r))?;
    put(text, ".")?;
    text.extend_from_slice(name_at(variables_of(p, r), i))?;
    Ok(())
}

/// Appends a thing that steps read and write.
fn put_thing(text: &mut Vec<u8>, p: &Program, thing: Thing) -> Result<(), AllocError>
    ensures { OnOk result (text.new.items
        ≡ text.old.items ++ thing_text (program_of p.now) thing) }
{
    match thing {
        Thing::Shared(r, i) => put_variable(text, p, r, i),
        Thing::Own(slot) => put_slot(text, slot),
        Thing::At(location) => put_cell(text, location),
    }
}

/// That this task is at an absent cell after so many events.
fn absent_text(
    alloc: Global,
    count: u64,
    path: TaskPath,
    value: Value,
) -> Result<Vec<u8>, AllocError>
    ensures { IfOk result (λ text. text.items ≡ absent_text count path value) }
{
    let mut text = Vec::new(alloc);
    put_number(&mut text, "step ", count)?;
    put_task(&mut text, ": task ", path)?;
    put(&mut text, " absent ")?;
    put_value(&mut text, value)?;
    put(&mut text, "\n")?;
    Ok(text)
}

/// That these two tasks race after so many events.
fn race_text(
    alloc: Global,
    p: &Program,
    count: u64,
    path: TaskPath,
    other: TaskPath,
    thing: Thing,
) -> Result<Vec<u8>, AllocError>
    ensures { IfOk result (λ text. text.items
        ≡ found_text (program_of p.now) (Found.Race count path other thing)) }
{
    let mut text = Vec::new(alloc);
    put_number(&mut text, "step ", count)?;
    put_task(&mut text, ": tasks ", path)?;
    put_task(&mut text, " ", other)?;
    put(&mut text, " race on ")?;
    put_thing(&mut text, p, thing)?;
    put(&mut text, "\n")?;
    Ok(text)
}

/// What is found, with its status.
pub fn say_found(alloc: Global, p: &Program, found: Found) -> Result<Said, AllocError>
    ensures { IfOk result (λ said. (said.text.items ≡ found_text (program_of p.now) found)
        × (said.status ≡ found_status found)) }
{
    match found {
        Found::Clean => Ok(Said {
            text: Vec::from_slice(alloc, b"no such step\n")?,
            status: 0,
        }),
        Found::Absent(count, path, value) => Ok(Said {
            text: absent_text(alloc, count, path, value)?,
            status: 10,
        }),
        Found::Race(count, path, other, thing) => Ok(Said {
            text: race_text(alloc, p, count, path, other, thing)?,
            status: 10,
        }),
    }
}

/// The line of a text that is refused.
fn bad_line_text(alloc: Global, line: u32) -> Result<Vec<u8>, AllocError>
    ensures { IfOk result (λ text. text.items
        ≡ schedule_refusal_text (ScheduleFault.BadLine line)) }
{
    let mut text = Vec::new(alloc);
    put_number(
        &mut text,
        "schedule refused: 80 BadLine line ",
        u64::from(line),
    )?;
    put(&mut text, "\n")?;
    Ok(text)
}

/// That a text is no schedule, and why. An `Err` means that memory ran out, which is also the answer
/// where that was the cause.
pub fn say_no_schedule(alloc: Global, fault: ScheduleFault) -> Result<Said, AllocError>
    ensures said { IfOk result (λ said. (said.text.items ≡ schedule_refusal_text fault)
        × (said.status ≡ 11)) }
    ensures cause { IfOk result (λ said. fault ≢ OutOfMemory) }
{
    let text = match fault {
        ScheduleFault::BadLine(line) => bad_line_text(alloc, line)?,
        ScheduleFault::TooLong => Vec::from_slice(alloc, b"schedule refused: 81 TooLong\n")?,
        ScheduleFault::OutOfMemory => return Err(AllocError),
    };
    Ok(Said { text, status: 11 })
}

/// The line of the event of that number, counted from 0; 0 where it isn't there.
fn line_at(schedule: &Schedule, number: usize) -> u32
    ensures { result ≡ line_at schedule.now number }
{
    match schedule.as_slice().get(number) {
        Some(scheduled) => scheduled.line,
        None => 0,
    }
}

/// Why an event is none.
fn why_text(why: Stepped) -> &'static str
    ensures { result.now ≡ why_text why }
{
    match why {
        Stepped::Waiting(_) => "Waiting",
        Stepped::NoTask => "NoTask",
        Stepped::Stale => "Stale",
        Stepped::TooDeep => "TooDeep",
        Stepped::Moved | Stepped::Absent(_) => "",
    }
}

/// That the event of that number is none.
pub fn say_no_event(
    alloc: Global,
    schedule: &Schedule,
    number: usize,
    why: Stepped,
) -> Result<Said, AllocError>
    ensures { IfOk result (λ said. (said.text.items ≡ no_event_text schedule.now number why)
        × (said.status ≡ 11)) }
{
    let mut text = Vec::new(alloc);
    put_number(
        &mut text,
        "schedule refused: 82 NotAnEvent line ",
        u64::from(line_at(schedule, number)),
    )?;
    put(&mut text, " ")?;
    put(&mut text, why_text(why))?;
    put(&mut text, "\n")?;
    Ok(Said { text, status: 11 })
}
