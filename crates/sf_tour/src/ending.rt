//! What is said of what is found at the end of a schedule.

use crate::naming::put_task;
use crate::sight::Sight;
use sf_base::{Place, ResId, TaskPath, Thing, Value};
use sf_core::Program;
use sf_hints::{put, put_number};
use sf_machine::{Config, Stepped};
use sf_state::put_value;
use std::alloc::AllocError;

/// The file of a program: its name and its bytes.
#[derive(Clone, Copy, Debug)]
pub struct Source<'a> {
    /// Its name, as it was given.
    pub file: &'a str,
    /// Its bytes.
    pub bytes: &'a [u8],
}

/// Appends `FILE:LINE:COLUMN: ` of the next command of a task, if it does one. An `Err` says that
/// memory ran out.
fn put_where(
    text: &mut Vec<u8>,
    source: Source<'_>,
    place: Option<Place>,
) -> Result<(), AllocError> {
    let Some(place) = place else {
        return Ok(());
    };
    put(text, source.file)?;
    put_number(text, ":", u64::from(place.line))?;
    put_number(text, ":", u64::from(place.column))?;
    put(text, ": ")
}

/// Appends a variable of a resource: the resource's name and its own. An `Err` says that memory ran
/// out.
fn put_shared(text: &mut Vec<u8>, p: &Program, r: ResId, index: u32) -> Result<(), AllocError> {
    let Some(resource) = p.resources.get(r.0 as usize) else {
        return Ok(());
    };
    text.extend_from_slice(resource.name.as_bytes())?;
    put(text, ".")?;
    match resource.variables.get(index as usize) {
        Some(name) => text.extend_from_slice(name.as_bytes()),
        None => Ok(()),
    }
}

/// Appends what tasks race on. An `Err` says that memory ran out.
fn put_thing(text: &mut Vec<u8>, p: &Program, thing: Thing) -> Result<(), AllocError> {
    match thing {
        Thing::At(location) => put_number(text, "the cell @", location),
        Thing::Own(slot) => put_number(text, "a variable made by event ", slot.event),
        Thing::Shared(r, index) => {
            put(text, "the variable ")?;
            put_shared(text, p, r, index)
        }
    }
}

/// Why an event is none.
fn why_words(why: Stepped) -> &'static str {
    match why {
        Stepped::Moved => "is made",
        Stepped::Absent(_) => "would touch a cell that isn't there",
        Stepped::Waiting(_) => "waits: its resource is held, or its condition is false",
        Stepped::NoTask =>
            "is none: there is no such task, it has ended, or waits for its children",
        Stepped::Stale => "is none: its number was used, or its location is taken",
        Stepped::TooDeep => "is none: its fork is too deep",
    }
}

/// The place of the next command of a task, if it does one.
fn place_of(c: &Config<'_>, task: TaskPath) -> Option<Place> {
    match c.next_command(task) {
        Some(command) => Some(command.place()),
        None => None,
    }
}

/// Appends that a task is about to touch a cell at that value, where there is none. An `Err` says that
/// memory ran out.
fn put_absent(text: &mut Vec<u8>, task: TaskPath, value: Value) -> Result<(), AllocError> {
    put(text, "task ")?;
    put_task(text, task)?;
    put(text, " is about to touch a cell that isn't there: ")?;
    put_value(text, value)
}

/// Appends that two tasks race on something. An `Err` says that memory ran out.
fn put_race(
    text: &mut Vec<u8>,
    p: &Program,
    task: TaskPath,
    other: TaskPath,
    thing: Thing,
) -> Result<(), AllocError> {
    put(text, "tasks ")?;
    put_task(text, task)?;
    put(text, " and ")?;
    put_task(text, other)?;
    put(text, " race on ")?;
    put_thing(text, p, thing)
}

/// Appends what is found at the end, after the place of the command that is at fault. An `Err` says
/// that memory ran out.
pub(crate) fn put_sight(
    text: &mut Vec<u8>,
    p: &Program,
    source: Source<'_>,
    c: &Config<'_>,
    sight: Sight,
) -> Result<(), AllocError> {
    put(text, "\n")?;
    match sight {
        Sight::Clean => put(text, "nothing bad is seen")?,
        Sight::Absent(task, value) => {
            put_where(text, source, place_of(c, task))?;
            put_absent(text, task, value)?;
        }
        Sight::Race(task, other, thing) => {
            put_where(text, source, place_of(c, task))?;
            put_race(text, p, task, other, thing)?;
        }
        Sight::NotAnEvent(why) => {
            put(text, "the next event ")?;
            put(text, why_words(why))?;
        }
    }
    put(text, "\n")
}
