//! What a line of a schedule says.

ghost use Rattle.std.specs.Prelude.{◌≡◌, length, IfOk, Some, Option};
ghost use Rattle.sf_core.specs.Program.ProgramView.{program_of};
ghost use Rattle.sf_lines.specs.Lines.{words};
ghost use Rattle.sf_replay.specs.Checked.Taking.{IsWideSaid};
ghost use Rattle.sf_replay.specs.ScheduleText.{event_with, happens, is_schedule, numbered, placed, said};
ghost use Rattle.sf_state.specs.CellWords.{cell_from};
ghost use Rattle.sf_state.specs.Words.{begins};

use crate::naming::{number_from, place_from, task_from};
use crate::schedule::Said;
use sf_base::TaskPath;
use sf_core::Program;
use sf_lines::{next_word, only_word};
use sf_machine::Event;
use sf_state::cell_from_words;
use std::alloc::{AllocError, Global};

/// Whether it is the line `schedule`.
pub(crate) fn is_schedule(line: &[u8]) -> bool
    ensures { result ≡ is_schedule line.now }
{
    match only_word(line) {
        Some(word) => word == b"schedule".as_slice(),
        None => false,
    }
}

/// An event with its cell, where that is in order.
fn event_with(
    alloc: Global,
    p: &Program,
    task: TaskPath,
    number: u64,
    at: u64,
    after: &[u8],
) -> Result<Said, AllocError>
    ensures said { IfOk result (λ said. said ≡ event_with task number (Some at)
        (cell_from (program_of p.now).fields (words after.now))) }
    ensures wide { IfOk result (IsWideSaid (length p.now.fields.items)) }
{
    match cell_from_words(alloc, p, after)? {
        Some(fields) => Ok(Said::Happens(Event {
            task,
            number,
            at,
            fields,
        })),
        None => Ok(Said::Bad),
    }
}

/// An event, by what comes after its number: nothing, or the cell that a `new` makes.
fn placed(
    alloc: Global,
    p: &Program,
    task: TaskPath,
    number: u64,
    after: &[u8],
) -> Result<Said, AllocError>
    ensures said { IfOk result
        (λ said. said ≡ placed (program_of p.now).fields task number (words after.now)) }
    ensures wide { IfOk result (IsWideSaid (length p.now.fields.items)) }
{
    let Some((word, rest)) = next_word(after) else {
        return event_with(alloc, p, task, number, number, after);
    };
    match place_from(word) {
        Some(at) => event_with(alloc, p, task, number, at, rest),
        None => Ok(Said::Bad),
    }
}

/// An event of a task, by what comes after the task.
fn happens(alloc: Global, p: &Program, task: TaskPath, after: &[u8]) -> Result<Said, AllocError>
    ensures said { IfOk result
        (λ said. said ≡ happens (program_of p.now).fields (Some task) (words after.now)) }
    ensures wide { IfOk result (IsWideSaid (length p.now.fields.items)) }
{
    let Some((word, rest)) = next_word(after) else {
        return Ok(Said::Bad);
    };
    match number_from(word) {
        Some(number) => placed(alloc, p, task, number, rest),
        None => Ok(Said::Bad),
    }
}

/// Whether the word begins a comment.
fn begins_comment(word: &[u8]) -> bool
    ensures { result ≡ begins 35 word.now }
{
    match word {
        [first, ..] => *first == b'#',
        _ => false,
    }
}

/// What a line says: nothing, where it has no word or is a comment; else an event.
pub(crate) fn says(alloc: Global, p: &Program, line: &[u8]) -> Result<Said, AllocError>
    ensures said { IfOk result
        (λ s. s ≡ said (program_of p.now).fields (words line.now)) }
    ensures wide { IfOk result (IsWideSaid (length p.now.fields.items)) }
{
    let Some((word, after)) = next_word(line) else {
        return Ok(Said::Nothing);
    };
    if begins_comment(word) {
        return Ok(Said::Nothing);
    }
    match task_from(word) {
        Some(task) => happens(alloc, p, task, after),
        None => Ok(Said::Bad),
    }
}
