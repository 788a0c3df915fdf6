//! The schedule that a text gives.

ghost use Rattle.std.specs.Prelude.{◌≡◌, ◌⊎◌, ◌+◌, ◌<◌, ◌≤◌, length, IfOk, MatchResult, None, Some, OnOk};
ghost use Rattle.std.specs.List.{All};
ghost use Rattle.sf_core.specs.Program.ProgramView.{program_of};
ghost use Rattle.sf_lines.specs.Lines.{bytes_left, lines_left, words};
ghost use Rattle.sf_replay.specs.Checked.Taking.{IsCut, IsWide, IsWideSaid, Taken};
ghost use Rattle.sf_replay.specs.ScheduleText.{GivesSchedule, events_from, refusal_from, said, schedule_refusal};

use crate::limits::{EVENTS, SCHEDULE_BYTES};
use crate::saying::{is_schedule, says};
use crate::schedule::{Said, Schedule, ScheduleFault, Scheduled};
use sf_base::Sequence;
use sf_core::Program;
use sf_lines::next_line;
use sf_precise::Arranged;
use std::alloc::Global;

/// How many lines of a text are skipped, up to the first `schedule`, and what is left after them.
fn cut(text: &[u8]) -> (u32, Option<&[u8]>)
    requires { length text.now ≤ SCHEDULE_BYTES }
    ensures cut { IsCut text.now result.0 (lines_left result.1) }
    ensures room { result.0 + bytes_left result.1 ≤ length text.now + 1 }
{
    let mut before: u32 = 0;
    let mut left = Some(text);
    while let Some(rest) = left {
        let (line, more) = next_line(rest);
        before += 1;
        if is_schedule(line) {
            return (before, more);
        }
        left = more;
    }
    (0, Some(text))
}

/// Takes what a line says, the one of that number.
fn take(schedule: &mut Vec<Scheduled>, line: u32, said: Said) -> Result<(), ScheduleFault>
    ensures { Taken line result schedule.old.items schedule.new.items said }
{
    match said {
        Said::Nothing => Ok(()),
        Said::Bad => Err(ScheduleFault::BadLine(line)),
        Said::Happens(event) => {
            if schedule.len() >= EVENTS {
                return Err(ScheduleFault::TooLong);
            }
            schedule.push(Scheduled { event, line })?;
            Ok(())
        }
    }
}

/// Reads the line of that number.
fn read_line(
    alloc: Global,
    p: &Program,
    schedule: &mut Vec<Scheduled>,
    number: u32,
    line: &[u8],
) -> Result<(), ScheduleFault>
    ensures taken { Taken number result schedule.old.items schedule.new.items
        (said (program_of p.now).fields (words line.now)) }
    ensures wide { OnOk result (All (IsWide (length p.now.fields.items)) schedule.old.items
        → All (IsWide (length p.now.fields.items)) schedule.new.items) }
{
    let said = says(alloc, p, line)?;
    take(schedule, number, said)
}

/// Reads the lines of what is left of a text, before which there are so many.
fn read_lines(
    alloc: Global,
    p: &Program,
    before: u32,
    text: Option<&[u8]>,
) -> Result<Vec<Scheduled>, ScheduleFault>
    requires { before + bytes_left text ≤ SCHEDULE_BYTES + 1 }
    ensures read { MatchResult result
        (λ schedule. (refusal_from (program_of p.now).fields before 0 (lines_left text.entry) ≡ None)
        × (schedule.items ≡ events_from (program_of p.now).fields before (lines_left text.entry)))
        (λ fault. (fault ≡ ScheduleFault.OutOfMemory)
        ⊎ (refusal_from (program_of p.now).fields before 0 (lines_left text.entry) ≡ Some fault)) }
    ensures wide { IfOk result
        (λ schedule. All (IsWide (length p.now.fields.items)) schedule.items) }
{
    let mut schedule = Vec::new(alloc);
    let mut number = before;
    let mut left = text;
    while let Some(rest) = left {
        let (line, more) = next_line(rest);
        number += 1;
        read_line(alloc, p, &mut schedule, number, line)?;
        left = more;
    }
    Ok(schedule)
}

/// The schedule that a text gives. Each line is empty, a comment, or an event; all up to the first
/// line `schedule`, that one too, are skipped. Each event has a value for each field of the
/// program.
///
/// `TooLong` comes exactly where the text has more than 67,108,864 bytes, or where an event is
/// number 1,000,001 and no line before it is refused; `BadLine` exactly where its line is the first
/// that is refused. Or memory runs out.
pub fn read(alloc: Global, p: &Arranged, text: &[u8]) -> Result<Schedule, ScheduleFault>
    ensures read { MatchResult result
        (GivesSchedule (program_of p.now.program).fields text.now)
        (λ fault. (fault ≡ ScheduleFault.OutOfMemory)
        ⊎ (schedule_refusal (program_of p.now.program).fields text.now ≡ Some fault)) }
    ensures wide { IfOk result
        (λ schedule. All (IsWide (length p.now.program.fields.items)) schedule) }
{
    if text.len() > SCHEDULE_BYTES {
        return Err(ScheduleFault::TooLong);
    }
    let (before, left) = cut(text);
    let events = read_lines(alloc, &p.program, before, left)?;
    Ok(Sequence::from_vec(events))
}
