//! What is said to `trace`, in the order of its work: the program, the state, the schedule, and the
//! configurations along it.

ghost use Rattle.sf_core.specs.Program.ProgramView.{program_of};
ghost use Rattle.sf_foot.specs.Starting.{StartsWith};

use crate::files::{Files, fetch_run};
use crate::order::RunWords;
use crate::reading::admit;
use crate::refused::say_refused;
use crate::reply::{Said, Unsaid, fetch_up_to};
use crate::starting::{Asked, Entered, enter, say_no_start};
use sf_base::ProcId;
use sf_base::limits::FILE_BYTES;
use sf_core::Program;
use sf_foot::Start;
use sf_hints::{put, put_line, put_number};
use sf_io::Shelf;
use sf_precise::Arranged;
use sf_replay::{ScheduleFault, read};
use sf_tour::{Outcome, Sight, Source, drive, put_tour, tour_of};
use std::alloc::{AllocError, Global};

/// A text of a schedule, from that file, or made here, and what is to be said after it.
#[derive(Drop)]
pub struct Given<'a> {
    /// The name of its file, or of the state.
    pub file: &'a str,
    /// Its text.
    pub text: Vec<u8>,
    /// What is said after its last event.
    pub last: &'static str,
}

/// The status of what is seen of a schedule.
fn status_of(sight: Sight) -> u8 {
    match sight {
        Sight::Clean => 0,
        Sight::Absent(_, _) | Sight::Race(_, _, _) => 10,
        Sight::NotAnEvent(_) => 11,
    }
}

/// What is said of a text that is no schedule. An `Err` says that memory ran out.
pub fn say_no_schedule(
    alloc: Global,
    given: &Given<'_>,
    fault: ScheduleFault,
) -> Result<Said, AllocError> {
    let mut text = Vec::from_slice(alloc, given.file.as_bytes())?;
    match fault {
        ScheduleFault::BadLine(line) => {
            put_number(&mut text, ":", u64::from(line))?;
            put(
                &mut text,
                ":1: schedule refused: 80 BadLine: a line that is no event\n",
            )?;
            put_line(&mut text, given.text.as_slice(), line)?;
        }
        ScheduleFault::TooLong => {
            put(
                &mut text,
                ":1:1: schedule refused: 81 TooLong: too many bytes or events\n",
            )?;
        }
        ScheduleFault::OutOfMemory => return Err(AllocError),
    }
    Ok(Said { text, status: 11 })
}

/// The configurations along the events of a schedule's text. An `Err` says that memory ran out.
fn say_tour(
    alloc: Global,
    source: Source<'_>,
    arranged: &Arranged,
    f: ProcId,
    start: &Start,
    given: &Given<'_>,
) -> Result<Said, AllocError>
    requires { StartsWith (program_of arranged.now.program) f start.now.fresh start.now.vars
        start.now.heap start.now.parts.items }
{
    let schedule = match read(alloc, arranged, given.text.as_slice()) {
        Ok(schedule) => schedule,
        Err(fault) => return say_no_schedule(alloc, given, fault),
    };
    let tour = tour_of(alloc, arranged, f, start, &schedule)?;
    let mut text = Vec::new(alloc);
    let p = &arranged.program;
    put_tour(&mut text, alloc, p, source, f, start, &schedule, tour)?;
    if tour.sight == Sight::Clean {
        put(&mut text, given.last)?;
    }
    Ok(Said {
        text,
        status: status_of(tour.sight),
    })
}

/// What is said of how an interleaving ends.
fn last_words(outcome: Outcome) -> &'static str {
    match outcome {
        Outcome::Ended => "the run has ended\n",
        Outcome::Stays => "no task has an event: all wait\n",
        Outcome::Long => "the run goes on; 2,000 events are shown\n",
    }
}

/// The text of a schedule as its own. An `Err` says that memory ran out.
fn given_text<'a>(
    alloc: Global,
    words: RunWords<'a>,
    text: &[u8],
) -> Result<Given<'a>, AllocError> {
    Ok(Given {
        file: words.schedule.unwrap_or(words.state),
        text: Vec::from_slice(alloc, text)?,
        last: "",
    })
}

/// The text of the schedule that is given, or of one in which the tasks take turns. An `Err` says that
/// memory ran out.
pub fn schedule_of<'a>(
    alloc: Global,
    p: &Program,
    f: ProcId,
    start: &Start,
    words: RunWords<'a>,
    files: &Files,
) -> Result<Given<'a>, AllocError>
    requires { StartsWith (program_of p.now) f start.now.fresh start.now.vars start.now.heap
        start.now.parts.items }
{
    if let Some(text) = &files.schedule {
        return given_text(alloc, words, text.as_slice());
    }
    let driven = drive(alloc, p, f, start)?;
    Ok(Given {
        file: words.state,
        text: driven.text,
        last: last_words(driven.outcome),
    })
}

/// What is said of a run from a start of the program, with which nothing is wrong. An `Err` says that
/// memory ran out.
fn trace_start(alloc: Global, asked: Asked<'_>, entered: &Entered) -> Result<Said, AllocError>
    requires { StartsWith (program_of asked.arranged.now.program) entered.now.f
        entered.now.start.fresh entered.now.start.vars entered.now.start.heap
        entered.now.start.parts.items }
{
    let (source, arranged) = (asked.source, asked.arranged);
    let (f, start) = (entered.f, &entered.start);
    let given = schedule_of(alloc, &arranged.program, f, start, asked.words, asked.files)?;
    say_tour(alloc, source, arranged, f, start, &given)
}

/// What is said of a run of the program, with which nothing is wrong. An `Err` says that memory ran
/// out.
fn trace_program(alloc: Global, asked: Asked<'_>) -> Result<Said, AllocError> {
    match enter(alloc, asked) {
        Ok(entered) => trace_start(alloc, asked, &entered),
        Err(fault) => say_no_start(alloc, asked, &fault),
    }
}

/// What is said to `trace` of a program's file and the files of its run. An `Err` says that memory ran
/// out.
pub fn trace_files(
    alloc: Global,
    source: Source<'_>,
    words: RunWords<'_>,
    files: &Files,
) -> Result<Said, AllocError> {
    match admit(alloc, source.bytes) {
        Ok(arranged) => trace_program(alloc, Asked::new(source, &arranged, words, files)),
        Err(refusal) => say_refused(alloc, source.file, source.bytes, &refusal),
    }
}

/// What is said to `trace` of the file of that name.
pub fn trace<S: Shelf>(
    alloc: Global,
    file: &str,
    words: RunWords<'_>,
    shelf: &mut S,
) -> Result<Said, Unsaid> {
    let bytes = fetch_up_to(alloc, file, FILE_BYTES, shelf)?;
    let files = fetch_run(alloc, words, shelf)?;
    let source = Source {
        file,
        bytes: bytes.as_slice(),
    };
    Ok(trace_files(alloc, source, words, &files)?)
}
