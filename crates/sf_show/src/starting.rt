//! A start of a procedure from the text of a state, and why a text is none.

ghost use Rattle.std.specs.Prelude.{IfOk};
ghost use Rattle.sf_core.specs.Program.ProgramView.{program_of};
ghost use Rattle.sf_foot.specs.Starting.{StartsWith};

use crate::files::Files;
use crate::order::RunWords;
use crate::reply::Said;
use sf_base::{Name, ProcId};
use sf_foot::Start;
use sf_hints::{put, put_line, put_number};
use sf_precise::Arranged;
use sf_state::{StartFault, entry, read};
use sf_tour::{Source, put_unmet};
use std::alloc::{AllocError, Global};

/// A run that is asked for.
#[derive(Clone, Copy)]
pub struct Asked<'a> {
    /// The file.
    pub source: Source<'a>,
    /// Its program.
    pub arranged: &'a Arranged,
    /// What the command's words say of the run.
    pub words: RunWords<'a>,
    /// What the files have that they name.
    pub files: &'a Files,
}

impl<'a> Asked<'a> {
    /// A run of that file's program, by those words and the files that they name.
    pub fn new(
        source: Source<'a>,
        arranged: &'a Arranged,
        words: RunWords<'a>,
        files: &'a Files,
    ) -> Asked<'a> {
        Asked {
            source,
            arranged,
            words,
            files,
        }
    }
}

/// A procedure, and a start of it.
#[derive(Drop)]
pub struct Entered {
    /// The procedure.
    pub f: ProcId,
    /// The start.
    pub start: Start,
}

/// The procedure of that name with the start that the text gives, or why there is none.
fn start_of(
    alloc: Global,
    arranged: &Arranged,
    name: &str,
    state: &[u8],
) -> Result<Entered, StartFault>
    ensures { IfOk result (λ e. StartsWith (program_of arranged.now.program) e.f e.start.fresh
        e.start.vars e.start.heap e.start.parts.items) }
{
    let f = entry(alloc, arranged, name)?;
    let start = read(alloc, arranged, f, state)?;
    Ok(Entered { f, start })
}

/// The procedure of a run that is asked for, with its start, or why there is none.
pub fn enter(alloc: Global, asked: Asked<'_>) -> Result<Entered, StartFault>
    ensures { IfOk result (λ e. StartsWith (program_of asked.entry.arranged.now.program) e.f
        e.start.fresh e.start.vars e.start.heap e.start.parts.items) }
{
    let state = asked.files.state.as_slice();
    start_of(alloc, asked.arranged, asked.words.entry, state)
}

/// The number, the word and the meaning of a fault.
fn words_of(fault: &StartFault) -> &'static str {
    match fault {
        StartFault::BadLine(_) => "70 BadLine: a line that gives no variable and no cell",
        StartFault::Twice(_) => "71 Twice: this is given twice",
        StartFault::Missing(_) => "72 Missing: this variable isn't given",
        StartFault::Unknown(_) => "73 Unknown: nothing has this name",
        StartFault::Unmet(_) => "74 Unmet: no part of the heap satisfies this",
        StartFault::LeftOver(_) => "75 LeftOver: nothing has this cell",
        StartFault::FreeEntry(_) => "76 FreeEntry: its contract needs a resource to be held",
        StartFault::TooLong => "77 TooLong: more than 67,108,864 bytes, or 1,000,000 cells",
        StartFault::OutOfMemory => "",
    }
}

/// What a fault names: the name, or nothing.
fn name_of(fault: &StartFault) -> Option<&Name> {
    match fault {
        StartFault::Twice(name)
        | StartFault::Missing(name)
        | StartFault::Unknown(name)
        | StartFault::Unmet(name)
        | StartFault::FreeEntry(name) => Some(name),
        StartFault::BadLine(_)
        | StartFault::LeftOver(_)
        | StartFault::TooLong
        | StartFault::OutOfMemory => None,
    }
}

/// Appends what a fault names. An `Err` says that memory ran out.
fn put_named(text: &mut Vec<u8>, fault: &StartFault) -> Result<(), AllocError> {
    if let StartFault::LeftOver(location) = fault {
        put_number(text, ": @", *location)?;
    }
    if let Some(name) = name_of(fault) {
        put(text, ": ")?;
        text.extend_from_slice(name.as_bytes())?;
    }
    put(text, "\n")
}

/// Appends what is in the way of the precondition, or of an invariant. An `Err` says that memory ran
/// out.
fn put_why(
    text: &mut Vec<u8>,
    alloc: Global,
    arranged: &Arranged,
    source: Source<'_>,
    name: &str,
    state: &[u8],
) -> Result<(), AllocError> {
    match entry(alloc, arranged, name) {
        Ok(f) => put_unmet(text, alloc, arranged, f, source.bytes, state),
        Err(_) => Ok(()),
    }
}

/// What is said of a procedure's name and a state's text with which the program has no start, for that
/// reason. An `Err` says that memory ran out, which is also the answer where that was the cause.
pub fn say_no_start(
    alloc: Global,
    asked: Asked<'_>,
    fault: &StartFault,
) -> Result<Said, AllocError> {
    let (words, state) = (asked.words, asked.files.state.as_slice());
    if let StartFault::OutOfMemory = fault {
        return Err(AllocError);
    }
    let line = match fault {
        StartFault::BadLine(line) => *line,
        _ => 1,
    };
    let mut text = Vec::from_slice(alloc, words.state.as_bytes())?;
    put_number(&mut text, ":", u64::from(line))?;
    put(&mut text, ":1: start refused: ")?;
    put(&mut text, words_of(fault))?;
    put_named(&mut text, fault)?;
    if let StartFault::BadLine(line) = fault {
        put_line(&mut text, state, *line)?;
    }
    if let StartFault::Unmet(_) = fault {
        put_why(
            &mut text,
            alloc,
            asked.arranged,
            asked.source,
            words.entry,
            state,
        )?;
    }
    Ok(Said { text, status: 5 })
}
