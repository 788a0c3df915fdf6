//! The obligation at which a search is stuck: its place, its line with a mark below it, what is known
//! and wanted there, and what often helps.

use crate::refused::{put_place, width_at};
use crate::reply::Said;
use sf_base::{Place, ProcId};
use sf_core::Program;
use sf_goals::{End, front_place, kind_word, put_failure, search_of};
use sf_hints::{put, put_number, put_source};
use sf_precise::Arranged;
use sf_sym::{Goal, Stuck};
use sf_tour::Source;
use std::alloc::{AllocError, Global};

/// The procedure of that number.
pub fn id_of(number: usize) -> ProcId {
    match u32::try_from(number) {
        Ok(f) => ProcId(f),
        Err(_) => ProcId(u32::MAX),
    }
}

/// Where the procedure's name stands.
pub fn place_of(p: &Program, f: ProcId) -> Place {
    match p.procedures.get(f.0 as usize) {
        Some(procedure) => procedure.place,
        None => Place { line: 1, column: 1 },
    }
}

/// Appends the place, that the procedure fails, for that reason, and the line. An `Err` says that
/// memory ran out.
fn put_head(
    text: &mut Vec<u8>,
    alloc: Global,
    source: Source<'_>,
    name: &[u8],
    place: Place,
    why: &str,
) -> Result<(), AllocError> {
    put_place(text, source.file, place)?;
    put(text, "failed ")?;
    text.extend_from_slice(name)?;
    put(text, " ")?;
    put(text, why)?;
    put(text, "\n")?;
    let width = width_at(alloc, source.bytes, place);
    put_source(text, source.bytes, place, width)
}

/// That the search of a procedure is stuck at that goal, for that reason. An `Err` says that memory
/// ran out.
fn say_stuck(
    alloc: Global,
    source: Source<'_>,
    p: &Program,
    f: ProcId,
    goal: &Goal,
    kind: Stuck,
) -> Result<Said, AllocError> {
    let mut text = Vec::new(alloc);
    let place = front_place(goal);
    put_head(
        &mut text,
        alloc,
        source,
        p.name_of(f),
        place,
        kind_word(kind),
    )?;
    put_failure(&mut text, alloc, p, f, goal, kind)?;
    Ok(Said { text, status: 1 })
}

/// That the proof of a procedure would have more tags than it may. An `Err` says that memory ran out.
fn say_too_large(
    alloc: Global,
    source: Source<'_>,
    p: &Program,
    f: ProcId,
) -> Result<Said, AllocError> {
    let mut text = Vec::new(alloc);
    let place = place_of(p, f);
    put_head(&mut text, alloc, source, p.name_of(f), place, "TooLarge")?;
    put(
        &mut text,
        "often helps:\n  its proof would have more than 200,000 steps: ",
    )?;
    put(
        &mut text,
        "part it into procedures, with a contract for each\n",
    )?;
    Ok(Said { text, status: 1 })
}

/// That all is proved, in so many steps. An `Err` says that memory ran out.
fn say_proved(alloc: Global, procedures: usize, steps: u64) -> Result<Said, AllocError> {
    let mut text = Vec::from_slice(alloc, b"accepted\n")?;
    put_number(&mut text, "procedures: ", procedures as u64)?;
    put_number(&mut text, ", steps: ", steps)?;
    put(&mut text, "\n")?;
    Ok(Said { text, status: 0 })
}

/// Why the first procedure fails that does, or that all are proved. An `Err` says that memory ran
/// out.
pub fn say_verdict(
    alloc: Global,
    source: Source<'_>,
    arranged: &Arranged,
) -> Result<Said, AllocError> {
    let p = &arranged.program;
    let mut steps: u64 = 0;
    for number in 0..p.procedures.len() {
        let f = id_of(number);
        let found = search_of(alloc, arranged, f)?;
        match &found.end {
            End::Proved => steps = steps.saturating_add(found.tags.len() as u64),
            End::Stuck(goal, kind) => return say_stuck(alloc, source, p, f, goal, *kind),
            End::TooLarge => return say_too_large(alloc, source, p, f),
        }
    }
    say_proved(alloc, p.procedures.len(), steps)
}
