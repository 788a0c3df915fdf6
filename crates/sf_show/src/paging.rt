//! What is said to `page`: the source, each procedure's proof step by step, the failure, and a run.

ghost use Rattle.sf_core.specs.Program.ProgramView.{program_of};
ghost use Rattle.sf_foot.specs.Starting.{StartsWith};

use crate::files::{Files, fetch_run};
use crate::order::RunWords;
use crate::reading::{Refusal, admit};
use crate::reply::{Said, Unsaid, fetch_up_to};
use crate::scening::{mark_of_refusal, proof_track, run_along};
use crate::starting::{Asked, Entered, enter, say_no_start};
use crate::tracing::{Given, say_no_schedule, schedule_of};
use sf_base::ProcId;
use sf_base::limits::FILE_BYTES;
use sf_foot::Start;
use sf_hints::put_number;
use sf_io::Shelf;
use sf_page::{Page, Track, Verdict, make_page};
use sf_precise::Arranged;
use sf_replay::read;
use sf_scenes::{lines_of, text_of};
use sf_tour::Source;
use std::alloc::{AllocError, Global};

/// How many steps all tracks of a page have at most.
const STEPS: usize = 4_000;

/// A page of that source, with nothing on it yet. An `Err` says that memory ran out.
fn bare_page(alloc: Global, source: Source<'_>) -> Result<Page, AllocError> {
    Ok(Page {
        title: text_of(alloc, source.file)?,
        summary: Vec::new(alloc),
        source: lines_of(alloc, source.bytes)?,
        marks: Vec::new(alloc),
        tracks: Vec::new(alloc),
        run: None,
    })
}

/// The page as text, with that status. An `Err` says that memory ran out.
fn say_page(alloc: Global, page: &Page, status: u8) -> Result<Said, AllocError> {
    Ok(Said {
        text: make_page(alloc, page)?,
        status,
    })
}

/// The page of a file that is refused. An `Err` says that memory ran out.
fn say_refused_page(
    alloc: Global,
    source: Source<'_>,
    refusal: &Refusal,
) -> Result<Said, AllocError> {
    let mut page = bare_page(alloc, source)?;
    page.summary = text_of(alloc, "this file is refused")?;
    page.marks
        .push(mark_of_refusal(alloc, source.bytes, refusal)?)?;
    say_page(alloc, &page, 3)
}

/// Whether the track ended well.
fn is_fine(track: &Track) -> bool {
    match track.verdict {
        Verdict::Fine => true,
        Verdict::Bad | Verdict::Unknown => false,
    }
}

/// Appends the tracks of the procedures, and counts those that are proved. An `Err` says that memory
/// ran out.
fn add_proofs(
    alloc: Global,
    arranged: &Arranged,
    tracks: &mut Vec<Track>,
) -> Result<usize, AllocError> {
    let mut proved: usize = 0;
    let mut room = STEPS;
    let mut number: u32 = 0;
    for _ in &arranged.program.procedures {
        let track = proof_track(alloc, arranged, ProcId(number), room)?;
        if is_fine(&track) {
            proved = proved.saturating_add(1);
        }
        room = room.saturating_sub(track.steps.len());
        tracks.push(track)?;
        number = number.saturating_add(1);
    }
    Ok(proved)
}

/// How many procedures are proved and how many fail. An `Err` says that memory ran out.
fn summary_of(alloc: Global, all: usize, proved: usize) -> Result<Vec<u8>, AllocError> {
    let mut text = Vec::new(alloc);
    put_number(&mut text, "procedures proved: ", proved as u64)?;
    put_number(&mut text, " of ", all as u64)?;
    Ok(text)
}

/// The page of a program, with the proofs of its procedures. An `Err` says that memory ran out.
fn proofs_page(
    alloc: Global,
    source: Source<'_>,
    arranged: &Arranged,
) -> Result<(Page, u8), AllocError> {
    let mut page = bare_page(alloc, source)?;
    let all = arranged.program.procedures.len();
    let proved = add_proofs(alloc, arranged, &mut page.tracks)?;
    page.summary = summary_of(alloc, all, proved)?;
    let status = if proved == all { 0 } else { 1 };
    Ok((page, status))
}

/// How many steps there is still room for beside those of these tracks.
fn room_of(tracks: &[Track]) -> usize {
    let mut room = STEPS;
    for track in tracks {
        room = room.saturating_sub(track.steps.len());
    }
    room
}

/// Adds a run by the events of that text to the page; what is said where the text is no schedule. An
/// `Err` says that memory ran out.
fn add_run(
    alloc: Global,
    source: Source<'_>,
    arranged: &Arranged,
    f: ProcId,
    start: &Start,
    given: &Given<'_>,
    page: &mut Page,
) -> Result<Option<Said>, AllocError>
    requires { StartsWith (program_of arranged.now.program) f start.now.fresh start.now.vars
        start.now.heap start.now.parts.items }
{
    let schedule = match read(alloc, arranged, given.text.as_slice()) {
        Ok(schedule) => schedule,
        Err(fault) => return Ok(Some(say_no_schedule(alloc, given, fault)?)),
    };
    let room = room_of(&page.tracks);
    let (track, run) = run_along(alloc, arranged, source.bytes, f, start, &schedule, room)?;
    page.tracks.push(track)?;
    page.run = Some(run);
    Ok(None)
}

/// The page of a program with a run of it from a start. An `Err` says that memory ran out.
fn say_start_page(alloc: Global, asked: Asked<'_>, entered: &Entered) -> Result<Said, AllocError>
    requires { StartsWith (program_of asked.arranged.now.program) entered.now.f
        entered.now.start.fresh entered.now.start.vars entered.now.start.heap
        entered.now.start.parts.items }
{
    let (source, arranged) = (asked.source, asked.arranged);
    let (f, start) = (entered.f, &entered.start);
    let given = schedule_of(alloc, &arranged.program, f, start, asked.words, asked.files)?;
    let (mut page, status) = proofs_page(alloc, source, arranged)?;
    match add_run(alloc, source, arranged, f, start, &given, &mut page)? {
        Some(said) => Ok(said),
        None => say_page(alloc, &page, status),
    }
}

/// The page of a program with a run of it. An `Err` says that memory ran out.
fn say_run_page(alloc: Global, asked: Asked<'_>) -> Result<Said, AllocError> {
    match enter(alloc, asked) {
        Ok(entered) => say_start_page(alloc, asked, &entered),
        Err(fault) => say_no_start(alloc, asked, &fault),
    }
}

/// The page of a program without a run. An `Err` says that memory ran out.
fn say_still_page(
    alloc: Global,
    source: Source<'_>,
    arranged: &Arranged,
) -> Result<Said, AllocError> {
    let (page, status) = proofs_page(alloc, source, arranged)?;
    say_page(alloc, &page, status)
}

/// The page of a file without a run. An `Err` says that memory ran out.
fn page_file(alloc: Global, source: Source<'_>) -> Result<Said, AllocError> {
    match admit(alloc, source.bytes) {
        Ok(arranged) => say_still_page(alloc, source, &arranged),
        Err(refusal) => say_refused_page(alloc, source, &refusal),
    }
}

/// The page of a file with a run. An `Err` says that memory ran out.
fn page_files(
    alloc: Global,
    source: Source<'_>,
    words: RunWords<'_>,
    files: &Files,
) -> Result<Said, AllocError> {
    match admit(alloc, source.bytes) {
        Ok(arranged) => say_run_page(alloc, Asked::new(source, &arranged, words, files)),
        Err(refusal) => say_refused_page(alloc, source, &refusal),
    }
}

/// What is said to `page` of a file with these bytes, and of the run that is named.
fn page_bytes<S: Shelf>(
    alloc: Global,
    source: Source<'_>,
    words: Option<RunWords<'_>>,
    shelf: &mut S,
) -> Result<Said, Unsaid> {
    let Some(words) = words else {
        return Ok(page_file(alloc, source)?);
    };
    let files = fetch_run(alloc, words, shelf)?;
    Ok(page_files(alloc, source, words, &files)?)
}

/// What is said to `page` of the file of that name, and of the run that is named.
pub fn page<S: Shelf>(
    alloc: Global,
    file: &str,
    words: Option<RunWords<'_>>,
    shelf: &mut S,
) -> Result<Said, Unsaid> {
    let bytes = fetch_up_to(alloc, file, FILE_BYTES, shelf)?;
    let source = Source {
        file,
        bytes: bytes.as_slice(),
    };
    page_bytes(alloc, source, words, shelf)
}
