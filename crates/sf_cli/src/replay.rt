//! What the command says to `replay`, in the order of its work: the program, the entry, the text of
//! the state, that of the schedule, and what comes of its events.

ghost use Rattle.std.specs.Prelude.{◌≡◌, ◌≢◌, ◌<◌, ◌≤◌, Some, IfOk, length};
ghost use Rattle.std.specs.List.{All};
ghost use Rattle.sf_core.specs.Program.ProgramView.{program_of};
ghost use Rattle.sf_foot.specs.Starting.{StartsWith};
ghost use Rattle.sf_replay.specs.Checked.Taking.{IsWide};
ghost use Rattle.sf_replay.specs.ScheduleText.{GivesSchedule};
ghost use Rattle.sf_state.specs.Entering.{IsEntry};
ghost use Rattle.sf_cli.specs.Answer.{IsAnswering, IsSaid, Reaches, Reply};
ghost use Rattle.sf_cli.specs.Checked.Stages.{Says};
ghost use Rattle.sf_cli.specs.Replayed.{BegunAnswer, ComesByBytes, ComesByEntry, ComesByProgram, ComesByState, EnteredAnswer, ReplayAnswer, ScheduleAnswer, ScheduleFileAnswer, StateFileAnswer};
ghost use Rattle.sf_words.specs.Words.{Text, replay};

use crate::found::{say_found, say_no_event, say_no_schedule};
use crate::reading::admit;
use crate::reply::{Said, fetch_up_to, say_of, say_refusal};
use crate::run::say_no_start;
use sf_base::ProcId;
use sf_base::limits::{FILE_BYTES, STATE_BYTES};
use sf_foot::Start;
use sf_io::{FetchFault, Shelf};
use sf_precise::Arranged;
use sf_replay::limits::SCHEDULE_BYTES;
use sf_replay::{ReplayFault, Schedule, replay};
use sf_state::{entry, read};
use std::alloc::{AllocError, Global};

/// What a replay is asked for, beside the program's file.
#[derive(Clone, Copy, Debug)]
pub struct ReplayWords<'a> {
    /// The name of the procedure whose events they are.
    pub procedure: &'a str,
    /// The name of the state's file.
    pub state: &'a str,
    /// The name of the schedule's file.
    pub schedule: &'a str,
}

/// The answer to a schedule, from a start of procedure `f`.
fn answer_to_events(
    alloc: Global,
    arranged: &Arranged,
    f: ProcId,
    start: Start,
    given: &[u8],
    schedule: &Schedule,
) -> Result<Said, AllocError>
    requires starts { StartsWith (program_of arranged.now.program) f start.fresh start.vars
        start.heap start.parts.items }
    requires fields { All (IsWide (length arranged.now.program.fields.items)) schedule.now }
    requires gives { GivesSchedule (program_of arranged.now.program).fields given.now
        schedule.now }
    ensures { IfOk result (λ said. ScheduleAnswer (program_of arranged.now.program) f start.fresh
        start.vars start.heap given.now said.text.items said.status) }
{
    match replay(alloc, arranged, f, &start, schedule) {
        Ok(found) => say_found(alloc, &arranged.program, found),
        Err(ReplayFault::NotAnEvent(number, why)) => say_no_event(alloc, schedule, number, why),
        Err(ReplayFault::OutOfMemory) => Err(AllocError),
    }
}

/// The answer to the text of a schedule, from a start of procedure `f`.
fn answer_to_schedule(
    alloc: Global,
    arranged: &Arranged,
    f: ProcId,
    start: Start,
    given: &[u8],
) -> Result<Said, AllocError>
    requires starts { StartsWith (program_of arranged.now.program) f start.fresh start.vars
        start.heap start.parts.items }
    ensures { IfOk result (λ said. ScheduleAnswer (program_of arranged.now.program) f start.fresh
        start.vars start.heap given.now said.text.items said.status) }
{
    match sf_replay::read(alloc, arranged, given) {
        Ok(schedule) => answer_to_events(alloc, arranged, f, start, given, &schedule),
        Err(fault) => say_no_schedule(alloc, fault),
    }
}

/// The same from a schedule's file. A fetch that fails is said.
fn replay_start<S: Shelf>(
    alloc: Global,
    arranged: &Arranged,
    f: ProcId,
    start: Start,
    name: &str,
    shelf: &mut S,
) -> Result<Said, AllocError>
    requires starts { StartsWith (program_of arranged.now.program) f start.fresh start.vars
        start.heap start.parts.items }
    ensures said { IfOk result (λ said.
        Says (ScheduleFileAnswer (S.files shelf.old) (program_of arranged.now.program) f
        start.fresh start.vars start.heap name.now) (λ other. other ≡ name.now)
        (S.faults shelf.old) (S.faults shelf.new) said.text.items said.status) }
    ensures files { S.files shelf.new ≡ S.files shelf.old }
    ensures others { (other : Text) → other ≢ name.now
        → S.faults shelf.new other ≡ S.faults shelf.old other }
    ensures quiet { IfOk result (λ said. IsAnswering said.status
        → (any : Text) → S.faults shelf.new any ≡ S.faults shelf.old any) }
    ensures counts { (any : Text) → S.faults shelf.old any ≤ S.faults shelf.new any }
{
    match fetch_up_to(alloc, name, SCHEDULE_BYTES, shelf) {
        Ok(bytes) => answer_to_schedule(alloc, arranged, f, start, bytes.as_slice()),
        Err(FetchFault::Failed) => say_of(alloc, "read fault: ", name.as_bytes(), 7),
        Err(FetchFault::OutOfMemory) => Err(AllocError),
    }
}

/// The answer to the text of a state of procedure `f`. The schedule's file is left alone where it is
/// no start.
fn replay_state<S: Shelf>(
    alloc: Global,
    arranged: &Arranged,
    f: ProcId,
    given: &[u8],
    words: &ReplayWords<'_>,
    shelf: &mut S,
) -> Result<Said, AllocError>
    requires there { f.0 < length arranged.now.program.procedures.items }
    requires entry { IsEntry (program_of arranged.now.program) words.now.procedure.now f }
    ensures said { IfOk result (λ said.
        Says (BegunAnswer (S.files shelf.old) (program_of arranged.now.program) f given.now
        words.now.schedule.now)
        (ComesByState (program_of arranged.now.program) f given.now words.now.schedule.now)
        (S.faults shelf.old) (S.faults shelf.new) said.text.items said.status) }
    ensures files { S.files shelf.new ≡ S.files shelf.old }
    ensures others { (other : Text) → (ComesByState (program_of arranged.now.program) f given.now
        words.now.schedule.now other → ⊥) → S.faults shelf.new other ≡ S.faults shelf.old other }
    ensures quiet { IfOk result (λ said. IsAnswering said.status
        → (any : Text) → S.faults shelf.new any ≡ S.faults shelf.old any) }
    ensures counts { (any : Text) → S.faults shelf.old any ≤ S.faults shelf.new any }
{
    match read(alloc, arranged, f, given) {
        Ok(start) => replay_start(alloc, arranged, f, start, words.schedule, shelf),
        Err(fault) => say_no_start(alloc, &fault),
    }
}

/// The same from a state's file. A fetch that fails is said.
fn replay_entry<S: Shelf>(
    alloc: Global,
    arranged: &Arranged,
    f: ProcId,
    words: &ReplayWords<'_>,
    shelf: &mut S,
) -> Result<Said, AllocError>
    requires there { f.0 < length arranged.now.program.procedures.items }
    requires entry { IsEntry (program_of arranged.now.program) words.now.procedure.now f }
    ensures said { IfOk result (λ said.
        Says (StateFileAnswer (S.files shelf.old) (program_of arranged.now.program) f
        words.now.state.now words.now.schedule.now)
        (ComesByEntry (S.files shelf.old) (program_of arranged.now.program) f words.now.state.now
        words.now.schedule.now)
        (S.faults shelf.old) (S.faults shelf.new) said.text.items said.status) }
    ensures files { S.files shelf.new ≡ S.files shelf.old }
    ensures others { (other : Text)
        → (ComesByEntry (S.files shelf.old) (program_of arranged.now.program) f
        words.now.state.now words.now.schedule.now other → ⊥)
        → S.faults shelf.new other ≡ S.faults shelf.old other }
    ensures quiet { IfOk result (λ said. IsAnswering said.status
        → (any : Text) → S.faults shelf.new any ≡ S.faults shelf.old any) }
    ensures counts { (any : Text) → S.faults shelf.old any ≤ S.faults shelf.new any }
{
    match fetch_up_to(alloc, words.state, STATE_BYTES, shelf) {
        Ok(state) => replay_state(alloc, arranged, f, state.as_slice(), words, shelf),
        Err(FetchFault::Failed) => say_of(alloc, "read fault: ", words.state.as_bytes(), 7),
        Err(FetchFault::OutOfMemory) => Err(AllocError),
    }
}

/// The answer for a program with which nothing is wrong, whether it is proved or not. The state's
/// file is left alone where there is no such entry.
fn replay_program<S: Shelf>(
    alloc: Global,
    arranged: &Arranged,
    words: &ReplayWords<'_>,
    shelf: &mut S,
) -> Result<Said, AllocError>
    ensures said { IfOk result (λ said.
        Says (EnteredAnswer (S.files shelf.old) (program_of arranged.now.program)
        words.now.procedure.now words.now.state.now words.now.schedule.now)
        (ComesByProgram (S.files shelf.old) (program_of arranged.now.program)
        words.now.procedure.now words.now.state.now words.now.schedule.now)
        (S.faults shelf.old) (S.faults shelf.new) said.text.items said.status) }
    ensures files { S.files shelf.new ≡ S.files shelf.old }
    ensures others { (other : Text)
        → (ComesByProgram (S.files shelf.old) (program_of arranged.now.program)
        words.now.procedure.now words.now.state.now words.now.schedule.now other → ⊥)
        → S.faults shelf.new other ≡ S.faults shelf.old other }
    ensures quiet { IfOk result (λ said. IsAnswering said.status
        → (any : Text) → S.faults shelf.new any ≡ S.faults shelf.old any) }
    ensures counts { (any : Text) → S.faults shelf.old any ≤ S.faults shelf.new any }
{
    match entry(alloc, arranged, words.procedure) {
        Ok(f) => replay_entry(alloc, arranged, f, words, shelf),
        Err(fault) => say_no_start(alloc, &fault),
    }
}

/// The answer for the program that a file of these bytes has. The state's file is left alone where
/// that is refused.
fn replay_bytes<S: Shelf>(
    alloc: Global,
    bytes: &[u8],
    words: &ReplayWords<'_>,
    shelf: &mut S,
) -> Result<Said, AllocError>
    ensures said { IfOk result (λ said.
        Says (ReplayAnswer (S.files shelf.old) bytes.now words.now.procedure.now
        words.now.state.now words.now.schedule.now)
        (ComesByBytes (S.files shelf.old) bytes.now words.now.procedure.now
        words.now.state.now words.now.schedule.now)
        (S.faults shelf.old) (S.faults shelf.new) said.text.items said.status) }
    ensures files { S.files shelf.new ≡ S.files shelf.old }
    ensures others { (other : Text)
        → (ComesByBytes (S.files shelf.old) bytes.now words.now.procedure.now
        words.now.state.now words.now.schedule.now other → ⊥)
        → S.faults shelf.new other ≡ S.faults shelf.old other }
    ensures quiet { IfOk result (λ said. IsAnswering said.status
        → (any : Text) → S.faults shelf.new any ≡ S.faults shelf.old any) }
    ensures counts { (any : Text) → S.faults shelf.old any ≤ S.faults shelf.new any }
{
    match admit(alloc, bytes) {
        Ok(arranged) => replay_program(alloc, &arranged, words, shelf),
        Err(refusal) => say_refusal(alloc, &refusal),
    }
}

/// What the command says to `replay` of the file of that name.
pub fn replay_file<S: Shelf>(
    alloc: Global,
    file: &str,
    words: &ReplayWords<'_>,
    shelf: &mut S,
) -> Result<Said, AllocError>
    ensures status { IfOk result (λ said. IsSaid said.status) }
    ensures said { IfOk result (λ said.
        Reply (S.files shelf.old) (S.faults shelf.old) (S.faults shelf.new)
        (Some (replay file.now words.now.procedure.now words.now.state.now
        words.now.schedule.now)) said.text.items said.status) }
    ensures files { S.files shelf.new ≡ S.files shelf.old }
    ensures others { (other : Text)
        → (Reaches (S.files shelf.old) (Some (replay file.now words.now.procedure.now
        words.now.state.now words.now.schedule.now)) other → ⊥)
        → S.faults shelf.new other ≡ S.faults shelf.old other }
    ensures quiet { IfOk result (λ said. IsAnswering said.status
        → (any : Text) → S.faults shelf.new any ≡ S.faults shelf.old any) }
    ensures counts { (any : Text) → S.faults shelf.old any ≤ S.faults shelf.new any }
{
    match fetch_up_to(alloc, file, FILE_BYTES, shelf) {
        Ok(bytes) => replay_bytes(alloc, bytes.as_slice(), words, shelf),
        Err(FetchFault::Failed) => say_of(alloc, "read fault: ", file.as_bytes(), 7),
        Err(FetchFault::OutOfMemory) => Err(AllocError),
    }
}
