//! What the command says to `run` and to `journal`, in the order of its work: the verdict on the
//! program, the entry, the text of the state, and what comes of that start.

ghost use Rattle.std.specs.Prelude.{◌≡◌, ◌≢◌, ◌<◌, ◌≤◌, false, Some, IfOk, length};
ghost use Rattle.sf_base.specs.declared.limits.TheConstants.{STEPS, WAITS};
ghost use Rattle.sf_check.specs.Accepted.{arranged_in};
ghost use Rattle.sf_core.specs.Program.Init.{sets_up};
ghost use Rattle.sf_core.specs.Program.ProgramView.{program_of};
ghost use Rattle.sf_foot.specs.Starting.{StartsWith};
ghost use Rattle.sf_io.specs.Increased.{Increased};
ghost use Rattle.sf_cli.specs.Answer.{AreRun, HasRun, IsProved, Reaches, Reply, RunAnswer, RunFileAnswer, RunFileJournal, RunJournal, read_fault_text};
ghost use Rattle.sf_cli.specs.SoundFile.{MayHave};
ghost use Rattle.sf_cli.specs.Checked.Kept.{KeptAnswer, run_order};
ghost use Rattle.sf_cli.specs.Checked.Printed.{IsBeginText};
ghost use Rattle.sf_cli.specs.Journaled.{StateJournal};
ghost use Rattle.sf_cli.specs.Ran.{StateAnswer};
ghost use Rattle.sf_cli.specs.StartRefusals.{start_refusal_text};
ghost use Rattle.sf_run.specs.Running.{program_in};
ghost use Rattle.sf_state.specs.Entering.{HoldsNone};
ghost use Rattle.sf_state.specs.declared.fault.StartFault.TheVariants.{OutOfMemory};
ghost use Rattle.sf_words.specs.Words.{Text};

use crate::journal::say_end;
use crate::outcome::say_stop;
use crate::reading::admit;
use crate::reply::{Said, fetch_up_to, say_failure, say_of, say_refusal};
use crate::start_refusal::start_refusal_text;
use sf_base::ProcId;
use sf_base::limits::{FILE_BYTES, STATE_BYTES};
use sf_check::Proof;
use sf_foot::Start;
use sf_io::{FetchFault, Gate, Shelf};
use sf_precise::Arranged;
use sf_rules::laws::arranged_has_setting;
use sf_run::{Budget, beginnings_are_unique, run_kept};
use sf_search::VerifyFault;
use sf_state::{StartFault, entry, read};
use sf_verify::verify;
use std::alloc::{AllocError, Global};
use std::sync::Wait;
use std::thread::Threads;

/// What a run is asked for, beside the program's file.
#[derive(Clone, Copy, Debug)]
pub struct RunWords<'a> {
    /// The name of the procedure that is run.
    pub procedure: &'a str,
    /// The name of the state's file.
    pub state: &'a str,
    /// What the run may use.
    pub budget: Budget,
    /// Whether the events of the run are told after its end.
    pub kept: bool,
}

/// The answer to a start of procedure `f`.
fn answer_to_start<R: Threads + Sync, G: Gate>(
    rt: &R,
    alloc: Global,
    proof: &Proof<'_>,
    f: ProcId,
    start: Start,
    words: &RunWords<'_>,
    gate: &G,
) -> Result<Said, AllocError>
    requires there { f.0 < length (arranged_in proof.now).program.procedures.items }
    requires starts { StartsWith (program_in proof.now) f start.fresh start.vars start.heap
        start.parts.items }
    requires steps { (1 ≤ words.now.budget.steps) × (words.now.budget.steps ≤ STEPS) }
    requires waits { (1 ≤ words.now.budget.waits) × (words.now.budget.waits ≤ WAITS) }
    ensures { IfOk result (λ said. IsBeginText words.now.kept (program_in proof.now) f start.fresh
        start.vars start.heap start.unit words.now.budget.steps words.now.budget.waits
        said.text.items said.status) }
{
    beginnings_are_unique();
    let arranged = proof.arranged();
    match run_kept(rt, alloc, proof, f, start, words.budget, gate, words.kept) {
        Ok((end, _, log)) => say_end(alloc, arranged, f, &end, log, words.kept),
        Err(stop) => say_stop(alloc, &arranged.program, &stop),
    }
}

/// That there is no start, and why. An `Err` means that memory ran out, which is also the answer
/// where that was the cause.
pub(crate) fn say_no_start(alloc: Global, fault: &StartFault) -> Result<Said, AllocError>
    ensures said { IfOk result (λ said. (said.text.items ≡ start_refusal_text fault.now)
        × (said.status ≡ 5)) }
    ensures cause { IfOk result (λ said. fault.now ≢ OutOfMemory) }
{
    Ok(Said {
        text: start_refusal_text(alloc, fault)?,
        status: 5,
    })
}

/// The answer to a run of procedure `f` from the text of a state.
fn answer_to_state<R: Threads + Sync, G: Gate>(
    rt: &R,
    alloc: Global,
    proof: &Proof<'_>,
    f: ProcId,
    state: &[u8],
    words: &RunWords<'_>,
    gate: &G,
) -> Result<Said, AllocError>
    requires there { f.0 < length (arranged_in proof.now).program.procedures.items }
    requires free { HoldsNone (program_in proof.now) f }
    requires other { sets_up (program_in proof.now) f ≡ false }
    requires steps { (1 ≤ words.now.budget.steps) × (words.now.budget.steps ≤ STEPS) }
    requires waits { (1 ≤ words.now.budget.waits) × (words.now.budget.waits ≤ WAITS) }
    ensures { IfOk result (λ said. KeptAnswer words.now.kept
        (StateAnswer (program_in proof.now) f state.now words.now.budget.steps
        words.now.budget.waits)
        (StateJournal (program_in proof.now) f state.now words.now.budget.steps)
        said.text.items said.status) }
{
    let arranged = proof.arranged();
    match read(alloc, arranged, f, state) {
        Ok(start) => answer_to_start(rt, alloc, proof, f, start, words, gate),
        Err(fault) => say_no_start(alloc, &fault),
    }
}

/// The same from a state's file. A fetch that fails is said.
fn run_state_file<R: Threads + Sync, S: Shelf, G: Gate>(
    rt: &R,
    alloc: Global,
    proof: &Proof<'_>,
    f: ProcId,
    words: &RunWords<'_>,
    shelf: &mut S,
    gate: &G,
) -> Result<Said, AllocError>
    requires there { f.0 < length (arranged_in proof.now).program.procedures.items }
    requires free { HoldsNone (program_in proof.now) f }
    requires other { sets_up (program_in proof.now) f ≡ false }
    requires steps { (1 ≤ words.now.budget.steps) × (words.now.budget.steps ≤ STEPS) }
    requires waits { (1 ≤ words.now.budget.waits) × (words.now.budget.waits ≤ WAITS) }
    ensures status { IfOk result (λ said. said.status < 8) }
    ensures answered { IfOk result (λ said. said.status < 7
        → (given : Text) × MayHave (S.files shelf.old) words.now.state.now given
        × KeptAnswer words.now.kept
        (StateAnswer (program_in proof.now) f given words.now.budget.steps words.now.budget.waits)
        (StateJournal (program_in proof.now) f given words.now.budget.steps)
        said.text.items said.status) }
    ensures unread { IfOk result (λ said. said.status ≡ 7
        → Increased (S.faults shelf.old words.now.state.now)
        (S.faults shelf.new words.now.state.now)
        × (said.text.items ≡ read_fault_text words.now.state.now)) }
    ensures quiet { IfOk result (λ said. said.status < 7
        → (any : Text) → S.faults shelf.new any ≡ S.faults shelf.old any) }
    ensures files { S.files shelf.new ≡ S.files shelf.old }
    ensures others { (other : Text) → other ≢ words.now.state.now
        → S.faults shelf.new other ≡ S.faults shelf.old other }
    ensures counts { (any : Text) → S.faults shelf.old any ≤ S.faults shelf.new any }
{
    match fetch_up_to(alloc, words.state, STATE_BYTES, shelf) {
        Ok(state) => answer_to_state(rt, alloc, proof, f, state.as_slice(), words, gate),
        Err(FetchFault::Failed) => say_of(alloc, "read fault: ", words.state.as_bytes(), 7),
        Err(FetchFault::OutOfMemory) => Err(AllocError),
    }
}

/// The answer to a run of a program that is proved. The state's file is left alone where there is
/// no such entry.
fn run_proved<R: Threads + Sync, S: Shelf, G: Gate>(
    rt: &R,
    alloc: Global,
    proof: &Proof<'_>,
    words: &RunWords<'_>,
    shelf: &mut S,
    gate: &G,
) -> Result<Said, AllocError>
    requires proved { IsProved (program_in proof.now) }
    requires steps { (1 ≤ words.now.budget.steps) × (words.now.budget.steps ≤ STEPS) }
    requires waits { (1 ≤ words.now.budget.waits) × (words.now.budget.waits ≤ WAITS) }
    ensures status { IfOk result (λ said. said.status < 8) }
    ensures answered { IfOk result (λ said. said.status < 7
        → KeptAnswer words.now.kept
        (RunFileAnswer (S.files shelf.old) (program_in proof.now) words.now.procedure.now
        words.now.state.now words.now.budget.steps words.now.budget.waits)
        (RunFileJournal (S.files shelf.old) (program_in proof.now) words.now.procedure.now
        words.now.state.now words.now.budget.steps) said.text.items said.status) }
    ensures unread { IfOk result (λ said. said.status ≡ 7
        → HasRun (program_in proof.now) words.now.procedure.now
        × Increased (S.faults shelf.old words.now.state.now)
        (S.faults shelf.new words.now.state.now)
        × (said.text.items ≡ read_fault_text words.now.state.now)) }
    ensures files { S.files shelf.new ≡ S.files shelf.old }
    ensures others { (other : Text)
        → ((other ≡ words.now.state.now)
        × HasRun (program_in proof.now) words.now.procedure.now → ⊥)
        → S.faults shelf.new other ≡ S.faults shelf.old other }
    ensures quiet { IfOk result (λ said. said.status < 7
        → (any : Text) → S.faults shelf.new any ≡ S.faults shelf.old any) }
    ensures counts { (any : Text) → S.faults shelf.old any ≤ S.faults shelf.new any }
{
    let arranged = proof.arranged();
    match entry(alloc, arranged, words.procedure) {
        Ok(f) => run_state_file(rt, alloc, proof, f, words, shelf, gate),
        Err(fault) => say_no_start(alloc, &fault),
    }
}

/// The answer to a run of a program with which nothing is wrong. The state's file is left alone
/// where it has no proof.
fn run_program<R: Threads + Wait + Sync, G: Gate, S: Shelf>(
    rt: &R,
    alloc: Global,
    arranged: &Arranged,
    words: &RunWords<'_>,
    shelf: &mut S,
    gate: &G,
) -> Result<Said, AllocError>
    requires steps { (1 ≤ words.now.budget.steps) × (words.now.budget.steps ≤ STEPS) }
    requires waits { (1 ≤ words.now.budget.waits) × (words.now.budget.waits ≤ WAITS) }
    ensures status { IfOk result (λ said. said.status < 8) }
    ensures answered { IfOk result (λ said. said.status < 7
        → KeptAnswer words.now.kept
        (RunFileAnswer (S.files shelf.old) (program_of arranged.now.program)
        words.now.procedure.now words.now.state.now words.now.budget.steps words.now.budget.waits)
        (RunFileJournal (S.files shelf.old) (program_of arranged.now.program)
        words.now.procedure.now words.now.state.now words.now.budget.steps)
        said.text.items said.status) }
    ensures unread { IfOk result (λ said. said.status ≡ 7
        → HasRun (program_of arranged.now.program) words.now.procedure.now
        × Increased (S.faults shelf.old words.now.state.now)
        (S.faults shelf.new words.now.state.now)
        × (said.text.items ≡ read_fault_text words.now.state.now)) }
    ensures files { S.files shelf.new ≡ S.files shelf.old }
    ensures others { (other : Text)
        → ((other ≡ words.now.state.now)
        × HasRun (program_of arranged.now.program) words.now.procedure.now → ⊥)
        → S.faults shelf.new other ≡ S.faults shelf.old other }
    ensures quiet { IfOk result (λ said. said.status < 7
        → (any : Text) → S.faults shelf.new any ≡ S.faults shelf.old any) }
    ensures counts { (any : Text) → S.faults shelf.old any ≤ S.faults shelf.new any }
{
    arranged_has_setting();
    match verify(rt, alloc, arranged, 1, gate) {
        Ok(proof) => run_proved(rt, alloc, &proof, words, shelf, gate),
        Err(VerifyFault::Failed(f, why)) => say_failure(alloc, &arranged.program, f, &why),
        Err(VerifyFault::OutOfMemory) => Err(AllocError),
    }
}

/// The answer to a run of the program that a file of these bytes has. The state's file is left
/// alone where that is refused.
fn run_bytes<R: Threads + Wait + Sync, S: Shelf, G: Gate>(
    rt: &R,
    alloc: Global,
    bytes: &[u8],
    words: &RunWords<'_>,
    shelf: &mut S,
    gate: &G,
) -> Result<Said, AllocError>
    requires steps { (1 ≤ words.now.budget.steps) × (words.now.budget.steps ≤ STEPS) }
    requires waits { (1 ≤ words.now.budget.waits) × (words.now.budget.waits ≤ WAITS) }
    ensures status { IfOk result (λ said. said.status < 8) }
    ensures answered { IfOk result (λ said. said.status < 7
        → KeptAnswer words.now.kept
        (RunAnswer (S.files shelf.old) bytes.now words.now.procedure.now words.now.state.now
        words.now.budget.steps words.now.budget.waits)
        (RunJournal (S.files shelf.old) bytes.now words.now.procedure.now words.now.state.now
        words.now.budget.steps) said.text.items said.status) }
    ensures unread { IfOk result (λ said. said.status ≡ 7
        → AreRun bytes.now words.now.procedure.now
        × Increased (S.faults shelf.old words.now.state.now)
        (S.faults shelf.new words.now.state.now)
        × (said.text.items ≡ read_fault_text words.now.state.now)) }
    ensures files { S.files shelf.new ≡ S.files shelf.old }
    ensures others { (other : Text)
        → ((other ≡ words.now.state.now) × AreRun bytes.now words.now.procedure.now → ⊥)
        → S.faults shelf.new other ≡ S.faults shelf.old other }
    ensures quiet { IfOk result (λ said. said.status < 7
        → (any : Text) → S.faults shelf.new any ≡ S.faults shelf.old any) }
    ensures counts { (any : Text) → S.faults shelf.old any ≤ S.faults shelf.new any }
{
    match admit(alloc, bytes) {
        Ok(arranged) => run_program(rt, alloc, &arranged, words, shelf, gate),
        Err(refusal) => say_refusal(alloc, &refusal),
    }
}

/// What the command says to `run`, or to `journal` where the events are to be told, of the file of
/// that name.
pub fn run_file<R: Threads + Wait + Sync, S: Shelf, G: Gate>(
    rt: &R,
    alloc: Global,
    file: &str,
    words: &RunWords<'_>,
    shelf: &mut S,
    gate: &G,
) -> Result<Said, AllocError>
    requires steps { (1 ≤ words.now.budget.steps) × (words.now.budget.steps ≤ STEPS) }
    requires waits { (1 ≤ words.now.budget.waits) × (words.now.budget.waits ≤ WAITS) }
    ensures status { IfOk result (λ said. said.status < 8) }
    ensures said { IfOk result (λ said.
        Reply (S.files shelf.old) (S.faults shelf.old) (S.faults shelf.new)
        (Some (run_order words.now.kept file.now words.now.procedure.now words.now.state.now
        words.now.budget.steps words.now.budget.waits)) said.text.items said.status) }
    ensures files { S.files shelf.new ≡ S.files shelf.old }
    ensures others { (other : Text)
        → (Reaches (S.files shelf.old) (Some (run_order words.now.kept file.now words.now.procedure.now
        words.now.state.now words.now.budget.steps words.now.budget.waits)) other → ⊥)
        → S.faults shelf.new other ≡ S.faults shelf.old other }
    ensures quiet { IfOk result (λ said. said.status < 7
        → (any : Text) → S.faults shelf.new any ≡ S.faults shelf.old any) }
    ensures counts { (any : Text) → S.faults shelf.old any ≤ S.faults shelf.new any }
{
    match fetch_up_to(alloc, file, FILE_BYTES, shelf) {
        Ok(bytes) => run_bytes(rt, alloc, bytes.as_slice(), words, shelf, gate),
        Err(FetchFault::Failed) => say_of(alloc, "read fault: ", file.as_bytes(), 7),
        Err(FetchFault::OutOfMemory) => Err(AllocError),
    }
}
