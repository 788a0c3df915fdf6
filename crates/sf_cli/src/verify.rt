//! What the command says to `verify`: the verdict on the program, or why its file is refused.

ghost use Rattle.std.specs.Prelude.{◌≡◌, ◌≢◌, ◌<◌, ◌≤◌, Some, IfOk};
ghost use Rattle.sf_core.specs.Program.ProgramView.{program_of};
ghost use Rattle.sf_cli.specs.Answer.{FileAnswer, ProgramAnswer, Reply};
ghost use Rattle.sf_words.specs.Words.{Text, verify};

use crate::reading::admit;
use crate::reply::{Said, fetch_up_to, say_failure, say_of, say_proof, say_refusal};
use sf_base::limits::FILE_BYTES;
use sf_io::{FetchFault, Gate, Shelf};
use sf_precise::Arranged;
use sf_rules::laws::arranged_has_setting;
use sf_search::VerifyFault;
use sf_verify::verify;
use std::alloc::{AllocError, Global};
use std::sync::Wait;
use std::thread::Threads;

/// The answer to a program with which nothing is wrong: the verdict on it, printed. The proof that
/// is printed is one that the checker has accepted. An `Err` means that memory ran out.
fn answer_to_program<R: Threads + Wait + Sync, G: Gate>(
    rt: &R,
    alloc: Global,
    arranged: &Arranged,
    workers: u32,
    gate: &G,
) -> Result<Said, AllocError>
    ensures { IfOk result (λ said.
        ProgramAnswer (program_of arranged.now.program) said.text.items said.status) }
{
    arranged_has_setting();
    let p = &arranged.program;
    match verify(rt, alloc, arranged, workers, gate) {
        Ok(found) => say_proof(alloc, p, &found),
        Err(VerifyFault::Failed(f, why)) => say_failure(alloc, p, f, &why),
        Err(VerifyFault::OutOfMemory) => Err(AllocError),
    }
}

/// The answer to a file's bytes, of which those past the limit don't matter.
fn answer_to_bytes<R: Threads + Wait + Sync, G: Gate>(
    rt: &R,
    alloc: Global,
    bytes: &[u8],
    workers: u32,
    gate: &G,
) -> Result<Said, AllocError>
    ensures { IfOk result (λ said. FileAnswer bytes.now said.text.items said.status) }
{
    match admit(alloc, bytes) {
        Ok(arranged) => answer_to_program(rt, alloc, &arranged, workers, gate),
        Err(refusal) => say_refusal(alloc, &refusal),
    }
}

/// What the command says to `verify` of the file of that name.
pub fn verify_file<R: Threads + Wait + Sync, S: Shelf, G: Gate>(
    rt: &R,
    alloc: Global,
    file: &str,
    workers: u32,
    shelf: &mut S,
    gate: &G,
) -> Result<Said, AllocError>
    ensures status { IfOk result (λ said. said.status < 8) }
    ensures said { IfOk result (λ said.
        Reply (S.files shelf.old) (S.faults shelf.old) (S.faults shelf.new)
        (Some (verify file.now workers)) said.text.items said.status) }
    ensures files { S.files shelf.new ≡ S.files shelf.old }
    ensures others { (other : Text) → other ≢ file.now
        → S.faults shelf.new other ≡ S.faults shelf.old other }
    ensures quiet { IfOk result (λ said. said.status < 7
        → (any : Text) → S.faults shelf.new any ≡ S.faults shelf.old any) }
    ensures counts { (any : Text) → S.faults shelf.old any ≤ S.faults shelf.new any }
{
    match fetch_up_to(alloc, file, FILE_BYTES, shelf) {
        Ok(bytes) => answer_to_bytes(rt, alloc, bytes.as_slice(), workers, gate),
        Err(FetchFault::Failed) => say_of(alloc, "read fault: ", file.as_bytes(), 7),
        Err(FetchFault::OutOfMemory) => Err(AllocError),
    }
}
