//! What the command says to `recheck`: of the text of a proof, or why the program's file is refused.

ghost use Rattle.std.specs.Prelude.{◌≡◌, ◌≢◌, ◌<◌, ◌≤◌, Some, IfErr, IfOk};
ghost use Rattle.sf_core.specs.Program.ProgramView.{program_of};
ghost use Rattle.sf_io.specs.Increased.{Increased};
ghost use Rattle.sf_cli.specs.Answer.{AreAdmitted, ProofFileAnswer, Reaches, RecheckAnswer, Reply, read_fault_text};
ghost use Rattle.sf_cli.specs.Rechecked.{IsProof, ProofAnswer, ProofFault};
ghost use Rattle.sf_cli.specs.declared.rejection.Rejection.TheVariants.{OutOfMemory};
ghost use Rattle.sf_words.specs.Words.{Text, recheck};

use crate::reading::admit;
use crate::rejection::{Rejection, rejection_text};
use crate::reply::{Said, fetch_up_to, say, say_of, say_refusal};
use sf_base::limits::{FILE_BYTES, PROOF_BYTES};
use sf_check::{CheckFault, check};
use sf_io::{FetchFault, Shelf};
use sf_precise::Arranged;
use sf_proof::{Lined, read};
use sf_rules::laws::arranged_has_setting;
use std::alloc::{AllocError, Global};

/// Accepts the text of a proof of the program, whoever wrote it. An `Err` says why it is refused,
/// or that memory ran out.
fn accept(alloc: Global, arranged: &Arranged, proof: &[u8]) -> Result<(), Rejection>
    ensures accepted { IfOk result (λ _. IsProof (program_of arranged.now.program) proof.now) }
    ensures refused { IfErr result (λ r. r ≢ OutOfMemory
        → ProofFault (program_of arranged.now.program) proof.now r) }
{
    arranged_has_setting();
    let lined = read(alloc, &arranged.program, proof)?;
    let Lined { tags, lines } = lined;
    match check(alloc, arranged, tags.into_vec()) {
        Ok(_) => Ok(()),
        Err(CheckFault::Refused(number, why)) => {
            Err(Rejection::of_tags(lines.as_slice(), number, why))
        }
        Err(CheckFault::OutOfMemory) => Err(Rejection::OutOfMemory),
    }
}

/// The answer to the text of a proof of the program.
fn answer_to_proof(alloc: Global, arranged: &Arranged, proof: &[u8]) -> Result<Said, AllocError>
    ensures { IfOk result (λ said. ProofAnswer (program_of arranged.now.program) proof.now
        said.text.items said.status) }
{
    match accept(alloc, arranged, proof) {
        Ok(()) => say(alloc, "accepted\n", 0),
        Err(rejection) => Ok(Said {
            text: rejection_text(alloc, rejection)?,
            status: 4,
        }),
    }
}

/// What is said of the text of a proof that the file of that name has, for a program with which
/// nothing is wrong.
fn recheck_program<S: Shelf>(
    alloc: Global,
    arranged: &Arranged,
    proof: &str,
    shelf: &mut S,
) -> Result<Said, AllocError>
    ensures status { IfOk result (λ said. said.status < 8) }
    ensures answered { IfOk result (λ said. said.status < 7
        → ProofFileAnswer (S.files shelf.old) (program_of arranged.now.program) proof.now
        said.text.items said.status) }
    ensures unread { IfOk result (λ said. said.status ≡ 7
        → Increased (S.faults shelf.old proof.now) (S.faults shelf.new proof.now)
        × (said.text.items ≡ read_fault_text proof.now)) }
    ensures files { S.files shelf.new ≡ S.files shelf.old }
    ensures others { (other : Text) → other ≢ proof.now
        → S.faults shelf.new other ≡ S.faults shelf.old other }
    ensures quiet { IfOk result (λ said. said.status < 7
        → (any : Text) → S.faults shelf.new any ≡ S.faults shelf.old any) }
    ensures counts { (any : Text) → S.faults shelf.old any ≤ S.faults shelf.new any }
{
    match fetch_up_to(alloc, proof, PROOF_BYTES, shelf) {
        Ok(text) => answer_to_proof(alloc, arranged, text.as_slice()),
        Err(FetchFault::Failed) => say_of(alloc, "read fault: ", proof.as_bytes(), 7),
        Err(FetchFault::OutOfMemory) => Err(AllocError),
    }
}

/// What is said of the text of a proof that the file of that name has, for a program's file of
/// these bytes. The proof's file is left alone where the program's is refused.
fn recheck_bytes<S: Shelf>(
    alloc: Global,
    bytes: &[u8],
    proof: &str,
    shelf: &mut S,
) -> Result<Said, AllocError>
    ensures status { IfOk result (λ said. said.status < 8) }
    ensures answered { IfOk result (λ said. said.status < 7
        → RecheckAnswer (S.files shelf.old) bytes.now proof.now said.text.items said.status) }
    ensures unread { IfOk result (λ said. said.status ≡ 7 → AreAdmitted bytes.now
        × Increased (S.faults shelf.old proof.now) (S.faults shelf.new proof.now)
        × (said.text.items ≡ read_fault_text proof.now)) }
    ensures files { S.files shelf.new ≡ S.files shelf.old }
    ensures others { (other : Text) → ((other ≡ proof.now) × AreAdmitted bytes.now → ⊥)
        → S.faults shelf.new other ≡ S.faults shelf.old other }
    ensures quiet { IfOk result (λ said. said.status < 7
        → (any : Text) → S.faults shelf.new any ≡ S.faults shelf.old any) }
    ensures counts { (any : Text) → S.faults shelf.old any ≤ S.faults shelf.new any }
{
    match admit(alloc, bytes) {
        Ok(arranged) => recheck_program(alloc, &arranged, proof, shelf),
        Err(refusal) => say_refusal(alloc, &refusal),
    }
}

/// What the command says to `recheck` of the files of these names.
pub fn recheck_file<S: Shelf>(
    alloc: Global,
    file: &str,
    proof: &str,
    shelf: &mut S,
) -> Result<Said, AllocError>
    ensures status { IfOk result (λ said. said.status < 8) }
    ensures said { IfOk result (λ said.
        Reply (S.files shelf.old) (S.faults shelf.old) (S.faults shelf.new)
        (Some (recheck file.now proof.now)) said.text.items said.status) }
    ensures files { S.files shelf.new ≡ S.files shelf.old }
    ensures others { (other : Text)
        → (Reaches (S.files shelf.old) (Some (recheck file.now proof.now)) other → ⊥)
        → S.faults shelf.new other ≡ S.faults shelf.old other }
    ensures quiet { IfOk result (λ said. said.status < 7
        → (any : Text) → S.faults shelf.new any ≡ S.faults shelf.old any) }
    ensures counts { (any : Text) → S.faults shelf.old any ≤ S.faults shelf.new any }
{
    match fetch_up_to(alloc, file, FILE_BYTES, shelf) {
        Ok(bytes) => recheck_bytes(alloc, bytes.as_slice(), proof, shelf),
        Err(FetchFault::Failed) => say_of(alloc, "read fault: ", file.as_bytes(), 7),
        Err(FetchFault::OutOfMemory) => Err(AllocError),
    }
}
