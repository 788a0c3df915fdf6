//! What the command says to `witness`: that the program is proved, a concrete state of its failed
//! obligation, or why its file is refused.

ghost use Rattle.std.specs.Prelude.{◌≡◌, ◌≢◌, ◌≤◌, Some, IfOk};
ghost use Rattle.sf_core.specs.Program.ProgramView.{program_of};
ghost use Rattle.sf_cli.specs.Answer.{IsAnswering, IsSaid, Reply, WitnessAnswer, WitnessFileAnswer, WitnessVerdict};
ghost use Rattle.sf_rules.specs.Setting.{Setting};
ghost use Rattle.sf_search.specs.Ends.{cause_of};
ghost use Rattle.sf_search.specs.Judge.{Cause, fails};
ghost use Rattle.sf_words.specs.Words.{Text, witness};

use crate::reading::admit;
use crate::reply::{Said, fetch_up_to, say, say_of, say_refusal};
use sf_base::ProcId;
use sf_base::limits::FILE_BYTES;
use sf_core::Program;
use sf_io::{FetchFault, Shelf};
use sf_precise::Arranged;
use sf_report::too_large;
use sf_rules::laws::arranged_has_setting;
use sf_search::{SearchFault, VerifyFault, verify};
use sf_witness::witness_text;
use std::alloc::{AllocError, Global};

/// That a procedure fails, with the witness of the goal at which its search is stuck. An `Err` means
/// that memory ran out, which is also the answer where the search failed for that.
fn say_witness(
    alloc: Global,
    p: &Program,
    f: ProcId,
    fault: &SearchFault<'_>,
) -> Result<Said, AllocError>
    ensures { IfOk result (λ said. (why : Cause) → cause_of fault.now ≡ Some why
        → WitnessVerdict (program_of p.now) (fails f why) said.text.items said.status) }
{
    match fault {
        SearchFault::Stuck(goal, kind, _) => Ok(Said {
            text: witness_text(alloc, p, f, goal, *kind)?,
            status: 1,
        }),
        SearchFault::TooLarge => Ok(Said {
            text: too_large(alloc, p, f)?,
            status: 1,
        }),
        SearchFault::OutOfMemory => Err(AllocError),
    }
}

/// The answer to a program with which nothing is wrong. An `Err` means that memory ran out.
fn answer_to_program(alloc: Global, arranged: &Arranged) -> Result<Said, AllocError>
    ensures { IfOk result (λ said.
        WitnessAnswer (program_of arranged.now.program) said.text.items said.status) }
{
    arranged_has_setting();
    match verify(alloc, arranged) {
        Ok(_) => say(alloc, "accepted\n", 0),
        Err(VerifyFault::Failed(f, why)) => say_witness(alloc, &arranged.program, f, &why),
        Err(VerifyFault::OutOfMemory) => Err(AllocError),
    }
}

/// The answer to a file's bytes, of which those past the limit don't matter.
fn answer_to_bytes(alloc: Global, bytes: &[u8]) -> Result<Said, AllocError>
    ensures { IfOk result (λ said. WitnessFileAnswer bytes.now said.text.items said.status) }
{
    match admit(alloc, bytes) {
        Ok(arranged) => answer_to_program(alloc, &arranged),
        Err(refusal) => say_refusal(alloc, &refusal),
    }
}

/// What the command says to `witness` of the file of that name.
pub fn witness_file<S: Shelf>(alloc: Global, file: &str, shelf: &mut S) -> Result<Said, AllocError>
    ensures status { IfOk result (λ said. IsSaid said.status) }
    ensures said { IfOk result (λ said.
        Reply (S.files shelf.old) (S.faults shelf.old) (S.faults shelf.new)
        (Some (witness file.now)) said.text.items said.status) }
    ensures files { S.files shelf.new ≡ S.files shelf.old }
    ensures others { (other : Text) → other ≢ file.now
        → S.faults shelf.new other ≡ S.faults shelf.old other }
    ensures quiet { IfOk result (λ said. IsAnswering said.status
        → (any : Text) → S.faults shelf.new any ≡ S.faults shelf.old any) }
    ensures counts { (any : Text) → S.faults shelf.old any ≤ S.faults shelf.new any }
{
    match fetch_up_to(alloc, file, FILE_BYTES, shelf) {
        Ok(bytes) => answer_to_bytes(alloc, bytes.as_slice()),
        Err(FetchFault::Failed) => say_of(alloc, "read fault: ", file.as_bytes(), 7),
        Err(FetchFault::OutOfMemory) => Err(AllocError),
    }
}
