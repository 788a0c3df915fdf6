//! What is said, with which status; and what is fetched of a file.

ghost use Rattle.std.specs.Prelude.{◌≡◌, ◌≢◌, ◌<◌, ◌≤◌, ◌-◌, ◌^◌, ◌++◌, Some, IfOk, IsErrOf, OnOk, codes};
ghost use Rattle.sf_check.specs.Accepted.{tags_in};
ghost use Rattle.sf_core.specs.Program.ProgramView.{program_of};
ghost use Rattle.sf_io.specs.Increased.{Increased};
ghost use Rattle.sf_cli.specs.Answer.{VerdictAnswer, cause_text};
ghost use Rattle.sf_cli.specs.Checked.Fetched.{Fetched};
ghost use Rattle.sf_cli.specs.Refusals.{refusal_text};
ghost use Rattle.sf_cli.specs.declared.refusal.Refusal.TheVariants.{OutOfMemory};
ghost use Rattle.sf_search.specs.Ends.{cause_of};
ghost use Rattle.sf_search.specs.Judge.{Cause, proof};
ghost use Rattle.sf_words.specs.Words.{Text};

use crate::refusal::{Refusal, refusal_text};
use sf_base::ProcId;
use sf_check::Proof;
use sf_core::Program;
use sf_io::{FetchFault, Shelf};
use sf_proof::proof_text;
use sf_report::{failed, too_large};
use sf_search::SearchFault;
use std::alloc::{AllocError, Global};

/// What is said, and the status that goes with it.
#[derive(Debug, Drop)]
pub struct Said {
    /// The whole text, with its last line feed.
    pub text: Vec<u8>,
    /// The status.
    pub status: u8,
}

/// That text, with that status.
pub(crate) fn say(alloc: Global, text: &str, status: u8) -> Result<Said, AllocError>
    ensures { IfOk result (λ said. (said.text.items ≡ text.now) × (said.status ≡ status)) }
{
    Ok(Said {
        text: Vec::from_slice(alloc, text.as_bytes())?,
        status,
    })
}

/// That text, a name after it and a line feed, with that status.
pub(crate) fn say_of(alloc: Global, text: &str, name: &[u8], status: u8) -> Result<Said, AllocError>
    ensures { IfOk result (λ said. (said.text.items ≡ text.now ++ name.now ++ codes "\n")
        × (said.status ≡ status)) }
{
    let mut line = Vec::from_slice(alloc, text.as_bytes())?;
    line.extend_from_slice(name)?;
    line.extend_from_slice(b"\n")?;
    Ok(Said { text: line, status })
}

/// That a procedure fails, and why. An `Err` means that memory ran out, which is also the answer
/// where the search failed for that.
pub(crate) fn say_failure(
    alloc: Global,
    p: &Program,
    f: ProcId,
    fault: &SearchFault<'_>,
) -> Result<Said, AllocError>
    ensures { IfOk result (λ said. (why : Cause) → cause_of fault.now ≡ Some why
        → (said.text.items ≡ cause_text (program_of p.now) f why) × (said.status ≡ 1)) }
{
    match fault {
        SearchFault::Stuck(goal, kind, _) => Ok(Said {
            text: failed(alloc, p, f, goal, *kind)?,
            status: 1,
        }),
        SearchFault::TooLarge => Ok(Said {
            text: too_large(alloc, p, f)?,
            status: 1,
        }),
        SearchFault::OutOfMemory => Err(AllocError),
    }
}

/// A proof, printed. An `Err` means that memory ran out.
pub(crate) fn say_proof(alloc: Global, p: &Program, found: &Proof<'_>) -> Result<Said, AllocError>
    ensures { IfOk result (λ said. VerdictAnswer (program_of p.now) (proof (tags_in found.now))
        said.text.items said.status) }
{
    Ok(Said {
        text: proof_text(alloc, p, found.tags())?,
        status: 0,
    })
}

/// That a file is refused, and why. An `Err` says that memory ran out, which is also
/// the answer where that was the cause.
pub(crate) fn say_refusal(alloc: Global, refusal: &Refusal) -> Result<Said, AllocError>
    ensures said { IfOk result (λ said. (said.text.items ≡ refusal_text refusal.now)
        × (said.status ≡ 3)) }
    ensures cause { IfOk result (λ said. refusal.now ≢ OutOfMemory) }
{
    Ok(Said {
        text: refusal_text(alloc, refusal)?,
        status: 3,
    })
}

/// All of a file's bytes; of a file of more bytes than the limit, one more than that.
pub(crate) fn fetch_up_to<S: Shelf>(
    alloc: Global,
    name: &str,
    limit: usize,
    shelf: &mut S,
) -> Result<Vec<u8>, FetchFault>
    requires { limit < 2 ^ 64 - 1 }
    ensures fetched { IfOk result (λ bytes.
        Fetched limit (S.files shelf.old) name.now bytes.items) }
    ensures failed { IsErrOf result FetchFault.Failed
        → Increased (S.faults shelf.old name.now) (S.faults shelf.new name.now) }
    ensures ok { OnOk result ((any : Text)
        → S.faults shelf.new any ≡ S.faults shelf.old any) }
    ensures files { S.files shelf.new ≡ S.files shelf.old }
    ensures others { (other : Text) → other ≢ name.now
        → S.faults shelf.new other ≡ S.faults shelf.old other }
    ensures counts { (any : Text) → S.faults shelf.old any ≤ S.faults shelf.new any }
{
    let mut bytes = Vec::new(alloc);
    shelf.fetch(name, limit + 1, &mut bytes)?;
    Ok(bytes)
}
