//! The procedure that a run starts with.

ghost use Rattle.std.specs.Prelude.{◌≡◌, ◌<◌, ◌⊎◌, length, true, false, IfOk, IfErr};
ghost use Rattle.sf_base.specs.Results.{Decides};
ghost use Rattle.sf_base.specs.declared.ids.ResId.{ResId as R};
ghost use Rattle.sf_core.specs.Machine.HasThroughout.{HasThroughout};
ghost use Rattle.sf_core.specs.Program.Init.{sets_up};
ghost use Rattle.sf_core.specs.Program.ProgramView.{program_of};
ghost use Rattle.sf_state.specs.Entering.{HoldsNone, IsEntry, IsEntryFault};

use crate::fault::StartFault;
use sf_base::{Name, ProcId};
use sf_calls::laws::sets_from_truncation;
use sf_precise::Arranged;
use std::alloc::Global;

/// Whether the procedure holds no resource.
fn holds_none(p: &Arranged, f: ProcId) -> bool
    requires { f.0 < length p.now.program.procedures.items }
    ensures free { result ≡ true → HoldsNone (program_of p.now.program) f }
    ensures held { result ≡ false → (r : R) × HasThroughout (program_of p.now.program) f r }
{
    sets_from_truncation();
    p.calls.holds(f).as_slice().is_empty()
}

/// Whether the procedure may be an entry: it holds no resource, and isn't the one that sets them up.
fn is_free(p: &Arranged, f: ProcId) -> bool
    requires { f.0 < length p.now.program.procedures.items }
    ensures yes { result ≡ true → HoldsNone (program_of p.now.program) f
        × (sets_up (program_of p.now.program) f ≡ false) }
    ensures no { result ≡ false → ((r : R) × HasThroughout (program_of p.now.program) f r)
        ⊎ (sets_up (program_of p.now.program) f ≡ true) }
{
    if p.program.is_init(f) {
        return false;
    }
    holds_none(p, f)
}

/// The entry of that name, or why there is none.
fn find_entry(alloc: Global, p: &Arranged, name: &str) -> Result<ProcId, StartFault>
    ensures found { IfOk result (IsEntry (program_of p.now.program) name.now) }
    ensures within { IfOk result (λ f. f.0 < length p.now.program.procedures.items) }
    ensures refused { IfErr result (λ e. (e ≡ StartFault.OutOfMemory)
        ⊎ IsEntryFault (program_of p.now.program) name.now e) }
{
    match p.program.find(name) {
        Some(f) => {
            if is_free(p, f) {
                return Ok(f);
            }
            let name = Name::new(alloc, name.as_bytes())?;
            Err(StartFault::FreeEntry(name))
        }
        None => {
            let name = Name::new(alloc, name.as_bytes())?;
            Err(StartFault::Unknown(name))
        }
    }
}

/// The procedure of that name, as the entry of a run. `Unknown` comes exactly where there is none,
/// and `FreeEntry` exactly where the variables of a resource occur in its pre or post, or it is
/// `init`, which sets the resources up; or memory runs out.
pub fn entry(alloc: Global, p: &Arranged, name: &str) -> Result<ProcId, StartFault>
    ensures decides { Decides result (λ f. f) (IsEntry (program_of p.now.program) name.now)
        (IsEntryFault (program_of p.now.program) name.now) StartFault.OutOfMemory }
    ensures within { IfOk result (λ f. f.0 < length p.now.program.procedures.items) }
{
    find_entry(alloc, p, name)
}
