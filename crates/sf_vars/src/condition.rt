//! The conditions on variables of a whole program.

ghost use Rattle.std.specs.Prelude.{◌≡◌, ◌≢◌, ◌⊎◌, IfErr, IfOk, MatchResult, OnOk};
ghost use Rattle.sf_calls.specs.FirstBreach.{Conditions};
ghost use Rattle.sf_calls.specs.Sets.{AreSetsOf};
ghost use Rattle.sf_core.specs.Program.ProgramView.{program_of};
ghost use Rattle.sf_vars.specs.Faults.{IsFirstFault};
ghost use Rattle.sf_vars.specs.Checked.Search.{in_procedures};
ghost use Rattle.sf_vars.specs.declared.fault.VarFault.{VarFault};
ghost use Rattle.sf_vars.specs.declared.fault.VarFault.TheVariants.{OutOfMemory};

use crate::fault::VarFault;
use crate::naming::fault_of;
use crate::walk::in_procedure;
use sf_base::ProcId;
use sf_calls::{Breach, Calls};
use sf_core::Program;
use std::alloc::{AllocError, Global};

/// Whether no condition on variables is broken. An `Err` tells the breach that comes first, in file
/// order, and in text order within a body, exactly where there is one; instead of either answer
/// memory may have run out. The sets are those that `reach` gives for the program.
pub fn conditions(alloc: Global, p: &Program, c: &Calls) -> Result<(), VarFault>
    requires { AreSetsOf (program_of p.now) c.now }
    ensures kept { OnOk result (Conditions (program_of p.now)) }
    ensures broken { IfErr result (λ fault. fault ≢ OutOfMemory
        → IsFirstFault (program_of p.now) fault) }
    ensures only_kept { Conditions (program_of p.now)
        → IfErr result (λ fault. fault ≡ OutOfMemory) }
    ensures only_broken { (first : VarFault) → IsFirstFault (program_of p.now) first
        → MatchResult result (λ _. ⊥) (λ fault. (fault ≡ first) ⊎ (fault ≡ OutOfMemory)) }
{
    match first_breach(alloc, p, c)? {
        None => Ok(()),
        Some((f, breach)) => Err(fault_of(alloc, p, f, breach)?),
    }
}

/// The breach that comes first, and the procedure in which it is.
fn first_breach(
    alloc: Global,
    p: &Program,
    calls: &Calls,
) -> Result<Option<(ProcId, Breach)>, AllocError>
    requires { AreSetsOf (program_of p.now) calls.now }
    ensures { IfOk result (λ first.
        first ≡ in_procedures calls.now 0 (program_of p.now).procedures) }
{
    for (i, procedure) in p.procedures.iter().enumerate() {
        let f = ProcId(i as u32);
        if let Some(breach) = in_procedure(alloc, calls, f, procedure)? {
            return Ok(Some((f, breach)));
        }
    }
    Ok(None)
}
