//! The names in faults.

ghost use Rattle.std.specs.Prelude.{◌≡◌, ◌<◌, ℕ, List, length, IfOk};
ghost use Rattle.sf_core.specs.Program.ProgramView.{program_of};
ghost use Rattle.sf_vars.specs.Faults.{IsBreachName, IsResourceName, IsVariableName, told_by};
ghost use Rattle.sf_vars.specs.Checked.Search.{IsBreachIn, IsVariableIn};

use crate::fault::VarFault;
use sf_base::{Name, ProcId, ResId, Var};
use sf_calls::Breach;
use sf_core::Program;
use std::alloc::{AllocError, Global};

/// The breach as a fault, with the name that the text of the procedure has. An `Err` is want of
/// memory.
pub fn fault_of(
    alloc: Global,
    p: &Program,
    f: ProcId,
    breach: Breach,
) -> Result<VarFault, AllocError>
    requires { IsBreachIn (program_of p.now) f breach }
    ensures { IfOk result (λ fault. (name : List ℕ) × IsBreachName (program_of p.now) f breach name
        × (fault ≡ told_by breach name)) }
{
    match breach {
        Breach::NotHeld(place, x) => Ok(VarFault::NotHeld(place, variable_name(alloc, p, f, x)?)),
        Breach::Reentered(place, r) => Ok(VarFault::Reentered(place, resource_name(alloc, p, r)?)),
        Breach::SameReference(place, x) => {
            Ok(VarFault::SameReference(place, variable_name(alloc, p, f, x)?))
        }
        Breach::ReferenceIsFree(place, x) => {
            Ok(VarFault::ReferenceIsFree(place, variable_name(alloc, p, f, x)?))
        }
        Breach::ParallelShares(place, x) => {
            Ok(VarFault::ParallelShares(place, variable_name(alloc, p, f, x)?))
        }
    }
}

/// The name of the variable.
fn variable_name(alloc: Global, p: &Program, f: ProcId, x: Var) -> Result<Name, AllocError>
    requires { IsVariableIn (program_of p.now) f x }
    ensures { IfOk result (λ name. IsVariableName (program_of p.now) f x name) }
{
    match x {
        Var::Own(n) => Name::new(alloc, p.proc(f).names[n as usize].as_bytes()),
        Var::Shared(r, i) => {
            Name::new(
                alloc,
                p.resources[r.0 as usize].variables[i as usize].as_bytes(),
            )
        }
    }
}

/// The name of the resource.
fn resource_name(alloc: Global, p: &Program, r: ResId) -> Result<Name, AllocError>
    requires { r.0 < length p.now.resources.items }
    ensures { IfOk result (λ name. IsResourceName (program_of p.now) r name) }
{
    Name::new(alloc, p.resources[r.0 as usize].name.as_bytes())
}
