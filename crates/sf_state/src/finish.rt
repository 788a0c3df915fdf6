//! The text of what a run ends with.

ghost use Rattle.std.specs.Prelude.{◌≡◌, ◌<◌, length, IfOk, IfSome, slice_get};
ghost use Rattle.sf_core.specs.Program.ProgramView.{program_of};
ghost use Rattle.sf_state.specs.Finishing.{IsFinishText, values_of};

use crate::text::state_text;
use sf_base::{ProcId, Value};
use sf_foot::{Finish, Vars};
use sf_precise::Arranged;
use std::alloc::{AllocError, Global};

/// The values of variables, in canonical order.
fn values_of(alloc: Global, vars: &Vars) -> Result<Vec<Value>, AllocError>
    ensures { IfOk result (λ values. values.items ≡ values_of vars.now) }
{
    let mut values = Vec::from_slice(alloc, &vars.own)?;
    for shared in &vars.shared {
        values.extend_from_slice(shared)?;
    }
    Ok(values)
}

/// The text of the variables and cells with which procedure `f` ends: the values of its references
/// and values and of each resource's variables, and then the cells by rising location, each with
/// all fields in declared order. A value that isn't there is written as nil. An `Err` means out of
/// memory.
pub fn write(alloc: Global, p: &Arranged, f: ProcId, end: &Finish) -> Result<Vec<u8>, AllocError>
    requires { f.0 < length p.now.program.procedures.items }
    ensures { IfOk result (λ text. IfSome (slice_get (program_of p.now.program).procedures f.0)
        (λ g. IsFinishText (program_of p.now.program) g end.now.vars end.now.heap text.items)) }
{
    let values = values_of(alloc, &end.vars)?;
    let at = end.heap.locations()?;
    state_text(
        alloc,
        &p.program,
        p.program.proc(f),
        &values,
        &end.heap,
        &at,
    )
}
