//! The values of variables that a run ends with.

ghost use Rattle.std.specs.Prelude.{◌≡◌, ◌+◌, ◌<◌, length, Some, IfOk};
ghost use Rattle.sf_base.specs.HeapStore.{own, shared};
ghost use Rattle.sf_core.specs.Machine.Step.{procedure_at};
ghost use Rattle.sf_core.specs.Program.Syntax.{Procedure};
ghost use Rattle.sf_core.specs.Program.ProgramView.{program_of};
ghost use Rattle.sf_frame.specs.Checked.Endings.{AreValues};
ghost use Rattle.sf_frame.specs.Stores.{store_of};

use crate::spot::Spot;
use crate::store::Store;
use sf_base::{ProcId, ResId, Value};
use sf_core::Program;
use std::alloc::{AllocError, Global};

/// How many references and values a procedure has.
pub fn parameter_count(p: &Program, f: ProcId) -> u32
    requires { f.0 < length p.now.procedures.items }
    ensures { (g : Procedure) → procedure_at (program_of p.now) f ≡ Some g
        → result ≡ g.references + g.values }
{
    let procedure = p.proc(f);
    procedure.references + procedure.values
}

/// The values of the entry's first variables.
pub fn own_values(alloc: Global, store: &Store, count: u32) -> Result<Vec<Value>, AllocError>
    ensures { IfOk result (λ values.
        AreValues (store_of store.now) (λ k. own 0 k) count values.items) }
{
    let mut values = Vec::with_capacity(alloc, count as usize)?;
    for i in 0..count {
        values.push(store.get(Spot::Own(0, i as u64)))?;
    }
    Ok(values)
}

/// The values of the first variables of a resource.
pub fn shared_values(
    alloc: Global,
    store: &Store,
    r: ResId,
    count: u32,
) -> Result<Vec<Value>, AllocError>
    ensures { IfOk result (λ values. AreValues (store_of store.now) (shared r) count values.items) }
{
    let mut values = Vec::with_capacity(alloc, count as usize)?;
    for i in 0..count {
        values.push(store.get(Spot::Shared(r, i)))?;
    }
    Ok(values)
}
