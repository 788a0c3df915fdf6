//! Procedures that need nothing, and their starts.

ghost use Rattle.std.specs.Prelude.{◌<◌, length, IsTrue, IfOk, IfSome};
ghost use Rattle.sf_core.specs.Program.ProgramView.{program_of};
ghost use Rattle.sf_core.specs.Program.View.{assertion_of, procedure_of};
ghost use Rattle.sf_foot.specs.Starting.{StartsWith};
ghost use Rattle.sf_machine_bench.specs.Plain.{HasNone, IsPlain};

use sf_base::ProcId;
use sf_core::{Assertion, Proc, Program};
use sf_foot::{Start, Vars};
use sf_heap::{Heap, Locations};
use std::alloc::{AllocError, Global};

/// The start of a procedure that needs nothing: it has no variables and no cells. `None` says that
/// it may need something, or sets resources up.
pub fn plain_start(alloc: Global, p: &Program, f: ProcId) -> Result<Option<Start>, AllocError>
    requires { f.0 < length p.now.procedures.items }
    ensures { IfOk result (λ found. IfSome found
        (λ s. StartsWith (program_of p.now) f s.fresh s.vars s.heap s.parts.items)) }
{
    if p.is_init(f) {
        return Ok(None);
    }
    if !is_plain(p, p.proc(f)) {
        return Ok(None);
    }
    let vars = Vars {
        own: Vec::new(alloc),
        shared: Vec::new(alloc),
    };
    let parts = vec![in alloc; Locations::from_vec(Vec::new(alloc))]?;
    Ok(Some(Start::new(p, f, vars, Heap::new(alloc), parts, 1, false)))
}

/// Whether there are no resources, and the procedure has no parameters and speaks of no cells.
fn is_plain(p: &Program, g: &Proc) -> bool
    ensures { IsTrue result → IsPlain (program_of p.now) (procedure_of g.now) }
{
    p.resources.is_empty()
        && g.references == 0
        && g.values == 0
        && has_none(&g.pre)
        && has_none(&g.post)
}

/// Whether an assertion has no conjunct.
fn has_none(a: &Assertion) -> bool
    ensures { IsTrue result → HasNone (assertion_of a.now).level }
{
    a.level.conjuncts.is_empty()
}
