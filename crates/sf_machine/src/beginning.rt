//! Where a run begins.

ghost use Rattle.std.specs.Prelude.{List, ℕ, IfOk};
ghost use Rattle.sf_core.specs.Program.ProgramView.{program_of};
ghost use Rattle.sf_foot.specs.Starting.{StartsWith};
ghost use Rattle.sf_machine.specs.Beginning.{Begins};
ghost use Rattle.sf_machine.specs.Configs.{config_of, IsWide};
ghost use Rattle.sf_machine.specs.Reached.{IsReached};

use crate::config::Config;
use crate::task::Task;
use sf_base::ProcId;
use sf_core::Program;
use sf_foot::{Start, Vars};
use sf_frame::{first_shared, first_stack};
use sf_heap::Heap;
use std::alloc::{AllocError, Global};
use std::collections::BTreeSet;

/// The configuration in which procedure `f` starts, with the variables and cells of a start of it,
/// which are copied: where that is fresh, the procedure that sets the resources up runs on top of it,
/// and its task holds them all. An `Err` says that memory ran out.
pub fn begin<'p>(
    alloc: Global,
    p: &'p Program,
    f: ProcId,
    start: &Start,
) -> Result<Config<'p>, AllocError>
    requires { StartsWith (program_of p.now) f start.now.fresh start.now.vars start.now.heap
        start.now.parts.items }
    ensures begins { IfOk result (λ c. Begins (program_of p.now) f start.now.fresh start.now.vars
        start.now.heap (config_of c)) }
    ensures reached { IfOk result (λ c. IsReached (program_of p.now) (config_of c)) }
    ensures wide { IfOk result (IsWide (program_of p.now)) }
{
    let heap = start.heap.copy()?;
    begin_on(alloc, p, f, start.fresh, &start.vars, heap)
}

/// The same configuration, into which the cells of the start move, and none is copied.
pub fn begin_with<'p>(
    alloc: Global,
    p: &'p Program,
    f: ProcId,
    start: Start,
) -> Result<Config<'p>, AllocError>
    requires { StartsWith (program_of p.now) f start.fresh start.vars start.heap
        start.parts.items }
    ensures begins { IfOk result
        (λ c. Begins (program_of p.now) f start.fresh start.vars start.heap (config_of c)) }
    ensures reached { IfOk result (λ c. IsReached (program_of p.now) (config_of c)) }
    ensures wide { IfOk result (IsWide (program_of p.now)) }
{
    let Start {
        vars,
        heap,
        fresh,
        ..
    } = start;
    begin_on(alloc, p, f, fresh, &vars, heap)
}

/// The configuration with these variables and cells of a start, fresh or not.
fn begin_on<'p>(
    alloc: Global,
    p: &'p Program,
    f: ProcId,
    fresh: bool,
    vars: &Vars,
    heap: Heap,
) -> Result<Config<'p>, AllocError>
    requires { (parts : List (List ℕ)) × StartsWith (program_of p.now) f fresh vars.now heap parts }
    ensures begins { IfOk result
        (λ c. Begins (program_of p.now) f fresh vars.now heap (config_of c)) }
    ensures reached { IfOk result (λ c. IsReached (program_of p.now) (config_of c)) }
    ensures wide { IfOk result (IsWide (program_of p.now)) }
{
    let stack = first_stack(alloc, p, f, fresh)?;
    let common = first_shared(alloc, p, f, fresh, vars, heap)?;
    let mut used = BTreeSet::new(alloc);
    used.insert(0)?;
    Ok(Config {
        common,
        used,
        tasks: Task::Runs(stack),
    })
}
