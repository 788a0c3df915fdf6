//! Where a run begins: the frames of its task, and what all tasks share then.

ghost use Rattle.std.specs.Prelude.{◌≡◌, ◌+◌, ◌<◌, ◌≤◌, ◌*◌, [], cond, length, ltb, Some, None, is_some, IfOk, IfSome, List, ℕ};
ghost use Rattle.sf_base.specs.declared.ids.ProcId.{ProcId as F};
ghost use Rattle.sf_base.specs.declared.ids.ResId.{ResId as R};
ghost use Rattle.sf_base.specs.declared.limits.TheConstants.{OWN_VARIABLES};
ghost use Rattle.sf_base.specs.HeapStore.{Slot};
ghost use Rattle.sf_core.specs.Machine.Start.{Beginning, first_count, first_frames, initial_config};
ghost use Rattle.sf_core.specs.Machine.Step.{procedure_at};
ghost use Rattle.sf_core.specs.Program.Syntax.{Procedure};
ghost use Rattle.sf_core.specs.Program.ProgramView.{program_of};
ghost use Rattle.sf_foot.specs.Starting.{IsBeginning, StartsWith, store_of as starting_store};
ghost use Rattle.sf_frame.specs.Checked.Firsts.{beginning_at, first_store};
ghost use Rattle.sf_frame.specs.Commons.{common_of, held_of};
ghost use Rattle.sf_frame.specs.Frames.{stack_of};
ghost use Rattle.sf_frame.specs.Stores.{store_of};
ghost use Rattle.sf_heap.specs.Cells.{heap_of};

use crate::entry::{entry_frame, init_frame};
use crate::frame::Room;
use crate::resources::add_resources;
use crate::rooms::open;
use crate::shared::Shared;
use crate::stack::Stack;
use crate::store::Store;
use sf_base::{ProcId, TaskPath};
use sf_core::Program;
use sf_foot::Vars;
use sf_heap::Heap;
use std::alloc::{AllocError, Global};
use std::collections::BTreeMap;

/// The frames of the entry's task where a run of procedure `f` begins: its own, and where that is
/// fresh the one of the procedure that sets the resources up on top of it. An `Err` says that
/// memory ran out.
pub fn first_stack<'p>(
    alloc: Global,
    p: &'p Program,
    f: ProcId,
    fresh: bool,
) -> Result<Stack<'p>, AllocError>
    requires { f.0 < length p.now.procedures.items }
    ensures { IfOk result (λ stack. (g : Procedure) (b : Beginning)
        → procedure_at (program_of p.now) f ≡ Some g → IsBeginning (program_of p.now) fresh b
        → stack_of stack ≡ first_frames b f g) }
{
    let init = first_init(p, fresh);
    stack_with(alloc, p, f, init)
}

/// What tasks share where a run of procedure `f` begins, with these variables and cells, fresh or
/// not: the cells move. An `Err` says that memory ran out.
pub fn first_shared(
    alloc: Global,
    p: &Program,
    f: ProcId,
    fresh: bool,
    vars: &Vars,
    heap: Heap,
) -> Result<Shared, AllocError>
    requires { (parts : List (List ℕ)) × StartsWith (program_of p.now) f fresh vars.now heap parts }
    ensures common { IfOk result (λ shared. (g : Procedure) (b : Beginning)
        → procedure_at (program_of p.now) f ≡ Some g → IsBeginning (program_of p.now) fresh b
        → common_of shared ≡ (initial_config b (program_of p.now) f g
        (starting_store b g vars.now) (heap_of heap)).common) }
    ensures heap { IfOk result (λ shared. shared.heap ≡ heap) }
{
    let init = first_init(p, fresh);
    let store = first_store(alloc, p, first_count(p, f, init), vars)?;
    let held = first_holders(alloc, held_count(p, init))?;
    Ok(Shared {
        heap,
        store,
        held,
        alloc,
    })
}

/// Which procedure runs on top of the entry's frame: the one that sets the resources up, where the
/// start is fresh.
fn first_init(p: &Program, fresh: bool) -> Option<ProcId>
    ensures init { result ≡ cond fresh p.now.init None }
    ensures within { IfSome result (λ n. n.0 < length p.now.procedures.items) }
{
    if fresh { p.init } else { None }
}

/// How many variables of its own a procedure has.
fn own_count(p: &Program, f: ProcId) -> u32
    requires { f.0 < length p.now.procedures.items }
    ensures count { (g : Procedure) → procedure_at (program_of p.now) f ≡ Some g
        → result ≡ length g.names }
    ensures few { result ≤ 2 * OWN_VARIABLES }
    ensures there { (g : Procedure) × (procedure_at (program_of p.now) f ≡ Some g) }
{
    p.proc(f).names.len() as u32
}

/// How many slots of number 0 there are where a run begins.
fn first_count(p: &Program, f: ProcId, init: Option<ProcId>) -> u32
    requires there { f.0 < length p.now.procedures.items }
    requires within { IfSome init (λ n. n.0 < length p.now.procedures.items) }
    ensures count { (g : Procedure) → procedure_at (program_of p.now) f ≡ Some g
        → result ≡ first_count (beginning_at (program_of p.now) init) g }
    ensures few { result ≤ 4 * OWN_VARIABLES }
    ensures found { (n : F) → init ≡ Some n
        → (h : Procedure) × (procedure_at (program_of p.now) n ≡ Some h) }
{
    let own = own_count(p, f);
    match init {
        Some(n) => own + own_count(p, n),
        None => own,
    }
}

/// The entry's frame where a run begins, below that of the procedure that sets the resources up,
/// where that runs first.
fn stack_with<'p>(
    alloc: Global,
    p: &'p Program,
    f: ProcId,
    init: Option<ProcId>,
) -> Result<Stack<'p>, AllocError>
    requires there { f.0 < length p.now.procedures.items }
    requires within { IfSome init (λ n. n.0 < length p.now.procedures.items) }
    ensures { IfOk result (λ stack. (g : Procedure) → procedure_at (program_of p.now) f ≡ Some g
        → stack_of stack ≡ first_frames (beginning_at (program_of p.now) init) f g) }
{
    let entry = entry_frame(alloc, f, p.proc(f))?;
    match init {
        Some(n) => {
            let top = init_frame(alloc, n, p.proc(n), own_count(p, f))?;
            Stack::above(alloc, top, entry)
        }
        None => Ok(Stack::of(alloc, entry)),
    }
}

/// The first so many resources, held by the entry's task.
fn first_holders(alloc: Global, count: u32) -> Result<BTreeMap<u32, TaskPath>, AllocError>
    ensures { IfOk result
        (λ held. (r : R) → held_of held r ≡ cond (ltb r.0 count) (Some []) None) }
{
    let mut held = BTreeMap::new(alloc);
    for r in 0..count {
        held.insert(r, TaskPath::entry())?;
    }
    Ok(held)
}

/// How many resources the entry's task holds where a run begins: all where they are to be set up,
/// and else none.
fn held_count(p: &Program, init: Option<ProcId>) -> u32
    ensures { result ≡ cond (is_some init) (length p.now.resources.items) 0 }
{
    if init.is_some() {
        p.resources.len() as u32
    } else {
        0
    }
}

/// The variables with which a run begins: so many of number 0, and those of the resources.
fn first_store(alloc: Global, p: &Program, count: u32, vars: &Vars) -> Result<Store, AllocError>
    requires { count ≤ 4 * OWN_VARIABLES }
    ensures { IfOk result (λ store. (slot : Slot) → store_of store slot
        ≡ first_store count p.now.resources.items vars.now slot) }
{
    let mut store = Store::new(alloc);
    let room = Room {
        event: 0,
        first: 0,
        count,
    };
    open(&mut store, room, &vars.own)?;
    add_resources(&mut store, p, vars)?;
    Ok(store)
}
