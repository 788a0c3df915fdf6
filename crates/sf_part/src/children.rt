//! What the children of a fork begin with: the variables of the first frame of each, and the cells
//! that its procedure's precondition asks for.

ghost use Rattle.std.specs.Prelude.{◌≡◌, ◌↔◌, ◌⊎◌, ◌<◌, [], ℕ, true, false, is_some, length, slice_index_or, unwrap_or, IfOk, OnOk};
ghost use Rattle.std.specs.List.{slice_get};
ghost use Rattle.sf_base.specs.declared.ids.ResId.{ResId as R};
ghost use Rattle.sf_base.specs.declared.ids.Var.TheVariants.{Own, Shared as SharedVar};
ghost use Rattle.sf_base.specs.declared.value.Value.TheVariants.{Nil as nil};
ghost use Rattle.sf_base.specs.HeapStore.{Slot, Store as S, shared as shared_slot};
ghost use Rattle.sf_core.specs.Machine.Step.{procedure_at};
ghost use Rattle.sf_core.specs.Program.Formed.{variable_count as count_of};
ghost use Rattle.sf_core.specs.Program.ProgramView.{program_of};
ghost use Rattle.sf_core.specs.Program.Syntax.{Procedure};
ghost use Rattle.sf_foot.specs.Found.{AreApart};
ghost use Rattle.sf_foot.specs.Variables.{value_of, values_or_none};
ghost use Rattle.sf_frame.specs.Commons.{common_of};
ghost use Rattle.sf_frame.specs.Frames.{frame_of};
ghost use Rattle.sf_frame.specs.Stores.{is_among, store_of};
ghost use Rattle.sf_part.specs.Lent.{IsNamed};
ghost use Rattle.sf_part.specs.Checked.Children.{AreLent, HasJust, HasNoneLent, HasNoNextLent, HasVariablesOf, IsFirstOf, IsNextLent, IsOwnSlot, IsSlotOf, NoneInBoth, seen_by};

use crate::fault::PartFault;
use crate::share::{Share, resource_values};
use crate::spots::variable_count;
use sf_base::{ProcId, ResId, Value, Var};
use sf_calls::laws::sets_from_truncation;
use sf_core::Program;
use sf_foot::{Found, Vars};
use sf_frame::{Frame, Shared, Spot, Store};
use sf_precise::Arranged;
use sf_precise::laws::{order_keeps_meaning, ordered_is_determined};
use std::alloc::{AllocError, Global};

/// What goes to the two children of a fork. Nothing has moved yet.
#[derive(Drop)]
pub(crate) struct Shares {
    pub(crate) left: Share,
    pub(crate) right: Share,
}

/// What goes to each of the two children of a fork, which run these procedures: the variables of
/// its frame, and the footprint of its precondition. `NoFootprint` comes exactly where there are no
/// two such shares.
pub(crate) fn lent_shares(
    p: &Arranged,
    shared: &Shared,
    callees: (ProcId, ProcId),
    left: &Frame<'_>,
    right: &Frame<'_>,
) -> Result<Shares, PartFault>
    requires left_first { (g : Procedure) × IsFirstOf (program_of p.now.program) callees.0
        (frame_of left.now) g
        × HasVariablesOf (program_of p.now.program) (frame_of left.now) g
        (store_of shared.now.store) }
    requires right_first { (g : Procedure) × IsFirstOf (program_of p.now.program) callees.1
        (frame_of right.now) g
        × HasVariablesOf (program_of p.now.program) (frame_of right.now) g
        (store_of shared.now.store) }
    ensures ok { IfOk result (λ shares. (g k : Procedure)
        → procedure_at (program_of p.now.program) callees.0 ≡ Some g
        → procedure_at (program_of p.now.program) callees.1 ≡ Some k
        → AreLent (program_of p.now.program) (frame_of left.now) (frame_of right.now) g k shared.now
        shares.left shares.right) }
    ensures none { result ≡ Err PartFault.NoFootprint → (g k : Procedure)
        → procedure_at (program_of p.now.program) callees.0 ≡ Some g
        → procedure_at (program_of p.now.program) callees.1 ≡ Some k
        → HasNoneLent (program_of p.now.program) (frame_of left.now) (frame_of right.now) g k
        (common_of shared.now) }
{
    let mut found = Found::new(shared.alloc);
    let nothing = Store::new(shared.alloc);
    let one = match next_lent(p, shared, callees.0, left, &nothing, &mut found) {
        Ok(store) => store,
        Err(fault) => return Err(fault),
    };
    let two = match next_lent(p, shared, callees.1, right, &one, &mut found) {
        Ok(store) => store,
        Err(fault) => return Err(fault),
    };
    let Some(right_at) = found.parts.pop() else {
        unreachable!()
    };
    let Some(left_at) = found.parts.pop() else {
        unreachable!()
    };
    Ok(Shares {
        left: Share {
            store: one,
            at: left_at,
        },
        right: Share {
            store: two,
            at: right_at,
        },
    })
}

/// The variables of a child's first frame, none of which may be among those that are taken; the
/// footprint of its precondition in what the earlier ones left is found too. `NoFootprint` comes
/// exactly where there are no such variables and cells.
fn next_lent(
    p: &Arranged,
    shared: &Shared,
    callee: ProcId,
    frame: &Frame<'_>,
    taken: &Store,
    found: &mut Found,
) -> Result<Store, PartFault>
    requires first { (g : Procedure) × IsFirstOf (program_of p.now.program) callee
        (frame_of frame.now) g
        × HasVariablesOf (program_of p.now.program) (frame_of frame.now) g
        (store_of shared.now.store) }
    requires apart { AreApart shared.now.heap found.old }
    ensures ok { IfOk result (λ store. (g : Procedure)
        → procedure_at (program_of p.now.program) callee ≡ Some g
        → IsNextLent (program_of p.now.program) (frame_of frame.now) g shared.now
        (store_of taken.now) found.old found.new store) }
    ensures none { result ≡ Err PartFault.NoFootprint → (g : Procedure)
        → procedure_at (program_of p.now.program) callee ≡ Some g
        → HasNoNextLent (program_of p.now.program) (frame_of frame.now) g shared.now
        (store_of taken.now) found.old }
{
    let store = match frame_store(p, shared, callee, frame, taken) {
        Ok(store) => store,
        Err(fault) => return Err(fault),
    };
    let count = own_count(&p.program, callee);
    let vars = frame_vars(shared.alloc, &p.program, count, frame, &store)?;
    order_keeps_meaning();
    ordered_is_determined();
    if found.take(shared.alloc, p.pre(callee), &vars, &shared.heap)? {
        Ok(store)
    } else {
        Err(PartFault::NoFootprint)
    }
}

/// A store of just the variables of a first frame. `NoFootprint` comes exactly where one of them is
/// taken.
fn frame_store(
    p: &Arranged,
    shared: &Shared,
    callee: ProcId,
    frame: &Frame<'_>,
    taken: &Store,
) -> Result<Store, PartFault>
    requires first { (g : Procedure) × IsFirstOf (program_of p.now.program) callee
        (frame_of frame.now) g
        × HasVariablesOf (program_of p.now.program) (frame_of frame.now) g
        (store_of shared.now.store) }
    ensures ok { IfOk result (λ store. (g : Procedure)
        → procedure_at (program_of p.now.program) callee ≡ Some g
        → HasJust (program_of p.now.program) (frame_of frame.now) g (store_of shared.now.store)
        (store_of store)
        × NoneInBoth (store_of taken.now) (store_of store)) }
    ensures none { result ≡ Err PartFault.NoFootprint → (g : Procedure)
        → procedure_at (program_of p.now.program) callee ≡ Some g → (part : S)
        → HasJust (program_of p.now.program) (frame_of frame.now) g (store_of shared.now.store)
        part
        → NoneInBoth (store_of taken.now) part → ⊥ }
{
    let spots = frame_spots(shared.alloc, p, callee, frame)?;
    if has_some(taken, spots.as_slice()) {
        return Err(PartFault::NoFootprint);
    }
    match shared.store.copy_of(shared.alloc, spots.as_slice()) {
        Ok(store) => Ok(store),
        Err(_) => Err(PartFault::OutOfMemory),
    }
}

/// Whether a store has one of those slots.
fn has_some(store: &Store, spots: &[Spot]) -> bool
    ensures some { result ≡ true → (slot : Slot) × (is_among spots.now slot ≡ true)
        × (is_some (store_of store.now slot) ≡ true) }
    ensures none { result ≡ false → (slot : Slot) → is_among spots.now slot ≡ true
        → is_some (store_of store.now slot) ≡ false }
{
    for spot in spots {
        if store.find(*spot).is_some() {
            return true;
        }
    }
    false
}

/// The slots of the variables of the first frame of a procedure: of its own ones, and of those that
/// are free in it. An `Err` says that memory ran out.
fn frame_spots(
    alloc: Global,
    p: &Arranged,
    callee: ProcId,
    frame: &Frame<'_>,
) -> Result<Vec<Spot>, AllocError>
    requires { (g : Procedure) × IsFirstOf (program_of p.now.program) callee
        (frame_of frame.now) g }
    ensures { IfOk result (λ spots. (g : Procedure)
        → procedure_at (program_of p.now.program) callee ≡ Some g → (slot : Slot)
        → (is_among spots.items slot ≡ true)
        ↔ IsNamed (program_of p.now.program) (frame_of frame.now) g slot) }
{
    sets_from_truncation();
    let mut spots = own_spots(alloc, frame, own_count(&p.program, callee))?;
    add_spots(&mut spots, frame, p.calls.free_in(callee))?;
    Ok(spots)
}

/// How many own variables a procedure of a program has.
fn own_count(p: &Program, callee: ProcId) -> u32
    requires { (g : Procedure) × (procedure_at (program_of p.now) callee ≡ Some g) }
    ensures { (g : Procedure) → procedure_at (program_of p.now) callee ≡ Some g
        → result ≡ length g.names }
{
    p.proc(callee).names.len() as u32
}

/// The slots of the first own variables of a frame. An `Err` says that memory ran out.
fn own_spots(alloc: Global, frame: &Frame<'_>, count: u32) -> Result<Vec<Spot>, AllocError>
    ensures { IfOk result (λ spots. (slot : Slot) → (is_among spots.items slot ≡ true)
        ↔ IsOwnSlot (frame_of frame.now) count slot) }
{
    let mut spots = Vec::with_capacity(alloc, count as usize)?;
    for i in 0..count {
        spots.push(frame.spot(Var::Own(i)))?;
    }
    Ok(spots)
}

/// Appends the slots of variables of a frame. An `Err` says that memory ran out.
fn add_spots(spots: &mut Vec<Spot>, frame: &Frame<'_>, xs: &[Var]) -> Result<(), AllocError>
    ensures { OnOk result ((slot : Slot) → (is_among spots.new.items slot ≡ true)
        ↔ (is_among spots.old.items slot ≡ true) ⊎ IsSlotOf (frame_of frame.now) xs.now slot) }
{
    for x in xs {
        spots.push(frame.spot(*x))?;
    }
    Ok(())
}

/// The values of the first own variables of a frame, and those of all resources, in a store: a
/// variable that isn't there counts as nil. An `Err` says that memory ran out.
fn frame_vars(
    alloc: Global,
    p: &Program,
    count: u32,
    frame: &Frame<'_>,
    store: &Store,
) -> Result<Vars, AllocError>
    ensures own { IfOk result (λ vars. (n : ℕ) → n < count → value_of vars (Own n)
        ≡ seen_by (frame_of frame.now) (store_of store.now) (Own n)) }
    ensures shared { IfOk result (λ vars. (r : R) (i : ℕ)
        → i < count_of (slice_get (program_of p.now).resources r.0)
        → value_of vars (SharedVar r i)
        ≡ unwrap_or (store_of store.now (shared_slot r i)) nil) }
{
    let own = own_values(alloc, count, frame, store)?;
    let shared = shared_rows(alloc, p, store)?;
    Ok(Vars { own, shared })
}

/// The values of the first own variables of a frame in a store. An `Err` says that memory ran out.
fn own_values(
    alloc: Global,
    count: u32,
    frame: &Frame<'_>,
    store: &Store,
) -> Result<Vec<Value>, AllocError>
    ensures { IfOk result (λ values. (n : ℕ) → n < count → slice_index_or values.items n nil
        ≡ seen_by (frame_of frame.now) (store_of store.now) (Own n)) }
{
    let mut values = Vec::with_capacity(alloc, count as usize)?;
    for i in 0..count {
        values.push(store.get(frame.spot(Var::Own(i))))?;
    }
    Ok(values)
}

/// The values of the variables of each resource in a store. An `Err` says that memory ran out.
fn shared_rows(alloc: Global, p: &Program, store: &Store) -> Result<Vec<Vec<Value>>, AllocError>
    ensures { IfOk result (λ rows. (r : R) (i : ℕ)
        → i < count_of (slice_get (program_of p.now).resources r.0)
        → slice_index_or (values_or_none (slice_get rows.items r.0)) i nil
        ≡ unwrap_or (store_of store.now (shared_slot r i)) nil) }
{
    let mut rows = Vec::with_capacity(alloc, p.resources.len())?;
    for number in 0..p.resources.len() {
        let r = ResId(number as u32);
        rows.push(resource_values(alloc, store, r, variable_count(p, r))?)?;
    }
    Ok(rows)
}
