//! What a part has of a resource: its variables, and the cells that its invariant asks for.

ghost use Rattle.std.specs.Prelude.{◌≡◌, ◌<◌, [], ℕ, true, is_some, length, slice_index_or, unwrap_or, IfOk};
ghost use Rattle.std.specs.List.{slice_get};
ghost use Rattle.sf_base.specs.declared.ids.Var.{Var as V};
ghost use Rattle.sf_base.specs.declared.value.Value.TheVariants.{Nil as nil};
ghost use Rattle.sf_base.specs.HeapStore.{Slot, shared};
ghost use Rattle.sf_core.specs.Program.Formed.{variable_count as count_of};
ghost use Rattle.sf_core.specs.Program.ProgramView.{program_of};
ghost use Rattle.sf_core.specs.Program.Syntax.{Resource};
ghost use Rattle.sf_foot.specs.Variables.{value_of, values_or_none};
ghost use Rattle.sf_frame.specs.Commons.{common_of};
ghost use Rattle.sf_frame.specs.Stores.{store_of};
ghost use Rattle.sf_part.specs.Given.{is_variable_of};
ghost use Rattle.sf_part.specs.Checked.Sharing.{HasNoShare, IsOwnOf, IsShare, seen_in};

use crate::fault::PartFault;
use crate::spots::{variable_count, variable_spots};
use sf_base::{ResId, Value};
use sf_core::Program;
use sf_foot::{Vars, footprint};
use sf_frame::{Shared, Spot, Store};
use sf_heap::Locations;
use sf_precise::Arranged;
use sf_precise::laws::order_keeps_meaning;
use std::alloc::{AllocError, Global};

/// What is to be given up: variables, with the values that they have, and cells, by their
/// locations. Nothing has moved yet.
#[derive(Drop)]
pub(crate) struct Share {
    pub(crate) store: Store,
    pub(crate) at: Locations,
}

/// What is the resource's of what is there: its variables, and the footprint of its invariant.
/// `NoFootprint` comes exactly where there is none.
pub(crate) fn resource_share(p: &Arranged, shared: &Shared, r: ResId) -> Result<Share, PartFault>
    requires { (resource : Resource)
        × (slice_get (program_of p.now.program).resources r.0 ≡ Some resource) }
    ensures ok { IfOk result (IsShare (program_of p.now.program) r shared.now) }
    ensures none { result ≡ Err PartFault.NoFootprint
        → HasNoShare (program_of p.now.program) r (common_of shared.now) }
{
    let store = resource_store(&p.program, shared, r)?;
    let vars = resource_vars(shared.alloc, &p.program, &store, r)?;
    order_keeps_meaning();
    match footprint(shared.alloc, p.invariant(r), &vars, &shared.heap)? {
        Some(at) => Ok(Share { store, at }),
        None => Err(PartFault::NoFootprint),
    }
}

/// A store of just the variables of a resource, with the values that they have.
pub(crate) fn resource_store(p: &Program, shared: &Shared, r: ResId) -> Result<Store, AllocError>
    requires { (resource : Resource)
        × (slice_get (program_of p.now).resources r.0 ≡ Some resource) }
    ensures { IfOk result (λ store. IsOwnOf (program_of p.now) r (store_of shared.now.store)
        (store_of store)) }
{
    let count = variable_count(p, r);
    let spots = variable_spots(shared.alloc, r, count)?;
    shared.store.copy_of(shared.alloc, spots.as_slice())
}

/// The values of the variables of a resource, which are the only ones of that store.
pub(crate) fn resource_vars(
    alloc: Global,
    p: &Program,
    store: &Store,
    r: ResId,
) -> Result<Vars, AllocError>
    requires there { (resource : Resource)
        × (slice_get (program_of p.now).resources r.0 ≡ Some resource) }
    requires own { (slot : Slot) → is_some (store_of store.now slot) ≡ true
        → is_variable_of r (count_of (slice_get (program_of p.now).resources r.0)) slot ≡ true }
    ensures { IfOk result (λ vars. (x : V) → value_of vars x ≡ seen_in (store_of store.now) x) }
{
    let mut shared = empty_rows(alloc, r.0)?;
    shared.push(resource_values(alloc, store, r, variable_count(p, r))?)?;
    Ok(Vars {
        own: Vec::new(alloc),
        shared,
    })
}

/// So many lists of no values.
fn empty_rows(alloc: Global, count: u32) -> Result<Vec<Vec<Value>>, AllocError>
    ensures len { IfOk result (λ rows. length rows.items ≡ count) }
    ensures empty { IfOk result
        (λ rows. (k : ℕ) → values_or_none (slice_get rows.items k) ≡ []) }
{
    let mut rows = Vec::with_capacity(alloc, count as usize)?;
    for _q in 0..count {
        rows.push(Vec::new(alloc))?;
    }
    Ok(rows)
}

/// The values of the variables of a resource, which has so many.
pub(crate) fn resource_values(
    alloc: Global,
    store: &Store,
    r: ResId,
    count: u32,
) -> Result<Vec<Value>, AllocError>
    ensures len { IfOk result (λ values. length values.items ≡ count) }
    ensures values { IfOk result (λ values. (i : ℕ) → i < count
        → slice_index_or values.items i nil
        ≡ unwrap_or (store_of store.now (shared r i)) nil) }
{
    let mut values = Vec::with_capacity(alloc, count as usize)?;
    for i in 0..count {
        values.push(store.get(Spot::Shared(r, i)))?;
    }
    Ok(values)
}
