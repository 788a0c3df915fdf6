//! The variables of resources come up in the store.

ghost use Rattle.std.specs.Prelude.{◌≡◌, ◌<◌, ◌^◌, cond, Some, length, get_or, slice_get, OnOk};
ghost use Rattle.sf_base.specs.HeapStore.{Slot};
ghost use Rattle.sf_foot.specs.Variables.{value_of};
ghost use Rattle.sf_frame.specs.Checked.Resources.{counts_of, in_resource, in_resources, var_at};
ghost use Rattle.sf_frame.specs.Stores.{store_of};

use crate::spot::Spot;
use crate::store::Store;
use sf_base::{ResId, Var};
use sf_core::{Program, Resource};
use sf_foot::Vars;
use std::alloc::AllocError;

/// The variables of all resources of a program come up with those values.
pub(crate) fn add_resources(store: &mut Store, p: &Program, vars: &Vars) -> Result<(), AllocError>
    ensures { OnOk result ((slot : Slot) → store_of store.new slot
        ≡ cond (in_resources (counts_of p.now.resources.items) (length p.now.resources.items) slot)
        (Some (value_of vars.now (var_at slot))) (store_of store.old slot)) }
{
    for r in 0..p.resources.len() {
        let count = variable_count(p, r);
        add_resource(store, r as u32, count, vars)?;
    }
    Ok(())
}

/// How many variables the resource of that number has.
#[tactic(auto, using(crate::proofs::Firsts::counted))]
pub fn variable_count(p: &Program, r: usize) -> u32
    requires { r < length p.now.resources.items }
    ensures count { result ≡ get_or (counts_of p.now.resources.items) r 0 }
    ensures few { r < 2 ^ 32 }
{
    resource_at(p, r).variables.len() as u32
}

/// The resource of that number.
fn resource_at(p: &Program, r: usize) -> &Resource
    requires { r < length p.now.resources.items }
    ensures { slice_get p.now.resources.items r ≡ Some result.now }
{
    &p.resources[r]
}

/// So many variables of the resource of that number come up with those values.
fn add_resource(store: &mut Store, r: u32, count: u32, vars: &Vars) -> Result<(), AllocError>
    ensures { OnOk result ((slot : Slot) → store_of store.new slot ≡ cond (in_resource r count slot)
        (Some (value_of vars.now (var_at slot))) (store_of store.old slot)) }
{
    for i in 0..count {
        store.put(
            Spot::Shared(ResId(r), i),
            vars.get(Var::Shared(ResId(r), i)),
        )?;
    }
    Ok(())
}
