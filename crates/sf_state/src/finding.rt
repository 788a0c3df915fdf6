//! The footprints of a start's assertions, one after the other.

ghost use Rattle.std.specs.Prelude.{◌≡◌, ◌||◌, ◌<◌, [], ℕ, true, false, length, nat_eq, slice_get, suc, All, Contains, IfNone, IfOk, IfSome, List, OnOk};
ghost use Rattle.std.specs.BTreeSet.{contains};
ghost use Rattle.std.specs.Ordering.{nat_cmp};
ghost use Rattle.std.specs.Set.{is_member};
ghost use Rattle.sf_core.specs.Program.ProgramView.{program_of};
ghost use Rattle.sf_core.specs.Program.Syntax.{Assertion as A};
ghost use Rattle.sf_core.specs.Program.View.{assertion_of};
ghost use Rattle.sf_foot.specs.Variables.{value_of};
ghost use Rattle.sf_precise.specs.Order.{IsOrderOf};
ghost use Rattle.sf_state.specs.Checked.Found.{AllFound, AlsoFound, AreFound, IsLeast};
ghost use Rattle.sf_state.specs.Starts.{assertion_name};

use crate::fault::StartFault;
use sf_base::{Name, ProcId, ResId};
use sf_core::Ordered;
use sf_core::laws::assertions::determined_has_one_footprint;
use sf_foot::{Found, Vars};
use sf_heap::{Heap, Locations};
use sf_precise::Arranged;
use sf_precise::laws::{order_keeps_meaning, ordered_is_determined};
use std::alloc::{AllocError, Global};
use std::collections::BTreeSet;

/// The least of these locations that isn't in the set.
pub(crate) fn first_outside(taken: &BTreeSet<u64>, at: &Locations) -> Option<u64>
    ensures some { IfSome result
        (IsLeast (λ l. Contains at.now l × (contains nat_cmp taken.now l ≡ false))) }
    ensures none { IfNone result (All (λ l. contains nat_cmp taken.now l ≡ true) at.now) }
{
    for l in at.as_slice() {
        if !taken.contains(l) {
            return Some(*l);
        }
    }
    None
}

/// What a refusal calls the invariant of the resource of that number.
fn resource_name(alloc: Global, p: &Arranged, r: usize) -> Result<Name, AllocError>
    requires { r < length p.now.program.resources.items }
    ensures { IfOk result (λ name. name ≡ assertion_name (program_of p.now.program) (suc r)) }
{
    let mut bytes = Vec::from_slice(alloc, b"resource ")?;
    bytes.extend_from_slice(p.program.resources[r].name.as_bytes())?;
    Name::new(alloc, &bytes)
}

/// Takes the footprint of an assertion, which has that order, in what the earlier ones left of the
/// heap: `false` where there is none.
fn take_next(
    found: &mut Found,
    alloc: Global,
    a: &Ordered,
    vars: &Vars,
    heap: &Heap,
) -> Result<bool, AllocError>
    ensures { (before : List A) (b : A) → IsOrderOf b (assertion_of a.now.assertion)
        → AreFound before (value_of vars.now) heap.now found.old
        → AlsoFound before b (value_of vars.now) heap.now found.old found.new result }
{
    order_keeps_meaning();
    ordered_is_determined();
    determined_has_one_footprint();
    found.take(alloc, a, vars, heap)
}

/// The footprint of the precondition, or that it has none.
fn find_pre(
    alloc: Global,
    p: &Arranged,
    f: ProcId,
    vars: &Vars,
    heap: &Heap,
) -> Result<Found, StartFault>
    requires { f.0 < length p.now.program.procedures.items }
    ensures { IfSome (slice_get (program_of p.now.program).procedures f.0)
        (λ g. AllFound (program_of p.now.program) g true (value_of vars.now) heap.now result) }
{
    let mut found = Found::new(alloc);
    if !take_next(&mut found, alloc, p.pre(f), vars, heap)? {
        let name = Name::new(alloc, b"pre")?;
        return Err(StartFault::Unmet(name));
    }
    Ok(found)
}

/// The footprints of the precondition and then of each resource's invariant, in file order, each in
/// what the earlier ones left; or the first assertion that has none there.
fn find_all(
    alloc: Global,
    p: &Arranged,
    f: ProcId,
    vars: &Vars,
    heap: &Heap,
) -> Result<Found, StartFault>
    requires { f.0 < length p.now.program.procedures.items }
    ensures { IfSome (slice_get (program_of p.now.program).procedures f.0)
        (λ g. AllFound (program_of p.now.program) g false (value_of vars.now) heap.now result) }
{
    let mut found = match find_pre(alloc, p, f, vars, heap) {
        Ok(found) => found,
        Err(fault) => return Err(fault),
    };
    for r in 0..p.program.resources.len() {
        if !take_next(&mut found, alloc, p.invariant(ResId(r as u32)), vars, heap)? {
            let name = resource_name(alloc, p, r)?;
            return Err(StartFault::Unmet(name));
        }
    }
    Ok(found)
}

/// The footprints of the precondition and then, unless the start is fresh, of each resource's
/// invariant in file order; or the first assertion that has none in what the earlier ones left.
pub(crate) fn find_parts(
    alloc: Global,
    p: &Arranged,
    f: ProcId,
    fresh: bool,
    vars: &Vars,
    heap: &Heap,
) -> Result<Found, StartFault>
    requires { f.0 < length p.now.program.procedures.items }
    ensures { IfSome (slice_get (program_of p.now.program).procedures f.0)
        (λ g. AllFound (program_of p.now.program) g fresh (value_of vars.now) heap.now result) }
{
    if fresh {
        find_pre(alloc, p, f, vars, heap)
    } else {
        find_all(alloc, p, f, vars, heap)
    }
}
