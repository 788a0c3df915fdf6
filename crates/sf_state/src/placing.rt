//! Where the cells and the values of a text go: the cells into a heap, and the values to their
//! variables.

ghost use Rattle.std.specs.Prelude.{◌≡◌, ◌+◌, ℕ, false, drop, map, take, IfOk, IfErr, OnOk};
ghost use Rattle.std.specs.BTreeMap as tree;
ghost use Rattle.std.specs.FinMap as fin;
ghost use Rattle.std.specs.Ordering.{nat_cmp};
ghost use Rattle.sf_core.specs.Program.ProgramView.{program_of};
ghost use Rattle.sf_core.specs.Program.View.{resource_of};
ghost use Rattle.sf_heap.specs.Cells.{AreAt};
ghost use Rattle.sf_state.specs.Starts.{by_resource};

use crate::fault::StartFault;
use sf_base::Value;
use sf_core::{Proc, Program, Resource};
use sf_foot::Vars;
use sf_heap::{Cell, Heap, HeapFault, Locations};
use std::alloc::{AllocError, Global};
use std::collections::BTreeMap;

/// Puts a cell at a location without one.
fn put_new(heap: &mut Heap, at: u64, cell: Cell) -> Result<(), StartFault>
    requires { fin.contains_key heap.old at ≡ false }
    ensures ok { OnOk result (heap.new ≡ fin.insert heap.old at cell) }
    ensures err { IfErr result (λ e. e ≡ StartFault.OutOfMemory) }
{
    match heap.put(at, cell) {
        Ok(()) => Ok(()),
        Err(HeapFault::OutOfMemory(_)) => Err(StartFault::OutOfMemory),
        Err(HeapFault::Present(_)) => unreachable!(),
    }
}

/// The heap of those cells, and their locations. They go in by rising location, so that none moves
/// for another.
pub(crate) fn heap_of(
    alloc: Global,
    mut cells: BTreeMap<u64, Cell>,
) -> Result<(Heap, Locations), StartFault>
    ensures cells { IfOk result (λ r. (l : ℕ) → fin.get r.0 l ≡ tree.get nat_cmp cells l) }
    ensures at { IfOk result (λ r. AreAt r.1 r.0) }
    ensures err { IfErr result (λ e. e ≡ StartFault.OutOfMemory) }
{
    let mut heap = Heap::new(alloc);
    let mut at = Vec::with_capacity(alloc, cells.len())?;
    while let Some((location, cell)) = cells.pop_first() {
        put_new(&mut heap, location, cell)?;
        at.push(location)?;
    }
    Ok((heap, Locations::from_vec(at)))
}

/// The first values, so many, and those after them; all where there aren't so many.
fn split(values: &[Value], count: usize) -> (&[Value], &[Value])
    ensures first { result.0.now ≡ take count values.now }
    ensures rest { result.1.now ≡ drop count values.now }
{
    if count < values.len() {
        values.split_at(count)
    } else {
        (values, &[])
    }
}

/// The values of the variables of each resource, from those of all of them.
fn shared_values(
    alloc: Global,
    resources: &[Resource],
    values: &[Value],
) -> Result<Vec<Vec<Value>>, AllocError>
    ensures { IfOk result (λ shared. map (λ vs. vs.items) shared.items
        ≡ by_resource (map resource_of resources.now) values.now) }
{
    let mut shared = Vec::new(alloc);
    let mut left = values;
    for resource in resources {
        let (here, more) = split(left, resource.variables.len());
        shared.push(Vec::from_slice(alloc, here)?)?;
        left = more;
    }
    Ok(shared)
}

/// The variables with these values, which come in canonical order.
pub(crate) fn vars_of(
    alloc: Global,
    p: &Program,
    g: &Proc,
    values: &[Value],
) -> Result<Vars, AllocError>
    ensures own { IfOk result
        (λ vars. vars.own.items ≡ take (g.now.references + g.now.values) values.now) }
    ensures shared { IfOk result (λ vars. map (λ vs. vs.items) vars.shared.items
        ≡ by_resource (program_of p.now).resources
        (drop (g.now.references + g.now.values) values.now)) }
{
    let count = g.references as usize + g.values as usize;
    let (own, rest) = split(values, count);
    let shared = shared_values(alloc, &p.resources, rest)?;
    Ok(Vars {
        own: Vec::from_slice(alloc, own)?,
        shared,
    })
}
