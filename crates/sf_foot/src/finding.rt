//! The footprint of an assertion.

ghost use Rattle.std.specs.Prelude.{◌≡◌, All, IfNone, IfOk, IfSome};
ghost use Rattle.sf_core.specs.Program.View.{assertion_of};
ghost use Rattle.sf_heap.specs.Cells.{HasCell, heap_of};
ghost use Rattle.sf_foot.specs.Footprint.{HasNoFootprint, IsFootprint};
ghost use Rattle.sf_foot.specs.Variables.{value_of};

use crate::known::Known;
use crate::taking::take_all;
use crate::vars::Vars;
use sf_core::Ordered;
use sf_heap::{Heap, Locations};
use std::alloc::{AllocError, Global};

/// The locations of the cells that satisfy an assertion, which is at most one part of the heap.
/// `None` comes exactly where no part satisfies it. An `Err` says that memory ran out. It follows
/// the pointers of the heap, without recursion on the length of a list or the depth of a tree, and
/// copies no cell.
pub fn footprint(
    alloc: Global,
    a: &Ordered,
    vars: &Vars,
    heap: &Heap,
) -> Result<Option<Locations>, AllocError>
    ensures found { IfOk result (λ o. IfSome o
        (IsFootprint (assertion_of a.now.assertion).level (value_of vars.now) (heap_of heap.now))) }
    ensures there { IfOk result (λ o. IfSome o (λ at. All (HasCell heap.now) at)) }
    ensures none { IfOk result (λ o. IfNone o (HasNoFootprint
        (assertion_of a.now.assertion).level (value_of vars.now) (heap_of heap.now))) }
{
    let mut known = Known::new(alloc, a.assertion.level.made);
    let mut found = Vec::new(alloc);
    if !take_all(
        alloc,
        heap,
        vars,
        &a.assertion.level.conjuncts,
        &mut known,
        &mut found,
    )? {
        return Ok(None);
    }
    let count = found.len();
    let locations = Locations::from_vec(found);
    if locations.len() < count {
        return Ok(None);
    }
    Ok(Some(locations))
}
