//! Which cells a conjunct takes: a walk along pointers.

ghost use Rattle.std.specs.Prelude.{◌≡◌, ◌↔◌, ◌<◌, ◌++◌, length, ℕ, List, [], ◌∷◌, false, IfOk, IsTrue};
ghost use Rattle.std.specs.FinMap as map;
ghost use Rattle.sf_foot.specs.Checked.Walks.{DoubleWalk, SegmentWalk, TreesWalk, WalksOn};

use crate::known::is_same;
use sf_base::{FieldId, Value};
use sf_heap::Heap;
use std::alloc::{AllocError, Global};

/// Appends the locations of a segment's cells, from the first on. It stops with `false` where a
/// cell isn't there, and where there are more locations than cells, so that one comes twice.
pub(crate) fn walk_segment(
    heap: &Heap,
    next: FieldId,
    from: Value,
    to: Value,
    found: &mut Vec<u64>,
) -> Result<bool, AllocError>
    ensures yes { IfOk result (λ b. IsTrue b
        → WalksOn (SegmentWalk heap.now next to from) found.old.items found.new.items) }
    ensures no { IfOk result (λ b. b ≡ false
        → ((ls : List ℕ) → SegmentWalk heap.now next to from ls
        → map.len heap.now < length (found.old.items ++ ls))) }
{
    let mut at = from;
    'walk: while !is_same(at, to) {
        let Value::Loc(l) = at else {
            return Ok(false);
        };
        let Some(cell) = heap.get(l) else {
            return Ok(false);
        };
        if found.len() >= heap.len() {
            return Ok(false);
        }
        found.push(l)?;
        at = cell.get(next);
    }
    Ok(true)
}

/// Where a doubly linked segment begins and ends.
#[derive(Clone, Copy)]
pub(crate) struct Ends {
    /// Where it begins.
    pub(crate) from: Value,
    /// What its first cell leads back to.
    pub(crate) before: Value,
    /// Where its last cell is.
    pub(crate) last: Value,
    /// Where it ends.
    pub(crate) to: Value,
}

/// Appends the locations of a doubly linked segment's cells, from the first on. It stops with `false`
/// where a cell isn't there or leads back to another value than that before it, where the last one
/// is elsewhere, and where there are more locations than cells, so that one comes twice.
pub(crate) fn walk_double(
    heap: &Heap,
    next: FieldId,
    back: FieldId,
    ends: Ends,
    found: &mut Vec<u64>,
) -> Result<bool, AllocError>
    ensures yes { IfOk result (λ b. IsTrue b
        → WalksOn (DoubleWalk heap.now next back ends.last ends.to ends.before ends.from)
        found.old.items found.new.items) }
    ensures no { IfOk result (λ b. b ≡ false
        → ((ls : List ℕ) → DoubleWalk heap.now next back ends.last ends.to ends.before ends.from ls
        → map.len heap.now < length (found.old.items ++ ls))) }
{
    let mut before = ends.before;
    let mut at = ends.from;
    'walk: while !is_same(at, ends.to) {
        let Value::Loc(l) = at else {
            return Ok(false);
        };
        let Some(here) = heap.get(l) else {
            return Ok(false);
        };
        let leads = here.get(back);
        if !is_same(leads, before) {
            return Ok(false);
        }
        if found.len() >= heap.len() {
            return Ok(false);
        }
        found.push(l)?;
        before = at;
        at = here.get(next);
    }
    Ok(is_same(before, ends.last))
}

/// Appends the locations of a tree's cells, each before those of its left and then its right field.
/// It stops with `false` where a cell isn't there, and where there are more locations than cells,
/// so that one comes twice.
pub(crate) fn walk_tree(
    alloc: Global,
    heap: &Heap,
    left: FieldId,
    right: FieldId,
    root: Value,
    found: &mut Vec<u64>,
) -> Result<bool, AllocError>
    ensures yes { IfOk result (λ b. IsTrue b
        → WalksOn (TreesWalk heap.now left right (root ∷ [])) found.old.items found.new.items) }
    ensures no { IfOk result (λ b. b ≡ false → ((ls : List ℕ)
        → TreesWalk heap.now left right (root ∷ []) ls
        → map.len heap.now < length (found.old.items ++ ls))) }
{
    let mut roots = vec![in alloc; root]?;
    'walk: while let Some(at) = roots.pop() {
        let l = match at {
            Value::Nil => continue,
            Value::Int(_) => return Ok(false),
            Value::Loc(l) => l,
        };
        let Some(cell) = heap.get(l) else {
            return Ok(false);
        };
        if found.len() >= heap.len() {
            return Ok(false);
        }
        found.push(l)?;
        roots.push(cell.get(right))?;
        roots.push(cell.get(left))?;
    }
    Ok(true)
}
