//! Footprints one after the other. Each is looked for in the whole heap: as there is at most one, it
//! is the one in what the earlier ones left where it has none of their cells, and else there is none
//! in what they left. So no cell moves.

ghost use Rattle.std.specs.Prelude.{◌≡◌, ◌||◌, [], ℕ, true, false, nat_eq, All, Contains, OnOk};
ghost use Rattle.std.specs.BTreeSet.{contains};
ghost use Rattle.std.specs.Ordering.{nat_cmp};
ghost use Rattle.std.specs.Set.{is_member};
ghost use Rattle.sf_core.specs.Program.View.{assertion_of};
ghost use Rattle.sf_heap.specs.Cells.{Cells};
ghost use Rattle.sf_foot.specs.Found.{AreApart, FindsNext};
ghost use Rattle.sf_foot.specs.Variables.{value_of};

use crate::finding::footprint;
use crate::vars::Vars;
use sf_core::Ordered;
use sf_heap::{Heap, Locations};
use std::alloc::{AllocError, Global};
use std::collections::BTreeSet;

/// The footprints that were found so far, in order, and all their locations together.
#[derive(Debug, Drop)]
pub struct Found {
    /// The footprints, in order.
    pub parts: Vec<Locations>,
    /// The locations of them all.
    pub taken: BTreeSet<u64>,
}

impl Found {
    /// Nothing is found yet.
    pub fn new(alloc: Global) -> Found
        ensures parts { result.parts.items ≡ [] }
        ensures apart { (heap : Cells) → AreApart heap result }
    {
        Found {
            parts: Vec::new(alloc),
            taken: BTreeSet::new(alloc),
        }
    }

    /// Takes the footprint of an assertion in what the earlier ones left of the heap: `false` where
    /// there is none, if the assertion is precise. An `Err` says that memory ran out; nothing more is
    /// to be found then.
    pub fn take(
        &mut self,
        alloc: Global,
        a: &Ordered,
        vars: &Vars,
        heap: &Heap,
    ) -> Result<bool, AllocError>
        ensures { AreApart heap.now self.old → FindsNext (assertion_of a.now.assertion).level
            (value_of vars.now) heap.now self.old self.new result }
    {
        let Some(at) = footprint(alloc, a, vars, heap)? else {
            return Ok(false);
        };
        if overlaps(&self.taken, at.as_slice()) {
            return Ok(false);
        }
        add_all(&mut self.taken, at.as_slice())?;
        self.parts.push(at)?;
        Ok(true)
    }
}

/// Whether one of these locations is in the set.
fn overlaps(taken: &BTreeSet<u64>, at: &[u64]) -> bool
    ensures some { result ≡ true
        → (l : ℕ) × Contains at.now l × (contains nat_cmp taken.now l ≡ true) }
    ensures none { result ≡ false → All (λ l. contains nat_cmp taken.now l ≡ false) at.now }
{
    for l in at {
        if taken.contains(l) {
            return true;
        }
    }
    false
}

/// Adds these locations to the set. An `Err` means out of memory.
fn add_all(taken: &mut BTreeSet<u64>, at: &[u64]) -> Result<(), AllocError>
    ensures { OnOk result ((l : ℕ) → contains nat_cmp taken.new l
        ≡ (contains nat_cmp taken.old l || is_member nat_eq at.now l)) }
{
    for l in at {
        taken.insert(*l)?;
    }
    Ok(())
}
