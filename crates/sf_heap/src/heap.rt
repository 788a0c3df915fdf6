//! Cells at their locations, as a finite map.

ghost use Rattle.std.specs.Prelude.{◌≡◌, ◌↔◌, IfNone, IfErr, IfOk, IsTrue, OnOk, OnErr, All};
ghost use Rattle.std.specs.FinMap as map;
ghost use Rattle.std.specs.Option.{option_copied, option_copied_mut};
ghost use Rattle.sf_heap.specs.Cells.{AreAt, AreDisjoint, HasCell, heap_of};
ghost use Rattle.sf_base.specs.HeapStore.{Splits};

use crate::cell::Cell;
use crate::locations::Locations;
use crate::moves::{brought, misses, parted, top_misses, united, whole};
use crate::tree::{Entry, Node, Tree, into_cell};
use std::alloc::{AllocError, AllocFailed, Global};
use std::marker::Model;
use std::mem::replace;

/// The cells of a running program, each at its location. Contracts see the finite map from
/// locations to the values of the cells' fields; `heap_of` is the heap of the definitions that it
/// is.
#[derive(Debug, Drop)]
pub struct Heap {
    hand: Tree,
    cells: Tree,
    count: usize,
    alloc: Global,
}

/// Why a cell wasn't put. The cell comes back.
#[derive(Debug, Drop)]
pub enum HeapFault {
    /// The location has a cell.
    Present(Cell),
    /// Memory ran out.
    OutOfMemory(Cell),
}

impl Model for Heap {
    ghost use Rattle.std.specs.Coded.{coded_ℕ};
    ghost use Rattle.std.specs.Ordering.{nat_cmp};
    ghost use Rattle.std.specs.FinMap as map;
    ghost use Rattle.sf_heap.specs.Cells.{Cells};

    ghost Value = { Cells };

    ghost use Rattle.sf_heap.specs.contracts.cell.Cell as cell;

    ghost coded = { map.code coded_ℕ cell.the_row.coded };

    ghost use Rattle.std.specs.Prelude.{◌≡◌, length};
    ghost use Rattle.sf_heap.specs.Checked.Entries.{cells_of};
    ghost use Rattle.sf_heap.specs.Checked.Trees.{kept, AreKept};

    ghost view = { λ h. map.from_entries (cells_of (kept h.hand h.cells)) };

    ghost invariant = { λ h. AreKept h.hand h.cells × (length (kept h.hand h.cells) ≡ h.count) };
}

impl Heap {
    ghost use Rattle.std.specs.Borrow.{sem};
    ghost use Rattle.sf_heap.specs.Lending.{LendsCell};
    ghost use Rattle.sf_heap.specs.Faults.{IsPresent, cell_in};

    /// No cells.
    pub fn new(alloc: Global) -> Heap
        ensures { result ≡ map.empty }
    {
        Heap {
            hand: Tree::Empty,
            cells: Tree::Empty,
            count: 0,
            alloc,
        }
    }

    /// The same cells. An `Err` says that memory ran out.
    pub fn copy(&self) -> Result<Heap, AllocError>
        ensures { IfOk result (λ copy. copy ≡ self.now) }
    {
        let hand = self.hand.copy(self.alloc)?;
        let cells = self.cells.copy(self.alloc)?;
        Ok(Heap {
            hand,
            cells,
            count: self.count,
            alloc: self.alloc,
        })
    }

    /// How many cells there are.
    pub fn len(&self) -> usize
        ensures { result ≡ map.len self.now }
    {
        self.count
    }

    /// The cell at a location, or `None` exactly where there is none.
    pub fn get(&self, at: u64) -> Option<&Cell>
        ensures { option_copied result ≡ map.get self.now at }
    {
        match self.hand.top_at(at) {
            Some(cell) => Some(cell),
            None => self.cells.get(at),
        }
    }

    /// The cell at a location, to be written, or `None` exactly where there is none.
    pub fn get_mut(&mut self, at: u64) -> Option<&mut Cell>
        ensures* writes_back { sem 𝓛 (LendsCell self.entry at result) }
        ensures value { option_copied_mut result ≡ map.get self.old at }
    {
        let hand = replace(&mut self.hand, Tree::Empty);
        let cells = replace(&mut self.cells, Tree::Empty);
        let (hand, cells) = brought(hand, cells, at);
        self.cells = cells;
        self.hand = hand;
        if self.hand.top_at(at).is_some() {
            return self.hand.top_mut();
        }
        None
    }

    /// The locations of the cells. An `Err` says that memory ran out.
    pub fn locations(&self) -> Result<Locations, AllocError>
        ensures { IfOk result (λ at. AreAt at self.now) }
    {
        let mut numbers = Vec::with_capacity(self.alloc, self.count)?;
        self.hand.note_top(&mut numbers)?;
        self.cells.note(&mut numbers)?;
        Ok(Locations::from_vec(numbers))
    }

    /// Takes the cell at a location out, or answers `None` exactly where there is none.
    pub fn take(&mut self, at: u64) -> Option<Cell>
        ensures value { result ≡ map.get self.old at }
        ensures rest { self.new ≡ map.remove self.old at }
        ensures absent { IfNone result (self.new ≡ self.old) }
    {
        let hand = replace(&mut self.hand, Tree::Empty);
        let cells = replace(&mut self.cells, Tree::Empty);
        let mut cells = whole(hand, cells);
        let (taken, _) = cells.take_out(at);
        self.cells = cells;
        match taken {
            Some(node) => {
                self.count -= 1;
                Some(into_cell(node))
            }
            None => None,
        }
    }

    /// Puts a cell at a location. `Present` comes exactly where the location has a cell. Any `Err`
    /// hands the cell back and changes nothing.
    pub fn put(&mut self, at: u64, cell: Cell) -> Result<(), HeapFault>
        ensures ok { OnOk result (self.new ≡ map.insert self.old at cell) }
        ensures err { OnErr result (self.new ≡ self.old) }
        ensures present { IsPresent result ↔ HasCell self.old at }
        ensures cell_returned { IfErr result (λ fault. cell_in fault ≡ cell) }
    {
        let Some(count) = self.count.checked_add(1) else {
            return Err(self.refused(at, cell));
        };
        let node = match Box::new(self.alloc, Node::new(Entry { at, cell })) {
            Ok(node) => node,
            Err(AllocFailed { value: node }) => return Err(self.refused(at, node.entry.cell)),
        };
        let hand = replace(&mut self.hand, Tree::Empty);
        let cells = replace(&mut self.cells, Tree::Empty);
        let mut cells = whole(hand, cells);
        let (back, _) = cells.put_in(node);
        self.cells = cells;
        if let Some(node) = back {
            return Err(HeapFault::Present(into_cell(node)));
        }
        self.count = count;
        Ok(())
    }

    /// Why there is no memory for a cell, unless its location has one. The cell comes back.
    fn refused(&self, at: u64, cell: Cell) -> HeapFault
        ensures present { IsPresent (Err result) ↔ HasCell self.now at }
        ensures cell_returned { cell_in result ≡ cell }
    {
        if self.get(at).is_some() {
            return HeapFault::Present(cell);
        }
        HeapFault::OutOfMemory(cell)
    }

    /// Whether no location has a cell of both.
    pub fn is_disjoint(&self, other: &Heap) -> bool
        ensures { IsTrue result ↔ AreDisjoint self.now other.now }
    {
        if !top_misses(&other.hand, self) {
            return false;
        }
        misses(&other.cells, self)
    }

    /// Whether each of these locations has a cell.
    pub fn has_all(&self, at: &Locations) -> bool
        ensures { IsTrue result ↔ All (HasCell self.now) at.now }
    {
        for l in at.as_slice() {
            if self.get(*l).is_none() {
                return false;
            }
        }
        true
    }

    /// Takes all cells of another heap in, which has none at a location of this one. An `Err` says
    /// that they are more than can be counted: it hands the other heap back whole, and nothing is
    /// changed. The cells of the smaller of the two are moved, and none is copied.
    pub fn join(&mut self, other: Heap) -> Result<(), Heap>
        requires { AreDisjoint self.old other }
        ensures ok { OnOk result (Splits (map.get self.new) (map.get self.old) (map.get other)) }
        ensures heaps { OnOk result
            (Splits (heap_of self.new) (heap_of self.old) (heap_of other)) }
        ensures err { OnErr result (self.new ≡ self.old) }
        ensures other_returned { IfErr result (λ back. back ≡ other) }
    {
        let Some(count) = self.count.checked_add(other.count) else {
            return Err(other);
        };
        let hand = replace(&mut self.hand, Tree::Empty);
        let own = whole(hand, replace(&mut self.cells, Tree::Empty));
        let others = whole(other.hand, other.cells);
        self.cells = united(own, others, self.count < other.count);
        self.count = count;
        Ok(())
    }

    /// Takes the cells at those locations out, which all have one. It wants no memory: the cells
    /// move with what holds them, and none is copied.
    pub fn part_off(&mut self, at: &Locations) -> Heap
        requires { All (HasCell self.old) at.now }
        ensures parts { Splits (map.get self.old) (map.get result) (map.get self.new) }
        ensures heaps { Splits (heap_of self.old) (heap_of result) (heap_of self.new) }
        ensures locations { AreAt at.now result }
    {
        let hand = replace(&mut self.hand, Tree::Empty);
        let own = whole(hand, replace(&mut self.cells, Tree::Empty));
        let (part, rest) = parted(own, at.as_slice());
        self.cells = rest;
        self.count -= at.len();
        Heap {
            hand: Tree::Empty,
            cells: part,
            count: at.len(),
            alloc: self.alloc,
        }
    }
}
