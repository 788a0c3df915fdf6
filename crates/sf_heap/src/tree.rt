//! A search tree of cells, in order of location.

ghost use Rattle.std.specs.Prelude.{◌≡◌, ◌∷◌, ◌++◌, None, IfNone, IfOk, IfSome, OnOk};
ghost use Rattle.std.specs.Option.{option_copied, option_copied_mut};
ghost use Rattle.std.specs.Borrow.{sem};
ghost use Rattle.sf_heap.specs.Checked.Entries.{Rises, cells_of, found, places};
ghost use Rattle.sf_heap.specs.Checked.Trees.{entries_in, entries_of, tops, IsMore, IsTaken, Puts};
ghost use Rattle.sf_heap.specs.Checked.Lending.{LendsIts, LendsTop, top_of};

use crate::cell::Cell;
use std::alloc::{AllocError, Global};
use std::mem::replace;

/// One cell at its location.
#[derive(Debug, Drop)]
pub(crate) struct Entry {
    pub(crate) at: u64,
    pub(crate) cell: Cell,
}

/// Cells in order of location: none, or a fork, beside whose link its height stands: so heights are
/// compared without a look at the nodes, and a node is smaller.
#[cycle(tree)]
#[derive(Debug, Drop)]
pub(crate) enum Tree {
    Empty,
    Fork(u8, Box<Node>),
}

/// A cell with those below it and those above it. The heights of the two sides differ by one at
/// most, which is said by no contract.
#[cycle(tree)]
#[derive(Debug, Drop)]
pub(crate) struct Node {
    pub(crate) entry: Entry,
    pub(crate) below: Tree,
    pub(crate) above: Tree,
}

impl Node {
    /// A cell alone.
    pub(crate) fn new(entry: Entry) -> Node
        ensures { result.entry ≡ entry }
    {
        Node {
            entry,
            below: Tree::Empty,
            above: Tree::Empty,
        }
    }
}

impl Entry {
    /// The same cell at the same location. An `Err` says that memory ran out.
    fn copy(&self, alloc: Global) -> Result<Entry, AllocError>
        ensures at { IfOk result (λ e. e.at ≡ self.now.at) }
        ensures cell { IfOk result (λ e. e.cell ≡ self.now.cell) }
    {
        let values = Vec::from_slice(alloc, self.cell.values())?;
        let cell = Cell::from_values(values);
        Ok(Entry { at: self.at, cell })
    }

    /// The cell, to be written.
    fn cell_mut(&mut self) -> &mut Cell
        ensures* writes_back { sem 𝓛 (LendsIts self.entry result) }
        ensures value { result.now ≡ self.old.cell }
    {
        &mut self.cell
    }
}

impl Tree {
    /// The height that is kept.
    fn height(&self) -> u8 {
        match self {
            Tree::Empty => 0,
            Tree::Fork(height, _) => *height,
        }
    }

    /// The same cells. An `Err` says that memory ran out.
    pub(crate) fn copy(&self, alloc: Global) -> Result<Tree, AllocError>
        ensures cells { IfOk result
            (λ t. cells_of (entries_of t) ≡ cells_of (entries_of self.now)) }
        ensures top { IfOk result (λ t. cells_of (tops t) ≡ cells_of (tops self.now)) }
    {
        let Tree::Fork(height, node) = self else {
            return Ok(Tree::Empty);
        };
        let below = node.below.copy(alloc)?;
        let above = node.above.copy(alloc)?;
        let node = Node {
            entry: node.entry.copy(alloc)?,
            below,
            above,
        };
        Ok(Tree::Fork(*height, Box::new(alloc, node)?))
    }

    /// The cell at a location, or `None` exactly where there is none.
    pub(crate) fn get(&self, at: u64) -> Option<&Cell>
        requires { Rises (entries_of self.now) }
        ensures { option_copied result ≡ found at (entries_of self.now) }
    {
        let mut tree = self;
        while let Tree::Fork(_, node) = tree {
            if at == node.entry.at {
                return Some(&node.entry.cell);
            }
            tree = if at < node.entry.at {
                &node.below
            } else {
                &node.above
            };
        }
        None
    }

    /// The cell on top, or `None` exactly where it isn't at that location.
    pub(crate) fn top_at(&self, at: u64) -> Option<&Cell>
        ensures { option_copied result ≡ found at (tops self.now) }
    {
        let Tree::Fork(_, node) = self else {
            return None;
        };
        if node.entry.at == at {
            return Some(&node.entry.cell);
        }
        None
    }

    /// The cell on top, to be written, or `None` exactly where there is none.
    pub(crate) fn top_mut(&mut self) -> Option<&mut Cell>
        ensures* writes_back { sem 𝓛 (LendsTop self.entry result) }
        ensures value { option_copied_mut result ≡ top_of self.old }
    {
        match self {
            Tree::Empty => None,
            Tree::Fork(_, node) => Some(node.entry.cell_mut()),
        }
    }

    /// Puts one more cell in, unless its location has one: then it comes back, and nothing is
    /// changed. Beside it, whether the tree is higher now.
    pub(crate) fn put_in(&mut self, new: Box<Node>) -> (Option<Box<Node>>, bool)
        requires { Rises (entries_of self.old) }
        ensures { Puts (entries_of self.old) new.value.entry result.0 (entries_of self.new) }
    {
        let Tree::Fork(height, mut node) = replace(self, Tree::Empty) else {
            *self = fork(flat(new, Tree::Empty, Tree::Empty));
            return (None, true);
        };
        if new.entry.at < node.entry.at {
            let (back, is_higher) = node.below.put_in(new);
            *self = Tree::Fork(height, node);
            return (back, is_higher && self.mend());
        }
        if node.entry.at < new.entry.at {
            let (back, is_higher) = node.above.put_in(new);
            *self = Tree::Fork(height, node);
            return (back, is_higher && self.mend());
        }
        *self = Tree::Fork(height, node);
        (Some(new), false)
    }

    /// Puts one more cell in, at a location that has none.
    pub(crate) fn add(&mut self, new: Box<Node>)
        requires rises { Rises (entries_of self.old) }
        requires absent { found new.value.entry.at (entries_of self.old) ≡ None }
        ensures { IsMore (entries_of self.old) new.value.entry (entries_of self.new) }
    {
        let _ = self.put_in(new);
    }

    /// Takes the cell at a location out, if there is one, and leaves the others. Beside it,
    /// whether the tree is lower now.
    pub(crate) fn take_out(&mut self, at: u64) -> (Option<Box<Node>>, bool)
        requires { Rises (entries_of self.old) }
        ensures same { IfNone result.0 (entries_of self.new ≡ entries_of self.old) }
        ensures absent { IfNone result.0 (found at (entries_of self.old) ≡ None) }
        ensures taken { IfSome result.0 (λ node.
            IsTaken (entries_of self.old) at node.value.entry (entries_of self.new)) }
    {
        let Tree::Fork(height, mut node) = replace(self, Tree::Empty) else {
            return (None, false);
        };
        if at < node.entry.at {
            let (taken, is_lower) = node.below.take_out(at);
            *self = Tree::Fork(height, node);
            return (taken, is_lower && self.mend());
        }
        if node.entry.at < at {
            let (taken, is_lower) = node.above.take_out(at);
            *self = Tree::Fork(height, node);
            return (taken, is_lower && self.mend());
        }
        let (below, node, above) = opened(node);
        *self = below.then(above);
        (Some(node), self.height() != height)
    }

    /// Mends the heights where one of the two sides has another one. Whether the height of the
    /// whole is another one now.
    fn mend(&mut self) -> bool
        ensures { entries_of self.new ≡ entries_of self.old }
    {
        let Tree::Fork(height, node) = self else {
            return false;
        };
        let before = *height;
        let (left, right) = (node.below.height(), node.above.height());
        if left.saturating_add(1) < right || right.saturating_add(1) < left {
            self.turn();
            return self.height() != before;
        }
        *height = left.max(right).saturating_add(1);
        *height != before
    }

    /// Brings the heights of the two sides together, where they differ by two.
    fn turn(&mut self)
        ensures { entries_of self.new ≡ entries_of self.old }
    {
        if let Tree::Fork(_, node) = replace(self, Tree::Empty) {
            let (below, node, above) = opened(node);
            *self = fork(balanced(node, below, above));
        }
    }

    /// These cells and those of another tree, which come after them. The heights of the two differ
    /// by one at most.
    fn then(self, above: Tree) -> Tree
        ensures { entries_of result ≡ entries_of self ++ entries_of above }
    {
        let Tree::Fork(_, node) = above else {
            return self;
        };
        if let Tree::Empty = self {
            return fork(node);
        }
        let (first, rest) = split_first(node);
        fork(balanced(first, self, rest))
    }

    /// Notes the location of the cell on top, if there is one. An `Err` says that memory ran out.
    pub(crate) fn note_top(&self, numbers: &mut Vec<u64>) -> Result<(), AllocError>
        ensures { OnOk result
            (numbers.new.items ≡ numbers.old.items ++ places (tops self.now)) }
    {
        let Tree::Fork(_, node) = self else {
            return Ok(());
        };
        numbers.push(node.entry.at)?;
        Ok(())
    }

    /// Notes the locations of the cells, in order. An `Err` says that memory ran out.
    pub(crate) fn note(&self, numbers: &mut Vec<u64>) -> Result<(), AllocError>
        ensures { OnOk result
            (numbers.new.items ≡ numbers.old.items ++ places (entries_of self.now)) }
    {
        let Tree::Fork(_, node) = self else {
            return Ok(());
        };
        node.below.note(numbers)?;
        numbers.push(node.entry.at)?;
        node.above.note(numbers)
    }
}

/// The cell of a node.
pub(crate) fn into_cell(node: Box<Node>) -> Cell
    ensures { result ≡ node.value.entry.cell }
{
    Box::into_inner(node).entry.cell
}

/// The cells below a node's cell, that cell, and the cells above it.
pub(crate) fn opened(mut node: Box<Node>) -> (Tree, Box<Node>, Tree)
    ensures below { result.0 ≡ node.value.below }
    ensures above { result.2 ≡ node.value.above }
    ensures entry { result.1.value.entry ≡ node.value.entry }
    ensures entries { entries_in node.value
        ≡ entries_of result.0 ++ result.1.value.entry ∷ entries_of result.2 }
{
    let below = replace(&mut node.below, Tree::Empty);
    let above = replace(&mut node.above, Tree::Empty);
    (below, node, above)
}

/// A tree of a node's cells.
fn fork(node: Box<Node>) -> Tree
    ensures { entries_of result ≡ entries_in node.value }
{
    let height = node.below.height().max(node.above.height());
    Tree::Fork(height.saturating_add(1), node)
}

/// A node's cell with other cells below it and above it, where no height is to be mended.
fn flat(mut node: Box<Node>, below: Tree, above: Tree) -> Box<Node>
    ensures { entries_in result.value ≡ entries_of below ++ node.value.entry ∷ entries_of above }
{
    node.below = below;
    node.above = above;
    node
}

/// A node's cell with other cells below it and above it, of heights that differ by two at most.
fn balanced(node: Box<Node>, below: Tree, above: Tree) -> Box<Node>
    ensures { entries_in result.value ≡ entries_of below ++ node.value.entry ∷ entries_of above }
{
    let (left, right) = (below.height(), above.height());
    if left > right.saturating_add(1) {
        return leaning_left(node, below, above);
    }
    if right > left.saturating_add(1) {
        return leaning_right(node, below, above);
    }
    flat(node, below, above)
}

/// The same where the cells below are two levels higher.
fn leaning_left(node: Box<Node>, below: Tree, above: Tree) -> Box<Node>
    ensures { entries_in result.value ≡ entries_of below ++ node.value.entry ∷ entries_of above }
{
    let Tree::Fork(_, top) = below else {
        return flat(node, Tree::Empty, above);
    };
    let (outer, top, inner) = opened(top);
    if outer.height() < inner.height() {
        return raised_between(top, outer, inner, node, above);
    }
    flat(top, outer, fork(flat(node, inner, above)))
}

/// The same where the cells above are two levels higher.
fn leaning_right(node: Box<Node>, below: Tree, above: Tree) -> Box<Node>
    ensures { entries_in result.value ≡ entries_of below ++ node.value.entry ∷ entries_of above }
{
    let Tree::Fork(_, top) = above else {
        return flat(node, below, Tree::Empty);
    };
    let (inner, top, outer) = opened(top);
    if outer.height() < inner.height() {
        return raised_between(node, below, inner, top, outer);
    }
    flat(top, fork(flat(node, below, inner)), outer)
}

/// The cells below a node's cell, that cell, those between it and another one, that one, and those
/// above it: with the root of those between on top.
fn raised_between(
    low: Box<Node>,
    below: Tree,
    between: Tree,
    high: Box<Node>,
    above: Tree,
) -> Box<Node>
    ensures { entries_in result.value ≡ entries_of below ++ low.value.entry
        ∷ (entries_of between ++ high.value.entry ∷ entries_of above) }
{
    let Tree::Fork(_, top) = between else {
        return flat(low, below, fork(flat(high, Tree::Empty, above)));
    };
    let (left, top, right) = opened(top);
    let below = fork(flat(low, below, left));
    flat(top, below, fork(flat(high, right, above)))
}

/// The first cell of a node's, and the others.
fn split_first(node: Box<Node>) -> (Box<Node>, Tree)
    ensures { entries_in node.value ≡ result.0.value.entry ∷ entries_of result.1 }
{
    let (below, node, above) = opened(node);
    let Tree::Fork(_, below) = below else {
        return (node, above);
    };
    let (first, below) = split_first(below);
    (first, fork(balanced(node, below, above)))
}
