//! What moves cells between trees, and what compares two.

ghost use Rattle.std.specs.Prelude.{◌≡◌, ◌↔◌, None, length, All, IsTrue, is_some};
ghost use Rattle.std.specs.FinMap as map;
ghost use Rattle.std.specs.List.Sorted.{IsStrictlyIncreasing};
ghost use Rattle.sf_heap.specs.Checked.Entries.{Rises, found, map_of};
ghost use Rattle.sf_heap.specs.Checked.Moves.{AreApart, AreClear, IsMerge, IsMoved, IsParting};
ghost use Rattle.sf_heap.specs.Checked.Trees.{entries_of, kept, tops, AreKept};

use crate::heap::Heap;
use crate::tree::{Tree, opened};

/// The cell on top of a tree that is in hand, and the others, as one tree.
pub(crate) fn whole(hand: Tree, mut cells: Tree) -> Tree
    requires { AreKept hand cells }
    ensures rises { Rises (entries_of result) }
    ensures same { map_of (entries_of result) ≡ map_of (kept hand cells) }
    ensures size { length (entries_of result) ≡ length (kept hand cells) }
{
    if let Tree::Fork(_, node) = hand {
        cells.add(node);
    }
    cells
}

/// The same cells, of which the one at a location is in hand, or none where there is none.
pub(crate) fn brought(hand: Tree, cells: Tree, at: u64) -> (Tree, Tree)
    requires { AreKept hand cells }
    ensures are_kept { AreKept result.0 result.1 }
    ensures same { map_of (kept result.0 result.1) ≡ map_of (kept hand cells) }
    ensures size { length (kept result.0 result.1) ≡ length (kept hand cells) }
    ensures in_hand { found at (tops result.0) ≡ found at (kept hand cells) }
{
    if hand.top_at(at).is_some() {
        return (hand, cells);
    }
    let mut cells = whole(hand, cells);
    let (taken, _) = cells.take_out(at);
    match taken {
        Some(node) => (Tree::Fork(1, node), cells),
        None => (Tree::Empty, cells),
    }
}

/// The cells of two trees. It takes time in those of the first where that is poured into the second,
/// and else in those of the second.
pub(crate) fn united(one: Tree, other: Tree, pours_first: bool) -> Tree
    requires one_rises { Rises (entries_of one) }
    requires other_rises { Rises (entries_of other) }
    requires apart { AreApart (entries_of one) (entries_of other) }
    ensures { IsMerge (entries_of one) (entries_of other) (entries_of result) }
{
    if pours_first {
        return poured(one, other);
    }
    poured(other, one)
}

/// The cells of two trees, those of the first poured into the second.
fn poured(from: Tree, into: Tree) -> Tree
    requires from_rises { Rises (entries_of from) }
    requires into_rises { Rises (entries_of into) }
    requires apart { AreApart (entries_of into) (entries_of from) }
    ensures { IsMerge (entries_of into) (entries_of from) (entries_of result) }
{
    let Tree::Fork(_, node) = from else {
        return into;
    };
    let (below, node, above) = opened(node);
    let mut into = poured(below, into);
    into.add(node);
    poured(above, into)
}

/// The cells at those locations and the others.
pub(crate) fn parted(cells: Tree, at: &[u64]) -> (Tree, Tree)
    requires rises { Rises (entries_of cells) }
    requires at_rises { IsStrictlyIncreasing at.now }
    requires there { All (λ l. IsTrue (is_some (found l (entries_of cells)))) at.now }
    ensures { IsParting (entries_of cells) at.now (entries_of result.0) (entries_of result.1) }
{
    let mut part = Tree::Empty;
    let mut rest = cells;
    for l in at {
        let (more, less) = moved(part, rest, *l);
        part = more;
        rest = less;
    }
    (part, rest)
}

/// The same once the cell at one location more is moved from the second of two trees to the first.
fn moved(mut part: Tree, mut rest: Tree, at: u64) -> (Tree, Tree)
    requires part_rises { Rises (entries_of part) }
    requires rest_rises { Rises (entries_of rest) }
    requires absent { found at (entries_of part) ≡ None }
    requires there { IsTrue (is_some (found at (entries_of rest))) }
    ensures { IsMoved (entries_of part) (entries_of rest) at
        (entries_of result.0) (entries_of result.1) }
{
    let (taken, _) = rest.take_out(at);
    if let Some(node) = taken {
        part.add(node);
    }
    (part, rest)
}

/// Whether the cell on top of a tree isn't at a location of a heap's.
pub(crate) fn top_misses(hand: &Tree, heap: &Heap) -> bool
    ensures { IsTrue result ↔ AreClear (map.get heap.now) (tops hand.now) }
{
    let Tree::Fork(_, node) = hand else {
        return true;
    };
    heap.get(node.entry.at).is_none()
}

/// Whether no cell of a tree is at a location of a heap's.
pub(crate) fn misses(cells: &Tree, heap: &Heap) -> bool
    ensures { IsTrue result ↔ AreClear (map.get heap.now) (entries_of cells.now) }
{
    let Tree::Fork(_, node) = cells else {
        return true;
    };
    if !misses(&node.below, heap) {
        return false;
    }
    if heap.get(node.entry.at).is_some() {
        return false;
    }
    misses(&node.above, heap)
}
