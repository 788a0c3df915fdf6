//! Laws of heaps and assertions. Each function does nothing; its contract is the law.

ghost use Rattle.sf_core.specs.Checked.Assertions.Laws.{UnionIsCommutative, UnionIsAssociative, UnionCancels, PointsToHasExactlyOneCell, SegmentHasNoCellAtItsEnd, SegmentsCompose, DoublyLinkedSegmentHasNoCellAtItsEnd, DoublyLinkedSegmentMayBeEmpty, DoublyLinkedSegmentsCompose, DoublyLinkedSegmentEndsInItsLastCell, DoublyLinkedSegmentGrowsAtItsEnd, TreeIsFiniteAndAcyclic, SegmentsAndTreesArePrecise, SatSpeaksOfOccurringVariables, DeterminedHasOneFootprint, OrderedConjunctsArePrecise, EachExistentialBecomesKnown, AnyReadyConjunctMayComeFirst, TreeSharesNothing, SatisfyingHeapsAreFinite};

/// The two parts of a heap may be exchanged.
#[tactic(auto, using(crate::proofs::Assertions::Laws::union_of_heaps_is_commutative))]
pub fn union_of_heaps_is_commutative()
    ensures { UnionIsCommutative }
{}

/// Of three parts of a heap the first two may be put together, or the last two.
#[tactic(auto, using(crate::proofs::Assertions::Laws::union_of_heaps_is_associative))]
pub fn union_of_heaps_is_associative()
    ensures { UnionIsAssociative }
{}

/// A heap and one of its two parts determine the other.
#[tactic(auto, using(crate::proofs::Assertions::Laws::union_of_heaps_cancels))]
pub fn union_of_heaps_cancels()
    ensures { UnionCancels }
{}

/// A points-to holds of heaps with one cell, at its root.
#[tactic(auto, using(crate::proofs::Assertions::Laws::points_to_has_exactly_one_cell))]
pub fn points_to_has_exactly_one_cell()
    ensures { PointsToHasExactlyOneCell }
{}

/// A list segment never has a cell at its end.
#[tactic(auto, using(crate::proofs::Assertions::Laws::segment_has_no_cell_at_its_end))]
pub fn segment_has_no_cell_at_its_end()
    ensures { SegmentHasNoCellAtItsEnd }
{}

/// Two segments are one, where the first has no cell at the end of the second.
#[tactic(auto, using(crate::proofs::Assertions::Laws::segments_compose))]
pub fn segments_compose()
    ensures { SegmentsCompose }
{}

/// A doubly linked segment never has a cell at its end.
#[tactic(auto, using(crate::proofs::Assertions::Laws::doubly_linked_segment_has_no_cell_at_its_end))]
pub fn doubly_linked_segment_has_no_cell_at_its_end()
    ensures { DoublyLinkedSegmentHasNoCellAtItsEnd }
{}

/// A doubly linked segment that ends where it begins has no cell, and is one only where its last cell
/// is what stands before it.
#[tactic(auto, using(crate::proofs::Assertions::Laws::doubly_linked_segment_may_be_empty))]
pub fn doubly_linked_segment_may_be_empty()
    ensures { DoublyLinkedSegmentMayBeEmpty }
{}

/// Two doubly linked segments are one, where the first has no cell at the end of the second.
#[tactic(auto, using(crate::proofs::Assertions::Laws::doubly_linked_segments_compose))]
pub fn doubly_linked_segments_compose()
    ensures { DoublyLinkedSegmentsCompose }
{}

/// A doubly linked segment that has a cell is one up to its last cell, and that cell.
#[tactic(auto, using(crate::proofs::Assertions::Laws::doubly_linked_segment_ends_in_its_last_cell))]
pub fn doubly_linked_segment_ends_in_its_last_cell()
    ensures { DoublyLinkedSegmentEndsInItsLastCell }
{}

/// A doubly linked segment and one more cell at its end are one.
#[tactic(auto, using(crate::proofs::Assertions::Laws::doubly_linked_segment_grows_at_its_end))]
pub fn doubly_linked_segment_grows_at_its_end()
    ensures { DoublyLinkedSegmentGrowsAtItsEnd }
{}

/// A tree's heap is finite and has no cycle.
#[tactic(auto, using(crate::proofs::Assertions::Laws::tree_is_finite_and_acyclic))]
pub fn tree_is_finite_and_acyclic()
    ensures { TreeIsFiniteAndAcyclic }
{}

/// In a tree's heap no location is pointed to twice.
#[tactic(auto, using(crate::proofs::Assertions::Laws::tree_shares_nothing))]
pub fn tree_shares_nothing()
    ensures { TreeSharesNothing }
{}

/// A heap that satisfies an assertion is finite.
#[tactic(auto, using(crate::proofs::Assertions::Laws::satisfying_heaps_are_finite))]
pub fn satisfying_heaps_are_finite()
    ensures { SatisfyingHeapsAreFinite }
{}

/// Of each heap at most one part is a given segment, doubly linked or not, or a given tree.
#[tactic(auto, using(crate::proofs::Assertions::Laws::segments_and_trees_are_precise))]
pub fn segments_and_trees_are_precise()
    ensures { SegmentsAndTreesArePrecise }
{}

/// Whether an assertion holds rests on the variables that occur in it alone.
#[tactic(auto, using(crate::proofs::Assertions::Laws::sat_speaks_of_occurring_variables))]
pub fn sat_speaks_of_occurring_variables()
    ensures { SatSpeaksOfOccurringVariables }
{}

/// A determined assertion has at most one footprint.
#[tactic(auto, using(crate::proofs::Assertions::Laws::determined_has_one_footprint))]
pub fn determined_has_one_footprint()
    ensures { DeterminedHasOneFootprint }
{}

/// Conjuncts that have an order hold on at most one part of a heap, and each existential that
/// occurs in them has one value there; inside branches too.
#[tactic(auto, using(crate::proofs::Assertions::Laws::ordered_conjuncts_are_precise))]
pub fn ordered_conjuncts_are_precise()
    ensures { OrderedConjunctsArePrecise }
{}

/// Each existential of a determined assertion becomes known.
#[tactic(auto, using(crate::proofs::Assertions::Laws::each_existential_becomes_known))]
pub fn each_existential_becomes_known()
    ensures { EachExistentialBecomesKnown }
{}

/// Which of the conjuncts that are ready is taken first does not matter.
#[tactic(auto, using(crate::proofs::Assertions::Laws::any_ready_conjunct_may_come_first))]
pub fn any_ready_conjunct_may_come_first()
    ensures { AnyReadyConjunctMayComeFirst }
{}
