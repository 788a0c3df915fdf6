//! What each row of subtraction keeps: wherever the state holds, a part of the heap is handed over,
//! the state that is left holds on the rest, and whatever heap is still wanted, together with the
//! part it is one that was wanted before. From the first row to the last, what was handed over
//! satisfies the assertion. Each function is a law: calling it gives its fact to the caller's
//! proof, and does nothing.

ghost use Rattle.sf_consume.specs.Checked.Laws.{ApartKeepsWants, AssertionIsShown, AssertionIsWanted, BindKeepsWants, BranchKeepsWants, CellKeepsWants, EmptyKeepsWants, ExactKeepsWants, HeadKeepsWants, JoinKeepsWants, NodeKeepsWants, NothingIsWanted, RestatedTermsAreWanted, SameKeepsWants, SubtractionKeepsWants, SubtractionsChain};

/// bind: the existential has the value of the other side.
#[tactic(auto, using(crate::proofs::PureLaws::bind_keeps_wants))]
pub fn bind_keeps_wants()
    ensures { BindKeepsWants }
{}

/// same: a term has its own value.
#[tactic(auto, using(crate::proofs::PureLaws::same_keeps_wants))]
pub fn same_keeps_wants()
    ensures { SameKeepsWants }
{}

/// apart: terms that surely differ have different values.
#[tactic(auto, using(crate::proofs::PureLaws::apart_keeps_wants))]
pub fn apart_keeps_wants()
    ensures { ApartKeepsWants }
{}

/// cell: that cell is the one that is wanted, with the values of the fields that were bound and
/// came up.
#[tactic(auto, using(crate::proofs::CellLaws::cell_keeps_wants))]
pub fn cell_keeps_wants()
    ensures { CellKeepsWants }
{}

/// empty: a segment from a term to itself, and the tree of nil, need no heap; a doubly linked segment
/// needs none where its last cell is what stands before it, too.
#[tactic(auto, using(crate::proofs::PureLaws::empty_keeps_wants))]
pub fn empty_keeps_wants()
    ensures { EmptyKeepsWants }
{}

/// exact: that segment or tree is the one that is wanted.
#[tactic(auto, using(crate::proofs::PartLaws::exact_keeps_wants))]
pub fn exact_keeps_wants()
    ensures { ExactKeepsWants }
{}

/// head: a cell and a segment from its link on are a segment; a doubly linked one where the cell leads
/// back to what stands before it, and stands before the rest.
#[tactic(auto, using(crate::proofs::SegmentLaws::head_keeps_wants))]
pub fn head_keeps_wants()
    ensures { HeadKeepsWants }
{}

/// join: a segment and one from its end on are a segment, where the end of both isn't inside the
/// first; of doubly linked ones the last cell of the first stands before the second.
#[tactic(auto, using(crate::proofs::SegmentLaws::join_keeps_wants))]
pub fn join_keeps_wants()
    ensures { JoinKeepsWants }
{}

/// node: a cell and the trees of its links are a tree.
#[tactic(auto, using(crate::proofs::CellLaws::node_keeps_wants))]
pub fn node_keeps_wants()
    ensures { NodeKeepsWants }
{}

/// A choice whose test is decided: its branch for that is wanted in its place.
#[tactic(auto, using(crate::proofs::Branches::branch_keeps_wants))]
pub fn branch_keeps_wants()
    ensures { BranchKeepsWants }
{}

/// Every tag of subtraction keeps what is wanted.
#[tactic(auto, using(crate::proofs::Chains::subtraction_keeps_wants))]
pub fn subtraction_keeps_wants()
    ensures { SubtractionKeepsWants }
{}

/// Terms of the same values in place of those that occur: the same heaps are wanted.
#[tactic(auto, using(crate::proofs::Restating::restated_terms_are_wanted))]
pub fn restated_terms_are_wanted()
    ensures { RestatedTermsAreWanted }
{}

/// The first row: where an assertion is to be shown, the heaps that are wanted are those that
/// satisfy it.
#[tactic(auto, using(crate::proofs::Chains::assertion_is_wanted))]
pub fn assertion_is_wanted()
    ensures { AssertionIsWanted }
{}

/// One row after another: what two subtractions hand over is handed over.
#[tactic(auto, using(crate::proofs::Chains::subtractions_chain))]
pub fn subtractions_chain()
    ensures { SubtractionsChain }
{}

/// The last row: where no conjunct is left, just the empty heap is wanted.
#[tactic(auto, using(crate::proofs::Chains::nothing_is_wanted))]
pub fn nothing_is_wanted()
    ensures { NothingIsWanted }
{}

/// From the first row to the last: where no conjunct of an assertion is left, the part of the heap
/// that was handed over satisfies it, with the terms that its existentials were bound to.
#[tactic(auto, using(crate::proofs::Chains::assertion_is_shown))]
pub fn assertion_is_shown()
    ensures { AssertionIsShown }
{}
