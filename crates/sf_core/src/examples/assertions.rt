//! Examples of small heaps and assertions. Each function does nothing; its contract is the result.

ghost use Rattle.sf_core.specs.Checked.Assertions.Examples.{TwoCellsAreACellAndAList, NoLessIsACellAndAList, ChoiceGoesByItsTest, ExistentialIsTheFieldsValue, OneNodeIsATree, SegmentMayEndAtAnAbsentCell, CircleIsNoSegment, OrderIsFound, TreeOfAnUnknownIsUndetermined, ExistentialIsFixed, ExistentialDecidesAChoice, ExistentialOfABranchIsMadeThere, ChoiceWaitsForAnExistential, BranchMakesItsExistentialKnown};

/// `x|->tl:y * ls(y,nil)` holds of two cells in a row.
#[tactic(auto, using(crate::proofs::Assertions::Examples::two_cells_are_a_cell_and_a_list))]
pub fn two_cells_are_a_cell_and_a_list()
    ensures { TwoCellsAreACellAndAList }
{}

/// It holds of no smaller part of them.
#[tactic(auto, using(crate::proofs::Assertions::Examples::no_less_is_a_cell_and_a_list))]
pub fn no_less_is_a_cell_and_a_list()
    ensures { NoLessIsACellAndAList }
{}

/// `if x == y then emp else x|->` chooses by its test.
#[tactic(auto, using(crate::proofs::Assertions::Examples::choice_goes_by_its_test))]
pub fn choice_goes_by_its_test()
    ensures { ChoiceGoesByItsTest }
{}

/// In `x|->tl:_u * _u == y` the existential takes the field's value.
#[tactic(auto, using(crate::proofs::Assertions::Examples::existential_is_the_fields_value))]
pub fn existential_is_the_fields_value()
    ensures { ExistentialIsTheFieldsValue }
{}

/// In `x|->tl:_u * if _u == nil then emp else y|->` the existential decides the choice.
#[tactic(auto, using(crate::proofs::Assertions::Examples::existential_decides_a_choice))]
pub fn existential_decides_a_choice()
    ensures { ExistentialDecidesAChoice }
{}

/// In `if x == nil then emp else (x|->tl:_u * _u|->)` the existential has a value in its branch
/// alone.
#[tactic(auto, using(crate::proofs::Assertions::Examples::existential_of_a_branch_is_made_there))]
pub fn existential_of_a_branch_is_made_there()
    ensures { ExistentialOfABranchIsMadeThere }
{}

/// A node whose two fields are nil is a tree.
#[tactic(auto, using(crate::proofs::Assertions::Examples::one_node_is_a_tree))]
pub fn one_node_is_a_tree()
    ensures { OneNodeIsATree }
{}

/// A segment may end at a location that has no cell.
#[tactic(auto, using(crate::proofs::Assertions::Examples::segment_may_end_at_an_absent_cell))]
pub fn segment_may_end_at_an_absent_cell()
    ensures { SegmentMayEndAtAnAbsentCell }
{}

/// A cell that leads to itself is no segment.
#[tactic(auto, using(crate::proofs::Assertions::Examples::circle_is_no_segment))]
pub fn circle_is_no_segment()
    ensures { CircleIsNoSegment }
{}

/// `ls(_u,nil) * x|->tl:_u` is determined.
#[tactic(auto, using(crate::proofs::Assertions::Examples::order_is_found))]
pub fn order_is_found()
    ensures { OrderIsFound }
{}

/// `tree(_u)` is not determined.
#[tactic(auto, using(crate::proofs::Assertions::Examples::tree_of_an_unknown_is_undetermined))]
pub fn tree_of_an_unknown_is_undetermined()
    ensures { TreeOfAnUnknownIsUndetermined }
{}

/// `(if y == nil then emp else ls(_u,nil)) * x|->tl:_u` is determined: the choice comes second.
#[tactic(auto, using(crate::proofs::Assertions::Examples::choice_waits_for_an_existential))]
pub fn choice_waits_for_an_existential()
    ensures { ChoiceWaitsForAnExistential }
{}

/// `if x == nil then emp else (ls(_u,nil) * x|->tl:_u)` is determined.
#[tactic(auto, using(crate::proofs::Assertions::Examples::branch_makes_its_existential_known))]
pub fn branch_makes_its_existential_known()
    ensures { BranchMakesItsExistentialKnown }
{}

/// `x|->tl:_u` holds on a cell with the field's value for `_u`, and with no other.
#[tactic(auto, using(crate::proofs::Assertions::Examples::existential_is_fixed))]
pub fn existential_is_fixed()
    ensures { ExistentialIsFixed }
{}
