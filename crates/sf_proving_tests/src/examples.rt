//! Examples of subtraction: conditions of rows, and why they are there. Each function does nothing;
//! its contract is the result.

ghost use Rattle.sf_proving_tests.specs.Checked.Subtraction.{EndMayBeInsideAJoinedList, FieldMayBeAnother, ListMayHaveACell, ListWithACellMayBeEmpty};

/// A segment begins a longer one only where the end of that one can't be inside the first.
#[tactic(auto, using(crate::proofs::WrongRows::end_may_be_inside))]
pub fn end_may_be_inside_a_joined_list()
    ensures { EndMayBeInsideAJoinedList }
{}

/// A cell begins a segment only where the ends of the segment differ.
#[tactic(auto, using(crate::proofs::WrongRows::list_may_be_empty))]
pub fn list_with_a_cell_may_be_empty()
    ensures { ListWithACellMayBeEmpty }
{}

/// A cell is the wanted one only where its fields are.
#[tactic(auto, using(crate::proofs::WrongRows::field_may_be_another))]
pub fn field_may_be_another()
    ensures { FieldMayBeAnother }
{}

/// A segment is empty only where its ends are one term.
#[tactic(auto, using(crate::proofs::WrongRows::list_may_have_a_cell))]
pub fn list_may_have_a_cell()
    ensures { ListMayHaveACell }
{}
