//! Examples of doubly linked segments. Each function does nothing; its contract is the result.

ghost use Rattle.sf_core.specs.Checked.Assertions.DoubleExamples.{LastCellIsTheSecond, FirstCellLeadsBack, OneWayIsNotBothWays, EachCellIsOne, SecondIsAfterTheFirst};

/// Of two cells that lead to each other `dll(x,nil,y,nil)` holds where `y` is the second, and for no
/// other `y`.
#[tactic(auto, using(crate::proofs::Assertions::DoubleExamples::last_cell_is_the_second))]
pub fn last_cell_is_the_second()
    ensures { LastCellIsTheSecond }
{}

/// `dll(x,y,_u,nil)` holds of them where `y` is what the first leads back to, and for no other `y`.
#[tactic(auto, using(crate::proofs::Assertions::DoubleExamples::first_cell_leads_back))]
pub fn first_cell_leads_back()
    ensures { FirstCellLeadsBack }
{}

/// A list of two cells that doesn't lead back is no doubly linked segment.
#[tactic(auto, using(crate::proofs::Assertions::DoubleExamples::one_way_is_not_both_ways))]
pub fn one_way_is_not_both_ways()
    ensures { OneWayIsNotBothWays }
{}

/// `dll(x,nil,x,y) * dll(y,x,y,nil)` holds of two cells that lead to each other.
#[tactic(auto, using(crate::proofs::Assertions::DoubleExamples::each_cell_is_one))]
pub fn each_cell_is_one()
    ensures { EachCellIsOne }
{}

/// `dll(x,nil,x,y) * dll(y,nil,y,nil)` doesn't.
#[tactic(auto, using(crate::proofs::Assertions::DoubleExamples::second_is_after_the_first))]
pub fn second_is_after_the_first()
    ensures { SecondIsAfterTheFirst }
{}
