//! Laws of witnesses. Each function does nothing; its contract is the law.

ghost use Rattle.sf_witness.specs.Checked.Laws.{EachGoalHasAText, EachGoalHasOneText, WitnessesSatisfy};

use sf_foot::laws::footprint_is_decided;

/// The witness of a normal state satisfies what the state knows.
#[tactic(auto, using(crate::proofs::Satisfying::witnesses_satisfy))]
pub fn witnesses_satisfy()
    ensures { WitnessesSatisfy }
{}

/// Each goal has a text of its witness, or that there is none.
pub fn each_goal_has_a_text()
    ensures { EachGoalHasAText }
{
    footprint_is_decided();
}

/// It has one such text alone.
#[tactic(auto, using(crate::proofs::OneText::each_goal_has_one_text))]
pub fn each_goal_has_one_text()
    ensures { EachGoalHasOneText }
{}
