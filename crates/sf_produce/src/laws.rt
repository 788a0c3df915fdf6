//! What assuming a conjunct keeps. Each function is a law: calling it gives its fact to the
//! caller's proof, and does nothing.

ghost use Rattle.sf_produce.specs.Checked.Laws.{AddKeepsGoals};

/// Wherever a goal holds, it holds with its first conjunct assumed.
#[tactic(auto, using(crate::proofs::Assuming::add_keeps_goals))]
pub fn add_keeps_goals()
    ensures { AddKeepsGoals }
{}
