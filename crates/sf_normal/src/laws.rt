//! What the rules keep: of a goal that has the shape of a program's goals, wherever it holds, one of
//! the goals that are left holds on the same heaps, with the same values of the goal's symbols. Each function is a law: calling it gives its fact to the
//! caller's proof, and does nothing.

ghost use Rattle.sf_normal.specs.Checked.Laws.{AbsurdKeepsGoals, BackKeepsGoals, DropKeepsGoals, ForceKeepsGoals, SplitKeepsGoals, UnrollKeepsGoals};

/// A state that is absurd has no values and heaps, so nothing is left to prove.
#[tactic(auto, using(crate::proofs::AbsurdStates::absurd_keeps_goals))]
pub fn absurd_keeps_goals()
    ensures { AbsurdKeepsGoals }
{}

/// A segment from a term to itself and the tree of nil have no cell; of a doubly linked segment what
/// stands before it is then its last cell.
#[tactic(auto, using(crate::proofs::Dropping::drop_keeps_goals))]
pub fn drop_keeps_goals()
    ensures { DropKeepsGoals }
{}

/// A segment or tree whose root is a constant or a cell of another atom has no cell, so its ends
/// are the same; of a doubly linked segment that ends where it begins, what stands before it is its
/// last cell.
#[tactic(auto, using(crate::proofs::Forcing::force_keeps_goals))]
pub fn force_keeps_goals()
    ensures { ForceKeepsGoals }
{}

/// Two terms are the same, or they differ.
#[tactic(auto, using(crate::proofs::Splitting::split_keeps_goals))]
pub fn split_keeps_goals()
    ensures { SplitKeepsGoals }
{}

/// A segment or tree whose ends differ begins with a cell.
#[tactic(auto, using(crate::proofs::Unrolling::unroll_keeps_goals))]
pub fn unroll_keeps_goals()
    ensures { UnrollKeepsGoals }
{}

/// A doubly linked segment whose ends differ ends with a cell.
#[tactic(auto, using(crate::proofs::UnrollingBack::back_keeps_goals))]
pub fn back_keeps_goals()
    ensures { BackKeepsGoals }
{}
