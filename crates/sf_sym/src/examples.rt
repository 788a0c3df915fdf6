//! Examples of small goals. Each function does nothing; its contract is the result.

ghost use Rattle.sf_sym.specs.Checked.Examples.{BoundExistentialIsItsTerm, NilIsNotTheGoals, TwoCellsAreTheGoals, UnboundExistentialIsAnything};

/// A cell and a list after it, still to be assumed, hold of two cells in a row.
#[tactic(auto, using(crate::proofs::SmallGoals::two_cells_are_the_goals))]
pub fn two_cells_are_the_goals()
    ensures { TwoCellsAreTheGoals }
{}

/// They hold of nothing where the first is to be at nil.
#[tactic(auto, using(crate::proofs::SmallGoals::nil_is_not_the_goals))]
pub fn nil_is_not_the_goals()
    ensures { NilIsNotTheGoals }
{}

/// An existential that has a term has that term's value.
#[tactic(auto, using(crate::proofs::SmallGoals::bound_existential_is_its_term))]
pub fn bound_existential_is_its_term()
    ensures { BoundExistentialIsItsTerm }
{}

/// An existential that has no term has any value.
#[tactic(auto, using(crate::proofs::SmallGoals::unbound_existential_is_anything))]
pub fn unbound_existential_is_anything()
    ensures { UnboundExistentialIsAnything }
{}
