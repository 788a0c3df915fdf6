//! That the sets are the least ones, that each program has them, that what first breaks a condition
//! is unique, that what commands may change is what is assigned, and that such facts follow from
//! their truncations. Each function does nothing; its contract is the law.

ghost use Rattle.sf_calls.specs.Checked.Laws.{ChangesAreAssigned, ConditionsFromTruncation, FirstBreachIsBroken, FirstBreachIsUnique, FreeIsLeast, HeldResourcesAreThere, SetsFromTruncation, SetsExist, TakesIsLeast};

/// What procedures take is closed under its rules, and contained in whatever is.
#[tactic(auto, using(crate::proofs::Closing::takes_is_least))]
pub fn takes_is_least()
    ensures { TakesIsLeast }
{}

/// What is free in procedures is closed under its rules, and contained in whatever is.
#[tactic(auto, using(crate::proofs::Closing::free_is_least))]
pub fn free_is_least()
    ensures { FreeIsLeast }
{}

/// Each program that is in order has its sets.
#[tactic(auto, using(crate::proofs::Closing::sets_exist))]
pub fn sets_exist()
    ensures { SetsExist }
{}

/// A program has one first breach of the conditions on variables, or none.
#[tactic(auto, using(crate::proofs::Closing::first_breach_is_unique))]
pub fn first_breach_is_unique()
    ensures { FirstBreachIsUnique }
{}

/// The first breach of the conditions on variables is a breach, and there is none exactly where
/// nothing in the program breaks them.
#[tactic(auto, using(crate::proofs::Closing::first_breach_is_broken))]
pub fn first_breach_is_broken()
    ensures { FirstBreachIsBroken }
{}

/// That sets are a program's follows from its truncation.
#[tactic(auto, using(crate::proofs::Closing::sets_from_truncation))]
pub fn sets_from_truncation()
    ensures { SetsFromTruncation }
{}

/// That no condition on variables is broken follows from its truncation.
#[tactic(auto, using(crate::proofs::Closing::conditions_from_truncation))]
pub fn conditions_from_truncation()
    ensures { ConditionsFromTruncation }
{}

/// Of a program's sets, in one of its blocks, what the commands may change is what is assigned.
pub fn changes_are_assigned()
    ensures { ChangesAreAssigned }
{}

/// What a procedure of a program holds is one of the program's resources.
pub fn held_resources_are_there()
    ensures { HeldResourcesAreThere }
{}
