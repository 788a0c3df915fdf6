//! Laws of elaboration. Each function does nothing; its contract is the law.

ghost use Rattle.sf_elab.specs.Checked.Laws.{EachFileIsOne, ElaboratedIsFormed, FirstIsFirst, LevelsAreScopes, NamesAreUnique, PrimedValuesAreSet};

/// What a file without faults elaborates to is a program in order.
pub fn elaborated_is_formed()
    ensures { ElaboratedIsFormed }
{}

/// The first of faults is one of them, and none of them is earlier.
pub fn first_fault_is_first()
    ensures { FirstIsFirst }
{}

/// A file is one program or has one first fault, and not both.
#[tactic(auto, using(crate::proofs::Files::FirstFaults::each_file_is_one))]
pub fn each_file_is_one()
    ensures { EachFileIsOne }
{}

/// A level has in reach what is around it and what occurs in it, under new numbers, which stay
/// taken after it.
#[tactic(auto, using(crate::proofs::Annotations::Scopes::levels_are_scopes))]
pub fn levels_are_scopes()
    ensures { LevelsAreScopes }
{}

/// In a program that a file is, a name stands for one thing of its kind.
#[tactic(auto, using(crate::proofs::Names::UniqueNames::names_are_unique))]
pub fn names_are_unique()
    ensures { NamesAreUnique }
{}

/// A value parameter is primed exactly where a command of the body sets a variable of its name or
/// passes one as a reference.
pub fn primed_values_are_set()
    ensures { PrimedValuesAreSet }
{}
