//! Laws of reading a file. Each function does nothing; its contract is the law.

ghost use Rattle.sf_parse.specs.Checked.Laws.{AnswerIsUnique, EachFileIsOne, EachFileIsShallow};
ghost use Rattle.sf_parse.specs.Checked.Laws.{ShallowTreesAreWithin, TheVerdictIsExact};

/// What is predicted decides exactly as the grammar does: which tokens are a file, and where the
/// others go wrong.
#[tactic(auto, using(crate::proofs::Closing::the_verdict_is_exact))]
pub fn the_verdict_is_exact()
    ensures { TheVerdictIsExact }
{}

/// Tokens are at most one file: each `else` and each branch of an assertion has its place.
#[tactic(auto, using(crate::proofs::Closing::each_file_is_one))]
pub fn each_file_is_one()
    ensures { EachFileIsOne }
{}

/// Nothing in a file is nested deeper than the limit.
#[tactic(auto, using(crate::proofs::Closing::each_file_is_shallow))]
pub fn each_file_is_shallow()
    ensures { EachFileIsShallow }
{}

/// With no token free of the limit, a tree is within it exactly where its depth is.
#[tactic(auto, using(crate::proofs::Closing::shallow_trees_are_within))]
pub fn shallow_trees_are_within()
    ensures { ShallowTreesAreWithin }
{}

/// Tokens have one answer: they are a file, or they have a fault, and one alone.
pub fn answer_is_unique()
    ensures { AnswerIsUnique }
{}
