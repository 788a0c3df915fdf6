//! Laws of the search. Each function is a law: calling it gives its fact to the caller's proof, and
//! does nothing.

ghost use Rattle.sf_search.specs.Checked.ShapeLaws.{ArrangedIsSetUp, GoalsHaveShape};
ghost use Rattle.sf_search.specs.Checked.Laws.{ProgramsHaveVerdicts, SearchExists, SearchIsUnique, TakenTagsHaveRows, TakenTagsProve, VerdictsAreUnique};

use sf_calls::laws::conditions_from_truncation;
use sf_rules::laws::{arranged_has_setting, first_goals_are_small, goals_are_shaped};

/// The search from a goal comes to something, where each goal to which it may come is as goals of
/// programs are.
#[tactic(auto, using(crate::proofs::Ending::search_exists))]
pub fn search_exists()
    ensures { SearchExists }
{}

/// It comes to one thing alone.
#[tactic(auto, using(crate::proofs::Once::search_is_unique))]
pub fn search_is_unique()
    ensures { SearchIsUnique }
{}

/// Each program has a verdict.
pub fn programs_have_verdicts()
    ensures { ProgramsHaveVerdicts }
{
    goals_have_shape();
}

/// A program has at most one verdict.
#[tactic(auto, using(crate::proofs::Once::verdicts_are_unique))]
pub fn verdicts_are_unique()
    ensures { VerdictsAreUnique }
{}

/// The tags of a verdict that is a proof prove the program.
#[tactic(auto, using(crate::proofs::Trees::taken_tags_prove))]
pub fn taken_tags_prove()
    ensures { TakenTagsProve }
{}

/// The strategy takes no tag without a row, at goals as programs have them where numbers suffice.
#[tactic(auto, using(crate::proofs::Taken::taken_tags_have_rows))]
pub fn taken_tags_have_rows()
    ensures { TakenTagsHaveRows }
{}

/// Each goal of a program's procedure has the shape of a program's goals, and up to as many tags as
/// a procedure may have numbers suffice there: so the strategy takes no tag without a row. `search`
/// rests on it.
pub fn goals_have_shape()
    ensures { GoalsHaveShape }
{
    goals_are_shaped();
    first_goals_are_small();
}

/// What the code has arranged is such a program.
pub fn arranged_is_set_up()
    ensures { ArrangedIsSetUp }
{
    conditions_from_truncation();
    arranged_has_setting();
}
