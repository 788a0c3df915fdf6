//! That the table as rules and as a function say the same, what is in front of each of its rows,
//! what the rows of commands and of conjuncts do to what a goal stands for, and the shape that all
//! goals of a program have. Each function is a law: calling it gives its fact to the caller's proof,
//! and does nothing.

ghost use Rattle.sf_rules.specs.Checked.LawsOfSettings.{ArrangedHasSetting, SettingExists, SettingIsUnique};
ghost use Rattle.sf_rules.specs.Checked.LawsOfUpdates.{FieldsAreOneList, FieldsAreUpdated, VariablesAreOneList, VariablesAreUpdated};
ghost use Rattle.sf_rules.specs.Checked.LawsOfRows.{RowLaws};
ghost use Rattle.sf_rules.specs.Checked.LawsOfShape.{FirstGoalsAreShaped, FirstGoalsAreSmall, GoalsAreShaped, LawsBelow, RowsKeepShape};
ghost use Rattle.sf_rules.specs.Checked.RowCases.{RowsHaveCases};
ghost use Rattle.sf_rules.specs.Checked.LawsOfRules.{RowsAreRules, RulesAreRows};
ghost use Rattle.sf_rules.specs.Checked.LawsOfConjuncts.{AssumeKeepsGoals, AssumedBranchKeepsGoals, ShownBranchLeavesRest, SubtractionLeavesRest};
ghost use Rattle.sf_rules.specs.Checked.LawsOfCommands.{AssignFollowsEvent, DisposeFollowsEvent, ElseFollowsTest, LookFollowsEvent, MutateFollowsEvent, NewFollowsEvent, ThenFollowsTest};

use sf_calls::laws::{
    changes_are_assigned, first_breach_is_broken, held_resources_are_there, sets_exist,
    sets_from_truncation,
};
use sf_consume::laws::{branch_keeps_wants, subtraction_keeps_wants};
use sf_normal::laws::{
    absurd_keeps_goals, back_keeps_goals, drop_keeps_goals, force_keeps_goals, split_keeps_goals,
    unroll_keeps_goals,
};
use sf_precise::laws::{
    determined_has_order, never_taken_is_undetermined, order_keeps_form, ordering_exists,
    undetermined_has_place,
};
use sf_produce::laws::add_keeps_goals;

/// Each row of the table has something in front and leaves goals as one of its cases says.
#[tactic(auto, using(crate::proofs::RowInversion::rows_have_cases))]
pub fn rows_have_cases()
    ensures { RowsHaveCases }
{}

/// By each rule the table, as the function that the code computes, leaves the goals that the rule
/// says.
#[tactic(auto, using(crate::proofs::RuleLaws::rules_are_rows))]
pub fn rules_are_rows()
    ensures { RulesAreRows }
{}

/// What the function leaves of a goal is left by a rule.
#[tactic(auto, using(crate::proofs::RuleLaws::rows_are_rules))]
pub fn rows_are_rules()
    ensures { RowsAreRules }
{}

/// A variable that is set has its term from then on, one that is removed none, and all others keep
/// theirs.
#[tactic(auto, using(crate::proofs::Updates::variables_are_updated))]
pub fn variables_are_updated()
    ensures { VariablesAreUpdated }
{}

/// A field that is put has its term from then on, and all others keep theirs.
#[tactic(auto, using(crate::proofs::Updates::fields_are_updated))]
pub fn fields_are_updated()
    ensures { FieldsAreUpdated }
{}

/// Variables in order are known by the term of each.
#[tactic(auto, using(crate::proofs::Updates::variables_are_one_list))]
pub fn variables_are_one_list()
    ensures { VariablesAreOneList }
{}

/// So are the fields of a cell.
#[tactic(auto, using(crate::proofs::Updates::fields_are_one_list))]
pub fn fields_are_one_list()
    ensures { FieldsAreOneList }
{}

/// After an assignment the variable has the value of the expression.
#[tactic(auto, using(crate::proofs::CommandLaws::assign_follows_event))]
pub fn assign_follows_event()
    ensures { AssignFollowsEvent }
{}

/// A look-up finds its cell, and the variable has the value of the field.
#[tactic(auto, using(crate::proofs::CommandLaws::look_follows_event))]
pub fn look_follows_event()
    ensures { LookFollowsEvent }
{}

/// A mutation finds its cell, and the field has the value of the expression.
#[tactic(auto, using(crate::proofs::CommandLaws::mutate_follows_event))]
pub fn mutate_follows_event()
    ensures { MutateFollowsEvent }
{}

/// A new cell may be at any location where there is none, with any values in its fields.
#[tactic(auto, using(crate::proofs::CommandLaws::new_follows_event))]
pub fn new_follows_event()
    ensures { NewFollowsEvent }
{}

/// A disposal finds its cell, which goes.
#[tactic(auto, using(crate::proofs::CommandLaws::dispose_follows_event))]
pub fn dispose_follows_event()
    ensures { DisposeFollowsEvent }
{}

/// Where a choice goes its first way, its test is true.
#[tactic(auto, using(crate::proofs::BranchLaws::then_follows_test))]
pub fn then_follows_test()
    ensures { ThenFollowsTest }
{}

/// Where it goes its second way, its test is false.
#[tactic(auto, using(crate::proofs::BranchLaws::else_follows_test))]
pub fn else_follows_test()
    ensures { ElseFollowsTest }
{}

/// Wherever a goal holds, it holds with its first conjunct assumed.
#[tactic(auto, using(crate::proofs::ConjunctLaws::assume_keeps_goals))]
pub fn assume_keeps_goals()
    ensures { AssumeKeepsGoals }
{
    add_keeps_goals();
}

/// Wherever a goal holds with a choice to assume first, it holds with the branch in its place that
/// its test decides.
#[tactic(auto, using(crate::proofs::ConjunctLaws::assumed_branch_keeps_goals))]
pub fn assumed_branch_keeps_goals()
    ensures { AssumedBranchKeepsGoals }
{}

/// What a row of subtraction hands over is what it takes off what is wanted.
#[tactic(auto, using(crate::proofs::ConjunctLaws::subtraction_leaves_rest))]
pub fn subtraction_leaves_rest()
    ensures { SubtractionLeavesRest }
{
    subtraction_keeps_wants();
}

/// Where a choice is to be shown first, the branch that its test decides is wanted in its place.
#[tactic(auto, using(crate::proofs::ConjunctLaws::shown_branch_leaves_rest))]
pub fn shown_branch_leaves_rest()
    ensures { ShownBranchLeavesRest }
{
    branch_keeps_wants();
}

/// A program has one setting at most.
#[tactic(auto, using(crate::proofs::Settings::setting_is_unique))]
pub fn setting_is_unique()
    ensures { SettingIsUnique }
{
    undetermined_has_place();
    never_taken_is_undetermined();
    determined_has_order();
}

/// A program that is in order has a setting.
#[tactic(auto, using(crate::proofs::Settings::setting_exists))]
pub fn setting_exists()
    ensures { SettingExists }
{
    sets_exist();
    ordering_exists();
}

/// What the code has arranged is a setting of its program.
#[tactic(auto, using(crate::proofs::Settings::arranged_has_setting))]
pub fn arranged_has_setting()
    ensures { ArrangedHasSetting }
{
    sets_from_truncation();
}

/// What the shape of goals rests on in the crates below.
fn laws_below()
    ensures { LawsBelow }
{
    changes_are_assigned();
    first_breach_is_broken();
    held_resources_are_there();
    undetermined_has_place();
    never_taken_is_undetermined();
    determined_has_order();
    order_keeps_form();
}

/// The first goal of each procedure of a program is shaped: it speaks of symbols below its next one
/// only, its lists are in order, its conjuncts are formed, what it has to do has the form that rows
/// make, up to its end, and its state and what it has to do fit the program.
pub fn first_goals_are_shaped()
    ensures { FirstGoalsAreShaped }
{
    laws_below();
}

/// It has few symbols, and no atom has taken a number.
pub fn first_goals_are_small()
    ensures { FirstGoalsAreSmall }
{
    held_resources_are_there();
}

/// Each row has one of the cases, and keeps or does what its law says: all that is said of rows
/// rests on these.
pub fn rows_have_laws()
    ensures { RowLaws }
{
    rows_have_cases();
    absurd_keeps_goals();
    drop_keeps_goals();
    force_keeps_goals();
    split_keeps_goals();
    unroll_keeps_goals();
    back_keeps_goals();
    assign_follows_event();
    look_follows_event();
    mutate_follows_event();
    new_follows_event();
    dispose_follows_event();
    then_follows_test();
    else_follows_test();
    assume_keeps_goals();
    assumed_branch_keeps_goals();
    subtraction_leaves_rest();
    shown_branch_leaves_rest();
}

/// Every row leaves shaped goals of a shaped goal, with fewer than `TOO_MANY` symbols and atoms
/// more.
pub fn rows_keep_shape()
    ensures { RowsKeepShape }
{
    laws_below();
    rows_have_laws();
}

/// So each goal of a program's procedure is shaped, and after so many tags it has fewer than
/// `TOO_MANY` symbols and atoms more for each than the first goal.
pub fn goals_are_shaped()
    ensures { GoalsAreShaped }
{
    first_goals_are_shaped();
    rows_keep_shape();
}
