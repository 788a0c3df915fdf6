//! Rows of what a state tells alone, whatever is still to do: absurd, drop, force, split, unroll,
//! and unroll back.

ghost use Rattle.std.specs.Prelude.{◌≡◌, ◌∷◌, [], IfOk, IsTrue, None, Some, cond};
ghost use Rattle.std.specs.Option.{option_map};
ghost use Rattle.sf_normal.specs.Knowledge.{absurd_row, back_row, drop_row, force_row, split_row, unroll_row};
ghost use Rattle.sf_rules.specs.Checked.Children.{children_of};
ghost use Rattle.sf_rules.specs.Rules.{has_numbers};
ghost use Rattle.sf_sym.specs.Goal.{goal_of};

use crate::children::Children;
use crate::left::Left;
use sf_normal::{absurd, drop, force, split, unroll, unroll_back};
use sf_sym::{Goal, Term};
use std::alloc::Global;

/// absurd: nothing is left of a goal whose state is so.
#[inline(never)]
pub(crate) fn absurd_row<'a>(goal: Goal<'a>) -> Left<'a>
    ensures { IfOk result (λ left.
        option_map children_of left ≡ absurd_row (goal_of goal.entry)) }
{
    Ok(closed(absurd(goal)))
}

/// drop: an empty segment or tree goes.
#[inline(never)]
pub(crate) fn drop_row<'a>(goal: Goal<'a>, a: u32) -> Left<'a>
    ensures { IfOk result (λ left.
        option_map children_of left ≡ drop_row (goal_of goal.entry) a) }
{
    Ok(one(drop(goal, a)))
}

/// force: a segment or tree that can only be empty is so.
#[inline(never)]
pub(crate) fn force_row<'a>(goal: Goal<'a>, a: u32) -> Left<'a>
    ensures { IfOk result (λ left.
        option_map children_of left ≡ force_row (goal_of goal.entry) a) }
{
    Ok(one(force(goal, a)?))
}

/// split: first two terms are the same, second they differ.
#[inline(never)]
pub(crate) fn split_row<'a>(alloc: Global, goal: Goal<'a>, t: Term, u: Term) -> Left<'a>
    ensures { IfOk result (λ left.
        option_map children_of left ≡ split_row (goal_of goal.entry) t u) }
{
    Ok(two(split(alloc, goal, t, u)?))
}

/// unroll: a segment or tree whose ends differ begins with a cell.
#[inline(never)]
pub(crate) fn unroll_row<'a>(alloc: Global, goal: Goal<'a>, a: u32) -> Left<'a>
    requires { IsTrue (has_numbers goal.state) }
    ensures { IfOk result (λ left.
        option_map children_of left ≡ unroll_row (goal_of goal.entry) a) }
{
    Ok(one(unroll(alloc, goal, a)?))
}

/// unroll back: a doubly linked segment whose ends differ ends with a cell.
#[inline(never)]
pub(crate) fn back_row<'a>(alloc: Global, goal: Goal<'a>, a: u32) -> Left<'a>
    requires { IsTrue (has_numbers goal.state) }
    ensures { IfOk result (λ left.
        option_map children_of left ≡ back_row (goal_of goal.entry) a) }
{
    Ok(one(unroll_back(alloc, goal, a)?))
}

/// No goal, where the goal is proved.
fn closed<'a>(proved: bool) -> Option<Children<'a>>
    ensures { option_map children_of result ≡ cond proved (Some []) None }
{
    if proved { Some(Children::None) } else { None }
}

/// One goal, if one is left.
fn one<'a>(left: Option<Goal<'a>>) -> Option<Children<'a>>
    ensures { option_map children_of result ≡ option_map (λ g. goal_of g ∷ []) left.entry }
{
    match left {
        Some(goal) => Some(Children::One(goal)),
        None => None,
    }
}

/// Two goals, if they are left.
fn two<'a>(left: Option<(Goal<'a>, Goal<'a>)>) -> Option<Children<'a>>
    ensures { option_map children_of result
        ≡ option_map (λ both. goal_of both.0 ∷ goal_of both.1 ∷ []) left.entry }
{
    match left {
        Some((first, second)) => Some(Children::Two(first, second)),
        None => None,
    }
}
