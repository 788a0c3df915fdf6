//! The rows of a state that can't be, and of atoms that can only be empty: absurd, drop, force.

ghost use Rattle.std.specs.Prelude.{◌≡◌, ◌∷◌, [], cond, IfOk, None, Some};
ghost use Rattle.std.specs.Option.{option_map};
ghost use Rattle.sf_normal.specs.Knowledge.{absurd_row, drop_row, force_row};
ghost use Rattle.sf_sym.specs.Goal.{goal_of};

use sf_sym::Goal;
use std::alloc::AllocError;

/// absurd: no store and heap have the state, so that nothing is left to prove. `false` exactly
/// where the rule doesn't apply. No memory is wanted.
pub fn absurd(goal: Goal<'_>) -> bool
    ensures { cond result (Some []) None ≡ absurd_row (goal_of goal.entry) }
{
    goal.state.is_absurd()
}

/// drop: the atom of that number, an empty segment or tree, goes. `None` exactly where it is no
/// such atom. No memory is wanted.
pub fn drop<'a>(mut goal: Goal<'a>, a: u32) -> Option<Goal<'a>>
    ensures { option_map (λ g. goal_of g ∷ []) result ≡ drop_row (goal_of goal.entry) a }
{
    if !goal.state.atom(a)?.is_nothing() {
        return None;
    }
    goal.state.remove_atom(a);
    Some(goal)
}

/// force: two terms of the atom of that number, a segment or tree that can only be empty, are the
/// same: its ends, or where these are one term already, what stands before a doubly linked segment
/// and its last cell. `None` exactly where it is no such atom, or all these are one term already.
/// Memory is wanted only where they are two constants; an `Err` means that there is none.
pub fn force<'a>(mut goal: Goal<'a>, a: u32) -> Result<Option<Goal<'a>>, AllocError>
    ensures { IfOk result (λ left. option_map (λ g. goal_of g ∷ []) left
        ≡ force_row (goal_of goal.entry) a) }
{
    let Some(atom) = goal.state.atom(a) else {
        return Ok(None);
    };
    let Some((t, u)) = goal.state.forced_pair(a, atom) else {
        return Ok(None);
    };
    goal.assume_equal(t, u)?;
    Ok(Some(goal))
}
