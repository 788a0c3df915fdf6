//! The row of two terms that are the same or differ: split.

ghost use Rattle.std.specs.Prelude.{◌≡◌, ◌∷◌, [], IfOk};
ghost use Rattle.std.specs.Option.{option_map};
ghost use Rattle.sf_normal.specs.Knowledge.{split_row};
ghost use Rattle.sf_sym.specs.Goal.{goal_of};

use sf_sym::{Goal, Term};
use std::alloc::{AllocError, Global};

/// split: first the goal where the two terms are the same, then the one where they differ, which is
/// a copy. `None` exactly where they are one term, or one is a symbol that the goal doesn't have
/// yet; an `Err` means out of memory.
pub fn split<'a>(
    alloc: Global,
    goal: Goal<'a>,
    t: Term,
    u: Term,
) -> Result<Option<(Goal<'a>, Goal<'a>)>, AllocError>
    ensures { IfOk result (λ left. option_map (λ both. goal_of both.0 ∷ goal_of both.1 ∷ []) left
        ≡ split_row (goal_of goal.entry) t u) }
{
    let next = goal.state.next_sym();
    if t.is(u) || !t.is_below(next) || !u.is_below(next) {
        return Ok(None);
    }
    let mut differing = goal.copy(alloc)?;
    differing.assume_apart(t, u)?;
    let mut same = goal;
    same.assume_equal(t, u)?;
    Ok(Some((same, differing)))
}
