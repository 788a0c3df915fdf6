//! The row of a doubly linked segment that isn't empty, from behind: back.

ghost use Rattle.std.specs.Prelude.{◌≡◌, ◌∷◌, ◌+◌, ◌<◌, ◌^◌, [], IfOk};
ghost use Rattle.std.specs.Option.{option_map};
ghost use Rattle.sf_normal.specs.Knowledge.{back_row, unrolled_last};
ghost use Rattle.sf_sym.specs.Goal.{at_state, goal_of};

use sf_sym::{Atom, FieldTerms, Goal, Term};
use std::alloc::{AllocError, Global};

/// back: in place of the atom of that number, a doubly linked segment whose ends surely differ, what
/// comes before its last cell and that cell, with a fresh symbol and new numbers. `None` exactly
/// where it is no such atom, or the program hasn't the fields by which it goes; an `Err` means out of
/// memory.
pub fn unroll_back<'a>(
    alloc: Global,
    mut goal: Goal<'a>,
    a: u32,
) -> Result<Option<Goal<'a>>, AllocError>
    requires symbols { goal.state.next_sym + 1 < 2 ^ 32 }
    requires atoms { goal.state.next_atom + 2 < 2 ^ 32 }
    ensures { IfOk result (λ left. option_map (λ g. goal_of g ∷ []) left
        ≡ back_row (goal_of goal.entry) a) }
{
    let Some(Atom::Dll(v, p, l, u)) = goal.state.atom(a) else {
        return Ok(None);
    };
    let (v, p, l, u) = (*v, *p, *l, *u);
    if !goal.state.differs(v, u) {
        return Ok(None);
    }
    goal.state.remove_atom(a);
    last(alloc, goal, v, p, l, u)
}

/// A doubly linked segment from the first term up to the third, before which stands the second, and a
/// cell at the third, which leads to the fourth and back to the last cell of that segment.
fn last<'a>(
    alloc: Global,
    mut goal: Goal<'a>,
    v: Term,
    p: Term,
    l: Term,
    u: Term,
) -> Result<Option<Goal<'a>>, AllocError>
    requires symbols { goal.state.next_sym + 1 < 2 ^ 32 }
    requires atoms { goal.state.next_atom + 2 < 2 ^ 32 }
    ensures { IfOk result (λ left. option_map goal_of left
        ≡ option_map (at_state (goal_of goal.entry))
        (unrolled_last goal.entry.state.links.tl goal.entry.state.links.pv v p l u
        goal.entry.state)) }
{
    let links = goal.state.links();
    let (Some(next), Some(back)) = (links.tl, links.pv) else {
        return Ok(None);
    };
    let before = goal.state.fresh_symbol();
    goal.state.add_atom(Atom::Dll(v, p, before, l))?;
    let mut fields = FieldTerms::new(alloc);
    fields.put(back, before)?;
    fields.put(next, u)?;
    goal.state.add_cell(l, fields)?;
    Ok(Some(goal))
}
