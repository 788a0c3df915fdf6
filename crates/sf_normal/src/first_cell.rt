//! The row of a segment or tree that isn't empty: unroll.

ghost use Rattle.std.specs.Prelude.{◌≡◌, ◌∷◌, ◌+◌, ◌<◌, ◌^◌, [], IfOk};
ghost use Rattle.std.specs.Option.{option_map};
ghost use Rattle.sf_normal.specs.Knowledge.{unroll_row, unrolled_double, unrolled_segment, unrolled_tree};
ghost use Rattle.sf_sym.specs.Goal.{at_state, goal_of};

use sf_sym::{Atom, FieldTerms, Goal, Term};
use std::alloc::{AllocError, Global};

/// unroll: in place of the atom of that number, a segment or tree whose ends surely differ, its
/// first cell and what comes behind it, with fresh symbols and new numbers. `None` exactly where it
/// is no such atom, or the program hasn't the fields by which it goes; an `Err` means out of
/// memory.
pub fn unroll<'a>(alloc: Global, mut goal: Goal<'a>, a: u32) -> Result<Option<Goal<'a>>, AllocError>
    requires symbols { goal.state.next_sym + 2 < 2 ^ 32 }
    requires atoms { goal.state.next_atom + 3 < 2 ^ 32 }
    ensures { IfOk result (λ left. option_map (λ g. goal_of g ∷ []) left
        ≡ unroll_row (goal_of goal.entry) a) }
{
    let Some((t, u)) = goal.state.ends(a) else {
        return Ok(None);
    };
    if !goal.state.differs(t, u) {
        return Ok(None);
    }
    let Some(atom) = goal.state.remove_atom(a) else {
        return Ok(None);
    };
    match atom {
        Atom::Points(..) => Ok(None),
        Atom::Ls(t, u) => segment(alloc, goal, t, u),
        Atom::Tree(t) => tree(alloc, goal, t),
        Atom::Dll(v, p, l, u) => double(alloc, goal, v, p, l, u),
    }
}

/// A cell at the first term, and a segment from its link up to the second.
fn segment<'a>(
    alloc: Global,
    mut goal: Goal<'a>,
    t: Term,
    u: Term,
) -> Result<Option<Goal<'a>>, AllocError>
    requires symbols { goal.state.next_sym + 1 < 2 ^ 32 }
    requires atoms { goal.state.next_atom + 2 < 2 ^ 32 }
    ensures { IfOk result (λ left. option_map goal_of left
        ≡ option_map (at_state (goal_of goal.entry))
        (unrolled_segment goal.entry.state.links.tl t u goal.entry.state)) }
{
    let Some(next) = goal.state.links().tl else {
        return Ok(None);
    };
    let rest = goal.state.fresh_symbol();
    let mut fields = FieldTerms::new(alloc);
    fields.put(next, rest)?;
    goal.state.add_cell(t, fields)?;
    goal.state.add_atom(Atom::Ls(rest, u))?;
    Ok(Some(goal))
}

/// A cell at the term, and the trees of its two links, the left one first.
fn tree<'a>(alloc: Global, mut goal: Goal<'a>, t: Term) -> Result<Option<Goal<'a>>, AllocError>
    requires symbols { goal.state.next_sym + 2 < 2 ^ 32 }
    requires atoms { goal.state.next_atom + 3 < 2 ^ 32 }
    ensures { IfOk result (λ left. option_map goal_of left
        ≡ option_map (at_state (goal_of goal.entry))
        (unrolled_tree goal.entry.state.links.l goal.entry.state.links.r t goal.entry.state)) }
{
    let links = goal.state.links();
    let (Some(left), Some(right)) = (links.l, links.r) else {
        return Ok(None);
    };
    let one = goal.state.fresh_symbol();
    let two = goal.state.fresh_symbol();
    let mut fields = FieldTerms::new(alloc);
    fields.put(right, two)?;
    fields.put(left, one)?;
    goal.state.add_cell(t, fields)?;
    goal.state.add_atom(Atom::Tree(one))?;
    goal.state.add_atom(Atom::Tree(two))?;
    Ok(Some(goal))
}

/// A cell at the first term, which leads back to the second, and a doubly linked segment from its
/// link up to the fourth, whose last cell is the third.
fn double<'a>(
    alloc: Global,
    mut goal: Goal<'a>,
    v: Term,
    p: Term,
    l: Term,
    u: Term,
) -> Result<Option<Goal<'a>>, AllocError>
    requires symbols { goal.state.next_sym + 1 < 2 ^ 32 }
    requires atoms { goal.state.next_atom + 2 < 2 ^ 32 }
    ensures { IfOk result (λ left. option_map goal_of left
        ≡ option_map (at_state (goal_of goal.entry))
        (unrolled_double goal.entry.state.links.tl goal.entry.state.links.pv v p l u
        goal.entry.state)) }
{
    let links = goal.state.links();
    let (Some(next), Some(back)) = (links.tl, links.pv) else {
        return Ok(None);
    };
    let rest = goal.state.fresh_symbol();
    let mut fields = FieldTerms::new(alloc);
    fields.put(back, p)?;
    fields.put(next, rest)?;
    goal.state.add_cell(v, fields)?;
    goal.state.add_atom(Atom::Dll(rest, v, l, u))?;
    Ok(Some(goal))
}
