//! The row of what is assumed: add.

ghost use Rattle.std.specs.Prelude.{◌≡◌, ◌+◌, ◌<◌, ◌^◌, IfOk, Some};
ghost use Rattle.std.specs.Option.{option_map};
ghost use Rattle.sf_core.specs.Program.Syntax.{holds, points};
ghost use Rattle.sf_produce.specs.Add.{add_first, added, added_double, added_segment, added_tree, goal_after, operands};
ghost use Rattle.sf_sym.specs.Goal.{goal_of};
ghost use Rattle.sf_sym.specs.Pending.{existentials_in, one_if_existential, pending_of};

use crate::operands::{OPERANDS, met, met_both, met_fields, met_four};
use sf_base::{FieldId, Place};
use sf_core::{Conjunct, Operand, Test};
use sf_sym::{Atom, Goal, Pending, Term, with_add};
use std::alloc::{AllocError, Global};

/// add: of a goal with these conjuncts to assume in front, the first is assumed. `None` exactly
/// where there is none or it is a choice; an `Err` means out of memory.
pub fn produce<'a>(
    alloc: Global,
    goal: Goal<'a>,
    place: Place,
    mut given: Pending,
) -> Result<Option<Goal<'a>>, AllocError>
    requires symbols { goal.state.next_sym + operands (pending_of given).conjuncts < 2 ^ 32 }
    requires plain { goal.state.next_sym + OPERANDS < 2 ^ 32 }
    requires atoms { goal.state.next_atom + 1 < 2 ^ 32 }
    ensures { IfOk result (λ left. option_map goal_of left
        ≡ add_first goal.entry.state place (pending_of given).bindings
        (pending_of given).conjuncts (goal_of goal.entry).todo) }
{
    let Some(c) = given.take_first() else {
        return Ok(None);
    };
    match c {
        Conjunct::Holds(_, test) => Ok(Some(tested(goal, place, given, test)?)),
        Conjunct::Points(_, root, fields) => {
            Ok(Some(cell(alloc, goal, place, given, root, fields.as_slice())?))
        }
        Conjunct::Segment(_, _, x, y) => Ok(Some(segment(goal, place, given, x, y)?)),
        Conjunct::Doubly(_, _, _, x, b, l, y) => {
            Ok(Some(double(goal, place, given, x, b, l, y)?))
        }
        Conjunct::Tree(_, _, _, x) => Ok(Some(tree(goal, place, given, x)?)),
        Conjunct::If(..) => Ok(None),
    }
}

/// The goal with those other conjuncts to assume first. An `Err` means out of memory.
fn goal_after<'a>(goal: Goal<'a>, place: Place, given: Pending) -> Result<Goal<'a>, AllocError>
    ensures { IfOk result (λ g. goal_of g
        ≡ goal_after goal.entry.state place (pending_of given).conjuncts given.bindings
        (goal_of goal.entry).todo) }
{
    let Goal { state, todo } = goal;
    let todo = with_add(todo, place, given)?;
    Ok(Goal { state, todo })
}

/// A test is assumed.
fn tested<'a>(
    mut goal: Goal<'a>,
    place: Place,
    mut given: Pending,
    test: Test<Operand<Term>>,
) -> Result<Goal<'a>, AllocError>
    requires { goal.state.next_sym + OPERANDS < 2 ^ 32 }
    ensures { IfOk result (λ g. Some (goal_of g) ≡ added goal.entry.state place given.bindings
        (holds place test) (pending_of given).conjuncts (goal_of goal.entry).todo) }
{
    match test {
        Test::True => goal_after(goal, place, given),
        Test::Equal(x, y) => {
            let (t, u) = met_both(&mut goal.state, &mut given, x, y);
            let mut goal = goal_after(goal, place, given)?;
            goal.assume_equal(t, u)?;
            Ok(goal)
        }
        Test::Differ(x, y) => {
            let (t, u) = met_both(&mut goal.state, &mut given, x, y);
            let mut goal = goal_after(goal, place, given)?;
            goal.assume_apart(t, u)?;
            Ok(goal)
        }
    }
}

/// A cell is assumed.
fn cell<'a>(
    alloc: Global,
    mut goal: Goal<'a>,
    place: Place,
    mut given: Pending,
    root: Operand<Term>,
    fields: &[(FieldId, Operand<Term>)],
) -> Result<Goal<'a>, AllocError>
    requires symbols { goal.state.next_sym
        + (one_if_existential root + existentials_in fields.now) < 2 ^ 32 }
    requires atoms { goal.state.next_atom + 1 < 2 ^ 32 }
    ensures { IfOk result (λ g. Some (goal_of g) ≡ added goal.entry.state place given.bindings
        (points place root fields.now) (pending_of given).conjuncts (goal_of goal.entry).todo) }
{
    let t = met(&mut goal.state, &mut given, root);
    let made = met_fields(alloc, &mut goal.state, &mut given, fields)?;
    goal.state.add_cell(t, made)?;
    goal_after(goal, place, given)
}

/// A list segment is assumed.
fn segment<'a>(
    mut goal: Goal<'a>,
    place: Place,
    mut given: Pending,
    x: Operand<Term>,
    y: Operand<Term>,
) -> Result<Goal<'a>, AllocError>
    requires symbols { goal.state.next_sym + OPERANDS < 2 ^ 32 }
    requires atoms { goal.state.next_atom + 1 < 2 ^ 32 }
    ensures { IfOk result (λ g. goal_of g ≡ added_segment goal.entry.state place given.bindings x y
        (pending_of given).conjuncts (goal_of goal.entry).todo) }
{
    let (t, u) = met_both(&mut goal.state, &mut given, x, y);
    goal.state.add_atom(Atom::Ls(t, u))?;
    goal_after(goal, place, given)
}

/// A doubly linked segment is assumed.
fn double<'a>(
    mut goal: Goal<'a>,
    place: Place,
    mut given: Pending,
    x: Operand<Term>,
    b: Operand<Term>,
    l: Operand<Term>,
    y: Operand<Term>,
) -> Result<Goal<'a>, AllocError>
    requires symbols { goal.state.next_sym + OPERANDS < 2 ^ 32 }
    requires atoms { goal.state.next_atom + 1 < 2 ^ 32 }
    ensures { IfOk result (λ g. goal_of g
        ≡ added_double goal.entry.state place given.bindings x b l y
        (pending_of given).conjuncts (goal_of goal.entry).todo) }
{
    let (v, p, m, u) = met_four(&mut goal.state, &mut given, x, b, l, y);
    goal.state.add_atom(Atom::Dll(v, p, m, u))?;
    goal_after(goal, place, given)
}

/// A tree is assumed.
fn tree<'a>(
    mut goal: Goal<'a>,
    place: Place,
    mut given: Pending,
    x: Operand<Term>,
) -> Result<Goal<'a>, AllocError>
    requires symbols { goal.state.next_sym + 1 < 2 ^ 32 }
    requires atoms { goal.state.next_atom + 1 < 2 ^ 32 }
    ensures { IfOk result (λ g. goal_of g ≡ added_tree goal.entry.state place given.bindings x
        (pending_of given).conjuncts (goal_of goal.entry).todo) }
{
    let t = met(&mut goal.state, &mut given, x);
    goal.state.add_atom(Atom::Tree(t))?;
    goal_after(goal, place, given)
}
