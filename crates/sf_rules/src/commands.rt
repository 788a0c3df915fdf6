//! Rows of commands that touch a variable or a cell: assign, look, mutate, new, dispose.

ghost use Rattle.std.specs.Prelude.{◌≡◌, IfOk, IsTrue};
ghost use Rattle.std.specs.Option.{option_and_then, option_map};
ghost use Rattle.sf_rules.specs.Checked.Children.{children_of};
ghost use Rattle.sf_rules.specs.Checked.Rows.Commands.{assign_row, dispose_row, look_row, looked, mutate_row, new_row};
ghost use Rattle.sf_rules.specs.Checked.Rows.Front.{at_command};
ghost use Rattle.sf_rules.specs.Rules.{has_numbers};
ghost use Rattle.sf_sym.specs.Cells.{cell_at};
ghost use Rattle.sf_sym.specs.Fields.{field_term};
ghost use Rattle.sf_sym.specs.Goal.{one_goal, todo_of};

use crate::children::Children;
use crate::front::take_command;
use sf_base::{FieldId, Var};
use sf_core::Command;
use sf_sym::{FieldTerms, Goal, Term, field_term};
use std::alloc::{AllocError, Global};

/// assign: the variable has the expression's term.
#[inline(never)]
pub(crate) fn assign<'a>(mut goal: Goal<'a>) -> Result<Option<Children<'a>>, AllocError>
    ensures { IfOk result (λ left. option_map children_of left
        ≡ at_command (assign_row goal.entry.state) (todo_of goal.entry.todo.items)) }
{
    let Some(c) = take_command(&mut goal.todo)? else {
        return Ok(None);
    };
    let Command::Assign(_, x, e) = c else {
        return Ok(None);
    };
    let t = goal.state.term(e);
    goal.state.set_var(x.var, t)?;
    Ok(Some(Children::One(goal)))
}

/// look: the variable has the term of the cell's field.
#[inline(never)]
pub(crate) fn look<'a>(mut goal: Goal<'a>, a: u32) -> Result<Option<Children<'a>>, AllocError>
    requires { IsTrue (has_numbers goal.state) }
    ensures { IfOk result (λ left. option_map children_of left
        ≡ at_command (look_row a goal.entry.state) (todo_of goal.entry.todo.items)) }
{
    let Some(c) = take_command(&mut goal.todo)? else {
        return Ok(None);
    };
    let Command::LookUp(_, x, e, f) = c else {
        return Ok(None);
    };
    let root = goal.state.term(e);
    look_up(goal, a, root, *f, x.var)
}

/// The variable has the term of that field of the cell of that number at the root, which is a fresh
/// symbol where it isn't known. `None` exactly where there is no such cell.
fn look_up<'a>(
    mut goal: Goal<'a>,
    a: u32,
    root: Term,
    f: FieldId,
    x: Var,
) -> Result<Option<Children<'a>>, AllocError>
    requires { IsTrue (has_numbers goal.state) }
    ensures { IfOk result (λ left. option_map children_of left ≡ option_and_then
        (λ fields. option_and_then (λ after. one_goal after (todo_of goal.entry.todo.items))
        (looked goal.entry.state root f a x (field_term fields f)))
        (cell_at goal.entry.state.atoms a root)) }
{
    let Some(fields) = goal.state.cell(a, root) else {
        return Ok(None);
    };
    let t = match field_term(fields, f) {
        Some(t) => t,
        None => {
            let t = goal.state.fresh_symbol();
            goal.state.write_field(a, root, f, t)?;
            t
        }
    };
    goal.state.set_var(x, t)?;
    Ok(Some(Children::One(goal)))
}

/// mutate: the cell's field has the expression's term.
#[inline(never)]
pub(crate) fn mutate<'a>(mut goal: Goal<'a>, a: u32) -> Result<Option<Children<'a>>, AllocError>
    ensures { IfOk result (λ left. option_map children_of left
        ≡ at_command (mutate_row a goal.entry.state) (todo_of goal.entry.todo.items)) }
{
    let Some(c) = take_command(&mut goal.todo)? else {
        return Ok(None);
    };
    let Command::Mutate(_, e, f, v) = c else {
        return Ok(None);
    };
    let root = goal.state.term(e);
    let u = goal.state.term(v);
    if goal.state.cell(a, root).is_none() {
        return Ok(None);
    }
    goal.state.write_field(a, root, *f, u)?;
    Ok(Some(Children::One(goal)))
}

/// new: the variable has a fresh symbol, and there is a cell of which no field is known.
#[inline(never)]
pub(crate) fn new<'a>(alloc: Global, mut goal: Goal<'a>) -> Result<Option<Children<'a>>, AllocError>
    requires { IsTrue (has_numbers goal.state) }
    ensures { IfOk result (λ left. option_map children_of left
        ≡ at_command (new_row goal.entry.state) (todo_of goal.entry.todo.items)) }
{
    let Some(c) = take_command(&mut goal.todo)? else {
        return Ok(None);
    };
    let Command::New(_, x) = c else {
        return Ok(None);
    };
    let t = goal.state.fresh_symbol();
    goal.state.set_var(x.var, t)?;
    goal.state.add_cell(t, FieldTerms::new(alloc))?;
    Ok(Some(Children::One(goal)))
}

/// dispose: the cell goes.
#[inline(never)]
pub(crate) fn dispose<'a>(mut goal: Goal<'a>, a: u32) -> Result<Option<Children<'a>>, AllocError>
    ensures { IfOk result (λ left. option_map children_of left
        ≡ at_command (dispose_row a goal.entry.state) (todo_of goal.entry.todo.items)) }
{
    let Some(c) = take_command(&mut goal.todo)? else {
        return Ok(None);
    };
    let Command::Dispose(_, e) = c else {
        return Ok(None);
    };
    let root = goal.state.term(e);
    if goal.state.cell(a, root).is_none() {
        return Ok(None);
    }
    goal.state.remove_atom(a);
    Ok(Some(Children::One(goal)))
}
