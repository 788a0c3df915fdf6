//! Rows of what is assumed and of what is to be shown: add, and the steps of subtraction.

ghost use Rattle.std.specs.Prelude.{◌≡◌, ◌+◌, ◌≤◌, IfOk, IsTrue, length};
ghost use Rattle.std.specs.Option.{option_map};
ghost use Rattle.sf_consume.specs.Subtract.{new_symbols};
ghost use Rattle.sf_produce.specs.Add.{operands};
ghost use Rattle.sf_rules.specs.Checked.Children.{children_of};
ghost use Rattle.sf_rules.specs.Checked.Rows.Add.{assume_row};
ghost use Rattle.sf_rules.specs.Checked.Rows.Front.{at_add, at_take};
ghost use Rattle.sf_rules.specs.Checked.Rows.Take.{subtract_row};
ghost use Rattle.sf_rules.specs.Rules.{has_numbers};
ghost use Rattle.sf_sym.specs.Goal.{todo_of};
ghost use Rattle.sf_sym.specs.Pending.{existentials_in, one_if_existential, pending_of};

use crate::children::Children;
use crate::few::TOO_MANY;
use crate::front::{take_add, take_take};
use sf_base::FieldId;
use sf_consume::{ConsumeFault, subtract};
use sf_core::{Conjunct, Operand};
use sf_produce::{OPERANDS, produce};
use sf_sym::{Goal, Pending, Tag, Term, with_take};
use std::alloc::{AllocError, Global};

/// add: the first conjunct to assume is assumed.
#[inline(never)]
pub(crate) fn assume<'a>(alloc: Global, goal: Goal<'a>) -> Result<Option<Children<'a>>, AllocError>
    requires { IsTrue (has_numbers goal.state) }
    ensures { IfOk result (λ left. option_map children_of left
        ≡ at_add (assume_row goal.entry.state) (todo_of goal.entry.todo.items)) }
{
    let Goal { state, mut todo } = goal;
    let Some((place, given)) = take_add(&mut todo) else {
        return Ok(None);
    };
    if operands(&given) >= TOO_MANY {
        return Ok(None);
    }
    match produce(alloc, Goal { state, todo }, place, given)? {
        Some(left) => Ok(Some(Children::One(left))),
        None => Ok(None),
    }
}

/// The step of subtraction that the tag names, at the first wanted conjunct.
#[inline(never)]
pub(crate) fn show<'a>(
    alloc: Global,
    goal: Goal<'a>,
    tag: Tag,
) -> Result<Option<Children<'a>>, AllocError>
    requires { IsTrue (has_numbers goal.state) }
    ensures { IfOk result (λ left. option_map children_of left
        ≡ at_take (subtract_row tag goal.entry.state) (todo_of goal.entry.todo.items)) }
{
    let Goal {
        mut state,
        mut todo,
    } = goal;
    let Some((place, mut want, names)) = take_take(&mut todo) else {
        return Ok(None);
    };
    if new_symbols(&want) >= TOO_MANY {
        return Ok(None);
    }
    match subtract(alloc, &mut state, &mut want, &tag) {
        Ok(()) => {
            let todo = with_take(todo, place, want, names)?;
            Ok(Some(Children::One(Goal { state, todo })))
        }
        Err(ConsumeFault::NotARule) => Ok(None),
        Err(ConsumeFault::OutOfMemory) => Err(AllocError),
    }
}

/// How many symbols may be new where the first conjunct is assumed, at most.
fn operands(given: &Pending) -> usize
    ensures { result ≡ operands (pending_of given.now).conjuncts }
{
    match given.first() {
        Some(Conjunct::Points(_, root, fields)) => is_existential(root) + existentials_in(fields),
        _ => OPERANDS,
    }
}

/// How many symbols may be new where the first conjunct is handed over, at most.
fn new_symbols(want: &Pending) -> usize
    ensures { result ≡ new_symbols (pending_of want.now).conjuncts }
{
    match want.first() {
        Some(Conjunct::Points(_, _, fields)) => existentials_in(fields),
        _ => 2,
    }
}

/// 1 for an existential, 0 for what has a term.
fn is_existential(x: &Operand<Term>) -> usize
    ensures one { result ≡ one_if_existential x.now }
    ensures within { result ≤ 1 }
{
    match x {
        Operand::Known(_) => 0,
        Operand::Exists(_) => 1,
    }
}

/// How many of the fields have an existential as their value.
fn existentials_in(fields: &[(FieldId, Operand<Term>)]) -> usize
    ensures count { result ≡ existentials_in fields.now }
    ensures within { result ≤ length fields.now }
{
    let mut count = 0;
    let mut left = fields;
    while let Some((first, rest)) = left.split_first() {
        count += is_existential(&first.1);
        left = rest;
    }
    count
}
