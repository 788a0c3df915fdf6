//! Rows of loops and of ends: loop, around, again, return, end.

ghost use Rattle.std.specs.Prelude.{◌≡◌, ◌<◌, ◌++◌, ◌∷◌, [], IfNone, IfOk, IfSome, IsTrue, false, length, nat_lt};
ghost use Rattle.std.specs.List.{list_any};
ghost use Rattle.std.specs.Option.{option_map};
ghost use Rattle.sf_base.specs.Variables.{same_var};
ghost use Rattle.sf_core.specs.declared.command.Expr.TheVariants.{Nil as ENil};
ghost use Rattle.sf_core.specs.Program.View.{assertion_of, block_of};
ghost use Rattle.sf_precise.specs.Order.{IsOrdering};
ghost use Rattle.sf_rules.specs.Checked.Children.{children_of};
ghost use Rattle.sf_rules.specs.Checked.Rows.Ends.{end_row, return_row};
ghost use Rattle.sf_rules.specs.Checked.Rows.Front.{at_again, at_command, at_end, at_head, at_return};
ghost use Rattle.sf_rules.specs.Checked.Rows.Loops.{after_loop, again_row, around_row, body_once, loop_row};
ghost use Rattle.sf_rules.specs.Rules.{unknown_in, has_numbers};
ghost use Rattle.sf_rules.specs.Setting.{Setting};
ghost use Rattle.sf_rules.specs.Words.{negation, pending_assertion, to_add, to_add_test, to_take};
ghost use Rattle.sf_sym.specs.Goal.{again, end, goal_of, to_run, todo_of};
ghost use Rattle.sf_sym.specs.Pending.{pending_of};
ghost use Rattle.sf_sym.specs.State.{term};
ghost use Rattle.sf_sym.specs.Variables.{with_fresh};

use crate::children::Children;
use crate::few::TOO_MANY;
use crate::front::{Loop, take_again, take_command, take_end, take_head, take_return};
use crate::words::{Terms, pending, with_each_wanted, with_test};
use sf_base::{Place, Var};
use sf_calls::Calls;
use sf_core::{Assertion, Command, Expr, Test};
use sf_precise::{OrderFault, order};
use sf_sym::{Goal, Item, Pending, State, Term, with_add, with_take};
use std::alloc::{AllocError, Global};

/// The conjuncts of an assertion, in order, with the terms that its variables have now. An `Err`
/// means out of memory.
pub(crate) fn pending_in_order(
    alloc: Global,
    vars: &[(Var, Term)],
    a: &Assertion,
) -> Result<Pending, AllocError>
    ghost d: { Setting }
    requires { IsOrdering d.ordered }
    ensures pending { IfOk result (λ given. pending_of given
        ≡ pending_assertion (term vars.now) (d.ordered (assertion_of a.now))) }
    ensures names { IfOk result (λ _.
        (d.ordered (assertion_of a.now)).names ≡ (assertion_of a.now).names) }
{
    match order(alloc, a) {
        Ok(o) => pending(alloc, Terms::Of(vars), &o.assertion),
        Err(OrderFault::Undetermined(_)) => pending(alloc, Terms::Of(vars), a),
        Err(OrderFault::OutOfMemory) => Err(AllocError),
    }
}

/// loop: the invariant is due, and then the loop begins.
#[inline(never)]
pub(crate) fn begin_loop<'a>(
    alloc: Global,
    goal: Goal<'a>,
) -> Result<Option<Children<'a>>, AllocError>
    ghost d: { Setting }
    requires { IsOrdering d.ordered }
    ensures { IfOk result (λ left. option_map children_of left
        ≡ at_command (loop_row d goal.entry.state) (todo_of goal.entry.todo.items)) }
{
    let Goal { state, mut todo } = goal;
    let Some(c) = take_command(&mut todo)? else {
        return Ok(None);
    };
    let Command::While(place, test, invariant, body) = c else {
        return Ok(None);
    };
    todo.push(Item::Head(*place, test, invariant, body))?;
    let todo = with_due(alloc, todo, *place, state.vars(), invariant)?;
    Ok(Some(Children::One(Goal { state, todo })))
}

/// around: what the body may change is unknown, where it has a term. First the body once, second
/// what comes after the loop.
#[inline(never)]
pub(crate) fn around<'a>(
    alloc: Global,
    calls: &Calls,
    goal: Goal<'a>,
) -> Result<Option<Children<'a>>, AllocError>
    ghost d: { Setting }
    requires ordered { IsOrdering d.ordered }
    requires sets { d.sets ≡ calls.now }
    requires numbers { IsTrue (has_numbers goal.state) }
    ensures { IfOk result (λ left. option_map children_of left
        ≡ at_head (around_row d goal.entry.state) (todo_of goal.entry.todo.items)) }
{
    let Goal { state, mut todo } = goal;
    let Some(l) = take_head(&mut todo) else {
        return Ok(None);
    };
    let Some(state) = with_unknown(alloc, calls, state, l.body)? else {
        return Ok(None);
    };
    let once = body_once(alloc, &state, &l)?;
    let after = after_loop(alloc, state, todo, &l)?;
    Ok(Some(Children::Two(once, after)))
}

/// The state in which the variables that a loop's body leaves unknown have fresh symbols. `None`
/// exactly where they are too many; an `Err` means out of memory.
fn with_unknown(
    alloc: Global,
    calls: &Calls,
    mut state: State,
    body: &[Command],
) -> Result<Option<State>, AllocError>
    ghost d: { Setting }
    requires sets { d.sets ≡ calls.now }
    requires numbers { IsTrue (has_numbers state) }
    ensures some { IfOk result (λ r. IfSome r (λ s.
        (length (unknown_in d state (block_of body.now)) < TOO_MANY)
        × (s ≡ with_fresh (unknown_in d state (block_of body.now)) state))) }
    ensures none { IfOk result (λ r. IfNone r
        (nat_lt (length (unknown_in d state (block_of body.now))) TOO_MANY ≡ false)) }
{
    let unknown = unknown_in(alloc, calls, &state, body)?;
    if unknown.len() >= TOO_MANY {
        return Ok(None);
    }
    state.set_fresh(&unknown)?;
    Ok(Some(state))
}

/// The variables that a loop's body leaves unknown in that state: those that it may change and that
/// have a term. An `Err` means out of memory.
fn unknown_in(
    alloc: Global,
    calls: &Calls,
    state: &State,
    body: &[Command],
) -> Result<Vec<Var>, AllocError>
    ghost d: { Setting }
    requires { d.sets ≡ calls.now }
    ensures { IfOk result (λ unknown. unknown.items ≡ unknown_in d state.now (block_of body.now)) }
{
    let changes = calls.assigned(alloc, body)?;
    let vars = state.vars();
    let mut unknown = Vec::from_slice(alloc, changes.as_slice())?;
    unknown.retain(|x| is_listed(vars, *x));
    Ok(unknown)
}

/// Whether the variable has a term.
fn is_listed(vars: &[(Var, Term)], x: Var) -> bool
    ensures { result ≡ list_any (λ v. same_var v.0 x) vars.now }
{
    vars.iter().any(|v| v.0.is_same(x))
}

/// The body once, from the invariant alone and where the test is true. An `Err` means out of
/// memory.
fn body_once<'a>(alloc: Global, state: &State, l: &Loop<'a>) -> Result<Goal<'a>, AllocError>
    ghost d: { Setting }
    requires { IsOrdering d.ordered }
    ensures { IfOk result (λ g. goal_of g ≡ body_once d state.now l.now.place l.now.test.now
        (assertion_of l.now.invariant.now) (block_of l.now.body.now)) }
{
    let todo = body_and_again(alloc, l)?;
    let todo = with_invariant(alloc, todo, state.vars(), l, l.test)?;
    let mut state = state.copy(alloc)?;
    state.clear_heap();
    Ok(Goal { state, todo })
}

/// A loop's body, and then its end. An `Err` means out of memory.
fn body_and_again<'a>(alloc: Global, l: &Loop<'a>) -> Result<Vec<Item<'a>>, AllocError>
    ensures { IfOk result (λ todo. todo_of todo.items ≡ to_run (block_of l.now.body.now)
        ++ (again l.now.place (assertion_of l.now.invariant.now) ∷ [])) }
{
    let mut todo = Vec::with_capacity(alloc, 4)?;
    todo.push(Item::Again(l.place, l.invariant))?;
    todo.push(Item::Run(l.body))?;
    Ok(todo)
}

/// What comes after the loop, from the invariant beside what was kept and where the test is false.
/// An `Err` means out of memory.
fn after_loop<'a>(
    alloc: Global,
    mut state: State,
    todo: Vec<Item<'a>>,
    l: &Loop<'a>,
) -> Result<Goal<'a>, AllocError>
    ghost d: { Setting }
    requires { IsOrdering d.ordered }
    ensures { IfOk result (λ g. goal_of g ≡ after_loop d state l.now.place l.now.test.now
        (assertion_of l.now.invariant.now) (todo_of todo.entry.items)) }
{
    let todo = with_invariant(alloc, todo, state.vars(), l, &negation(l.test))?;
    state.clear_taken();
    Ok(Goal { state, todo })
}

/// Puts a loop's invariant first, in order, and after it that test, to assume both with the terms
/// that their variables have now. An `Err` means out of memory.
fn with_invariant<'a>(
    alloc: Global,
    todo: Vec<Item<'a>>,
    vars: &[(Var, Term)],
    l: &Loop<'_>,
    test: &Test<Expr>,
) -> Result<Vec<Item<'a>>, AllocError>
    ghost d: { Setting }
    requires { IsOrdering d.ordered }
    ensures { IfOk result (λ r. todo_of r.items
        ≡ to_add l.now.place (term vars.now) (d.ordered (assertion_of l.now.invariant.now))
        ++ (to_add_test l.now.place (term vars.now) test.now ++ todo_of todo.entry.items)) }
{
    let todo = with_test(alloc, todo, l.place, Terms::Of(vars), test)?;
    let given = pending_in_order(alloc, vars, l.invariant)?;
    let todo = with_add(todo, l.place, given)?;
    Ok(todo)
}

/// Puts a loop's invariant first, in order, to show with the terms that its variables have now. An
/// `Err` means out of memory.
fn with_due<'a>(
    alloc: Global,
    todo: Vec<Item<'a>>,
    place: Place,
    vars: &[(Var, Term)],
    invariant: &'a Assertion,
) -> Result<Vec<Item<'a>>, AllocError>
    ghost d: { Setting }
    requires { IsOrdering d.ordered }
    ensures { IfOk result (λ r. todo_of r.items
        ≡ to_take place (term vars.now) (d.ordered (assertion_of invariant.now))
        ++ todo_of todo.entry.items) }
{
    let want = pending_in_order(alloc, vars, invariant)?;
    let todo = with_take(todo, place, want, &invariant.names)?;
    Ok(todo)
}

/// The negation of a test: of one that is always true, that nil differs from itself.
fn negation(test: &Test<Expr>) -> Test<Expr>
    ensures { result ≡ negation ENil test.now }
{
    match test {
        Test::True => Test::Differ(Expr::Nil, Expr::Nil),
        Test::Equal(x, y) => Test::Differ(*x, *y),
        Test::Differ(x, y) => Test::Equal(*x, *y),
    }
}

/// again: the invariant is due, and nothing may be left.
#[inline(never)]
pub(crate) fn again<'a>(alloc: Global, goal: Goal<'a>) -> Result<Option<Children<'a>>, AllocError>
    ghost d: { Setting }
    requires { IsOrdering d.ordered }
    ensures { IfOk result (λ left. option_map children_of left
        ≡ at_again (again_row d goal.entry.state) (todo_of goal.entry.todo.items)) }
{
    let Goal { state, mut todo } = goal;
    let Some((place, invariant)) = take_again(&mut todo) else {
        return Ok(None);
    };
    let todo = only_end(alloc, place)?;
    let todo = with_due(alloc, todo, place, state.vars(), invariant)?;
    Ok(Some(Children::One(Goal { state, todo })))
}

/// return: what the procedure owes is due, one assertion after the other, and then nothing may be
/// left.
#[inline(never)]
pub(crate) fn return_from<'a>(
    alloc: Global,
    goal: Goal<'a>,
) -> Result<Option<Children<'a>>, AllocError>
    ensures { IfOk result (λ left. option_map children_of left
        ≡ at_return (return_row goal.entry.state) (todo_of goal.entry.todo.items)) }
{
    let Goal { state, mut todo } = goal;
    let Some((place, owed)) = take_return(&mut todo) else {
        return Ok(None);
    };
    let todo = only_end(alloc, place)?;
    let todo = with_each_wanted(alloc, todo, place, Terms::Of(state.vars()), owed)?;
    Ok(Some(Children::One(Goal { state, todo })))
}

/// Only the end of all. An `Err` means out of memory.
fn only_end<'a>(alloc: Global, place: Place) -> Result<Vec<Item<'a>>, AllocError>
    ensures { IfOk result (λ todo. todo_of todo.items ≡ end place ∷ []) }
{
    let mut todo = Vec::with_capacity(alloc, 2)?;
    todo.push(Item::End(place))?;
    Ok(todo)
}

/// end: no atom is left.
#[inline(never)]
pub(crate) fn end<'a>(goal: Goal<'a>) -> Result<Option<Children<'a>>, AllocError>
    ensures { IfOk result (λ left. option_map children_of left
        ≡ at_end (end_row goal.entry.state) (todo_of goal.entry.todo.items)) }
{
    let Goal { state, mut todo } = goal;
    if take_end(&mut todo) && state.atoms().is_empty() {
        Ok(Some(Children::None))
    } else {
        Ok(None)
    }
}
