//! Rows of calls: call, fork, give.

ghost use Rattle.std.specs.Prelude.{◌≡◌, ◌+◌, ◌++◌, ◌∷◌, [], ◌<◌, ◌≤◌, ◌^◌, IfNone, IfOk, IfSome, IsTrue, None, Some, false, length, map, nat_lt, true};
ghost use Rattle.std.specs.List.{slice_get};
ghost use Rattle.std.specs.Option.{option_map};
ghost use Rattle.sf_calls.specs.Changes.{changed};
ghost use Rattle.sf_core.specs.Program.Syntax.{Procedure};
ghost use Rattle.sf_core.specs.Program.View.{assertion_of, call_of};
ghost use Rattle.sf_precise.specs.Order.{IsOrdering};
ghost use Rattle.sf_rules.specs.Checked.Children.{children_of};
ghost use Rattle.sf_rules.specs.Checked.Rows.Calls.{call_row, called_with, fork_row, forked_with, give_row};
ghost use Rattle.sf_rules.specs.Callee.{term_after, term_before};
ghost use Rattle.sf_rules.specs.Checked.Rows.Front.{at_command, at_gave};
ghost use Rattle.sf_rules.specs.Setting.{Setting, setting_of};
ghost use Rattle.sf_rules.specs.Rules.{has_numbers};
ghost use Rattle.sf_rules.specs.Words.{to_add, to_take};
ghost use Rattle.sf_sym.specs.Goal.{gave, todo_of};
ghost use Rattle.sf_sym.specs.State.{term};
ghost use Rattle.sf_sym.specs.Variables.{fresh_for};

use crate::children::Children;
use crate::few::TOO_MANY;
use crate::front::{take_command, take_gave};
use crate::left::Left;
use crate::terms::term_of;
use crate::words::{Terms, with_assumed, with_wanted};
use sf_base::{Place, ProcId, Var};
use sf_calls::Calls;
use sf_core::{Assertion, Call, Command, Expr};
use sf_precise::Arranged;
use sf_sym::{Goal, Item, State, Term, fresh_for};
use std::alloc::{AllocError, Global};

/// What a procedure asks for and promises, in order.
#[derive(Clone, Copy)]
struct Contract<'a> {
    pre: &'a Assertion,
    post: &'a Assertion,
}

/// The contract of the procedure of that number. `None` exactly where there is no such procedure.
fn contract_of<'a>(arranged: &'a Arranged, f: ProcId) -> Option<Contract<'a>>
    ghost d: { Setting }
    requires ordered { IsOrdering d.ordered }
    requires setting { d ≡ setting_of d.ordered arranged.now }
    ensures some { IfSome result (λ x. (g : Procedure)
        × (slice_get d.program.procedures f.0 ≡ Some g)
        × (assertion_of x.pre.now ≡ d.ordered g.pre)
        × (assertion_of x.post.now ≡ d.ordered g.post)) }
    ensures none { IfNone result (slice_get d.program.procedures f.0 ≡ None) }
{
    if (f.0 as usize) >= arranged.program.procedures.len() {
        return None;
    }
    Some(Contract {
        pre: &arranged.pre(f).assertion,
        post: &arranged.post(f).assertion,
    })
}

/// call: the precondition is due, then what the call may change is unknown, and the postcondition
/// is assumed.
#[inline(never)]
pub(crate) fn call<'a>(alloc: Global, arranged: &'a Arranged, goal: Goal<'a>) -> Left<'a>
    ghost d: { Setting }
    requires ordered { IsOrdering d.ordered }
    requires setting { d ≡ setting_of d.ordered arranged.now }
    requires numbers { IsTrue (has_numbers goal.state) }
    ensures { IfOk result (λ left. option_map children_of left
        ≡ at_command (call_row d goal.entry.state) (todo_of goal.entry.todo.items)) }
{
    let Goal { state, mut todo } = goal;
    let Some(c) = take_command(&mut todo)? else {
        return Ok(None);
    };
    let Command::Call(place, call) = c else {
        return Ok(None);
    };
    let Some(contract) = contract_of(arranged, call.callee) else {
        return Ok(None);
    };
    call_one(
        alloc,
        &arranged.calls,
        Goal { state, todo },
        *place,
        call,
        contract,
    )
}

/// A call of a procedure with that contract.
fn call_one<'a>(
    alloc: Global,
    calls: &Calls,
    goal: Goal<'a>,
    place: Place,
    call: &'a Call,
    contract: Contract<'a>,
) -> Left<'a>
    requires { IsTrue (has_numbers goal.state) }
    ensures { IfOk result (λ left. option_map children_of left
        ≡ called_with calls.now goal.entry.state place (call_of call.now)
        (assertion_of contract.entry.pre.now) (assertion_of contract.entry.post.now)
        (todo_of goal.entry.todo.items)) }
{
    let Goal { mut state, todo } = goal;
    let Some(set) = unknown_after(alloc, calls, state.next_sym(), call)? else {
        return Ok(None);
    };
    let count = set.len() as u32;
    let todo = with_outcome(alloc, todo, place, &state, set, call, contract.post)?;
    let todo = with_pre(alloc, todo, &state, call, contract.pre)?;
    state.add_symbols(count);
    Ok(Some(Children::One(Goal { state, todo })))
}

/// fork: both preconditions are due, then what the calls may change is unknown, and both
/// postconditions are assumed.
#[inline(never)]
pub(crate) fn fork<'a>(alloc: Global, arranged: &'a Arranged, goal: Goal<'a>) -> Left<'a>
    ghost d: { Setting }
    requires ordered { IsOrdering d.ordered }
    requires setting { d ≡ setting_of d.ordered arranged.now }
    requires numbers { IsTrue (has_numbers goal.state) }
    ensures { IfOk result (λ left. option_map children_of left
        ≡ at_command (fork_row d goal.entry.state) (todo_of goal.entry.todo.items)) }
{
    let Goal { state, mut todo } = goal;
    let Some(c) = take_command(&mut todo)? else {
        return Ok(None);
    };
    let Command::Fork(place, left, right) = c else {
        return Ok(None);
    };
    let Some(one) = contract_of(arranged, left.callee) else {
        return Ok(None);
    };
    let Some(two) = contract_of(arranged, right.callee) else {
        return Ok(None);
    };
    let goal = Goal { state, todo };
    call_two(
        alloc,
        &arranged.calls,
        goal,
        *place,
        (left, one),
        (right, two),
    )
}

/// Two calls at once, each of a procedure with its contract.
fn call_two<'a>(
    alloc: Global,
    calls: &Calls,
    goal: Goal<'a>,
    place: Place,
    left: (&'a Call, Contract<'a>),
    right: (&'a Call, Contract<'a>),
) -> Left<'a>
    requires { IsTrue (has_numbers goal.state) }
    ensures { IfOk result (λ goals. option_map children_of goals
        ≡ forked_with calls.now goal.entry.state place
        (call_of left.entry.0.now) (call_of right.entry.0.now)
        (assertion_of left.entry.1.pre.now) (assertion_of left.entry.1.post.now)
        (assertion_of right.entry.1.pre.now) (assertion_of right.entry.1.post.now)
        (todo_of goal.entry.todo.items)) }
{
    let Goal { mut state, todo } = goal;
    let (one, two) = (left.0, right.0);
    let Some(set) = unknown_after_both(alloc, calls, state.next_sym(), one, two)? else {
        return Ok(None);
    };
    let count = (set.0.len() + set.1.len()) as u32;
    let todo = with_outcomes(alloc, todo, place, &state, set, left, right)?;
    let todo = with_pre(alloc, todo, &state, two, right.1.pre)?;
    let todo = with_pre(alloc, todo, &state, one, left.1.pre)?;
    state.add_symbols(count);
    Ok(Some(Children::One(Goal { state, todo })))
}

/// A symbol, from that number on, for each variable that the call may change. `None` exactly where
/// it may change too many.
fn unknown_after(
    alloc: Global,
    calls: &Calls,
    from: u32,
    call: &Call,
) -> Result<Option<Vec<(Var, Term)>>, AllocError>
    requires { from + TOO_MANY ≤ 2 ^ 32 }
    ensures some { IfOk result (λ found. IfSome found (λ set.
        (set.items ≡ fresh_for from (changed calls.now (call_of call.now)))
        × (length set.items < TOO_MANY))) }
    ensures none { IfOk result (λ found. IfNone found
        (nat_lt (length (fresh_for from (changed calls.now (call_of call.now)))) TOO_MANY
        ≡ false)) }
{
    let changed = calls.changed(alloc, call)?;
    if changed.len() >= TOO_MANY {
        return Ok(None);
    }
    let set = fresh_for(alloc, from, &changed)?;
    Ok(Some(set))
}

/// The same of two calls, the second's symbols after the first's. `None` exactly where they may
/// change too many together.
fn unknown_after_both(
    alloc: Global,
    calls: &Calls,
    from: u32,
    left: &Call,
    right: &Call,
) -> Result<Option<(Vec<(Var, Term)>, Vec<(Var, Term)>)>, AllocError>
    requires { from + TOO_MANY ≤ 2 ^ 32 }
    ensures some { IfOk result (λ found. IfSome found (λ both.
        (both.0.items ≡ fresh_for from (changed calls.now (call_of left.now)))
        × (both.1.items
        ≡ fresh_for (from + length both.0.items) (changed calls.now (call_of right.now)))
        × (length both.0.items + length both.1.items < TOO_MANY))) }
    ensures none { IfOk result (λ found. IfNone found
        (nat_lt (length (fresh_for from (changed calls.now (call_of left.now))
        ++ fresh_for (from + length (fresh_for from (changed calls.now (call_of left.now))))
        (changed calls.now (call_of right.now)))) TOO_MANY ≡ false)) }
{
    let one = calls.changed(alloc, left)?;
    let two = calls.changed(alloc, right)?;
    if one.len() >= TOO_MANY || two.len() >= TOO_MANY - one.len() {
        return Ok(None);
    }
    let first = fresh_for(alloc, from, &one)?;
    let second = fresh_for(alloc, from + one.len() as u32, &two)?;
    Ok(Some((first, second)))
}

/// Puts what a call's procedure asks for first, to show, by the terms that its variables have
/// before the call. An `Err` means out of memory.
fn with_pre<'a>(
    alloc: Global,
    todo: Vec<Item<'a>>,
    state: &State,
    call: &Call,
    pre: &'a Assertion,
) -> Result<Vec<Item<'a>>, AllocError>
    ensures { IfOk result (λ r. todo_of r.items
        ≡ to_take call.now.place (term_before state.now (call_of call.now)) (assertion_of pre.now)
        ++ todo_of todo.entry.items) }
{
    let values = values_of(alloc, state.vars(), &call.values)?;
    let terms = Terms::OfCallee(state.vars(), call, &values);
    let todo = with_wanted(alloc, todo, call.place, terms, pre)?;
    Ok(todo)
}

/// Puts what a call's procedure promises first, to assume, by the terms that its variables have
/// after the call, where what it may change has these terms. An `Err` means out of memory.
fn with_post<'a>(
    alloc: Global,
    todo: Vec<Item<'a>>,
    place: Place,
    state: &State,
    set: &[(Var, Term)],
    call: &Call,
    post: &Assertion,
) -> Result<Vec<Item<'a>>, AllocError>
    ensures { IfOk result (λ r. todo_of r.items
        ≡ to_add place (term_after state.now set.now (call_of call.now)) (assertion_of post.now)
        ++ todo_of todo.entry.items) }
{
    let values = values_of(alloc, state.vars(), &call.values)?;
    let after = state.vars_after(alloc, set)?;
    let terms = Terms::OfCallee(&after, call, &values);
    let todo = with_assumed(alloc, todo, place, terms, post)?;
    Ok(todo)
}

/// Puts a call's outcome first: what it may change has these terms, and what its procedure promises
/// is assumed. An `Err` means out of memory.
fn with_outcome<'a>(
    alloc: Global,
    todo: Vec<Item<'a>>,
    place: Place,
    state: &State,
    set: Vec<(Var, Term)>,
    call: &Call,
    post: &Assertion,
) -> Result<Vec<Item<'a>>, AllocError>
    ensures { IfOk result (λ r. todo_of r.items ≡ gave place set.items []
        ∷ (to_add place (term_after state.now set.items (call_of call.now)) (assertion_of post.now)
        ++ todo_of todo.entry.items)) }
{
    let mut todo = with_post(alloc, todo, place, state, &set, call, post)?;
    todo.push(Item::Gave(place, set, Vec::new(alloc)))?;
    Ok(todo)
}

/// Puts the outcome of two calls first: what each may change has these terms, and what both
/// procedures promise is assumed. An `Err` means out of memory.
fn with_outcomes<'a>(
    alloc: Global,
    todo: Vec<Item<'a>>,
    place: Place,
    state: &State,
    set: (Vec<(Var, Term)>, Vec<(Var, Term)>),
    left: (&Call, Contract<'_>),
    right: (&Call, Contract<'_>),
) -> Result<Vec<Item<'a>>, AllocError>
    ensures { IfOk result (λ r. todo_of r.items ≡ gave place (set.0.items ++ set.1.items) []
        ∷ (to_add place (term_after state.now set.0.items (call_of left.entry.0.now))
        (assertion_of left.entry.1.post.now)
        ++ (to_add place (term_after state.now set.1.items (call_of right.entry.0.now))
        (assertion_of right.entry.1.post.now) ++ todo_of todo.entry.items))) }
{
    let (first, second) = set;
    let todo = with_post(alloc, todo, place, state, &second, right.0, right.1.post)?;
    let todo = with_post(alloc, todo, place, state, &first, left.0, left.1.post)?;
    let todo = with_set(alloc, todo, place, first, &second)?;
    Ok(todo)
}

/// Puts first that variables have these terms, and more have those. An `Err` means out of memory.
fn with_set<'a>(
    alloc: Global,
    mut todo: Vec<Item<'a>>,
    place: Place,
    mut set: Vec<(Var, Term)>,
    more: &[(Var, Term)],
) -> Result<Vec<Item<'a>>, AllocError>
    ensures { IfOk result (λ r. todo_of r.items
        ≡ gave place (set.items ++ more.now) [] ∷ todo_of todo.entry.items) }
{
    set.extend_from_slice(more)?;
    todo.push(Item::Gave(place, set, Vec::new(alloc)))?;
    Ok(todo)
}

/// The terms of a call's values. An `Err` means out of memory.
fn values_of(alloc: Global, vars: &[(Var, Term)], values: &[Expr]) -> Result<Vec<Term>, AllocError>
    ensures { IfOk result (λ terms. terms.items ≡ map (term vars.now) values.now) }
{
    let mut terms = Vec::with_capacity(alloc, values.len())?;
    for e in values {
        terms.push(term_of(vars, e))?;
    }
    Ok(terms)
}

/// give: what was taken is gone for good, and variables are set and removed.
#[inline(never)]
pub(crate) fn give<'a>(mut goal: Goal<'a>) -> Left<'a>
    ensures { IfOk result (λ left. option_map children_of left
        ≡ at_gave (give_row goal.entry.state) (todo_of goal.entry.todo.items)) }
{
    let Some((set, removed)) = take_gave(&mut goal.todo) else {
        return Ok(None);
    };
    goal.state.set_vars(&set)?;
    goal.state.remove_vars(&removed);
    goal.state.clear_taken();
    Ok(Some(Children::One(goal)))
}
