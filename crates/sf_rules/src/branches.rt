//! Rows of choices, as commands, among what is assumed and among what is to be shown: then, else.

ghost use Rattle.std.specs.Prelude.{◌≡◌, ◌++◌, ◌∷◌, cond, IfOk};
ghost use Rattle.std.specs.Option.{option_map};
ghost use Rattle.sf_core.specs.Program.View.{block_of, command_of};
ghost use Rattle.sf_rules.specs.Checked.Children.{children_of};
ghost use Rattle.sf_rules.specs.Checked.Rows.Branches.{branch_row, chosen};
ghost use Rattle.sf_sym.specs.Goal.{add, run, take, to_run, todo_of};
ghost use Rattle.sf_sym.specs.Pending.{pending_of};

use crate::children::Children;
use crate::decided::{command_test, is_decided, test_of_terms};
use crate::front::{Front, take_front};
use sf_base::{Name, Place};
use sf_core::{Command, Conjunct, Level};
use sf_sym::{Goal, Item, Pending, State, Term, with_add, with_take};
use std::alloc::AllocError;

/// then where `so`, else: a choice goes where its test is decided so, and its branch for that takes
/// its place. `None` exactly where there is no row; an `Err` means out of memory.
#[inline(never)]
pub(crate) fn branch<'a>(so: bool, goal: Goal<'a>) -> Result<Option<Children<'a>>, AllocError>
    ensures { IfOk result (λ left. option_map children_of left
        ≡ branch_row so goal.entry.state (todo_of goal.entry.todo.items)) }
{
    let Goal { state, mut todo } = goal;
    let Some(front) = take_front(&mut todo)? else {
        return Ok(None);
    };
    match front {
        Front::Command(c) => branch_of_command(so, state, todo, c),
        Front::Add(place, given) => branch_of_add(so, state, todo, place, given),
        Front::Take(place, want, names) => branch_of_take(so, state, todo, place, want, names),
        Front::Gave(..) | Front::Head(..) | Front::Again(..) => Ok(None),
        Front::Exit(..) | Front::Return(..) | Front::End(_) => Ok(None),
    }
}

/// The same of a command in front of these items.
fn branch_of_command<'a>(
    so: bool,
    state: State,
    mut todo: Vec<Item<'a>>,
    c: &'a Command,
) -> Result<Option<Children<'a>>, AllocError>
    ensures { IfOk result (λ left. option_map children_of left
        ≡ branch_row so state (run (command_of c.now) ∷ todo_of todo.entry.items)) }
{
    let Command::If(_, test, this, that) = c else {
        return Ok(None);
    };
    if !is_decided(so, &state, &command_test(&state, test)) {
        return Ok(None);
    }
    todo.push(Item::Run(block(so, this, that)))?;
    Ok(Some(Children::One(Goal { state, todo })))
}

/// The same of conjuncts to assume in front of these items.
fn branch_of_add<'a>(
    so: bool,
    state: State,
    todo: Vec<Item<'a>>,
    place: Place,
    given: Pending,
) -> Result<Option<Children<'a>>, AllocError>
    ensures { IfOk result (λ left. option_map children_of left
        ≡ branch_row so state (add place (pending_of given) ∷ todo_of todo.entry.items)) }
{
    let Some(given) = chosen(so, &state, given)? else {
        return Ok(None);
    };
    let todo = with_add(todo, place, given)?;
    Ok(Some(Children::One(Goal { state, todo })))
}

/// The same of conjuncts to show in front of these items.
fn branch_of_take<'a>(
    so: bool,
    state: State,
    todo: Vec<Item<'a>>,
    place: Place,
    want: Pending,
    names: &'a [Name],
) -> Result<Option<Children<'a>>, AllocError>
    ensures { IfOk result (λ left. option_map children_of left
        ≡ branch_row so state (take place (pending_of want) names.now ∷ todo_of todo.entry.items)) }
{
    let Some(want) = chosen(so, &state, want)? else {
        return Ok(None);
    };
    let todo = with_take(todo, place, want, names)?;
    Ok(Some(Children::One(Goal { state, todo })))
}

/// The conjuncts with the branch for that of the first, a choice, in its place. `None` exactly
/// where the first is none, or its test isn't decided so; an `Err` means out of memory.
fn chosen(so: bool, state: &State, mut given: Pending) -> Result<Option<Pending>, AllocError>
    ensures { IfOk result (λ r. option_map pending_of r
        ≡ chosen so state.now (pending_of given) (pending_of given).conjuncts) }
{
    let Some(c) = given.take_first() else {
        return Ok(None);
    };
    let Conjunct::If(_, test, this, that) = c else {
        return Ok(None);
    };
    let Some(test) = test_of_terms(given.bindings(), &test) else {
        return Ok(None);
    };
    if !is_decided(so, state, &test) {
        return Ok(None);
    }
    given.put_before(level(so, this, that).conjuncts)?;
    Ok(Some(given))
}

/// The first block where `so`, else the second.
fn block<'a>(so: bool, this: &'a [Command], that: &'a [Command]) -> &'a [Command]
    ensures { result.now ≡ cond so this.now that.now }
{
    if so { this } else { that }
}

/// The first level where `so`, else the second.
fn level(so: bool, this: Level<Term>, that: Level<Term>) -> Level<Term>
    ensures { result ≡ cond so this that }
{
    if so { this } else { that }
}
