//! The strategy at a goal.

ghost use Rattle.std.specs.Prelude.{◌≡◌, ◌++◌, IfOk, List, false};
ghost use Rattle.std.specs.Option.{option_map};
ghost use Rattle.sf_search.specs.Checked.Choosing.{at_first, at_state};
ghost use Rattle.sf_search.specs.declared.choices.choice.Choice.{Choice as AnyChoice};
ghost use Rattle.sf_search.specs.Strategy.{or_else, strategy};
ghost use Rattle.sf_search.specs.Checked.Chooses.{at_end, at_items, chooses};
ghost use Rattle.sf_sym.specs.Goal.{Item as Thing, goal_of, items_of, todo_of};
ghost use Rattle.sf_sym.specs.Checked.Items.{is_nothing};

use crate::choices::atoms::split_or;
use crate::choices::choice::Choice;
use crate::choices::commands::at_command;
use crate::choices::given::at_given;
use crate::choices::wanted::at_want;
use sf_core::Command;
use sf_sym::{Goal, Item, State, Stuck, Tag, peek_item};
use std::alloc::{AllocError, Global};

/// What the strategy does at the goal: an absurd state is closed; then the lowest empty atom goes;
/// then the lowest atom that can only be empty is so; then the item in front decides. An `Err`
/// means out of memory, which is wanted for a wanted cell alone.
pub fn choose(alloc: Global, goal: &Goal) -> Result<Choice, AllocError>
    ensures { IfOk result (λ c. c ≡ strategy (goal_of goal.now)) }
{
    choose_nested(alloc, goal)
}

/// The same as the code says it: what is in front decides, after what is known.
fn choose_nested(alloc: Global, goal: &Goal) -> Result<Choice, AllocError>
    ensures { IfOk result (λ c. c ≡ chooses (goal_of goal.now)) }
{
    match at_state(&goal.state) {
        Some(choice) => Ok(choice),
        None => at_items(alloc, &goal.state, goal.todo.as_slice()),
    }
}

/// What it does by what is known alone.
#[tactic(auto, using(crate::proofs::Lowest::nothing_is_lowest, crate::proofs::Lowest::forced_is_lowest))]
fn at_state(state: &State) -> Option<Choice>
    ensures { (c : AnyChoice) → or_else (result) c ≡ at_state state.now c }
{
    state.is_numbered();
    if state.is_absurd() {
        return Some(Choice::Takes(Tag::Absurd));
    }
    if let Some(a) = state.droppable() {
        return Some(Choice::Takes(Tag::Drop(a)));
    }
    let (a, _, _) = state.forced()?;
    Some(Choice::Takes(Tag::Force(a)))
}

/// What it does by the item in front. An `Err` means out of memory.
fn at_items(alloc: Global, state: &State, todo: &[Item]) -> Result<Choice, AllocError>
    ensures { IfOk result (λ c. c ≡ at_items state.now (todo_of todo.now)) }
{
    match peek_item(todo) {
        Some(item) => at_item(alloc, state, item),
        None => Ok(Choice::Takes(Tag::End)),
    }
}

/// What it does at an item that is something to do. An `Err` means out of memory.
fn at_item(alloc: Global, state: &State, item: &Item) -> Result<Choice, AllocError>
    ensures { IfOk result (λ c. (rest : List Thing) → is_nothing item.now ≡ false
        → c ≡ at_items state.now (items_of item.now ++ rest)) }
{
    match item {
        Item::Run(commands) => Ok(at_run(state, commands)),
        Item::Add(_, given) => Ok(at_given(state, given)),
        Item::Take(_, want, _) => at_want(alloc, state, want),
        Item::Gave(..) => Ok(Choice::Takes(Tag::Give)),
        Item::Head(..) => Ok(Choice::Takes(Tag::Around)),
        Item::Again(..) => Ok(Choice::Takes(Tag::Again)),
        Item::Exit(..) => Ok(Choice::Takes(Tag::Exit)),
        Item::Return(..) => Ok(Choice::Takes(Tag::Return)),
        Item::End(_) => Ok(at_end(state)),
    }
}

/// What it does at commands: the first one decides.
fn at_run(state: &State, commands: &[Command]) -> Choice
    ensures { result ≡ at_first state.now commands.now }
{
    match commands.split_first() {
        Some((command, _)) => at_command(state, command),
        None => Choice::Takes(Tag::End),
    }
}

/// What it does at the end.
fn at_end(state: &State) -> Choice
    ensures { result ≡ at_end state.now state.now.atoms }
{
    if state.atoms().is_empty() {
        Choice::Takes(Tag::End)
    } else {
        split_or(state, Stuck::Leak)
    }
}
