//! Commands.

ghost use Rattle.std.specs.Prelude.{◌≡◌};
ghost use Rattle.sf_core.specs.Program.View.{command_of};
ghost use Rattle.sf_search.specs.declared.choices.choice.Choice.TheVariants.{Takes as takes};
ghost use Rattle.sf_sym.specs.declared.stuck.Stuck.TheVariants.{NoCell as no_cell};
ghost use Rattle.sf_search.specs.Checked.Chooses.{at_cell, at_command};
ghost use Rattle.sf_sym.specs.declared.tag.Tag.TheVariants.{Dispose, Look, Mutate};

use crate::choices::atoms::at_cell;
use crate::choices::branches::at_test;
use crate::choices::choice::Choice;
use sf_core::Command;
use sf_rules::command_test;
use sf_sym::{State, Stuck, Tag, Term};

/// What the strategy does at a command.
pub(crate) fn at_command(state: &State, command: &Command) -> Choice
    ensures { result ≡ at_command state.now (command_of command.now) }
{
    match command {
        Command::Assign(..) => Choice::Takes(Tag::Assign),
        Command::LookUp(_, _, e, _) => at_look_up(state, state.term(e)),
        Command::Mutate(_, e, _, _) => at_mutation(state, state.term(e)),
        Command::New(..) => Choice::Takes(Tag::New),
        Command::Dispose(_, e) => at_disposal(state, state.term(e)),
        Command::If(_, test, _, _) => at_test(state, &command_test(state, test)),
        Command::While(..) => Choice::Takes(Tag::Loop),
        Command::Call(..) => Choice::Takes(Tag::Call),
        Command::Fork(..) => Choice::Takes(Tag::Fork),
        Command::With(..) => Choice::Takes(Tag::Enter),
    }
}

/// A field of the lowest cell at the term is read.
#[tactic(auto, using(crate::proofs::Lowest::cell_there, crate::proofs::Lowest::no_cell_there))]
fn at_look_up(state: &State, t: Term) -> Choice
    ensures { result ≡ at_cell state.now t (λ a. takes (Look a)) no_cell }
{
    match at_cell(state, t, Stuck::NoCell) {
        Ok(a) => Choice::Takes(Tag::Look(a)),
        Err(choice) => choice,
    }
}

/// A field of the lowest cell at the term is written.
#[tactic(auto, using(crate::proofs::Lowest::cell_there, crate::proofs::Lowest::no_cell_there))]
fn at_mutation(state: &State, t: Term) -> Choice
    ensures { result ≡ at_cell state.now t (λ a. takes (Mutate a)) no_cell }
{
    match at_cell(state, t, Stuck::NoCell) {
        Ok(a) => Choice::Takes(Tag::Mutate(a)),
        Err(choice) => choice,
    }
}

/// The lowest cell at the term goes.
#[tactic(auto, using(crate::proofs::Lowest::cell_there, crate::proofs::Lowest::no_cell_there))]
fn at_disposal(state: &State, t: Term) -> Choice
    ensures { result ≡ at_cell state.now t (λ a. takes (Dispose a)) no_cell }
{
    match at_cell(state, t, Stuck::NoCell) {
        Ok(a) => Choice::Takes(Tag::Dispose(a)),
        Err(choice) => choice,
    }
}
