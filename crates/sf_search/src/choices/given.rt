//! What is to be assumed.

ghost use Rattle.std.specs.Prelude.{◌≡◌};
ghost use Rattle.sf_search.specs.Checked.Chooses.{at_given};
ghost use Rattle.sf_sym.specs.Pending.{pending_of};

use crate::choices::branches::at_choice;
use crate::choices::choice::Choice;
use sf_core::Conjunct;
use sf_sym::{Pending, State, Tag};

/// What the strategy does at conjuncts to assume: the first is assumed, unless it is a choice.
pub(crate) fn at_given(state: &State, given: &Pending) -> Choice
    ensures { result
        ≡ at_given state.now given.now.bindings (pending_of given.now).conjuncts }
{
    match given.first() {
        Some(Conjunct::If(_, test, _, _)) => at_choice(state, given.bindings(), test),
        _ => Choice::Takes(Tag::Add),
    }
}
