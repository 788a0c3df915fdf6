//! Choices, as commands or among conjuncts, by their test.

ghost use Rattle.std.specs.Prelude.{◌≡◌};
ghost use Rattle.sf_search.specs.Checked.Chooses.{at_choice, at_test};

use crate::choices::atoms::split_or;
use crate::choices::choice::Choice;
use sf_core::{Operand, Test};
use sf_rules::{is_decided, test_of_terms};
use sf_sym::{State, Stuck, Tag, Term};

/// By a test: the branch for which it is decided, and else its two terms are split.
pub(crate) fn at_test(state: &State, test: &Test<Term>) -> Choice
    ensures { result ≡ at_test state.now test.now }
{
    if is_decided(true, state, test) {
        return Choice::Takes(Tag::Then);
    }
    if is_decided(false, state, test) {
        return Choice::Takes(Tag::Else);
    }
    match test {
        Test::True => Choice::Takes(Tag::Then),
        Test::Equal(t, u) | Test::Differ(t, u) => Choice::Takes(Tag::Split(*t, *u)),
    }
}

/// At a choice among conjuncts with that test.
pub(crate) fn at_choice(
    state: &State,
    bindings: &[Option<Term>],
    test: &Test<Operand<Term>>,
) -> Choice
    ensures { result ≡ at_choice state.now bindings.now test.now }
{
    match test_of_terms(bindings, test) {
        Some(test) => at_test(state, &test),
        None => split_or(state, Stuck::NotEqual),
    }
}
