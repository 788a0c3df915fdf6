//! Which tests a state decides.

ghost use Rattle.std.specs.Prelude.{◌≡◌};
ghost use Rattle.sf_sym.specs.Decided.{command_test, is_decided, test_of_terms};
ghost use Rattle.sf_sym.specs.State.{term};

use sf_core::{Expr, Operand, Test};
use sf_sym::{State, Term, term_of};

/// Whether the state decides the test so: true, or false.
pub fn is_decided(so: bool, state: &State, test: &Test<Term>) -> bool
    ensures { result ≡ is_decided so state.now test.now }
{
    match test {
        Test::True => so,
        Test::Equal(t, u) => { if so { t.is(*u) } else { state.differs(*t, *u) } }
        Test::Differ(t, u) => { if so { state.differs(*t, *u) } else { t.is(*u) } }
    }
}

/// A test of operands with their terms, where each has one.
pub fn test_of_terms(bindings: &[Option<Term>], test: &Test<Operand<Term>>) -> Option<Test<Term>>
    ensures { result ≡ test_of_terms bindings.now test.now }
{
    match test {
        Test::True => Some(Test::True),
        Test::Equal(x, y) => {
            let t = term_of(bindings, x)?;
            let u = term_of(bindings, y)?;
            Some(Test::Equal(t, u))
        }
        Test::Differ(x, y) => {
            let t = term_of(bindings, x)?;
            let u = term_of(bindings, y)?;
            Some(Test::Differ(t, u))
        }
    }
}

/// A command's test with the terms that the variables have now.
pub fn command_test(state: &State, test: &Test<Expr>) -> Test<Term>
    ensures { result ≡ command_test (term state.now.vars) test.now }
{
    match test {
        Test::True => Test::True,
        Test::Equal(x, y) => Test::Equal(state.term(x), state.term(y)),
        Test::Differ(x, y) => Test::Differ(state.term(x), state.term(y)),
    }
}
