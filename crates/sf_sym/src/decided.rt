//! Which terms operands have, and which tests of terms a state decides.

ghost use Rattle.std.specs.Prelude.{◌≡◌};
ghost use Rattle.sf_sym.specs.Decided.{term_of};

use crate::term::Term;
use sf_core::Operand;

/// The term of an operand that has one, what its existentials stand for being known.
pub fn term_of(bindings: &[Option<Term>], x: &Operand<Term>) -> Option<Term>
    ensures { result ≡ term_of bindings.now x.now }
{
    match x {
        Operand::Known(t) => Some(*t),
        Operand::Exists(n) => *bindings.get(*n as usize)?,
    }
}
