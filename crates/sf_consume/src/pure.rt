//! Wanted equalities and inequalities, and what is wanted of no heap: these need no memory.

ghost use Rattle.std.specs.Prelude.{◌≡◌, IfNone, IfSome, None, Some};
ghost use Rattle.sf_consume.specs.Checked.Fits.{AnswersBy};
ghost use Rattle.sf_consume.specs.Subtract.{apart_step, bind_step, binding, empty_step, one_binding, same_step, stepped, unbound};

use crate::wanted::{as_equality, as_inequality, both, wanted_shape};
use sf_core::Operand;
use sf_sym::{Pending, State, Term, term_of};

/// bind: one side of an equality is an existential without a term, and gets that of the other.
/// `None` exactly where it isn't so.
pub(crate) fn bind(state: &State, want: &mut Pending) -> Option<()>
    ensures answers { AnswersBy bind_step state.now state.now want.old want.new result }
{
    let (x, y) = as_equality(want.first()?)?;
    let (n, t) = binding(want.bindings(), x, y)?;
    want.bind(n, t);
    want.take_first();
    Some(())
}

/// same: an equality of one term with itself.
pub(crate) fn same(state: &State, want: &mut Pending) -> Option<()>
    ensures answers { AnswersBy same_step state.now state.now want.old want.new result }
{
    let (x, y) = as_equality(want.first()?)?;
    let (t, u) = both(want.bindings(), x, y)?;
    if !t.is(u) {
        return None;
    }
    want.take_first();
    Some(())
}

/// apart: an inequality of terms that surely differ.
pub(crate) fn apart(state: &State, want: &mut Pending) -> Option<()>
    ensures answers { AnswersBy apart_step state.now state.now want.old want.new result }
{
    let (x, y) = as_inequality(want.first()?)?;
    let (t, u) = both(want.bindings(), x, y)?;
    if !state.differs(t, u) {
        return None;
    }
    want.take_first();
    Some(())
}

/// empty: a segment from a term to itself, or the tree of nil; of a doubly linked segment the last
/// cell is what stands before it, too.
pub(crate) fn empty(state: &State, want: &mut Pending) -> Option<()>
    ensures answers { AnswersBy empty_step state.now state.now want.old want.new result }
{
    let wanted = wanted_shape(want.bindings(), want.first()?)?;
    if !wanted.is_nothing() {
        return None;
    }
    want.take_first();
    Some(())
}

/// One side of an equality is an existential without a term, and the other has one: its number, and
/// that term.
pub(crate) fn binding(
    bindings: &[Option<Term>],
    x: Operand<Term>,
    y: Operand<Term>,
) -> Option<(u32, Term)>
    ensures { result ≡ binding bindings.now x y }
{
    match one_binding(bindings, x, y) {
        Some(b) => Some(b),
        None => one_binding(bindings, y, x),
    }
}

/// The same, where the first side is the existential.
fn one_binding(bindings: &[Option<Term>], x: Operand<Term>, y: Operand<Term>) -> Option<(u32, Term)>
    ensures { result ≡ one_binding bindings.now x y }
{
    let n = unbound(bindings, x)?;
    let t = term_of(bindings, &y)?;
    Some((n, t))
}

/// The number of an existential that has no term yet.
fn unbound(bindings: &[Option<Term>], x: Operand<Term>) -> Option<u32>
    ensures { result ≡ unbound bindings.now x }
{
    match x {
        Operand::Known(_) => None,
        Operand::Exists(n) => {
            match term_of(bindings, &x) {
                Some(_) => None,
                None => Some(n),
            }
        }
    }
}
