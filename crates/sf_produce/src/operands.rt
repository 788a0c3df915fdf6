//! Operands that are met: an existential that is met for the first time gets a fresh symbol.

ghost use Rattle.std.specs.Prelude.{◌≡◌, ◌+◌, ◌<◌, ◌≤◌, ◌^◌, [], IfOk};
ghost use Rattle.sf_produce.specs.Add.{met, met_both, met_fields, met_four};
ghost use Rattle.sf_produce.specs.Checked.Meeting.{both_of, fields_of, four_of, met_of};
ghost use Rattle.sf_sym.specs.Pending.{existentials_in, one_if_existential};

use sf_base::FieldId;
use sf_core::Operand;
use sf_sym::{FieldTerms, Pending, State, Term, term_of};
use std::alloc::{AllocError, Global};

/// The most operands that a conjunct has which is neither a cell nor a choice.
pub const OPERANDS: usize = 4;

/// The term of an operand, which is a fresh symbol where it is an existential that is met for the
/// first time.
pub(crate) fn met(state: &mut State, given: &mut Pending, x: Operand<Term>) -> Term
    requires { state.old.next_sym + one_if_existential x < 2 ^ 32 }
    ensures met { met_of state.new given.new.bindings result ≡ met state.old given.old.bindings x }
    ensures conjuncts { given.new.conjuncts ≡ given.old.conjuncts }
    ensures symbols { state.new.next_sym ≤ state.old.next_sym + one_if_existential x }
    ensures atoms { state.new.next_atom ≡ state.old.next_atom }
{
    if let Some(t) = term_of(given.bindings(), &x) {
        return t;
    }
    match x {
        Operand::Known(t) => t,
        Operand::Exists(n) => {
            let t = state.fresh_symbol();
            given.bind(n, t);
            t
        }
    }
}

/// The terms of two operands, the first known to the second.
pub(crate) fn met_both(
    state: &mut State,
    given: &mut Pending,
    x: Operand<Term>,
    y: Operand<Term>,
) -> (Term, Term)
    requires { state.old.next_sym + 2 < 2 ^ 32 }
    ensures met { both_of state.new given.new.bindings result
        ≡ met_both state.old given.old.bindings x y }
    ensures conjuncts { given.new.conjuncts ≡ given.old.conjuncts }
    ensures symbols { state.new.next_sym ≤ state.old.next_sym + 2 }
    ensures atoms { state.new.next_atom ≡ state.old.next_atom }
{
    let t = met(state, given, x);
    let u = met(state, given, y);
    (t, u)
}

/// The terms of the four operands of a doubly linked segment, each known to those behind it.
pub(crate) fn met_four(
    state: &mut State,
    given: &mut Pending,
    x: Operand<Term>,
    b: Operand<Term>,
    l: Operand<Term>,
    y: Operand<Term>,
) -> (Term, Term, Term, Term)
    requires { state.old.next_sym + OPERANDS < 2 ^ 32 }
    ensures met { four_of state.new given.new.bindings result
        ≡ met_four state.old given.old.bindings x b l y }
    ensures conjuncts { given.new.conjuncts ≡ given.old.conjuncts }
    ensures atoms { state.new.next_atom ≡ state.old.next_atom }
{
    let (v, p) = met_both(state, given, x, b);
    let (m, u) = met_both(state, given, l, y);
    (v, p, m, u)
}

/// The terms of a new cell's fields, in the order written. An `Err` means out of memory.
pub(crate) fn met_fields(
    alloc: Global,
    state: &mut State,
    given: &mut Pending,
    fields: &[(FieldId, Operand<Term>)],
) -> Result<FieldTerms, AllocError>
    requires { state.old.next_sym + existentials_in fields.now < 2 ^ 32 }
    ensures met { IfOk result (λ made. fields_of state.new given.new.bindings made
        ≡ met_fields state.old given.old.bindings fields.now []) }
    ensures conjuncts { given.new.conjuncts ≡ given.old.conjuncts }
    ensures atoms { state.new.next_atom ≡ state.old.next_atom }
{
    let mut made = FieldTerms::new(alloc);
    let mut left = fields;
    while let Some((first, rest)) = left.split_first() {
        let t = met(state, given, first.1);
        made.put(first.0, t)?;
        left = rest;
    }
    Ok(made)
}
