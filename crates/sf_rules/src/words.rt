//! Where the terms of an annotation's expressions are from, and annotations as conjuncts to assume
//! or to show.

ghost use Rattle.std.specs.Prelude.{◌≡◌, ◌++◌, [], IfOk, map};
ghost use Rattle.sf_core.specs.Program.View.{assertion_of, call_of};
ghost use Rattle.sf_rules.specs.Checked.Terms.{terms_of};
ghost use Rattle.sf_rules.specs.Callee.{callee_term, own_term};
ghost use Rattle.sf_rules.specs.Words.{pending_assertion, test_conjuncts, to_add, to_add_test, to_take, to_take_each};
ghost use Rattle.sf_sym.specs.Goal.{todo_of};
ghost use Rattle.sf_sym.specs.Pending.{pending_of};
ghost use Rattle.sf_sym.specs.State.{term_at};

use crate::terms::{term_of, unbound, with_terms};
use sf_base::{Place, Var};
use sf_core::{Assertion, Call, Conjunct, Expr, Occurrence, Operand, Ordered, Test};
use sf_sym::{Item, Pending, Term, term_at, with_add, with_take};
use std::alloc::{AllocError, Global};

/// Where the terms of expressions are from.
#[derive(Clone, Copy)]
pub(crate) enum Terms<'a> {
    /// The terms of these variables.
    Of(&'a [(Var, Term)]),
    /// Those of a callee's variables, where the caller's variables have these terms: the call, and
    /// the terms of its values.
    OfCallee(&'a [(Var, Term)], &'a Call, &'a [Term]),
}

impl Terms<'_> {
    /// The term of an expression.
    pub(crate) fn of(self, e: &Expr) -> Term
        ensures { result ≡ terms_of self.entry e.now }
    {
        match self {
            Terms::Of(vars) => term_of(vars, e),
            Terms::OfCallee(vars, call, values) => match e {
                Expr::Var(x) => callee_term(vars, call, values, x.var),
                Expr::Nil => Term::Nil,
                Expr::Int(i) => Term::Int(*i),
            },
        }
    }
}

/// The term of a callee's variable, where the caller's variables have these terms and the values
/// those. `Nil` where the call has neither a reference nor a value for it.
fn callee_term(vars: &[(Var, Term)], call: &Call, values: &[Term], x: Var) -> Term
    ensures { result ≡ callee_term (term_at vars.now) (call_of call.now) values.now x }
{
    match x {
        Var::Own(i) => own_term(vars, &call.references, values, i as usize),
        Var::Shared(..) => term_at(vars, x),
    }
}

/// The term of the callee's own variable of that number: that of the caller's variable for a
/// reference, and those of the values after them.
fn own_term(vars: &[(Var, Term)], references: &[Occurrence], values: &[Term], i: usize) -> Term
    ensures { result ≡ own_term (term_at vars.now) references.now values.now i }
{
    if let Some(x) = references.get(i) {
        return term_at(vars, x.var);
    }
    match values.get(i - references.len()) {
        Some(t) => *t,
        None => Term::Nil,
    }
}

/// The conjuncts of an assertion with those terms, none of its existentials having one. An `Err`
/// means out of memory.
pub(crate) fn pending(alloc: Global, terms: Terms<'_>, a: &Assertion) -> Result<Pending, AllocError>
    ensures { IfOk result (λ given. pending_of given
        ≡ pending_assertion (terms_of terms.entry) (assertion_of a.now)) }
{
    let conjuncts = with_terms(alloc, terms, &a.level.conjuncts)?;
    Ok(Pending::new(conjuncts, unbound(alloc, a.names.len())?))
}

/// Puts an assertion to assume first, with those terms. An `Err` means out of memory.
pub(crate) fn with_assumed<'a>(
    alloc: Global,
    todo: Vec<Item<'a>>,
    place: Place,
    terms: Terms<'_>,
    a: &Assertion,
) -> Result<Vec<Item<'a>>, AllocError>
    ensures { IfOk result (λ r. todo_of r.items
        ≡ to_add place (terms_of terms.entry) (assertion_of a.now) ++ todo_of todo.entry.items) }
{
    let given = pending(alloc, terms, a)?;
    let todo = with_add(todo, place, given)?;
    Ok(todo)
}

/// Puts an assertion to show first, with those terms. An `Err` means out of memory.
pub(crate) fn with_wanted<'a>(
    alloc: Global,
    todo: Vec<Item<'a>>,
    place: Place,
    terms: Terms<'_>,
    a: &'a Assertion,
) -> Result<Vec<Item<'a>>, AllocError>
    ensures { IfOk result (λ r. todo_of r.items
        ≡ to_take place (terms_of terms.entry) (assertion_of a.now) ++ todo_of todo.entry.items) }
{
    let want = pending(alloc, terms, a)?;
    let todo = with_take(todo, place, want, &a.names)?;
    Ok(todo)
}

/// Puts assertions to show first, one after the other, with those terms. An `Err` means out of
/// memory.
pub(crate) fn with_each_wanted<'a>(
    alloc: Global,
    mut todo: Vec<Item<'a>>,
    place: Place,
    terms: Terms<'_>,
    owed: &'a [Ordered],
) -> Result<Vec<Item<'a>>, AllocError>
    ensures { IfOk result (λ r. todo_of r.items ≡ to_take_each place (terms_of terms.entry)
        (map (λ o. assertion_of o.assertion) owed.now) (todo_of todo.entry.items)) }
{
    let mut left = owed;
    while let Some((last, rest)) = left.split_last() {
        todo = with_wanted(alloc, todo, place, terms, &last.assertion)?;
        left = rest;
    }
    Ok(todo)
}

/// Puts a test to assume first, with those terms. An `Err` means out of memory.
pub(crate) fn with_test<'a>(
    alloc: Global,
    todo: Vec<Item<'a>>,
    place: Place,
    terms: Terms<'_>,
    test: &Test<Expr>,
) -> Result<Vec<Item<'a>>, AllocError>
    ensures { IfOk result (λ r. todo_of r.items
        ≡ to_add_test place (terms_of terms.entry) test.now ++ todo_of todo.entry.items) }
{
    let given = pending_test(alloc, place, terms, test)?;
    let todo = with_add(todo, place, given)?;
    Ok(todo)
}

/// A test as conjuncts, with those terms: none, if it is always true. An `Err` means out of memory.
fn pending_test(
    alloc: Global,
    place: Place,
    terms: Terms<'_>,
    test: &Test<Expr>,
) -> Result<Pending, AllocError>
    ensures { IfOk result (λ given. pending_of given ≡ record {
      conjuncts = test_conjuncts place (terms_of terms.entry) test.now;
      bindings = [];
    }) }
{
    let mut conjuncts = Vec::new(alloc);
    match test {
        Test::True => {}
        Test::Equal(e, d) => {
            let both = Test::Equal(Operand::Known(terms.of(e)), Operand::Known(terms.of(d)));
            conjuncts.push(Conjunct::Holds(place, both))?;
        }
        Test::Differ(e, d) => {
            let both = Test::Differ(Operand::Known(terms.of(e)), Operand::Known(terms.of(d)));
            conjuncts.push(Conjunct::Holds(place, both))?;
        }
    }
    Ok(Pending::new(conjuncts, Vec::new(alloc)))
}
