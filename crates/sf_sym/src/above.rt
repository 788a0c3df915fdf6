//! A number above the symbols of conjuncts or atoms: a symbol that isn't below it occurs in none of
//! them.

ghost use Rattle.std.specs.Prelude.{◌≡◌, ◌≤◌, ◌<◌, ℕ, None, Some, get_or};
ghost use Rattle.sf_core.specs.Assertions.Occurs.{OccursIn, OccursInFields, OccursInOne, OccursInTest};
ghost use Rattle.sf_core.specs.Program.View.{conjunct_of, level_of};
ghost use Rattle.sf_sym.specs.Below.{AllInAtom, AllPaired, IsBelow};
ghost use Rattle.sf_sym.specs.Checked.Above.{ConjunctsBelow, OccurBelow};
ghost use Rattle.sf_sym.specs.declared.term.Term.{Term as TermOf};

use crate::atom::Atom;
use crate::term::Term;
use sf_base::FieldId;
use sf_core::{Conjunct, Level, Operand, Test};

/// A number that isn't below `least`, and is above the symbol if the term is one.
pub(crate) fn above_term(least: u64, t: Term) -> u64
    ensures least { least ≤ result }
    ensures below { IsBelow result t }
{
    match t {
        Term::Nil | Term::Int(_) => least,
        Term::Sym(n) => if u64::from(n) < least {
            least
        } else {
            u64::from(n) + 1
        }
    }
}

/// The same of two terms.
pub(crate) fn above_terms(least: u64, t: Term, u: Term) -> u64
    ensures least { least ≤ result }
    ensures first { IsBelow result t }
    ensures second { IsBelow result u }
{
    let above = above_term(least, t);
    above_term(above, u)
}

/// The same of the terms of a cell's fields.
fn above_known(least: u64, fields: &[(FieldId, Term)]) -> u64
    ensures least { least ≤ result }
    ensures below { AllPaired (IsBelow result) fields.now }
{
    let mut above = least;
    let mut left = fields;
    while let Some((first, rest)) = left.split_first() {
        above = above_term(above, first.1);
        left = rest;
    }
    above
}

/// The same of an atom.
pub(crate) fn above_atom(least: u64, atom: &Atom) -> u64
    ensures least { least ≤ result }
    ensures below { AllInAtom (IsBelow result) atom.now }
{
    match atom {
        Atom::Points(t, fields) => above_known(above_term(least, *t), fields.as_slice()),
        Atom::Ls(t, u) => above_terms(least, *t, *u),
        Atom::Tree(t) => above_term(least, *t),
        Atom::Dll(v, p, l, u) => above_terms(above_terms(least, *v, *p), *l, *u),
    }
}

/// The same of what an existential stands for.
pub(crate) fn above_binding(least: u64, binding: Option<Term>) -> u64
    ensures least { least ≤ result }
    ensures below { (t : TermOf) → binding ≡ Some t → IsBelow result t }
{
    match binding {
        Some(t) => above_term(least, t),
        None => least,
    }
}

/// The same of what all existentials stand for.
pub(crate) fn above_bindings(least: u64, bindings: &[Option<Term>]) -> u64
    ensures least { least ≤ result }
    ensures below { (m : ℕ) (t : TermOf) → get_or bindings.now m None ≡ Some t → IsBelow result t }
{
    let mut above = least;
    let mut left = bindings;
    while let Some((first, rest)) = left.split_first() {
        above = above_binding(above, *first);
        left = rest;
    }
    above
}

/// The same of an operand.
fn above_operand(least: u64, x: &Operand<Term>) -> u64
    ensures least { least ≤ result }
    ensures below { OccurBelow result (λ y. y ≡ x.now) }
{
    match x {
        Operand::Known(t) => above_term(least, *t),
        Operand::Exists(_) => least,
    }
}

/// The same of two operands.
fn above_both(least: u64, x: &Operand<Term>, y: &Operand<Term>) -> u64
    ensures least { least ≤ result }
    ensures first { OccurBelow result (λ z. z ≡ x.now) }
    ensures second { OccurBelow result (λ z. z ≡ y.now) }
{
    let above = above_operand(least, x);
    above_operand(above, y)
}

/// The same of four operands.
fn above_four(
    least: u64,
    x: &Operand<Term>,
    b: &Operand<Term>,
    l: &Operand<Term>,
    y: &Operand<Term>,
) -> u64
    ensures least { least ≤ result }
    ensures first { OccurBelow result (λ z. z ≡ x.now) }
    ensures second { OccurBelow result (λ z. z ≡ b.now) }
    ensures third { OccurBelow result (λ z. z ≡ l.now) }
    ensures fourth { OccurBelow result (λ z. z ≡ y.now) }
{
    let above = above_both(least, x, b);
    above_both(above, l, y)
}

/// The same of a test.
fn above_test(least: u64, test: &Test<Operand<Term>>) -> u64
    ensures least { least ≤ result }
    ensures below { OccurBelow result (OccursInTest test.now) }
{
    match test {
        Test::True => least,
        Test::Equal(x, y) => above_both(least, x, y),
        Test::Differ(x, y) => above_both(least, x, y),
    }
}

/// The same of the operands of a cell's fields.
fn above_fields(least: u64, fields: &[(FieldId, Operand<Term>)]) -> u64
    ensures least { least ≤ result }
    ensures below { OccurBelow result (OccursInFields fields.now) }
{
    let mut above = least;
    let mut left = fields;
    while let Some((first, rest)) = left.split_first() {
        above = above_operand(above, &first.1);
        left = rest;
    }
    above
}

/// The same of conjuncts, with their branches.
#[cycle(bounds)]
pub(crate) fn above_conjuncts(least: u64, cs: &[Conjunct<Term>]) -> u64
    ensures least { least ≤ result }
    ensures below { ConjunctsBelow result cs.now }
{
    let mut above = least;
    for c in cs {
        above = above_conjunct(above, c);
    }
    above
}

/// The same of one conjunct.
#[cycle(bounds)]
pub(crate) fn above_conjunct(least: u64, c: &Conjunct<Term>) -> u64
    ensures least { least ≤ result }
    ensures below { OccurBelow result (OccursInOne (conjunct_of c.now)) }
{
    match c {
        Conjunct::Holds(_, test) => above_test(least, test),
        Conjunct::Points(_, root, fields) => above_fields(above_operand(least, root), fields),
        Conjunct::Segment(_, _, from, to) => above_both(least, from, to),
        Conjunct::Doubly(_, _, _, from, before, last, to) => {
            above_four(least, from, before, last, to)
        }
        Conjunct::Tree(_, _, _, root) => above_operand(least, root),
        Conjunct::If(_, test, this, that) => {
            let above = above_test(least, test);
            above_level(above_level(above, this), that)
        }
    }
}

/// The same of a level.
#[cycle(bounds)]
fn above_level(least: u64, level: &Level<Term>) -> u64
    ensures least { least ≤ result }
    ensures below { OccurBelow result (OccursIn (level_of level.now)) }
{
    above_conjuncts(least, &level.conjuncts)
}
