//! What is to be shown.

ghost use Rattle.std.specs.Prelude.{◌≡◌, IfOk};
ghost use Rattle.std.specs.Option.{option_map};
ghost use Rattle.sf_consume.specs.Subtract.{wanted_shape};
ghost use Rattle.sf_core.specs.Program.View.{conjunct_of};
ghost use Rattle.sf_search.specs.Checked.Chooses.{at_double, at_equality, at_first_part, at_inequality, at_list, at_open_double, at_points, at_tree, at_want, at_wanted, at_wanted_cell, begins_with, exact_atom, joins};
ghost use Rattle.sf_search.specs.Strategy.{double_at, lowest};
ghost use Rattle.sf_sym.specs.Pending.{pending_of};

use crate::choices::atoms::{at_cell, split_or};
use crate::choices::branches::at_choice;
use crate::choices::choice::Choice;
use crate::choices::seeking::{
    lowest_cell, lowest_double, lowest_field, lowest_segment, lowest_shape,
};
use sf_base::FieldId;
use sf_consume::{binds, both, fits_cell, four, is_empty, is_same, wanted_shape};
use sf_core::{Conjunct, Operand, Test};
use sf_sym::{Pending, State, Stuck, Tag, Term, term_of};
use std::alloc::{AllocError, Global};

/// What the strategy does at conjuncts to show. An `Err` means out of memory.
pub(crate) fn at_want(alloc: Global, state: &State, want: &Pending) -> Result<Choice, AllocError>
    ensures { IfOk result (λ c. c ≡ at_want state.now (pending_of want.now)) }
{
    match want.first() {
        Some(c) => at_wanted(alloc, state, want.bindings(), c),
        None => Ok(split_or(state, Stuck::NoAtom)),
    }
}

/// What it does at one wanted conjunct. An `Err` means out of memory.
fn at_wanted(
    alloc: Global,
    state: &State,
    bindings: &[Option<Term>],
    c: &Conjunct<Term>,
) -> Result<Choice, AllocError>
    ensures { IfOk result
        (λ r. r ≡ at_wanted state.now bindings.now (conjunct_of c.now)) }
{
    match c {
        Conjunct::Holds(_, Test::True) => Ok(split_or(state, Stuck::NotEqual)),
        Conjunct::Holds(_, Test::Equal(..)) => Ok(at_equality(state, bindings, c)),
        Conjunct::Holds(_, Test::Differ(x, y)) => Ok(at_inequality(state, bindings, *x, *y)),
        Conjunct::Points(_, x, _) => { at_points(alloc, state, bindings, c, term_of(bindings, x)) }
        Conjunct::Segment(_, _, x, y) => Ok(at_list(state, bindings, c, both(bindings, *x, *y))),
        Conjunct::Doubly(_, _, back, x, p, l, y) => {
            Ok(at_double(state, bindings, c, *back, four(bindings, *x, *p, *l, *y)))
        }
        Conjunct::Tree(_, _, _, x) => Ok(at_tree(state, bindings, c, term_of(bindings, x))),
        Conjunct::If(_, test, _, _) => Ok(at_choice(state, bindings, test)),
    }
}

/// At an equality: an existential gets a term, or the terms are one.
fn at_equality(state: &State, bindings: &[Option<Term>], c: &Conjunct<Term>) -> Choice
    ensures { result ≡ at_equality state.now bindings.now (conjunct_of c.now) }
{
    if binds(bindings, c) {
        return Choice::Takes(Tag::Bind);
    }
    if is_same(bindings, c) {
        return Choice::Takes(Tag::Same);
    }
    split_or(state, Stuck::NotEqual)
}

/// At an inequality: the terms surely differ.
fn at_inequality(
    state: &State,
    bindings: &[Option<Term>],
    x: Operand<Term>,
    y: Operand<Term>,
) -> Choice
    ensures { result ≡ at_inequality state.now bindings.now x y }
{
    match both(bindings, x, y) {
        Some((t, u)) if state.differs(t, u) => Choice::Takes(Tag::Apart),
        _ => split_or(state, Stuck::NotDifferent),
    }
}

/// At a wanted cell whose root has that term, if it has one. An `Err` means out of memory.
fn at_points(
    alloc: Global,
    state: &State,
    bindings: &[Option<Term>],
    c: &Conjunct<Term>,
    root: Option<Term>,
) -> Result<Choice, AllocError>
    ensures { IfOk result (λ r. r
        ≡ at_points state.now bindings.now (conjunct_of c.now) root) }
{
    match root {
        Some(t) => at_wanted_cell(alloc, state, bindings, c, t),
        None => Ok(split_or(state, Stuck::NoAtom)),
    }
}

/// At a wanted cell at that term: the lowest one there, if it fits. An `Err` means out of memory.
#[tactic(auto, using(crate::proofs::Lowest::cell_there, crate::proofs::Lowest::no_cell_there))]
fn at_wanted_cell(
    alloc: Global,
    state: &State,
    bindings: &[Option<Term>],
    c: &Conjunct<Term>,
    t: Term,
) -> Result<Choice, AllocError>
    ensures { IfOk result (λ r. r
        ≡ at_wanted_cell state.now bindings.now (conjunct_of c.now) t) }
{
    let a = match at_cell(state, t, Stuck::NoAtom) {
        Ok(a) => a,
        Err(choice) => return Ok(choice),
    };
    if fits_cell(alloc, state, bindings, c, a)? {
        Ok(Choice::Takes(Tag::Cell(a)))
    } else {
        Ok(split_or(state, Stuck::NotEqual))
    }
}

/// At a wanted list between these terms, if both ends have one.
fn at_list(
    state: &State,
    bindings: &[Option<Term>],
    c: &Conjunct<Term>,
    ends: Option<(Term, Term)>,
) -> Choice
    ensures { result ≡ at_list state.now bindings.now (conjunct_of c.now) ends }
{
    let Some((t, u)) = ends else {
        return split_or(state, Stuck::NoAtom);
    };
    if is_empty(bindings, c) {
        return Choice::Takes(Tag::Empty);
    }
    if let Some(choice) = exact(state, bindings, c) {
        return choice;
    }
    if !state.differs(t, u) {
        return Choice::Takes(Tag::Split(t, u));
    }
    if let Some(a) = lowest_cell(state, t) {
        return Choice::Takes(Tag::Head(a));
    }
    match joins(state, t, u) {
        Some(choice) => choice,
        None => split_or(state, Stuck::NoAtom),
    }
}

/// At a wanted tree whose root has that term, if it has one.
fn at_tree(
    state: &State,
    bindings: &[Option<Term>],
    c: &Conjunct<Term>,
    root: Option<Term>,
) -> Choice
    ensures { result ≡ at_tree state.now bindings.now (conjunct_of c.now) root }
{
    let Some(t) = root else {
        return split_or(state, Stuck::NoAtom);
    };
    if is_empty(bindings, c) {
        return Choice::Takes(Tag::Empty);
    }
    if let Some(choice) = exact(state, bindings, c) {
        return choice;
    }
    if let Some(a) = lowest_cell(state, t) {
        return Choice::Takes(Tag::Node(a));
    }
    if !state.differs(t, Term::Nil) {
        return Choice::Takes(Tag::Split(t, Term::Nil));
    }
    split_or(state, Stuck::NoAtom)
}

/// At a wanted doubly linked segment between these terms, if all of its operands have one.
fn at_double(
    state: &State,
    bindings: &[Option<Term>],
    c: &Conjunct<Term>,
    back: FieldId,
    terms: Option<(Term, Term, Term, Term)>,
) -> Choice
    ensures { result ≡ at_double state.now bindings.now (conjunct_of c.now) back terms }
{
    let Some((t, p, l, u)) = terms else {
        return split_or(state, Stuck::NoAtom);
    };
    if is_empty(bindings, c) {
        return Choice::Takes(Tag::Empty);
    }
    if let Some(choice) = exact(state, bindings, c) {
        return choice;
    }
    if t.is(u) {
        return split_or(state, Stuck::NotEqual);
    }
    at_open_double(state, back, (t, p, l, u))
}

/// At a wanted doubly linked segment between terms that aren't one: the first of them is split from the
/// fourth, or what begins there decides.
fn at_open_double(state: &State, back: FieldId, w: (Term, Term, Term, Term)) -> Choice
    ensures { result ≡ at_open_double state.now back w }
{
    let (t, p, _, u) = w;
    if !state.differs(t, u) {
        return Choice::Takes(Tag::Split(t, u));
    }
    match lowest_field(state, t, back) {
        Some((a, Some(q))) if q.is(p) => Choice::Takes(Tag::Head(a)),
        Some(_) => split_or(state, Stuck::NotEqual),
        None => at_first_part(state, t, p, u),
    }
}

/// The lowest doubly linked segment from the first term is joined, where the second stands before it and
/// the third can't be inside it.
fn at_first_part(state: &State, t: Term, p: Term, u: Term) -> Choice
    ensures { result ≡ at_first_part state.now p u (lowest (double_at t) state.now.atoms) }
{
    match lowest_double(state, t) {
        Some((_, (q, ..))) if !q.is(p) => split_or(state, Stuck::NotEqual),
        Some((a, _)) if u.is_constant() || state.allocated(u, Some(a)) => {
            Choice::Takes(Tag::Join(a))
        }
        Some(_) => split_or(state, Stuck::EndNotAllocated),
        None => split_or(state, Stuck::NoAtom),
    }
}

/// The lowest atom that is the wanted segment or tree.
fn exact(state: &State, bindings: &[Option<Term>], c: &Conjunct<Term>) -> Option<Choice>
    ensures { result
        ≡ exact_atom state.now (wanted_shape bindings.now (conjunct_of c.now)) }
{
    let wanted = wanted_shape(bindings, c)?;
    let a = lowest_shape(state, &wanted)?;
    Some(Choice::Takes(Tag::Exact(a)))
}

/// The lowest segment from the first term is joined, where the second can't be inside it.
fn joins(state: &State, t: Term, u: Term) -> Option<Choice>
    ensures { result ≡ joins state.now t u }
{
    let (a, _) = lowest_segment(state, t)?;
    if u.is_constant() || state.allocated(u, Some(a)) {
        Some(Choice::Takes(Tag::Join(a)))
    } else {
        Some(split_or(state, Stuck::EndNotAllocated))
    }
}
