//! Each tag of subtraction once, with ample memory, since no clause says that memory is there; and
//! an end that isn't known to be outside a segment.

ghost use Rattle.std.specs.Prelude.{◌≡◌, ◌≤◌, ◌∷◌, [], IfOk};
ghost use Rattle.sf_consume.specs.Subtract.{new_symbols};
ghost use Rattle.sf_core.specs.Program.Syntax.{also, none};
ghost use Rattle.sf_core.specs.Program.View.{conjunct_of};

use super::programs::{BACK, HERE, LEFT, NEXT, RIGHT, X, Y, Z, blank};
use sf_consume::{ConsumeFault, subtract};
use sf_core::{Conjunct, Operand, Test};
use sf_sym::{Atom, FieldTerms, Pending, State, Tag, Term};
use std::alloc::{AllocError, Global};

const FRESH: Term = Term::Sym(3);

/// One wanted conjunct, with one existential that has no term.
fn wanted(alloc: Global, c: Conjunct<Term>) -> Result<Pending, AllocError>
    ensures { IfOk result (λ w. w.conjuncts ≡ c ∷ []) }
{
    let mut conjuncts = Vec::new(alloc);
    conjuncts.push(c)?;
    let mut bindings = Vec::new(alloc);
    bindings.push(None)?;
    Ok(Pending::new(conjuncts, bindings))
}

/// What is left of it by that tag.
fn shown(
    alloc: Global,
    state: &mut State,
    c: Conjunct<Term>,
    tag: Tag,
) -> Result<Pending, ConsumeFault>
    requires { new_symbols (also (conjunct_of c) none) ≤ 2 }
{
    let mut want = wanted(alloc, c)?;
    if state.next_sym() > 9 {
        return Err(ConsumeFault::NotARule);
    }
    subtract(alloc, state, &mut want, &tag)?;
    Ok(want)
}

/// One more segment is there.
fn add_list(state: &mut State, from: Term, to: Term) -> Result<(), ConsumeFault> {
    if state.next_atom() > 9 {
        return Err(ConsumeFault::NotARule);
    }
    state.add_atom(Atom::Ls(from, to))?;
    Ok(())
}

/// One more doubly linked segment is there.
fn add_double(state: &mut State, atom: Atom) -> Result<(), ConsumeFault> {
    if state.next_atom() > 9 {
        return Err(ConsumeFault::NotARule);
    }
    state.add_atom(atom)?;
    Ok(())
}

/// One more cell is there, of which no field is known.
fn add_cell(alloc: Global, state: &mut State, root: Term) -> Result<(), ConsumeFault> {
    if state.next_atom() > 9 {
        return Err(ConsumeFault::NotARule);
    }
    state.add_cell(root, FieldTerms::new(alloc))?;
    Ok(())
}

/// One more cell is there, of which only what it leads back to is known.
fn add_back(alloc: Global, state: &mut State, root: Term, back: Term) -> Result<(), ConsumeFault> {
    if state.next_atom() > 9 {
        return Err(ConsumeFault::NotARule);
    }
    let mut fields = FieldTerms::new(alloc);
    fields.put(BACK, back)?;
    state.add_cell(root, fields)?;
    Ok(())
}

/// Where the list or tree that is wanted first begins.
fn root(want: &Pending) -> Option<Term> {
    match want.first()? {
        Conjunct::Segment(_, _, Operand::Known(t), _) => Some(*t),
        Conjunct::Doubly(_, _, _, Operand::Known(t), ..) => Some(*t),
        Conjunct::Tree(_, _, _, Operand::Known(t)) => Some(*t),
        _ => None,
    }
}

fn list(from: Term, to: Term) -> Conjunct<Term>
    ensures { new_symbols (also (conjunct_of result) none) ≤ 2 }
{
    Conjunct::Segment(HERE, NEXT, Operand::Known(from), Operand::Known(to))
}

fn double(from: Term, before: Term, last: Term, to: Term) -> Conjunct<Term>
    ensures { new_symbols (also (conjunct_of result) none) ≤ 2 }
{
    let (from, before) = (Operand::Known(from), Operand::Known(before));
    let (last, to) = (Operand::Known(last), Operand::Known(to));
    Conjunct::Doubly(HERE, NEXT, BACK, from, before, last, to)
}

#[test]
fn tests_are_shown(rt: HostRuntime) -> Result<(), ConsumeFault> {
    let mut s = blank(rt.alloc())?;
    let same = Conjunct::Holds(HERE, Test::Equal(Operand::Known(X), Operand::Known(X)));
    assert!(rt; shown(rt.alloc(), &mut s, same, Tag::Same)?.is_empty());
    let bind = Conjunct::Holds(HERE, Test::Equal(Operand::Known(Y), Operand::Exists(0)));
    let want = shown(rt.alloc(), &mut s, bind, Tag::Bind)?;
    assert!(rt; want.bindings().first() == Some(&Some(Y)));
    s.assume_apart(Y, X)?;
    let apart = Conjunct::Holds(HERE, Test::Differ(Operand::Known(X), Operand::Known(Y)));
    assert!(rt; shown(rt.alloc(), &mut s, apart, Tag::Apart)?.is_empty());
    Ok(())
}

#[test]
fn segments_are_handed_over(rt: HostRuntime) -> Result<(), ConsumeFault> {
    let mut s = blank(rt.alloc())?;
    add_list(&mut s, X, Y)?;
    add_list(&mut s, Y, Z)?;
    assert!(rt; shown(rt.alloc(), &mut s, list(X, X), Tag::Empty)?.is_empty());
    assert!(rt; shown(rt.alloc(), &mut s, list(X, Z), Tag::Join(1)).is_err());
    assert!(rt; s.taken().is_empty());
    let want = shown(rt.alloc(), &mut s, list(X, Term::Nil), Tag::Join(1))?;
    assert!(rt; root(&want) == Some(Y));
    assert!(rt; shown(rt.alloc(), &mut s, list(Y, Z), Tag::Exact(2))?.is_empty());
    assert_eq!(rt; s.taken().len(), 2);
    assert!(rt; s.atoms().is_empty());
    Ok(())
}

#[test]
fn doubly_linked_segments_are_handed_over(rt: HostRuntime) -> Result<(), ConsumeFault> {
    let nil = Term::Nil;
    let mut s = blank(rt.alloc())?;
    add_double(&mut s, Atom::Dll(X, nil, Y, Z))?;
    add_double(&mut s, Atom::Dll(Z, Y, Z, X))?;
    let empty = double(X, Y, Y, X);
    assert!(rt; shown(rt.alloc(), &mut s, empty, Tag::Empty)?.is_empty());
    let other = double(X, nil, Y, X);
    assert!(rt; shown(rt.alloc(), &mut s, other, Tag::Empty).is_err());
    let behind = double(X, X, Y, nil);
    assert!(rt; shown(rt.alloc(), &mut s, behind, Tag::Join(1)).is_err());
    let within = double(X, nil, Y, Y);
    assert!(rt; shown(rt.alloc(), &mut s, within, Tag::Join(1)).is_err());
    assert!(rt; s.taken().is_empty());
    let want = shown(rt.alloc(), &mut s, double(X, nil, X, nil), Tag::Join(1))?;
    assert!(rt; root(&want) == Some(Z));
    let same = double(Z, Y, Z, X);
    assert!(rt; shown(rt.alloc(), &mut s, same, Tag::Exact(2))?.is_empty());
    assert_eq!(rt; s.taken().len(), 2);
    assert!(rt; s.atoms().is_empty());
    Ok(())
}

#[test]
fn a_doubly_linked_segment_begins_with_a_cell(rt: HostRuntime) -> Result<(), ConsumeFault> {
    let nil = Term::Nil;
    let mut s = blank(rt.alloc())?;
    add_cell(rt.alloc(), &mut s, X)?;
    add_back(rt.alloc(), &mut s, Y, X)?;
    let unknown = double(X, nil, Z, nil);
    assert!(rt; shown(rt.alloc(), &mut s, unknown, Tag::Head(1)).is_err());
    let elsewhere = double(Y, nil, Z, nil);
    assert!(rt; shown(rt.alloc(), &mut s, elsewhere, Tag::Head(2)).is_err());
    let want = shown(rt.alloc(), &mut s, double(Y, X, Z, nil), Tag::Head(2))?;
    assert!(rt; root(&want) == Some(FRESH));
    assert_eq!(rt; s.next_sym(), 4);
    assert_eq!(rt; s.taken().len(), 1);
    Ok(())
}

#[test]
fn cells_are_handed_over(rt: HostRuntime) -> Result<(), ConsumeFault> {
    let mut s = blank(rt.alloc())?;
    add_cell(rt.alloc(), &mut s, X)?;
    add_cell(rt.alloc(), &mut s, Y)?;
    add_cell(rt.alloc(), &mut s, Z)?;
    let cell = Conjunct::Points(HERE, Operand::Known(X), Vec::new(rt.alloc()));
    assert!(rt; shown(rt.alloc(), &mut s, cell, Tag::Cell(1))?.is_empty());
    let want = shown(rt.alloc(), &mut s, list(Y, Term::Nil), Tag::Head(2))?;
    assert!(rt; root(&want) == Some(FRESH));
    let tree = Conjunct::Tree(HERE, LEFT, RIGHT, Operand::Known(Z));
    let want = shown(rt.alloc(), &mut s, tree, Tag::Node(3))?;
    assert!(rt; root(&want) == Some(Term::Sym(4)));
    assert_eq!(rt; s.next_sym(), 6);
    assert_eq!(rt; s.taken().len(), 3);
    Ok(())
}
