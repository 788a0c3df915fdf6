//! What a state knows of terms, and whether it can be at all, by a table.

use Shape::{Cell, Dll, Ls, Tree};
use sf_base::FieldId;
use sf_core::Links;
use sf_sym::{Atom, FieldTerms, Kind, State, Term};
use std::alloc::{AllocError, Global};

const NIL: Term = Term::Nil;

const X: Term = Term::Sym(0);

const Y: Term = Term::Sym(1);

const FIVE: Term = Term::Int(5);

/// An atom without its number.
#[derive(Clone, Copy)]
enum Shape {
    Cell(Term),
    Ls(Term, Term),
    Tree(Term),
    Dll(Term, Term, Term, Term),
}

/// One more atom, and its number.
fn add(alloc: Global, s: &mut State, shape: Shape) -> Result<u32, AllocError> {
    let number = s.next_atom();
    if number > 1000 {
        return Err(AllocError);
    }
    s.add_atom(match shape {
        Shape::Cell(t) => Atom::Points(t, FieldTerms::new(alloc)),
        Shape::Ls(t, u) => Atom::Ls(t, u),
        Shape::Tree(t) => Atom::Tree(t),
        Shape::Dll(t, p, l, u) => Atom::Dll(t, p, l, u),
    })?;
    Ok(number)
}

/// The taken atoms have the first numbers.
fn state(
    alloc: Global,
    apart: &[(Term, Term)],
    kept: &[Shape],
    taken: &[Shape],
) -> Result<State, AllocError> {
    let links = Links {
        tl: Some(FieldId(0)),
        pv: None,
        l: Some(FieldId(1)),
        r: Some(FieldId(2)),
    };
    let mut s = State::new(alloc, links, Vec::new(alloc), 2)?;
    for pair in apart {
        s.assume_apart(pair.0, pair.1)?;
    }
    for shape in taken {
        let number = add(alloc, &mut s, *shape)?;
        if s.atom(number).is_some() {
            s.hand_over_atom(number)?;
        }
    }
    for shape in kept {
        add(alloc, &mut s, *shape)?;
    }
    Ok(s)
}

/// A state, and whether there X and Y differ, X and nil do, X is allocated, and it can't be.
#[derive(Clone, Copy)]
struct Row<'a> {
    apart: &'a [(Term, Term)],
    kept: &'a [Shape],
    taken: &'a [Shape],
    answers: [bool; 4],
}

fn known<'a>(
    apart: &'a [(Term, Term)],
    kept: &'a [Shape],
    taken: &'a [Shape],
    answers: [bool; 4],
) -> Row<'a> {
    Row {
        apart,
        kept,
        taken,
        answers,
    }
}

fn answers(s: &State) -> [bool; 4] {
    [
        s.differs(X, Y),
        s.differs(NIL, X),
        s.allocated(X, None),
        s.is_absurd(),
    ]
}

#[test]
fn states_answer_as_they_should(rt: HostRuntime) -> Result<(), AllocError> {
    const NO: bool = false;
    const YES: bool = true;
    let rows = [
        known(&[], &[], &[], [NO, NO, NO, NO]),
        known(&[(Y, X)], &[], &[], [YES, NO, NO, NO]),
        known(&[], &[Cell(X)], &[], [NO, YES, YES, NO]),
        known(&[], &[Ls(X, NIL)], &[], [NO, NO, NO, NO]),
        known(&[(X, NIL)], &[Ls(X, NIL)], &[], [NO, YES, YES, NO]),
        known(&[(X, NIL)], &[Tree(X)], &[], [NO, YES, YES, NO]),
        known(&[], &[Cell(X), Cell(Y)], &[], [YES, YES, YES, NO]),
        known(&[], &[Cell(X)], &[Cell(Y)], [YES, YES, YES, NO]),
        known(&[], &[Cell(X), Cell(X)], &[], [NO, YES, YES, YES]),
        known(&[], &[Cell(X)], &[Cell(X)], [NO, YES, YES, YES]),
        known(&[], &[Cell(X), Ls(X, Y)], &[], [NO, YES, YES, NO]),
        known(&[(X, Y)], &[Cell(X), Ls(X, Y)], &[], [YES, YES, YES, YES]),
        known(&[(NIL, NIL)], &[], &[], [NO, NO, NO, YES]),
        known(&[], &[Ls(NIL, FIVE)], &[], [NO, NO, NO, YES]),
        known(&[], &[Ls(FIVE, FIVE)], &[], [NO, NO, NO, NO]),
        known(&[], &[], &[Tree(FIVE)], [NO, NO, NO, YES]),
        known(&[], &[Tree(NIL)], &[], [NO, NO, NO, NO]),
        // A doubly linked segment has cells at both its ends where it isn't empty
        known(&[], &[Dll(X, NIL, Y, NIL)], &[], [NO, NO, NO, NO]),
        known(&[(X, NIL)], &[Dll(X, NIL, Y, NIL)], &[], [NO, YES, YES, NO]),
        known(&[(Y, NIL)], &[Dll(Y, NIL, X, NIL)], &[], [NO, YES, YES, NO]),
        known(&[(X, NIL)], &[Dll(X, NIL, X, NIL)], &[], [NO, YES, YES, NO]),
        known(
            &[(X, NIL)],
            &[Dll(X, NIL, X, NIL)],
            &[Cell(Y)],
            [YES, YES, YES, NO],
        ),
        known(
            &[(X, NIL)],
            &[Dll(X, NIL, Y, NIL)],
            &[Cell(Y)],
            [YES, YES, YES, YES],
        ),
        known(
            &[(X, NIL)],
            &[],
            &[Dll(X, NIL, FIVE, NIL)],
            [NO, YES, YES, YES],
        ),
        known(&[], &[Dll(NIL, X, Y, FIVE)], &[], [NO, NO, NO, YES]),
        known(&[], &[Dll(FIVE, X, Y, FIVE)], &[], [NO, NO, NO, NO]),
    ];
    for (i, r) in rows.iter().enumerate() {
        let mut s = state(rt.alloc(), r.apart, r.kept, r.taken)?;
        assert_eq!(rt; answers(&s), r.answers, "row {i}");
        s.settle();
        assert_eq!(rt; answers(&s), r.answers, "row {i}, settled");
    }
    Ok(())
}

#[test]
fn an_atom_that_is_left_out_allocates_nothing(rt: HostRuntime) -> Result<(), AllocError> {
    let s = state(rt.alloc(), &[], &[Cell(X)], &[Cell(Y)])?;
    assert!(rt; s.allocated(X, Some(1)));
    assert!(rt; !s.allocated(X, Some(2)));
    assert!(rt; !s.allocated(Y, Some(1)));
    assert!(rt; s.differs(NIL, FIVE));
    assert!(rt; !s.differs(FIVE, FIVE));
    Ok(())
}

#[test]
fn what_comes_after_a_state_was_settled_counts(rt: HostRuntime) -> Result<(), AllocError> {
    let mut s = state(rt.alloc(), &[], &[Ls(X, Y)], &[])?;
    s.settle();
    assert_eq!(rt; s.forced(), None);
    add(rt.alloc(), &mut s, Cell(X))?;
    assert_eq!(rt; s.forced(), Some((1, X, Y)));
    assert!(rt; !s.is_absurd());
    s.settle();
    s.assume_apart(Y, X)?;
    assert!(rt; s.is_absurd());
    Ok(())
}

#[test]
fn what_is_empty_is_dropped_or_forced(rt: HostRuntime) -> Result<(), AllocError> {
    let rows: [(&[Shape], Option<u32>, Option<(u32, Term, Term)>); 6] = [
        (&[Dll(X, Y, Y, X)], Some(1), None),
        (&[Dll(X, NIL, Y, X)], None, Some((1, NIL, Y))),
        (&[Dll(X, NIL, Y, NIL)], None, None),
        (&[Dll(X, NIL, Y, NIL), Cell(X)], None, Some((1, X, NIL))),
        (&[Dll(X, NIL, Y, NIL), Cell(Y)], None, None),
        (&[Dll(FIVE, NIL, X, Y)], None, Some((1, FIVE, Y))),
    ];
    for (i, r) in rows.iter().enumerate() {
        let s = state(rt.alloc(), &[], r.0, &[])?;
        assert_eq!(rt; s.droppable(), r.1, "row {i}");
        assert_eq!(rt; s.forced(), r.2, "row {i}");
    }
    Ok(())
}

#[test]
fn the_lowest_atom_of_a_kind_is_found_at_its_term(rt: HostRuntime) -> Result<(), AllocError> {
    let kept = [
        Ls(X, NIL),
        Cell(X),
        Cell(X),
        Ls(X, Y),
        Tree(Y),
        Dll(X, Y, Y, NIL),
        Dll(Y, NIL, X, NIL),
    ];
    let s = state(rt.alloc(), &[], &kept, &[Cell(X)])?;
    let rows = [
        (X, Kind::Cell, Some(3)),
        (Y, Kind::Cell, None),
        (X, Kind::Segment, Some(2)),
        (X, Kind::SegmentTo(Y), Some(5)),
        (X, Kind::SegmentTo(X), None),
        (X, Kind::Tree, None),
        (Y, Kind::Tree, Some(6)),
        (X, Kind::Double, Some(7)),
        (X, Kind::DoubleLast, Some(8)),
        (Y, Kind::Double, Some(8)),
        (Y, Kind::DoubleLast, Some(7)),
        (X, Kind::DoubleTo(Y, Y, NIL), Some(7)),
        (X, Kind::DoubleTo(NIL, Y, NIL), None),
        (NIL, Kind::DoubleLast, None),
    ];
    for (i, r) in rows.iter().enumerate() {
        assert_eq!(rt; s.lowest_at(r.0, r.1), r.2, "row {i}");
    }
    Ok(())
}
