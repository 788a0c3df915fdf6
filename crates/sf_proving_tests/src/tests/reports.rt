//! What no clause says: how texts look that were written by hand. The program has no names; texts
//! with names are tried where programs are read.

use super::programs::empty;
use sf_base::{FieldId, Place, ProcId};
use sf_core::{Conjunct, Operand, Program, Test};
use sf_report::{failed, too_large};
use sf_sym::{Atom, Goal, Item, Pending, State, Stuck, Term};
use std::alloc::{AllocError, Global};

/// Hands the part of that number over, if it is there.
fn hand_over(s: &mut State, a: u32) -> Result<(), AllocError> {
    if s.atom(a).is_some() {
        s.hand_over_atom(a)?;
    }
    Ok(())
}

/// A state with three parts of the heap, of which the last and the first were handed over, and with
/// one of its pairs twice.
fn state(alloc: Global, p: &Program) -> Result<State, AllocError> {
    let mut s = State::new(alloc, p.links, Vec::new(alloc), 3)?;
    s.assume_apart(Term::Sym(0), Term::Sym(2))?;
    s.assume_apart(Term::Nil, Term::Sym(1))?;
    s.assume_apart(Term::Sym(1), Term::Nil)?;
    s.assume_apart(Term::Sym(0), Term::Int(-7))?;
    s.add_atom(Atom::Ls(Term::Sym(0), Term::Nil))?;
    s.add_atom(Atom::Tree(Term::Int(5)))?;
    s.add_atom(Atom::Ls(Term::Sym(1), Term::Sym(2)))?;
    s.add_atom(Atom::Dll(Term::Sym(2), Term::Nil, Term::Sym(1), Term::Int(9)))?;
    hand_over(&mut s, 3)?;
    hand_over(&mut s, 1)?;
    Ok(s)
}

/// The lines of that state.
const LINES: &str =
    "vars\napart s0 != -7, s1 != nil, s2 != s0\natoms 2: tree(5), 4: dll(s2,nil,s1,9)\ntaken 1: ls(s0,nil), 3: ls(s1,s2)\n";

/// Whether that is the text of the goal with that state and only that to do.
fn says(
    alloc: Global,
    item: Item,
    kind: Stuck,
    first: &str,
    want: &str,
) -> Result<bool, AllocError> {
    let p = empty(alloc);
    let mut todo = Vec::new(alloc);
    todo.push(item)?;
    let goal = Goal {
        state: state(alloc, &p)?,
        todo,
    };
    let text = failed(alloc, &p, ProcId(0), &goal, kind)?;
    let mut expected = Vec::from_slice(alloc, first.as_bytes())?;
    expected.extend_from_slice(LINES.as_bytes())?;
    expected.extend_from_slice(want.as_bytes())?;
    Ok(text.as_slice() == expected.as_slice())
}

/// A conjunct that is still to be shown, at that place.
fn take<'a>(alloc: Global, place: Place, c: Conjunct<Term>) -> Result<Item<'a>, AllocError> {
    let mut conjuncts = Vec::new(alloc);
    conjuncts.push(c)?;
    let mut bindings = Vec::new(alloc);
    bindings.push(Some(Term::Int(12)))?;
    Ok(Item::Take(place, Pending::new(conjuncts, bindings), &[]))
}

#[test]
fn what_is_left_at_the_end_is_told(rt: HostRuntime) -> Result<(), AllocError> {
    let place = Place {
        line: 7,
        column: 30,
    };
    assert!(rt;
        says(
            rt.alloc(),
            Item::End(place),
            Stuck::Leak,
            "failed  at 7:30 Leak\n",
            "want emp\n",
        )?
    );
    Ok(())
}

#[test]
fn what_is_wanted_is_told(rt: HostRuntime) -> Result<(), AllocError> {
    let alloc = rt.alloc();
    let at = Place { line: 1, column: 2 };
    let bound: Operand<Term> = Operand::Exists(0);
    let two: Operand<Term> = Operand::Known(Term::Sym(2));
    let cases = [
        (
            Conjunct::Holds(at, Test::Equal(bound, two)),
            Stuck::NotEqual,
            "failed  at 1:2 NotEqual\n",
            "want 12 == s2\n",
        ),
        (
            Conjunct::Holds(at, Test::Differ(two, bound)),
            Stuck::NotDifferent,
            "failed  at 1:2 NotDifferent\n",
            "want s2 != 12\n",
        ),
        (
            Conjunct::Points(at, two, Vec::new(alloc)),
            Stuck::NoAtom,
            "failed  at 1:2 NoAtom\n",
            "want s2|->\n",
        ),
    ];
    for (wanted, kind, first, want) in cases {
        let item = take(alloc, at, wanted)?;
        assert!(rt; says(alloc, item, kind, first, want)?);
    }
    Ok(())
}

/// A doubly linked segment that is still to be shown, up to that term.
fn double<'a>(alloc: Global, place: Place, before: Term, to: Term) -> Result<Item<'a>, AllocError> {
    let (next, back) = (FieldId(0), FieldId(1));
    let from = Operand::Known(Term::Sym(2));
    let (before, to) = (Operand::Known(before), Operand::Known(to));
    let last = Operand::Exists(0);
    take(
        alloc,
        place,
        Conjunct::Doubly(place, next, back, from, before, last, to),
    )
}

#[test]
fn a_wanted_doubly_linked_segment_is_told(rt: HostRuntime) -> Result<(), AllocError> {
    let alloc = rt.alloc();
    let at = Place { line: 3, column: 4 };
    let rows = [
        (
            Term::Nil,
            Term::Nil,
            Stuck::NoAtom,
            "want dll(s2,nil,12,nil)\n",
        ),
        (
            Term::Int(1),
            Term::Sym(2),
            Stuck::NotEqual,
            "want 1 == 12\n",
        ),
        (Term::Int(1), Term::Nil, Stuck::NotEqual, "want nil == 1\n"),
    ];
    for (before, to, kind, want) in rows {
        let first = match kind {
            Stuck::NotEqual => "failed  at 3:4 NotEqual\n",
            _ => "failed  at 3:4 NoAtom\n",
        };
        let wanted = double(alloc, at, before, to)?;
        assert!(rt; says(alloc, wanted, kind, first, want)?);
    }
    Ok(())
}

#[test]
fn too_many_tags_are_told_in_one_line(rt: HostRuntime) -> Result<(), AllocError> {
    let text = too_large(rt.alloc(), &empty(rt.alloc()), ProcId(0))?;
    assert!(rt; text.as_slice() == b"failed  at 1:1 TooLarge\n".as_slice());
    Ok(())
}
