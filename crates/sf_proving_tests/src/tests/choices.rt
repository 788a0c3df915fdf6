//! What the strategy does at small goals, by a table.

use super::programs::{BACK, HERE, LEFT, NEXT, RIGHT, X, Y, Z, blank};
use Choice::{Stays, Takes};
use Front::{Dispose, Finish, Wanted};
use Part::{AnyCell, Apart, Cell, Dll, Linked, Ls, Same, Tree, TwiceCell};
use sf_base::Var;
use sf_core::{Command, Conjunct, Expr, Occurrence, Operand, Test};
use sf_search::{Choice, choose};
use sf_sym::{Atom, FieldTerms, Goal, Item, Pending, State, Stuck, Tag, Term};
use std::alloc::{AllocError, Global};
use std::process::Abort;

const NIL: Term = Term::Nil;

const SEVEN: Term = Term::Int(7);

/// A part of the heap, as an atom or as a wanted conjunct, or a wanted test.
#[derive(Clone, Copy)]
enum Part {
    /// A cell with that term in its field `tl`.
    Cell(Term, Term),
    /// A segment.
    Ls(Term, Term),
    /// A tree.
    Tree(Term),
    /// A doubly linked segment.
    Dll(Term, Term, Term, Term),
    /// A cell with those terms in its fields `tl` and `pv`.
    Linked(Term, Term, Term),
    /// A wanted cell, with an existential in its field `tl`.
    AnyCell(Term),
    /// A wanted cell, with one existential in its fields `tl` and `l`.
    TwiceCell(Term),
    /// A wanted equality.
    Same(Term, Term),
    /// A wanted inequality.
    Apart(Term, Term),
}

/// What is in front.
#[derive(Clone, Copy)]
enum Front {
    /// The end of all.
    Finish,
    /// A part that is to be shown.
    Wanted(Part),
    /// The cell at the variable, which has the term X, is to go.
    Dispose,
}

/// A goal, by its pairs that differ, its atoms, and those of the taken ones that come before them;
/// and what is done.
#[derive(Clone, Copy)]
struct Row<'a> {
    apart: &'a [(Term, Term)],
    taken: &'a [Part],
    atoms: &'a [Part],
    front: Front,
    choice: Choice,
}

impl<'a> Row<'a> {
    /// The row with these pairs that differ.
    fn apart(self, apart: &'a [(Term, Term)]) -> Row<'a> {
        Row { apart, ..self }
    }

    /// The row with these parts that were taken.
    fn taken(self, taken: &'a [Part]) -> Row<'a> {
        Row { taken, ..self }
    }
}

/// The row of a goal with those atoms alone and that in front.
fn at_front<'a>(front: Front, atoms: &'a [Part], choice: Choice) -> Row<'a> {
    Row {
        apart: &[],
        taken: &[],
        atoms,
        front,
        choice,
    }
}

/// At the end of all.
fn at_end<'a>(atoms: &'a [Part], choice: Choice) -> Row<'a> {
    at_front(Finish, atoms, choice)
}

/// Where the cell at the variable is to go.
fn at_disposal<'a>(atoms: &'a [Part], choice: Choice) -> Row<'a> {
    at_front(Dispose, atoms, choice)
}

/// Where that part is to be shown.
fn at_wanted<'a>(part: Part, atoms: &'a [Part], choice: Choice) -> Row<'a> {
    at_front(Wanted(part), atoms, choice)
}

/// The state of a row.
fn state(alloc: Global, row: Row) -> Result<State, AllocError> {
    let mut s = blank(alloc)?;
    s.set_var(Var::Own(0), X)?;
    for pair in row.apart {
        s.assume_apart(pair.0, pair.1)?;
    }
    for part in row.taken {
        let number = add(alloc, &mut s, *part)?;
        if s.atom(number).is_some() {
            s.hand_over_atom(number)?;
        }
    }
    for part in row.atoms {
        add(alloc, &mut s, *part)?;
    }
    Ok(s)
}

/// One more atom, and its number.
fn add(alloc: Global, s: &mut State, part: Part) -> Result<u32, AllocError> {
    let number = s.next_atom();
    if number > 1000 {
        return Err(AllocError);
    }
    let atom = match part {
        Cell(t, u) => {
            let mut fields = FieldTerms::new(alloc);
            fields.put(NEXT, u)?;
            Atom::Points(t, fields)
        }
        Ls(t, u) => Atom::Ls(t, u),
        Tree(t) => Atom::Tree(t),
        Dll(t, p, l, u) => Atom::Dll(t, p, l, u),
        Linked(t, u, p) => {
            let mut fields = FieldTerms::new(alloc);
            fields.put(NEXT, u)?;
            fields.put(BACK, p)?;
            Atom::Points(t, fields)
        }
        AnyCell(_) | TwiceCell(_) | Same(..) | Apart(..) => return Err(AllocError),
    };
    s.add_atom(atom)?;
    Ok(number)
}

/// A part as a wanted conjunct.
fn wanted(alloc: Global, part: Part) -> Result<Conjunct<Term>, AllocError> {
    let mut fields = Vec::new(alloc);
    match part {
        Cell(t, u) => {
            fields.push((NEXT, Operand::Known(u)))?;
            Ok(Conjunct::Points(HERE, Operand::Known(t), fields))
        }
        AnyCell(t) => {
            fields.push((NEXT, Operand::Exists(0)))?;
            Ok(Conjunct::Points(HERE, Operand::Known(t), fields))
        }
        TwiceCell(t) => {
            fields.push((NEXT, Operand::Exists(0)))?;
            fields.push((LEFT, Operand::Exists(0)))?;
            Ok(Conjunct::Points(HERE, Operand::Known(t), fields))
        }
        Ls(t, u) => Ok(Conjunct::Segment(HERE, NEXT, Operand::Known(t), Operand::Known(u))),
        Tree(t) => Ok(Conjunct::Tree(HERE, LEFT, RIGHT, Operand::Known(t))),
        Dll(t, p, l, u) => {
            let (t, p) = (Operand::Known(t), Operand::Known(p));
            let (l, u) = (Operand::Known(l), Operand::Known(u));
            Ok(Conjunct::Doubly(HERE, NEXT, BACK, t, p, l, u))
        }
        Linked(t, u, p) => {
            fields.push((NEXT, Operand::Known(u)))?;
            fields.push((BACK, Operand::Known(p)))?;
            Ok(Conjunct::Points(HERE, Operand::Known(t), fields))
        }
        Same(t, u) => {
            let test = Test::Equal(Operand::Known(t), Operand::Known(u));
            Ok(Conjunct::Holds(HERE, test))
        }
        Apart(t, u) => {
            let test = Test::Differ(Operand::Known(t), Operand::Known(u));
            Ok(Conjunct::Holds(HERE, test))
        }
    }
}

/// One wanted conjunct, with one existential that has no term.
fn wants(alloc: Global, part: Part) -> Result<Pending, AllocError> {
    let mut conjuncts = Vec::new(alloc);
    conjuncts.push(wanted(alloc, part)?)?;
    let mut bindings = Vec::new(alloc);
    bindings.push(None)?;
    Ok(Pending::new(conjuncts, bindings))
}

/// What is in front as an item.
fn item<'a>(alloc: Global, front: Front, commands: &'a [Command]) -> Result<Item<'a>, AllocError> {
    match front {
        Finish => Ok(Item::End(HERE)),
        Dispose => Ok(Item::Run(commands)),
        Wanted(part) => Ok(Item::Take(HERE, wants(alloc, part)?, &[])),
    }
}

/// The cell at the variable is to go.
fn disposal(alloc: Global) -> Result<Vec<Command>, AllocError> {
    let x = Occurrence {
        var: Var::Own(0),
        place: HERE,
    };
    let mut commands = Vec::new(alloc);
    commands.push(Command::Dispose(HERE, Expr::Var(x)))?;
    Ok(commands)
}

/// What the strategy does at the goal of a row, where a run in front is of these commands.
fn chosen(alloc: Global, row: Row, commands: &[Command]) -> Result<Choice, AllocError> {
    let state = state(alloc, row)?;
    let mut todo = Vec::new(alloc);
    todo.push(item(alloc, row.front, commands)?)?;
    choose(alloc, &Goal { state, todo })
}

/// At the goal of each row that is done which the row says.
fn are_chosen<A: Abort>(rt: &A, alloc: Global, rows: &[Row]) -> Result<(), AllocError> {
    let commands = disposal(alloc)?;
    for (i, r) in rows.iter().enumerate() {
        assert_eq!(rt; chosen(alloc, *r, &commands)?, r.choice, "row {i}");
    }
    Ok(())
}

#[test]
fn the_strategy_takes_the_first_rule_that_applies(rt: HostRuntime) -> Result<(), AllocError> {
    let rows = [
        at_end(&[], Takes(Tag::End)),
        at_end(&[Cell(X, NIL)], Stays(Stuck::Leak)),
        at_end(&[Cell(X, NIL), Cell(X, NIL)], Takes(Tag::Absurd)),
        at_end(&[Ls(X, NIL)], Takes(Tag::Split(X, NIL))),
        at_end(&[Ls(X, NIL), Tree(Y)], Takes(Tag::Split(X, NIL))),
        at_end(&[Ls(X, NIL)], Takes(Tag::Split(Y, NIL))).taken(&[Tree(Y)]),
        at_end(&[Cell(Y, NIL), Ls(X, X), Tree(NIL)], Takes(Tag::Drop(2))),
        at_end(&[Ls(NIL, Y), Ls(X, X)], Takes(Tag::Drop(2))),
        at_end(&[Ls(NIL, Y), Tree(SEVEN)], Takes(Tag::Absurd)),
        at_end(&[Cell(X, NIL), Ls(X, Y)], Takes(Tag::Force(2))),
        at_disposal(&[Cell(X, NIL)], Takes(Tag::Dispose(1))),
        at_disposal(&[], Stays(Stuck::NoCell)),
        at_disposal(&[Tree(X)], Takes(Tag::Split(X, NIL))),
        at_disposal(&[Tree(Z), Ls(X, Y)], Takes(Tag::Unroll(2))).apart(&[(X, Y)]),
        at_wanted(Same(X, X), &[], Takes(Tag::Same)),
        at_wanted(Same(X, Y), &[], Stays(Stuck::NotEqual)),
        at_wanted(Apart(X, NIL), &[Cell(X, NIL)], Takes(Tag::Apart)),
        at_wanted(Apart(X, NIL), &[], Stays(Stuck::NotDifferent)),
        at_wanted(Cell(X, SEVEN), &[Cell(X, SEVEN)], Takes(Tag::Cell(1))),
        at_wanted(AnyCell(X), &[Cell(X, SEVEN)], Takes(Tag::Cell(1))),
        at_wanted(TwiceCell(X), &[Cell(X, SEVEN)], Stays(Stuck::NotEqual)),
        at_wanted(Cell(X, SEVEN), &[Cell(X, NIL)], Stays(Stuck::NotEqual)),
        at_wanted(Cell(Y, SEVEN), &[Cell(X, NIL)], Stays(Stuck::NoAtom)),
        at_wanted(Ls(X, X), &[], Takes(Tag::Empty)),
        at_wanted(Ls(X, NIL), &[Cell(Y, X), Ls(X, NIL)], Takes(Tag::Exact(2))),
        at_wanted(Ls(X, Y), &[Cell(X, Y)], Takes(Tag::Split(X, Y))),
        at_wanted(Ls(X, NIL), &[Cell(X, Y)], Takes(Tag::Head(1))),
        at_wanted(Ls(X, NIL), &[Ls(X, Y)], Takes(Tag::Join(1))).apart(&[(X, NIL), (X, Y)]),
        at_wanted(Ls(X, Z), &[Ls(X, Y)], Stays(Stuck::EndNotAllocated)).apart(&[(X, Z), (X, Y)]),
        at_wanted(Ls(X, Z), &[Ls(X, Y)], Takes(Tag::Split(X, Y))).apart(&[(X, Z)]),
        at_wanted(Ls(X, NIL), &[], Stays(Stuck::NoAtom)).apart(&[(X, NIL)]),
        at_wanted(Tree(X), &[Cell(X, NIL)], Takes(Tag::Node(1))),
        at_wanted(Tree(X), &[], Takes(Tag::Split(X, NIL))),
        at_wanted(Tree(X), &[], Stays(Stuck::NoAtom)).apart(&[(X, NIL)]),
    ];
    are_chosen(&rt, rt.alloc(), &rows)
}

#[test]
fn doubly_linked_segments_have_their_rules(rt: HostRuntime) -> Result<(), AllocError> {
    let rows = [
        at_end(&[Dll(X, Y, Y, X)], Takes(Tag::Drop(1))),
        at_end(&[Dll(X, Y, Z, X)], Takes(Tag::Force(1))),
        at_end(&[Dll(X, NIL, Y, Z)], Takes(Tag::Split(X, Z))),
        at_end(&[Dll(X, NIL, Y, NIL)], Stays(Stuck::Leak)).apart(&[(X, NIL)]),
        at_disposal(&[Dll(X, NIL, Y, Z)], Takes(Tag::Split(X, Z))),
        at_disposal(&[Dll(X, NIL, Y, Z)], Takes(Tag::Unroll(1))).apart(&[(X, Z)]),
        at_disposal(&[Dll(Y, NIL, X, Z)], Takes(Tag::Split(Y, Z))),
        at_disposal(&[Dll(Y, NIL, X, Z)], Takes(Tag::Back(1))).apart(&[(Y, Z)]),
        // What begins there comes before what ends there, and a tree before both
        at_disposal(
            &[Dll(Y, NIL, X, NIL), Dll(X, NIL, Z, NIL)],
            Takes(Tag::Unroll(2)),
        )
        .apart(&[(X, NIL)]),
        at_disposal(&[Dll(X, NIL, Y, Z), Tree(X)], Takes(Tag::Split(X, NIL))),
        at_wanted(Cell(X, NIL), &[Dll(Y, NIL, X, Z)], Takes(Tag::Split(Y, Z))),
        at_wanted(Dll(X, Y, Y, X), &[], Takes(Tag::Empty)),
        at_wanted(Dll(X, Y, Z, X), &[], Stays(Stuck::NotEqual)),
        at_wanted(Dll(X, Y, Z, X), &[Ls(Z, NIL)], Takes(Tag::Split(Z, NIL))),
        at_wanted(
            Dll(X, NIL, Y, NIL),
            &[Dll(X, NIL, Y, NIL)],
            Takes(Tag::Exact(1)),
        ),
        at_wanted(
            Dll(X, NIL, Z, NIL),
            &[Dll(X, NIL, Y, NIL)],
            Takes(Tag::Split(X, NIL)),
        ),
        at_wanted(
            Dll(X, NIL, Z, NIL),
            &[Dll(X, NIL, Y, NIL)],
            Takes(Tag::Join(1)),
        )
        .apart(&[(X, NIL)]),
        at_wanted(
            Dll(X, Y, Y, NIL),
            &[Dll(X, NIL, Y, NIL)],
            Stays(Stuck::NotEqual),
        )
        .apart(&[(X, NIL)]),
        at_wanted(
            Dll(X, NIL, Z, Z),
            &[Dll(X, NIL, X, Y)],
            Stays(Stuck::EndNotAllocated),
        )
        .apart(&[(X, Z), (X, Y)]),
        at_wanted(
            Dll(X, NIL, Z, NIL),
            &[Linked(X, Y, NIL)],
            Takes(Tag::Head(1)),
        ),
        at_wanted(
            Dll(X, NIL, Z, NIL),
            &[Linked(X, Y, SEVEN)],
            Stays(Stuck::NotEqual),
        ),
        at_wanted(Dll(X, NIL, Z, NIL), &[Cell(X, Y)], Stays(Stuck::NotEqual)),
        at_wanted(Dll(X, NIL, Y, NIL), &[], Stays(Stuck::NoAtom)).apart(&[(X, NIL)]),
        at_wanted(
            Dll(X, NIL, Y, NIL),
            &[Dll(Y, NIL, X, Z)],
            Takes(Tag::Split(Y, Z)),
        )
        .apart(&[(X, NIL)]),
    ];
    are_chosen(&rt, rt.alloc(), &rows)
}
