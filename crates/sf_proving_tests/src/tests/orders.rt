//! Orders of small assertions, found by hand, and of a long one. Each conjunct is named by the
//! column of its place.

use sf_base::{FieldId, Place};
use sf_core::{Assertion, Conjunct, Expr, Level, Operand, Scope, Test};
use sf_precise::{OrderFault, order};
use std::alloc::{AllocError, Global};
use std::test::Fail;

fn at(column: u32) -> Place {
    Place { line: 1, column }
}

fn known() -> Operand<Expr> {
    Operand::Known(Expr::Nil)
}

fn some(n: u32) -> Operand<Expr> {
    Operand::Exists(n)
}

fn tree(column: u32, root: Operand<Expr>) -> Conjunct<Expr> {
    Conjunct::Tree(at(column), FieldId(2), FieldId(3), root)
}

fn list(column: u32, from: Operand<Expr>) -> Conjunct<Expr> {
    Conjunct::Segment(at(column), FieldId(1), from, known())
}

/// A doubly linked segment from a known place, up to another one.
fn double(column: u32, before: Operand<Expr>, last: Operand<Expr>) -> Conjunct<Expr> {
    let back = FieldId(4);
    Conjunct::Doubly(at(column), FieldId(1), back, known(), before, last, known())
}

fn equal(column: u32, x: Operand<Expr>, y: Operand<Expr>) -> Conjunct<Expr> {
    Conjunct::Holds(at(column), Test::Equal(x, y))
}

fn differ(column: u32, x: Operand<Expr>, y: Operand<Expr>) -> Conjunct<Expr> {
    Conjunct::Holds(at(column), Test::Differ(x, y))
}

/// A cell at a known place whose field has that value.
fn cell(alloc: Global, column: u32, value: Operand<Expr>) -> Result<Conjunct<Expr>, AllocError> {
    let fields = vec![in alloc; (FieldId(1), value)]?;
    Ok(Conjunct::Points(at(column), known(), fields))
}

fn level(first: u32, count: u32, conjuncts: Vec<Conjunct<Expr>>) -> Level<Expr> {
    Level {
        made: Scope { first, count },
        conjuncts,
    }
}

/// A choice with that first branch, whose second one is empty.
fn choice(alloc: Global, column: u32, this: Level<Expr>) -> Conjunct<Expr> {
    let that = level(9, 0, Vec::new(alloc));
    Conjunct::If(at(column), Test::True, this, that)
}

/// Appends the columns of the conjuncts, each before those in its branches.
fn add_columns(cs: &[Conjunct<Expr>], found: &mut Vec<u32>) -> Result<(), AllocError> {
    for c in cs {
        match c {
            Conjunct::Holds(place, _) => found.push(place.column)?,
            Conjunct::Points(place, _, _) => found.push(place.column)?,
            Conjunct::Segment(place, _, _, _) => found.push(place.column)?,
            Conjunct::Doubly(place, ..) => found.push(place.column)?,
            Conjunct::Tree(place, _, _, _) => found.push(place.column)?,
            Conjunct::If(place, _, this, that) => {
                found.push(place.column)?;
                add_columns(&this.conjuncts, found)?;
                add_columns(&that.conjuncts, found)?;
            }
        }
    }
    Ok(())
}

/// The columns in order, or that of the conjunct that is never taken and nothing after it.
fn columns(
    alloc: Global,
    count: u32,
    conjuncts: Vec<Conjunct<Expr>>,
) -> Result<(bool, Vec<u32>), AllocError> {
    let a = Assertion {
        names: Vec::new(alloc),
        level: level(0, count, conjuncts),
    };
    let mut found = Vec::new(alloc);
    match order(alloc, &a) {
        Ok(ordered) => {
            add_columns(&ordered.assertion.level.conjuncts, &mut found)?;
            Ok((true, found))
        }
        Err(OrderFault::Undetermined(place)) => {
            found.push(place.column)?;
            Ok((false, found))
        }
        Err(OrderFault::OutOfMemory) => Err(AllocError),
    }
}

#[test]
fn a_doubly_linked_segment_waits_for_all_its_terms(rt: HostRuntime) -> Result<(), Fail> {
    let alloc = rt.alloc();
    let cs = vec![in alloc;
        double(1, some(0), some(1)),
        cell(alloc, 2, some(1))?,
        cell(alloc, 3, some(0))?,
    ]?;
    let (whole, found) = columns(alloc, 2, cs)?;
    assert!(rt; whole);
    assert_eq!(rt; found.as_slice(), [2, 3, 1].as_slice());
    let cs = vec![in alloc; double(1, some(0), some(1)), cell(alloc, 2, some(0))?]?;
    let (whole, found) = columns(alloc, 2, cs)?;
    assert!(rt; !whole);
    assert_eq!(rt; found.as_slice(), [1].as_slice());
    Ok(())
}

#[test]
fn a_conjunct_waits_for_what_it_needs(rt: HostRuntime) -> Result<(), Fail> {
    let alloc = rt.alloc();
    let cs = vec![in alloc; list(1, some(0)), cell(alloc, 2, some(0))?]?;
    let (whole, found) = columns(alloc, 1, cs)?;
    assert!(rt; whole);
    assert_eq!(rt; found.as_slice(), [2, 1].as_slice());
    let cs = vec![in alloc;
        differ(1, some(0), some(1)),
        cell(alloc, 2, some(0))?,
        equal(3, some(1), known()),
    ]?;
    let (whole, found) = columns(alloc, 2, cs)?;
    assert!(rt; whole);
    assert_eq!(rt; found.as_slice(), [2, 3, 1].as_slice());
    let cs = vec![in alloc;
        equal(1, some(0), some(1)),
        equal(2, some(1), some(2)),
        equal(3, some(2), known()),
    ]?;
    let (whole, found) = columns(alloc, 3, cs)?;
    assert!(rt; whole);
    assert_eq!(rt; found.as_slice(), [3, 2, 1].as_slice());
    let cs = vec![in alloc; tree(1, known()), tree(2, known())]?;
    let (whole, found) = columns(alloc, 0, cs)?;
    assert!(rt; whole);
    assert_eq!(rt; found.as_slice(), [1, 2].as_slice());
    Ok(())
}

#[test]
fn the_first_that_is_never_taken_is_named(rt: HostRuntime) -> Result<(), Fail> {
    let alloc = rt.alloc();
    let cs = vec![in alloc; tree(17, some(0))]?;
    let (whole, found) = columns(alloc, 1, cs)?;
    assert!(rt; !whole);
    assert_eq!(rt; found.as_slice(), [17].as_slice());
    let cs = vec![in alloc; tree(1, known()), tree(2, some(1)), tree(3, some(0))]?;
    let (whole, found) = columns(alloc, 2, cs)?;
    assert!(rt; !whole);
    assert_eq!(rt; found.as_slice(), [2].as_slice());
    let cs = vec![in alloc; equal(1, some(0), some(1))]?;
    let (whole, found) = columns(alloc, 2, cs)?;
    assert!(rt; !whole);
    assert_eq!(rt; found.as_slice(), [1].as_slice());
    Ok(())
}

#[test]
fn branches_are_in_order_too(rt: HostRuntime) -> Result<(), Fail> {
    let alloc = rt.alloc();
    // A choice waits for the existentials that it takes from outside.
    let branch = level(1, 0, vec![in alloc; list(2, some(0))]?);
    let cs = vec![in alloc; choice(alloc, 1, branch), cell(alloc, 3, some(0))?]?;
    let (whole, found) = columns(alloc, 1, cs)?;
    assert!(rt; whole);
    assert_eq!(rt; found.as_slice(), [3, 1, 2].as_slice());
    // A branch's own existential becomes known inside it.
    let branch = level(
        0,
        1,
        vec![in alloc; list(2, some(0)), cell(alloc, 3, some(0))?]?,
    );
    let cs = vec![in alloc; choice(alloc, 1, branch)]?;
    let (whole, found) = columns(alloc, 0, cs)?;
    assert!(rt; whole);
    assert_eq!(rt; found.as_slice(), [1, 3, 2].as_slice());
    // It is not the one of that number outside, so the choice is never taken.
    let branch = level(0, 1, vec![in alloc; tree(3, some(0))]?);
    let cs = vec![in alloc; cell(alloc, 1, some(0))?, choice(alloc, 2, branch)]?;
    let (whole, found) = columns(alloc, 1, cs)?;
    assert!(rt; !whole);
    assert_eq!(rt; found.as_slice(), [2].as_slice());
    Ok(())
}

#[test]
fn a_long_chain_in_reverse_is_ordered(rt: HostRuntime) -> Result<(), Fail> {
    let alloc = rt.alloc();
    let mut cs = Vec::new(alloc);
    for i in 0..2000u32 {
        cs.push(equal(i, some(i), some(i + 1)))?;
    }
    cs.push(equal(2000, some(2000), known()))?;
    let (whole, found) = columns(alloc, 2001, cs)?;
    assert!(rt; whole);
    assert_eq!(rt; found.len(), 2001);
    assert_eq!(rt; found.first().copied(), Some(2000));
    assert_eq!(rt; found.last().copied(), Some(0));
    Ok(())
}
