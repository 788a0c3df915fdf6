//! Footprints that were found by hand. The cells have two fields: the first is the field of lists
//! and the left one of trees, and the second the right one and the one that leads back. The variable 0
//! is the location 1, and the variable 1 the location 5.

use sf_base::{FieldId, Place, Value, Var};
use sf_core::{Assertion, Conjunct, Expr, Level, Occurrence, Operand, Scope, Test};
use sf_foot::{Vars, footprint};
use sf_heap::{Cell, Heap, Locations};
use sf_precise::order;
use std::alloc::{AllocError, Global};
use std::process::Abort;
use std::test::Fail;

const AT: Place = Place { line: 1, column: 1 };

const FIRST: FieldId = FieldId(0);

const SECOND: FieldId = FieldId(1);

const NIL: Operand<Expr> = Operand::Known(Expr::Nil);

fn variable(i: u32) -> Operand<Expr> {
    Operand::Known(Expr::Var(Occurrence {
        var: Var::Own(i),
        place: AT,
    }))
}

fn some(n: u32) -> Operand<Expr> {
    Operand::Exists(n)
}

fn list(from: Operand<Expr>, to: Operand<Expr>) -> Conjunct<Expr> {
    Conjunct::Segment(AT, FIRST, from, to)
}

fn double(
    from: Operand<Expr>,
    before: Operand<Expr>,
    last: Operand<Expr>,
    to: Operand<Expr>,
) -> Conjunct<Expr> {
    Conjunct::Doubly(AT, FIRST, SECOND, from, before, last, to)
}

fn tree(root: Operand<Expr>) -> Conjunct<Expr> {
    Conjunct::Tree(AT, FIRST, SECOND, root)
}

fn same(x: Operand<Expr>, y: Operand<Expr>) -> Conjunct<Expr> {
    Conjunct::Holds(AT, Test::Equal(x, y))
}

fn other(x: Operand<Expr>, y: Operand<Expr>) -> Conjunct<Expr> {
    Conjunct::Holds(AT, Test::Differ(x, y))
}

/// A cell whose first field has that value.
fn cell(
    alloc: Global,
    root: Operand<Expr>,
    value: Operand<Expr>,
) -> Result<Conjunct<Expr>, AllocError> {
    let fields = vec![in alloc; (FIRST, value)]?;
    Ok(Conjunct::Points(AT, root, fields))
}

fn level(first: u32, count: u32, conjuncts: Vec<Conjunct<Expr>>) -> Level<Expr> {
    Level {
        made: Scope { first, count },
        conjuncts,
    }
}

/// A choice between nothing and one conjunct.
fn nothing_or(
    alloc: Global,
    test: Test<Operand<Expr>>,
    c: Conjunct<Expr>,
) -> Result<Conjunct<Expr>, AllocError> {
    let that = vec![in alloc; c]?;
    Ok(Conjunct::If(AT, test, level(9, 0, Vec::new(alloc)), level(9, 0, that)))
}

/// The heap with those cells.
fn heap_with(alloc: Global, cells: &[(u64, Value, Value)]) -> Result<Heap, Fail> {
    let mut heap = Heap::new(alloc);
    for (at, first, second) in cells {
        let values = vec![in alloc; *first, *second]?;
        heap.put(*at, Cell::from_values(values))?;
    }
    Ok(heap)
}

/// The footprint of these conjuncts, which make two existentials.
fn found(
    alloc: Global,
    cells: &[(u64, Value, Value)],
    conjuncts: Vec<Conjunct<Expr>>,
) -> Result<Option<Locations>, Fail> {
    let a = Assertion {
        names: Vec::new(alloc),
        level: level(0, 2, conjuncts),
    };
    let vars = Vars {
        own: vec![in alloc; Value::Loc(1), Value::Loc(5)]?,
        shared: Vec::new(alloc),
    };
    let heap = heap_with(alloc, cells)?;
    let ordered = order(alloc, &a)?;
    Ok(footprint(alloc, &ordered, &vars, &heap)?)
}

/// They have these locations, or no footprint.
fn assert_at(rt: &impl Abort, found: Option<Locations>, expected: Option<&[u64]>) {
    match (found, expected) {
        (Some(at), Some(locations)) => assert_eq!(rt; at.as_slice(), locations),
        (None, None) => {}
        _ => panic!(rt; "a footprint where there is none, or none where there is one"),
    }
}

const LIST: [(u64, Value, Value); 4] = [
    (1, Value::Loc(7), Value::Nil),
    (3, Value::Nil, Value::Nil),
    (5, Value::Loc(3), Value::Nil),
    (7, Value::Nil, Value::Nil),
];

#[test]
fn lists_are_walked_up_to_their_ends(rt: HostRuntime) -> Result<(), Fail> {
    let alloc = rt.alloc();
    let (x, y) = (variable(0), variable(1));
    assert_at(
        &rt,
        found(alloc, &LIST, vec![in alloc; list(x, NIL)]?)?,
        Some(&[1, 7]),
    );
    assert_at(
        &rt,
        found(alloc, &LIST, vec![in alloc; list(x, x)]?)?,
        Some(&[]),
    );
    assert_at(&rt, found(alloc, &LIST, vec![in alloc; list(x, y)]?)?, None);
    let both = vec![in alloc; list(x, NIL), list(y, NIL)]?;
    assert_at(&rt, found(alloc, &LIST, both)?, Some(&[1, 3, 5, 7]));
    let ends_outside = [(1, Value::Loc(5), Value::Nil)];
    assert_at(
        &rt,
        found(alloc, &ends_outside, vec![in alloc; list(x, y)]?)?,
        Some(&[1]),
    );
    let round = [
        (1, Value::Loc(2), Value::Nil),
        (2, Value::Loc(1), Value::Nil),
    ];
    assert_at(
        &rt,
        found(alloc, &round, vec![in alloc; list(x, NIL)]?)?,
        None,
    );
    let number = [(1, Value::Int(3), Value::Nil)];
    assert_at(
        &rt,
        found(alloc, &number, vec![in alloc; list(x, NIL)]?)?,
        None,
    );
    Ok(())
}

/// The only footprint of one conjunct.
fn assert_one(
    rt: &impl Abort,
    alloc: Global,
    cells: &[(u64, Value, Value)],
    c: Conjunct<Expr>,
    expected: Option<&[u64]>,
) -> Result<(), Fail> {
    assert_at(rt, found(alloc, cells, vec![in alloc; c]?)?, expected);
    Ok(())
}

#[test]
fn doubly_linked_lists_lead_back(rt: HostRuntime) -> Result<(), Fail> {
    let alloc = rt.alloc();
    let (x, y) = (variable(0), variable(1));
    let three = [
        (1, Value::Loc(7), Value::Nil),
        (5, Value::Nil, Value::Loc(7)),
        (7, Value::Loc(5), Value::Loc(1)),
    ];
    assert_one(&rt, alloc, &three, double(x, NIL, y, NIL), Some(&[1, 5, 7]))?;
    assert_one(&rt, alloc, &three, double(x, y, y, NIL), None)?;
    assert_one(&rt, alloc, &three, double(x, NIL, x, NIL), None)?;
    assert_one(&rt, alloc, &three, double(x, y, y, x), Some(&[]))?;
    assert_one(&rt, alloc, &three, double(x, NIL, y, x), None)?;
    let behind = vec![in alloc; double(some(0), x, y, NIL), cell(alloc, x, some(0))?]?;
    assert_at(&rt, found(alloc, &three, behind)?, Some(&[1, 5, 7]));
    let one_way = [(1, Value::Loc(5), Value::Nil), (5, Value::Nil, Value::Nil)];
    assert_one(&rt, alloc, &one_way, double(x, NIL, y, NIL), None)?;
    let round = [
        (1, Value::Loc(5), Value::Loc(5)),
        (5, Value::Loc(1), Value::Loc(1)),
    ];
    assert_one(&rt, alloc, &round, double(x, y, y, NIL), None)?;
    Ok(())
}

#[test]
fn no_cell_is_taken_twice(rt: HostRuntime) -> Result<(), Fail> {
    let alloc = rt.alloc();
    let (x, y) = (variable(0), variable(1));
    let twice = vec![in alloc; cell(alloc, x, some(0))?, cell(alloc, x, some(1))?]?;
    assert_at(&rt, found(alloc, &LIST, twice)?, None);
    let shared = [
        (1, Value::Loc(3), Value::Nil),
        (3, Value::Nil, Value::Nil),
        (5, Value::Loc(3), Value::Nil),
    ];
    let both = vec![in alloc; list(x, NIL), list(y, NIL)]?;
    assert_at(&rt, found(alloc, &shared, both)?, None);
    Ok(())
}

#[test]
fn trees_share_nothing(rt: HostRuntime) -> Result<(), Fail> {
    let alloc = rt.alloc();
    let small = [
        (1, Value::Loc(2), Value::Loc(9)),
        (2, Value::Nil, Value::Nil),
        (9, Value::Nil, Value::Loc(5)),
        (5, Value::Nil, Value::Nil),
    ];
    let root = variable(0);
    assert_at(
        &rt,
        found(alloc, &small, vec![in alloc; tree(root)]?)?,
        Some(&[1, 2, 5, 9]),
    );
    let shared = [
        (1, Value::Loc(2), Value::Loc(2)),
        (2, Value::Nil, Value::Nil),
        (9, Value::Nil, Value::Nil),
    ];
    assert_at(
        &rt,
        found(alloc, &shared, vec![in alloc; tree(root)]?)?,
        None,
    );
    let round = [(1, Value::Nil, Value::Loc(1))];
    assert_at(
        &rt,
        found(alloc, &round, vec![in alloc; tree(root)]?)?,
        None,
    );
    Ok(())
}

#[test]
fn existentials_get_what_fields_have(rt: HostRuntime) -> Result<(), Fail> {
    let alloc = rt.alloc();
    let (x, y) = (variable(0), variable(1));
    let next = vec![in alloc; list(some(0), NIL), cell(alloc, x, some(0))?]?;
    assert_at(&rt, found(alloc, &LIST, next)?, Some(&[1, 7]));
    let wanted = vec![in alloc; cell(alloc, x, NIL)?]?;
    assert_at(&rt, found(alloc, &LIST, wanted)?, None);
    let compared = vec![in alloc; cell(alloc, x, some(0))?, same(some(0), y)]?;
    assert_at(&rt, found(alloc, &LIST, compared)?, None);
    let named = vec![in alloc; same(some(0), y), list(some(0), NIL), other(x, some(0))]?;
    assert_at(&rt, found(alloc, &LIST, named)?, Some(&[3, 5]));
    Ok(())
}

#[test]
fn a_choice_goes_by_its_test(rt: HostRuntime) -> Result<(), Fail> {
    let alloc = rt.alloc();
    let x = variable(0);
    let one = nothing_or(alloc, Test::Equal(x, NIL), cell(alloc, x, some(0))?)?;
    let with_cell = vec![in alloc; cell(alloc, variable(1), some(0))?, one]?;
    assert_at(&rt, found(alloc, &LIST, with_cell)?, None);
    let some_list = nothing_or(alloc, Test::Equal(x, NIL), list(x, NIL))?;
    assert_at(
        &rt,
        found(alloc, &LIST, vec![in alloc; some_list]?)?,
        Some(&[1, 7]),
    );
    let none = nothing_or(alloc, Test::Differ(x, NIL), list(x, NIL))?;
    assert_at(&rt, found(alloc, &LIST, vec![in alloc; none]?)?, Some(&[]));
    Ok(())
}
