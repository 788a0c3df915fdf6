//! The order of a file's annotations, worked out by hand.

use crate::reading::admit;
use sf_base::{ProcId, ResId};
use sf_core::{Conjunct, Expr, Ordered};
use std::alloc::{AllocError, Global};
use std::process::Abort;
use std::test::Fail;

/// Appends the places of the conjuncts, each before those in its branches.
fn add_places(cs: &[Conjunct<Expr>], found: &mut Vec<(u32, u32)>) -> Result<(), AllocError> {
    for c in cs {
        match c {
            Conjunct::Holds(place, _) => found.push((place.line, place.column))?,
            Conjunct::Points(place, _, _) => found.push((place.line, place.column))?,
            Conjunct::Segment(place, _, _, _) => found.push((place.line, place.column))?,
            Conjunct::Doubly(place, ..) => found.push((place.line, place.column))?,
            Conjunct::Tree(place, _, _, _) => found.push((place.line, place.column))?,
            Conjunct::If(place, _, this, that) => {
                found.push((place.line, place.column))?;
                add_places(&this.conjuncts, found)?;
                add_places(&that.conjuncts, found)?;
            }
        }
    }
    Ok(())
}

/// The conjuncts of the assertion are at those places.
fn are_at<A: Abort>(
    rt: &A,
    alloc: Global,
    order: &Ordered,
    places: &[(u32, u32)],
) -> Result<(), AllocError> {
    let mut found = Vec::new(alloc);
    add_places(&order.assertion.level.conjuncts, &mut found)?;
    assert_eq!(rt; found.as_slice(), places);
    Ok(())
}

#[test]
fn annotations_are_arranged(rt: HostRuntime) -> Result<(), Fail> {
    let file = "f(x) [ls(_y,nil) * x|->tl:_y] {
  while (x != nil)
[tree(_b) * _a == _b * x|->l:_a] { x = nil; }
}
[x|->l:_c * if x == nil then ls(_d,nil) * x|->tl:_d else x == nil]
resource r (v) [ls(_y,nil) * v|->tl:_y]
";
    let orders: [&[(u32, u32)]; 4] = [
        &[(6, 30), (6, 17)],
        &[(1, 20), (1, 7)],
        &[(3, 24), (3, 13), (3, 2)],
        &[(5, 2), (5, 13), (5, 43), (5, 30), (5, 58)],
    ];
    let alloc = rt.alloc();
    match admit(alloc, file.as_bytes()) {
        Ok(arranged) => {
            assert_eq!(rt; arranged.orders.len(), orders.len());
            for (order, places) in arranged.orders.iter().zip(orders) {
                are_at(&rt, alloc, order, places)?;
            }
            assert_eq!(rt; arranged.program.resources.len(), 1);
            are_at(&rt, alloc, arranged.invariant(ResId(0)), orders[0])?;
            assert_eq!(rt; arranged.program.procedures.len(), 1);
            are_at(&rt, alloc, arranged.pre(ProcId(0)), orders[1])?;
            are_at(&rt, alloc, arranged.post(ProcId(0)), orders[3])?;
        }
        Err(_) => assert!(rt; false),
    }
    Ok(())
}
