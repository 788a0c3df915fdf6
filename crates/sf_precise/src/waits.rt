//! What a conjunct waits for before it is ready.

ghost use Rattle.std.specs.Prelude.{◌≡◌, IfOk};
ghost use Rattle.sf_base.specs.Results.{Appends};
ghost use Rattle.sf_core.specs.Program.View.{conjunct_of};
ghost use Rattle.sf_precise.specs.Checked.Outer.{outer_of};
ghost use Rattle.sf_precise.specs.Checked.Waits.{is_unknown, known_outside, need_of, rests_on, unknown_among, waits_for};

use crate::outer::{add_existential, add_of_four, add_of_test, is_made_by};
use sf_core::{Conjunct, Expr, Operand, Scope, Test};
use std::alloc::{AllocError, Global};

/// What a conjunct waits for: so many of these existentials have to become known.
#[derive(Debug, Drop)]
pub struct Demand {
    pub need: usize,
    pub waits: Vec<u32>,
}

/// What the conjunct waits for, where nothing is known at first, or all but what that scope makes.
/// A conjunct of which a branch has no order waits for more than there is. The outer ones are those
/// that it takes from the scopes around it.
pub fn demand_of(
    alloc: Global,
    start: Option<Scope>,
    c: &Conjunct<Expr>,
    outer: &[u32],
    ordered: bool,
) -> Result<Demand, AllocError>
    requires { outer.now ≡ outer_of (conjunct_of c.now) }
    ensures need { IfOk result (λ d. d.need ≡ need_of (known_outside start)
        (conjunct_of c.now) ordered) }
    ensures waits { IfOk result (λ d. d.waits.items ≡ waits_for (known_outside start)
        (conjunct_of c.now)) }
{
    let mut all = Vec::new(alloc);
    add_supplies(c, outer, &mut all)?;
    let waits = unknown_among(alloc, start, &all)?;
    let need = match c {
        Conjunct::Holds(_, Test::Equal(x, y)) => {
            usize::from(is_unknown(start, x) && is_unknown(start, y))
        }
        _ => waits.len() + usize::from(!ordered),
    };
    Ok(Demand { need, waits })
}

/// Whether the existential of that number is known at first.
fn is_known_outside(start: Option<Scope>, n: u32) -> bool
    ensures { result ≡ known_outside start n }
{
    match start {
        None => false,
        Some(made) => !is_made_by(made, n),
    }
}

/// Whether the operand is not known at first.
fn is_unknown(start: Option<Scope>, x: &Operand<Expr>) -> bool
    ensures { result ≡ is_unknown (known_outside start) x.now }
{
    match x {
        Operand::Known(_) => false,
        Operand::Exists(n) => !is_known_outside(start, *n),
    }
}

/// Those that are not known at first.
fn unknown_among(alloc: Global, start: Option<Scope>, ns: &[u32]) -> Result<Vec<u32>, AllocError>
    ensures { IfOk result (λ found. found.items ≡ unknown_among (known_outside start) ns.now) }
{
    let mut found = Vec::new(alloc);
    for n in ns {
        if !is_known_outside(start, *n) {
            found.push(*n)?;
        }
    }
    Ok(found)
}

/// Appends the existentials on which readiness of the conjunct rests.
fn add_supplies(c: &Conjunct<Expr>, outer: &[u32], found: &mut Vec<u32>) -> Result<(), AllocError>
    requires { outer.now ≡ outer_of (conjunct_of c.now) }
    ensures { Appends result found.old.items found.new.items (rests_on (conjunct_of c.now)) }
{
    match c {
        Conjunct::Holds(_, test) => {
            add_of_test(test, found)?;
            Ok(())
        }
        Conjunct::Points(_, root, _) => {
            add_existential(root, found)?;
            Ok(())
        }
        Conjunct::Segment(_, _, from, to) => {
            add_existential(from, found)?;
            add_existential(to, found)?;
            Ok(())
        }
        Conjunct::Doubly(_, _, _, from, before, last, to) => {
            add_of_four(from, before, last, to, found)?;
            Ok(())
        }
        Conjunct::Tree(_, _, _, root) => {
            add_existential(root, found)?;
            Ok(())
        }
        Conjunct::If(_, _, _, _) => {
            found.extend_from_slice(outer)?;
            Ok(())
        }
    }
}
