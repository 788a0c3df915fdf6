//! Whether a step of subtraction has a row at a conjunct, without taking it.

ghost use Rattle.std.specs.Prelude.{◌≡◌, IfOk, is_some};
ghost use Rattle.sf_core.specs.Program.Syntax.{none};
ghost use Rattle.sf_core.specs.Program.View.{conjunct_of};
ghost use Rattle.sf_consume.specs.Subtract.{bind_step, cell_step, empty_step, same_step};
ghost use Rattle.sf_sym.specs.State.{State as AnyState};

use crate::meeting::{Seen, fit};
use crate::pure::binding;
use crate::wanted::{as_cell, as_equality, both, wanted_shape};
use sf_core::Conjunct;
use sf_sym::{State, Term, term_of};
use std::alloc::{AllocError, Global};

/// Whether bind has a row: an equality of which one side is an existential without a term.
pub fn binds(bindings: &[Option<Term>], c: &Conjunct<Term>) -> bool
    ensures { (s : AnyState)
        → result ≡ is_some (bind_step s bindings.now (conjunct_of c.now) none) }
{
    match as_equality(c) {
        Some((x, y)) => binding(bindings, x, y).is_some(),
        None => false,
    }
}

/// Whether same has a row: an equality of one term with itself.
pub fn is_same(bindings: &[Option<Term>], c: &Conjunct<Term>) -> bool
    ensures { (s : AnyState)
        → result ≡ is_some (same_step s bindings.now (conjunct_of c.now) none) }
{
    let Some((x, y)) = as_equality(c) else {
        return false;
    };
    match both(bindings, x, y) {
        Some((t, u)) => t.is(u),
        None => false,
    }
}

/// Whether empty has a row: a segment from a term to itself, or the tree of nil; of a doubly linked
/// segment the last cell is what stands before it, too.
pub fn is_empty(bindings: &[Option<Term>], c: &Conjunct<Term>) -> bool
    ensures { (s : AnyState)
        → result ≡ is_some (empty_step s bindings.now (conjunct_of c.now) none) }
{
    match wanted_shape(bindings, c) {
        Some(x) => x.is_nothing(),
        None => false,
    }
}

/// Whether cell has a row with the atom of that number: a wanted cell is that one, and its fields
/// fit. An `Err` means out of memory.
pub fn fits_cell(
    alloc: Global,
    state: &State,
    bindings: &[Option<Term>],
    c: &Conjunct<Term>,
    a: u32,
) -> Result<bool, AllocError>
    ensures { IfOk result (λ b. b
        ≡ is_some (cell_step a state.now bindings.now (conjunct_of c.now) none)) }
{
    let Some((root, wanted)) = as_cell(c) else {
        return Ok(false);
    };
    let Some(t) = term_of(bindings, &root) else {
        return Ok(false);
    };
    let Some(fields) = state.cell(a, t) else {
        return Ok(false);
    };
    let seen = Seen {
        next: state.next_sym(),
        fields,
        bindings,
    };
    fit(alloc, seen, wanted)
}
