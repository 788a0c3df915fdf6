//! What is looked for, from the variable 0 on; the variable 1 is a last cell.

use sf_base::{FieldId, Place, Var};
use sf_core::{Assertion, Conjunct, Expr, Level, Occurrence, Operand, Scope};
use std::alloc::{AllocError, Global};

const AT: Place = Place { line: 1, column: 1 };

const FIRST: FieldId = FieldId(0);

const SECOND: FieldId = FieldId(1);

const ROOT: Operand<Expr> = Operand::Known(Expr::Var(Occurrence {
    var: Var::Own(0),
    place: AT,
}));

const LAST: Operand<Expr> = Operand::Known(Expr::Var(Occurrence {
    var: Var::Own(1),
    place: AT,
}));

/// The assertion of those conjuncts, which make so many existentials.
fn assertion(alloc: Global, count: u32, conjuncts: Vec<Conjunct<Expr>>) -> Assertion {
    Assertion {
        names: Vec::new(alloc),
        level: Level {
            made: Scope { first: 0, count },
            conjuncts,
        },
    }
}

/// A list up to nil.
pub fn list(alloc: Global) -> Result<Assertion, AllocError> {
    let one = Conjunct::Segment(AT, FIRST, ROOT, Operand::Known(Expr::Nil));
    Ok(assertion(alloc, 0, vec![in alloc; one]?))
}

/// A doubly linked list up to nil, before whose first cell its last one stands.
pub fn double(alloc: Global) -> Result<Assertion, AllocError> {
    let nil = Operand::Known(Expr::Nil);
    let one = Conjunct::Doubly(AT, FIRST, SECOND, ROOT, LAST, LAST, nil);
    Ok(assertion(alloc, 0, vec![in alloc; one]?))
}

/// A tree.
pub fn tree(alloc: Global) -> Result<Assertion, AllocError> {
    let one = Conjunct::Tree(AT, FIRST, SECOND, ROOT);
    Ok(assertion(alloc, 0, vec![in alloc; one]?))
}

/// So many cells, each of which has the next one's location in an existential.
pub fn cells(alloc: Global, count: u32) -> Result<Assertion, AllocError> {
    let mut conjuncts = Vec::new(alloc);
    let mut root = ROOT;
    let mut last = 0;
    for _ in 0..count {
        let next = Operand::Exists(last);
        let fields = vec![in alloc; (FIRST, next)]?;
        conjuncts.push(Conjunct::Points(AT, root, fields))?;
        root = next;
        last = u32::wrapping_add(last, 1);
    }
    Ok(assertion(alloc, last, conjuncts))
}
