//! Programs for tests that don't ask what is in them; and terms, fields and states that tests share.

use sf_base::{FieldId, Place};
use sf_core::{Links, Proc, Program};
use sf_sym::{State, Term};
use std::alloc::{AllocError, Global};

/// A program without anything.
pub(crate) fn empty(alloc: Global) -> Program {
    let fields = Vec::new(alloc);
    let links = Links::among(&fields);
    let procedures = Vec::new(alloc);
    let init = Proc::init_among(&procedures);
    Program {
        fields,
        resources: Vec::new(alloc),
        procedures,
        links,
        init,
    }
}

/// The first symbol.
pub(crate) const X: Term = Term::Sym(0);

/// The second one.
pub(crate) const Y: Term = Term::Sym(1);

/// The third one.
pub(crate) const Z: Term = Term::Sym(2);

/// The field that leads on in a list.
pub(crate) const NEXT: FieldId = FieldId(0);

/// The field that leads to the left in a tree.
pub(crate) const LEFT: FieldId = FieldId(1);

/// The field that leads to the right in a tree.
pub(crate) const RIGHT: FieldId = FieldId(2);

/// The field that leads back in a list that is doubly linked.
pub(crate) const BACK: FieldId = FieldId(3);

/// A place.
pub(crate) const HERE: Place = Place { line: 1, column: 1 };

/// A state with the symbols X, Y and Z, of which nothing is known.
pub(crate) fn blank(alloc: Global) -> Result<State, AllocError> {
    let links = Links {
        tl: Some(NEXT),
        pv: Some(BACK),
        l: Some(LEFT),
        r: Some(RIGHT),
    };
    State::new(alloc, links, Vec::new(alloc), 3)
}
