//! States of many atoms.

ghost use Rattle.std.specs.Prelude.{◌<◌};

use sf_core::Links;
use sf_sym::{Atom, FieldTerms, State, Term};
use std::alloc::{AllocError, Global};

/// More atoms than any state here has.
const MOST: u32 = 1_000_000;

/// A state without atoms that has so many symbols.
fn empty(alloc: Global, symbols: u32) -> Result<State, AllocError> {
    let links = Links {
        tl: None,
        pv: None,
        l: None,
        r: None,
    };
    State::new(alloc, links, Vec::new(alloc), symbols)
}

/// One more atom, if there aren't too many.
fn add(state: &mut State, atom: Atom) -> Result<(), AllocError> {
    if state.next_atom() >= MOST {
        return Err(AllocError);
    }
    state.add_atom(atom)
}

/// So many segments, each from a symbol of its own to the next one, and every second one known not
/// to be empty.
pub fn segments(alloc: Global, count: u32) -> Result<State, AllocError>
    requires { count < 1000000 }
{
    let mut state = empty(alloc, count + 1)?;
    for i in 0..count {
        add(&mut state, Atom::Ls(Term::Sym(i), Term::Sym(i + 1)))?;
        if i % 2 == 0 {
            state.assume_apart(Term::Sym(i), Term::Sym(i + 1))?;
        }
    }
    Ok(state)
}

/// So many cells, at so many symbols in turn.
pub fn shared_cells(alloc: Global, count: u32, symbols: u32) -> Result<State, AllocError>
    requires { 0 < symbols }
{
    let mut state = empty(alloc, symbols)?;
    for i in 0..count {
        let root = Term::Sym(i % symbols);
        add(&mut state, Atom::Points(root, FieldTerms::new(alloc)))?;
    }
    Ok(state)
}

/// So many lists from one symbol, of none of which it is known whether it is empty.
pub fn lists(alloc: Global, count: u32) -> Result<State, AllocError> {
    let mut state = empty(alloc, 1)?;
    for _ in 0..count {
        add(&mut state, Atom::Ls(Term::Sym(0), Term::Nil))?;
    }
    Ok(state)
}
