ghost use Rattle.std.specs.Prelude.{◌≡◌, IfOk};
ghost use Rattle.std.specs.Option.{option_map};
ghost use Rattle.sf_sym.specs.Cells.{fields_at};
ghost use Rattle.sf_sym.specs.Tests.{begins, root};

use crate::fields::FieldTerms;
use crate::term::Term;
use sf_base::FieldId;
use std::alloc::{AllocError, Global};

/// A part of the heap, as a state knows it.
#[derive(Drop)]
pub enum Atom {
    /// Exactly one cell, at the root, with these terms in these fields.
    Points(Term, FieldTerms),
    /// A list segment from the first term, its root, up to the second.
    Ls(Term, Term),
    /// A tree from that term, its root.
    Tree(Term),
    /// A doubly linked segment from the first term, its root, up to the fourth: before its first cell
    /// stands the second, and its last cell is at the third.
    Dll(Term, Term, Term, Term),
}

/// An atom and the number by which tags name it.
#[derive(Drop)]
pub struct Numbered {
    /// Its number, from 1.
    pub number: u32,
    /// The part of the heap.
    pub atom: Atom,
}

/// What an atom is at a term.
#[derive(Clone, Copy, Debug)]
pub enum Kind {
    /// A cell there.
    Cell,
    /// A segment from there.
    Segment,
    /// A segment from there up to that term.
    SegmentTo(Term),
    /// A tree there.
    Tree,
    /// A doubly linked segment from there.
    Double,
    /// A doubly linked segment of which the last cell is there.
    DoubleLast,
    /// A doubly linked segment from there: what stands before it, its last cell, and where it ends.
    DoubleTo(Term, Term, Term),
}

impl Atom {
    /// The first term at which it begins.
    pub fn root(&self) -> Term
        ensures { result ≡ root self.now }
    {
        match self {
            Atom::Points(t, _) | Atom::Ls(t, _) | Atom::Tree(t) | Atom::Dll(t, ..) => *t,
        }
    }

    /// Whether it begins at that term.
    pub fn begins(&self, t: Term) -> bool
        ensures { result ≡ begins t self.now }
    {
        match self {
            Atom::Points(r, _) | Atom::Ls(r, _) | Atom::Tree(r) => r.is(t),
            Atom::Dll(v, _, l, _) => v.is(t) || l.is(t),
        }
    }

    /// The known fields, where it is a cell at that term.
    pub fn fields_at(&self, t: Term) -> Option<&[(FieldId, Term)]>
        ensures { option_map (λ x. x.now) result ≡ fields_at self.now t }
    {
        match self {
            Atom::Points(root, fields) if root.is(t) => Some(fields.as_slice()),
            Atom::Points(..) | Atom::Ls(..) | Atom::Tree(_) | Atom::Dll(..) => None,
        }
    }

    /// A copy of the known fields, where it is a cell at that term. An `Err` means out of memory.
    pub(crate) fn copy_fields(&self, t: Term) -> Result<Option<FieldTerms>, AllocError>
        ensures { IfOk result (λ fields. fields ≡ fields_at self.now t) }
    {
        match self {
            Atom::Points(root, fields) if root.is(t) => Ok(Some(fields.copy()?)),
            Atom::Points(..) | Atom::Ls(..) | Atom::Tree(_) | Atom::Dll(..) => Ok(None),
        }
    }

    /// The same atom. An `Err` means out of memory.
    pub fn copy(&self) -> Result<Atom, AllocError>
        ensures { IfOk result (λ atom. atom ≡ self.now) }
    {
        match self {
            Atom::Points(t, fields) => Ok(Atom::Points(*t, fields.copy()?)),
            Atom::Ls(t, u) => Ok(Atom::Ls(*t, *u)),
            Atom::Tree(t) => Ok(Atom::Tree(*t)),
            Atom::Dll(v, p, l, u) => Ok(Atom::Dll(*v, *p, *l, *u)),
        }
    }
}

/// The same atoms with the same numbers. An `Err` means out of memory.
pub(crate) fn copy_all(alloc: Global, atoms: &[Numbered]) -> Result<Vec<Numbered>, AllocError>
    ensures { IfOk result (λ copies. copies.items ≡ atoms.now) }
{
    let mut copies = Vec::with_capacity(alloc, atoms.len())?;
    for a in atoms {
        let atom = a.atom.copy()?;
        copies.push(Numbered {
            number: a.number,
            atom,
        })?;
    }
    Ok(copies)
}
