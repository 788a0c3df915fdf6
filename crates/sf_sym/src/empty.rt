//! Atoms that can only be empty, and the lowest atom of a kind.

ghost use Rattle.std.specs.Prelude.{◌≡◌, is_some};
ghost use Rattle.std.specs.Option.{option_and_then, option_map};
ghost use Rattle.sf_sym.specs.Cells.{atom_at};
ghost use Rattle.sf_sym.specs.Kinds.{is_kind};
ghost use Rattle.sf_sym.specs.Known.{IsLowest, ends, first_forced, first_nothing, forced_by, forced_double, forced_pair, is_elsewhere, is_nothing};

use crate::atom::{Atom, Kind};
use crate::state::State;
use crate::term::Term;

impl Atom {
    /// Whether it is an empty segment or tree: from a term to itself, or from nil; the last cell of a
    /// doubly linked one is what stands before it.
    pub fn is_nothing(&self) -> bool
        ensures { result ≡ is_nothing self.now }
    {
        match self {
            Atom::Points(..) => false,
            Atom::Ls(t, u) => t.is(*u),
            Atom::Tree(t) => t.is(Term::Nil),
            Atom::Dll(v, p, l, u) => v.is(*u) && p.is(*l),
        }
    }

    /// The ends of a segment or a tree: its root, and where it ends.
    pub fn ends(&self) -> Option<(Term, Term)>
        ensures { result ≡ ends self.now }
    {
        match self {
            Atom::Points(..) => None,
            Atom::Ls(t, u) => Some((*t, *u)),
            Atom::Tree(t) => Some((*t, Term::Nil)),
            Atom::Dll(v, _, _, u) => Some((*v, *u)),
        }
    }

    /// Two terms that are the same since the atom can only be empty, and aren't one term yet;
    /// whether its root is elsewhere is known.
    fn forced_by(&self, elsewhere: bool) -> Option<(Term, Term)>
        ensures { result ≡ forced_by elsewhere self.now }
    {
        match self {
            Atom::Ls(t, u) if !t.is(*u) && elsewhere => Some((*t, *u)),
            Atom::Tree(t) if !t.is(Term::Nil) && elsewhere => Some((*t, Term::Nil)),
            Atom::Dll(v, p, l, u) => forced_double(elsewhere, *v, *p, *l, *u),
            Atom::Points(..) | Atom::Ls(..) | Atom::Tree(_) => None,
        }
    }
}

/// Two terms of a doubly linked segment that are the same since it can only be empty, and aren't one
/// term yet: where it ends where it begins, what stands before it and its last cell; else its ends, if
/// its root is elsewhere.
pub(crate) fn forced_double(
    elsewhere: bool,
    v: Term,
    p: Term,
    l: Term,
    u: Term,
) -> Option<(Term, Term)>
    ensures { result ≡ forced_double elsewhere v p l u }
{
    if v.is(u) {
        if p.is(l) { None } else { Some((p, l)) }
    } else if elsewhere {
        Some((v, u))
    } else {
        None
    }
}

impl State {
    /// The ends of the atom of that number, where it is a segment or a tree.
    pub fn ends(&self, a: u32) -> Option<(Term, Term)>
        ensures { result ≡ option_and_then ends (atom_at self.now.atoms a) }
    {
        self.atom(a)?.ends()
    }

    /// Two terms that are the same since an atom of that number can only be empty, and aren't one
    /// term yet: its ends, where its root is a constant or a cell of another atom.
    pub fn forced_pair(&self, a: u32, atom: &Atom) -> Option<(Term, Term)>
        ensures { result ≡ forced_pair self.now a atom.now }
    {
        atom.forced_by(self.is_elsewhere(a, atom.root()))
    }

    /// Whether the term is no cell of that atom: it is a constant, or a cell of another one.
    fn is_elsewhere(&self, a: u32, t: Term) -> bool
        ensures { result ≡ is_elsewhere self.now a t }
    {
        t.is_constant() || self.allocated(t, Some(a))
    }

    /// The lowest number of an atom that is an empty segment or tree. `None` exactly where there is
    /// none.
    pub fn droppable(&self) -> Option<u32>
        ensures first { result ≡ first_nothing self.now.atoms }
        ensures lowest { IsLowest (λ a. is_nothing a.atom) self.now.atoms result }
    {
        self.is_numbered();
        self.known.store.droppable()
    }

    /// The lowest number of an atom that can only be empty though two terms that are the same then
    /// aren't one yet, with those. `None` exactly where there is none.
    pub fn forced(&self) -> Option<(u32, Term, Term)>
        ensures first { result ≡ first_forced self.now self.now.atoms }
        ensures lowest { IsLowest (λ a. is_some (forced_pair self.now a.number a.atom))
            self.now.atoms (option_map (λ f. f.0) result) }
    {
        self.is_numbered();
        self.first_forced()
    }

    /// The first of them.
    fn first_forced(&self) -> Option<(u32, Term, Term)>
        ensures { result ≡ first_forced self.now self.now.atoms }
    {
        self.known.store.forced()
    }

    /// The lowest number of an atom that is of that kind at the term. `None` exactly where there is
    /// none.
    pub fn lowest_at(&self, t: Term, kind: Kind) -> Option<u32>
        ensures { IsLowest (λ a. is_kind kind t a.atom) self.now.atoms result }
    {
        self.known.store.lowest_at(t, kind)
    }
}
