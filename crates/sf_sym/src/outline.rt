ghost use Rattle.std.specs.Prelude.{◌≡◌, ◌&&◌, cond, None, Some};
ghost use Rattle.sf_sym.specs.Checked.Rows.{bare, outline};
ghost use Rattle.sf_sym.specs.Checked.Keeping.{joins, other_root};
ghost use Rattle.sf_sym.specs.Equalities.{atom_with, put_for};
ghost use Rattle.sf_sym.specs.Tests.{begins, is_integer_tree, is_pair, root, same_term};
ghost use Rattle.sf_sym.specs.Kinds.{is_kind};
ghost use Rattle.sf_sym.specs.Known.{forced_by, is_nothing};

use crate::atom::{Atom, Kind};
use crate::empty::forced_double;
use crate::replace::Replacement;
use crate::term::Term;

/// What the tests of a state ask of an atom: all of it but the fields of a cell.
#[derive(Clone, Copy, Debug, PartialEq, Eq, Hash)]
pub(crate) enum Outline {
    /// A cell at that term.
    Cell(Term),
    /// A list segment from the first term up to the second.
    Segment(Term, Term),
    /// A tree from that term.
    Tree(Term),
    /// A doubly linked segment from the first term up to the fourth, with the second before its first
    /// cell and its last cell at the third.
    Double(Term, Term, Term, Term),
}

/// An outline with the number of its atom.
#[derive(Clone, Copy, Debug, Default, PartialEq, Eq, Hash)]
pub(crate) struct Row {
    /// The number of the atom.
    pub(crate) number: u32,
    /// What the tests ask of it.
    pub(crate) outline: Outline,
}

impl Default for Outline {
    fn default() -> Outline {
        Outline::Tree(Term::Nil)
    }
}

impl Outline {
    /// The outline of an atom.
    pub(crate) fn of(atom: &Atom) -> Outline
        ensures { result ≡ outline atom.now }
    {
        match atom {
            Atom::Points(t, _) => Outline::Cell(*t),
            Atom::Ls(t, u) => Outline::Segment(*t, *u),
            Atom::Tree(t) => Outline::Tree(*t),
            Atom::Dll(v, p, l, u) => Outline::Double(*v, *p, *l, *u),
        }
    }

    /// The first term at which it begins.
    pub(crate) fn root(&self) -> Term
        ensures { result ≡ root (bare self.now) }
    {
        match self {
            Outline::Cell(t) | Outline::Segment(t, _) | Outline::Tree(t) => *t,
            Outline::Double(v, ..) => *v,
        }
    }

    /// Where it begins at that term, the other term at which it begins, if there is one.
    pub(crate) fn other_root(&self, t: Term) -> Option<Term>
        ensures { result ≡ other_root t (bare self.now) }
    {
        match self {
            Outline::Cell(_) | Outline::Segment(..) | Outline::Tree(_) => None,
            Outline::Double(v, _, l, _) => other(*v, *l, t),
        }
    }

    /// Whether it begins at that term.
    pub(crate) fn begins(&self, t: Term) -> bool
        ensures { result ≡ begins t (bare self.now) }
    {
        match self {
            Outline::Cell(r) | Outline::Segment(r, _) | Outline::Tree(r) => r.is(t),
            Outline::Double(v, _, l, _) => v.is(t) || l.is(t),
        }
    }

    /// Whether it is the tree of an integer.
    pub(crate) fn is_integer_tree(&self) -> bool
        ensures { result ≡ is_integer_tree (bare self.now) }
    {
        matches!(self, Outline::Tree(Term::Int(_)))
    }

    /// Whether it is an empty segment or tree: from a term to itself, or from nil; the last cell of a
    /// doubly linked one is what stands before it.
    pub(crate) fn is_nothing(&self) -> bool
        ensures { result ≡ is_nothing (bare self.now) }
    {
        match self {
            Outline::Cell(_) => false,
            Outline::Segment(t, u) => t.is(*u),
            Outline::Tree(t) => t.is(Term::Nil),
            Outline::Double(v, p, l, u) => v.is(*u) && p.is(*l),
        }
    }

    /// Whether it is of that kind at the term.
    pub(crate) fn is_kind(&self, kind: Kind, t: Term) -> bool
        ensures { result ≡ is_kind kind t (bare self.now) }
    {
        match (self, kind) {
            (Outline::Cell(r), Kind::Cell)
            | (Outline::Segment(r, _), Kind::Segment)
            | (Outline::Tree(r), Kind::Tree)
            | (Outline::Double(r, ..), Kind::Double)
            | (Outline::Double(_, _, r, _), Kind::DoubleLast) => r.is(t),
            (Outline::Segment(r, end), Kind::SegmentTo(u)) => r.is(t) && end.is(u),
            (Outline::Double(v, p, l, u), Kind::DoubleTo(q, m, w)) => {
                v.is(t) && (p.is(q) && (l.is(m) && u.is(w)))
            }
            _ => false,
        }
    }

    /// Two terms that are the same since it can only be empty, and aren't one term yet; whether its
    /// root is elsewhere is known.
    pub(crate) fn forced_by(&self, elsewhere: bool) -> Option<(Term, Term)>
        ensures { result ≡ forced_by elsewhere (bare self.now) }
    {
        match self {
            Outline::Segment(t, u) if !t.is(*u) && elsewhere => Some((*t, *u)),
            Outline::Tree(t) if !t.is(Term::Nil) && elsewhere => Some((*t, Term::Nil)),
            Outline::Double(v, p, l, u) => forced_double(elsewhere, *v, *p, *l, *u),
            Outline::Cell(_) | Outline::Segment(..) | Outline::Tree(_) => None,
        }
    }

    /// Whether it has a cell where the two terms differ.
    pub(crate) fn joins(&self, t: Term, u: Term) -> bool
        ensures { result ≡ joins (t, u) (bare self.now) }
    {
        match self {
            Outline::Cell(_) => false,
            Outline::Segment(a, b) | Outline::Double(a, _, _, b) => are_pair(t, u, *a, *b),
            Outline::Tree(a) => are_pair(t, u, *a, Term::Nil),
        }
    }

    /// The outline with a symbol replaced.
    pub(crate) fn with(&self, r: Replacement) -> Outline
        ensures { bare result ≡ atom_with (put_for r.symbol r.by) (bare self.now) }
    {
        match self {
            Outline::Cell(t) => Outline::Cell(r.term(*t)),
            Outline::Segment(t, u) => Outline::Segment(r.term(*t), r.term(*u)),
            Outline::Tree(t) => Outline::Tree(r.term(*t)),
            Outline::Double(v, p, l, u) => {
                Outline::Double(r.term(*v), r.term(*p), r.term(*l), r.term(*u))
            }
        }
    }
}

/// Of two terms the one that isn't the third, where they are two and the third is one of them.
fn other(v: Term, l: Term, t: Term) -> Option<Term>
    ensures { result ≡ cond (same_term v l) None (Some (cond (same_term v t) l v)) }
{
    if v.is(l) {
        None
    } else if v.is(t) {
        Some(l)
    } else {
        Some(v)
    }
}

/// Whether the first two terms are the other two, in either order.
fn are_pair(t: Term, u: Term, a: Term, b: Term) -> bool
    ensures { result ≡ is_pair a b (t, u) }
{
    t.is(a) && u.is(b) || t.is(b) && u.is(a)
}
