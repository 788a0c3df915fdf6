//! What is wanted first: an equality, an inequality, a cell, a list, doubly linked or not, or a tree.

ghost use Rattle.std.specs.Prelude.{◌≡◌};
ghost use Rattle.std.specs.Option.{option_map};
ghost use Rattle.sf_core.specs.Program.View.{conjunct_of};
ghost use Rattle.sf_consume.specs.Subtract.{both, double_from, equality, four, inequality, list_from, tree_from, wanted_cell, wanted_double, wanted_list, wanted_shape, wanted_tree};

use sf_base::{FieldId, Place};
use sf_core::{Conjunct, Operand, Test};
use sf_sym::{Atom, Term, term_of};

/// A wanted list segment.
#[derive(Clone, Copy)]
pub struct WantedList {
    /// Its place.
    pub place: Place,
    /// The field along which it goes.
    pub next: FieldId,
    /// Where it begins.
    pub from: Operand<Term>,
    /// Where it ends.
    pub to: Operand<Term>,
}

/// A wanted doubly linked segment.
#[derive(Clone, Copy)]
pub struct WantedDouble {
    /// Its place.
    pub place: Place,
    /// The field along which it goes.
    pub next: FieldId,
    /// The field by which it leads back.
    pub back: FieldId,
    /// Where it begins.
    pub from: Operand<Term>,
    /// What stands before its first cell.
    pub before: Operand<Term>,
    /// Its last cell.
    pub last: Operand<Term>,
    /// Where it ends.
    pub to: Operand<Term>,
}

/// A wanted tree.
#[derive(Clone, Copy)]
pub struct WantedTree {
    /// Its place.
    pub place: Place,
    /// The field of left subtrees.
    pub left: FieldId,
    /// The field of right subtrees.
    pub right: FieldId,
    /// Its root.
    pub root: Operand<Term>,
}

/// The sides of an equality.
pub(crate) fn as_equality(c: &Conjunct<Term>) -> Option<(Operand<Term>, Operand<Term>)>
    ensures { result ≡ equality (conjunct_of c.now) }
{
    match c {
        Conjunct::Holds(_, Test::Equal(x, y)) => Some((*x, *y)),
        _ => None,
    }
}

/// The sides of an inequality.
pub(crate) fn as_inequality(c: &Conjunct<Term>) -> Option<(Operand<Term>, Operand<Term>)>
    ensures { result ≡ inequality (conjunct_of c.now) }
{
    match c {
        Conjunct::Holds(_, Test::Differ(x, y)) => Some((*x, *y)),
        _ => None,
    }
}

/// The root and the fields of a cell.
pub(crate) fn as_cell(c: &Conjunct<Term>) -> Option<(Operand<Term>, &[(FieldId, Operand<Term>)])>
    ensures { option_map (λ x. (x.0, x.1.now)) result ≡ wanted_cell (conjunct_of c.now) }
{
    match c {
        Conjunct::Points(_, root, fields) => Some((*root, fields.as_slice())),
        _ => None,
    }
}

/// A list segment.
pub(crate) fn as_list(c: &Conjunct<Term>) -> Option<WantedList>
    ensures { result ≡ wanted_list (conjunct_of c.now) }
{
    match c {
        Conjunct::Segment(place, next, from, to) => Some(WantedList {
            place: *place,
            next: *next,
            from: *from,
            to: *to,
        }),
        _ => None,
    }
}

/// A doubly linked segment.
pub(crate) fn as_double(c: &Conjunct<Term>) -> Option<WantedDouble>
    ensures { result ≡ wanted_double (conjunct_of c.now) }
{
    match c {
        Conjunct::Doubly(place, next, back, from, before, last, to) => Some(WantedDouble {
            place: *place,
            next: *next,
            back: *back,
            from: *from,
            before: *before,
            last: *last,
            to: *to,
        }),
        _ => None,
    }
}

/// A tree.
pub(crate) fn as_tree(c: &Conjunct<Term>) -> Option<WantedTree>
    ensures { result ≡ wanted_tree (conjunct_of c.now) }
{
    match c {
        Conjunct::Tree(place, left, right, root) => Some(WantedTree {
            place: *place,
            left: *left,
            right: *right,
            root: *root,
        }),
        _ => None,
    }
}

/// A wanted segment or tree as an atom.
pub fn wanted_shape(bindings: &[Option<Term>], c: &Conjunct<Term>) -> Option<Atom>
    ensures { result ≡ wanted_shape bindings.now (conjunct_of c.now) }
{
    match c {
        Conjunct::Segment(_, _, x, y) => {
            let (t, u) = both(bindings, *x, *y)?;
            Some(Atom::Ls(t, u))
        }
        Conjunct::Tree(_, _, _, x) => Some(Atom::Tree(term_of(bindings, x)?)),
        Conjunct::Doubly(_, _, _, x, b, l, y) => {
            let (v, p, m, u) = four(bindings, *x, *b, *l, *y)?;
            Some(Atom::Dll(v, p, m, u))
        }
        _ => None,
    }
}

/// The terms of both operands.
pub fn both(bindings: &[Option<Term>], x: Operand<Term>, y: Operand<Term>) -> Option<(Term, Term)>
    ensures { result ≡ both bindings.now x y }
{
    let t = term_of(bindings, &x)?;
    let u = term_of(bindings, &y)?;
    Some((t, u))
}

/// The terms of the operands of a doubly linked segment: where it begins, what stands before it, its
/// last cell, where it ends.
pub fn four(
    bindings: &[Option<Term>],
    x: Operand<Term>,
    b: Operand<Term>,
    l: Operand<Term>,
    y: Operand<Term>,
) -> Option<(Term, Term, Term, Term)>
    ensures { result ≡ four bindings.now x b l y }
{
    let (v, p) = both(bindings, x, b)?;
    let (m, u) = both(bindings, l, y)?;
    Some((v, p, m, u))
}

/// The rest of a wanted list is still wanted.
pub(crate) fn list_from(w: WantedList, t: Term, u: Term) -> Conjunct<Term>
    ensures { conjunct_of result ≡ list_from w t u }
{
    Conjunct::Segment(w.place, w.next, Operand::Known(t), Operand::Known(u))
}

/// The rest of a wanted doubly linked segment is still wanted.
pub(crate) fn double_from(w: WantedDouble, v: Term, p: Term, l: Term, u: Term) -> Conjunct<Term>
    ensures { conjunct_of result ≡ double_from w v p l u }
{
    Conjunct::Doubly(
        w.place,
        w.next,
        w.back,
        Operand::Known(v),
        Operand::Known(p),
        Operand::Known(l),
        Operand::Known(u),
    )
}

/// A subtree of a wanted tree is still wanted.
pub(crate) fn tree_from(w: WantedTree, t: Term) -> Conjunct<Term>
    ensures { conjunct_of result ≡ tree_from w t }
{
    Conjunct::Tree(w.place, w.left, w.right, Operand::Known(t))
}
