//! The lowest part of the heap that begins at a term.

ghost use Rattle.std.specs.Prelude.{◌≡◌};
ghost use Rattle.std.specs.Option.{option_map};
ghost use Rattle.sf_consume.specs.Subtract.{is_same_shape};
ghost use Rattle.sf_search.specs.Checked.Seeking.{sought_at};
ghost use Rattle.sf_search.specs.Strategy.{double_at, last_at, lowest, segment_at, tree_at, which};
ghost use Rattle.sf_search.specs.Checked.Chooses.{field_of};
ghost use Rattle.sf_sym.specs.Cells.{fields_at};

use sf_base::FieldId;
use sf_sym::{Atom, Kind, State, Term, field_term};

/// The number of the lowest cell at the term.
#[tactic(auto, using(crate::proofs::Seeking::lowest_cell_is))]
pub(crate) fn lowest_cell(state: &State, t: Term) -> Option<u32>
    ensures { result ≡ option_map (λ f. f.0) (lowest (λ x. fields_at x t) state.now.atoms) }
{
    lowest_number(state, t, Kind::Cell)
}

/// The number of the lowest segment from the term, and its end.
pub(crate) fn lowest_segment(state: &State, t: Term) -> Option<(u32, Term)>
    ensures { result ≡ lowest (segment_at t) state.now.atoms }
{
    lowest_at(state, t, Kind::Segment)
}

/// The number of the lowest tree with that root.
#[tactic(auto, using(crate::proofs::Seeking::lowest_tree_is))]
pub(crate) fn lowest_tree(state: &State, t: Term) -> Option<u32>
    ensures { result ≡ option_map (λ f. f.0) (lowest (tree_at t) state.now.atoms) }
{
    lowest_number(state, t, Kind::Tree)
}

/// The number of the lowest cell at the term, and its term in that field, if it is known.
pub(crate) fn lowest_field(state: &State, t: Term, f: FieldId) -> Option<(u32, Option<Term>)>
    ensures { result
        ≡ option_map (field_of f) (lowest (λ x. fields_at x t) state.now.atoms) }
{
    state.is_numbered();
    let a = state.lowest_at(t, Kind::Cell)?;
    let atom = state.atom(a)?;
    let fields = atom.fields_at(t)?;
    Some((a, field_term(fields, f)))
}

/// The lowest doubly linked segment from the term: its number, what stands before it, its last cell and
/// its end.
pub(crate) fn lowest_double(state: &State, t: Term) -> Option<(u32, (Term, Term, Term))>
    ensures { result ≡ lowest (double_at t) state.now.atoms }
{
    state.is_numbered();
    let a = state.lowest_at(t, Kind::Double)?;
    let atom = state.atom(a)?;
    let rest = double_at(t, atom)?;
    Some((a, rest))
}

/// What stands before a doubly linked segment from the term, its last cell and its end.
fn double_at(t: Term, atom: &Atom) -> Option<(Term, Term, Term)>
    ensures { result ≡ double_at t atom.now }
{
    match atom {
        Atom::Dll(first, before, last, end) if first.is(t) => Some((*before, *last, *end)),
        _ => None,
    }
}

/// The lowest doubly linked segment whose last cell may be at the term: its number, its first cell and
/// its end.
pub(crate) fn lowest_last(state: &State, t: Term) -> Option<(u32, (Term, Term))>
    ensures { result ≡ lowest (last_at t) state.now.atoms }
{
    state.is_numbered();
    let a = state.lowest_at(t, Kind::DoubleLast)?;
    let atom = state.atom(a)?;
    let ends = last_at(t, atom)?;
    Some((a, ends))
}

/// The first cell and the end of a doubly linked segment whose last cell may be at the term.
fn last_at(t: Term, atom: &Atom) -> Option<(Term, Term)>
    ensures { result ≡ last_at t atom.now }
{
    match atom {
        Atom::Dll(first, _, last, end) if last.is(t) => Some((*first, *end)),
        _ => None,
    }
}

/// The number of the lowest atom that is that segment or tree.
#[tactic(auto, using(crate::proofs::Seeking::lowest_between_is, crate::proofs::Seeking::lowest_same_double_is, crate::proofs::Seeking::lowest_same_tree_is))]
pub(crate) fn lowest_shape(state: &State, wanted: &Atom) -> Option<u32>
    ensures { result ≡ option_map (λ f. f.0)
        (lowest (which (λ x. is_same_shape x wanted.now)) state.now.atoms) }
{
    match wanted {
        Atom::Points(..) => None,
        Atom::Ls(t, u) => lowest_number(state, *t, Kind::SegmentTo(*u)),
        Atom::Tree(t) => lowest_number(state, *t, Kind::Tree),
        Atom::Dll(t, p, l, u) => lowest_number(state, *t, Kind::DoubleTo(*p, *l, *u)),
    }
}

/// The number of the lowest part that is sought at the term.
fn lowest_number(state: &State, t: Term, kind: Kind) -> Option<u32>
    ensures { result ≡ option_map (λ f. f.0) (lowest (sought_at kind t) state.now.atoms) }
{
    let (a, _) = lowest_at(state, t, kind)?;
    Some(a)
}

/// The lowest part that is sought at the term: its number, and where it leads.
fn lowest_at(state: &State, t: Term, kind: Kind) -> Option<(u32, Term)>
    ensures { result ≡ lowest (sought_at kind t) state.now.atoms }
{
    state.is_numbered();
    let a = state.lowest_at(t, kind)?;
    let atom = state.atom(a)?;
    let end = sought_at(kind, t, atom)?;
    Some((a, end))
}

/// Where the part leads, if it is sought at the term: a segment to its end, and all others to nil.
fn sought_at(kind: Kind, t: Term, atom: &Atom) -> Option<Term>
    ensures { result ≡ sought_at kind t atom.now }
{
    match (kind, atom) {
        (Kind::Cell, Atom::Points(root, _)) if root.is(t) => Some(Term::Nil),
        (Kind::Segment, Atom::Ls(root, end)) if root.is(t) => Some(*end),
        (Kind::SegmentTo(u), Atom::Ls(root, end)) if root.is(t) && end.is(u) => Some(Term::Nil),
        (Kind::Tree, Atom::Tree(root)) if root.is(t) => Some(Term::Nil),
        (Kind::Double, Atom::Dll(root, _, _, end)) if root.is(t) => Some(*end),
        (Kind::DoubleLast, Atom::Dll(_, _, last, end)) if last.is(t) => Some(*end),
        (Kind::DoubleTo(q, m, w), Atom::Dll(root, before, last, end))
            if root.is(t) && (before.is(q) && (last.is(m) && end.is(w))) => { Some(Term::Nil) }
        _ => None,
    }
}
