//! Wanted segments and trees that are an atom, or begin with one.

ghost use Rattle.std.specs.Prelude.{◌≡◌, IfNone, IfOk, IfSome, None, OnErr, Some};
ghost use Rattle.sf_consume.specs.Checked.Fits.{AnswersBy};
ghost use Rattle.sf_consume.specs.Subtract.{exact_step, is_same_shape, join_step, joined, list_join_step, stepped};

use crate::doubles::double_join;
use crate::fault::Tried;
use crate::wanted::{as_list, both, list_from, wanted_shape};
use sf_sym::{Atom, Pending, State, Term};

/// exact: a wanted segment or tree is that atom. `None` exactly where it isn't; an `Err` means out
/// of memory. After either nothing has changed.
pub(crate) fn exact(state: &mut State, want: &mut Pending, a: u32) -> Tried
    ensures answers { IfOk result (AnswersBy (exact_step a) state.old state.new want.old want.new) }
    ensures err { OnErr result (state.new ≡ state.old) }
    ensures err_want { OnErr result (want.new ≡ want.old) }
{
    let Some(c) = want.first() else {
        return Ok(None);
    };
    let Some(wanted) = wanted_shape(want.bindings(), c) else {
        return Ok(None);
    };
    let Some(atom) = state.atom(a) else {
        return Ok(None);
    };
    if !is_same_shape(atom, &wanted) {
        return Ok(None);
    }
    state.hand_over_atom(a)?;
    want.take_first();
    Ok(Some(()))
}

/// Whether two atoms are one segment, or one tree.
pub fn is_same_shape(x: &Atom, y: &Atom) -> bool
    ensures { result ≡ is_same_shape x.now y.now }
{
    match (x, y) {
        (Atom::Ls(t, u), Atom::Ls(v, w)) => t.is(*v) && u.is(*w),
        (Atom::Tree(t), Atom::Tree(v)) => t.is(*v),
        (Atom::Dll(v, p, l, u), Atom::Dll(t, q, m, w)) => {
            v.is(*t) && p.is(*q) && l.is(*m) && u.is(*w)
        }
        _ => false,
    }
}

/// join: a wanted segment begins with that segment; its end is a constant or a cell of another
/// atom. `None` exactly where it isn't so; an `Err` means out of memory. After either nothing has
/// changed.
#[tactic(auto, using(crate::proofs::Either::first_is, crate::proofs::Either::second_is))]
pub(crate) fn join(state: &mut State, want: &mut Pending, a: u32) -> Tried
    ensures answers { IfOk result (AnswersBy (join_step a) state.old state.new want.old want.new) }
    ensures err { OnErr result (state.new ≡ state.old) }
    ensures err_want { OnErr result (want.new ≡ want.old) }
{
    if list_join(state, want, a)?.is_some() {
        return Ok(Some(()));
    }
    double_join(state, want, a)
}

/// The same of a segment that isn't doubly linked.
fn list_join(state: &mut State, want: &mut Pending, a: u32) -> Tried
    ensures answers { IfOk result
        (AnswersBy (list_join_step a) state.old state.new want.old want.new) }
    ensures err { OnErr result (state.new ≡ state.old) }
    ensures err_want { OnErr result (want.new ≡ want.old) }
{
    let Some(c) = want.first() else {
        return Ok(None);
    };
    let Some(w) = as_list(c) else {
        return Ok(None);
    };
    let Some((t, u)) = both(want.bindings(), w.from, w.to) else {
        return Ok(None);
    };
    let Some(atom) = state.atom(a) else {
        return Ok(None);
    };
    let Some(v) = joined(state, a, t, u, atom) else {
        return Ok(None);
    };
    state.hand_over_atom(a)?;
    want.replace_first(list_from(w, v, u));
    Ok(Some(()))
}

/// Where the rest of a wanted segment goes from, if the atom is a segment that begins it.
fn joined(state: &State, a: u32, t: Term, u: Term, x: &Atom) -> Option<Term>
    ensures { result ≡ joined state.now a t u x.now }
{
    match x {
        Atom::Ls(v, w) if v.is(t) && (u.is_constant() || state.allocated(u, Some(a))) => Some(*w),
        _ => None,
    }
}
