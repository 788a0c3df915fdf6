//! Wanted doubly linked segments that begin with a cell or with such a segment.

ghost use Rattle.std.specs.Prelude.{◌≡◌, ◌+◌, ◌<◌, ◌≤◌, ◌^◌, IfOk, IfSome, OnErr, is_some, true};
ghost use Rattle.std.specs.Option.{option_map};
ghost use Rattle.sf_consume.specs.Checked.Fits.{AnswersBy, link_of};
ghost use Rattle.sf_consume.specs.Subtract.{double_cell, double_head_step, double_join_step, double_joined, stepped};
ghost use Rattle.sf_sym.specs.Cells.{cell_at};

use crate::cells::first_fit;
use crate::fault::Tried;
use crate::fit::{Fitting, fit_known, link};
use crate::wanted::{WantedDouble, as_double, double_from, four};
use sf_sym::{Atom, Pending, State, Term};
use std::alloc::{AllocError, Global};

/// head: a wanted doubly linked segment whose ends differ begins with that cell, which is known to
/// lead back to what is to stand before it. `None` exactly where it doesn't; an `Err` means out of
/// memory. After either nothing has changed.
pub(crate) fn double_head(alloc: Global, state: &mut State, want: &mut Pending, a: u32) -> Tried
    requires { state.old.next_sym + 1 < 2 ^ 32 }
    ensures answers { IfOk result
        (AnswersBy (double_head_step a) state.old state.new want.old want.new) }
    ensures err { OnErr result (state.new ≡ state.old) }
    ensures err_want { OnErr result (want.new ≡ want.old) }
{
    let Some(c) = want.first() else {
        return Ok(None);
    };
    let Some(w) = as_double(c) else {
        return Ok(None);
    };
    let Some((v, p, l, u)) = four(want.bindings(), w.from, w.before, w.last, w.to) else {
        return Ok(None);
    };
    if !state.differs(v, u) {
        return Ok(None);
    }
    let Some((fit, t)) = double_cell(alloc, state, want.bindings(), w, v, p, a)? else {
        return Ok(None);
    };
    state.hand_over_cell(a, v, fit.fields, fit.next_sym)?;
    want.replace_first(double_from(w, t, v, l, u));
    Ok(Some(()))
}

/// The cell of that number at the first term, which is known to lead back to the second, and where it
/// leads. `None` exactly where there is none; an `Err` means out of memory.
fn double_cell(
    alloc: Global,
    state: &State,
    bindings: &[Option<Term>],
    w: WantedDouble,
    v: Term,
    p: Term,
    a: u32,
) -> Result<Option<(Fitting, Term)>, AllocError>
    requires { state.now.next_sym + 1 < 2 ^ 32 }
    ensures linked { IfOk result (λ r. option_map (link_of bindings.now) r
        ≡ double_cell a state.now bindings.now w v p) }
    ensures there { IfOk result (λ r. IfSome r (λ x. is_some (cell_at state.now.atoms a v) ≡ true)) }
    ensures rising { IfOk result (λ r. IfSome r (λ x. state.now.next_sym ≤ x.0.next_sym)) }
{
    let Some(fit) = first_fit(alloc, state, a, v)? else {
        return Ok(None);
    };
    let Some(fit) = fit_known(fit, w.back, p) else {
        return Ok(None);
    };
    Ok(Some(link(fit, w.next)?))
}

/// join: a wanted doubly linked segment begins with that one; its end is a constant or a cell of
/// another atom. `None` exactly where it isn't so; an `Err` means out of memory. After either nothing
/// has changed.
pub(crate) fn double_join(state: &mut State, want: &mut Pending, a: u32) -> Tried
    ensures answers { IfOk result
        (AnswersBy (double_join_step a) state.old state.new want.old want.new) }
    ensures err { OnErr result (state.new ≡ state.old) }
    ensures err_want { OnErr result (want.new ≡ want.old) }
{
    let Some(c) = want.first() else {
        return Ok(None);
    };
    let Some(w) = as_double(c) else {
        return Ok(None);
    };
    let Some((v, p, l, u)) = four(want.bindings(), w.from, w.before, w.last, w.to) else {
        return Ok(None);
    };
    let Some(atom) = state.atom(a) else {
        return Ok(None);
    };
    let Some((t, m)) = double_joined(state, a, v, p, u, atom) else {
        return Ok(None);
    };
    state.hand_over_atom(a)?;
    want.replace_first(double_from(w, t, m, l, u));
    Ok(Some(()))
}

/// Where the rest of a wanted doubly linked segment goes from and what stands before that, if the
/// atom is such a segment that begins it.
fn double_joined(state: &State, a: u32, v: Term, p: Term, u: Term, x: &Atom) -> Option<(Term, Term)>
    ensures { result ≡ double_joined state.now a v p u x.now }
{
    match x {
        Atom::Dll(t, q, m, w)
            if t.is(v) && q.is(p) && (u.is_constant() || state.allocated(u, Some(a))) => {
            Some((*w, *m))
        }
        _ => None,
    }
}
