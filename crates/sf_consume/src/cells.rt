//! Wanted cells, and wanted lists and trees that begin with a cell.

ghost use Rattle.std.specs.Prelude.{◌≡◌, ◌+◌, ◌<◌, ◌≤◌, ◌^◌, IfNone, IfOk, IfSome, None, OnErr, Some, [], is_some, true};
ghost use Rattle.std.specs.Option.{option_map};
ghost use Rattle.sf_consume.specs.Checked.Fits.{AnswersBy, after_changes, fitting_of};
ghost use Rattle.sf_consume.specs.Subtract.{cell_step, fitting, head_step, list_head_step, new_symbols, node_step, stepped};
ghost use Rattle.sf_sym.specs.Cells.{cell_at};
ghost use Rattle.sf_sym.specs.Pending.{existentials_in, pending_of};

use crate::doubles::double_head;
use crate::fault::Tried;
use crate::fit::{Fitting, fit_fields, link};
use crate::wanted::{as_cell, as_list, as_tree, both, list_from, tree_from};
use sf_base::FieldId;
use sf_core::Operand;
use sf_sym::{Pending, State, Term, term_of};
use std::alloc::{AllocError, Global};

/// cell: a wanted cell is that one, whose fields fit. `None` exactly where it isn't; an `Err` means
/// out of memory. After either nothing has changed.
pub(crate) fn cell(alloc: Global, state: &mut State, want: &mut Pending, a: u32) -> Tried
    requires { state.old.next_sym + new_symbols (pending_of want.old).conjuncts < 2 ^ 32 }
    ensures answers { IfOk result (AnswersBy (cell_step a) state.old state.new want.old want.new) }
    ensures err { OnErr result (state.new ≡ state.old) }
    ensures err_want { OnErr result (want.new ≡ want.old) }
{
    let Some(c) = want.first() else {
        return Ok(None);
    };
    let Some((root, wanted)) = as_cell(c) else {
        return Ok(None);
    };
    let Some((t, fit)) = fitting(alloc, state, want.bindings(), root, wanted, a)? else {
        return Ok(None);
    };
    state.hand_over_cell(a, t, fit.fields, fit.next_sym)?;
    bind_all(want, fit.changes.as_slice());
    want.take_first();
    Ok(Some(()))
}

/// A wanted cell is that one: its root, and how its fields fit. `None` exactly where it isn't; an
/// `Err` means out of memory.
fn fitting(
    alloc: Global,
    state: &State,
    bindings: &[Option<Term>],
    root: Operand<Term>,
    wanted: &[(FieldId, Operand<Term>)],
    a: u32,
) -> Result<Option<(Term, Fitting)>, AllocError>
    requires { state.now.next_sym + existentials_in wanted.now < 2 ^ 32 }
    ensures fits { IfOk result (λ r. option_map (fitting_of bindings.now) r
        ≡ fitting a state.now bindings.now (root, wanted.now)) }
    ensures there { IfOk result (λ r.
        IfSome r (λ x. is_some (cell_at state.now.atoms a x.0) ≡ true)) }
    ensures rising { IfOk result (λ r.
        IfSome r (λ x. state.now.next_sym ≤ x.1.next_sym)) }
{
    let Some(t) = term_of(bindings, &root) else {
        return Ok(None);
    };
    let Some(fit) = first_fit(alloc, state, a, t)? else {
        return Ok(None);
    };
    let Some(fit) = fit_fields(bindings, fit, wanted)? else {
        return Ok(None);
    };
    Ok(Some((t, fit)))
}

/// The cell of that number at the root, of which nothing is compared yet. `None` exactly where
/// there is none; an `Err` means out of memory.
pub(crate) fn first_fit(
    alloc: Global,
    state: &State,
    a: u32,
    root: Term,
) -> Result<Option<Fitting>, AllocError>
    ensures fields { IfOk result (λ r.
        option_map (λ f. f.fields) r ≡ cell_at state.now.atoms a root) }
    ensures symbols { IfOk result (λ r. IfSome r (λ f. f.next_sym ≡ state.now.next_sym)) }
    ensures changes { IfOk result (λ r. IfSome r (λ f. f.changes.items ≡ [])) }
{
    let Some(fields) = state.copy_cell(a, root)? else {
        return Ok(None);
    };
    Ok(Some(Fitting {
        next_sym: state.next_sym(),
        fields,
        changes: Vec::new(alloc),
    }))
}

/// The existentials stand for what these changes say, one after the other.
fn bind_all(want: &mut Pending, changes: &[(u32, Term)])
    ensures conjuncts { want.new.conjuncts ≡ want.old.conjuncts }
    ensures bindings { want.new.bindings ≡ after_changes changes.now want.old.bindings }
{
    let mut left = changes;
    while let Some((first, rest)) = left.split_first() {
        want.bind(first.0, first.1);
        left = rest;
    }
}

/// head: a wanted segment whose ends differ begins with that cell. `None` exactly where it doesn't;
/// an `Err` means out of memory. After either nothing has changed.
#[tactic(auto, using(crate::proofs::Either::first_is, crate::proofs::Either::second_is))]
pub(crate) fn head(alloc: Global, state: &mut State, want: &mut Pending, a: u32) -> Tried
    requires { state.old.next_sym + 1 < 2 ^ 32 }
    ensures answers { IfOk result (AnswersBy (head_step a) state.old state.new want.old want.new) }
    ensures err { OnErr result (state.new ≡ state.old) }
    ensures err_want { OnErr result (want.new ≡ want.old) }
{
    if list_head(alloc, state, want, a)?.is_some() {
        return Ok(Some(()));
    }
    double_head(alloc, state, want, a)
}

/// The same of a segment that isn't doubly linked.
fn list_head(alloc: Global, state: &mut State, want: &mut Pending, a: u32) -> Tried
    requires { state.old.next_sym + 1 < 2 ^ 32 }
    ensures answers { IfOk result
        (AnswersBy (list_head_step a) state.old state.new want.old want.new) }
    ensures err { OnErr result (state.new ≡ state.old) }
    ensures err_want { OnErr result (want.new ≡ want.old) }
{
    let Some(c) = want.first() else {
        return Ok(None);
    };
    let Some(w) = as_list(c) else {
        return Ok(None);
    };
    let Some((t, u)) = both(want.bindings(), w.from, w.to) else {
        return Ok(None);
    };
    if !state.differs(t, u) {
        return Ok(None);
    }
    let Some(fit) = first_fit(alloc, state, a, t)? else {
        return Ok(None);
    };
    let (fit, v) = link(fit, w.next)?;
    state.hand_over_cell(a, t, fit.fields, fit.next_sym)?;
    want.replace_first(list_from(w, v, u));
    Ok(Some(()))
}

/// node: a wanted tree begins with that cell. `None` exactly where it doesn't; an `Err` means out
/// of memory. After either nothing has changed.
pub(crate) fn node(alloc: Global, state: &mut State, want: &mut Pending, a: u32) -> Tried
    requires { state.old.next_sym + 2 < 2 ^ 32 }
    ensures answers { IfOk result (AnswersBy (node_step a) state.old state.new want.old want.new) }
    ensures err { OnErr result (state.new ≡ state.old) }
    ensures err_want { OnErr result (want.new ≡ want.old) }
{
    let Some(c) = want.first() else {
        return Ok(None);
    };
    let Some(w) = as_tree(c) else {
        return Ok(None);
    };
    let Some(t) = term_of(want.bindings(), &w.root) else {
        return Ok(None);
    };
    let Some(fit) = first_fit(alloc, state, a, t)? else {
        return Ok(None);
    };
    let (fit, l) = link(fit, w.left)?;
    let (fit, r) = link(fit, w.right)?;
    let c = want.split_first(tree_from(w, l), tree_from(w, r))?;
    match state.hand_over_cell(a, t, fit.fields, fit.next_sym) {
        Ok(()) => Ok(Some(())),
        Err(error) => {
            want.join_first(c);
            Err(error)
        }
    }
}
