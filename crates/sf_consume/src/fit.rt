//! How far the fields of a wanted cell fit a cell. Nothing of the state changes while they are
//! compared: what existentials are to stand for is noted, and the cell's fields are a copy.

ghost use Rattle.std.specs.Prelude.{◌≡◌, ◌+◌, ◌<◌, ◌≤◌, ◌^◌, get_or, IfOk, IfSome, None, List, Option};
ghost use Rattle.std.specs.Option.{option_map};
ghost use Rattle.sf_consume.specs.Checked.Fits.{after_changes, fit_of, latest, link_of};
ghost use Rattle.sf_consume.specs.Subtract.{fit_existential, fit_field, fit_fields, fit_known, fit_new, link};
ghost use Rattle.sf_sym.specs.Fields.{field_term};
ghost use Rattle.sf_sym.specs.Pending.{existentials_in, one_if_existential};
ghost use Rattle.sf_sym.specs.declared.term.Term.{Term as TermOf};

use sf_base::FieldId;
use sf_core::Operand;
use sf_sym::{FieldTerms, Term};
use std::alloc::AllocError;

/// How far the fields of a wanted cell fit.
#[derive(Drop)]
pub(crate) struct Fitting {
    /// The number of the next symbol.
    pub next_sym: u32,
    /// The fields of the cell.
    pub fields: FieldTerms,
    /// Existentials by their numbers, and what they are to stand for, one after the other.
    pub changes: Vec<(u32, Term)>,
}

/// Compares the wanted fields with those of a cell, in the order written. `None` exactly where one
/// doesn't fit; an `Err` means out of memory.
pub(crate) fn fit_fields(
    bindings: &[Option<Term>],
    mut fit: Fitting,
    wanted: &[(FieldId, Operand<Term>)],
) -> Result<Option<Fitting>, AllocError>
    requires { fit.next_sym + existentials_in wanted.now < 2 ^ 32 }
    ensures fits { IfOk result (λ after. option_map (fit_of bindings.now) after
        ≡ fit_fields (fit_of bindings.now fit) wanted.now) }
    ensures rising { IfOk result (λ after.
        IfSome after (λ f. fit.next_sym ≤ f.next_sym)) }
{
    let mut left = wanted;
    while let Some((first, rest)) = left.split_first() {
        let Some(after) = fit_field(bindings, fit, first)? else {
            return Ok(None);
        };
        fit = after;
        left = rest;
    }
    Ok(Some(fit))
}

/// Compares one wanted field. `None` exactly where it doesn't fit; an `Err` means out of memory.
fn fit_field(
    bindings: &[Option<Term>],
    fit: Fitting,
    wanted: &(FieldId, Operand<Term>),
) -> Result<Option<Fitting>, AllocError>
    requires { fit.next_sym + one_if_existential wanted.now.1 < 2 ^ 32 }
    ensures fits { IfOk result (λ after. option_map (fit_of bindings.now) after
        ≡ fit_field (fit_of bindings.now fit) wanted.now) }
    ensures symbols { IfOk result (λ after. IfSome after
        (λ f. f.next_sym ≤ fit.next_sym + one_if_existential wanted.now.1)) }
    ensures rising { IfOk result (λ after.
        IfSome after (λ f. fit.next_sym ≤ f.next_sym)) }
{
    let field = wanted.0;
    match wanted.1 {
        Operand::Known(u) => Ok(fit_known(fit, field, u)),
        Operand::Exists(n) => {
            match term_at(bindings, &fit.changes, n) {
                Some(u) => Ok(fit_known(fit, field, u)),
                None => Ok(Some(fit_new(fit, field, n)?)),
            }
        }
    }
}

/// A wanted field that has a term has it in the cell.
pub(crate) fn fit_known(fit: Fitting, field: FieldId, u: Term) -> Option<Fitting>
    ensures fits { (bindings : List (Option TermOf)) → option_map (fit_of bindings) result
        ≡ fit_known (fit_of bindings fit) (field_term fit.fields field) u }
    ensures symbols { IfSome result (λ f. f.next_sym ≡ fit.next_sym) }
{
    match fit.fields.get(field) {
        Some(t) if t.is(u) => Some(fit),
        _ => None,
    }
}

/// An existential without a term gets that of the field. An `Err` means out of memory.
#[tactic(auto, using(crate::proofs::Changes::after_more))]
fn fit_new(fit: Fitting, field: FieldId, n: u32) -> Result<Fitting, AllocError>
    requires { fit.next_sym + 1 < 2 ^ 32 }
    ensures fits { IfOk result (λ after. (bindings : List (Option TermOf))
        → fit_of bindings after ≡ fit_new (fit_of bindings fit) field n) }
    ensures symbols { IfOk result (λ f. f.next_sym ≤ fit.next_sym + 1) }
    ensures rising { IfOk result (λ f. fit.next_sym ≤ f.next_sym) }
{
    let (mut fit, t) = link(fit, field)?;
    fit.changes.push((n, t))?;
    Ok(fit)
}

/// The term of a field of the cell, which is a fresh symbol from now on where it isn't known. An
/// `Err` means out of memory.
pub(crate) fn link(mut fit: Fitting, field: FieldId) -> Result<(Fitting, Term), AllocError>
    requires { fit.next_sym + 1 < 2 ^ 32 }
    ensures linked { IfOk result (λ r. (bindings : List (Option TermOf))
        → link_of bindings r ≡ link (fit_of bindings fit) field) }
    ensures symbols { IfOk result (λ r. r.0.next_sym ≤ fit.next_sym + 1) }
    ensures rising { IfOk result (λ r. fit.next_sym ≤ r.0.next_sym) }
{
    if let Some(t) = fit.fields.get(field) {
        return Ok((fit, t));
    }
    let t = Term::Sym(fit.next_sym);
    fit.fields.put(field, t)?;
    fit.next_sym += 1;
    Ok((fit, t))
}

/// What the existential of that number stands for after these changes.
#[tactic(auto, using(crate::proofs::Changes::latest_is, crate::proofs::Changes::none_past_end))]
fn term_at(bindings: &[Option<Term>], changes: &[(u32, Term)], n: u32) -> Option<Term>
    ensures { result ≡ get_or (after_changes changes.now bindings.now) n None }
{
    let before = bindings.get(n as usize)?;
    latest(changes, n, *before)
}

/// The last change of that number, or what was there before.
fn latest(changes: &[(u32, Term)], n: u32, before: Option<Term>) -> Option<Term>
    ensures { result ≡ latest changes.now n before }
{
    let mut term = before;
    let mut left = changes;
    while let Some((change, rest)) = left.split_first() {
        if change.0 == n {
            term = Some(change.1);
        }
        left = rest;
    }
    term
}
