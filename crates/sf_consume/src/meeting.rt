//! How far the fields of a wanted cell fit a cell, without changing anything: what existentials and
//! unknown fields would stand for is noted. A symbol that would be new has its number among those,
//! since there may be none left.

ghost use Rattle.std.specs.Prelude.{◌≡◌, IfOk, None, get_or, is_some};
ghost use Rattle.std.specs.Option.{option_map};
ghost use Rattle.sf_consume.specs.Checked.Fits.{after_changes, latest};
ghost use Rattle.sf_consume.specs.Checked.Meeting.{first_fit_of, fit_of, latest_link, link_of, terms_of, with_links};
ghost use Rattle.sf_consume.specs.Misfit.{met_term};
ghost use Rattle.sf_consume.specs.declared.meeting.Met.TheVariants.{Fresh};
ghost use Rattle.sf_consume.specs.Subtract.{fit_field, fit_fields, fit_known, fit_new, link};
ghost use Rattle.sf_sym.specs.Fields.{field_term};
ghost use Rattle.sf_sym.specs.Tests.{same_term};

use sf_base::FieldId;
use sf_core::Operand;
use sf_sym::{Term, field_term};
use std::alloc::{AllocError, Global};

/// A cell, and what existentials stand for, before its fields are compared.
#[derive(Clone, Copy)]
pub(crate) struct Seen<'a> {
    /// The number of the next symbol.
    pub next: u32,
    /// The fields of the cell.
    pub fields: &'a [(FieldId, Term)],
    /// What existentials stand for, by their numbers.
    pub bindings: &'a [Option<Term>],
}

/// What an existential meets in a field.
#[derive(Clone, Copy)]
pub enum Met {
    /// The term that the field has.
    Known(Term),
    /// The new symbol with that number among the new ones, from 0.
    Fresh(usize),
}

/// What existentials have met so far.
#[derive(Drop)]
pub(crate) struct Meeting {
    /// The fields that weren't known, each of which has a new symbol.
    pub links: Vec<FieldId>,
    /// Existentials by their numbers, and what they are to stand for, one after the other.
    pub changes: Vec<(u32, Met)>,
}

/// Whether the wanted fields fit, in the order written. An `Err` means out of memory.
pub(crate) fn fit(
    alloc: Global,
    seen: Seen<'_>,
    wanted: &[(FieldId, Operand<Term>)],
) -> Result<bool, AllocError>
    ensures { IfOk result (λ b. b ≡ is_some (fit_fields (first_fit_of seen.entry) wanted.now)) }
{
    let mut meeting = Meeting {
        links: Vec::new(alloc),
        changes: Vec::new(alloc),
    };
    let mut left = wanted;
    while let Some((first, rest)) = left.split_first() {
        let Some(after) = fit_field(seen, meeting, first)? else {
            return Ok(false);
        };
        meeting = after;
        left = rest;
    }
    Ok(true)
}

/// Compares one wanted field. `None` exactly where it doesn't fit; an `Err` means out of memory.
pub(crate) fn fit_field(
    seen: Seen<'_>,
    meeting: Meeting,
    wanted: &(FieldId, Operand<Term>),
) -> Result<Option<Meeting>, AllocError>
    ensures { IfOk result (λ after. option_map (fit_of seen.entry) after
        ≡ fit_field (fit_of seen.entry meeting) wanted.now) }
{
    let field = wanted.0;
    match wanted.1 {
        Operand::Known(u) => Ok(fit_known(seen, meeting, field, Met::Known(u))),
        Operand::Exists(n) => {
            match term_at(seen, &meeting.changes, n) {
                Some(u) => Ok(fit_known(seen, meeting, field, u)),
                None => Ok(Some(fit_new(seen, meeting, field, n)?)),
            }
        }
    }
}

/// A wanted field that has a term has it in the cell.
fn fit_known(seen: Seen<'_>, meeting: Meeting, field: FieldId, u: Met) -> Option<Meeting>
    ensures { option_map (fit_of seen.entry) result
        ≡ fit_known (fit_of seen.entry meeting)
        (field_term (fit_of seen.entry meeting).fields field) (met_term seen.entry.next u) }
{
    match field_now(seen, &meeting.links, field) {
        Some(t) if is_same(seen.next, t, u) => Some(meeting),
        _ => None,
    }
}

/// An existential without a term gets that of the field. An `Err` means out of memory.
#[tactic(auto, using(crate::proofs::Meetings::met_more))]
fn fit_new(seen: Seen<'_>, meeting: Meeting, field: FieldId, n: u32) -> Result<Meeting, AllocError>
    ensures { IfOk result (λ after.
        fit_of seen.entry after ≡ fit_new (fit_of seen.entry meeting) field n) }
{
    let (mut meeting, t) = link(seen, meeting, field)?;
    meeting.changes.push((n, t))?;
    Ok(meeting)
}

/// The term of a field of the cell, which is a new symbol from now on where it isn't known. An
/// `Err` means out of memory.
#[tactic(auto, using(crate::proofs::Meetings::link_more))]
fn link(seen: Seen<'_>, mut meeting: Meeting, field: FieldId) -> Result<(Meeting, Met), AllocError>
    ensures { IfOk result (λ r. link_of seen.entry r ≡ link (fit_of seen.entry meeting) field) }
{
    if let Some(t) = field_now(seen, &meeting.links, field) {
        return Ok((meeting, t));
    }
    let t = Met::Fresh(meeting.links.len());
    meeting.links.push(field)?;
    Ok((meeting, t))
}

/// What a field of the cell has, where these weren't known.
#[tactic(auto, using(crate::proofs::Meetings::latest_link_is))]
pub(crate) fn field_now(seen: Seen<'_>, links: &[FieldId], field: FieldId) -> Option<Met>
    ensures { option_map (met_term seen.entry.next) result
        ≡ field_term (with_links seen.entry.next links.now seen.entry.fields.now) field }
{
    let before = match field_term(seen.fields, field) {
        Some(t) => Some(Met::Known(t)),
        None => None,
    };
    latest_link(seen.next, links, field, before)
}

/// The last of these links of that field, which are numbered from 0 on, or what was there before.
fn latest_link(next: u32, links: &[FieldId], field: FieldId, before: Option<Met>) -> Option<Met>
    ensures { option_map (met_term next) result
        ≡ latest_link next links.now field (option_map (met_term next) before) }
{
    let mut term = before;
    let mut number = 0;
    let mut left = links;
    while let Some((link, rest)) = left.split_first() {
        if link.0 == field.0 {
            term = Some(Met::Fresh(number));
        }
        number += 1;
        left = rest;
    }
    term
}

/// What the existential of that number stands for after these changes.
#[tactic(auto, using(crate::proofs::Changes::latest_is, crate::proofs::Changes::none_past_end))]
pub(crate) fn term_at(seen: Seen<'_>, changes: &[(u32, Met)], n: u32) -> Option<Met>
    ensures { option_map (met_term seen.entry.next) result
        ≡ get_or (after_changes (terms_of seen.entry.next changes.now) seen.entry.bindings.now)
        n None }
{
    let before = match *seen.bindings.get(n as usize)? {
        Some(t) => Some(Met::Known(t)),
        None => None,
    };
    latest(seen.next, changes, n, before)
}

/// The last change of that number, or what was there before.
fn latest(next: u32, changes: &[(u32, Met)], n: u32, before: Option<Met>) -> Option<Met>
    ensures { option_map (met_term next) result
        ≡ latest (terms_of next changes.now) n (option_map (met_term next) before) }
{
    let mut term = before;
    let mut left = changes;
    while let Some((change, rest)) = left.split_first() {
        if change.0 == n {
            term = Some(change.1);
        }
        left = rest;
    }
    term
}

/// Whether the two are one term.
fn is_same(next: u32, x: Met, y: Met) -> bool
    ensures { result ≡ same_term (met_term next x) (met_term next y) }
{
    match (x, y) {
        (Met::Known(t), Met::Known(u)) => t.is(u),
        (Met::Known(t), Met::Fresh(n)) => is_fresh(next, n, t),
        (Met::Fresh(n), Met::Known(t)) => is_fresh(next, n, t),
        (Met::Fresh(m), Met::Fresh(n)) => m == n,
    }
}

/// Whether the term is the new symbol with that number among the new ones.
fn is_fresh(next: u32, n: usize, t: Term) -> bool
    ensures to { result ≡ same_term t (met_term next (Fresh n)) }
    ensures from { result ≡ same_term (met_term next (Fresh n)) t }
{
    match t {
        Term::Sym(m) => m >= next && (m - next) as usize == n,
        Term::Nil | Term::Int(_) => false,
    }
}
