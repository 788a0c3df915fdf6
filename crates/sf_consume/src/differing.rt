//! Where a wanted cell doesn't fit a cell.

ghost use Rattle.std.specs.Prelude.{◌≡◌, IfOk, is_none, is_some};
ghost use Rattle.std.specs.Option.{option_map};
ghost use Rattle.sf_consume.specs.Checked.Meeting.{first_fit_of, fit_of};
ghost use Rattle.sf_consume.specs.Misfit.{first_misfit, meeting_at, misfit_of};
ghost use Rattle.sf_consume.specs.Subtract.{fit_fields};

use crate::meeting::{Meeting, Met, Seen, field_now, fit_field, term_at};
use sf_base::FieldId;
use sf_core::Operand;
use sf_sym::Term;
use std::alloc::{AllocError, Global};

/// What meets in the first field of a wanted cell that doesn't fit.
#[derive(Clone, Copy)]
pub struct Misfit {
    /// What is there, where that is known.
    pub there: Option<Met>,
    /// What is wanted.
    pub wanted: Met,
}

/// What is in a wanted field, and what is wanted there. `None` for an existential without a term.
fn meeting_at(
    seen: Seen<'_>,
    meeting: &Meeting,
    wanted: &(FieldId, Operand<Term>),
) -> Option<Misfit>
    ensures { option_map (misfit_of seen.entry.next) result
        ≡ meeting_at (fit_of seen.entry meeting.now) wanted.now }
{
    let due = match wanted.1 {
        Operand::Known(u) => Met::Known(u),
        Operand::Exists(n) => term_at(seen, &meeting.changes, n)?,
    };
    Some(Misfit {
        there: field_now(seen, &meeting.links, wanted.0),
        wanted: due,
    })
}

/// Compares the wanted fields, in the order written, up to the first that doesn't fit.
fn find(
    alloc: Global,
    seen: Seen<'_>,
    wanted: &[(FieldId, Operand<Term>)],
) -> Result<Option<Misfit>, AllocError>
    ensures { IfOk result (λ m. option_map (misfit_of seen.entry.next) m
        ≡ first_misfit (first_fit_of seen.entry) wanted.now) }
{
    let mut meeting = Meeting {
        links: Vec::new(alloc),
        changes: Vec::new(alloc),
    };
    let mut left = wanted;
    while let Some((first, rest)) = left.split_first() {
        let here = meeting_at(seen, &meeting, first);
        let Some(after) = fit_field(seen, meeting, first)? else {
            return Ok(here);
        };
        meeting = after;
        left = rest;
    }
    Ok(None)
}

/// What meets in the first of these wanted fields that doesn't fit a cell with those fields, where
/// the existentials stand for these terms and the next symbol has that number. `None` exactly where
/// all fit; an `Err` means out of memory.
pub fn first_misfit(
    alloc: Global,
    next_sym: u32,
    fields: &[(FieldId, Term)],
    bindings: &[Option<Term>],
    wanted: &[(FieldId, Operand<Term>)],
) -> Result<Option<Misfit>, AllocError>
    ensures meets { IfOk result (λ m. option_map (misfit_of next_sym) m ≡ first_misfit
        (record { next_sym = next_sym; fields = fields.now; bindings = bindings.now }) wanted.now) }
    ensures all { IfOk result (λ m. is_none m ≡ is_some (fit_fields
        (record { next_sym = next_sym; fields = fields.now; bindings = bindings.now }) wanted.now)) }
{
    let seen = Seen {
        next: next_sym,
        fields,
        bindings,
    };
    find(alloc, seen, wanted)
}
