//! The terms of a cell's fields.

ghost use Rattle.std.specs.Prelude.{◌≡◌, ◌≤◌, [], length, map, slice_get, IfOk, OnErr, OnOk};
ghost use Rattle.sf_sym.specs.Equalities.{put_for};
ghost use Rattle.sf_sym.specs.Fields.{field_term, put_term};
ghost use Rattle.sf_sym.specs.Checked.Places.{is_field, place_of};

use crate::replace::Replacement;
use crate::term::Term;
use sf_base::FieldId;
use smallvec::SmallVec;
use std::alloc::{AllocError, AllocFailed, Global};
use std::marker::Model;

/// The terms of the fields of a cell that are known, in declared order, each field once. Contracts
/// see it as the list.
#[derive(Drop)]
pub struct FieldTerms {
    items: SmallVec<(FieldId, Term), 4>,
}

impl Model for FieldTerms {
    ghost use Rattle.std.specs.Prelude.{List};
    ghost use Rattle.sf_base.specs.declared.ids.FieldId.{FieldId};
    ghost use Rattle.sf_sym.specs.declared.term.Term.{Term};
    ghost use Rattle.sf_sym.specs.Fields.{AreOrdered};

    ghost Value = { List (FieldId × Term) };

    ghost view = { λ s. s.items.items };

    ghost invariant = { λ s. AreOrdered s.items.items };
}

impl FieldTerms {
    /// No field is known.
    pub fn new(alloc: Global) -> FieldTerms
        ensures { result ≡ [] }
    {
        FieldTerms {
            items: SmallVec::new(alloc),
        }
    }

    /// The same fields with the same terms. An `Err` means out of memory.
    pub fn copy(&self) -> Result<FieldTerms, AllocError>
        ensures { IfOk result (λ fields. fields ≡ self.now) }
    {
        Ok(FieldTerms {
            items: SmallVec::from_slice(*self.items.allocator(), self.items.as_slice())?,
        })
    }

    /// The fields with their terms.
    pub fn as_slice(&self) -> &[(FieldId, Term)]
        ensures { result.now ≡ self.now }
    {
        self.items.as_slice()
    }

    /// The term of a field, where it is known.
    pub fn get(&self, f: FieldId) -> Option<Term>
        ensures { result ≡ field_term self.now f }
    {
        field_term(self.items.as_slice(), f)
    }

    /// Puts a field's term in its place. An `Err` means out of memory, and then nothing changes.
    pub fn put(&mut self, f: FieldId, u: Term) -> Result<(), AllocError>
        ensures ok { OnOk result (self.new ≡ put_term f u self.old) }
        ensures err { OnErr result (self.new ≡ self.old) }
    {
        let at = place_of(self.items.as_slice(), f);
        if is_at(self.items.as_slice(), at, f) {
            self.items.as_mut_slice()[at] = (f, u);
        } else {
            self.items.insert(at, (f, u))?;
        }
        Ok(())
    }

    /// Replaces a symbol by a term.
    pub(crate) fn replace(&mut self, r: Replacement)
        ensures { self.new ≡ map (λ f. (f.0, put_for r.symbol r.by f.1)) self.old }
    {
        r.in_fields(self.items.as_mut_slice());
    }
}

/// How many of the fields come before that one.
fn place_of(fields: &[(FieldId, Term)], f: FieldId) -> usize
    ensures place { result ≡ place_of f fields.now }
    ensures within { result ≤ length fields.now }
{
    let mut before = 0;
    let mut left = fields;
    while let Some((first, rest)) = left.split_first() {
        if first.0.0 >= f.0 {
            return before;
        }
        before += 1;
        left = rest;
    }
    before
}

/// Whether the field has that index among the fields.
fn is_at(fields: &[(FieldId, Term)], at: usize, f: FieldId) -> bool
    ensures { result ≡ is_field f (slice_get fields.now at) }
{
    match fields.get(at) {
        Some(g) => g.0.0 == f.0,
        None => false,
    }
}

/// The term of a field, where it is known.
pub fn field_term(fields: &[(FieldId, Term)], f: FieldId) -> Option<Term>
    ensures { result ≡ field_term fields.now f }
{
    let mut left = fields;
    while let Some((first, rest)) = left.split_first() {
        if first.0.0 == f.0 {
            return Some(first.1);
        }
        left = rest;
    }
    None
}
