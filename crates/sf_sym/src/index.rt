//! What a state keeps beside its atoms: their rows by terms, and marks of those that are still to be
//! tested.

ghost use Rattle.std.specs.Prelude.{◌≡◌, ◌⊎◌, ◌∷◌, [], true, false, Some, IfOk, OnErr, OnOk};
ghost use Rattle.std.specs.List.{list_any};
ghost use Rattle.sf_sym.specs.Checked.Keeping.{AreMarksOf, AreAlso, AreMarksAlso, AreMarksWith, Enters, EntersOf, Forgets, GetsReady, GetsReadyFor, Has, HasMark, In, IsCovered, IsMarkedBeside, IsThere, IsUndone, Leaves, RemainsIndexed, RemainsWithout, StillMarked, gets_cell, joins, other_root, row_begins};
ghost use Rattle.sf_sym.specs.Checked.Rows.{bare, is_marked, rows_at, same_row};
ghost use Rattle.sf_sym.specs.Equalities.{numbered_with, put_for};
ghost use Rattle.sf_sym.specs.Tests.{has_cell, root};
ghost use Rattle.sf_sym.specs.declared.outline.Row.{Row as RowOf};
ghost use Rattle.sf_sym.specs.declared.term.Term.{Term as TermOf};

use crate::atom::Numbered;
use crate::marks::Marks;
use crate::outline::{Outline, Row};
use crate::pairs::Pairs;
use crate::replace::Replacement;
use crate::rows::Rows;
use crate::term::Term;
use indexmap::IndexSet;
use std::alloc::{AllocError, Global};

/// The indices and marks of a state.
pub(crate) struct Index {
    /// The rows of all parts by the terms at which they begin.
    pub(crate) roots: Rows,
    /// The rows of those with cells by the terms at which they have one.
    pub(crate) cells: Rows,
    /// The rows of those that are still to be tested.
    pub(crate) marks: Marks,
}

// A drop that is written out is a call for the proofs of those who call it; a derived one would stand
// in them in full at each exit.
impl Drop for Index {
    fn drop(self) {
        let Index {
            roots: _,
            cells: _,
            marks: _,
        } = self;
    }
}

impl Index {
    /// Of no parts.
    pub(crate) fn new(alloc: Global) -> Index
        ensures roots { result.roots ≡ [] }
        ensures cells { result.cells ≡ [] }
        ensures marks { result.marks ≡ [] }
    {
        Index::with_marks(alloc, Marks::new(alloc))
    }

    /// Of no parts, with these marks.
    pub(crate) fn with_marks(alloc: Global, marks: Marks) -> Index
        ensures roots { result.roots ≡ [] }
        ensures cells { result.cells ≡ [] }
        ensures marks { result.marks ≡ marks }
    {
        Index {
            roots: Rows::new(alloc),
            cells: Rows::new(alloc),
            marks,
        }
    }

    /// Has all ready for one part more, of which it is known whether it has a cell. An `Err` means
    /// out of memory, and then the same parts are there, and more may be marked.
    pub(crate) fn note(&mut self, row: Row, is_cell: bool) -> Result<(), AllocError>
        ensures ok { OnOk result (GetsReadyFor row is_cell self.old.roots self.old.cells
            self.old.marks self.new.roots self.new.cells self.new.marks) }
        ensures err { OnErr result (RemainsWithout row.number self.old.roots self.old.cells
            self.old.marks self.new.roots self.new.cells self.new.marks) }
    {
        mark(&mut self.marks, &self.roots, row, is_cell)?;
        match enter(&mut self.roots, &mut self.cells, row, is_cell) {
            Ok(()) => Ok(()),
            Err(e) => {
                self.marks.remove(row);
                Err(e)
            }
        }
    }

    /// Has no part of that row any more.
    pub(crate) fn forget(&mut self, row: Row)
        ensures { Forgets row self.old.roots self.old.cells self.old.marks
            self.new.roots self.new.cells self.new.marks }
    {
        self.roots.leave(row);
        self.cells.leave(row);
        self.marks.remove(row);
    }
}

/// Marks a new part, and where it has a cell all that begin where it does. An `Err` means out of
/// memory, and then some of these may be marked, and the new part isn't.
fn mark(marks: &mut Marks, roots: &Rows, row: Row, is_cell: bool) -> Result<(), AllocError>
    ensures still { StillMarked marks.old marks.new }
    ensures row { OnOk result (HasMark marks.new row) }
    ensures only { OnOk result ((r : RowOf) → HasMark marks.new r
        → (HasMark marks.old r ⊎ ((t : TermOf) × In r (rows_at roots.now t))) ⊎ (r ≡ row)) }
    ensures beside { OnOk result (is_cell ≡ true → (t : TermOf) → row_begins t row ≡ true
        → (r : RowOf) → In r (rows_at roots.now t) → HasMark marks.new r) }
    ensures err { OnErr result (AreMarksAlso roots.now marks.old marks.new) }
{
    if is_cell {
        mark_roots(marks, roots, row)?;
    }
    marks.add(row)?;
    Ok(())
}

/// Marks all that begin where a part does. An `Err` means out of memory, and then some of these may be
/// marked.
fn mark_roots(marks: &mut Marks, roots: &Rows, row: Row) -> Result<(), AllocError>
    ensures still { StillMarked marks.old marks.new }
    ensures only { AreMarksAlso roots.now marks.old marks.new }
    ensures ok { OnOk result ((t : TermOf) → row_begins t row ≡ true
        → (r : RowOf) → In r (rows_at roots.now t) → HasMark marks.new r) }
{
    let first = row.outline.root();
    marks.add_all(roots.at(first))?;
    mark_beside(marks, roots, row, first)?;
    Ok(())
}

/// Marks all that begin at the other term at which a part does, if there is one. An `Err` means out of
/// memory, and then some of these may be marked.
fn mark_beside(marks: &mut Marks, roots: &Rows, row: Row, at: Term) -> Result<(), AllocError>
    ensures still { StillMarked marks.old marks.new }
    ensures only { AreMarksAlso roots.now marks.old marks.new }
    ensures ok { OnOk result (IsMarkedBeside roots.now at row marks.new) }
{
    let Some(other) = row.outline.other_root(at) else {
        return Ok(());
    };
    marks.add_all(roots.at(other))?;
    Ok(())
}

/// Puts a new row into the index of roots, and where it has a cell into that of cells. An `Err` means
/// out of memory, and then both have the rows of other numbers that they had.
pub(crate) fn enter(
    roots: &mut Rows,
    cells: &mut Rows,
    row: Row,
    is_cell: bool,
) -> Result<(), AllocError>
    ensures roots { OnOk result (Enters row roots.old roots.new) }
    ensures cells { OnOk result (is_cell ≡ true → Enters row cells.old cells.new) }
    ensures without { OnOk result (is_cell ≡ false → cells.new ≡ cells.old) }
    ensures err { OnErr result (IsUndone row.number roots.old roots.new
        × IsUndone row.number cells.old cells.new) }
{
    if let Err(e) = roots.enter(row) {
        roots.leave(row);
        return Err(e);
    }
    if is_cell {
        if let Err(e) = cells.enter(row) {
            roots.leave(row);
            cells.leave(row);
            return Err(e);
        }
    }
    Ok(())
}

impl Index {
    /// Has all ready for two terms that are to differ. An `Err` means out of memory, and then the same
    /// parts are there, and more may be marked.
    pub(crate) fn cover(&mut self, apart: &Pairs, t: Term, u: Term) -> Result<(), AllocError>
        requires roots { (v : TermOf) (r : RowOf) → In r (rows_at self.old.roots v)
            → row_begins v r ≡ true }
        ensures kept { RemainsIndexed self.old.roots self.old.cells self.old.marks
            self.new.roots self.new.cells self.new.marks }
        ensures ready { OnOk result (GetsReady apart.now t u self.old.roots self.old.cells
            self.old.marks self.new.roots self.new.cells self.new.marks) }
    {
        let (cells, marks) = (&mut self.cells, &mut self.marks);
        cover_at(cells, marks, &self.roots, apart, (t, u), t)?;
        cover_at(cells, marks, &self.roots, apart, (t, u), u)
    }
}

/// Has the index of cells and the marks ready for those of the parts at a term that have a cell once
/// two others differ. An `Err` means out of memory, and then some of them may be covered.
fn cover_at(
    cells: &mut Rows,
    marks: &mut Marks,
    roots: &Rows,
    apart: &Pairs,
    pair: (Term, Term),
    at: Term,
) -> Result<(), AllocError>
    requires { (t : TermOf) (r : RowOf) → In r (rows_at roots.now t) → row_begins t r ≡ true }
    ensures still { Has cells.old cells.new }
    ensures only { AreAlso roots.now cells.old cells.new }
    ensures marked { StillMarked marks.old marks.new }
    ensures marks { AreMarksAlso roots.now marks.old marks.new }
    ensures ok { OnOk result ((c : RowOf) → In c (rows_at roots.now at)
        → joins pair (bare c.outline) ≡ true → has_cell apart.now (bare c.outline) ≡ false
        → IsCovered roots.now cells.new marks.new c) }
{
    let rows = roots.at(at);
    if !any_gets_cell(rows, apart, pair) {
        return Ok(());
    }
    marks.add_all(rows)?;
    mark_others(marks, roots, rows, at)?;
    enter_new(cells, rows, apart, pair)
}

/// Marks all that begin at the other term at which one of the rows does: those of each term once. An
/// `Err` means out of memory, and then some of these may be marked.
fn mark_others(marks: &mut Marks, roots: &Rows, rows: &[Row], at: Term) -> Result<(), AllocError>
    ensures still { StillMarked marks.old marks.new }
    ensures only { AreMarksAlso roots.now marks.old marks.new }
    ensures ok { OnOk result ((c : RowOf) → In c rows.now → IsMarkedBeside roots.now at c marks.new) }
{
    let others = others_of(marks.allocator(), rows, at)?;
    mark_all_at(marks, roots, others.as_slice())
}

/// The other terms at which the parts of these rows begin, each once. An `Err` means out of memory.
fn others_of(alloc: Global, rows: &[Row], at: Term) -> Result<IndexSet<Term>, AllocError>
    ensures { IfOk result (λ others. (c : RowOf) (t : TermOf) → In c rows.now
        → other_root at (bare c.outline) ≡ Some t → In t others.keys) }
{
    let mut others = IndexSet::new(alloc);
    let mut left = rows;
    while let Some((row, rest)) = left.split_first() {
        note_other(&mut others, *row, at)?;
        left = rest;
    }
    Ok(others)
}

/// Notes the other term at which a part begins, if there is one. An `Err` means out of memory, and
/// then it isn't there.
fn note_other(others: &mut IndexSet<Term>, row: Row, at: Term) -> Result<(), AllocError>
    ensures still { (t : TermOf) → In t others.old.keys → In t others.new.keys }
    ensures ok { OnOk result ((t : TermOf) → other_root at (bare row.outline) ≡ Some t
        → In t others.new.keys) }
{
    let Some(other) = row.outline.other_root(at) else {
        return Ok(());
    };
    others.insert(other)?;
    Ok(())
}

/// Marks all that begin at these terms. An `Err` means out of memory, and then some of these may be
/// marked.
fn mark_all_at(marks: &mut Marks, roots: &Rows, terms: &[Term]) -> Result<(), AllocError>
    ensures still { StillMarked marks.old marks.new }
    ensures only { AreMarksAlso roots.now marks.old marks.new }
    ensures ok { OnOk result ((t : TermOf) → In t terms.now → (r : RowOf) → In r (rows_at roots.now t)
        → HasMark marks.new r) }
{
    let mut left = terms;
    while let Some((term, rest)) = left.split_first() {
        marks.add_all(roots.at(*term))?;
        left = rest;
    }
    Ok(())
}

/// Whether one of the rows is of a part that gets a cell once the two terms differ.
fn any_gets_cell(rows: &[Row], apart: &Pairs, pair: (Term, Term)) -> bool
    ensures { result ≡ list_any (gets_cell apart.now pair) rows.now }
{
    rows.iter().any(|row| gets_cell(row, apart, pair))
}

/// Whether the row is of a part that gets a cell once the two terms differ.
fn gets_cell(row: &Row, apart: &Pairs, pair: (Term, Term)) -> bool
    ensures { result ≡ gets_cell apart.now pair row.now }
{
    row.outline.joins(pair.0, pair.1) && !apart.give_cell(&row.outline)
}

/// Puts those of the rows of which the parts get a cell once the two terms differ into the index of
/// cells. An `Err` means out of memory, and then some of these may be there.
fn enter_new(
    cells: &mut Rows,
    rows: &[Row],
    apart: &Pairs,
    pair: (Term, Term),
) -> Result<(), AllocError>
    ensures still { Has cells.old cells.new }
    ensures only { EntersOf rows.now cells.old cells.new }
    ensures ok { OnOk result ((c : RowOf) → In c rows.now → gets_cell apart.now pair c ≡ true
        → IsThere cells.new c) }
{
    let mut left = rows;
    while let Some((row, rest)) = left.split_first() {
        enter_cell(cells, *row, apart, pair)?;
        left = rest;
    }
    Ok(())
}

/// Puts one row into the index of cells, where its part gets a cell once the two terms differ. An
/// `Err` means out of memory, and then nothing is there that wasn't.
fn enter_cell(
    cells: &mut Rows,
    row: Row,
    apart: &Pairs,
    pair: (Term, Term),
) -> Result<(), AllocError>
    ensures still { Has cells.old cells.new }
    ensures only { EntersOf (row ∷ []) cells.old cells.new }
    ensures ok { OnOk result (gets_cell apart.now pair row ≡ true → IsThere cells.new row) }
{
    if gets_cell(&row, apart, pair) {
        cells.enter(row)?;
    }
    Ok(())
}
