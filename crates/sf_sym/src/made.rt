//! Indices that are made of all parts anew.

ghost use Rattle.std.specs.Prelude.{◌≡◌, ◌++◌, ◌∷◌, [], map, IfOk, OnOk};
ghost use Rattle.sf_sym.specs.Checked.Keeping.{AreMarksWith, HasMark, In, StillMarked, rows_of};
ghost use Rattle.sf_sym.specs.Checked.Rows.{outline, row_of};
ghost use Rattle.sf_sym.specs.Checked.Stores.{AreAllMarked, IsMade, MakesOf};
ghost use Rattle.sf_sym.specs.Equalities.{atom_with, numbered_with, put_for};
ghost use Rattle.sf_sym.specs.declared.outline.Row.{Row as RowOf};

use crate::atom::{Atom, Numbered};
use crate::index::{Index, enter};
use crate::marks::Marks;
use crate::outline::{Outline, Row};
use crate::pairs::Pairs;
use crate::replace::Replacement;
use std::alloc::{AllocError, Global};

/// The index of these parts with a symbol replaced, all marked, where these pairs differ then. An
/// `Err` means out of memory.
pub(crate) fn made_marked(
    alloc: Global,
    apart: &Pairs,
    atoms: &[Numbered],
    taken: &[Numbered],
    r: Replacement,
) -> Result<Index, AllocError>
    ensures made { IfOk result (λ index. IsMade apart.now
        (rows_of (map (numbered_with (put_for r.symbol r.by)) (atoms.now ++ taken.now)))
        index.roots index.cells) }
    ensures marks { IfOk result (λ index. AreAllMarked
        (rows_of (map (numbered_with (put_for r.symbol r.by)) (atoms.now ++ taken.now)))
        index.marks) }
{
    let mut marks = Marks::new(alloc);
    marks.add_atoms(atoms, r)?;
    marks.add_atoms(taken, r)?;
    let index = made(alloc, apart, atoms, taken, r, marks)?;
    Ok(index)
}

/// The index of these parts with a symbol replaced, with these marks. An `Err` means out of memory.
pub(crate) fn made(
    alloc: Global,
    apart: &Pairs,
    atoms: &[Numbered],
    taken: &[Numbered],
    r: Replacement,
    marks: Marks,
) -> Result<Index, AllocError>
    ensures made { IfOk result (λ index. IsMade apart.now
        (rows_of (map (numbered_with (put_for r.symbol r.by)) (atoms.now ++ taken.now)))
        index.roots index.cells) }
    ensures marks { IfOk result (λ index. index.marks ≡ marks) }
{
    let mut index = Index::with_marks(alloc, marks);
    index.enter_all(apart, atoms, r)?;
    index.enter_all(apart, taken, r)?;
    Ok(index)
}

impl Index {
    /// Has these atoms too, with a symbol replaced. An `Err` means out of memory.
    fn enter_all(
        &mut self,
        apart: &Pairs,
        atoms: &[Numbered],
        r: Replacement,
    ) -> Result<(), AllocError>
        ensures made { OnOk result (MakesOf apart.now
            (rows_of (map (numbered_with (put_for r.symbol r.by)) atoms.now))
            self.old.roots self.old.cells self.new.roots self.new.cells) }
        ensures marks { self.new.marks ≡ self.old.marks }
    {
        let mut left = atoms;
        while let Some((a, rest)) = left.split_first() {
            self.enter_one(apart, row_with(a, r))?;
            left = rest;
        }
        Ok(())
    }

    /// Has that row too. An `Err` means out of memory.
    fn enter_one(&mut self, apart: &Pairs, row: Row) -> Result<(), AllocError>
        ensures made { OnOk result (MakesOf apart.now (row ∷ [])
            self.old.roots self.old.cells self.new.roots self.new.cells) }
        ensures marks { self.new.marks ≡ self.old.marks }
    {
        let is_cell = apart.give_cell(&row.outline);
        enter(&mut self.roots, &mut self.cells, row, is_cell)?;
        Ok(())
    }
}

impl Marks {
    /// Marks these atoms too, with a symbol replaced. An `Err` means out of memory.
    fn add_atoms(&mut self, atoms: &[Numbered], r: Replacement) -> Result<(), AllocError>
        ensures ok { OnOk result ((row : RowOf)
            → In row (rows_of (map (numbered_with (put_for r.symbol r.by)) atoms.now))
            → HasMark self.new row) }
        ensures still { StillMarked self.old self.new }
        ensures only { AreMarksWith
            (rows_of (map (numbered_with (put_for r.symbol r.by)) atoms.now)) self.old self.new }
    {
        let mut left = atoms;
        while let Some((a, rest)) = left.split_first() {
            self.add(row_with(a, r))?;
            left = rest;
        }
        Ok(())
    }
}

/// The row of an atom with a symbol replaced.
pub(crate) fn row_with(a: &Numbered, r: Replacement) -> Row
    ensures { result ≡ row_of (numbered_with (put_for r.symbol r.by) a.now) }
{
    Row {
        number: a.number,
        outline: outline_with(&a.atom, r),
    }
}

/// The outline of an atom with a symbol replaced.
#[tactic(auto, using(crate::proofs::Outlines::outline_with))]
fn outline_with(atom: &Atom, r: Replacement) -> Outline
    ensures { result ≡ outline (atom_with (put_for r.symbol r.by) atom.now) }
{
    Outline::of(atom).with(r)
}
