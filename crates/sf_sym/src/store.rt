//! The parts of a heap and the pairs of terms that differ, with what is kept beside them.

ghost use Rattle.std.specs.Prelude.{◌≡◌, false, ◌<◌, ◌^◌, ◌+◌, ◌++◌, ◌∷◌, [], map, true, is_some, Some, List, IfOk, OnErr, OnOk};
ghost use Rattle.sf_base.specs.declared.ids.FieldId.{FieldId as FieldNumber};
ghost use Rattle.sf_sym.specs.Cells.{apart_from_nil, atom_at, cell_at, with_fields, without};
ghost use Rattle.sf_sym.specs.Checked.Keeping.{Forgets};
ghost use Rattle.sf_sym.specs.Checked.Rows.{row_of};
ghost use Rattle.sf_sym.specs.Checked.Stores.{Kept, heap, is_outside_fields};
ghost use Rattle.sf_sym.specs.Equalities.{numbered_with, put_for};
ghost use Rattle.sf_sym.specs.Fields.{put_term};
ghost use Rattle.sf_sym.specs.declared.atom.Atom.{Atom as AtomOf};
ghost use Rattle.sf_sym.specs.declared.atom.Atom.TheVariants.{Points};
ghost use Rattle.sf_sym.specs.declared.term.Term.{Term as TermOf};
ghost use Rattle.sf_sym.specs.declared.term.Term.TheVariants.{Sym};

use crate::above::{above_atom, above_term, above_terms};
use crate::atom::{Atom, Numbered, copy_all};
use crate::atoms::Atoms;
use crate::fields::FieldTerms;
use crate::index::Index;
use crate::made::{made, made_marked};
use crate::outline::{Outline, Row};
use crate::pairs::Pairs;
use crate::replace::Replacement;
use crate::term::Term;
use sf_base::FieldId;
use std::alloc::{AllocError, Global};

/// What a state knows of the heap, and how it finds it.
pub(crate) struct Store {
    /// The pairs of terms that differ.
    pub(crate) apart: Pairs,
    /// The parts of the heap, in order of their numbers.
    pub(crate) atoms: Atoms,
    /// The parts that were handed over.
    pub(crate) taken: Vec<Numbered>,
    /// The number of the next atom.
    pub(crate) next_atom: u32,
    /// Above all symbols of these.
    pub(crate) above: u64,
    /// The indices and marks of both.
    pub(crate) index: Index,
}

// A call for the proofs of those who drop one, as that of `Index`.
impl Drop for Store {
    fn drop(self) {
        let Store {
            apart: _,
            atoms: _,
            taken: _,
            next_atom: _,
            above: _,
            index: _,
        } = self;
    }
}

impl Store {
    /// Nothing is known of the heap.
    pub(crate) fn new(alloc: Global) -> Store
        ensures kept { Kept result }
        ensures heap { heap result ≡ record { apart = []; atoms = []; taken = []; next_atom = 1 } }
    {
        Store {
            apart: Pairs::new(alloc),
            atoms: Atoms::new(alloc),
            taken: Vec::new(alloc),
            next_atom: 1,
            above: 0,
            index: Index::new(alloc),
        }
    }

    /// The same. An `Err` means out of memory.
    pub(crate) fn copy(&self, alloc: Global) -> Result<Store, AllocError>
        requires { Kept self.now }
        ensures kept { IfOk result (λ store. Kept store) }
        ensures heap { IfOk result (λ store. heap store ≡ heap self.now) }
    {
        let apart = self.apart.copy(alloc)?;
        if !self.atoms.as_slice().is_empty() || !self.taken.is_empty() {
            return self.copy_parts(alloc, apart);
        }
        Ok(Store {
            apart,
            atoms: Atoms::new(alloc),
            taken: Vec::new(alloc),
            next_atom: self.next_atom,
            above: self.above,
            index: Index::new(alloc),
        })
    }

    /// The same of a store that has parts, with a copy of its pairs. It isn't inlined, so that a
    /// store without parts is copied in a smaller frame.
    #[inline(never)]
    fn copy_parts(&self, alloc: Global, apart: Pairs) -> Result<Store, AllocError>
        requires kept { Kept self.now }
        requires apart { apart ≡ self.now.apart }
        ensures kept { IfOk result (λ store. Kept store) }
        ensures heap { IfOk result (λ store. heap store ≡ heap self.now) }
    {
        let atoms = self.atoms.copy(alloc)?;
        let taken = copy_all(alloc, &self.taken)?;
        let same = Replacement {
            symbol: 0,
            by: Term::Sym(0),
        };
        let marks = self.index.marks.copy()?;
        let index = made(alloc, &apart, atoms.as_slice(), &taken, same, marks)?;
        Ok(Store {
            apart,
            atoms,
            taken,
            next_atom: self.next_atom,
            above: self.above,
            index,
        })
    }

    /// Replaces a symbol by a term. One that stands nowhere, such as one that was just made, takes
    /// no time. An `Err` means out of memory, and then nothing changes.
    pub(crate) fn replace(&mut self, r: Replacement) -> Result<(), AllocError>
        requires { Kept self.old }
        ensures kept { Kept self.new }
        ensures ok { let to = put_for r.symbol r.by in OnOk result
            (heap self.new ≡ record (heap self.old) {
              apart = map (λ p. (to p.0, to p.1)) self.old.apart;
              atoms = map (numbered_with to) self.old.atoms;
              taken = map (numbered_with to) self.old.taken.items;
            }) }
        ensures err { OnErr result (heap self.new ≡ heap self.old) }
    {
        if u64::from(r.symbol) >= self.above {
            return Ok(());
        }
        if self.is_outside_fields(r) {
            return self.replace_all(r);
        }
        self.replace_in_fields(r);
        Ok(())
    }

    /// Whether the symbol is more than the term of fields: in one of the pairs or outlines.
    fn is_outside_fields(&self, r: Replacement) -> bool
        ensures { result ≡ is_outside_fields (Sym r.symbol) (heap self.now) }
    {
        r.is_in_pairs(self.apart.as_slice())
            || r.is_in_outlines(self.atoms.as_slice())
            || r.is_in_outlines(&self.taken)
    }

    /// Replaces a symbol that is the term of fields only.
    fn replace_in_fields(&mut self, r: Replacement)
        requires kept { Kept self.old }
        requires inside { is_outside_fields (Sym r.symbol) (heap self.old) ≡ false }
        ensures kept { Kept self.new }
        ensures heap { let to = put_for r.symbol r.by in heap self.new ≡ record (heap self.old) {
          apart = map (λ p. (to p.0, to p.1)) self.old.apart;
          atoms = map (numbered_with to) self.old.atoms;
          taken = map (numbered_with to) self.old.taken.items;
        } }
    {
        self.atoms.replace_in_fields(r);
        replace_in_taken(&mut self.taken, r);
        self.above = above_term(self.above, r.by);
    }

    /// The same of one that may stand anywhere.
    fn replace_all(&mut self, r: Replacement) -> Result<(), AllocError>
        requires { Kept self.old }
        ensures kept { Kept self.new }
        ensures ok { let to = put_for r.symbol r.by in OnOk result
            (heap self.new ≡ record (heap self.old) {
              apart = map (λ p. (to p.0, to p.1)) self.old.apart;
              atoms = map (numbered_with to) self.old.atoms;
              taken = map (numbered_with to) self.old.taken.items;
            }) }
        ensures err { OnErr result (heap self.new ≡ heap self.old) }
    {
        let alloc = self.atoms.alloc();
        let apart = self.apart.with(alloc, r)?;
        let index = made_marked(alloc, &apart, self.atoms.as_slice(), &self.taken, r)?;
        let empty = self.atoms.empty_with(alloc, r)?;
        self.atoms.replace(r, empty);
        replace_in_taken(&mut self.taken, r);
        self.apart = apart;
        self.index = index;
        self.above = above_term(self.above, r.by);
        Ok(())
    }

    /// One more atom, with the next number. An `Err` means out of memory, and then nothing changes.
    pub(crate) fn add_atom(&mut self, atom: Atom) -> Result<(), AllocError>
        requires kept { Kept self.old }
        requires room { self.old.next_atom + 1 < 2 ^ 32 }
        ensures kept { Kept self.new }
        ensures ok { OnOk result (heap self.new ≡ record (heap self.old) {
          atoms = self.old.atoms ++ (record { number = self.old.next_atom; atom = atom } ∷ []);
          next_atom = self.old.next_atom + 1;
        }) }
        ensures err { OnErr result (heap self.new ≡ heap self.old) }
    {
        let number = self.next_atom;
        let outline = Outline::of(&atom);
        let above = above_atom(self.above, &atom);
        let row = Row { number, outline };
        self.index.note(row, self.apart.give_cell(&outline))?;
        if let Err(e) = self.atoms.push(Numbered { number, atom }) {
            self.index.forget(row);
            return Err(e);
        }
        self.next_atom = number + 1;
        self.above = above;
        Ok(())
    }

    /// Takes the atom of that number out, if it is there.
    pub(crate) fn remove_atom(&mut self, a: u32) -> Option<Atom>
        requires { Kept self.old }
        ensures kept { Kept self.new }
        ensures atom { result ≡ atom_at self.old.atoms a }
        ensures others { heap self.new
            ≡ record (heap self.old) { atoms = without self.old.atoms a } }
    {
        let atom = self.atoms.take_out(a)?;
        let outline = Outline::of(&atom);
        self.index.forget(Row { number: a, outline });
        Some(atom)
    }

    /// Forgets the parts that were handed over.
    pub(crate) fn clear_taken(&mut self)
        requires { Kept self.old }
        ensures kept { Kept self.new }
        ensures heap { heap self.new ≡ record (heap self.old) { taken = [] } }
    {
        while let Some(part) = self.taken.pop() {
            forget(&mut self.index, part);
        }
    }

    /// Forgets all parts.
    pub(crate) fn clear_heap(&mut self)
        requires { Kept self.old }
        ensures kept { Kept self.new }
        ensures heap { heap self.new ≡ record (heap self.old) { atoms = []; taken = [] } }
    {
        let alloc = self.atoms.alloc();
        self.atoms.clear();
        self.taken.clear();
        self.index = Index::new(alloc);
    }

    /// The two terms differ from now on. An `Err` means out of memory, and then nothing changes.
    pub(crate) fn assume_apart(&mut self, t: Term, u: Term) -> Result<(), AllocError>
        requires { Kept self.old }
        ensures kept { Kept self.new }
        ensures ok { OnOk result
            (heap self.new ≡ record (heap self.old) { apart = self.old.apart ++ (t, u) ∷ [] }) }
        ensures err { OnErr result (heap self.new ≡ heap self.old) }
    {
        self.index.cover(&self.apart, t, u)?;
        self.apart.push(t, u)?;
        self.above = above_terms(self.above, t, u);
        Ok(())
    }

    /// One more cell, with the next number; a symbol at which it is differs from nil. An `Err` means
    /// out of memory, and then nothing changes.
    pub(crate) fn add_cell(&mut self, root: Term, fields: FieldTerms) -> Result<(), AllocError>
        requires kept { Kept self.old }
        requires room { self.old.next_atom + 1 < 2 ^ 32 }
        ensures kept { Kept self.new }
        ensures ok { OnOk result (heap self.new ≡ record (heap self.old) {
          apart = self.old.apart ++ apart_from_nil root;
          atoms = self.old.atoms
              ++ (record { number = self.old.next_atom; atom = Points root fields } ∷ []);
          next_atom = self.old.next_atom + 1;
        }) }
        ensures err { OnErr result (heap self.new ≡ heap self.old) }
    {
        let number = self.next_atom;
        self.add_atom(Atom::Points(root, fields))?;
        if let Err(e) = self.assume_apart_from_nil(root) {
            self.remove_atom(number);
            self.next_atom = number;
            return Err(e);
        }
        Ok(())
    }

    /// A symbol differs from nil from now on. An `Err` means out of memory, and then nothing changes.
    fn assume_apart_from_nil(&mut self, t: Term) -> Result<(), AllocError>
        requires { Kept self.old }
        ensures kept { Kept self.new }
        ensures ok { OnOk result
            (heap self.new ≡ record (heap self.old) { apart = self.old.apart ++ apart_from_nil t }) }
        ensures err { OnErr result (heap self.new ≡ heap self.old) }
    {
        match t {
            Term::Sym(_) => self.assume_apart(t, Term::Nil),
            Term::Nil | Term::Int(_) => Ok(()),
        }
    }

    /// Writes a field of the cell of that number at the root. An `Err` means out of memory, and
    /// then nothing changes.
    pub(crate) fn write_field(
        &mut self,
        a: u32,
        root: Term,
        f: FieldId,
        u: Term,
    ) -> Result<(), AllocError>
        requires kept { Kept self.old }
        requires cell { is_some (cell_at self.old.atoms a root) ≡ true }
        ensures kept { Kept self.new }
        ensures same { heap self.new ≡ record (heap self.old) { atoms = self.new.atoms } }
        ensures ok { OnOk result ((fields : List (FieldNumber × TermOf))
            → cell_at self.old.atoms a root ≡ Some fields
            → self.new.atoms ≡ with_fields self.old.atoms a root (put_term f u fields)) }
        ensures err { OnErr result (self.new.atoms ≡ self.old.atoms) }
    {
        self.atoms.write_field(a, root, f, u)?;
        self.above = above_term(self.above, u);
        Ok(())
    }

    /// Hands the atom of that number over: it goes from the atoms to the taken ones. An `Err` means
    /// out of memory, and then nothing changes.
    pub(crate) fn hand_over_atom(&mut self, a: u32) -> Result<(), AllocError>
        requires kept { Kept self.old }
        requires there { is_some (atom_at self.old.atoms a) ≡ true }
        ensures kept { Kept self.new }
        ensures ok { OnOk result ((x : AtomOf) → atom_at self.old.atoms a ≡ Some x
            → heap self.new ≡ record (heap self.old) {
              atoms = without self.old.atoms a;
              taken = self.old.taken.items ++ (record { number = a; atom = x } ∷ []);
            }) }
        ensures err { OnErr result (heap self.new ≡ heap self.old) }
    {
        self.taken.reserve(1)?;
        let Some(atom) = self.atoms.take_out(a) else {
            unreachable!();
        };
        self.taken.push_reserved(Numbered { number: a, atom });
        Ok(())
    }

    /// Hands the cell of that number at the root over with these fields. An `Err` means out of
    /// memory, and then nothing changes.
    pub(crate) fn hand_over_cell(
        &mut self,
        a: u32,
        root: Term,
        fields: FieldTerms,
    ) -> Result<(), AllocError>
        requires kept { Kept self.old }
        requires there { is_some (cell_at self.old.atoms a root) ≡ true }
        ensures kept { Kept self.new }
        ensures ok { OnOk result (heap self.new ≡ record (heap self.old) {
          atoms = without self.old.atoms a;
          taken = self.old.taken.items ++ (record { number = a; atom = Points root fields } ∷ []);
        }) }
        ensures err { OnErr result (heap self.new ≡ heap self.old) }
    {
        let cell = Atom::Points(root, fields);
        let above = above_atom(self.above, &cell);
        self.taken.reserve(1)?;
        self.atoms.take_out(a);
        self.taken.push_reserved(Numbered {
            number: a,
            atom: cell,
        });
        self.above = above;
        Ok(())
    }
}

/// An index has no row of the part any more.
fn forget(index: &mut Index, part: Numbered)
    ensures { Forgets (row_of part) index.old.roots index.old.cells index.old.marks
        index.new.roots index.new.cells index.new.marks }
{
    let outline = Outline::of(&part.atom);
    index.forget(Row {
        number: part.number,
        outline,
    });
}

/// Replaces a symbol by a term in the parts that were handed over.
fn replace_in_taken(taken: &mut Vec<Numbered>, r: Replacement)
    ensures { taken.new.items ≡ map (numbered_with (put_for r.symbol r.by)) taken.old.items }
{
    r.in_atoms(taken);
}
