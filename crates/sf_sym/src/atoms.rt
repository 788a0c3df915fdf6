//! The parts of a heap, with the numbers of those that are empty as they stand: the first of these is
//! found at once.

ghost use Rattle.std.specs.Prelude.{◌≡◌, ◌<◌, ◌++◌, [], ◌∷◌, map, true, false, is_some, Some, IfOk, List, OnErr, OnOk};
ghost use Rattle.std.specs.List.{AllByRecursion, list_any};
ghost use Rattle.std.specs.Option.{option_map};
ghost use Rattle.sf_base.specs.declared.ids.FieldId.{FieldId as FieldNumber};
ghost use Rattle.sf_sym.specs.Cells.{atom_at, cell_at, with_fields, without};
ghost use Rattle.sf_sym.specs.Checked.Empties.{empties, empty_numbers};
ghost use Rattle.sf_sym.specs.Checked.Rows.{has_term};
ghost use Rattle.sf_sym.specs.Equalities.{numbered_with, put_for};
ghost use Rattle.sf_sym.specs.Fields.{put_term};
ghost use Rattle.sf_sym.specs.Known.{first_nothing};
ghost use Rattle.sf_sym.specs.Numbers.{AreRising, numbers};
ghost use Rattle.sf_sym.specs.declared.term.Term.{Term as TermOf};
ghost use Rattle.sf_sym.specs.declared.term.Term.TheVariants.{Sym};

use crate::atom::{Atom, Numbered};
use crate::made::row_with;
use crate::outline::{Outline, Row};
use crate::parts::Parts;
use crate::replace::Replacement;
use crate::term::Term;
use sf_base::FieldId;
use std::alloc::{AllocError, Global};
use std::collections::BTreeSet;
use std::marker::Model;

/// The parts of a heap, in order. Contracts see it as the list.
pub(crate) struct Atoms {
    parts: Parts,
    /// The numbers of the empty ones.
    empty: BTreeSet<u32>,
}

// A call for the proofs of those who drop one, as that of an index.
impl Drop for Atoms {
    fn drop(self) {
        let Atoms { parts: _, empty: _ } = self;
    }
}

impl Model for Atoms {
    ghost use Rattle.std.specs.Prelude.{◌≡◌, List};
    ghost use Rattle.sf_sym.specs.Checked.Empties.{empties};
    ghost use Rattle.sf_sym.specs.declared.atom.Numbered.{Numbered};

    ghost Value = { List Numbered };

    ghost invariant = { λ s. s.empty.keys ≡ empties s.parts };

    ghost view = { λ s. s.parts };
}

impl Atoms {
    /// No parts.
    pub(crate) fn new(alloc: Global) -> Atoms
        ensures { result ≡ [] }
    {
        Atoms {
            parts: Parts::new(alloc),
            empty: BTreeSet::new(alloc),
        }
    }

    /// The same parts. An `Err` means out of memory.
    pub(crate) fn copy(&self, alloc: Global) -> Result<Atoms, AllocError>
        ensures { IfOk result (λ atoms. atoms ≡ self.now) }
    {
        let parts = self.parts.copy(alloc)?;
        let empty = self.empty.clone()?;
        Ok(Atoms { parts, empty })
    }

    /// What the list allocates by.
    pub(crate) fn alloc(&self) -> Global {
        self.parts.alloc()
    }

    /// The parts.
    pub(crate) fn as_slice(&self) -> &[Numbered]
        ensures { result.now ≡ self.now }
    {
        self.parts.as_slice()
    }

    /// The atom of that number.
    pub(crate) fn atom(&self, a: u32) -> Option<&Atom>
        requires { AreRising (numbers self.now) }
        ensures { option_map (λ x. x.now) result ≡ atom_at self.now a }
    {
        self.parts.atom(a)
    }

    /// The number of the first one that is empty as it stands.
    pub(crate) fn first_nothing(&self) -> Option<u32>
        ensures { result ≡ first_nothing self.now }
    {
        let number = self.empty.first()?;
        Some(*number)
    }

    /// One more part, behind the others. An `Err` means out of memory, and then nothing changes.
    pub(crate) fn push(&mut self, part: Numbered) -> Result<(), AllocError>
        requires { AllByRecursion (λ n. n < part.number) (numbers self.old) }
        ensures ok { OnOk result (self.new ≡ self.old ++ part ∷ []) }
        ensures err { OnErr result (self.new ≡ self.old) }
    {
        let number = part.number;
        let outline = Outline::of(&part.atom);
        note(&mut self.empty, Row { number, outline })?;
        if let Err(e) = self.parts.push(part) {
            self.empty.remove(&number);
            return Err(e);
        }
        Ok(())
    }

    /// Forgets all.
    pub(crate) fn clear(&mut self)
        ensures { self.new ≡ [] }
    {
        self.parts.clear();
        self.empty.clear();
    }

    /// Takes the atom of that number out, if it is there.
    pub(crate) fn take_out(&mut self, a: u32) -> Option<Atom>
        requires { AreRising (numbers self.old) }
        ensures atom { result ≡ atom_at self.old a }
        ensures others { self.new ≡ without self.old a }
    {
        self.empty.remove(&a);
        self.parts.take_out(a)
    }

    /// Writes a field of the cell of that number at the root. An `Err` means out of memory, and
    /// then nothing changes.
    pub(crate) fn write_field(
        &mut self,
        a: u32,
        root: Term,
        f: FieldId,
        u: Term,
    ) -> Result<(), AllocError>
        requires numbers { AreRising (numbers self.old) }
        requires cell { is_some (cell_at self.old a root) ≡ true }
        ensures ok { OnOk result ((fields : List (FieldNumber × TermOf))
            → cell_at self.old a root ≡ Some fields
            → self.new ≡ with_fields self.old a root (put_term f u fields)) }
        ensures err { OnErr result (self.new ≡ self.old) }
    {
        self.parts.write_field(a, root, f, u)?;
        Ok(())
    }

    /// The numbers of those that are empty once a symbol is replaced. An `Err` means out of memory.
    pub(crate) fn empty_with(
        &self,
        alloc: Global,
        r: Replacement,
    ) -> Result<BTreeSet<u32>, AllocError>
        requires { AreRising (numbers self.now) }
        ensures { IfOk result (λ empty. empty.keys
            ≡ empties (map (numbered_with (put_for r.symbol r.by)) self.now)) }
    {
        let mut empty = BTreeSet::new(alloc);
        let mut left = self.as_slice();
        while let Some((a, rest)) = left.split_first() {
            note(&mut empty, row_with(a, r))?;
            left = rest;
        }
        Ok(empty)
    }

    /// Replaces a symbol by a term, where these are the numbers of those that are empty then.
    pub(crate) fn replace(&mut self, r: Replacement, empty: BTreeSet<u32>)
        requires { empty.keys ≡ empties (map (numbered_with (put_for r.symbol r.by)) self.old) }
        ensures { self.new ≡ map (numbered_with (put_for r.symbol r.by)) self.old }
    {
        self.parts.replace(r);
        self.empty = empty;
    }

    /// Replaces a symbol that is the term of fields only.
    pub(crate) fn replace_in_fields(&mut self, r: Replacement)
        requires { list_any (λ a. has_term (Sym r.symbol) a.atom) self.old ≡ false }
        ensures { self.new ≡ map (numbered_with (put_for r.symbol r.by)) self.old }
    {
        self.parts.replace(r);
    }
}

/// Has the number of one more part, if that is empty. An `Err` means out of memory, and then nothing
/// changes.
fn note(empty: &mut BTreeSet<u32>, row: Row) -> Result<(), AllocError>
    requires { AllByRecursion (λ n. n < row.number) empty.old.keys }
    ensures ok { OnOk result (empty.new.keys ≡ empty.old.keys ++ empty_numbers (row ∷ [])) }
    ensures err { OnErr result (empty.new.keys ≡ empty.old.keys) }
{
    if row.outline.is_nothing() {
        empty.insert(row.number)?;
    }
    Ok(())
}
