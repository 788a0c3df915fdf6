//! The parts of a heap in order of their numbers: one is found by a binary search, and one that
//! goes moves the fewer of the others, so that many that go from the front take little time.

ghost use Rattle.std.specs.Prelude.{◌≡◌, ◌<◌, ◌++◌, [], ◌∷◌, length, map, true, drop, is_some, slice_index_or, IfOk, IfSome, List, OnErr, OnOk};
ghost use Rattle.std.specs.List.{remove};
ghost use Rattle.std.specs.Option.{option_map};
ghost use Rattle.sf_base.specs.declared.ids.FieldId.{FieldId as FieldNumber};
ghost use Rattle.sf_sym.specs.Cells.{atom_at, cell_at, with_fields, without};
ghost use Rattle.sf_sym.specs.Equalities.{numbered_with, put_for};
ghost use Rattle.sf_sym.specs.Fields.{put_term};
ghost use Rattle.sf_sym.specs.Checked.Indices.{index_from};
ghost use Rattle.sf_sym.specs.Numbers.{AreRising, numbers};
ghost use Rattle.sf_sym.specs.declared.atom.Numbered.{Numbered as NumberedOf};
ghost use Rattle.sf_sym.specs.declared.term.Term.{Term as TermOf};

use crate::atom::{Atom, Numbered, copy_all};
use crate::replace::Replacement;
use crate::term::Term;
use sf_base::FieldId;
use std::alloc::{AllocError, Global};
use std::marker::Model;
use std::mem::replace;

/// The parts of a heap, in order. Contracts see it as the list.
#[derive(Drop)]
pub(crate) struct Parts {
    /// Places that parts left, each with an empty tree, and then the parts.
    places: Vec<Numbered>,
    /// How many places were left.
    left: usize,
}

impl Model for Parts {
    ghost use Rattle.std.specs.Prelude.{◌≤◌, List, drop, length};
    ghost use Rattle.sf_sym.specs.declared.atom.Numbered.{Numbered};

    ghost Value = { List Numbered };

    ghost invariant = { λ s. s.left ≤ length s.places.items };

    ghost view = { λ s. drop s.left s.places.items };
}

impl Parts {
    /// No parts.
    pub(crate) fn new(alloc: Global) -> Parts
        ensures { result ≡ [] }
    {
        Parts {
            places: Vec::new(alloc),
            left: 0,
        }
    }

    /// The same parts. An `Err` means out of memory.
    pub(crate) fn copy(&self, alloc: Global) -> Result<Parts, AllocError>
        ensures { IfOk result (λ parts. parts ≡ self.now) }
    {
        let places = copy_all(alloc, self.as_slice())?;
        Ok(Parts { places, left: 0 })
    }

    /// What the list allocates by.
    pub(crate) fn alloc(&self) -> Global {
        *self.places.allocator()
    }

    /// The parts.
    pub(crate) fn as_slice(&self) -> &[Numbered]
        ensures { result.now ≡ self.now }
    {
        &self.places[self.left..]
    }

    /// One more part, behind the others. An `Err` means out of memory, and then nothing changes.
    pub(crate) fn push(&mut self, part: Numbered) -> Result<(), AllocError>
        ensures ok { OnOk result (self.new ≡ self.old ++ part ∷ []) }
        ensures err { OnErr result (self.new ≡ self.old) }
    {
        self.places.push(part)?;
        Ok(())
    }

    /// Forgets all.
    pub(crate) fn clear(&mut self)
        ensures { self.new ≡ [] }
    {
        self.places.clear();
        self.left = 0;
    }

    /// Replaces a symbol by a term.
    pub(crate) fn replace(&mut self, r: Replacement)
        ensures { self.new ≡ map (numbered_with (put_for r.symbol r.by)) self.old }
    {
        r.in_atoms(&mut self.places);
    }

    /// The atom of that number.
    pub(crate) fn atom(&self, a: u32) -> Option<&Atom>
        requires { AreRising (numbers self.now) }
        ensures { option_map (λ x. x.now) result ≡ atom_at self.now a }
    {
        let parts = self.as_slice();
        let i = index_of(parts, a)?;
        Some(&parts[i].atom)
    }

    /// Takes the atom of that number out, if it is there.
    pub(crate) fn take_out(&mut self, a: u32) -> Option<Atom>
        requires { AreRising (numbers self.old) }
        ensures atom { result ≡ atom_at self.old a }
        ensures others { self.new ≡ without self.old a }
    {
        let i = index_of(self.as_slice(), a)?;
        let Numbered { number: _, atom } = self.remove(i);
        Some(atom)
    }

    /// Writes a field of the cell of that number at the root. An `Err` means out of memory, and
    /// then nothing changes.
    pub(crate) fn write_field(
        &mut self,
        a: u32,
        root: Term,
        f: FieldId,
        u: Term,
    ) -> Result<(), AllocError>
        requires numbers { AreRising (numbers self.old) }
        requires cell { is_some (cell_at self.old a root) ≡ true }
        ensures ok { OnOk result ((fields : List (FieldNumber × TermOf))
            → cell_at self.old a root ≡ Some fields
            → self.new ≡ with_fields self.old a root (put_term f u fields)) }
        ensures err { OnErr result (self.new ≡ self.old) }
    {
        let Some(i) = index_of(self.as_slice(), a) else {
            unreachable!();
        };
        match &mut self.places[self.left + i].atom {
            Atom::Points(_, fields) => fields.put(f, u)?,
            Atom::Ls(..) => unreachable!(),
            Atom::Tree(_) => unreachable!(),
            Atom::Dll(..) => unreachable!(),
        }
        Ok(())
    }

    /// Takes the part at that index out; those before it move, or those behind it, whichever are
    /// fewer.
    fn remove(&mut self, i: usize) -> Numbered
        requires { i < length self.old }
        ensures value { result ≡ slice_index_or self.old i result }
        ensures others { self.new ≡ remove self.old i }
    {
        if i < (self.places.len() - self.left) / 2 {
            self.bring_to_front(i);
            self.take_first()
        } else {
            self.places.remove(self.left + i)
        }
    }

    /// Brings the part at that index before the others.
    fn bring_to_front(&mut self, i: usize)
        requires { i < length self.old }
        ensures { (d : NumberedOf) → self.new ≡ slice_index_or self.old i d ∷ remove self.old i }
    {
        self.places
            .slice_mut(self.left..self.left + i + 1)
            .rotate_right(1);
    }

    /// Takes the first part out.
    fn take_first(&mut self) -> Numbered
        requires { 0 < length self.old }
        ensures { self.old ≡ result ∷ self.new }
    {
        let first = replace(
            &mut self.places[self.left],
            Numbered {
                number: 0,
                atom: Atom::Tree(Term::Nil),
            },
        );
        self.left += 1;
        self.close_up();
        first
    }

    /// Gives up the places that were left, once they are more than half of all.
    fn close_up(&mut self)
        ensures { self.new ≡ self.old }
    {
        if self.left > self.places.len() / 2 {
            self.places.drain(..self.left);
            self.left = 0;
        }
    }
}

/// The index of the atom of that number, where the numbers rise.
fn index_of(parts: &[Numbered], a: u32) -> Option<usize>
    requires { AreRising (numbers parts.now) }
    ensures place { result ≡ index_from 0 parts.now a }
    ensures within { IfSome result (λ i. i < length parts.now) }
{
    let i = parts.partition_point(|x| x.number < a);
    if i < parts.len() && parts[i].number == a {
        Some(i)
    } else {
        None
    }
}
