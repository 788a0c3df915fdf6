//! States: what is known at one point of a procedure, and the primitive changes of it.

ghost use Rattle.std.specs.Prelude.{◌≡◌, ◌<◌, ◌≤◌, ◌^◌, ◌+◌, ◌++◌, true, [], length, vec_capacity, vec_len, is_some, Some, List, IfSome, IfNone, IfOk, OnErr, OnOk};
ghost use Rattle.std.specs.Option.{option_map};
ghost use Rattle.sf_base.specs.declared.ids.FieldId.{FieldId as FieldNumber};
ghost use Rattle.sf_sym.specs.Below.{AllPaired, IsBelow};
ghost use Rattle.sf_sym.specs.Cells.{after_hand_over, apart_from_nil, atom_at, cell_at, fields_at, handed, state_after_write, with_atom, with_cell, without};
ghost use Rattle.sf_sym.specs.Equalities.{put_for, state_with, with_pair};
ghost use Rattle.sf_sym.specs.Numbers.{AreNumbered, numbers};
ghost use Rattle.sf_sym.specs.State.{first_state, term, term_at, with_symbols};
ghost use Rattle.sf_sym.specs.Variables.{AreInOrder, remove_vars, set_var, set_vars, with_fresh};
ghost use Rattle.sf_sym.specs.declared.atom.Atom.{Atom as AtomOf};
ghost use Rattle.sf_sym.specs.declared.term.Term.{Term as TermOf};
ghost use Rattle.sf_sym.specs.declared.term.Term.TheVariants.{Sym};

use crate::atom::{Atom, Numbered};
use crate::fields::FieldTerms;
use crate::replace::Replacement;
use crate::store::Store;
use crate::term::Term;
use crate::vars::VarTerms;
use sf_base::{FieldId, Var};
use sf_core::{Expr, Links};
use std::alloc::{AllocError, Global};
use std::marker::Model;

/// What is known of the variables and of the heap at one point of a procedure. Contracts see it as
/// the record `State`; what isn't listed there is how the code finds things.
pub struct State {
    /// All that it knows, in a box: a state is moved wherever a goal is.
    pub(crate) known: Box<Known>,
}

/// What a state knows.
pub(crate) struct Known {
    links: Links,
    vars: VarTerms,
    next_sym: u32,
    pub(crate) store: Store,
}

// A call for the proofs of those who drop one, as that of `Index`.
impl Drop for State {
    fn drop(self) {
        let State { known: _ } = self;
    }
}

impl Drop for Known {
    fn drop(self) {
        let Known {
            links: _,
            vars: _,
            next_sym: _,
            store: _,
        } = self;
    }
}

impl Model for State {
    ghost use Rattle.sf_sym.specs.State.{State as Known};

    ghost Value = { Known };

    ghost use Rattle.sf_sym.specs.Checked.Stores.{Kept, heap, state_in};

    ghost invariant = { λ s. Kept s.known.value.store };

    ghost view = { λ s. let k = s.known.value in state_in k.links k.vars k.next_sym (heap k.store) };
}

impl State {
    /// The state that knows these terms of the variables, which have symbols below `next_sym` only,
    /// and nothing of the heap. The variables are in order, each once. An `Err` means out of
    /// memory.
    pub fn new(
        alloc: Global,
        links: Links,
        vars: Vec<(Var, Term)>,
        next_sym: u32,
    ) -> Result<State, AllocError>
        requires order { AreInOrder vars.items }
        requires below { AllPaired (IsBelow next_sym) vars.items }
        ensures { IfOk result (λ s. s ≡ first_state links vars.items next_sym) }
    {
        let known = Known {
            links,
            vars: VarTerms::from_vec(vars),
            next_sym,
            store: Store::new(alloc),
        };
        Ok(State {
            known: Box::new(alloc, known)?,
        })
    }

    /// The same state. An `Err` means out of memory.
    pub fn copy(&self, alloc: Global) -> Result<State, AllocError>
        ensures { IfOk result (λ state. state ≡ self.now) }
    {
        let known = Known {
            links: self.known.links,
            vars: self.known.vars.copy(alloc)?,
            next_sym: self.known.next_sym,
            store: self.known.store.copy(alloc)?,
        };
        Ok(State {
            known: Box::new(alloc, known)?,
        })
    }

    /// The fields by which segments and trees go.
    pub fn links(&self) -> Links
        ensures { result ≡ self.now.links }
    {
        self.known.links
    }

    /// The terms of the variables, in the order of the variables.
    pub fn vars(&self) -> &[(Var, Term)]
        ensures { result.now ≡ self.now.vars }
    {
        self.known.vars.as_slice()
    }

    /// The pairs of terms that differ.
    pub fn apart(&self) -> &[(Term, Term)]
        ensures { result.now ≡ self.now.apart }
    {
        self.known.store.apart.as_slice()
    }

    /// The parts of the heap, in order of their numbers.
    pub fn atoms(&self) -> &[Numbered]
        ensures { result.now ≡ self.now.atoms }
    {
        self.known.store.atoms.as_slice()
    }

    /// The parts that were handed over in the subtraction now under way, in the order in which they
    /// were.
    pub fn taken(&self) -> &[Numbered]
        ensures { result.now ≡ self.now.taken }
    {
        self.known.store.taken.as_slice()
    }

    /// The number of the next symbol.
    pub fn next_sym(&self) -> u32
        ensures { result ≡ self.now.next_sym }
    {
        self.known.next_sym
    }

    /// The number of the next atom.
    pub fn next_atom(&self) -> u32
        ensures { result ≡ self.now.next_atom }
    {
        self.known.store.next_atom
    }

    /// The numbers of the atoms rise, the taken ones have others, and all are below the next one.
    /// Calling it gives that to the caller's proof, and does nothing.
    pub fn is_numbered(&self)
        ensures { AreNumbered (numbers self.now.atoms) (numbers self.now.taken) self.now.next_atom }
    {
        let _next = self.known.store.next_atom;
    }

    /// The known fields of the atom of that number, where it is a cell at that term.
    #[tactic(auto, using(crate::proofs::Indices::cell_of_atom))]
    pub fn cell(&self, a: u32, root: Term) -> Option<&[(FieldId, Term)]>
        ensures { option_map (λ x. x.now) result ≡ cell_at self.now.atoms a root }
    {
        self.known.store.atoms.atom(a)?.fields_at(root)
    }

    /// The atom of that number.
    pub fn atom(&self, a: u32) -> Option<&Atom>
        ensures { option_map (λ x. x.now) result ≡ atom_at self.now.atoms a }
    {
        self.known.store.atoms.atom(a)
    }

    /// The term of a variable, `Nil` where it has none.
    pub fn term_at(&self, x: Var) -> Term
        ensures { result ≡ term_at self.now.vars x }
    {
        self.known.vars.term_at(x)
    }

    /// The term of an expression.
    pub fn term(&self, e: &Expr) -> Term
        ensures { result ≡ term self.now.vars e.now }
    {
        match e {
            Expr::Var(x) => self.term_at(x.var),
            Expr::Nil => Term::Nil,
            Expr::Int(i) => Term::Int(*i),
        }
    }

    /// A symbol that doesn't occur yet.
    pub fn fresh_symbol(&mut self) -> Term
        requires { self.old.next_sym + 1 < 2 ^ 32 }
        ensures symbol { result ≡ Sym self.old.next_sym }
        ensures counted { self.new ≡ with_symbols 1 self.old }
    {
        let fresh = Term::Sym(self.known.next_sym);
        self.known.next_sym += 1;
        fresh
    }

    /// So many symbols more.
    pub fn add_symbols(&mut self, count: u32)
        requires { self.old.next_sym + count < 2 ^ 32 }
        ensures { self.new ≡ with_symbols count self.old }
    {
        self.known.next_sym += count;
    }

    /// Sets a variable. An `Err` means out of memory, and then nothing changes.
    pub fn set_var(&mut self, x: Var, t: Term) -> Result<(), AllocError>
        ensures ok { OnOk result
            (self.new ≡ record self.old { vars = set_var x t self.old.vars }) }
        ensures err { OnErr result (self.new ≡ self.old) }
    {
        self.known.vars.set(x, t)?;
        Ok(())
    }

    /// Sets variables, one after the other. An `Err` means out of memory, and then nothing changes.
    pub fn set_vars(&mut self, xs: &[(Var, Term)]) -> Result<(), AllocError>
        ensures ok { OnOk result
            (self.new ≡ record self.old { vars = set_vars xs.now self.old.vars }) }
        ensures err { OnErr result (self.new ≡ self.old) }
    {
        self.known.vars.set_all(xs)?;
        Ok(())
    }

    /// The variables with their terms as they are where those are set, one after the other; the
    /// state keeps its own. An `Err` means out of memory.
    pub fn vars_after(
        &self,
        alloc: Global,
        xs: &[(Var, Term)],
    ) -> Result<Vec<(Var, Term)>, AllocError>
        ensures { IfOk result (λ vars. vars.items ≡ set_vars xs.now self.now.vars) }
    {
        let vars = self.known.vars.after(alloc, xs)?;
        Ok(vars)
    }

    /// Gives each of the variables a fresh symbol. An `Err` means out of memory, and then nothing
    /// changes.
    pub fn set_fresh(&mut self, xs: &[Var]) -> Result<(), AllocError>
        requires { self.old.next_sym + length xs.now < 2 ^ 32 }
        ensures ok { OnOk result (self.new ≡ with_fresh xs.now self.old) }
        ensures err { OnErr result (self.new ≡ self.old) }
    {
        let next = self.known.next_sym;
        self.known.vars.set_fresh(next, xs)?;
        self.known.next_sym += xs.len() as u32;
        Ok(())
    }

    /// Removes variables: they have no term any more.
    pub fn remove_vars(&mut self, xs: &[Var])
        ensures { self.new ≡ record self.old { vars = remove_vars xs.now self.old.vars } }
    {
        self.known.vars.remove_all(xs);
    }

    /// Forgets the parts that were handed over.
    pub fn clear_taken(&mut self)
        ensures { self.new ≡ record self.old { taken = [] } }
    {
        self.known.store.clear_taken();
    }

    /// Forgets the parts of the heap, and those that were handed over.
    pub fn clear_heap(&mut self)
        ensures { self.new ≡ record self.old { atoms = []; taken = [] } }
    {
        self.known.store.clear_heap();
    }

    /// One more atom, with the next number. An `Err` means out of memory, and then nothing changes.
    pub fn add_atom(&mut self, atom: Atom) -> Result<(), AllocError>
        requires { self.old.next_atom + 1 < 2 ^ 32 }
        ensures ok { OnOk result (self.new ≡ with_atom atom self.old) }
        ensures err { OnErr result (self.new ≡ self.old) }
    {
        self.known.store.add_atom(atom)?;
        Ok(())
    }

    /// Takes the atom of that number out, if it is there.
    pub fn remove_atom(&mut self, a: u32) -> Option<Atom>
        ensures atom { result ≡ atom_at self.old.atoms a }
        ensures others { self.new ≡ record self.old { atoms = without self.old.atoms a } }
    {
        self.known.store.remove_atom(a)
    }

    /// One more cell: it has the next number, and a symbol at which it is differs from nil. An
    /// `Err` means out of memory, and then nothing changes.
    pub fn add_cell(&mut self, root: Term, fields: FieldTerms) -> Result<(), AllocError>
        requires { self.old.next_atom + 1 < 2 ^ 32 }
        ensures ok { OnOk result (self.new ≡ with_cell self.old root fields) }
        ensures err { OnErr result (self.new ≡ self.old) }
    {
        self.known.store.add_cell(root, fields)?;
        Ok(())
    }

    /// The two terms differ from now on. An `Err` means out of memory, and then nothing changes.
    pub fn assume_apart(&mut self, t: Term, u: Term) -> Result<(), AllocError>
        ensures ok { OnOk result (self.new ≡ with_pair t u self.old) }
        ensures err { OnErr result (self.new ≡ self.old) }
    {
        self.known.store.assume_apart(t, u)?;
        Ok(())
    }

    /// Replaces a symbol by a term. An `Err` means out of memory, and then nothing changes.
    pub(crate) fn replace(&mut self, r: Replacement) -> Result<(), AllocError>
        ensures ok { OnOk result (self.new ≡ state_with (put_for r.symbol r.by) self.old) }
        ensures err { OnErr result (self.new ≡ self.old) }
    {
        self.known.store.replace(r)?;
        self.known.vars.replace(r);
        Ok(())
    }

    /// Writes a field of the cell of that number at the root. An `Err` means out of memory, and
    /// then nothing changes.
    pub fn write_field(&mut self, a: u32, root: Term, f: FieldId, u: Term) -> Result<(), AllocError>
        requires { is_some (cell_at self.old.atoms a root) ≡ true }
        ensures ok { OnOk result (state_after_write self.old root f u a ≡ Some self.new) }
        ensures err { OnErr result (self.new ≡ self.old) }
    {
        self.known.store.write_field(a, root, f, u)?;
        Ok(())
    }

    /// A copy of the fields of the atom of that number, where it is a cell at that term. An `Err`
    /// means out of memory.
    #[tactic(auto, using(crate::proofs::Indices::cell_of_atom))]
    pub fn copy_cell(&self, a: u32, root: Term) -> Result<Option<FieldTerms>, AllocError>
        ensures { IfOk result (λ fields. fields ≡ cell_at self.now.atoms a root) }
    {
        match self.atom(a) {
            Some(atom) => atom.copy_fields(root),
            None => Ok(None),
        }
    }

    /// Hands the atom of that number over: it goes from the atoms to the taken ones. An `Err` means
    /// out of memory, and then nothing changes.
    pub fn hand_over_atom(&mut self, a: u32) -> Result<(), AllocError>
        requires { is_some (atom_at self.old.atoms a) ≡ true }
        ensures ok { OnOk result ((x : AtomOf) → atom_at self.old.atoms a ≡ Some x
            → self.new ≡ handed self.old a x) }
        ensures err { OnErr result (self.new ≡ self.old) }
    {
        self.known.store.hand_over_atom(a)?;
        Ok(())
    }

    /// Hands the cell of that number at the root over with these fields, for which new symbols were
    /// used up to that number, which isn't below the next symbol's. An `Err` means out of memory,
    /// and then nothing changes.
    pub fn hand_over_cell(
        &mut self,
        a: u32,
        root: Term,
        fields: FieldTerms,
        next_sym: u32,
    ) -> Result<(), AllocError>
        requires there { is_some (cell_at self.old.atoms a root) ≡ true }
        requires rising { self.old.next_sym ≤ next_sym }
        ensures ok { OnOk result (self.new
            ≡ after_hand_over (record self.old { next_sym = next_sym }) root fields a) }
        ensures err { OnErr result (self.new ≡ self.old) }
    {
        self.known.store.hand_over_cell(a, root, fields)?;
        self.known.next_sym = next_sym;
        Ok(())
    }

    /// Hands the cell of that number at the root over: it goes from the atoms to the taken ones. An
    /// `Err` means out of memory, and then nothing changes.
    pub fn hand_over(&mut self, a: u32, root: Term) -> Result<(), AllocError>
        requires { is_some (cell_at self.old.atoms a root) ≡ true }
        ensures ok { OnOk result ((fields : List (FieldNumber × TermOf))
            → cell_at self.old.atoms a root ≡ Some fields
            → self.new ≡ after_hand_over self.old root fields a) }
        ensures err { OnErr result (self.new ≡ self.old) }
    {
        self.hand_over_atom(a)?;
        Ok(())
    }
}
