//! Replacing a symbol by a term wherever it occurs, in place.

ghost use Rattle.std.specs.Prelude.{◌≡◌, ◌||◌, cond, map};
ghost use Rattle.std.specs.List.{list_any};
ghost use Rattle.std.specs.Option.{option_map};
ghost use Rattle.sf_core.specs.Program.View.{conjunct_of, level_of};
ghost use Rattle.sf_sym.specs.Equalities.{atom_with, item_with, numbered_with, pending_with, put_for, which_goes};
ghost use Rattle.sf_sym.specs.Goal.{items_of};
ghost use Rattle.sf_sym.specs.Mapped.{conjunct_with, level_with, operand_with, test_with};
ghost use Rattle.sf_sym.specs.Checked.Rows.{has_term};
ghost use Rattle.sf_sym.specs.Pending.{pending_of};
ghost use Rattle.sf_sym.specs.Tests.{same_term};
ghost use Rattle.sf_sym.specs.declared.term.Term.TheVariants.{Sym};

use crate::atom::{Atom, Numbered};
use crate::goal::Item;
use crate::term::Term;
use sf_base::{FieldId, Var};
use sf_core::{Conjunct, Level, Operand, Test};

/// A symbol, and the term that takes its place.
#[derive(Clone, Copy)]
pub(crate) struct Replacement {
    /// The number of the symbol.
    pub(crate) symbol: u32,
    /// What stands in its place.
    pub(crate) by: Term,
}

impl Replacement {
    /// Which symbol goes where two different terms are to be the same: of two symbols the greater.
    /// `None` for two constants.
    pub(crate) fn between(t: Term, u: Term) -> Option<Replacement>
        ensures { option_map (λ r. (r.symbol, r.by)) result ≡ which_goes t u }
    {
        let (symbol, by) = match (t, u) {
            (Term::Sym(m), Term::Sym(n)) if m < n => (n, t),
            (Term::Sym(m), _) => (m, u),
            (_, Term::Sym(n)) => (n, t),
            _ => return None,
        };
        Some(Replacement { symbol, by })
    }

    /// What stands for a term.
    pub(crate) fn term(self, t: Term) -> Term
        ensures { result ≡ put_for self.symbol self.by t }
    {
        match t {
            Term::Sym(n) if n == self.symbol => self.by,
            _ => t,
        }
    }

    /// Whether the symbol is in one of the pairs.
    pub(crate) fn is_in_pairs(self, pairs: &[(Term, Term)]) -> bool
        ensures { result ≡ list_any (λ p. same_term p.0 (Sym self.symbol)
            || same_term p.1 (Sym self.symbol)) pairs.now }
    {
        let s = Term::Sym(self.symbol);
        pairs.iter().any(|p| p.0.is(s) || p.1.is(s))
    }

    /// Whether it is in the outline of one of the atoms, as more than the term of a field.
    pub(crate) fn is_in_outlines(self, atoms: &[Numbered]) -> bool
        ensures { result ≡ list_any (λ a. has_term (Sym self.symbol) a.atom) atoms.now }
    {
        atoms.iter().any(|a| self.is_in_outline(&a.atom))
    }

    /// Whether it is in that of the atom.
    fn is_in_outline(self, atom: &Atom) -> bool
        ensures { result ≡ has_term (Sym self.symbol) atom.now }
    {
        let s = Term::Sym(self.symbol);
        match atom {
            Atom::Points(t, _) | Atom::Tree(t) => t.is(s),
            Atom::Ls(t, u) => t.is(s) || u.is(s),
            Atom::Dll(v, p, l, u) => v.is(s) || p.is(s) || l.is(s) || u.is(s),
        }
    }

    /// In a term.
    fn in_term(self, t: &mut Term)
        ensures { t.new ≡ put_for self.symbol self.by t.old }
    {
        if let Term::Sym(n) = *t {
            if n == self.symbol {
                *t = self.by;
            }
        }
    }

    /// In the terms of variables.
    pub(crate) fn in_vars(self, vars: &mut [(Var, Term)])
        ensures { vars.new ≡ map (λ x. (x.0, put_for self.symbol self.by x.1)) vars.old }
    {
        for x in vars.iter_mut() {
            self.in_term(&mut x.1);
        }
    }

    /// In the terms of a cell's fields.
    pub(crate) fn in_fields(self, fields: &mut [(FieldId, Term)])
        ensures { fields.new ≡ map (λ f. (f.0, put_for self.symbol self.by f.1)) fields.old }
    {
        for f in fields.iter_mut() {
            self.in_term(&mut f.1);
        }
    }

    /// In atoms, which keep their numbers.
    pub(crate) fn in_atoms(self, atoms: &mut [Numbered])
        ensures { atoms.new ≡ map (numbered_with (put_for self.symbol self.by)) atoms.old }
    {
        for a in atoms.iter_mut() {
            self.in_atom(&mut a.atom);
        }
    }

    /// In an atom.
    fn in_atom(self, atom: &mut Atom)
        ensures { atom.new ≡ atom_with (put_for self.symbol self.by) atom.old }
    {
        match atom {
            Atom::Points(root, fields) => {
                self.in_term(root);
                fields.replace(self);
            }
            Atom::Ls(from, to) => {
                self.in_term(from);
                self.in_term(to);
            }
            Atom::Tree(root) => self.in_term(root),
            Atom::Dll(from, before, last, to) => {
                self.in_term(from);
                self.in_term(before);
                self.in_term(last);
                self.in_term(to);
            }
        }
    }

    /// In what existentials stand for.
    pub(crate) fn in_bindings(self, bindings: &mut [Option<Term>])
        ensures { bindings.new ≡ map (option_map (put_for self.symbol self.by)) bindings.old }
    {
        for b in bindings.iter_mut() {
            self.in_binding(b);
        }
    }

    /// In what an existential stands for.
    pub(crate) fn in_binding(self, binding: &mut Option<Term>)
        ensures { binding.new ≡ option_map (put_for self.symbol self.by) binding.old }
    {
        if let Some(t) = binding {
            self.in_term(t);
        }
    }

    /// In things to do: those of the program itself have no terms.
    pub(crate) fn in_items(self, todo: &mut [Item])
        ensures { map items_of todo.new
            ≡ map (map (item_with (put_for self.symbol self.by))) (map items_of todo.old) }
    {
        for i in 0..todo.len() {
            self.in_item(&mut todo[i]);
        }
    }

    /// In something to do.
    fn in_item(self, item: &mut Item)
        ensures { items_of item.new
            ≡ map (item_with (put_for self.symbol self.by)) (items_of item.old) }
    {
        match item {
            Item::Add(_, given) => given.replace(self),
            Item::Take(_, want, _) => want.replace(self),
            Item::Gave(_, set, _) => self.in_vars(set),
            Item::Run(_) => {}
            Item::Head(..) => {}
            Item::Again(..) => {}
            Item::Exit(..) => {}
            Item::Return(..) => {}
            Item::End(_) => {}
        }
    }

    /// In conjuncts, in their branches too.
    #[cycle(replaced)]
    pub(crate) fn in_conjuncts(self, cs: &mut [Conjunct<Term>])
        ensures { map conjunct_of cs.new
            ≡ map (conjunct_with (put_for self.symbol self.by)) (map conjunct_of cs.old) }
    {
        for i in 0..cs.len() {
            self.in_conjunct(&mut cs[i]);
        }
    }

    /// In one conjunct.
    #[cycle(replaced)]
    fn in_conjunct(self, c: &mut Conjunct<Term>)
        ensures { conjunct_of c.new
            ≡ conjunct_with (put_for self.symbol self.by) (conjunct_of c.old) }
    {
        match c {
            Conjunct::Holds(_, test) => self.in_test(test),
            Conjunct::Points(_, root, fields) => {
                self.in_operand(root);
                self.in_operands(fields);
            }
            Conjunct::Segment(_, _, from, to) => {
                self.in_operand(from);
                self.in_operand(to);
            }
            Conjunct::Doubly(_, _, _, first, before, last, end) => {
                self.in_operand(first);
                self.in_operand(before);
                self.in_operand(last);
                self.in_operand(end);
            }
            Conjunct::Tree(_, _, _, root) => self.in_operand(root),
            Conjunct::If(_, test, this, that) => {
                self.in_test(test);
                self.in_level(this);
                self.in_level(that);
            }
        }
    }

    /// In a level.
    #[cycle(replaced)]
    fn in_level(self, level: &mut Level<Term>)
        ensures { level_of level.new
            ≡ level_with (put_for self.symbol self.by) (level_of level.old) }
    {
        self.in_conjuncts(&mut level.conjuncts);
    }

    /// In a test.
    fn in_test(self, test: &mut Test<Operand<Term>>)
        ensures { test.new ≡ test_with (put_for self.symbol self.by) test.old }
    {
        match test {
            Test::True => {}
            Test::Equal(x, y) => {
                self.in_operand(x);
                self.in_operand(y);
            }
            Test::Differ(x, y) => {
                self.in_operand(x);
                self.in_operand(y);
            }
        }
    }

    /// In an operand.
    fn in_operand(self, x: &mut Operand<Term>)
        ensures { x.new ≡ operand_with (put_for self.symbol self.by) x.old }
    {
        if let Operand::Known(t) = x {
            self.in_term(t);
        }
    }

    /// In the operands of a cell's fields.
    fn in_operands(self, fields: &mut [(FieldId, Operand<Term>)])
        ensures { fields.new
            ≡ map (λ f. (f.0, operand_with (put_for self.symbol self.by) f.1)) fields.old }
    {
        for f in fields.iter_mut() {
            self.in_operand(&mut f.1);
        }
    }
}
