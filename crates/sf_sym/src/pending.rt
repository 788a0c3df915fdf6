//! Conjuncts that are still to be assumed or to be shown.

ghost use Rattle.std.specs.Prelude.{◌≡◌, ◌<◌, ◌≤◌, ◌==◌, ◌∷◌, ◌++◌, [], ℕ, List, None, Some, get_or, length, map, set, IfSome, IfNone, IfOk, OnErr, OnOk};
ghost use Rattle.std.specs.Option.{option_map};
ghost use Rattle.sf_sym.specs.Below.{IsBelow};
ghost use Rattle.sf_sym.specs.Checked.Above.{BindingsBelow};
ghost use Rattle.sf_core.specs.declared.assertion.Conjunct.{Conjunct as ConjunctOf};
ghost use Rattle.sf_sym.specs.Equalities.{pending_with, put_for};
ghost use Rattle.sf_sym.specs.Pending.{pending_of};
ghost use Rattle.sf_sym.specs.declared.term.Term.{Term as TermOf};

use crate::above::{above_binding, above_bindings, above_conjunct, above_conjuncts, above_term};
use crate::copy::copy_conjuncts;
use crate::replace::Replacement;
use crate::term::Term;
use sf_core::Conjunct;
use std::alloc::{AllocError, Global};
use std::marker::Model;

/// Conjuncts with terms that are still to be assumed or to be shown, and what their existentials
/// stand for so far. Contracts see it as the record `Given`.
#[derive(Drop)]
pub struct Pending {
    // The next one last, so that taking it costs nothing.
    conjuncts: Vec<Conjunct<Term>>,
    bindings: Vec<Option<Term>>,
    // The existential that was bound last.
    latest: usize,
    // A number above all symbols but those of what that existential stands for: another one is
    // replaced by a look at that alone, as one is that was made for it.
    above: u64,
}

impl Model for Pending {
    ghost use Rattle.sf_sym.specs.Pending.{Given, given_of};
    ghost use Rattle.std.specs.Coded.{codes};
    ghost use Rattle.sf_core.specs.contracts.assertion.Conjunct as conjunct;
    ghost use Rattle.sf_sym.specs.contracts.term.Term as term;

    ghost Value = { Given };

    ghost coded = { Prim.hlevel (codes, (conjunct.the_row term.the_row).coded) };

    ghost view = { λ s. given_of s.conjuncts.items s.bindings.items };

    ghost use Rattle.sf_sym.specs.Checked.Above.{AreBelow};

    ghost invariant = { λ s. AreBelow s.above s.latest s.conjuncts.items s.bindings.items };
}

impl Pending {
    /// These conjuncts, in order, and the term of each existential by its number, where it has one.
    pub fn new(mut conjuncts: Vec<Conjunct<Term>>, bindings: Vec<Option<Term>>) -> Pending
        ensures conjuncts { result.conjuncts ≡ conjuncts.items }
        ensures bindings { result.bindings ≡ bindings.items }
    {
        conjuncts.reverse();
        let above = above_bindings(above_conjuncts(0, &conjuncts), &bindings);
        Pending {
            conjuncts,
            bindings,
            latest: 0,
            above,
        }
    }

    /// Whether no conjunct is left.
    pub fn is_empty(&self) -> bool
        ensures { result ≡ (length self.now.conjuncts == 0) }
    {
        self.conjuncts.is_empty()
    }

    /// The first conjunct, if one is left.
    pub fn first(&self) -> Option<&Conjunct<Term>>
        ensures some { IfSome result (λ c.
            (rest : List (ConjunctOf TermOf)) × (self.now.conjuncts ≡ c.now ∷ rest)) }
        ensures none { IfNone result (self.now.conjuncts ≡ []) }
    {
        let (first, _) = self.conjuncts.split_last()?;
        Some(first)
    }

    /// What the existentials stand for, by their numbers.
    pub fn bindings(&self) -> &[Option<Term>]
        ensures { result.now ≡ self.now.bindings }
    {
        self.bindings.as_slice()
    }

    /// The existential of that number stands for the term from now on, if there is one of that
    /// number.
    pub fn bind(&mut self, n: u32, t: Term)
        ensures conjuncts { self.new.conjuncts ≡ self.old.conjuncts }
        ensures bindings { self.new.bindings ≡ set self.old.bindings n (Some t) }
    {
        let n = n as usize;
        if n < self.bindings.len() {
            self.above = above_latest(self.above, &self.bindings, self.latest);
            self.latest = n;
            self.bindings[n] = Some(t);
        }
    }

    /// Puts a conjunct in place of the first, if one is left.
    pub fn replace_first(&mut self, c: Conjunct<Term>)
        ensures conjuncts { (first : ConjunctOf TermOf) (rest : List (ConjunctOf TermOf))
            → self.old.conjuncts ≡ first ∷ rest → self.new.conjuncts ≡ c ∷ rest }
        ensures none { self.old.conjuncts ≡ [] → self.new.conjuncts ≡ [] }
        ensures bindings { self.new.bindings ≡ self.old.bindings }
    {
        if self.conjuncts.pop().is_some() {
            self.above = above_conjunct(self.above, &c);
            self.conjuncts.push_reserved(c);
        }
    }

    /// Puts two conjuncts in place of the first, which is handed out. An `Err` means out of memory,
    /// and then nothing changes.
    pub fn split_first(
        &mut self,
        one: Conjunct<Term>,
        two: Conjunct<Term>,
    ) -> Result<Conjunct<Term>, AllocError>
        requires { 0 < length self.old.conjuncts }
        ensures taken { IfOk result (λ c.
            (first : ConjunctOf TermOf) (rest : List (ConjunctOf TermOf))
            → self.old.conjuncts ≡ first ∷ rest → c ≡ first) }
        ensures conjuncts { OnOk result (
            (first : ConjunctOf TermOf) (rest : List (ConjunctOf TermOf))
            → self.old.conjuncts ≡ first ∷ rest → self.new.conjuncts ≡ one ∷ two ∷ rest) }
        ensures bindings { self.new.bindings ≡ self.old.bindings }
        ensures err { OnErr result (self.new ≡ self.old) }
    {
        self.conjuncts.reserve(1)?;
        let Some(c) = self.conjuncts.pop() else {
            unreachable!();
        };
        self.above = above_conjunct(above_conjunct(self.above, &one), &two);
        self.conjuncts.push_reserved(two);
        self.conjuncts.push_reserved(one);
        Ok(c)
    }

    /// Puts a conjunct in place of the first two, as it was before they came in its place. Where
    /// fewer are left, none is after it.
    pub fn join_first(&mut self, c: Conjunct<Term>)
        ensures conjuncts { (one two : ConjunctOf TermOf) (rest : List (ConjunctOf TermOf))
            → self.old.conjuncts ≡ one ∷ two ∷ rest → self.new.conjuncts ≡ c ∷ rest }
        ensures fewer { length self.old.conjuncts < 2 → self.new.conjuncts ≡ [] }
        ensures bindings { self.new.bindings ≡ self.old.bindings }
    {
        self.conjuncts.pop();
        self.replace_first(c);
    }

    /// Takes the first conjunct, if one is left; else nothing changes.
    pub fn take_first(&mut self) -> Option<Conjunct<Term>>
        ensures some { IfSome result (λ c. self.old.conjuncts ≡ c ∷ self.new.conjuncts) }
        ensures none { IfNone result (self.old.conjuncts ≡ []) }
        ensures unchanged { IfNone result (self.new ≡ self.old) }
        ensures bindings { self.new.bindings ≡ self.old.bindings }
    {
        self.conjuncts.pop()
    }

    /// Puts these conjuncts, in order, before the others. An `Err` means out of memory, and then
    /// nothing changes.
    pub fn put_before(&mut self, mut first: Vec<Conjunct<Term>>) -> Result<(), AllocError>
        ensures conjuncts { OnOk result (self.new.conjuncts ≡ first.items ++ self.old.conjuncts) }
        ensures bindings { self.new.bindings ≡ self.old.bindings }
        ensures err { OnErr result (self.new ≡ self.old) }
    {
        first.reverse();
        let above = above_conjuncts(self.above, &first);
        self.conjuncts.append(&mut first)?;
        self.above = above;
        Ok(())
    }

    /// The same conjuncts, with the same terms of the existentials. An `Err` means out of memory.
    pub(crate) fn copy(&self, alloc: Global) -> Result<Pending, AllocError>
        ensures { IfOk result (λ copy. pending_of copy ≡ pending_of self.now) }
    {
        Ok(Pending {
            conjuncts: copy_conjuncts(alloc, &self.conjuncts)?,
            bindings: Vec::from_slice(alloc, &self.bindings)?,
            latest: self.latest,
            above: self.above,
        })
    }

    /// Replaces a symbol by a term.
    pub(crate) fn replace(&mut self, r: Replacement)
        ensures { pending_of self.new ≡ pending_with (put_for r.symbol r.by) (pending_of self.old) }
    {
        if u64::from(r.symbol) < self.above {
            self.replace_all(r);
            return;
        }
        replace_latest(&mut self.bindings, self.latest, r);
    }

    /// The same by a look at all.
    fn replace_all(&mut self, r: Replacement)
        ensures { pending_of self.new ≡ pending_with (put_for r.symbol r.by) (pending_of self.old) }
    {
        self.above = above_latest(above_term(self.above, r.by), &self.bindings, self.latest);
        r.in_conjuncts(&mut self.conjuncts);
        r.in_bindings(&mut self.bindings);
    }
}

/// A number that isn't below `least`, and is above the symbol of what that existential stands for,
/// if it is one.
fn above_latest(least: u64, bindings: &[Option<Term>], latest: usize) -> u64
    ensures least { least ≤ result }
    ensures below { (t : TermOf) → get_or bindings.now latest None ≡ Some t → IsBelow result t }
{
    match bindings.get(latest) {
        Some(binding) => above_binding(least, *binding),
        None => least,
    }
}

/// Replaces a symbol by a term, where at most what that existential stands for has the symbol.
fn replace_latest(bindings: &mut [Option<Term>], latest: usize, r: Replacement)
    requires { BindingsBelow r.symbol latest bindings.old }
    ensures { bindings.new ≡ map (option_map (put_for r.symbol r.by)) bindings.old }
{
    if latest < bindings.len() {
        r.in_binding(&mut bindings[latest]);
    }
}
