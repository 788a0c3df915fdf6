//! The terms of the variables.

ghost use Rattle.std.specs.Prelude.{◌≡◌, ◌+◌, ◌<◌, ◌≤◌, ◌^◌, length, map, position, slice_get, IfOk, IfSome, OnErr, OnOk, vec_capacity, vec_len};
ghost use Rattle.sf_base.specs.Variables.{same_var};
ghost use Rattle.sf_sym.specs.Equalities.{put_for};
ghost use Rattle.sf_sym.specs.Checked.Insertion.{insert_var, insert_vars};
ghost use Rattle.sf_sym.specs.Checked.VariablePlaces.{is_var, place_of};
ghost use Rattle.sf_sym.specs.State.{term_at};
ghost use Rattle.sf_sym.specs.Variables.{AreInOrder, comes_before, fresh_for, remove_var, remove_vars, set_var, set_vars};

use crate::replace::Replacement;
use crate::term::Term;
use sf_base::Var;
use std::alloc::{AllocError, Global};
use std::marker::Model;

/// The terms of the variables in reach, in the order of the variables, each once. Contracts see it
/// as the list.
#[derive(Drop)]
pub(crate) struct VarTerms {
    items: Vec<(Var, Term)>,
}

impl Model for VarTerms {
    ghost use Rattle.std.specs.Prelude.{List};
    ghost use Rattle.sf_base.specs.declared.ids.Var.{Var};
    ghost use Rattle.sf_sym.specs.declared.term.Term.{Term};
    ghost use Rattle.sf_sym.specs.Variables.{AreInOrder};

    ghost Value = { List (Var × Term) };

    ghost view = { λ s. s.items.items };

    ghost invariant = { λ s. AreInOrder s.items.items };
}

impl VarTerms {
    /// These variables with their terms.
    pub(crate) fn from_vec(items: Vec<(Var, Term)>) -> VarTerms
        requires { AreInOrder items.items }
        ensures { result ≡ items.items }
    {
        VarTerms { items }
    }

    /// The same variables with the same terms. An `Err` means out of memory.
    pub(crate) fn copy(&self, alloc: Global) -> Result<VarTerms, AllocError>
        ensures { IfOk result (λ vars. vars ≡ self.now) }
    {
        let items = Vec::from_slice(alloc, &self.items)?;
        Ok(VarTerms { items })
    }

    /// The variables with their terms.
    pub(crate) fn as_slice(&self) -> &[(Var, Term)]
        ensures { result.now ≡ self.now }
    {
        self.items.as_slice()
    }

    /// The term of a variable, `Nil` where it has none. It looks first where own variables are as
    /// long as all are there: at the variable's number.
    #[tactic(auto, using(crate::proofs::VariableLists::term_there))]
    pub(crate) fn term_at(&self, x: Var) -> Term
        ensures { result ≡ term_at self.now x }
    {
        match self.items.get(number_of(x)) {
            Some(v) if v.0.is_same(x) => v.1,
            _ => term_at(&self.items, x),
        }
    }

    /// Sets a variable. An `Err` means out of memory, and then nothing changes.
    pub(crate) fn set(&mut self, x: Var, t: Term) -> Result<(), AllocError>
        ensures ok { OnOk result (self.new ≡ set_var x t self.old) }
        ensures err { OnErr result (self.new ≡ self.old) }
    {
        self.items.reserve(1)?;
        set_in_room(&mut self.items, x, t);
        Ok(())
    }

    /// Sets variables, one after the other. An `Err` means out of memory, and then nothing changes.
    pub(crate) fn set_all(&mut self, xs: &[(Var, Term)]) -> Result<(), AllocError>
        ensures ok { OnOk result (self.new ≡ set_vars xs.now self.old) }
        ensures err { OnErr result (self.new ≡ self.old) }
    {
        self.items.reserve(xs.len())?;
        set_all_in_room(&mut self.items, xs);
        Ok(())
    }

    /// The variables with their terms, where those are set, one after the other. An `Err` means out
    /// of memory.
    pub(crate) fn after(
        &self,
        alloc: Global,
        xs: &[(Var, Term)],
    ) -> Result<Vec<(Var, Term)>, AllocError>
        ensures { IfOk result (λ vars. vars.items ≡ set_vars xs.now self.now) }
    {
        let mut vars = self.copy(alloc)?;
        vars.set_all(xs)?;
        Ok(vars.items)
    }

    /// Sets each of the variables to a symbol, from that number on. An `Err` means out of memory,
    /// and then nothing changes.
    pub(crate) fn set_fresh(&mut self, from: u32, xs: &[Var]) -> Result<(), AllocError>
        requires { from + length xs.now < 2 ^ 32 }
        ensures ok { OnOk result (self.new ≡ set_vars (fresh_for from xs.now) self.old) }
        ensures err { OnErr result (self.new ≡ self.old) }
    {
        self.items.reserve(xs.len())?;
        set_fresh_in_room(&mut self.items, from, xs);
        Ok(())
    }

    /// Removes a variable, if it is there.
    pub(crate) fn remove(&mut self, x: Var)
        ensures { self.new ≡ remove_var x self.old }
    {
        match index_of(&self.items, x) {
            Some(i) => {
                self.items.remove(i);
            }
            None => {}
        }
    }

    /// Removes variables.
    pub(crate) fn remove_all(&mut self, xs: &[Var])
        ensures { self.new ≡ remove_vars xs.now self.old }
    {
        let mut left = xs;
        while let Some((first, rest)) = left.split_first() {
            self.remove(*first);
            left = rest;
        }
    }

    /// Replaces a symbol by a term.
    pub(crate) fn replace(&mut self, r: Replacement)
        ensures { self.new ≡ map (λ x. (x.0, put_for r.symbol r.by x.1)) self.old }
    {
        r.in_vars(&mut self.items);
    }
}

/// The number of a variable, among the own ones or among its resource's.
fn number_of(x: Var) -> usize {
    match x {
        Var::Own(i) | Var::Shared(_, i) => i as usize,
    }
}

/// The index of a variable.
fn index_of(vars: &[(Var, Term)], x: Var) -> Option<usize>
    ensures index { result ≡ position (λ v. same_var v.0 x) vars.now }
    ensures within { IfSome result (λ i. i < length vars.now) }
{
    vars.iter().position(|v| v.0.is_same(x))
}

/// The term of a variable, `Nil` where it has none.
pub fn term_at(vars: &[(Var, Term)], x: Var) -> Term
    ensures { result ≡ term_at vars.now x }
{
    let mut left = vars;
    while let Some((first, rest)) = left.split_first() {
        if first.0.is_same(x) {
            return first.1;
        }
        left = rest;
    }
    Term::Nil
}

/// A symbol for each of the variables, from that number on. An `Err` means out of memory.
pub fn fresh_for(alloc: Global, from: u32, xs: &[Var]) -> Result<Vec<(Var, Term)>, AllocError>
    requires { from + length xs.now < 2 ^ 32 }
    ensures { IfOk result (λ set. set.items ≡ fresh_for from xs.now) }
{
    let mut set = Vec::with_capacity(alloc, xs.len())?;
    let mut next = from;
    let mut left = xs;
    while let Some((first, rest)) = left.split_first() {
        set.push((*first, Term::Sym(next)))?;
        next += 1;
        left = rest;
    }
    Ok(set)
}

/// Whether a variable comes before another.
fn comes_before(x: Var, y: Var) -> bool
    ensures { result ≡ comes_before x y }
{
    match (x, y) {
        (Var::Own(i), Var::Own(j)) => i < j,
        (Var::Own(_), Var::Shared(..)) => true,
        (Var::Shared(..), Var::Own(_)) => false,
        (Var::Shared(q, i), Var::Shared(r, j)) => q.0 < r.0 || q.0 == r.0 && i < j,
    }
}

/// How many of the variables come before that one.
fn place_of(vars: &[(Var, Term)], x: Var) -> usize
    ensures place { result ≡ place_of x vars.now }
    ensures within { result ≤ length vars.now }
{
    let mut before = 0;
    let mut left = vars;
    while let Some((first, rest)) = left.split_first() {
        if first.0.is_same(x) || comes_before(x, first.0) {
            return before;
        }
        before += 1;
        left = rest;
    }
    before
}

/// Whether the variable has that index among the variables.
fn is_at(vars: &[(Var, Term)], at: usize, x: Var) -> bool
    ensures { result ≡ is_var x (slice_get vars.now at) }
{
    match vars.get(at) {
        Some(v) => v.0.is_same(x),
        None => false,
    }
}

/// Sets a variable where there is room for one more.
fn set_in_room(vars: &mut Vec<(Var, Term)>, x: Var, t: Term)
    requires { vec_len vars.old < vec_capacity vars.old }
    ensures items { vars.new.items ≡ insert_var x t vars.old.items }
    ensures len { vec_len vars.new ≤ vec_len vars.old + 1 }
    ensures capacity { vec_capacity vars.old ≤ vec_capacity vars.new }
{
    let at = place_of(vars, x);
    if is_at(vars, at, x) {
        vars[at] = (x, t);
    } else if vars.insert(at, (x, t)).is_err() {
        unreachable!();
    }
}

/// Sets variables, one after the other, where there is room for all.
fn set_all_in_room(vars: &mut Vec<(Var, Term)>, xs: &[(Var, Term)])
    requires { vec_len vars.old + length xs.now ≤ vec_capacity vars.old }
    ensures { vars.new.items ≡ insert_vars xs.now vars.old.items }
{
    let mut left = xs;
    while let Some((first, rest)) = left.split_first() {
        set_in_room(vars, first.0, first.1);
        left = rest;
    }
}

/// Sets each of the variables to a symbol, from that number on, where there is room for all.
fn set_fresh_in_room(vars: &mut Vec<(Var, Term)>, from: u32, xs: &[Var])
    requires room { vec_len vars.old + length xs.now ≤ vec_capacity vars.old }
    requires numbers { from + length xs.now < 2 ^ 32 }
    ensures { vars.new.items ≡ insert_vars (fresh_for from xs.now) vars.old.items }
{
    let mut next = from;
    let mut left = xs;
    while let Some((first, rest)) = left.split_first() {
        set_in_room(vars, *first, Term::Sym(next));
        next += 1;
        left = rest;
    }
}
