ghost use Rattle.std.specs.Prelude.{◌≡◌, OnErr, OnOk};
ghost use Rattle.sf_sym.specs.Equalities.{assumed_apart, assumed_equal, goal_with, put_for};
ghost use Rattle.sf_sym.specs.Goal.{goal_of};

use crate::pending::Pending;
use crate::replace::Replacement;
use crate::state::State;
use crate::term::Term;
use sf_base::{Name, Place, ResId, Var};
use sf_core::{Assertion, Command, Expr, Ordered, Test};
use std::alloc::AllocError;

/// Something to do. Each has a place, for messages. Commands and assertions are the program's own.
#[derive(Drop)]
pub enum Item<'a> {
    /// These commands, in order. Each is a thing to do of its own, and has its own place.
    Run(&'a [Command]),
    /// Assume these conjuncts.
    Add(Place, Pending),
    /// Show these conjuncts and hand their parts of the heap over. The names are those of their
    /// existentials, by number.
    Take(Place, Pending, &'a [Name]),
    /// What was taken is gone for good: these variables have these terms, and these ones are
    /// removed.
    Gave(Place, Vec<(Var, Term)>, Vec<Var>),
    /// A loop whose invariant was handed over: its test, its invariant and its body.
    Head(Place, &'a Test<Expr>, &'a Assertion, &'a [Command]),
    /// The end of a loop's body: its invariant is due.
    Again(Place, &'a Assertion),
    /// The end of a region: the resource's invariant is due.
    Exit(Place, ResId),
    /// The end of the procedure: these assertions are due, one after the other.
    Return(Place, &'a [Ordered]),
    /// Nothing of the heap may be left.
    End(Place),
}

/// A state and what is still to do from there.
#[derive(Drop)]
pub struct Goal<'a> {
    /// What is known there.
    pub state: State,
    /// What is still to do, the next item last.
    pub todo: Vec<Item<'a>>,
}

impl Goal<'_> {
    /// Assumes that the two terms are the same: one that is a symbol is replaced by the other
    /// wherever it occurs, of two symbols the greater. Two constants can't be the same, and then
    /// nil is to differ from itself. An `Err` means out of memory, and then nothing changes.
    pub fn assume_equal(&mut self, t: Term, u: Term) -> Result<(), AllocError>
        ensures ok { OnOk result (goal_of self.new ≡ assumed_equal t u (goal_of self.old)) }
        ensures err { OnErr result (self.new ≡ self.old) }
    {
        if t.is(u) {
            return Ok(());
        }
        match Replacement::between(t, u) {
            Some(r) => self.replace(r),
            None => self.assume_apart(Term::Nil, Term::Nil),
        }
    }

    /// Assumes that the two terms differ. An `Err` means out of memory, and then nothing changes.
    pub fn assume_apart(&mut self, t: Term, u: Term) -> Result<(), AllocError>
        ensures ok { OnOk result (goal_of self.new ≡ assumed_apart t u (goal_of self.old)) }
        ensures err { OnErr result (self.new ≡ self.old) }
    {
        self.state.assume_apart(t, u)?;
        Ok(())
    }

    /// Replaces a symbol by a term. An `Err` means out of memory, and then nothing changes.
    fn replace(&mut self, r: Replacement) -> Result<(), AllocError>
        ensures ok { OnOk result
            (goal_of self.new ≡ goal_with (put_for r.symbol r.by) (goal_of self.old)) }
        ensures err { OnErr result (self.new ≡ self.old) }
    {
        self.state.replace(r)?;
        r.in_items(&mut self.todo);
        Ok(())
    }
}
