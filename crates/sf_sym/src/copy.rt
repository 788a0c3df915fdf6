//! Copies of goals, for rules that leave two.

ghost use Rattle.std.specs.Prelude.{◌≡◌, IfOk, map};
ghost use Rattle.sf_core.specs.Program.View.{conjunct_of, level_of};
ghost use Rattle.sf_sym.specs.Goal.{goal_of, items_of, todo_of};
ghost use Rattle.sf_sym.specs.Pending.{pending_of};

use crate::goal::{Goal, Item};
use crate::term::Term;
use sf_core::{Conjunct, Level};
use std::alloc::{AllocError, Global};

impl<'a> Goal<'a> {
    /// The same goal. An `Err` means out of memory.
    pub fn copy(&self, alloc: Global) -> Result<Goal<'a>, AllocError>
        ensures { IfOk result (λ goal. goal_of goal ≡ goal_of self.now) }
    {
        Ok(Goal {
            state: self.state.copy(alloc)?,
            todo: copy_items(alloc, &self.todo)?,
        })
    }
}

/// The same things to do. An `Err` means out of memory.
fn copy_items<'a>(alloc: Global, todo: &[Item<'a>]) -> Result<Vec<Item<'a>>, AllocError>
    ensures { IfOk result (λ copies. todo_of copies.items ≡ todo_of todo.now) }
{
    let mut copies = Vec::with_capacity(alloc, todo.len())?;
    for item in todo {
        copies.push(copy_item(alloc, item)?)?;
    }
    Ok(copies)
}

/// The same thing to do. An `Err` means out of memory.
fn copy_item<'a>(alloc: Global, item: &Item<'a>) -> Result<Item<'a>, AllocError>
    ensures { IfOk result (λ copy. items_of copy ≡ items_of item.now) }
{
    match item {
        Item::Run(commands) => Ok(Item::Run(*commands)),
        Item::Add(place, given) => Ok(Item::Add(*place, given.copy(alloc)?)),
        Item::Take(place, want, names) => Ok(Item::Take(*place, want.copy(alloc)?, *names)),
        Item::Gave(place, set, removed) => {
            let set = Vec::from_slice(alloc, set)?;
            Ok(Item::Gave(*place, set, Vec::from_slice(alloc, removed)?))
        }
        Item::Head(place, test, invariant, body) => {
            Ok(Item::Head(*place, *test, *invariant, *body))
        }
        Item::Again(place, invariant) => Ok(Item::Again(*place, *invariant)),
        Item::Exit(place, r) => Ok(Item::Exit(*place, *r)),
        Item::Return(place, owed) => Ok(Item::Return(*place, *owed)),
        Item::End(place) => Ok(Item::End(*place)),
    }
}

/// The same conjuncts. An `Err` means out of memory.
#[cycle(copies)]
pub(crate) fn copy_conjuncts(
    alloc: Global,
    from: &[Conjunct<Term>],
) -> Result<Vec<Conjunct<Term>>, AllocError>
    ensures { IfOk result (λ cs. map conjunct_of cs.items ≡ map conjunct_of from.now) }
{
    let mut copies = Vec::with_capacity(alloc, from.len())?;
    for c in from {
        copies.push(copy_conjunct(alloc, c)?)?;
    }
    Ok(copies)
}

/// The same conjunct, with its branches. An `Err` means out of memory.
#[cycle(copies)]
fn copy_conjunct(alloc: Global, c: &Conjunct<Term>) -> Result<Conjunct<Term>, AllocError>
    ensures { IfOk result (λ d. conjunct_of d ≡ conjunct_of c.now) }
{
    match c {
        Conjunct::Holds(place, test) => Ok(Conjunct::Holds(*place, *test)),
        Conjunct::Points(place, root, fields) => {
            let fields = Vec::from_slice(alloc, fields)?;
            Ok(Conjunct::Points(*place, *root, fields))
        }
        Conjunct::Segment(place, next, from, to) => {
            Ok(Conjunct::Segment(*place, *next, *from, *to))
        }
        Conjunct::Doubly(place, next, back, from, before, last, to) => Ok(Conjunct::Doubly(
            *place, *next, *back, *from, *before, *last, *to,
        )),
        Conjunct::Tree(place, left, right, root) => {
            Ok(Conjunct::Tree(*place, *left, *right, *root))
        }
        Conjunct::If(place, test, this, that) => {
            let this = copy_level(alloc, this)?;
            let that = copy_level(alloc, that)?;
            Ok(Conjunct::If(*place, *test, this, that))
        }
    }
}

/// The same level. An `Err` means out of memory.
#[cycle(copies)]
fn copy_level(alloc: Global, level: &Level<Term>) -> Result<Level<Term>, AllocError>
    ensures { IfOk result (λ d. level_of d ≡ level_of level.now) }
{
    Ok(Level {
        made: level.made,
        conjuncts: copy_conjuncts(alloc, &level.conjuncts)?,
    })
}
