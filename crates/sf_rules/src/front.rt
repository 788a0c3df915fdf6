//! What is in front of what there is to do.

ghost use Rattle.std.specs.Prelude.{◌≡◌, ◌++◌, ◌∷◌, [], ℕ, IfNone, IfOk, IfSome, List, None, Option, false, map, true};
ghost use Rattle.sf_core.specs.Program.Syntax.{Assertion as AssertionOf, Block, Command as CommandOf};
ghost use Rattle.sf_core.specs.Program.View.{assertion_of, block_of, command_of};
ghost use Rattle.sf_core.specs.declared.assertion.Test.{Test as TestOf};
ghost use Rattle.sf_core.specs.declared.command.Expr.{Expr as ExprOf};
ghost use Rattle.sf_base.specs.declared.ids.ResId.{ResId as ResourceNumber};
ghost use Rattle.sf_base.specs.declared.ids.Var.{Var as Variable};
ghost use Rattle.sf_base.specs.declared.place.Place.{Place as PlaceOf};
ghost use Rattle.sf_sym.specs.Goal.{Goal as GoalOf, Item as Thing, add, again, end, exit, gave, head, return, run, take, todo_of};
ghost use Rattle.sf_sym.specs.Pending.{Pending as Conditions, pending_of};
ghost use Rattle.sf_sym.specs.declared.term.Term.{Term as TermOf};
ghost use Rattle.sf_rules.specs.Checked.Front.{thing_of};
ghost use Rattle.sf_rules.specs.Checked.Rows.Front.{at_add, at_again, at_command, at_end, at_exit, at_gave, at_head, at_return, at_take};

use sf_base::{Name, Place, ResId, Var};
use sf_core::{Assertion, Command, Expr, Ordered, Test};
use sf_sym::{Item, Pending, Term, next_item};
use std::alloc::AllocError;

/// One thing to do: an item, or the first command of a run.
#[derive(Drop)]
pub(crate) enum Front<'a> {
    /// A command.
    Command(&'a Command),
    /// Conjuncts to assume.
    Add(Place, Pending),
    /// Conjuncts to show.
    Take(Place, Pending, &'a [Name]),
    /// What was taken is gone for good.
    Gave(Place, Vec<(Var, Term)>, Vec<Var>),
    /// A loop whose invariant was handed over.
    Head(Place, &'a Test<Expr>, &'a Assertion, &'a [Command]),
    /// The end of a loop's body.
    Again(Place, &'a Assertion),
    /// The end of a region.
    Exit(Place, ResId),
    /// The end of the procedure.
    Return(Place, &'a [Ordered]),
    /// The end of all.
    End(Place),
}

/// Takes the next thing to do. `None` exactly where nothing is left; an `Err` means out of memory.
pub(crate) fn take_front<'a>(todo: &mut Vec<Item<'a>>) -> Result<Option<Front<'a>>, AllocError>
    ensures some { IfOk result (λ r.
        IfSome r (λ f. todo_of todo.old.items
        ≡ thing_of f ∷ todo_of todo.new.items)) }
    ensures none { IfOk result (λ r. IfNone r (todo_of todo.old.items ≡ [])) }
{
    let Some(item) = next_item(todo) else {
        return Ok(None);
    };
    match item {
        Item::Run(commands) => {
            let Some((first, rest)) = commands.split_first() else {
                unreachable!();
            };
            todo.push(Item::Run(rest))?;
            Ok(Some(Front::Command(first)))
        }
        Item::Add(place, given) => Ok(Some(Front::Add(place, given))),
        Item::Take(place, want, names) => Ok(Some(Front::Take(place, want, names))),
        Item::Gave(place, set, removed) => Ok(Some(Front::Gave(place, set, removed))),
        Item::Head(place, test, invariant, body) => Ok(Some(Front::Head(
            place, test, invariant, body,
        ))),
        Item::Again(place, invariant) => Ok(Some(Front::Again(place, invariant))),
        Item::Exit(place, r) => Ok(Some(Front::Exit(place, r))),
        Item::Return(place, owed) => Ok(Some(Front::Return(place, owed))),
        Item::End(place) => Ok(Some(Front::End(place))),
    }
}

/// Takes the command in front. `None` exactly where something else is, or nothing; an `Err` means
/// out of memory.
pub(crate) fn take_command<'a>(todo: &mut Vec<Item<'a>>) -> Result<Option<&'a Command>, AllocError>
    ensures some { IfOk result (λ r. IfSome r (λ c. todo_of todo.old.items
        ≡ run (command_of c.now) ∷ todo_of todo.new.items)) }
    ensures none { IfOk result (λ r. IfNone r
        ((row : CommandOf → List Thing → Option (List GoalOf))
        → at_command row (todo_of todo.old.items) ≡ None)) }
{
    let Some(front) = take_front(todo)? else {
        return Ok(None);
    };
    match front {
        Front::Command(c) => Ok(Some(c)),
        Front::Add(..) | Front::Take(..) | Front::Gave(..) | Front::Head(..) => Ok(None),
        Front::Again(..) | Front::Exit(..) | Front::Return(..) | Front::End(_) => Ok(None),
    }
}

/// Takes the conjuncts to assume in front. `None` exactly where something else is, or nothing.
#[tactic(auto, using(crate::proofs::Fronts::no_add_at_run))]
pub(crate) fn take_add<'a>(todo: &mut Vec<Item<'a>>) -> Option<(Place, Pending)>
    ensures some { IfSome result (λ x. todo_of todo.old.items
        ≡ add x.0 (pending_of x.1) ∷ todo_of todo.new.items) }
    ensures none { IfNone result
        ((row : PlaceOf → Conditions → List Thing → Option (List GoalOf))
        → at_add row (todo_of todo.old.items) ≡ None) }
{
    match next_item(todo)? {
        Item::Add(place, given) => Some((place, given)),
        Item::Run(_) => None,
        Item::Take(..) | Item::Gave(..) | Item::Head(..) => None,
        Item::Again(..) | Item::Exit(..) | Item::Return(..) | Item::End(_) => None,
    }
}

/// Takes the conjuncts to show in front. `None` exactly where something else is, or nothing.
#[tactic(auto, using(crate::proofs::Fronts::no_take_at_run))]
pub(crate) fn take_take<'a>(todo: &mut Vec<Item<'a>>) -> Option<(Place, Pending, &'a [Name])>
    ensures some { IfSome result (λ x. todo_of todo.old.items
        ≡ take x.0 (pending_of x.1) x.2.now ∷ todo_of todo.new.items) }
    ensures none { IfNone result
        ((row : PlaceOf → Conditions → List (List ℕ) → List Thing → Option (List GoalOf))
        → at_take row (todo_of todo.old.items) ≡ None) }
{
    match next_item(todo)? {
        Item::Take(place, want, names) => Some((place, want, names)),
        Item::Run(_) => None,
        Item::Add(..) | Item::Gave(..) | Item::Head(..) => None,
        Item::Again(..) | Item::Exit(..) | Item::Return(..) | Item::End(_) => None,
    }
}

/// Takes the end of a loop's body in front. `None` exactly where something else is, or nothing.
#[tactic(auto, using(crate::proofs::Fronts::no_again_at_run))]
pub(crate) fn take_again<'a>(todo: &mut Vec<Item<'a>>) -> Option<(Place, &'a Assertion)>
    ensures some { IfSome result (λ x. todo_of todo.old.items
        ≡ again x.0 (assertion_of x.1.now) ∷ todo_of todo.new.items) }
    ensures none { IfNone result
        ((row : PlaceOf → AssertionOf → List Thing → Option (List GoalOf))
        → at_again row (todo_of todo.old.items) ≡ None) }
{
    match next_item(todo)? {
        Item::Again(place, invariant) => Some((place, invariant)),
        Item::Run(_) => None,
        Item::Add(..) | Item::Take(..) | Item::Gave(..) => None,
        Item::Head(..) | Item::Exit(..) | Item::Return(..) | Item::End(_) => None,
    }
}

/// Takes the end of a region in front. `None` exactly where something else is, or nothing.
#[tactic(auto, using(crate::proofs::Fronts::no_exit_at_run))]
pub(crate) fn take_exit<'a>(todo: &mut Vec<Item<'a>>) -> Option<(Place, ResId)>
    ensures some { IfSome result (λ x. todo_of todo.old.items
        ≡ exit x.0 x.1 ∷ todo_of todo.new.items) }
    ensures none { IfNone result
        ((row : PlaceOf → ResourceNumber → List Thing → Option (List GoalOf))
        → at_exit row (todo_of todo.old.items) ≡ None) }
{
    match next_item(todo)? {
        Item::Exit(place, r) => Some((place, r)),
        Item::Run(_) => None,
        Item::Add(..) | Item::Take(..) | Item::Gave(..) => None,
        Item::Head(..) | Item::Again(..) | Item::Return(..) | Item::End(_) => None,
    }
}

/// Takes the end of the procedure in front. `None` exactly where something else is, or nothing.
#[tactic(auto, using(crate::proofs::Fronts::no_return_at_run))]
pub(crate) fn take_return<'a>(todo: &mut Vec<Item<'a>>) -> Option<(Place, &'a [Ordered])>
    ensures some { IfSome result (λ x. todo_of todo.old.items
        ≡ return x.0 (map (λ o. assertion_of o.assertion) x.1.now) ∷ todo_of todo.new.items) }
    ensures none { IfNone result
        ((row : PlaceOf → List AssertionOf → List Thing → Option (List GoalOf))
        → at_return row (todo_of todo.old.items) ≡ None) }
{
    match next_item(todo)? {
        Item::Return(place, owed) => Some((place, owed)),
        Item::Run(_) => None,
        Item::Add(..) | Item::Take(..) | Item::Gave(..) => None,
        Item::Head(..) | Item::Again(..) | Item::Exit(..) | Item::End(_) => None,
    }
}

/// Takes what is said in front of what was taken: the variables that are set, and those that are
/// removed. `None` exactly where something else is in front, or nothing.
#[tactic(auto, using(crate::proofs::Fronts::no_gave_at_run))]
pub(crate) fn take_gave<'a>(todo: &mut Vec<Item<'a>>) -> Option<(Vec<(Var, Term)>, Vec<Var>)>
    ensures some { IfSome result (λ x. (p : PlaceOf)
        × (todo_of todo.old.items ≡ gave p x.0.items x.1.items ∷ todo_of todo.new.items)) }
    ensures none { IfNone result
        ((row : PlaceOf → List (Variable × TermOf) → List Variable → List Thing
        → Option (List GoalOf)) → at_gave row (todo_of todo.old.items) ≡ None) }
{
    match next_item(todo)? {
        Item::Gave(_, set, removed) => Some((set, removed)),
        Item::Run(_) => None,
        Item::Add(..) | Item::Take(..) | Item::Head(..) => None,
        Item::Again(..) | Item::Exit(..) | Item::Return(..) | Item::End(_) => None,
    }
}

/// A loop whose invariant was handed over.
#[derive(Clone, Copy)]
pub(crate) struct Loop<'a> {
    /// Its place.
    pub place: Place,
    /// Its test.
    pub test: &'a Test<Expr>,
    /// Its invariant.
    pub invariant: &'a Assertion,
    /// Its body.
    pub body: &'a [Command],
}

/// Takes the loop in front whose invariant was handed over. `None` exactly where something else is,
/// or nothing.
#[tactic(auto, using(crate::proofs::Fronts::no_head_at_run))]
pub(crate) fn take_head<'a>(todo: &mut Vec<Item<'a>>) -> Option<Loop<'a>>
    ensures some { IfSome result (λ x. todo_of todo.old.items
        ≡ head x.place x.test.now (assertion_of x.invariant.now) (block_of x.body.now)
        ∷ todo_of todo.new.items) }
    ensures none { IfNone result
        ((row : PlaceOf → TestOf ExprOf → AssertionOf → Block → List Thing → Option (List GoalOf))
        → at_head row (todo_of todo.old.items) ≡ None) }
{
    match next_item(todo)? {
        Item::Head(place, test, invariant, body) => Some(Loop {
            place,
            test,
            invariant,
            body,
        }),
        Item::Run(_) => None,
        Item::Add(..) | Item::Take(..) | Item::Gave(..) => None,
        Item::Again(..) | Item::Exit(..) | Item::Return(..) | Item::End(_) => None,
    }
}

/// Takes the end of all, if it is in front: whether it was. `false` exactly where something else is
/// in front, or nothing.
#[tactic(auto, using(crate::proofs::Fronts::no_end_at_run))]
pub(crate) fn take_end(todo: &mut Vec<Item<'_>>) -> bool
    ensures some { result ≡ true
        → (p : PlaceOf) × (todo_of todo.old.items ≡ end p ∷ todo_of todo.new.items) }
    ensures none { result ≡ false → (row : PlaceOf → List Thing → Option (List GoalOf))
        → at_end row (todo_of todo.old.items) ≡ None }
{
    let Some(item) = next_item(todo) else {
        return false;
    };
    match item {
        Item::End(_) => true,
        Item::Run(_) => false,
        Item::Add(..) | Item::Take(..) | Item::Gave(..) => false,
        Item::Head(..) | Item::Again(..) | Item::Exit(..) | Item::Return(..) => false,
    }
}
