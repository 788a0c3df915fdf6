//! Rows of critical regions: enter, exit.

ghost use Rattle.std.specs.Prelude.{◌≡◌, ◌++◌, ◌∷◌, [], ◌<◌, ◌^◌, IfNone, IfOk, IfSome, IsTrue, None, Some, length};
ghost use Rattle.std.specs.List.{slice_get};
ghost use Rattle.std.specs.Option.{option_map};
ghost use Rattle.sf_base.specs.Results.{Appends};
ghost use Rattle.sf_core.specs.Program.Syntax.{Resource as ResourceOf};
ghost use Rattle.sf_core.specs.Program.View.{assertion_of, block_of};
ghost use Rattle.sf_precise.specs.Order.{IsOrdering};
ghost use Rattle.sf_rules.specs.Checked.Children.{children_of};
ghost use Rattle.sf_rules.specs.Checked.Rows.Front.{at_command, at_exit};
ghost use Rattle.sf_rules.specs.Checked.Rows.Regions.{enter_row, entered_with, exit_row};
ghost use Rattle.sf_rules.specs.Resources.{variables_from};
ghost use Rattle.sf_rules.specs.Setting.{Setting, setting_of};
ghost use Rattle.sf_rules.specs.Rules.{has_numbers};
ghost use Rattle.sf_sym.specs.Goal.{exit, gave, to_run, todo_of};

use crate::children::Children;
use crate::few::TOO_MANY;
use crate::front::{take_command, take_exit};
use crate::left::Left;
use crate::words::{Terms, with_assumed, with_test, with_wanted};
use sf_base::{Name, Place, ResId, Var};
use sf_core::{Assertion, Command, Expr, Test};
use sf_precise::Arranged;
use sf_sym::{Goal, Item};
use std::alloc::{AllocError, Global};

/// A resource: the names of its variables, and its invariant in order.
#[derive(Clone, Copy)]
struct Region<'a> {
    names: &'a [Name],
    invariant: &'a Assertion,
}

/// The resource of that number. `None` exactly where there is no such resource.
fn region_of<'a>(arranged: &'a Arranged, r: ResId) -> Option<Region<'a>>
    ghost d: { Setting }
    requires ordered { IsOrdering d.ordered }
    requires setting { d ≡ setting_of d.ordered arranged.now }
    ensures some { IfSome result (λ x. (of : ResourceOf)
        × (slice_get d.program.resources r.0 ≡ Some of)
        × (x.names.now ≡ of.variables)
        × (assertion_of x.invariant.now ≡ d.ordered of.invariant)) }
    ensures few { IfSome result (λ x. length x.names.now < 2 ^ 32) }
    ensures none { IfNone result (slice_get d.program.resources r.0 ≡ None) }
{
    let resource = arranged.program.resources.get(r.0 as usize)?;
    Some(Region {
        names: &resource.variables,
        invariant: &arranged.invariant(r).assertion,
    })
}

/// The variables of a resource that has these names, in order. An `Err` means out of memory.
fn variables_of(alloc: Global, r: ResId, names: &[Name]) -> Result<Vec<Var>, AllocError>
    requires { length names.now < 2 ^ 32 }
    ensures { IfOk result (λ xs. xs.items ≡ variables_from r 0 names.now) }
{
    let mut found = Vec::with_capacity(alloc, names.len())?;
    add_variables(r, names, &mut found)?;
    Ok(found)
}

/// Appends them. An `Err` means out of memory.
pub(crate) fn add_variables(
    r: ResId,
    names: &[Name],
    found: &mut Vec<Var>,
) -> Result<(), AllocError>
    requires { length names.now < 2 ^ 32 }
    ensures { Appends result found.old.items found.new.items (variables_from r 0 names.now) }
{
    let mut next = 0;
    let mut left = names;
    while let Some((_, rest)) = left.split_first() {
        found.push(Var::Shared(r, next))?;
        next += 1;
        left = rest;
    }
    Ok(())
}

/// enter: the resource's variables are there, with unknown values; its invariant and the condition
/// are assumed.
#[inline(never)]
pub(crate) fn enter<'a>(alloc: Global, arranged: &'a Arranged, goal: Goal<'a>) -> Left<'a>
    ghost d: { Setting }
    requires ordered { IsOrdering d.ordered }
    requires setting { d ≡ setting_of d.ordered arranged.now }
    requires numbers { IsTrue (has_numbers goal.state) }
    ensures { IfOk result (λ left. option_map children_of left
        ≡ at_command (enter_row d goal.entry.state) (todo_of goal.entry.todo.items)) }
{
    let Goal { state, mut todo } = goal;
    let Some(c) = take_command(&mut todo)? else {
        return Ok(None);
    };
    let Command::With(place, r, test, body) = c else {
        return Ok(None);
    };
    let Some(region) = region_of(arranged, *r) else {
        return Ok(None);
    };
    let todo = with_body(todo, *place, *r, body)?;
    enter_region(alloc, Goal { state, todo }, *place, *r, test, region)
}

/// Puts a region's body first, and after it the region's end. An `Err` means out of memory.
fn with_body<'a>(
    mut todo: Vec<Item<'a>>,
    place: Place,
    r: ResId,
    body: &'a [Command],
) -> Result<Vec<Item<'a>>, AllocError>
    ensures { IfOk result (λ inside. todo_of inside.items
        ≡ to_run (block_of body.now) ++ (exit place r ∷ todo_of todo.entry.items)) }
{
    todo.push(Item::Exit(place, r))?;
    todo.push(Item::Run(body))?;
    Ok(todo)
}

/// The entry into that region under that condition, where what is done inside stands first.
fn enter_region<'a>(
    alloc: Global,
    goal: Goal<'a>,
    place: Place,
    r: ResId,
    test: &Test<Expr>,
    region: Region<'a>,
) -> Left<'a>
    requires numbers { IsTrue (has_numbers goal.state) }
    ensures { IfOk result (λ left. option_map children_of left
        ≡ entered_with goal.entry.state place (variables_from r 0 region.entry.names.now)
        (assertion_of region.entry.invariant.now) test.now (todo_of goal.entry.todo.items)) }
{
    if region.names.len() >= TOO_MANY {
        return Ok(None);
    }
    let Goal { mut state, todo } = goal;
    state.set_fresh(&variables_of(alloc, r, region.names)?)?;
    let terms = Terms::Of(state.vars());
    let todo = with_test(alloc, todo, place, terms, test)?;
    let todo = with_assumed(alloc, todo, place, terms, region.invariant)?;
    Ok(Some(Children::One(Goal { state, todo })))
}

/// exit: the invariant is due, and then the resource's variables are gone.
#[inline(never)]
pub(crate) fn exit<'a>(alloc: Global, arranged: &'a Arranged, goal: Goal<'a>) -> Left<'a>
    ghost d: { Setting }
    requires ordered { IsOrdering d.ordered }
    requires setting { d ≡ setting_of d.ordered arranged.now }
    ensures { IfOk result (λ left. option_map children_of left
        ≡ at_exit (exit_row d goal.entry.state) (todo_of goal.entry.todo.items)) }
{
    let Goal { state, mut todo } = goal;
    let Some((place, r)) = take_exit(&mut todo) else {
        return Ok(None);
    };
    let Some(region) = region_of(arranged, r) else {
        return Ok(None);
    };
    let todo = with_removed(alloc, todo, place, r, region.names)?;
    let terms = Terms::Of(state.vars());
    let todo = with_wanted(alloc, todo, place, terms, region.invariant)?;
    Ok(Some(Children::One(Goal { state, todo })))
}

/// Puts first that the variables of a resource that has these names are removed. An `Err` means out
/// of memory.
fn with_removed<'a>(
    alloc: Global,
    mut todo: Vec<Item<'a>>,
    place: Place,
    r: ResId,
    names: &[Name],
) -> Result<Vec<Item<'a>>, AllocError>
    requires { length names.now < 2 ^ 32 }
    ensures { IfOk result (λ left. todo_of left.items
        ≡ gave place [] (variables_from r 0 names.now) ∷ todo_of todo.entry.items) }
{
    let xs = variables_of(alloc, r, names)?;
    todo.push(Item::Gave(place, Vec::new(alloc), xs))?;
    Ok(todo)
}
