//! The items of a goal, with the next one last. A run without commands is nothing to do.

ghost use Rattle.std.specs.Prelude.{◌≡◌, ◌++◌, [], false, IfOk, IfSome, IfNone, List};
ghost use Rattle.sf_sym.specs.Goal.{Item as Thing, add, items_of, take, todo_of, unless_none};
ghost use Rattle.sf_sym.specs.Pending.{pending_of};
ghost use Rattle.sf_sym.specs.Checked.Items.{is_nothing};

use crate::goal::Item;
use crate::pending::Pending;
use sf_base::{Name, Place};
use std::alloc::AllocError;

/// Whether the item is nothing to do.
fn is_nothing(item: &Item) -> bool
    ensures { result ≡ is_nothing item.now }
{
    match item {
        Item::Run(commands) => commands.is_empty(),
        _ => false,
    }
}

/// Takes the next thing to do, with the empty runs before it. `None` exactly where nothing is left.
pub fn next_item<'a>(todo: &mut Vec<Item<'a>>) -> Option<Item<'a>>
    ensures item { IfSome result
        (λ i. todo_of todo.old.items ≡ items_of i ++ todo_of todo.new.items) }
    ensures something { IfSome result (λ i. is_nothing i ≡ false) }
    ensures none { IfNone result (todo_of todo.old.items ≡ []) }
    ensures left { IfNone result (todo.new.items ≡ []) }
{
    while let Some(item) = todo.pop() {
        if !is_nothing(&item) {
            return Some(item);
        }
    }
    None
}

/// The next thing to do. `None` exactly where nothing is left.
pub fn peek_item<'b, 'a>(todo: &'b [Item<'a>]) -> Option<&'b Item<'a>>
    ensures item { IfSome result
        (λ i. (rest : List Thing) × (todo_of todo.now ≡ items_of i.now ++ rest)) }
    ensures something { IfSome result (λ i. is_nothing i.now ≡ false) }
    ensures none { IfNone result (todo_of todo.now ≡ []) }
{
    let mut end = todo.len();
    while end > 0 {
        let item = &todo[end - 1];
        if !is_nothing(item) {
            return Some(item);
        }
        end -= 1;
    }
    None
}

/// Puts conjuncts to assume first, if there are any. An `Err` means out of memory.
pub fn with_add<'a>(
    mut todo: Vec<Item<'a>>,
    place: Place,
    given: Pending,
) -> Result<Vec<Item<'a>>, AllocError>
    ensures { IfOk result (λ r. todo_of r.items
        ≡ unless_none (pending_of given).conjuncts (add place (pending_of given))
        ++ todo_of todo.entry.items) }
{
    if given.is_empty() {
        return Ok(todo);
    }
    todo.push(Item::Add(place, given))?;
    Ok(todo)
}

/// Puts conjuncts to show first, if there are any. An `Err` means out of memory.
pub fn with_take<'a>(
    mut todo: Vec<Item<'a>>,
    place: Place,
    want: Pending,
    names: &'a [Name],
) -> Result<Vec<Item<'a>>, AllocError>
    ensures { IfOk result (λ r. todo_of r.items
        ≡ unless_none (pending_of want).conjuncts (take place (pending_of want) names.now)
        ++ todo_of todo.entry.items) }
{
    if want.is_empty() {
        return Ok(todo);
    }
    todo.push(Item::Take(place, want, names))?;
    Ok(todo)
}
