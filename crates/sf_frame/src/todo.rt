//! What a frame has still to do.

ghost use Rattle.std.specs.Prelude.{◌≡◌, ◌+◌, ◌*◌, ◌-◌, ◌^◌, ◌≤◌, ◌++◌, max, min, vec_len, vec_capacity, IfOk};
ghost use Rattle.sf_core.specs.Program.Formed.{block_depth, command_depth};
ghost use Rattle.sf_core.specs.Program.View.{block_of, command_of};
ghost use Rattle.sf_frame.specs.Frames.{block_items, todo_of};
ghost use Rattle.sf_frame.specs.Checked.Frames.{goes_into, goes_else, goes_on};
ghost use Rattle.sf_frame.specs.Checked.Todos.{HasDepth};

use crate::frame::Way;
use sf_base::ResId;
use sf_core::Command;
use std::alloc::{AllocError, Global};

/// What a frame has still to do: a command and those after it in its block, or the leaving of a
/// region.
#[derive(Clone, Copy)]
pub(crate) enum Todo<'p> {
    Commands(&'p Command, &'p [Command]),
    Leave(ResId),
}

/// A block, and nothing else, is to be done. The room for what can come of it is taken here.
pub(crate) fn first_todo<'p>(
    alloc: Global,
    block: &'p [Command],
) -> Result<Vec<Todo<'p>>, AllocError>
    ensures todo { IfOk result (λ todo. todo_of todo.items ≡ block_items block.now) }
    ensures deep { IfOk result HasDepth }
{
    let Some(room) = depth_of(block).checked_mul(2) else {
        return Err(AllocError);
    };
    let mut todo = Vec::with_capacity(alloc, room)?;
    put_block(&mut todo, block);
    Ok(todo)
}

/// How deep the commands of a block are nested, if this can be counted.
#[cycle(depth)]
fn depth_of(block: &[Command]) -> usize
    ensures { result ≡ min (block_depth (block_of block.now)) (2 ^ 64 - 1) }
{
    let mut deepest = 0;
    for c in block {
        deepest = deeper(deepest, command_depth(c));
    }
    deepest
}

/// How deep a command is nested, if this can be counted.
#[cycle(depth)]
fn command_depth(c: &Command) -> usize
    ensures { result ≡ min (command_depth (command_of c.now)) (2 ^ 64 - 1) }
{
    match c {
        Command::If(_, _, this, that) => {
            deeper(depth_of(this), depth_of(that)).saturating_add(1)
        }
        Command::While(_, _, _, body) => depth_of(body).saturating_add(1),
        Command::With(_, _, _, body) => depth_of(body).saturating_add(1),
        _ => 1,
    }
}

/// The greater of two depths.
fn deeper(one: usize, other: usize) -> usize
    ensures { result ≡ max one other }
{
    if one < other { other } else { one }
}

/// Goes on that way from what is first to do.
pub(crate) fn go_on(todo: &mut Vec<Todo<'_>>, way: Way)
    requires { HasDepth todo.old }
    ensures todo { todo_of todo.new.items ≡ goes_on way (todo_of todo.old.items) }
    ensures deep { HasDepth todo.new }
{
    match todo.pop() {
        None => {}
        Some(Todo::Leave(_)) => {}
        Some(Todo::Commands(command, rest)) => match way {
            Way::Past => put_block(todo, rest),
            Way::Into => go_into(todo, command, rest),
            Way::Else => go_else(todo, command, rest),
        },
    }
}

/// The block of a command comes first, and then what comes after it.
fn go_into<'p>(todo: &mut Vec<Todo<'p>>, command: &'p Command, rest: &'p [Command])
    requires deep { HasDepth todo.old }
    requires room { vec_len todo.old + 2 * max (command_depth (command_of command.now))
        (block_depth (block_of rest.now)) ≤ vec_capacity todo.old }
    ensures todo { todo_of todo.new.items ≡ goes_into (command_of command.now)
        (block_items rest.now ++ todo_of todo.old.items) }
    ensures deep { HasDepth todo.new }
{
    match command {
        Command::If(_, _, this, _) => {
            put_block(todo, rest);
            put_block(todo, this);
        }
        Command::While(_, _, _, body) => {
            todo.push_reserved(Todo::Commands(command, rest));
            put_block(todo, body);
        }
        Command::With(_, r, _, body) => {
            put_block(todo, rest);
            todo.push_reserved(Todo::Leave(*r));
            put_block(todo, body);
        }
        _ => put_block(todo, rest),
    }
}

/// The other block of an `if` comes first, and then what comes after it.
fn go_else<'p>(todo: &mut Vec<Todo<'p>>, command: &'p Command, rest: &'p [Command])
    requires deep { HasDepth todo.old }
    requires room { vec_len todo.old + 2 * max (command_depth (command_of command.now))
        (block_depth (block_of rest.now)) ≤ vec_capacity todo.old }
    ensures todo { todo_of todo.new.items ≡ goes_else (command_of command.now)
        (block_items rest.now ++ todo_of todo.old.items) }
    ensures deep { HasDepth todo.new }
{
    put_block(todo, rest);
    if let Command::If(_, _, _, that) = command {
        put_block(todo, that);
    }
}

/// A block comes first.
fn put_block<'p>(todo: &mut Vec<Todo<'p>>, block: &'p [Command])
    requires deep { HasDepth todo.old }
    requires room { vec_len todo.old + 2 * block_depth (block_of block.now) ≤ vec_capacity todo.old }
    ensures todo { todo_of todo.new.items ≡ block_items block.now ++ todo_of todo.old.items }
    ensures deep { HasDepth todo.new }
    ensures capacity { vec_capacity todo.new ≡ vec_capacity todo.old }
    ensures len { vec_len todo.new ≤ vec_len todo.old + 1 }
{
    if let Some((first, rest)) = block.split_first() {
        todo.push_reserved(Todo::Commands(first, rest));
    }
}
