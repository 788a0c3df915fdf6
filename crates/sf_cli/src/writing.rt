//! What lines are put together from.

ghost use Rattle.std.specs.Prelude.{◌≡◌, ◌++◌, OnOk, decimal};
ghost use Rattle.std.specs.List.{flat_map};
ghost use Rattle.sf_cli.specs.TaskText.{task_text, turn_text};

use itoa::Buffer;
use sf_base::{TaskPath, Turn};
use std::alloc::AllocError;

/// Appends a text. An `Err` says that memory ran out.
pub fn put(text: &mut Vec<u8>, more: &str) -> Result<(), AllocError>
    ensures { OnOk result (text.new.items ≡ text.old.items ++ more.now) }
{
    text.extend_from_slice(more.as_bytes())?;
    Ok(())
}

/// Appends a text and a number. An `Err` says that memory ran out.
pub fn put_number(text: &mut Vec<u8>, more: &str, number: u64) -> Result<(), AllocError>
    ensures { OnOk result (text.new.items ≡ text.old.items ++ more.now ++ decimal number) }
{
    put(text, more)?;
    put(text, Buffer::new().format(number))
}

/// Appends a turn.
fn put_turn(text: &mut Vec<u8>, turn: Turn) -> Result<(), AllocError>
    ensures { OnOk result (text.new.items ≡ text.old.items ++ turn_text turn) }
{
    match turn {
        Turn::Left => put(text, ".1"),
        Turn::Right => put(text, ".2"),
    }
}

/// Appends turns.
fn put_turns(text: &mut Vec<u8>, turns: &[Turn]) -> Result<(), AllocError>
    ensures { OnOk result (text.new.items ≡ text.old.items ++ flat_map turn_text turns.now) }
{
    for turn in turns {
        put_turn(text, *turn)?;
    }
    Ok(())
}

/// Appends a text and a task. An `Err` says that memory ran out.
pub fn put_task(text: &mut Vec<u8>, more: &str, path: TaskPath) -> Result<(), AllocError>
    ensures { OnOk result (text.new.items ≡ text.old.items ++ more.now ++ task_text path) }
{
    put(text, more)?;
    put(text, "0")?;
    put_turns(text, path.turns())
}
