//! The task, the number and the location that a word writes.

ghost use Rattle.std.specs.Prelude.{◌≡◌, ◌++◌, ◌∷◌, [], Some};
ghost use Rattle.sf_replay.specs.ScheduleText.{is_number, number_from, path_within, place_from, task_from, turn_from, turn_in, turns_from};

use crate::limits::NUMBERS;
use sf_base::limits::TURNS;
use sf_base::{TaskPath, Turn};
use sf_lex::number;

/// Whether the number is one of an event.
fn is_number(n: u64) -> bool
    ensures { result ≡ is_number n }
{
    1 <= n && n < NUMBERS
}

/// The number that digits write, from 1 to 2^63 - 1.
pub(crate) fn number_from(digits: &[u8]) -> Option<u64>
    ensures { result ≡ number_from digits.now }
{
    let digit = matches!(digits, [first, ..] if first.is_ascii_digit());
    if !digit {
        return None;
    }
    match u64::try_from(number(digits)?) {
        Ok(n) if is_number(n) => Some(n),
        _ => None,
    }
}

/// The location that `@` and digits write.
pub(crate) fn place_from(word: &[u8]) -> Option<u64>
    ensures { result ≡ place_from word.now }
{
    match word {
        [b'@', digits @ ..] => number_from(digits),
        _ => None,
    }
}

/// The turn that a digit writes.
fn turn_from(digit: u8) -> Option<Turn>
    ensures { result ≡ turn_from digit }
{
    match digit {
        b'1' => Some(Turn::Left),
        b'2' => Some(Turn::Right),
        _ => None,
    }
}

/// The task that `0` and turns write, each as a dot and a digit, at most 63 of them.
pub(crate) fn task_from(word: &[u8]) -> Option<TaskPath>
    ensures { result ≡ task_from word.now }
{
    match word {
        [b'0', turns @ ..] => path_from(turns),
        _ => None,
    }
}

/// The turn that a dot and a digit write.
fn turn_in(dot: u8, digit: u8) -> Option<Turn>
    ensures { result ≡ turn_in dot digit }
{
    if dot == b'.' { turn_from(digit) } else { None }
}

/// The path with one turn more, if a task may have it.
fn longer(path: TaskPath, turn: Turn) -> Option<TaskPath>
    ensures { result ≡ path_within (Some (path ++ turn ∷ [])) }
{
    if path.len() < TURNS {
        Some(path.child(turn))
    } else {
        None
    }
}

/// The path with the turns that are written, each as a dot and a digit.
fn path_from(turns: &[u8]) -> Option<TaskPath>
    ensures { result ≡ path_within (turns_from turns.now) }
{
    let mut path = TaskPath::entry();
    let mut left = turns;
    'turns: while let Some((dot, after)) = left.split_first() {
        let (digit, rest) = after.split_first()?;
        let turn = turn_in(*dot, *digit)?;
        path = longer(path, turn)?;
        left = rest;
    }
    Some(path)
}
