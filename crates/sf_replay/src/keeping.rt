//! What is kept of what is known of the next steps, from one configuration to the next.

ghost use Rattle.std.specs.Prelude.{◌≡◌, ◌⊎◌, None, map, true};
ghost use Rattle.sf_replay.specs.Checked.Keeping.{AreStillFine, IsAmong, MeetsNone};
ghost use Rattle.sf_replay.specs.Checked.Looks.{Seen, meeting, seen_of};

use crate::look::{Look, meeting};
use crate::things::is_same;
use sf_base::{TaskPath, Thing, Turn};

/// Whether they are the same things.
fn are_same_things(xs: &[Thing], ys: &[Thing]) -> bool
    ensures { result ≡ true → xs.now ≡ ys.now }
{
    let mut left = xs;
    let mut others = ys;
    'things: while let Some((x, rest)) = left.split_first() {
        let Some((y, more)) = others.split_first() else {
            return false;
        };
        if !is_same(*x, *y) {
            return false;
        }
        left = rest;
        others = more;
    }
    others.is_empty()
}

/// Whether the two are one turn.
fn is_same_turn(x: Turn, y: Turn) -> bool
    ensures { result ≡ true → x ≡ y }
{
    x == y
}

/// Whether they are the same turns.
fn are_same_turns(xs: &[Turn], ys: &[Turn]) -> bool
    ensures { result ≡ true → xs.now ≡ ys.now }
{
    let mut left = xs;
    let mut others = ys;
    'turns: while let Some((x, rest)) = left.split_first() {
        let Some((y, more)) = others.split_first() else {
            return false;
        };
        if !is_same_turn(*x, *y) {
            return false;
        }
        left = rest;
        others = more;
    }
    others.is_empty()
}

/// Whether the two are one task.
fn is_same_task(x: &TaskPath, y: &TaskPath) -> bool
    ensures { result ≡ true → x.now ≡ y.now }
{
    are_same_turns(x.turns(), y.turns())
}

/// Whether the one is known as the other is, and is at no absent cell.
fn is_kept(old: &Look, look: &Look) -> bool
    ensures { result ≡ true → seen_of look.now ≡ seen_of old.now }
{
    old.absent.is_none()
        && look.absent.is_none()
        && is_same_task(&look.path, &old.path)
        && are_same_things(&look.accesses.reads, &old.accesses.reads)
        && are_same_things(&look.accesses.writes, &old.accesses.writes)
}

/// Whether that is what was known of a task, and what is left of what was known, once the tasks are
/// passed that it has joined.
fn kept<'a>(look: &Look, old: &'a [Look]) -> (bool, &'a [Look])
    ensures among { result.0 ≡ true
        → IsAmong (map seen_of old.entry.now) (seen_of look.now) }
    ensures left { (l : Seen) → IsAmong (map seen_of result.1.now) l
        → IsAmong (map seen_of old.entry.now) l }
{
    let Some((first, rest)) = old.split_first() else {
        return (false, old);
    };
    if is_same_task(&first.path, &look.path) {
        return (is_kept(first, look), rest);
    }
    let [_, _, third, after @ ..] = old else {
        return (false, old);
    };
    if is_same_task(&third.path, &look.path) {
        return (is_kept(third, look), after);
    }
    (false, old)
}

/// Whether the two are one task, or their steps don't conflict.
fn is_apart(one: &Look, other: &Look) -> bool
    ensures { result ≡ true → (other.now.path ≡ one.now.path)
        ⊎ (meeting (seen_of one.now) (seen_of other.now) ≡ None) }
{
    is_same_task(&other.path, &one.path) || meeting(one, other).is_none()
}

/// Whether its step conflicts with that of none of these which is another task's.
fn meets_none(one: &Look, looks: &[Look]) -> bool
    ensures { result ≡ true → MeetsNone (seen_of one.now) (map seen_of looks.now) }
{
    let mut left = looks;
    'looks: while let Some((other, rest)) = left.split_first() {
        if !is_apart(one, other) {
            return false;
        }
        left = rest;
    }
    true
}

/// Whether it is at no absent cell, and its step conflicts with that of none of these which is
/// another task's.
fn is_fine(one: &Look, looks: &[Look]) -> bool
    ensures { result ≡ true → ((seen_of one.now).absent ≡ None)
        × MeetsNone (seen_of one.now) (map seen_of looks.now) }
{
    one.absent.is_none() && meets_none(one, looks)
}

/// Whether each of these was known before, or is at no absent cell and conflicts with no other: then
/// nothing is bad where nothing was before. With what few tasks do next an event changes, it costs
/// as much as there are tasks.
pub(crate) fn are_still_fine(old: &[Look], new: &[Look]) -> bool
    ensures { result ≡ true
        → AreStillFine (map seen_of old.now) (map seen_of new.now) (map seen_of new.now) }
{
    let mut left = new;
    let mut before = old;
    'looks: while let Some((look, rest)) = left.split_first() {
        let (same, after) = kept(look, before);
        if !same && !is_fine(look, new) {
            return false;
        }
        left = rest;
        before = after;
    }
    true
}
