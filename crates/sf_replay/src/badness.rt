//! The first task at an absent cell, and the first race.

ghost use Rattle.std.specs.Prelude.{◌≡◌, ◌⊎◌, None, map};
ghost use Rattle.sf_replay.specs.Checked.Keeping.{AreStillFine};
ghost use Rattle.sf_replay.specs.Checked.Looks.{absent_in, found_in, partner_in, race_in, seen_of};

use crate::found::Found;
use crate::keeping::are_still_fine;
use crate::look::{Look, meeting};
use sf_base::{TaskPath, Thing, Value};

/// The first of these that is at an absent cell, and the value at which it looks for one.
fn first_absent(looks: &[Look]) -> Option<(TaskPath, Value)>
    ensures { result ≡ absent_in (map seen_of looks.now) }
{
    let mut left = looks;
    'looks: while let Some((look, rest)) = left.split_first() {
        if let Some(value) = look.absent {
            return Some((look.path, value));
        }
        left = rest;
    }
    None
}

/// The first of these whose step conflicts with the one's, and the first thing on which it does.
fn first_partner(one: &Look, others: &[Look]) -> Option<(TaskPath, Thing)>
    ensures { result ≡ partner_in (seen_of one.now) (map seen_of others.now) }
{
    let mut left = others;
    'looks: while let Some((other, rest)) = left.split_first() {
        if let Some(thing) = meeting(one, other) {
            return Some((other.path, thing));
        }
        left = rest;
    }
    None
}

/// The first pair of these whose steps conflict, and the first thing on which they do.
fn first_race(looks: &[Look]) -> Option<(TaskPath, TaskPath, Thing)>
    ensures { result ≡ race_in (map seen_of looks.now) }
{
    let mut left = looks;
    'looks: while let Some((look, rest)) = left.split_first() {
        if let Some((other, thing)) = first_partner(look, rest) {
            return Some((look.path, other, thing));
        }
        left = rest;
    }
    None
}

/// What is found in these after so many events.
pub(crate) fn found_in(number: u64, looks: &[Look]) -> Option<Found>
    ensures { result ≡ found_in number (map seen_of looks.now) }
{
    if let Some((path, value)) = first_absent(looks) {
        return Some(Found::Absent(number, path, value));
    }
    let (path, other, thing) = first_race(looks)?;
    Some(Found::Race(number, path, other, thing))
}

/// What is found in what is known of the next steps after so many events, where nothing was bad in
/// what was known before the last of them.
pub(crate) fn found_after(number: u64, old: &[Look], new: &[Look]) -> Option<Found>
    ensures { (result ≡ found_in number (map seen_of new.now)) ⊎ ((result ≡ None)
        × AreStillFine (map seen_of old.now) (map seen_of new.now) (map seen_of new.now)) }
{
    if are_still_fine(old, new) {
        None
    } else {
        found_in(number, new)
    }
}
