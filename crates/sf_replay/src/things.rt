//! The order of things, and the first one that two steps meet on.

ghost use Rattle.std.specs.Prelude.{◌≡◌};
ghost use Rattle.sf_machine.specs.Accessing.{thing_of};
ghost use Rattle.sf_replay.specs.Checked.Looks.{improved, is_among, least_in, lesser, same_thing};
ghost use Rattle.sf_replay.specs.Order.{thing_before};

use sf_base::Thing;

/// Whether the one thing comes before the other: the variables of resources, then all other
/// variables, then cells.
fn is_before(x: Thing, y: Thing) -> bool
    ensures { result ≡ thing_before (thing_of x) (thing_of y) }
{
    match x {
        Thing::Shared(r, i) => match y {
            Thing::Shared(s, j) => r.0 < s.0 || (r.0 == s.0 && i < j),
            Thing::Own(_) => true,
            Thing::At(_) => true,
        },
        Thing::Own(s) => match y {
            Thing::Shared(_, _) => false,
            Thing::Own(t) => s.event < t.event || (s.event == t.event && s.index < t.index),
            Thing::At(_) => true,
        },
        Thing::At(l) => match y {
            Thing::Shared(_, _) => false,
            Thing::Own(_) => false,
            Thing::At(m) => l < m,
        },
    }
}

/// Whether the two are one thing.
pub(crate) fn is_same(x: Thing, y: Thing) -> bool
    ensures { result ≡ same_thing x y }
{
    x == y
}

/// Whether the thing is among these.
fn is_among(things: &[Thing], x: Thing) -> bool
    ensures { result ≡ is_among things.now x }
{
    things.iter().any(|y| is_same(*y, x))
}

/// The one that comes first of the least so far and another.
fn lesser(least: Option<Thing>, x: Thing) -> Thing
    ensures { result ≡ lesser least x }
{
    match least {
        None => x,
        Some(y) => { if is_before(x, y) { x } else { y } }
    }
}

/// The least so far, once a thing was looked at that counts where it is among those.
fn improved(least: Option<Thing>, x: Thing, among: &[Thing]) -> Option<Thing>
    ensures { result ≡ improved least x among.now }
{
    if is_among(among, x) {
        Some(lesser(least, x))
    } else {
        least
    }
}

/// The least of what is the least so far, and of these things that are among those.
pub(crate) fn least_in(start: Option<Thing>, of: &[Thing], among: &[Thing]) -> Option<Thing>
    ensures { result ≡ least_in start of.now among.now }
{
    let mut least = start;
    let mut left = of;
    'things: while let Some((x, rest)) = left.split_first() {
        least = improved(least, *x, among);
        left = rest;
    }
    least
}
