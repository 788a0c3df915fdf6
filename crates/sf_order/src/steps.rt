//! How many steps along pairs a resource is from another.

ghost use Rattle.std.specs.Prelude.{◌≡◌, ◌<◌, ◌≤◌, ◌+◌, ◌^◌, ◌↔◌, ◌⊎◌, All, IfOk, IsTrue, MatchOption, length};
ghost use Rattle.sf_base.specs.declared.ids.ResId.{ResId};
ghost use Rattle.sf_order.specs.Answers.{AreBelow};
ghost use Rattle.sf_order.specs.Nests.{IsPair};
ghost use Rattle.sf_order.specs.Rank.{rank_in};
ghost use Rattle.sf_order.specs.Checked.Ways.{AreSteps, IsFirstAt, IsNear, IsLonger, IsFewest};

use crate::pairs::Pairs;
use crate::ranks::Ranks;
use sf_base::ResId;
use std::alloc::{AllocError, Global};

/// For each of the first `n` resources how many steps along the pairs it is from `v`, and `n` where
/// no such steps lead to `v`. An `Err` means that memory ran out.
pub fn steps_to(alloc: Global, pairs: &Pairs, v: ResId, n: u32) -> Result<Ranks, AllocError>
    requires below { AreBelow n pairs.now }
    requires there { v.0 < n }
    ensures { IfOk result (AreSteps (IsPair pairs.now) v n) }
{
    let mut steps = Ranks::all(alloc, n, n)?;
    steps.put(v, 0);
    while let Some((x, y)) = longer(pairs, &steps) {
        let next = steps.of(y) + 1;
        steps.put(x, next);
    }
    Ok(steps)
}

/// A pair whose first resource is more than one step further than the second. `None` exactly where
/// there is none.
fn longer(pairs: &Pairs, steps: &Ranks) -> Option<(ResId, ResId)>
    requires { AreBelow (length steps.now) pairs.now }
    ensures { MatchOption result (All (IsNear steps.now) pairs.now) (IsLonger steps.now pairs.now) }
{
    for (x, y) in pairs.as_slice() {
        if is_longer(steps.of(*x), steps.of(*y)) {
            return Some((*x, *y));
        }
    }
    None
}

/// Whether the one is more than one step more than the other.
fn is_longer(more: u32, less: u32) -> bool
    ensures { IsTrue result ↔ (less + 1 < more) }
{
    less < more && more - less > 1
}

/// The fewest steps of the resources to which a pair leads from `v`, and `n` where there are no
/// fewer.
pub fn fewest(pairs: &Pairs, steps: &Ranks, v: ResId, n: u32) -> u32
    requires { AreBelow (length steps.now) pairs.now }
    ensures { IsFewest (IsPair pairs.now) steps.now v n result }
{
    let mut least = n;
    for (x, y) in pairs.as_slice() {
        if x.0 == v.0 && steps.of(*y) < least {
            least = steps.of(*y);
        }
    }
    least
}

/// The first resource in the file to which a pair leads from `x` and which is so many steps away.
/// There is one.
pub fn first_at(pairs: &Pairs, steps: &Ranks, x: ResId, away: u32, n: u32) -> ResId
    requires below { AreBelow n pairs.now }
    requires each { length steps.now ≡ n }
    requires there { (y : ResId) × IsPair pairs.now x y × (rank_in steps.now y ≡ away) }
    ensures { IsFirstAt (IsPair pairs.now) steps.now x away result }
{
    for y in 0..n {
        if steps.of(ResId(y)) == away && pairs.has(x, ResId(y)) {
            return ResId(y);
        }
    }
    unreachable!()
}
