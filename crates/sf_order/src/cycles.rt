ghost use Rattle.std.specs.Prelude.{◌≡◌, ◌<◌, List, IfOk};
ghost use Rattle.sf_base.specs.declared.ids.ResId.{ResId};
ghost use Rattle.sf_order.specs.Answers.{AreBelow};
ghost use Rattle.sf_order.specs.Cycles.{IsCycle, IsFirstCycle};
ghost use Rattle.sf_order.specs.Nests.{IsPair};
ghost use Rattle.sf_order.specs.Checked.Ways.{AreSteps, IsFewest, IsLeastCycle};

use crate::pairs::Pairs;
use crate::ranks::Ranks;
use crate::steps::{fewest, first_at, steps_to};
use sf_base::ResId;
use std::alloc::{AllocError, Global};
use std::marker::Model;

/// The resources of a cycle, from its first in the file on, each once. Contracts see the list.
#[derive(Debug, Drop)]
pub struct ResList {
    items: Vec<ResId>,
}

impl Model for ResList {
    ghost use Rattle.std.specs.Prelude.{List};
    ghost use Rattle.sf_base.specs.declared.ids.ResId.{ResId};

    ghost Value = { List ResId };

    ghost view = { λ c. c.items.items };
}

impl ResList {
    /// The resources, one after the other.
    pub fn as_slice(&self) -> &[ResId]
        ensures { result.now ≡ self.now }
    {
        self.items.as_slice()
    }
}

/// The first cycle of pairs, which are of the first `n` resources. There is a cycle. An `Err` means
/// that memory ran out.
pub fn first_cycle(alloc: Global, pairs: &Pairs, n: u32) -> Result<ResList, AllocError>
    requires below { AreBelow n pairs.now }
    requires there { (xs : List ResId) × IsCycle (IsPair pairs.now) xs }
    ensures { IfOk result (IsFirstCycle (IsPair pairs.now)) }
{
    for v in 0..n {
        let steps = steps_to(alloc, pairs, ResId(v), n)?;
        let least = fewest(pairs, &steps, ResId(v), n);
        if least < n {
            let items = cycle_through(alloc, pairs, &steps, ResId(v), least, n)?;
            return Ok(ResList { items });
        }
    }
    unreachable!()
}

/// The first of the shortest cycles through `v`, by the steps from each resource to `v`. An `Err`
/// means that memory ran out.
fn cycle_through(
    alloc: Global,
    pairs: &Pairs,
    steps: &Ranks,
    v: ResId,
    least: u32,
    n: u32,
) -> Result<Vec<ResId>, AllocError>
    requires below { AreBelow n pairs.now }
    requires steps { AreSteps (IsPair pairs.now) v n steps.now }
    requires least { IsFewest (IsPair pairs.now) steps.now v n least }
    requires some { least < n }
    ensures { IfOk result (λ xs. IsLeastCycle (IsPair pairs.now) v least xs.items) }
{
    let mut found = Vec::new(alloc);
    found.push(v)?;
    let mut at = v;
    let mut left = least;
    while left > 0 {
        at = first_at(pairs, steps, at, left, n);
        found.push(at)?;
        left -= 1;
    }
    Ok(found)
}
