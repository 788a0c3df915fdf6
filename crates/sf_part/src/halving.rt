//! The halves of a supply, one for each child of a fork.

ghost use Rattle.std.specs.Prelude.{◌≡◌, ◌≢◌, ◌+◌, ◌<◌, ◌≤◌, ◌++◌, [], drop, length, take, IfOk};
ghost use Rattle.sf_core.specs.Machine.Whole.{numbers};
ghost use Rattle.sf_part.specs.Checked.Halving.{AreHalves, in_list};
ghost use Rattle.sf_part.specs.Checked.Ranges.{AreFit, ranges_of};

use crate::supply::{Supply, Units, spend_first};
use std::alloc::{AllocError, Global};

impl Supply {
    /// What is left after the next unit, in two: the first half, rounded down, and the rest. It
    /// takes time in the number of the ranges, and leaves the supply as it is. An `Err` says that
    /// memory ran out.
    pub(crate) fn halves(&self, alloc: Global) -> Result<(Supply, Supply), AllocError>
        requires { numbers self.now ≢ [] }
        ensures { IfOk result (λ halves.
            AreHalves (drop 1 (numbers self.now)) (numbers halves.0) (numbers halves.1)) }
    {
        let mut rest: Vec<Units> = self.ranges.iter().copied().collect(alloc)?;
        spend_first(&mut rest);
        let left = self.left - 1;
        let half = left / 2;
        let first = take_first(alloc, &mut rest, half)?;
        Ok((
            Supply {
                ranges: first,
                left: half,
            },
            Supply {
                ranges: rest,
                left: left - half,
            },
        ))
    }
}

/// Takes so many units out, the next ones, as ranges of their own. An `Err` says that memory ran
/// out, and some of the units may be lost then.
fn take_first(alloc: Global, ranges: &mut Vec<Units>, count: u64) -> Result<Vec<Units>, AllocError>
    requires fit { AreFit ranges.old.items }
    requires enough { count ≤ length (numbers (ranges_of ranges.old.items)) }
    ensures fit { IfOk result (λ first. AreFit first.items) }
    ensures rest_fit { AreFit ranges.new.items }
    ensures first { IfOk result (λ first. numbers (ranges_of first.items)
        ≡ take count (numbers (ranges_of ranges.old.items))) }
    ensures rest { IfOk result (λ first. numbers (ranges_of ranges.new.items)
        ≡ drop count (numbers (ranges_of ranges.old.items))) }
{
    let mut first = Vec::new(alloc);
    let mut left = count;
    while left > 0 {
        left = move_some(ranges, &mut first, left)?;
    }
    first.reverse();
    Ok(first)
}

/// Moves the range that comes first behind others, or as much of it as makes so many units, and
/// says how many more these are to be. An `Err` says that memory ran out, and some may be lost then.
fn move_some(ranges: &mut Vec<Units>, first: &mut Vec<Units>, count: u64) -> Result<u64, AllocError>
    requires some { 0 < count }
    requires fit { AreFit ranges.old.items }
    requires first_fit { AreFit first.old.items }
    requires enough { count ≤ length (numbers (ranges_of ranges.old.items)) }
    ensures fewer { IfOk result (λ left. left < count) }
    ensures fit { AreFit ranges.new.items }
    ensures first_fit { AreFit first.new.items }
    ensures moved { IfOk result (λ left.
        numbers (in_list first.new.items) ++ numbers (ranges_of ranges.new.items)
        ≡ numbers (in_list first.old.items) ++ numbers (ranges_of ranges.old.items)) }
    ensures many { IfOk result (λ left. length (numbers (in_list first.new.items)) + left
        ≡ length (numbers (in_list first.old.items)) + count) }
{
    let Some(units) = ranges.pop() else {
        unreachable!()
    };
    if units.count <= count {
        first.push(units)?;
        return Ok(count - units.count);
    }
    ranges.push_reserved(Units {
        first: units.first + count,
        count: units.count - count,
    });
    first.push(Units {
        first: units.first,
        count,
    })?;
    Ok(0)
}
