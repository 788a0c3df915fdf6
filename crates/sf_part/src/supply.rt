//! Units: the numbers that a task may still give its events.

ghost use Rattle.std.specs.Prelude.{◌≡◌, ◌≢◌, ◌+◌, ◌<◌, ◌≤◌, ◌^◌, ◌∷◌, ◌++◌, [], drop, length, IfOk, IsTrue, ◌↔◌};
ghost use Rattle.sf_core.specs.Machine.Whole.{numbers};
ghost use Rattle.sf_part.specs.Checked.Ranges.{AreFit, ranges_of};

use std::alloc::{AllocError, Global};
use std::marker::Model;

/// A range of units: so many, from the first on.
#[derive(Clone, Copy, Debug)]
pub(crate) struct Units {
    pub(crate) first: u64,
    pub(crate) count: u64,
}

/// The units of a task, as ranges, of which the next one is the last of the list. Contracts see the
/// ranges with the next one first. It keeps that none is empty, and how many units there are.
#[derive(Debug, Drop)]
pub(crate) struct Supply {
    pub(crate) ranges: Vec<Units>,
    pub(crate) left: u64,
}

impl Model for Supply {
    ghost use Rattle.std.specs.Prelude.{◌≡◌, List, length};
    ghost use Rattle.sf_core.specs.Machine.Whole.{Range, numbers};

    ghost Value = { List Range };

    ghost use Rattle.sf_part.specs.Checked.Ranges.{range_code};

    ghost coded = { range_code };

    ghost use Rattle.sf_part.specs.Checked.Ranges.{AreFit, ranges_of};

    ghost view = { λ s. ranges_of s.ranges.items };

    ghost invariant = { λ s. AreFit s.ranges.items
        × (s.left ≡ length (numbers (ranges_of s.ranges.items))) };
}

impl Supply {
    /// The units of one range. An `Err` says that memory ran out.
    pub(crate) fn new(alloc: Global, first: u64, count: u64) -> Result<Supply, AllocError>
        requires some { 0 < count }
        requires fits { first + count ≤ 2 ^ 63 }
        ensures { IfOk result (λ s. s ≡ record { first = first; count = count } ∷ []) }
    {
        let mut ranges = Vec::new(alloc);
        ranges.push(Units { first, count })?;
        Ok(Supply {
            ranges,
            left: count,
        })
    }

    /// No units.
    pub(crate) fn none(alloc: Global) -> Supply
        ensures { result ≡ [] }
    {
        Supply {
            ranges: Vec::new(alloc),
            left: 0,
        }
    }

    /// The units of two, those of the first one first. An `Err` says that memory ran out.
    pub(crate) fn joined(
        alloc: Global,
        first: &Supply,
        second: &Supply,
    ) -> Result<Supply, AllocError>
        requires { length (numbers first.now) + length (numbers second.now) < 2 ^ 64 }
        ensures { IfOk result (λ s. s ≡ first.now ++ second.now) }
    {
        let count = first.ranges.len() + second.ranges.len();
        let mut ranges = Vec::with_capacity(alloc, count)?;
        ranges.extend_from_slice(second.ranges.as_slice())?;
        ranges.extend_from_slice(first.ranges.as_slice())?;
        Ok(Supply {
            ranges,
            left: first.left + second.left,
        })
    }

    /// How many units there are.
    pub(crate) fn len(&self) -> u64
        ensures { result ≡ length (numbers self.now) }
    {
        self.left
    }

    /// Whether no unit is left.
    pub(crate) fn is_empty(&self) -> bool
        ensures { IsTrue result ↔ (numbers self.now ≡ []) }
    {
        self.left == 0
    }

    /// The next unit.
    pub(crate) fn next(&self) -> u64
        requires { numbers self.now ≢ [] }
        ensures { numbers self.now ≡ result ∷ drop 1 (numbers self.now) }
    {
        match self.ranges.as_slice().split_last() {
            Some((units, _)) => units.first,
            None => unreachable!(),
        }
    }

    /// The next unit is no more.
    pub(crate) fn spend(&mut self)
        requires { numbers self.old ≢ [] }
        ensures { numbers self.new ≡ drop 1 (numbers self.old) }
    {
        spend_first(&mut self.ranges);
        self.left -= 1;
    }
}

/// The first unit of the last range is no more.
pub(crate) fn spend_first(ranges: &mut Vec<Units>)
    requires fit { AreFit ranges.old.items }
    requires some { numbers (ranges_of ranges.old.items) ≢ [] }
    ensures fit { AreFit ranges.new.items }
    ensures rest { numbers (ranges_of ranges.new.items)
        ≡ drop 1 (numbers (ranges_of ranges.old.items)) }
{
    if let Some(units) = ranges.pop() {
        if units.count > 1 {
            ranges.push_reserved(Units {
                first: units.first + 1,
                count: units.count - 1,
            });
        }
    }
}
