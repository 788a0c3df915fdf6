//! Sets of locations, in order.

ghost use Rattle.std.specs.Prelude.{◌≡◌, ◌↔◌, ℕ, length, Contains};
ghost use Rattle.std.specs.List.Sorted.{IsStrictlyIncreasing};

use std::marker::Model;

/// A set of locations. Contracts see the list of its locations in rising order.
#[derive(Debug, Drop)]
pub struct Locations {
    numbers: Vec<u64>,
}

impl Model for Locations {
    ghost use Rattle.std.specs.Prelude.{List, ℕ};
    ghost use Rattle.std.specs.List.Sorted.{IsStrictlyIncreasing};

    ghost Value = { List ℕ };

    ghost view = { λ l. l.numbers.items };

    ghost invariant = { λ l. IsStrictlyIncreasing l.numbers.items };
}

impl Locations {
    /// The set of those locations, which may come in any order, and more than once.
    pub fn from_vec(mut numbers: Vec<u64>) -> Locations
        ensures rising { IsStrictlyIncreasing result }
        ensures same { (l : ℕ) → Contains result l ↔ Contains numbers.items l }
    {
        numbers.sort_unstable();
        numbers.dedup();
        Locations { numbers }
    }

    /// The locations, in rising order.
    pub fn as_slice(&self) -> &[u64]
        ensures value { result.now ≡ self.now }
        ensures rising { IsStrictlyIncreasing self.now }
    {
        self.numbers.as_slice()
    }

    /// How many there are.
    pub fn len(&self) -> usize
        ensures { result ≡ length self.now }
    {
        self.numbers.len()
    }
}
