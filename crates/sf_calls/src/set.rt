ghost use Rattle.std.specs.Prelude.{◌≡◌, ◌↔◌, AllPairs, Contains, IsTrue};
ghost use Rattle.sf_calls.specs.Sets.{IsEarlier};

use crate::assigned::is_earlier;
use sf_base::{ResId, Var};
use std::marker::Model;

/// A list in order of number and without repeats. Contracts see the list.
#[derive(Debug, Drop)]
pub struct Set<T> {
    items: Vec<T>,
}

/// Resources, in order of number.
pub type ResSet = Set<ResId>;

/// Variables: own ones in order of number, and after them those of resources, by the resource and
/// then by their number there.
pub type VarSet = Set<Var>;

impl<T> Model for Set<T> {
    ghost use Rattle.std.specs.Prelude.{List};

    ghost Value = { List T };

    ghost view = { λ s. s.items.items };
}

impl<T> Set<T> {
    /// The set of those elements, which are in order and differ.
    pub(crate) fn from_ordered(items: Vec<T>) -> Set<T>
        ensures { result ≡ items.items }
    {
        Set { items }
    }

    /// The elements, in order.
    pub fn as_slice(&self) -> &[T]
        ensures { result.now ≡ self.now }
    {
        self.items.as_slice()
    }
}

impl VarSet {
    /// Whether the variable is one of them, by a binary search. They are in order.
    pub fn contains(&self, x: Var) -> bool
        requires { AllPairs IsEarlier self.now }
        ensures { IsTrue result ↔ Contains self.now x }
    {
        let at = self.items.partition_point(|y| is_earlier(*y, x));
        at < self.items.len() && self.items[at].is_same(x)
    }
}
