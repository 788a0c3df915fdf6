//! Lists whose elements are counted in 32 bits.

ghost use Rattle.std.specs.Prelude.{◌≡◌, ◌∷◌, [], length, OnErr, IfErr};
ghost use Rattle.sf_base.specs.Results.{Appends};

use std::alloc::{AllocFailed, Global};
use std::marker::Model;

/// A list whose elements are numbered from 0 on, in 32 bits. Contracts see the list. It has room
/// for as many as 32 bits can number: a longer one is refused, as one past the memory is.
#[derive(Debug, Drop)]
pub struct Counted<T> {
    items: Vec<T>,
}

impl<T> Model for Counted<T> {
    ghost use Rattle.std.specs.Prelude.{List, ◌≤◌, length};

    ghost Value = { List T };

    ghost view = { λ s. s.items.items };

    ghost invariant = { λ s. length s.items.items ≤ 4294967295 };
}

impl<T> Counted<T> {
    /// The empty list.
    pub fn new(alloc: Global) -> Counted<T>
        ensures { result ≡ [] }
    {
        Counted {
            items: Vec::new(alloc),
        }
    }

    /// The elements.
    pub fn into_vec(self) -> Vec<T>
        ensures { result.items ≡ self }
    {
        self.items
    }

    /// How many there are, which is the number of the next.
    pub fn len(&self) -> u32
        ensures { result ≡ length self.now }
    {
        self.items.len() as u32
    }

    /// Appends one. An `Err` says that memory or numbers ran out, hands it back and changes
    /// nothing.
    pub fn push(&mut self, item: T) -> Result<(), AllocFailed<T>>
        ensures ok { Appends result self.old self.new (item ∷ []) }
        ensures err { OnErr result (self.new ≡ self.old) }
        ensures value_returned { IfErr result (λ e. e.value ≡ item) }
    {
        if self.items.len() >= u32::MAX as usize {
            return Err(AllocFailed { value: item });
        }
        self.items.push(item)
    }
}
