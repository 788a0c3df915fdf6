//! Lists that contracts compare as lists.

ghost use Rattle.std.specs.Prelude.{◌≡◌, [], ◌∷◌, length, OnErr, IfErr};
ghost use Rattle.sf_base.specs.Results.{Appends};

use std::alloc::{AllocFailed, Global};
use std::marker::Model;

/// A list that contracts see as a list, so that types which hold it can be compared there.
#[derive(Debug, Drop)]
pub struct Sequence<T> {
    items: Vec<T>,
}

impl<T> Model for Sequence<T> {
    ghost use Rattle.std.specs.Prelude.{List};

    ghost Value = { List T };

    ghost view = { λ s. s.items.items };
}

impl<T> Sequence<T> {
    /// The empty list.
    pub fn new(alloc: Global) -> Sequence<T>
        ensures { result ≡ [] }
    {
        Sequence {
            items: Vec::new(alloc),
        }
    }

    /// The list of those elements.
    pub fn from_vec(items: Vec<T>) -> Sequence<T>
        ensures { result ≡ items.items }
    {
        Sequence { items }
    }

    /// The elements.
    pub fn into_vec(self) -> Vec<T>
        ensures { result.items ≡ self }
    {
        self.items
    }

    /// The elements, in order.
    pub fn as_slice(&self) -> &[T]
        ensures { result.now ≡ self.now }
    {
        self.items.as_slice()
    }

    /// How many there are.
    pub fn len(&self) -> usize
        ensures { result ≡ length self.now }
    {
        self.items.len()
    }

    /// Appends one. An `Err` says that memory ran out, hands it back and changes nothing.
    pub fn push(&mut self, item: T) -> Result<(), AllocFailed<T>>
        ensures ok { Appends result self.old self.new (item ∷ []) }
        ensures err { OnErr result (self.new ≡ self.old) }
        ensures value_returned { IfErr result (λ e. e.value ≡ item) }
    {
        self.items.push(item)
    }
}
