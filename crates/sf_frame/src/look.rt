//! Where the values of variables are looked up.

ghost use Rattle.std.specs.Prelude.{◌≡◌, unwrap_or};
ghost use Rattle.sf_base.specs.declared.value.Value.TheVariants.{Nil as nil};
ghost use Rattle.sf_base.specs.HeapStore.{Store as S};
ghost use Rattle.sf_frame.specs.Spots.{slot_of};

use crate::spot::Spot;
use crate::store::Store;
use sf_base::Value;

/// Where the values of variables are looked up: in a store, or in two together.
pub trait Look {
    // The variables that are there, with their values.
    ghost store: { Self → S };

    /// The value in a slot, nil where there is none.
    fn look(&self, spot: Spot) -> Value
        ensures { result ≡ unwrap_or (store self.now (slot_of spot)) nil };
}

impl Look for Store {
    ghost use Rattle.sf_frame.specs.Stores.{store_of};

    ghost store = { store_of };

    fn look(&self, spot: Spot) -> Value {
        self.get(spot)
    }
}

/// Two stores together: what the first one lacks is looked up in the other, and neither moves.
#[derive(Clone, Copy)]
pub struct Both<'a> {
    /// The first one.
    pub first: &'a Store,
    /// The other.
    pub other: &'a Store,
}

impl<'a> Look for Both<'a> {
    ghost use Rattle.sf_frame.specs.Stores.{store_of, together};

    ghost store = { λ both. together (store_of both.first.now) (store_of both.other.now) };

    fn look(&self, spot: Spot) -> Value {
        match self.first.find(spot) {
            Some(value) => value,
            None => self.other.get(spot),
        }
    }
}
