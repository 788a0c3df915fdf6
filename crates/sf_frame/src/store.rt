//! The values of the variables of a running program.

ghost use Rattle.sf_frame.specs.Checked.Spots.{KeysFit, KeysFit-prop};

use crate::spot::Spot;
use sf_base::Value;
use std::alloc::{AllocError, Global};
use std::collections::BTreeMap;

/// The values of variables by their slots. It keeps that each index fits 32 bits.
#[derive(Drop)]
pub struct Store {
    pub(crate) values: BTreeMap<Spot, Value>,
    ghost fit: { KeysFit values } by { KeysFit-prop values },
}

impl Store {
    ghost use Rattle.std.specs.Prelude.{◌≡◌, None, Some, true, cond, is_some, unwrap_or, OnOk, OnErr};
    ghost use Rattle.sf_base.specs.declared.value.Value.TheVariants.{Nil as nil};
    ghost use Rattle.sf_base.specs.HeapStore.{Slot, same_slot};
    ghost use Rattle.sf_frame.specs.Checked.Spots.{SlotFits};
    ghost use Rattle.sf_frame.specs.Spots.{slot_of};
    ghost use Rattle.sf_frame.specs.Stores.{store_of};

    /// No variables.
    pub fn new(alloc: Global) -> Store
        ensures { (slot : Slot) → store_of result slot ≡ None }
    {
        Store {
            values: BTreeMap::new(alloc),
        }
    }

    /// The value in a slot, if it is there.
    #[tactic(auto, using(crate::proofs::Spots::spot_slot))]
    pub fn find(&self, spot: Spot) -> Option<Value>
        ensures { result ≡ store_of self.now (slot_of spot) }
    {
        match self.values.get(&spot) {
            Some(value) => Some(*value),
            None => None,
        }
    }

    /// The value in a slot, nil where there is none.
    #[tactic(auto, using(crate::proofs::Spots::spot_slot))]
    pub fn get(&self, spot: Spot) -> Value
        ensures { result ≡ unwrap_or (store_of self.now (slot_of spot)) nil }
    {
        match self.values.get(&spot) {
            Some(value) => *value,
            None => Value::Nil,
        }
    }

    /// A slot gets a value, whether it was there or not. An `Err` says that memory ran out and that
    /// it wasn't there, and nothing is changed.
    #[tactic(auto, using(crate::proofs::Spots::spot_slot, crate::proofs::Spots::spot_test))]
    pub fn put(&mut self, spot: Spot, value: Value) -> Result<(), AllocError>
        requires { SlotFits (slot_of spot) }
        ensures ok { OnOk result ((other : Slot) → store_of self.new other
            ≡ cond (same_slot other (slot_of spot)) (Some value) (store_of self.old other)) }
        ensures err { OnErr result
            ((other : Slot) → store_of self.new other ≡ store_of self.old other) }
        ensures absent { OnErr result (store_of self.old (slot_of spot) ≡ None) }
    {
        match self.values.insert(spot, value) {
            Ok(_) => Ok(()),
            Err(_) => Err(AllocError),
        }
    }

    /// A slot vanishes.
    #[tactic(auto, using(crate::proofs::Spots::spot_slot, crate::proofs::Spots::spot_test))]
    pub fn take(&mut self, spot: Spot)
        ensures { (other : Slot) → store_of self.new other
            ≡ cond (same_slot other (slot_of spot)) None (store_of self.old other) }
    {
        self.values.remove(&spot);
    }
}
