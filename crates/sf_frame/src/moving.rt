//! Slots that move between stores.

ghost use Rattle.std.specs.Prelude.{◌≡◌, ◌⊎◌, true, cond, is_some, Some, None, IfErr, IfOk, OnErr, OnOk};
ghost use Rattle.std.specs.Option.{option_or};
ghost use Rattle.sf_base.specs.declared.value.Value.{Value as V};
ghost use Rattle.sf_base.specs.HeapStore.{Apart, Slot, Splits, same_slot};
ghost use Rattle.sf_frame.specs.Spots.{slot_of};
ghost use Rattle.sf_frame.specs.Stores.{is_among, store_of};

use crate::spot::Spot;
use crate::store::Store;
use std::alloc::{AllocError, Global};

impl Store {
    /// The same slots, with the values that they have here. An `Err` says that memory ran out.
    pub fn copy(&self, alloc: Global) -> Result<Store, AllocError>
        ensures { IfOk result
            (λ copy. (slot : Slot) → store_of copy slot ≡ store_of self.now slot) }
    {
        let mut copy = Store::new(alloc);
        copy.take_over(self)?;
        Ok(copy)
    }

    /// A store of just those slots, those of them that are there, with the values that they have
    /// here. Nothing moves yet: with one such store for each set that is to move, `cut` takes all of
    /// them out and wants no memory. An `Err` says that memory ran out.
    pub fn copy_of(&self, alloc: Global, slots: &[Spot]) -> Result<Store, AllocError>
        ensures { IfOk result (λ part. (slot : Slot) → store_of part slot
            ≡ cond (is_among slots.now slot) (store_of self.now slot) None) }
    {
        let mut part = Store::new(alloc);
        for spot in slots {
            copy_slot(&mut part, self, *spot)?;
        }
        Ok(part)
    }

    /// Takes the slots of a part out, which has the values that they have here. It wants no memory.
    pub fn cut(&mut self, part: &Store)
        requires { (slot : Slot) (v : V) → store_of part.now slot ≡ Some v
            → store_of self.old slot ≡ Some v }
        ensures { Splits (store_of self.old) (store_of part.now) (store_of self.new) }
    {
        self.clear(part);
    }

    /// Takes those slots out, those of them that are there, as a store of their own. An `Err` says
    /// that memory ran out, and nothing is changed.
    pub fn part_off(&mut self, alloc: Global, slots: &[Spot]) -> Result<Store, AllocError>
        ensures parts { IfOk result (λ part.
            Splits (store_of self.old) (store_of part) (store_of self.new)) }
        ensures slots { IfOk result (λ part. (slot : Slot) → store_of part slot
            ≡ cond (is_among slots.now slot) (store_of self.old slot) None) }
        ensures err { OnErr result
            ((slot : Slot) → store_of self.new slot ≡ store_of self.old slot) }
    {
        let part = self.copy_of(alloc, slots)?;
        self.clear(&part);
        Ok(part)
    }

    /// Takes all slots of another store in, which has none of this one's. An `Err` says that memory
    /// ran out: it hands the other store back whole, and nothing is changed.
    pub fn join(&mut self, other: Store) -> Result<(), Store>
        requires { (slot : Slot) → Apart (store_of self.old slot) (store_of other slot) }
        ensures ok { OnOk result
            (Splits (store_of self.new) (store_of self.old) (store_of other)) }
        ensures err { OnErr result
            ((slot : Slot) → store_of self.new slot ≡ store_of self.old slot) }
        ensures other_returned { IfErr result (λ back. back ≡ other) }
    {
        match self.take_over(&other) {
            Ok(()) => Ok(()),
            Err(_) => {
                self.clear(&other);
                Err(other)
            }
        }
    }

    /// The slots that another store has vanish.
    fn clear(&mut self, other: &Store)
        ensures { (slot : Slot) → store_of self.new slot
            ≡ cond (is_some (store_of other.now slot)) None (store_of self.old slot) }
    {
        for (spot, _) in &other.values {
            self.take(*spot);
        }
    }

    /// Each slot that another store has gets the value that it has there. After an `Err`, which says
    /// that memory ran out, some of them may have it.
    fn take_over(&mut self, other: &Store) -> Result<(), AllocError>
        ensures ok { OnOk result ((slot : Slot) → store_of self.new slot
            ≡ option_or (store_of other.now slot) (store_of self.old slot)) }
        ensures err { OnErr result ((slot : Slot) → store_of other.now slot ≡ None
            → store_of self.new slot ≡ store_of self.old slot) }
    {
        for (spot, value) in &other.values {
            self.put(*spot, *value)?;
        }
        Ok(())
    }
}

/// A slot gets the value that another store has in it, if it is there.
fn copy_slot(store: &mut Store, from: &Store, spot: Spot) -> Result<(), AllocError>
    ensures { OnOk result ((slot : Slot) → store_of store.new slot
        ≡ cond (same_slot slot (slot_of spot))
        (option_or (store_of from.now slot) (store_of store.old slot)) (store_of store.old slot)) }
{
    match from.find(spot) {
        Some(value) => store.put(spot, value),
        None => Ok(()),
    }
}
