//! What an event makes of what is shared.

ghost use Rattle.std.specs.Prelude.{◌≡◌, ◌==◌, ℕ, true, cond, Some, None, is_some, length, OnOk, OnErr};
ghost use Rattle.sf_base.specs.declared.ids.ResId.{ResId as R};
ghost use Rattle.sf_base.specs.HeapStore.{Slot, same_slot};
ghost use Rattle.sf_foot.specs.Starting.{HasWidth};
ghost use Rattle.sf_heap.specs.Cells.{cell_of};
ghost use Rattle.sf_frame.specs.Commons.{common_of, held_of};
ghost use Rattle.sf_frame.specs.Stamps.{event_of};
ghost use Rattle.sf_frame.specs.Checked.Effects.{applied, edited, opened_store, EditHasField, HasField, IsClearStore, IsMore, IsSameCommon, Suits, SuitsEdit};
ghost use Rattle.sf_frame.specs.Spots.{slot_of};
ghost use Rattle.sf_frame.specs.Stores.{store_of};

use crate::cells::{make_cell, put_field, remove_cell};
use crate::effect::{Edit, Effect, Opening};
use crate::rooms::{close, open};
use crate::shared::Shared;
use crate::spot::Spot;
use crate::stamp::Stamp;
use crate::store::Store;
use sf_base::{ResId, TaskPath, Value};
use sf_heap::Cell;
use std::alloc::AllocError;
use std::collections::BTreeMap;

/// Makes of what is shared what an event does, a `new` with a cell of those fields. An `Err` comes
/// only where it is more than an edit: it says that memory ran out, and nothing is changed. Cells
/// have as many fields as before.
pub fn apply(
    shared: &mut Shared,
    event: &Stamp,
    fields: &Cell,
    effect: Effect,
) -> Result<(), AllocError>
    requires suits { Suits (event_of event.now (cell_of fields.now)) effect (common_of shared.old) }
    requires field { HasField effect shared.old.heap }
    ensures ok { OnOk result (IsSameCommon (common_of shared.new)
        (applied (event_of event.now (cell_of fields.now)) effect (common_of shared.old))) }
    ensures err { OnErr result (IsSameCommon (common_of shared.new) (common_of shared.old)) }
    ensures memory { OnErr result (IsMore effect) }
    ensures width { (count : ℕ) → length fields.now ≡ count → HasWidth count shared.old.heap
        → HasWidth count shared.new.heap }
{
    match effect {
        Effect::Edits(one) => {
            edit(shared, one);
            Ok(())
        }
        Effect::Make(spot) => make(shared, event, fields, spot),
        Effect::Hold(r) => hold(&mut shared.held, r, event.task),
        Effect::Open(opening) => open(&mut shared.store, opening.room, &opening.values),
        Effect::OpenBoth(one, two) => open_both(&mut shared.store, &one, &two),
    }
}

/// Makes of what is shared what an event does that makes nothing new. It wants no memory. Cells have
/// as many fields as before.
pub fn edit(shared: &mut Shared, edit: Edit)
    requires suits { SuitsEdit edit (common_of shared.old) }
    requires field { EditHasField edit shared.old.heap }
    ensures done { IsSameCommon (common_of shared.new) (edited edit (common_of shared.old)) }
    ensures width { (count : ℕ) → HasWidth count shared.old.heap → HasWidth count shared.new.heap }
{
    match edit {
        Edit::Nothing => {}
        Edit::Set(spot, value) => set(&mut shared.store, spot, value),
        Edit::Put(at, field, value) => put_field(&mut shared.heap, at, field, value),
        Edit::Remove(at) => remove_cell(&mut shared.heap, at),
        Edit::Free(r) => free(&mut shared.held, r),
        Edit::Close(room, all) => {
            close(&mut shared.store, room);
            free_all_if(&mut shared.held, all);
        }
    }
}

/// Makes the cell of an event, whose location a variable gets.
fn make(shared: &mut Shared, event: &Stamp, fields: &Cell, spot: Spot) -> Result<(), AllocError>
    requires { Suits (event_of event.now (cell_of fields.now)) (Effect.Make spot) (common_of shared.old) }
    ensures ok { OnOk result (IsSameCommon (common_of shared.new)
        (applied (event_of event.now (cell_of fields.now)) (Effect.Make spot) (common_of shared.old))) }
    ensures err { OnErr result (IsSameCommon (common_of shared.new) (common_of shared.old)) }
    ensures width { (count : ℕ) → length fields.now ≡ count → HasWidth count shared.old.heap
        → HasWidth count shared.new.heap }
{
    make_cell(shared.alloc, &mut shared.heap, event.at, fields)?;
    set(&mut shared.store, spot, Value::Loc(event.at));
    Ok(())
}

/// Opens two rooms.
fn open_both(store: &mut Store, one: &Opening, two: &Opening) -> Result<(), AllocError>
    requires first { IsClearStore one.now (store_of store.old) }
    requires second { IsClearStore two.now (opened_store one.now (store_of store.old)) }
    ensures ok { OnOk result ((slot : Slot) → store_of store.new slot
        ≡ opened_store two.now (opened_store one.now (store_of store.old)) slot) }
    ensures err { OnErr result ((slot : Slot) → store_of store.new slot ≡ store_of store.old slot) }
{
    open(store, one.room, &one.values)?;
    if open(store, two.room, &two.values).is_err() {
        close(store, one.room);
        return Err(AllocError);
    }
    Ok(())
}

/// A variable that is there gets a value.
fn set(store: &mut Store, spot: Spot, value: Value)
    requires { is_some (store_of store.old (slot_of spot)) ≡ true }
    ensures { (other : Slot) → store_of store.new other
        ≡ cond (same_slot other (slot_of spot)) (Some value) (store_of store.old other) }
{
    let _ = store.put(spot, value);
}

/// The resource is held by that task from now on. An `Err` says that memory ran out, and nothing is
/// changed.
#[tactic(auto, using(crate::proofs::Spots::number_test))]
fn hold(held: &mut BTreeMap<u32, TaskPath>, r: ResId, task: TaskPath) -> Result<(), AllocError>
    ensures ok { OnOk result
        ((q : R) → held_of held.new q ≡ cond (q.0 == r.0) (Some task) (held_of held.old q)) }
    ensures err { OnErr result ((q : R) → held_of held.new q ≡ held_of held.old q) }
{
    match held.insert(r.0, task) {
        Ok(_) => Ok(()),
        Err(_) => Err(AllocError),
    }
}

/// The resource is free from now on.
#[tactic(auto, using(crate::proofs::Spots::number_test))]
fn free(held: &mut BTreeMap<u32, TaskPath>, r: ResId)
    ensures { (q : R) → held_of held.new q ≡ cond (q.0 == r.0) None (held_of held.old q) }
{
    let _ = held.remove(&r.0);
}

/// Every resource is free from now on, where it is so.
fn free_all_if(held: &mut BTreeMap<u32, TaskPath>, so: bool)
    ensures { (q : R) → held_of held.new q ≡ cond so None (held_of held.old q) }
{
    if so {
        held.clear();
    }
}
