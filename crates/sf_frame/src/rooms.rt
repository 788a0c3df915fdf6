//! Rooms that come up in the store, and vanish.

ghost use Rattle.std.specs.Prelude.{◌≡◌, ◌≤◌, ◌+◌, ◌-◌, ◌^◌, ◌<◌, true, cond, Some, None, get_or, OnOk, OnErr};
ghost use Rattle.sf_base.specs.declared.value.Value.TheVariants.{Nil as nil};
ghost use Rattle.sf_base.specs.HeapStore.{Slot};
ghost use Rattle.sf_core.specs.Machine.Config.{in_room};
ghost use Rattle.sf_core.specs.Machine.Step.{index_of};
ghost use Rattle.sf_frame.specs.Stores.{store_of};
ghost use Rattle.sf_frame.specs.Frames.{room_of};
ghost use Rattle.sf_frame.specs.Checked.Frames.{first_slots};

use crate::frame::Room;
use crate::store::Store;
use sf_base::Value;
use std::alloc::AllocError;

/// The slots of a room, which are absent, come up with these values, and nil in those after them.
/// An `Err` says that memory ran out, and nothing is changed.
pub fn open(store: &mut Store, room: Room, values: &[Value]) -> Result<(), AllocError>
    requires fits { room.first + room.count ≤ 2 ^ 32 }
    requires absent { (slot : Slot) → in_room (room_of room) slot ≡ true
        → store_of store.old slot ≡ None }
    ensures ok { OnOk result ((slot : Slot) → store_of store.new slot
        ≡ cond (in_room (room_of room) slot)
        (Some (get_or values.now (index_of slot - room.first) nil)) (store_of store.old slot)) }
    ensures err { OnErr result ((slot : Slot) → store_of store.new slot ≡ store_of store.old slot) }
{
    for i in 0..room.count {
        if store.put(room.spot(i), value_or_nil(values, i)).is_err() {
            close_some(store, room, i);
            return Err(AllocError);
        }
    }
    Ok(())
}

/// The value at a place, nil after the last.
fn value_or_nil(values: &[Value], i: u32) -> Value
    ensures { result ≡ get_or values.now i nil }
{
    match values.get(i as usize) {
        Some(value) => *value,
        None => Value::Nil,
    }
}

/// The slots of a room vanish.
pub fn close(store: &mut Store, room: Room)
    ensures { (slot : Slot) → store_of store.new slot
        ≡ cond (in_room (room_of room) slot) None (store_of store.old slot) }
{
    close_some(store, room, room.count);
}

/// The first slots of a room vanish.
fn close_some(store: &mut Store, room: Room, count: u32)
    ensures { (slot : Slot) → store_of store.new slot
        ≡ cond (in_room (first_slots room.event room.first count) slot) None
        (store_of store.old slot) }
{
    for i in 0..count {
        store.take(room.spot(i));
    }
}
