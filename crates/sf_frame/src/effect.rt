//! What an event makes of what all tasks share.

use crate::frame::Room;
use crate::spot::Spot;
use sf_base::{FieldId, ResId, Value};

/// The slots of a room come up with these values, and nil in those after them.
#[derive(Drop)]
pub struct Opening {
    /// The room.
    pub room: Room,
    /// The values in its first slots.
    pub values: Vec<Value>,
}

/// What an event makes of what is shared where it makes nothing new: it wants no memory.
#[derive(Clone, Copy)]
pub enum Edit {
    /// Nothing.
    Nothing,
    /// A variable that is there gets a value.
    Set(Spot, Value),
    /// A field of the cell at a location gets a value.
    Put(u64, FieldId, Value),
    /// The cell at a location vanishes.
    Remove(u64),
    /// A resource is free.
    Free(ResId),
    /// A room vanishes, and where it is so every resource is free.
    Close(Room, bool),
}

/// What an event makes of what is shared.
#[derive(Drop)]
pub enum Effect {
    /// It makes nothing new.
    Edits(Edit),
    /// The event's cell comes up at its location, which a variable that is there gets.
    Make(Spot),
    /// The event's task holds a resource.
    Hold(ResId),
    /// A room comes up.
    Open(Opening),
    /// Two rooms come up, the first one first.
    OpenBoth(Opening, Opening),
}
