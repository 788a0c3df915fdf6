//! Frames, and how they go on.

ghost use Rattle.sf_frame.specs.Checked.Todos.{HasDepth, HasDepth-prop};

use crate::spot::Spot;
use crate::todo::{Todo, go_on};
use sf_base::{ProcId, Var};

/// The slots that an event made for the values and locals of a frame.
#[derive(Clone, Copy)]
pub struct Room {
    /// The number of the event.
    pub event: u64,
    /// The index of the first.
    pub first: u32,
    /// How many there are.
    pub count: u32,
}

/// A frame: whose it is, which slots its references name, its own slots, and what it has still to
/// do, the next thing last. It keeps that there is room for all that can come of these.
#[derive(Drop)]
pub struct Frame<'p> {
    pub(crate) procedure: ProcId,
    pub(crate) references: Vec<Spot>,
    pub(crate) room: Room,
    pub(crate) todo: Vec<Todo<'p>>,
    ghost deep: { HasDepth todo } by { HasDepth-prop todo },
}

/// Which way a frame goes on from what is first to do.
#[derive(Clone, Copy, Debug, PartialEq, Eq)]
pub enum Way {
    /// Past it, to what comes after.
    Past,
    /// Into its block: the first one of an `if`, the body of a loop, after which its test comes
    /// again, or that of a region, which is left after it.
    Into,
    /// Into the other block of an `if`.
    Else,
}

impl Room {
    ghost use Rattle.std.specs.Prelude.{◌≡◌, ◌+◌};
    ghost use Rattle.sf_frame.specs.Spots.{slot_of};
    ghost use Rattle.sf_frame.specs.Frames.{own_slot_in};

    /// The slot of that place in the room.
    pub fn spot(self, i: u32) -> Spot
        ensures { result ≡ Spot.Own self.event (self.first + i) }
    {
        Spot::Own(self.event, self.first as u64 + i as u64)
    }

    /// The slot of a frame's own variable, where its references have those slots.
    fn own_spot(self, references: &[Spot], i: u32) -> Spot
        ensures { slot_of result ≡ own_slot_in references.now self i }
    {
        match references.get(i as usize) {
            Some(spot) => *spot,
            None => self.spot(i - references.len() as u32),
        }
    }
}

impl<'p> Frame<'p> {
    ghost use Rattle.std.specs.Prelude.{◌≡◌};
    ghost use Rattle.sf_frame.specs.Spots.{slot_of};
    ghost use Rattle.sf_frame.specs.Frames.{slots_in, todo_of, fixed_of, frame_of};
    ghost use Rattle.sf_frame.specs.Checked.Frames.{goes_on};

    /// The slot of a variable.
    pub fn spot(&self, x: Var) -> Spot
        ensures { slot_of result ≡ slots_in self.now.references.items self.now.room x }
    {
        match x {
            Var::Shared(r, i) => Spot::Shared(r, i),
            Var::Own(i) => self.room.own_spot(self.references.as_slice(), i),
        }
    }

    /// Goes on that way. It wants no memory.
    #[tactic(auto, using(crate::proofs::Stacks::frame_same))]
    pub(crate) fn go_on(&mut self, way: Way)
        ensures { frame_of self.new ≡ record {
          fixed = fixed_of self.old;
          todo = goes_on way (todo_of self.old.todo.items);
        } }
    {
        go_on(&mut self.todo, way);
    }
}
