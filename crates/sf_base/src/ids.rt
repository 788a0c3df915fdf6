//! Numbers in place of names: resources, procedures, fields, variables, slots.

ghost use Rattle.std.specs.Prelude.{◌≡◌};
ghost use Rattle.sf_base.specs.Variables.{same_var};

/// The number of a resource, in file order from 0.
#[derive(Clone, Copy, Debug, PartialEq, Eq, PartialOrd, Ord, Hash)]
pub struct ResId(pub u32);

/// The number of a procedure, in file order from 0.
#[derive(Clone, Copy, Debug, PartialEq, Eq, PartialOrd, Ord, Hash)]
pub struct ProcId(pub u32);

/// The number of a field, in declared order from 0.
#[derive(Clone, Copy, Debug, Default, PartialEq, Eq, PartialOrd, Ord, Hash)]
pub struct FieldId(pub u32);

/// A variable, as the text of one procedure or of one invariant names it.
#[derive(Clone, Copy, Debug, PartialEq, Eq, PartialOrd, Ord, Hash)]
pub enum Var {
    /// A variable of the procedure itself: its references, its values, its declared locals, and its
    /// primed locals, in this order.
    Own(u32),
    /// A variable of a resource, with its number there.
    Shared(ResId, u32),
}

impl Var {
    /// Whether the two are one variable.
    pub fn is_same(self, other: Var) -> bool
        ensures { result ≡ same_var self other }
    {
        self == other
    }
}

/// Where a running program keeps a variable that is no resource's: the event that made it, and its
/// index among the variables that this event made.
#[derive(Clone, Copy, Debug, PartialEq, Eq, PartialOrd, Ord, Hash)]
pub struct Slot {
    /// The number of the call or fork. 0 is the start.
    pub event: u64,
    /// The place among the variables made by that event, from 0.
    pub index: u32,
}

/// Something that a step may read or write.
#[derive(Clone, Copy, Debug, PartialEq, Eq, PartialOrd, Ord, Hash)]
pub enum Thing {
    /// A variable of a resource.
    Shared(ResId, u32),
    /// Any other variable.
    Own(Slot),
    /// The cell at a location.
    At(u64),
}
