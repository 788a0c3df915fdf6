//! The values of variables and fields.

/// What a variable or a field holds. The three kinds never equal one another.
#[derive(Clone, Copy, Debug, PartialEq, Eq, PartialOrd, Ord, Hash)]
pub enum Value {
    /// No location and no number.
    Nil,
    /// A number, which has nothing to do with locations.
    Int(i64),
    /// The location of a cell, which may be absent. Locations are counted from 1.
    Loc(u64),
}
