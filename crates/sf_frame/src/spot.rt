//! Where the store keeps the values of variables.

use sf_base::ResId;

/// Where the store keeps the value of a variable. An index is counted from the first variable that
/// the event made, in 64 bits, so that no sum that finds one can be too large.
#[derive(Clone, Copy, Debug, PartialEq, Eq, PartialOrd, Ord)]
pub enum Spot {
    /// A variable of a resource.
    Shared(ResId, u32),
    /// The variable of that index which an event of that number made.
    Own(u64, u64),
}
