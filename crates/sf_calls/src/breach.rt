use sf_base::{Place, ResId, Var};

/// Which of the conditions on variables is broken, where, and by which variable or resource. The
/// variable is named as the procedure at hand names it.
#[derive(Clone, Copy, Debug, PartialEq, Eq)]
pub enum Breach {
    /// A resource's variable is used where the resource is not held.
    NotHeld(Place, Var),
    /// A resource is entered that is held.
    Reentered(Place, ResId),
    /// A call has one variable twice among its references.
    SameReference(Place, Var),
    /// A reference is free in the procedure that is called.
    ReferenceIsFree(Place, Var),
    /// One of two parallel calls may change what the other uses.
    ParallelShares(Place, Var),
}
