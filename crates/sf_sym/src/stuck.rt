/// Why a search has no rule at a goal.
#[derive(Clone, Copy, Debug, PartialEq, Eq)]
pub enum Stuck {
    /// The cell that a command reads, writes or disposes isn't known to be there.
    NoCell,
    /// Two terms that have to be the same aren't known to be.
    NotEqual,
    /// Two terms that have to differ aren't known to.
    NotDifferent,
    /// A part of the heap that has to be handed over isn't known to be there.
    NoAtom,
    /// Parts of the heap are left at the end.
    Leak,
    /// A segment is wanted that begins with one that is there, whose end isn't known to lie outside
    /// of it.
    EndNotAllocated,
}
