use crate::term::Term;
use sf_base::ProcId;

/// One step of a proof: which rule is applied to the open goal. A number names an atom of its
/// state.
#[derive(Clone, Copy, Debug, PartialEq, Eq)]
pub enum Tag {
    /// Begin with the first goal of this procedure.
    Procedure(ProcId),
    /// The state is absurd: no store and heap have it.
    Absurd,
    /// An empty segment or tree goes.
    Drop(u32),
    /// A segment or tree that can only be empty is so.
    Force(u32),
    /// Two terms are the same, or differ.
    Split(Term, Term),
    /// A segment or tree that isn't empty begins with a cell.
    Unroll(u32),
    /// A doubly linked segment that isn't empty ends with a cell.
    Back(u32),
    /// A variable gets an expression's value.
    Assign,
    /// A variable gets the value of a field of this cell.
    Look(u32),
    /// A field of this cell gets an expression's value.
    Mutate(u32),
    /// A variable gets the location of a new cell.
    New,
    /// This cell goes.
    Dispose(u32),
    /// The first branch of a choice whose test is true.
    Then,
    /// The second branch of a choice whose test is false.
    Else,
    /// A loop's invariant is due.
    Loop,
    /// A loop's body once, and what comes after the loop.
    Around,
    /// A loop's body ends.
    Again,
    /// One call.
    Call,
    /// Two parallel calls.
    Fork,
    /// A region begins.
    Enter,
    /// A region ends.
    Exit,
    /// The procedure ends.
    Return,
    /// What was taken is gone.
    Give,
    /// All is done.
    End,
    /// The first conjunct is assumed.
    Add,
    /// A wanted equality gives an existential its term.
    Bind,
    /// A wanted equality of one term with itself.
    Same,
    /// A wanted inequality of terms that differ.
    Apart,
    /// A wanted cell is this one.
    Cell(u32),
    /// A wanted segment or tree is empty.
    Empty,
    /// A wanted segment or tree is this one.
    Exact(u32),
    /// A wanted segment begins with this cell.
    Head(u32),
    /// A wanted segment begins with this segment.
    Join(u32),
    /// A wanted tree begins with this cell.
    Node(u32),
}
