use crate::word::{SurfaceOperand, SurfaceTest, Word};
use sf_base::Place;

/// A field of a points-to and what stands for its value.
#[derive(Clone, Copy, Debug, PartialEq, Eq)]
pub struct SurfaceField {
    /// The field.
    pub name: Word,
    /// What stands for its value.
    pub value: SurfaceOperand,
}

/// One conjunct. A place is that of its first token; where there is none, its first part has it,
/// or, of a group, nobody asks for it.
#[cycle(assertion)]
#[derive(Debug, Drop)]
pub enum SurfaceConjunct {
    /// `emp`
    Emp(Place),
    /// `( A )`
    Group(SurfaceAssertion),
    /// `if B then A else A`, and whether B is in round brackets
    If(Place, bool, SurfaceTest<SurfaceOperand>, SurfaceAssertion, SurfaceAssertion),
    /// `E == F`
    Equal(SurfaceOperand, SurfaceOperand),
    /// `E != F`
    Differ(SurfaceOperand, SurfaceOperand),
    /// `E |-> f:F, g:G`
    Points(SurfaceOperand, Vec<SurfaceField>),
    /// `ls(E, F)`, and whether it is written `lseg(E, F)`
    Ls(Place, bool, SurfaceOperand, SurfaceOperand),
    /// `list(E)`
    List(Place, SurfaceOperand),
    /// `dll(E, P, L, F)`
    Dll(Place, SurfaceOperand, SurfaceOperand, SurfaceOperand, SurfaceOperand),
    /// `tree(E)`
    Tree(Place, SurfaceOperand),
}

/// An assertion: one conjunct or more, with `*` between them.
#[cycle(assertion)]
#[derive(Debug, Drop)]
pub struct SurfaceAssertion {
    /// The left one.
    pub first: Box<SurfaceConjunct>,
    /// Those after it, each after its `*`.
    pub more: Vec<SurfaceConjunct>,
}

/// `[ A ]`, or `[ ]`.
#[derive(Debug, Drop)]
pub struct SurfaceNote {
    /// What comes between the brackets.
    pub assertion: Option<SurfaceAssertion>,
}
