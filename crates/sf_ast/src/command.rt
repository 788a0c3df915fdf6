use crate::assertion::SurfaceNote;
use crate::word::{SurfaceExpr, SurfaceTest, Word};
use sf_base::Place;

/// What a call is given.
#[derive(Debug, Drop)]
pub enum SurfaceArguments {
    /// Values alone, without a `;`.
    Values(Vec<SurfaceExpr>),
    /// References, a `;` and values.
    Both(Vec<Word>, Vec<SurfaceExpr>),
}

/// One call.
#[derive(Debug, Drop)]
pub struct SurfaceCall {
    /// The procedure.
    pub name: Word,
    /// What comes between its round brackets.
    pub arguments: SurfaceArguments,
}

/// A command. A place is that of its first token; where there is none, its first part has it.
#[derive(Debug, Drop)]
pub enum SurfaceCommand {
    /// `x = E ;`
    Assign(Word, SurfaceExpr),
    /// `x = E -> f ;`
    LookUp(Word, SurfaceExpr, Word),
    /// `x = new ( ) ;`
    New(Word),
    /// `E -> f = F ;`
    Mutate(SurfaceExpr, Word, SurfaceExpr),
    /// `dispose E ;`, and whether E is in round brackets
    Dispose(Place, bool, SurfaceExpr),
    /// `if ( B ) C`
    IfAlone(Place, SurfaceTest<SurfaceExpr>, Box<SurfaceCommand>),
    /// `if ( B ) C else C`
    If(Place, SurfaceTest<SurfaceExpr>, Box<SurfaceCommand>, Box<SurfaceCommand>),
    /// `while ( B ) [ I ] C`, or without its invariant
    While(Place, SurfaceTest<SurfaceExpr>, Option<SurfaceNote>, Box<SurfaceCommand>),
    /// `with r when ( B ) C`
    With(Place, Word, SurfaceTest<SurfaceExpr>, Box<SurfaceCommand>),
    /// `f(x; E) ;`
    Call(SurfaceCall),
    /// `f(x; E) || g(y; F) ;`
    Fork(SurfaceCall, SurfaceCall),
    /// `{ C C }`, and where its `}` is
    Block(Place, Vec<SurfaceCommand>, Place),
}
