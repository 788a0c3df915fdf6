ghost use Rattle.std.specs.Prelude.{◌≤◌, map};
ghost use Rattle.sf_ast.specs.Depth.{items_depth};
ghost use Rattle.sf_ast.specs.View.{item_of};
ghost use Rattle.sf_base.specs.declared.limits.TheConstants.{NESTING};

use crate::assertion::SurfaceNote;
use crate::command::SurfaceCommand;
use crate::word::{SurfaceNames, Word};
use sf_base::Place;

/// The parameters of a procedure.
#[derive(Debug, Drop)]
pub enum SurfaceParameters {
    /// Value parameters alone, without a `;`.
    Values(Vec<Word>),
    /// References, a `;` and value parameters.
    Both(Vec<Word>, Vec<Word>),
}

/// `resource r (x, y) [ A ]`
#[derive(Debug, Drop)]
pub struct SurfaceResource {
    /// Where `resource` is.
    pub place: Place,
    /// Its name.
    pub name: Word,
    /// The variables that it protects.
    pub variables: Vec<Word>,
    /// What holds of it while it is free.
    pub invariant: SurfaceNote,
}

/// `f(x; y) [ A ] { local z; C } [ A ]`
#[derive(Debug, Drop)]
pub struct SurfaceProcedure {
    /// Its name.
    pub name: Word,
    /// What comes between its round brackets.
    pub parameters: SurfaceParameters,
    /// Its precondition.
    pub pre: Option<SurfaceNote>,
    /// Where the body's opening brace is.
    pub open: Place,
    /// The names of each `local`.
    pub locals: Vec<SurfaceNames>,
    /// The commands after them.
    pub body: Vec<SurfaceCommand>,
    /// Where the body's closing brace is.
    pub close: Place,
    /// Its postcondition.
    pub post: Option<SurfaceNote>,
}

/// One item of a file.
#[derive(Debug, Drop)]
pub enum Item {
    /// `a, b;`
    Fields(SurfaceNames),
    /// `resource r (x, y) [ A ]`
    Resource(SurfaceResource),
    /// `f(x; y) [ A ] { local z; C } [ A ]`
    Procedure(SurfaceProcedure),
}

/// A file as it is written. No command and no assertion in it is deeper than 64.
#[derive(Debug, Drop)]
pub struct File {
    /// What occurs in it, in order.
    pub items: Vec<Item>,
    ghost shallow: { items_depth (map item_of items.items) ≤ NESTING },
}
