//! What can be wrong with names.

use sf_ast::Word;
use sf_base::{Name, Place};
use std::alloc::AllocError;
use thiserror::Error;

/// A field that predicates follow.
#[derive(Clone, Copy, Debug, PartialEq, Eq)]
pub enum Link {
    /// `tl`
    Next,
    /// `pv`
    Back,
    /// `l`
    Left,
    /// `r`
    Right,
}

/// What is wrong with a name, at a word of the file or at a place of it.
#[derive(Clone, Copy, Debug, PartialEq, Eq)]
pub enum Fault {
    /// Nothing has that name.
    Unknown(Word),
    /// Something of its kind has that name already.
    Twice(Word),
    /// The call has other counts of references or values than its procedure.
    Arity(Word),
    /// It is a variable of an earlier resource.
    OwnedTwice(Word),
    /// It is no variable of the invariant's own resource.
    Foreign(Word),
    /// The predicate there needs that field, which isn't declared.
    Missing(Place, Link),
    /// What begins there exceeds a limit.
    TooMany(Place),
    /// The procedure named `init` has a parameter, or a conjunct in its pre or post, there.
    InitShape(Place),
    /// A call names `init`.
    InitCalled(Word),
}

/// Why a file is no program: its first fault, with the name at fault.
#[derive(Debug, Drop, Error)]
pub enum NameFault {
    /// Kind 20: nothing has that name.
    #[error("an unknown name")]
    UnknownName(Place, Name),
    /// Kind 21: something of its kind has that name already.
    #[error("a name that is there already")]
    Twice(Place, Name),
    /// Kind 22: the call has other counts of references or values than its procedure.
    #[error("a call with other counts than its procedure")]
    Arity(Place, Name),
    /// Kind 23: it is a variable of an earlier resource.
    #[error("a variable of two resources")]
    OwnedTwice(Place, Name),
    /// Kind 24: it is no variable of the invariant's own resource.
    #[error("a name in an invariant that is no variable of its resource")]
    ForeignVariable(Place, Name),
    /// Kind 25: the predicate there needs that field, which isn't declared.
    #[error("a predicate without its field")]
    MissingField(Place, Name),
    /// Kind 26: what begins there exceeds a limit.
    #[error("more than the limit")]
    TooMany(Place),
    /// Kind 28: `init` has a parameter, or a conjunct in its pre or post, there.
    #[error("a parameter or a contract of `init`")]
    InitShape(Place, Name),
    /// Kind 29: a call names `init`.
    #[error("a call of `init`")]
    InitCalled(Place, Name),
    /// A growth was refused.
    #[error("out of memory")]
    OutOfMemory,
}

impl From<AllocError> for NameFault {
    ghost use Rattle.std.specs.Prelude.{◌≡◌};
    ghost use Rattle.sf_elab.specs.declared.fault.NameFault.TheVariants.{OutOfMemory};

    ghost from_gives = { λ _ e. e ≡ OutOfMemory };

    fn from(_error: AllocError) -> NameFault {
        NameFault::OutOfMemory
    }
}
