//! Why a file is refused, and the line that says so.

ghost use Rattle.std.specs.Prelude.{◌≡◌, ◌≢◌, ◌++◌, IfOk, OnOk};
ghost use Rattle.sf_cli.specs.declared.refusal.Refusal.TheVariants.{OutOfMemory};
ghost use Rattle.sf_cli.specs.Refusals.{kind_text, name_text, number_of, place_text, refusal_text, word_of};

use crate::writing::{put, put_number};
use sf_base::{Name, Place};
use sf_elab::NameFault;
use sf_lex::LexFault;
use sf_parse::ParseFault;
use sf_precise::OrderFault;
use sf_vars::VarFault;
use std::alloc::{AllocError, Global};

/// The place that is named where a fault is one of the whole file: that of its first byte.
pub const FIRST_PLACE: Place = Place { line: 1, column: 1 };

/// The kinds of refusals. `number_and_word` has what is printed of each.
#[derive(Clone, Copy, Debug, PartialEq, Eq)]
pub enum RefusalKind {
    /// A byte that begins no token.
    BadByte,
    /// A name or an existential longer than 64 bytes.
    LongWord,
    /// A comment without an end.
    OpenComment,
    /// A number outside 64 bits, or directly before a letter or `_`.
    BadNumber,
    /// More bytes than a file may have.
    LongFile,
    /// The first token that can't continue any file.
    Unexpected,
    /// A command or an assertion that would be the 65th of its nest.
    TooDeep,
    /// Nothing has that name.
    UnknownName,
    /// Something of its kind has that name already.
    Twice,
    /// A call with other counts of references or values than its procedure.
    Arity,
    /// A variable of two resources.
    OwnedTwice,
    /// A name in an invariant that is no variable of its resource.
    ForeignVariable,
    /// A predicate without a field that it needs.
    MissingField,
    /// More than a limit.
    TooMany,
    /// A procedure named `init` with a parameter, or with a conjunct in its pre or post.
    InitShape,
    /// A call of the procedure named `init`.
    InitCalled,
    /// A resource's variable where the resource isn't held.
    NotHeld,
    /// A resource is entered that is held.
    Reentered,
    /// A variable twice among a call's references.
    SameReference,
    /// A reference that is free in the procedure that is called.
    ReferenceIsFree,
    /// One of two parallel calls may change what the other uses.
    ParallelShares,
    /// A conjunct that is never taken, so its assertion isn't determined.
    Undetermined,
}

/// Why a file is refused.
#[derive(Debug, Drop)]
pub enum Refusal {
    /// For that, at that place.
    At(RefusalKind, Place),
    /// For that, at that place, by that name.
    Named(RefusalKind, Place, Name),
    /// Memory ran out, which says nothing of the file.
    OutOfMemory,
}

impl From<AllocError> for Refusal {
    ghost use Rattle.std.specs.Prelude.{◌≡◌};
    ghost use Rattle.sf_cli.specs.declared.refusal.Refusal.TheVariants.{OutOfMemory};

    ghost from_gives = { λ _ e. e ≡ OutOfMemory };

    fn from(_error: AllocError) -> Refusal {
        Refusal::OutOfMemory
    }
}

impl From<LexFault> for Refusal {
    ghost use Rattle.std.specs.Prelude.{◌≡◌};
    ghost use Rattle.sf_cli.specs.Refusals.{of_tokens};

    ghost from_gives = { λ fault e. e ≡ of_tokens fault };

    fn from(fault: LexFault) -> Refusal {
        match fault {
            LexFault::BadByte(place) => Refusal::At(RefusalKind::BadByte, place),
            LexFault::LongWord(place) => Refusal::At(RefusalKind::LongWord, place),
            LexFault::OpenComment(place) => Refusal::At(RefusalKind::OpenComment, place),
            LexFault::BadNumber(place) => Refusal::At(RefusalKind::BadNumber, place),
            LexFault::LongFile => Refusal::At(RefusalKind::LongFile, FIRST_PLACE),
            LexFault::OutOfMemory => Refusal::OutOfMemory,
        }
    }
}

impl From<ParseFault> for Refusal {
    ghost use Rattle.std.specs.Prelude.{◌≡◌};
    ghost use Rattle.sf_cli.specs.Refusals.{of_grammar};

    ghost from_gives = { λ fault e. e ≡ of_grammar fault };

    fn from(fault: ParseFault) -> Refusal {
        match fault {
            ParseFault::Unexpected(place) => Refusal::At(RefusalKind::Unexpected, place),
            ParseFault::TooDeep(place) => Refusal::At(RefusalKind::TooDeep, place),
            ParseFault::OutOfMemory => Refusal::OutOfMemory,
        }
    }
}

impl From<NameFault> for Refusal {
    ghost use Rattle.std.specs.Prelude.{◌≡◌};
    ghost use Rattle.sf_cli.specs.Refusals.{of_names};

    ghost from_gives = { λ fault e. e ≡ of_names fault };

    fn from(fault: NameFault) -> Refusal {
        match fault {
            NameFault::UnknownName(place, name) => {
                Refusal::Named(RefusalKind::UnknownName, place, name)
            }
            NameFault::Twice(place, name) => Refusal::Named(RefusalKind::Twice, place, name),
            NameFault::Arity(place, name) => Refusal::Named(RefusalKind::Arity, place, name),
            NameFault::OwnedTwice(place, name) => {
                Refusal::Named(RefusalKind::OwnedTwice, place, name)
            }
            NameFault::ForeignVariable(place, name) => {
                Refusal::Named(RefusalKind::ForeignVariable, place, name)
            }
            NameFault::MissingField(place, name) => {
                Refusal::Named(RefusalKind::MissingField, place, name)
            }
            NameFault::TooMany(place) => Refusal::At(RefusalKind::TooMany, place),
            NameFault::InitShape(place, name) => {
                Refusal::Named(RefusalKind::InitShape, place, name)
            }
            NameFault::InitCalled(place, name) => {
                Refusal::Named(RefusalKind::InitCalled, place, name)
            }
            NameFault::OutOfMemory => Refusal::OutOfMemory,
        }
    }
}

impl From<VarFault> for Refusal {
    ghost use Rattle.std.specs.Prelude.{◌≡◌};
    ghost use Rattle.sf_cli.specs.Refusals.{of_variables};

    ghost from_gives = { λ fault e. e ≡ of_variables fault };

    fn from(fault: VarFault) -> Refusal {
        match fault {
            VarFault::NotHeld(place, name) => Refusal::Named(RefusalKind::NotHeld, place, name),
            VarFault::Reentered(place, name) => {
                Refusal::Named(RefusalKind::Reentered, place, name)
            }
            VarFault::SameReference(place, name) => {
                Refusal::Named(RefusalKind::SameReference, place, name)
            }
            VarFault::ReferenceIsFree(place, name) => {
                Refusal::Named(RefusalKind::ReferenceIsFree, place, name)
            }
            VarFault::ParallelShares(place, name) => {
                Refusal::Named(RefusalKind::ParallelShares, place, name)
            }
            VarFault::OutOfMemory => Refusal::OutOfMemory,
        }
    }
}

impl From<OrderFault> for Refusal {
    ghost use Rattle.std.specs.Prelude.{◌≡◌};
    ghost use Rattle.sf_cli.specs.Refusals.{of_order};

    ghost from_gives = { λ fault e. e ≡ of_order fault };

    fn from(fault: OrderFault) -> Refusal {
        match fault {
            OrderFault::Undetermined(place) => Refusal::At(RefusalKind::Undetermined, place),
            OrderFault::OutOfMemory => Refusal::OutOfMemory,
        }
    }
}

/// The number and the word of a kind.
fn number_and_word(kind: RefusalKind) -> (u64, &'static str)
    ensures number { result.0 ≡ number_of kind }
    ensures word { result.1.now ≡ word_of kind }
{
    match kind {
        RefusalKind::BadByte => (1, "BadByte"),
        RefusalKind::LongWord => (2, "LongWord"),
        RefusalKind::OpenComment => (3, "OpenComment"),
        RefusalKind::BadNumber => (4, "BadNumber"),
        RefusalKind::LongFile => (5, "LongFile"),
        RefusalKind::Unexpected => (10, "Unexpected"),
        RefusalKind::TooDeep => (11, "TooDeep"),
        RefusalKind::UnknownName => (20, "UnknownName"),
        RefusalKind::Twice => (21, "Twice"),
        RefusalKind::Arity => (22, "Arity"),
        RefusalKind::OwnedTwice => (23, "OwnedTwice"),
        RefusalKind::ForeignVariable => (24, "ForeignVariable"),
        RefusalKind::MissingField => (25, "MissingField"),
        RefusalKind::TooMany => (26, "TooMany"),
        RefusalKind::InitShape => (28, "InitShape"),
        RefusalKind::InitCalled => (29, "InitCalled"),
        RefusalKind::NotHeld => (30, "NotHeld"),
        RefusalKind::Reentered => (31, "Reentered"),
        RefusalKind::SameReference => (32, "SameReference"),
        RefusalKind::ReferenceIsFree => (33, "ReferenceIsFree"),
        RefusalKind::ParallelShares => (34, "ParallelShares"),
        RefusalKind::Undetermined => (40, "Undetermined"),
    }
}

/// Appends the line up to its kind. An `Err` says that memory ran out.
fn put_kind(text: &mut Vec<u8>, kind: RefusalKind) -> Result<(), AllocError>
    ensures { OnOk result (text.new.items ≡ text.old.items ++ kind_text kind) }
{
    let (number, word) = number_and_word(kind);
    put_number(text, "file refused: ", number)?;
    put(text, " ")?;
    put(text, word)
}

/// Appends a place. An `Err` says that memory ran out.
fn put_place(text: &mut Vec<u8>, place: Place) -> Result<(), AllocError>
    ensures { OnOk result (text.new.items ≡ text.old.items ++ place_text place) }
{
    put_number(text, " at ", u64::from(place.line))?;
    put_number(text, ":", u64::from(place.column))
}

/// Appends the line up to its place. An `Err` says that memory ran out.
fn put_kind_and_place(text: &mut Vec<u8>, kind: RefusalKind, place: Place) -> Result<(), AllocError>
    ensures { OnOk result (text.new.items ≡ text.old.items ++ kind_text kind ++ place_text place) }
{
    put_kind(text, kind)?;
    put_place(text, place)
}

/// Appends the end of the line, with a name. An `Err` says that memory ran out.
fn put_name(text: &mut Vec<u8>, name: &[u8]) -> Result<(), AllocError>
    ensures { OnOk result (text.new.items ≡ text.old.items ++ name_text name.now) }
{
    put(text, " ")?;
    text.extend_from_slice(name)?;
    put(text, "\n")
}

/// The line that says why a file is refused. An `Err` says that memory ran out, which is also the
/// answer where that was the cause.
pub fn refusal_text(alloc: Global, refusal: &Refusal) -> Result<Vec<u8>, AllocError>
    ensures text { IfOk result (λ text. text.items ≡ refusal_text refusal.now) }
    ensures cause { IfOk result (λ text. refusal.now ≢ OutOfMemory) }
{
    let mut text = Vec::new(alloc);
    match refusal {
        Refusal::At(kind, place) => {
            put_kind_and_place(&mut text, *kind, *place)?;
            put(&mut text, "\n")?;
            Ok(text)
        }
        Refusal::Named(kind, place, name) => {
            put_kind_and_place(&mut text, *kind, *place)?;
            put_name(&mut text, name.as_bytes())?;
            Ok(text)
        }
        Refusal::OutOfMemory => Err(AllocError),
    }
}
