//! Why a file is refused: the place, the line with a mark below it, what could stand there, and a hint.

use crate::reading::Refusal;
use crate::reply::Said;
use sf_base::{Name, Place};
use sf_elab::NameFault;
use sf_hints::{
    Slip, expected_at, offset_of, put, put_hint, put_number, put_source, slip_of_byte,
    slip_of_name, slip_of_part, slip_of_token, spelling,
};
use sf_lex::{Kind, LexFault, Tokens, tokens};
use sf_parse::ParseFault;
use sf_precise::OrderFault;
use sf_vars::VarFault;
use std::alloc::{AllocError, Global};

/// What is told of a refusal.
#[derive(Clone, Copy)]
pub struct Refused<'a> {
    /// Its number and its word, as `smallfoot` prints them.
    pub kind: &'static str,
    /// Where it is.
    pub place: Place,
    /// The name at fault, if there is one.
    pub name: Option<&'a Name>,
    /// Whether what could stand there tells something.
    pub is_grammar: bool,
    /// The slip that is known of its kind alone.
    pub slip: Option<Slip>,
}

impl<'a> Refused<'a> {
    /// What is told of a fault of that kind, at that place.
    fn at(kind: &'static str, place: Place, slip: Option<Slip>) -> Refused<'a> {
        Refused {
            kind,
            place,
            name: None,
            is_grammar: false,
            slip,
        }
    }

    /// What is told of a fault of that kind, at that place, with that name.
    fn named(kind: &'static str, place: Place, name: &'a Name, slip: Slip) -> Refused<'a> {
        Refused {
            kind,
            place,
            name: Some(name),
            is_grammar: false,
            slip: Some(slip),
        }
    }

    /// What is told of a fault of the grammar, or of a byte.
    fn of_grammar(kind: &'static str, place: Place) -> Refused<'a> {
        Refused {
            kind,
            place,
            name: None,
            is_grammar: true,
            slip: None,
        }
    }
}

/// What is told of bytes that are no tokens.
fn of_bytes<'a>(fault: &LexFault) -> Option<Refused<'a>> {
    let first = Place { line: 1, column: 1 };
    match fault {
        LexFault::BadByte(place) => Some(Refused::of_grammar("1 BadByte", *place)),
        LexFault::LongWord(place) => Some(Refused::at("2 LongWord", *place, Some(Slip::LongWord))),
        LexFault::OpenComment(place) => {
            Some(Refused::at("3 OpenComment", *place, Some(Slip::OpenComment)))
        }
        LexFault::BadNumber(place) => {
            Some(Refused::at("4 BadNumber", *place, Some(Slip::BadNumber)))
        }
        LexFault::LongFile => Some(Refused::at("5 LongFile", first, Some(Slip::LongFile))),
        LexFault::OutOfMemory => None,
    }
}

/// What is told of tokens that are no file.
fn of_tokens<'a>(fault: &ParseFault) -> Option<Refused<'a>> {
    match fault {
        ParseFault::Unexpected(place) => Some(Refused::of_grammar("10 Unexpected", *place)),
        ParseFault::TooDeep(place) => Some(Refused::at("11 TooDeep", *place, Some(Slip::TooDeep))),
        ParseFault::OutOfMemory => None,
    }
}

/// What is told of wrong names.
fn of_names(fault: &NameFault) -> Option<Refused<'_>> {
    let (kind, place, name, slip) = match fault {
        NameFault::UnknownName(place, name) => {
            let slip = slip_of_name(name.as_bytes()).unwrap_or(Slip::Undeclared);
            ("20 UnknownName", place, name, slip)
        }
        NameFault::Twice(place, name) => ("21 Twice", place, name, Slip::DeclaredTwice),
        NameFault::Arity(place, name) => ("22 Arity", place, name, Slip::ReferencesThenValues),
        NameFault::OwnedTwice(place, name) => ("23 OwnedTwice", place, name, Slip::OneOwner),
        NameFault::ForeignVariable(place, name) => {
            ("24 ForeignVariable", place, name, Slip::OwnVariables)
        }
        NameFault::MissingField(place, name) => {
            ("25 MissingField", place, name, Slip::DeclareFields)
        }
        NameFault::TooMany(place) => {
            return Some(Refused::at("26 TooMany", *place, Some(Slip::TooMany)));
        }
        NameFault::InitShape(place, name) => ("28 InitShape", place, name, Slip::InitShape),
        NameFault::InitCalled(place, name) => ("29 InitCalled", place, name, Slip::InitCalled),
        NameFault::OutOfMemory => return None,
    };
    Some(Refused::named(kind, *place, name, slip))
}

/// What is told of a condition on variables that is broken.
fn of_variables(fault: &VarFault) -> Option<Refused<'_>> {
    let (kind, place, name, slip) = match fault {
        VarFault::NotHeld(place, name) => ("30 NotHeld", place, name, Slip::EnterFirst),
        VarFault::Reentered(place, name) => ("31 Reentered", place, name, Slip::EnteredAgain),
        VarFault::SameReference(place, name) => {
            ("32 SameReference", place, name, Slip::TwoVariables)
        }
        VarFault::ReferenceIsFree(place, name) => {
            ("33 ReferenceIsFree", place, name, Slip::UsedByCallee)
        }
        VarFault::ParallelShares(place, name) => ("34 ParallelShares", place, name, Slip::TwoTasks),
        VarFault::OutOfMemory => return None,
    };
    Some(Refused::named(kind, *place, name, slip))
}

/// What is told of an annotation that isn't determined.
fn of_annotation<'a>(fault: &OrderFault) -> Option<Refused<'a>> {
    match fault {
        OrderFault::Undetermined(place) => Some(Refused::at("40 Undetermined", *place, None)),
        OrderFault::OutOfMemory => None,
    }
}

/// What is told of a refusal; nothing where memory ran out.
pub fn refused_of(refusal: &Refusal) -> Option<Refused<'_>> {
    match refusal {
        Refusal::Bytes(fault) => of_bytes(fault),
        Refusal::Grammar(fault) => of_tokens(fault),
        Refusal::Names(fault) => of_names(fault),
        Refusal::Variables(fault) => of_variables(fault),
        Refusal::Annotation(fault) => of_annotation(fault),
        Refusal::OutOfMemory => None,
    }
}

/// The number of the token at a place; that of all tokens where none is there.
fn token_at(found: &Tokens, place: Place) -> usize {
    let mut number: usize = 0;
    for token in found.items.as_slice() {
        if token.place == place {
            break;
        }
        number = number.saturating_add(1);
    }
    number
}

/// The byte there, and 0 after the last one.
fn byte_at(bytes: &[u8], index: usize) -> u8 {
    match bytes.get(index) {
        Some(byte) => *byte,
        None => 0,
    }
}

/// The slip behind a fault of the grammar, or of a byte.
fn slip_at(alloc: Global, bytes: &[u8], place: Place) -> Option<Slip> {
    match tokens(alloc, bytes) {
        Ok(found) => slip_of_token(bytes, found.items.as_slice(), token_at(&found, place)),
        Err(_) => {
            let at = offset_of(bytes, place);
            let next = byte_at(bytes, at.saturating_add(1));
            slip_of_byte(alloc, &bytes[..at], byte_at(bytes, at), next)
        }
    }
}

/// The kind of the token at a place, if one is there.
fn kind_at(alloc: Global, bytes: &[u8], place: Place) -> Option<Kind> {
    let Ok(found) = tokens(alloc, bytes) else {
        return None;
    };
    let number = token_at(&found, place);
    match found.items.as_slice().get(number) {
        Some(token) => Some(token.kind),
        None => None,
    }
}

/// The slip behind a refusal, if one is known.
pub fn slip_behind(alloc: Global, bytes: &[u8], refused: &Refused<'_>) -> Option<Slip> {
    if refused.is_grammar {
        return slip_at(alloc, bytes, refused.place);
    }
    match refused.slip {
        Some(slip) => Some(slip),
        None => Some(slip_of_part(kind_at(alloc, bytes, refused.place))),
    }
}

/// How many bytes the token at a place has; one where none is there.
pub fn width_at(alloc: Global, bytes: &[u8], place: Place) -> usize {
    let Ok(found) = tokens(alloc, bytes) else {
        return 1;
    };
    let number = token_at(&found, place);
    match found.items.as_slice().get(number) {
        Some(token) => token.end.saturating_sub(token.start),
        None => 1,
    }
}

/// Appends a token as it is written, between marks; a word for it where its text is free. An `Err`
/// says that memory ran out.
fn put_kind(text: &mut Vec<u8>, kind: Kind) -> Result<(), AllocError> {
    match kind {
        Kind::Name | Kind::Existential | Kind::Number => put(text, spelling(kind)),
        other => {
            put(text, "`")?;
            put(text, spelling(other))?;
            put(text, "`")
        }
    }
}

/// Appends what could stand after the bytes, if anything is known of that. An `Err` says that memory
/// ran out.
fn put_expected(text: &mut Vec<u8>, alloc: Global, before: &[u8]) -> Result<(), AllocError> {
    let expected = expected_at(alloc, before)?;
    let mut sign = "could stand here: ";
    for kind in &expected.kinds {
        put(text, sign)?;
        put_kind(text, *kind)?;
        sign = ", ";
    }
    if expected.end {
        put(text, sign)?;
        put(text, "the file's end")?;
        sign = ", ";
    }
    if sign == ", " {
        put(text, "\n")?;
    }
    Ok(())
}

/// Appends `FILE:LINE:COLUMN: `. An `Err` says that memory ran out.
pub fn put_place(text: &mut Vec<u8>, file: &str, place: Place) -> Result<(), AllocError> {
    put(text, file)?;
    put_number(text, ":", u64::from(place.line))?;
    put_number(text, ":", u64::from(place.column))?;
    put(text, ": ")
}

/// Appends why the file of that name, which has these bytes, is refused. An `Err` says that memory ran
/// out.
fn put_refused(
    text: &mut Vec<u8>,
    alloc: Global,
    file: &str,
    bytes: &[u8],
    refused: &Refused<'_>,
) -> Result<(), AllocError> {
    put_place(text, file, refused.place)?;
    put(text, "file refused: ")?;
    put(text, refused.kind)?;
    if let Some(name) = refused.name {
        put(text, " ")?;
        text.extend_from_slice(name.as_bytes())?;
    }
    put(text, "\n")?;
    put_source(
        text,
        bytes,
        refused.place,
        width_at(alloc, bytes, refused.place),
    )?;
    if refused.is_grammar {
        put_expected(text, alloc, &bytes[..offset_of(bytes, refused.place)])?;
    }
    if let Some(slip) = slip_behind(alloc, bytes, refused) {
        put(text, "hint: ")?;
        put_hint(text, slip)?;
        put(text, "\n")?;
    }
    Ok(())
}

/// Why the file of that name, which has these bytes, is refused. An `Err` says that memory ran out,
/// which is also the answer where that was the cause.
pub fn say_refused(
    alloc: Global,
    file: &str,
    bytes: &[u8],
    refusal: &Refusal,
) -> Result<Said, AllocError> {
    let Some(refused) = refused_of(refusal) else {
        return Err(AllocError);
    };
    let mut text = Vec::new(alloc);
    put_refused(&mut text, alloc, file, bytes, &refused)?;
    Ok(Said { text, status: 3 })
}
