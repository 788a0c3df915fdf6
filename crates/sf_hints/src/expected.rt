//! What could stand at a place: the tokens with which the text before it is still the beginning of a
//! file. The parser says so of each, since it refuses the first token that can't continue any file.

use crate::words::spelling;
use sf_base::Place;
use sf_lex::{Kind, tokens};
use sf_parse::{ParseFault, parse};
use std::alloc::{AllocError, Global};

/// The kinds of tokens, the free ones first.
const KINDS: &[Kind] = &[
    Kind::Name,
    Kind::Existential,
    Kind::Number,
    Kind::Nil,
    Kind::OpenRound,
    Kind::CloseRound,
    Kind::OpenSquare,
    Kind::CloseSquare,
    Kind::OpenBrace,
    Kind::CloseBrace,
    Kind::Comma,
    Kind::Semicolon,
    Kind::Colon,
    Kind::Star,
    Kind::Equals,
    Kind::EqualEqual,
    Kind::NotEqual,
    Kind::Arrow,
    Kind::PointsTo,
    Kind::Bars,
    Kind::Local,
    Kind::If,
    Kind::Then,
    Kind::Else,
    Kind::While,
    Kind::With,
    Kind::When,
    Kind::New,
    Kind::Dispose,
    Kind::True,
    Kind::Emp,
    Kind::List,
    Kind::Ls,
    Kind::Dll,
    Kind::Tree,
    Kind::Resource,
];

/// What could stand at a place.
#[derive(Debug, Drop)]
pub struct Expected {
    /// The kinds of tokens that could.
    pub kinds: Vec<Kind>,
    /// Whether the file could end there.
    pub end: bool,
}

/// The least text of a token of that kind.
fn sample(kind: Kind) -> &'static str {
    match kind {
        Kind::Name => "x",
        Kind::Existential => "_x",
        Kind::Number => "0",
        other => spelling(other),
    }
}

/// Whether the fault is the last token, which is at that place.
fn is_at(fault: &ParseFault, last: Place) -> bool {
    match fault {
        ParseFault::Unexpected(place) => *place == last,
        ParseFault::TooDeep(place) => *place == last,
        ParseFault::OutOfMemory => true,
    }
}

/// Whether the text goes on with that token.
fn can_follow(alloc: Global, before: &[u8], kind: Kind) -> Result<bool, AllocError> {
    let mut bytes = Vec::from_slice(alloc, before)?;
    bytes.extend_from_slice(b" ")?;
    bytes.extend_from_slice(sample(kind).as_bytes())?;
    let Ok(found) = tokens(alloc, bytes.as_slice()) else {
        return Ok(false);
    };
    let Some(last) = found.items.as_slice().last() else {
        return Ok(false);
    };
    match parse(alloc, &found) {
        Ok(_) => Ok(true),
        Err(fault) => Ok(!is_at(&fault, last.place)),
    }
}

/// Whether a file may end after the text.
fn can_end(alloc: Global, before: &[u8]) -> bool {
    match tokens(alloc, before) {
        Ok(found) => parse(alloc, &found).is_ok(),
        Err(_) => false,
    }
}

/// Whether some file begins with the text.
fn is_beginning(alloc: Global, before: &[u8]) -> bool {
    let Ok(found) = tokens(alloc, before) else {
        return false;
    };
    match parse(alloc, &found) {
        Ok(_) => true,
        Err(ParseFault::Unexpected(place)) => place == found.end,
        Err(ParseFault::TooDeep(_)) | Err(ParseFault::OutOfMemory) => false,
    }
}

/// What could stand after a text; nothing where no file begins with it. An `Err` says that memory ran
/// out.
pub fn expected_at(alloc: Global, before: &[u8]) -> Result<Expected, AllocError> {
    let mut kinds = Vec::new(alloc);
    if !is_beginning(alloc, before) {
        return Ok(Expected { kinds, end: false });
    }
    for kind in KINDS {
        if can_follow(alloc, before, *kind)? {
            kinds.push(*kind)?;
        }
    }
    Ok(Expected {
        kinds,
        end: can_end(alloc, before),
    })
}
