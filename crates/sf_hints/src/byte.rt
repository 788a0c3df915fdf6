//! The slip behind a byte that begins no token.

use crate::context::{Inside, surrounding};
use crate::slip::Slip;
use sf_lex::tokens;
use std::alloc::Global;

/// Whether the bytes before a place end inside the square brackets of an assertion.
fn is_in_assertion(alloc: Global, before: &[u8]) -> bool {
    match tokens(alloc, before) {
        Ok(found) => surrounding(found.items.as_slice(), found.items.len()) == Inside::Square,
        Err(_) => false,
    }
}

/// The slip behind two bytes of which the first begins no token, after others which are tokens.
pub fn slip_of_byte(alloc: Global, before: &[u8], byte: u8, next: u8) -> Option<Slip> {
    match (byte, next) {
        (b'/', b'/') | (b'#', _) => Some(Slip::Comment),
        (b'&', b'&') if is_in_assertion(alloc, before) => Some(Slip::JoinedByStar),
        (b'&', b'&') => Some(Slip::NoConnective),
        (b'&', _) => Some(Slip::NoAddress),
        (b'|', _) => Some(Slip::OneBar),
        (b'<', _) | (b'>', _) => Some(Slip::NoOrder),
        (b'.', _) => Some(Slip::NoDot),
        (b'!', _) => Some(Slip::NoNegation),
        (b'?', _) => Some(Slip::NoChoice),
        (b'@', _) => Some(Slip::NoLocation),
        (b'"', _) | (b'\'', _) => Some(Slip::NoText),
        _ => of_sum(byte),
    }
}

/// The slip behind the sign of a sum, or of a letter that isn't ASCII.
fn of_sum(byte: u8) -> Option<Slip> {
    match byte {
        b'+' | b'-' | b'/' | b'%' | b'^' | b'~' => Some(Slip::NoSum),
        128..=255 => Some(Slip::NotAscii),
        _ => None,
    }
}
