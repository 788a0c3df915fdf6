ghost use Rattle.std.specs.Prelude.{◌≡◌, ◌≤◌, ◌<◌, ◌+◌, ◌-◌, ◌^◌, ◌⊎◌, length, IfOk, IfErr};
ghost use Rattle.sf_base.specs.Results.{Decides};
ghost use Rattle.sf_base.specs.declared.limits.TheConstants.{FILE_BYTES};
ghost use Rattle.sf_lex.specs.Checked.Lexing.{bytes_of, with_lexeme};
ghost use Rattle.sf_lex.specs.Reading.{AreTokens, IsFault, end_place, first_place, next_place, place_behind};

use crate::fault::LexFault;
use crate::lexeme::{Lexeme, next_lexeme};
use crate::symbols::from_index;
use crate::token::{Token, Tokens};
use sf_base::Place;
use sf_base::limits::FILE_BYTES;
use std::alloc::{AllocError, Global};

/// The place after one byte.
fn next_place(place: Place, byte: u8) -> Place
    requires line { place.line < 2 ^ 32 - 1 }
    requires column { place.column < 2 ^ 32 - 1 }
    ensures { result ≡ next_place place byte }
{
    if byte == b'\n' {
        Place {
            line: place.line + 1,
            column: 1,
        }
    } else {
        Place {
            line: place.line,
            column: place.column + 1,
        }
    }
}

/// The place after bytes.
fn place_behind(place: Place, bytes: &[u8]) -> Place
    requires line { place.line + length bytes.now < 2 ^ 32 }
    requires column { place.column + length bytes.now < 2 ^ 32 }
    ensures { result ≡ place_behind place bytes.now }
{
    let mut at = place;
    for byte in bytes {
        at = next_place(at, *byte);
    }
    at
}

/// The place of a file's first byte.
fn first_place() -> Place
    ensures { result ≡ first_place }
{
    Place { line: 1, column: 1 }
}

/// The tokens so far and the next one, if a token is there.
fn keep(
    found: &mut Vec<Token>,
    lexeme: Lexeme,
    start: usize,
    place: Place,
) -> Result<(), AllocError>
    requires within { start + bytes_of lexeme ≤ FILE_BYTES }
    ensures { IfOk result (λ _. found.new.items
        ≡ with_lexeme found.old.items lexeme start place) }
{
    match lexeme {
        Lexeme::Space(_) => Ok(()),
        Lexeme::Token(kind, bytes, value) => {
            found.push(Token {
                kind,
                value,
                start,
                end: start + bytes,
                place,
            })?;
            Ok(())
        }
    }
}

/// How many bytes the lexeme takes.
fn bytes_of(lexeme: Lexeme) -> usize
    ensures { result ≡ bytes_of lexeme }
{
    match lexeme {
        Lexeme::Space(bytes) => bytes,
        Lexeme::Token(_, bytes, _) => bytes,
    }
}

/// The tokens of a file, piece by piece.
fn scan(alloc: Global, bytes: &[u8]) -> Result<Tokens, LexFault>
    requires { length bytes.now ≤ FILE_BYTES }
    ensures found { IfOk result (λ tokens. AreTokens bytes.now tokens.items.items) }
    ensures end { IfOk result (λ tokens. tokens.end ≡ end_place bytes.now) }
    ensures refused { IfErr result
        (λ fault. (fault ≡ LexFault.OutOfMemory) ⊎ IsFault bytes.now fault) }
{
    let mut found = Vec::new(alloc);
    let mut start: usize = 0;
    let mut place = first_place();
    while start < bytes.len() {
        let lexeme = next_lexeme(place, from_index(bytes, start))?;
        let end = start + bytes_of(lexeme);
        let Ok(()) = keep(&mut found, lexeme, start, place) else {
            return Err(LexFault::OutOfMemory);
        };
        place = place_behind(place, &bytes[start..end]);
        start = end;
    }
    Ok(Tokens {
        items: found,
        end: place,
    })
}

/// The tokens of a file, in order: the longest that fit, between blanks and comments; and the
/// place where the file ends.
///
/// Refused with `LongFile` where the file has more than 1,048,576 bytes, else with the first fault
/// of another kind and its place, exactly where there is one, or where memory runs out.
pub fn tokens(alloc: Global, bytes: &[u8]) -> Result<Tokens, LexFault>
    ensures decides { Decides result (λ found. found.items.items)
        (AreTokens bytes.now) (IsFault bytes.now) LexFault.OutOfMemory }
    ensures end { IfOk result (λ found. found.end ≡ end_place bytes.now) }
{
    if bytes.len() > FILE_BYTES {
        return Err(LexFault::LongFile);
    }
    scan(alloc, bytes)
}
