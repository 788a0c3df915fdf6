ghost use Rattle.std.specs.Prelude.{◌≡◌, ◌≤◌, drop, length, slice_index};
ghost use Rattle.sf_lex.specs.Lexeme.{symbol_of_one, symbol_of_two, symbol_of_three};
ghost use Rattle.sf_lex.specs.Checked.Lexing.{symbol_lexeme};

use crate::token::Kind;

/// The byte there, and 0 after the last one.
pub fn byte_at(bytes: &[u8], index: usize) -> u8
    ensures { result ≡ slice_index bytes.now index }
{
    match bytes.get(index) {
        Some(byte) => *byte,
        None => 0,
    }
}

/// The bytes from there on.
pub fn from_index(bytes: &[u8], index: usize) -> &[u8]
    requires { index ≤ length bytes.now }
    ensures { result.now ≡ drop index bytes.now }
{
    &bytes[index..]
}

/// The symbol of one byte.
fn symbol_of_one(byte: u8) -> Option<Kind>
    ensures { result ≡ symbol_of_one byte }
{
    match byte {
        b'(' => Some(Kind::OpenRound),
        b')' => Some(Kind::CloseRound),
        b'[' => Some(Kind::OpenSquare),
        b']' => Some(Kind::CloseSquare),
        b'{' => Some(Kind::OpenBrace),
        b'}' => Some(Kind::CloseBrace),
        b',' => Some(Kind::Comma),
        b';' => Some(Kind::Semicolon),
        b':' => Some(Kind::Colon),
        b'*' => Some(Kind::Star),
        b'=' => Some(Kind::Equals),
        _ => None,
    }
}

/// The symbol of two bytes.
fn symbol_of_two(first: u8, second: u8) -> Option<Kind>
    ensures { result ≡ symbol_of_two first second }
{
    match (first, second) {
        (b'=', b'=') => Some(Kind::EqualEqual),
        (b'!', b'=') => Some(Kind::NotEqual),
        (b'-', b'>') => Some(Kind::Arrow),
        (b'|', b'|') => Some(Kind::Bars),
        _ => None,
    }
}

/// The symbol of three bytes.
fn symbol_of_three(first: u8, second: u8, third: u8) -> Option<Kind>
    ensures { result ≡ symbol_of_three first second third }
{
    match (first, second, third) {
        (b'|', b'-', b'>') => Some(Kind::PointsTo),
        _ => None,
    }
}

/// The longest symbol next, and its length.
pub fn symbol(bytes: &[u8]) -> Option<(Kind, usize)>
    ensures { result ≡ symbol_lexeme bytes.now }
{
    let first = byte_at(bytes, 0);
    let second = byte_at(bytes, 1);
    if let Some(kind) = symbol_of_three(first, second, byte_at(bytes, 2)) {
        return Some((kind, 3));
    }
    if let Some(kind) = symbol_of_two(first, second) {
        return Some((kind, 2));
    }
    match symbol_of_one(first) {
        Some(kind) => Some((kind, 1)),
        None => None,
    }
}
