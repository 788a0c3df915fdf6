ghost use Rattle.std.specs.Prelude.{◌≡◌, ◌<◌, ◌≤◌, ◌∷◌, true, false, length, drop, take, slice_index, if◌then◌else◌, MatchResult};
ghost use Rattle.std.specs.List.{prefix_len};
ghost use Rattle.std.specs.Str.{IsAscii};
ghost use Rattle.std.specs.Str.Parse.{IsNumeral, without_leading_sign, signed_digits_value};
ghost use Rattle.sf_lex.specs.Checked.Lexing.{IsNext, begins_comment, begins_number, close_length, number_length, word_length};
ghost use Rattle.sf_lex.specs.Lexeme.{is_blank, is_digit, is_letter, is_word_byte};
ghost use Rattle.sf_lex.specs.Piece.{fits, is_long_word};
ghost use Rattle.sf_lex.specs.Reading.{IsFaultAt};

use crate::fault::LexFault;
use crate::symbols::{byte_at, from_index, symbol};
use crate::token::Kind;
use crate::words::word_kind;
use sf_base::Place;
use sf_base::limits::NAME_BYTES;
use std::str;

/// What is next in the bytes that are left.
#[derive(Clone, Copy, Debug, PartialEq, Eq)]
pub enum Lexeme {
    /// A blank or a comment of that many bytes.
    Space(usize),
    /// A token of that many bytes, and what it writes where it is a number, else 0.
    Token(Kind, usize, i64),
}

/// Whether it separates tokens.
fn is_blank(byte: u8) -> bool
    ensures { result ≡ is_blank byte }
{
    byte == b' ' || byte == b'\t' || byte == b'\r' || byte == b'\n'
}

/// Whether it may occur in a word, after the first byte.
pub fn is_word_byte(byte: u8) -> bool
    ensures { result ≡ is_word_byte byte }
{
    byte.is_ascii_alphanumeric() || byte == b'_'
}

/// How many bytes next may occur in a word.
fn word_length(bytes: &[u8]) -> usize
    ensures length { result ≡ word_length bytes.now }
    ensures within { result ≤ length bytes.now }
{
    bytes.iter().take_while(|byte| is_word_byte(**byte)).count()
}

/// How many digits are next.
fn digits(bytes: &[u8]) -> usize
    ensures length { result ≡ prefix_len is_digit bytes.now }
    ensures within { result ≤ length bytes.now }
{
    bytes
        .iter()
        .take_while(|byte| byte.is_ascii_digit())
        .count()
}

/// Whether a comment begins.
fn begins_comment(bytes: &[u8]) -> bool
    ensures { result ≡ begins_comment bytes.now }
{
    byte_at(bytes, 0) == b'/' && byte_at(bytes, 1) == b'*'
}

/// Whether a number begins.
fn begins_number(bytes: &[u8]) -> bool
    ensures { result ≡ begins_number bytes.now }
{
    match bytes {
        [b'-', second, ..] => second.is_ascii_digit(),
        [first, ..] => first.is_ascii_digit(),
        _ => false,
    }
}

/// How long the number next is.
fn number_length(bytes: &[u8]) -> usize
    ensures length { result ≡ number_length bytes.now }
    ensures within { result ≤ length bytes.now }
{
    match bytes {
        [b'-', rest @ ..] => 1 + digits(rest),
        _ => digits(bytes),
    }
}

/// How many bytes it takes to the first `*/`, with it.
fn close_length(inside: &[u8]) -> Option<usize>
    ensures { result ≡ close_length inside.now }
{
    for i in 0..inside.len() {
        if inside[i] == b'*' && byte_at(inside, i + 1) == b'/' {
            return Some(i + 2);
        }
    }
    None
}

/// Those bytes as a text.
fn ascii(bytes: &[u8]) -> &str
    requires { IsAscii bytes.now }
    ensures { result.now ≡ bytes.now }
{
    match str::from_utf8(bytes) {
        Ok(text) => text,
        Err(_) => unreachable!(),
    }
}

/// The number, if it fits 64 bits.
pub fn value(text: &[u8]) -> Option<i64>
    requires ascii { IsAscii text.now }
    requires numeral { IsNumeral 10 (without_leading_sign text.now) }
    ensures { result ≡ (if fits (signed_digits_value 10 text.now) then Some
        (signed_digits_value 10 text.now) else None) }
{
    match i64::from_str_radix(ascii(text), 10) {
        Ok(value) => Some(value),
        Err(_) => None,
    }
}

/// The comment next.
fn comment(place: Place, bytes: &[u8]) -> Result<Lexeme, LexFault>
    requires { begins_comment bytes.now ≡ true }
    ensures { MatchResult result (λ lexeme. IsNext lexeme bytes.now)
        (λ fault. IsFaultAt fault bytes.now place) }
{
    match close_length(from_index(bytes, 2)) {
        Some(length) => Ok(Lexeme::Space(2 + length)),
        None => Err(LexFault::OpenComment(place)),
    }
}

/// Whether a word of so many bytes is longer than it may be.
fn is_long_word(kind: Kind, bytes: usize) -> bool
    ensures { result ≡ is_long_word kind bytes }
{
    match kind {
        Kind::Name | Kind::Existential => bytes > NAME_BYTES,
        _ => false,
    }
}

/// The name or reserved word next.
fn word(place: Place, bytes: &[u8]) -> Result<Lexeme, LexFault>
    requires some { 0 < length bytes.now }
    requires letter { is_letter (slice_index bytes.now 0) ≡ true }
    ensures { MatchResult result (λ lexeme. IsNext lexeme bytes.now)
        (λ fault. IsFaultAt fault bytes.now place) }
{
    let length = word_length(bytes);
    let kind = word_kind(&bytes[..length]);
    if is_long_word(kind, length) {
        return Err(LexFault::LongWord(place));
    }
    Ok(Lexeme::Token(kind, length, 0))
}

/// The existential next, or the lone `_`.
fn existential(place: Place, bytes: &[u8]) -> Result<Lexeme, LexFault>
    requires some { 0 < length bytes.now }
    requires underscore { slice_index bytes.now 0 ≡ 95 }
    ensures { MatchResult result (λ lexeme. IsNext lexeme bytes.now)
        (λ fault. IsFaultAt fault bytes.now place) }
{
    let length = word_length(bytes);
    if length < 2 {
        return Err(LexFault::BadByte(place));
    }
    if is_long_word(Kind::Existential, length) {
        return Err(LexFault::LongWord(place));
    }
    Ok(Lexeme::Token(Kind::Existential, length, 0))
}

/// The number of so many bytes, unless it is outside 64 bits or directly before a letter or
/// `_`.
fn good_number(bytes: &[u8], end: usize) -> Option<i64>
    requires within { end ≤ length bytes.now }
    requires ascii { IsAscii (take end bytes.now) }
    requires numeral { IsNumeral 10 (without_leading_sign (take end bytes.now)) }
    ensures { result ≡ (if fits (signed_digits_value 10 (take end bytes.now)) then
        (if is_word_byte (slice_index bytes.now end) then None else Some
        (signed_digits_value 10 (take end bytes.now))) else None) }
{
    let value = value(&bytes[..end])?;
    if is_word_byte(byte_at(bytes, end)) {
        return None;
    }
    Some(value)
}

/// The number next.
fn number(place: Place, bytes: &[u8]) -> Result<Lexeme, LexFault>
    requires { begins_number bytes.now ≡ true }
    ensures { MatchResult result (λ lexeme. IsNext lexeme bytes.now)
        (λ fault. IsFaultAt fault bytes.now place) }
{
    let length = number_length(bytes);
    match good_number(bytes, length) {
        Some(value) => Ok(Lexeme::Token(Kind::Number, length, value)),
        None => Err(LexFault::BadNumber(place)),
    }
}

/// What is next.
pub fn next_lexeme(place: Place, bytes: &[u8]) -> Result<Lexeme, LexFault>
    requires { 0 < length bytes.now }
    ensures { MatchResult result (λ lexeme. IsNext lexeme bytes.now)
        (λ fault. IsFaultAt fault bytes.now place) }
{
    if is_blank(bytes[0]) {
        return Ok(Lexeme::Space(1));
    }
    if begins_comment(bytes) {
        return comment(place, bytes);
    }
    if bytes[0].is_ascii_alphabetic() {
        return word(place, bytes);
    }
    if bytes[0] == b'_' {
        return existential(place, bytes);
    }
    if begins_number(bytes) {
        return number(place, bytes);
    }
    match symbol(bytes) {
        Some((kind, length)) => Ok(Lexeme::Token(kind, length, 0)),
        None => Err(LexFault::BadByte(place)),
    }
}
