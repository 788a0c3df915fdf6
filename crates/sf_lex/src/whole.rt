//! Whole texts: whether one is a name, and which number it writes.

ghost use Rattle.std.specs.Prelude.{◌≡◌};
ghost use Rattle.std.specs.List.{list_all};
ghost use Rattle.sf_lex.specs.Lexeme.{is_digit, is_number, is_word_byte};
ghost use Rattle.sf_lex.specs.Whole.{is_name, number_of};

use crate::lexeme::{is_word_byte, value};
use crate::token::Kind;
use crate::words::word_kind;
use sf_base::limits::NAME_BYTES;

/// Whether each byte may occur in a word.
fn are_word_bytes(bytes: &[u8]) -> bool
    ensures { result ≡ list_all is_word_byte bytes.now }
{
    bytes.iter().all(|byte| is_word_byte(*byte))
}

/// Whether each byte is a digit.
fn are_digits(bytes: &[u8]) -> bool
    ensures { result ≡ list_all is_digit bytes.now }
{
    bytes.iter().all(|byte| byte.is_ascii_digit())
}

/// Whether the text is a name: a letter, then letters, digits and `_`, at most 64 bytes in all, and
/// no reserved word.
pub fn is_name(text: &[u8]) -> bool
    ensures { result ≡ is_name text.now }
{
    match text {
        [first, rest @ ..] => {
            if !first.is_ascii_alphabetic() || !are_word_bytes(rest) {
                return false;
            }
            if word_kind(text) != Kind::Name {
                return false;
            }
            text.len() <= NAME_BYTES
        }
        _ => false,
    }
}

/// Whether the text is digits, with a `-` before them or none.
fn is_number(text: &[u8]) -> bool
    ensures { result ≡ is_number text.now }
{
    match text {
        [b'-', first, rest @ ..] => first.is_ascii_digit() && are_digits(rest),
        [first, rest @ ..] => first.is_ascii_digit() && are_digits(rest),
        _ => false,
    }
}

/// The number that the text writes: digits, with a `-` before them or none. `None` exactly where it
/// is no such text, or one of a number outside 64 bits.
pub fn number(text: &[u8]) -> Option<i64>
    ensures { result ≡ number_of text.now }
{
    if is_number(text) { value(text) } else { None }
}
