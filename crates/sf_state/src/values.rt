//! Which value a word writes.

ghost use Rattle.std.specs.Prelude.{◌≡◌};
ghost use Rattle.sf_state.specs.Values.{is_location, is_nil, location_from, numbered_by, value_from};

use sf_base::Value;
use sf_base::limits::LOCATIONS;
use sf_lex::number;

/// Whether the number is that of a location.
fn is_location(n: u64) -> bool
    ensures { result ≡ is_location n }
{
    1 <= n && n < LOCATIONS
}

/// The location that digits write.
fn numbered_by(digits: &[u8]) -> Option<u64>
    ensures { result ≡ numbered_by digits.now }
{
    let digit = matches!(digits, [first, ..] if first.is_ascii_digit());
    if !digit {
        return None;
    }
    match u64::try_from(number(digits)?) {
        Ok(n) if is_location(n) => Some(n),
        _ => None,
    }
}

/// The location that `@` and digits write.
pub(crate) fn location(word: &[u8]) -> Option<u64>
    ensures { result ≡ location_from word.now }
{
    match word {
        [b'@', digits @ ..] => numbered_by(digits),
        _ => None,
    }
}

/// Whether it is the word for nil.
fn is_nil(word: &[u8]) -> bool
    ensures { result ≡ is_nil word.now }
{
    word == b"nil".as_slice() || word == b"NULL".as_slice()
}

/// The value that a word writes.
pub(crate) fn value(word: &[u8]) -> Option<Value>
    ensures { result ≡ value_from word.now }
{
    if is_nil(word) {
        return Some(Value::Nil);
    }
    if let Some(location) = location(word) {
        return Some(Value::Loc(location));
    }
    Some(Value::Int(number(word)?))
}
