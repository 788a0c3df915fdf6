//! What a word begins with.

ghost use Rattle.std.specs.Prelude.{◌≡◌};
ghost use Rattle.sf_state.specs.Words.{begins};

/// Whether it begins with that byte.
pub(crate) fn begins(byte: u8, text: &[u8]) -> bool
    ensures { result ≡ begins byte text.now }
{
    match text {
        [first, ..] => *first == byte,
        _ => false,
    }
}
