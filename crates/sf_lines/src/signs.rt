//! What is before a sign, and what after it.

ghost use Rattle.std.specs.Prelude.{◌≡◌, ◌≤◌, drop, length, MatchOption, Some, None};
ghost use Rattle.sf_lines.specs.Lines.{bytes_before, split_once};

/// How many bytes come before the first such byte.
pub(crate) fn bytes_before(sign: u8, text: &[u8]) -> usize
    ensures length { result ≡ bytes_before sign text.now }
    ensures within { result ≤ length text.now }
{
    text.iter().take_while(|byte| **byte != sign).count()
}

/// The bytes from there on.
pub(crate) fn from_index(bytes: &[u8], index: usize) -> &[u8]
    requires { index ≤ length bytes.now }
    ensures { result.now ≡ drop index bytes.now }
{
    &bytes[index..]
}

/// What is before the first such byte, and what after it. `None` where there is none.
pub fn split_once(sign: u8, text: &[u8]) -> Option<(&[u8], &[u8])>
    ensures { MatchOption result (split_once sign text.now ≡ None)
        (λ parts. split_once sign text.now ≡ Some (parts.0.now, parts.1.now)) }
{
    let end = bytes_before(sign, text);
    if end >= text.len() {
        return None;
    }
    Some((&text[..end], from_index(text, end + 1)))
}
