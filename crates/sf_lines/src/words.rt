//! The first word of a line, and what comes after it.

ghost use Rattle.std.specs.Prelude.{◌≡◌, ◌∷◌, ◌≤◌, ◌<◌, [], length, not, MatchOption, IfSome, Some, None};
ghost use Rattle.std.specs.List.{prefix_len};
ghost use Rattle.sf_lines.specs.Lines.{is_space, only, words};

use crate::signs::from_index;

/// Whether it separates words.
fn is_space(byte: u8) -> bool
    ensures { result ≡ is_space byte }
{
    byte == b' ' || byte == b'\t'
}

/// How many bytes come before the first that separates no words.
fn spaces(line: &[u8]) -> usize
    ensures length { result ≡ prefix_len is_space line.now }
    ensures within { result ≤ length line.now }
{
    line.iter().take_while(|byte| is_space(**byte)).count()
}

/// How many bytes come before the first that separates words.
fn word_length(line: &[u8]) -> usize
    ensures length { result ≡ prefix_len (λ b. not (is_space b)) line.now }
    ensures within { result ≤ length line.now }
{
    line.iter().take_while(|byte| !is_space(**byte)).count()
}

/// The first word of a line and what comes after it. `None` where the line has no word.
pub fn next_word(line: &[u8]) -> Option<(&[u8], &[u8])>
    ensures words { MatchOption result (words line.now ≡ [])
        (λ next. words line.now ≡ next.0.now ∷ words next.1.now) }
    ensures shorter { IfSome result (λ next. length next.1.now < length line.now) }
{
    let rest = from_index(line, spaces(line));
    let end = word_length(rest);
    if end == 0 {
        return None;
    }
    Some((&rest[..end], from_index(rest, end)))
}

/// The one word of a line. `None` where it has none, or more than one.
pub fn only_word(line: &[u8]) -> Option<&[u8]>
    ensures { MatchOption result (only (words line.now) ≡ None)
        (λ word. only (words line.now) ≡ Some word.now) }
{
    let (word, after) = next_word(line)?;
    match next_word(after) {
        Some(_) => None,
        None => Some(word),
    }
}
