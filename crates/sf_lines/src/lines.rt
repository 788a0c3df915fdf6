//! The first line of a text, and what comes after it.

ghost use Rattle.std.specs.Prelude.{◌≡◌, ◌∷◌, ◌≤◌, length};
ghost use Rattle.std.specs.Str.Lines.{strip_carriage_return};
ghost use Rattle.sf_lines.specs.Lines.{bytes_left, lines, lines_left};

use crate::signs::{bytes_before, from_index};

/// The line without the carriage return at its end.
fn without_return(line: &[u8]) -> &[u8]
    ensures { result.now ≡ strip_carriage_return line.now }
{
    match line {
        [front @ .., b'\r'] => front,
        _ => line,
    }
}

/// The first line of a text, and what comes after its line feed, if it has one.
pub fn next_line(text: &[u8]) -> (&[u8], Option<&[u8]>)
    ensures lines { lines text.now ≡ result.0.now ∷ lines_left result.1 }
    ensures shorter { bytes_left result.1 ≤ length text.now }
{
    let end = bytes_before(b'\n', text);
    if end == text.len() {
        return (without_return(text), None);
    }
    (
        without_return(&text[..end]),
        Some(from_index(text, end + 1)),
    )
}
