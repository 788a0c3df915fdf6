//! The lines of a text, and one of them with a mark below it.

ghost use Rattle.std.specs.Prelude.{◌≤◌, length};

use itoa::Buffer;
use sf_base::Place;
use sf_lines::next_line;
use std::alloc::AllocError;

/// How many bytes of a line are shown at most.
const LINE_BYTES: usize = 160;
/// Up to which column a line is shown from its beginning.
const FIRST_COLUMNS: usize = 120;
/// How many bytes are shown before a mark further on.
const BEFORE: usize = 80;

/// Appends a text. An `Err` says that memory ran out.
pub fn put(text: &mut Vec<u8>, more: &str) -> Result<(), AllocError> {
    text.extend_from_slice(more.as_bytes())?;
    Ok(())
}

/// Appends a text and a number. An `Err` says that memory ran out.
pub fn put_number(text: &mut Vec<u8>, more: &str, number: u64) -> Result<(), AllocError> {
    put(text, more)?;
    put(text, Buffer::new().format(number))
}

/// The bytes from there on, none past the end.
fn from_index(bytes: &[u8], index: usize) -> &[u8] {
    if index <= bytes.len() {
        &bytes[index..]
    } else {
        &[]
    }
}

/// The text from the line of that number on, counted from 1; empty where there is none.
fn from_line(bytes: &[u8], line: u32) -> &[u8] {
    let mut left = bytes;
    for _ in 1..line {
        match next_line(left) {
            (_, Some(rest)) => left = rest,
            (_, None) => return &[],
        }
    }
    left
}

/// The line of that number, counted from 1, without its end; empty where there is none.
pub fn line_of(bytes: &[u8], line: u32) -> &[u8] {
    let (first, _) = next_line(from_line(bytes, line));
    first
}

/// How many bytes come before a place of the text; those of the whole text where it ends before.
pub fn offset_of(bytes: &[u8], place: Place) -> usize
    ensures { result ≤ length bytes.now }
{
    let left = from_line(bytes, place.line);
    let from = from_index(left, (place.column as usize).saturating_sub(1));
    bytes.len().saturating_sub(from.len())
}

/// A byte as it is shown: a blank for what would move the text, or more than that.
fn shown(byte: u8) -> u8 {
    if byte < 32 || byte == 127 { b' ' } else { byte }
}

/// Whether a byte begins a letter, as UTF-8 writes them.
fn is_first(byte: u8) -> bool {
    byte & 0xc0 != 0x80
}

/// Appends bytes as they are shown. An `Err` says that memory ran out.
fn put_shown(text: &mut Vec<u8>, bytes: &[u8]) -> Result<(), AllocError> {
    for byte in bytes {
        text.push(shown(*byte))?;
    }
    Ok(())
}

/// Appends so many blanks, or marks, as there are letters in the bytes. An `Err` says that memory
/// ran out.
fn put_under(text: &mut Vec<u8>, bytes: &[u8], sign: u8) -> Result<(), AllocError> {
    for byte in bytes {
        if is_first(*byte) {
            text.push(sign)?;
        }
    }
    Ok(())
}

/// Appends a number, with blanks before it up to that width. An `Err` says that memory ran out.
fn put_margin(text: &mut Vec<u8>, number: &str) -> Result<(), AllocError> {
    for _ in number.len()..5 {
        put(text, " ")?;
    }
    put(text, number)?;
    put(text, " | ")
}

/// Appends a line of the text with its number. An `Err` says that memory ran out.
pub fn put_line(text: &mut Vec<u8>, bytes: &[u8], line: u32) -> Result<(), AllocError> {
    let all = line_of(bytes, line);
    put_margin(text, Buffer::new().format(line))?;
    put_shown(text, upto(all, LINE_BYTES))?;
    put(text, "\n")
}

/// The first so many bytes.
fn upto(bytes: &[u8], count: usize) -> &[u8] {
    if count <= bytes.len() {
        &bytes[..count]
    } else {
        bytes
    }
}

/// Appends the line of a place with its number, and below it a mark under so many bytes from that
/// place on. Of a long line the part around the place is shown. An `Err` says that memory ran out.
pub fn put_source(
    text: &mut Vec<u8>,
    bytes: &[u8],
    place: Place,
    width: usize,
) -> Result<(), AllocError> {
    let all = line_of(bytes, place.line);
    let column = (place.column as usize).saturating_sub(1);
    let from = if column > FIRST_COLUMNS {
        column - BEFORE
    } else {
        0
    };
    let part = upto(from_index(all, from), LINE_BYTES);
    put_margin(text, Buffer::new().format(place.line))?;
    put_shown(text, part)?;
    put(text, "\n")?;
    put_margin(text, "")?;
    put_mark(text, part, column - from, width)
}

/// Appends a mark below part of a line: blanks under its first bytes, and marks under those that
/// follow. An `Err` says that memory ran out.
fn put_mark(
    text: &mut Vec<u8>,
    part: &[u8],
    column: usize,
    width: usize,
) -> Result<(), AllocError> {
    put_under(text, upto(part, column), b' ')?;
    put(text, "^")?;
    let marked = upto(from_index(part, column), width);
    put_under(text, from_index(marked, 1), b'^')?;
    put(text, "\n")
}
