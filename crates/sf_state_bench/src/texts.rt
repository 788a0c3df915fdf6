//! Texts of states with cells at the locations from 1 on, which are a list from 1 on.

use itoa::Buffer;
use std::alloc::{AllocError, Global};

/// Appends a number.
fn put_number(text: &mut Vec<u8>, number: u64) -> Result<(), AllocError> {
    text.extend_from_slice(Buffer::new().format(number).as_bytes())?;
    Ok(())
}

/// Appends the line of a cell with the location of the next one, if there is one.
fn put_cell(text: &mut Vec<u8>, at: u64, next: Option<u64>) -> Result<(), AllocError> {
    text.push(b'@')?;
    put_number(text, at)?;
    if let Some(location) = next {
        text.extend_from_slice(b" tl=@")?;
        put_number(text, location)?;
    }
    text.push(b'\n')?;
    Ok(())
}

/// The cells in the order of the list, which goes each time so many locations further, and around
/// at the end. It has all cells where the step has no divisor in common with their number.
pub fn listed(alloc: Global, count: u32, step: u32) -> Result<Vec<u8>, AllocError> {
    let mut text = Vec::from_slice(alloc, b"p = @1\n")?;
    let mut here: u64 = 0;
    for i in 0..count {
        let next = (here + step as u64) % (count as u64);
        let more = if next == 0 { None } else { Some(next + 1) };
        put_cell(&mut text, here + 1, more)?;
        here = next;
    }
    Ok(text)
}

/// The cells from the last location down to the first, each with the next higher one as its next.
pub fn reversed(alloc: Global, count: u32) -> Result<Vec<u8>, AllocError> {
    let mut text = Vec::from_slice(alloc, b"p = @1\n")?;
    for i in 0..count {
        let at = (count - i) as u64;
        put_cell(&mut text, at, if i == 0 { None } else { Some(at + 1) })?;
    }
    Ok(text)
}
